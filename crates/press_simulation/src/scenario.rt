//! What is played: members, how bad the network is, what comes, and which faults happen when.

use crate::dice::Dice;
use std::alloc::{AllocError, Global};

/// So many members a cluster has at most.
pub const MOST_MEMBERS: u8 = 7;

/// How long requests take, and how many of a thousand are lost and come twice.
#[derive(Clone, Copy, Drop)]
pub struct Wire {
    pub least: u64,
    pub most: u64,
    pub lost: u64,
    pub repeated: u64,
}

impl Wire {
    /// One that loses nothing.
    pub fn good() -> Wire {
        Wire {
            least: 1,
            most: 5,
            lost: 0,
            repeated: 0,
        }
    }
}

/// What happens to a member or to the network. Members are named by their places, from 0.
#[derive(Clone, Copy, Drop)]
pub enum Fault {
    Kill(usize),
    /// It starts over what its disk kept, which stops behind so many writes.
    Start { place: usize, stops: Option<u64> },
    /// It starts over what its disk kept, which has room for so many writes, and for none whenever
    /// it starts again.
    Fill { place: usize, room: u64 },
    /// Its disk has room again.
    Room(usize),
    /// It starts with other digests.
    Foreign(usize),
    /// Its files are given to the member at another place, and then to it again.
    Give { place: usize, to: usize },
    /// Nothing goes from the one to the other.
    Cut { from: usize, to: usize },
    /// The members with these bits are cut off from the others.
    Part(u64),
    Heal,
    /// It does nothing for so many milliseconds.
    Pause { place: usize, millis: u64 },
    /// Its clock goes forward.
    Jump { place: usize, millis: u64 },
    /// From now on it reports that so many more slots are chosen than are.
    Lie { place: usize, more: u64 },
    /// So many forms come to it at once.
    Burst { place: usize, count: u64 },
    /// A form comes to each member at once.
    Everywhere,
    /// All members end, and start again soon.
    Outage,
    /// It ends, a copy of its disk is taken, and it starts.
    Keep(usize),
    /// It ends, its disk is emptied, and it starts.
    Empty(usize),
    /// It ends, that copy of its disk, from 0, is put back, and it starts.
    Back { place: usize, copy: usize },
}

#[derive(Clone, Copy, Drop)]
pub struct Step {
    pub at: u64,
    pub fault: Fault,
}

#[derive(Drop)]
pub struct Scenario {
    pub seed: u64,
    pub members: u8,
    pub tick: u32,
    pub is_sql: bool,
    pub wire: Wire,
    /// The network once faults have ended.
    pub rest: Wire,
    /// Milliseconds from one form to the next, and from one page; 0 for none.
    pub forms: u64,
    pub pages: u64,
    /// How many forms come to each member at once at the end.
    pub rush: u64,
    /// When faults end.
    pub calm: u64,
    pub steps: Vec<Step>,
}

impl Scenario {
    /// What stores are kept in.
    pub fn store(&self) -> &'static str {
        if self.is_sql { "databases" } else { "memory" }
    }
}

// 3 and 5 are more usual than 1 and 7.
fn members(dice: &mut Dice) -> u8 {
    match dice.below(20) {
        0 => 1,
        1 | 2 => MOST_MEMBERS,
        3..=8 => 5,
        _ => 3,
    }
}

fn draw_wire(dice: &mut Dice) -> Wire {
    match dice.below(4) {
        0 => Wire::good(),
        1 => Wire {
            least: 1,
            most: dice.between(2, 40),
            lost: dice.below(30),
            repeated: dice.below(30),
        },
        2 => Wire {
            least: dice.between(1, 30),
            most: dice.between(30, 120),
            lost: dice.below(60),
            repeated: dice.below(200),
        },
        _ => Wire {
            least: 1,
            most: dice.between(5, 300),
            lost: dice.below(250),
            repeated: dice.below(250),
        },
    }
}

// Mostly a good one.
fn draw_rest(dice: &mut Dice) -> Wire {
    if dice.below(4) != 0 {
        return Wire::good();
    }
    Wire {
        least: dice.between(1, 20),
        most: dice.between(20, 60),
        lost: dice.below(20),
        repeated: dice.below(100),
    }
}

fn every(dice: &mut Dice) -> u64 {
    match dice.below(5) {
        0 => 0,
        1 => dice.between(300, 1_500),
        2 => dice.between(3, 20),
        _ => dice.between(20, 300),
    }
}

fn stops(dice: &mut Dice) -> Option<u64> {
    if dice.below(3) == 0 {
        Some(dice.between(1, 60))
    } else {
        None
    }
}

fn one_way(dice: &mut Dice, members: u64) -> Fault {
    let from = dice.below(members);
    let to = dice.below(members);
    Fault::Cut {
        from: from as usize,
        to: to as usize,
    }
}

fn of_disk(dice: &mut Dice, place: usize) -> Fault {
    match dice.below(3) {
        0 => Fault::Room(place),
        1 => Fault::Fill { place, room: 0 },
        _ => {
            let room = dice.between(1, 60);
            Fault::Fill { place, room }
        }
    }
}

fn of_clock(dice: &mut Dice, place: usize) -> Fault {
    if dice.below(2) == 0 {
        let millis = dice.between(5, 3_000);
        Fault::Pause { place, millis }
    } else {
        let millis = dice.between(5, 20_000);
        Fault::Jump { place, millis }
    }
}

fn lie(dice: &mut Dice, place: usize) -> Fault {
    let more = match dice.below(3) {
        0 => 0,
        1 => dice.between(1, 100),
        _ => dice.between(100, 1_000_000),
    };
    Fault::Lie { place, more }
}

fn draw_fault(dice: &mut Dice, members: u64) -> Fault {
    let place = dice.below(members) as usize;
    match dice.below(27) {
        0..=4 => Fault::Kill(place),
        5..=9 => Fault::Start {
            place,
            stops: stops(dice),
        },
        10 => Fault::Foreign(place),
        11 | 12 => one_way(dice, members),
        13 | 14 => Fault::Part(dice.below(128)),
        15..=17 => Fault::Heal,
        18 | 19 => of_clock(dice, place),
        20 => lie(dice, place),
        21 | 22 => {
            let count = dice.between(1, 300);
            Fault::Burst { place, count }
        }
        23 => Fault::Outage,
        24 | 25 => of_disk(dice, place),
        _ => Fault::Everywhere,
    }
}

// Whether in the scenario of that number disks are emptied, or set back.
fn forgets(seed: u64) -> bool {
    seed >= 1_000 && (seed % 2 == 0 || seed % 40 == 39)
}

// What happens to a member whose disk is emptied or set back.
fn draw_loss(dice: &mut Dice, place: usize) -> Fault {
    match dice.below(8) {
        0..=2 => Fault::Keep(place),
        3 => Fault::Empty(place),
        4 => Fault::Kill(place),
        _ => {
            let copy = dice.below(2) as usize;
            Fault::Back { place, copy }
        }
    }
}

// Some of the faults are those of a disk that is emptied or set back, mostly of the same member.
fn lose(dice: &mut Dice, scenario: &mut Scenario) {
    let often = dice.between(2, 5);
    let members = u64::from(scenario.members);
    let (first, second) = (dice.below(members), dice.below(members));
    for step in scenario.steps.iter_mut() {
        if dice.below(often) == 0 {
            let place = if dice.below(4) == 0 { second } else { first };
            step.fault = draw_loss(dice, place as usize);
        }
    }
}

// Fewer forms come, since a database of simulated files takes its time.
fn ease(scenario: &mut Scenario) {
    scenario.rush = 5;
    if scenario.forms > 0 {
        scenario.forms = scenario.forms.max(150);
    }
    for step in scenario.steps.iter_mut() {
        if let Fault::Burst { place, count } = step.fault {
            let count = count.min(20);
            step.fault = Fault::Burst { place, count };
        }
    }
}

/// The scenario of that number.
pub fn draw(alloc: Global, seed: u64) -> Result<Scenario, AllocError> {
    let mut dice = Dice::new(seed);
    let members = members(&mut dice);
    let wire = draw_wire(&mut dice);
    let rest = draw_rest(&mut dice);
    let mut steps = Vec::new(alloc);
    let count = dice.below(30);
    let longest = dice.between(30, 900);
    let mut at = dice.between(1, 2_000);
    for _ in 0..count {
        at = at.saturating_add(dice.between(1, longest));
        let fault = draw_fault(&mut dice, u64::from(members));
        steps.push(Step { at, fault })?;
    }
    let tick = u32::try_from(dice.between(50, 1_000)).unwrap_or(1_000);
    let mut scenario = Scenario {
        seed,
        members,
        tick,
        is_sql: seed % 20 == 19,
        wire,
        rest,
        forms: every(&mut dice),
        pages: every(&mut dice),
        rush: 20,
        calm: at.saturating_add(dice.between(1, 500)),
        steps,
    };
    if forgets(seed) {
        lose(&mut dice, &mut scenario);
    }
    if scenario.is_sql {
        ease(&mut scenario);
    }
    Ok(scenario)
}
