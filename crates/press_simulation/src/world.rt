//! Members on one clock, and what is on its way between them.

use crate::actor::{Actor, Answer, Input, Standing};
use crate::forms::{Forms, Taken};
use crate::heard::Heard;
use crate::judge::Judge;
use crate::links::Links;
use crate::network::Network;
use crate::scenario::{MOST_MEMBERS, Scenario};
use crate::seat::Seat;
use crate::tally::Tally;
use std::alloc::{AllocError, Global};

/// Members, their clock, what is on its way between them, and what came of all so far.
pub struct World<A: Actor> {
    pub alloc: Global,
    pub now: u64,
    pub tick: u32,
    /// When the last fault was.
    pub changed: u64,
    pub liar: Option<usize>,
    pub seats: Vec<Seat<A>>,
    pub network: Network<A::Letter>,
    pub judge: Judge,
    pub tally: Tally,
    pub heard: Heard,
    pub links: Links,
    pub forms: Forms,
}

impl<A: Actor> Drop for World<A> {
    fn drop(self) {
        let World {
            alloc: _,
            now: _,
            tick: _,
            changed: _,
            liar: _,
            seats: _,
            network: _,
            judge: _,
            tally: _,
            heard: _,
            links: _,
            forms: _,
        } = self;
    }
}

fn seats_of<A: Actor>(
    alloc: Global,
    members: u8,
    network: &mut Network<A::Letter>,
) -> Result<Vec<Seat<A>>, AllocError> {
    let mut seats = Vec::new(alloc);
    for place in 0..members {
        let at = network.draw(1, 300);
        seats.push(Seat::new(alloc, usize::from(place), members, at)?)?;
    }
    Ok(seats)
}

impl<A: Actor> World<A> {
    /// The members of a scenario, none of them started.
    pub fn new(alloc: Global, scenario: &Scenario) -> Result<World<A>, AllocError> {
        let members = scenario.members.min(MOST_MEMBERS);
        let mut network = Network::new(alloc, scenario.seed, scenario.wire)?;
        let heard = Heard::new(alloc, usize::from(members))?;
        let seats = seats_of(alloc, members, &mut network)?;
        Ok(World {
            alloc,
            now: 0,
            tick: scenario.tick,
            changed: 0,
            liar: None,
            seats,
            network,
            judge: Judge::new(alloc, members),
            tally: Tally::new(),
            heard,
            links: Links::new(alloc)?,
            forms: Forms::new(alloc),
        })
    }

    /// How many members there are.
    pub fn count(&self) -> usize {
        self.seats.len()
    }

    /// What is seen of a member.
    pub fn standing(&self, place: usize) -> Standing {
        match self.seats.get(place) {
            Some(seat) => seat.standing(),
            None => Standing::nobody(),
        }
    }

    /// How long a member still pauses.
    pub fn wait(&self, place: usize) -> u64 {
        match self.seats.get(place) {
            Some(seat) => seat.wait(self.now),
            None => 0,
        }
    }

    /// Whether a member takes anything now.
    pub fn is_awake(&self, place: usize) -> bool {
        self.wait(place) == 0 && self.standing(place).is_running
    }

    /// Which start of a member it is.
    pub fn life(&self, place: usize) -> u64 {
        match self.seats.get(place) {
            Some(seat) => seat.life(),
            None => 0,
        }
    }

    /// By which members of its cluster know a member.
    pub fn cluster(&self, place: usize) -> u64 {
        match self.seats.get(place) {
            Some(seat) => seat.cluster(),
            None => 0,
        }
    }

    /// What happens to a member.
    pub fn on(&mut self, place: usize, input: Input<A::Letter>) -> Result<Answer, AllocError>
        requires always { Unit {0} }
    {
        match self.seats.get_mut(place) {
            Some(seat) => seat.on(input),
            None => Ok(Answer::Nothing),
        }
    }

    fn line_of(&self, place: usize, text: &str) -> Result<String, AllocError> {
        let (now, member) = (self.now, place.saturating_add(1));
        format!(in self.alloc; "{now}: member {member} {text}")
    }

    /// Something of a member doesn't hold.
    pub fn complain(&mut self, place: usize, text: &str) -> Result<(), AllocError> {
        let line = self.line_of(place, text)?;
        self.judge.complain(line);
        Ok(())
    }

    /// Something of a member doesn't hold that has to hold of any run.
    pub fn accuse(&mut self, place: usize, text: &str) -> Result<(), AllocError> {
        let line = self.line_of(place, text)?;
        self.judge.accuse(line);
        Ok(())
    }

    fn value_of(&self, place: usize, number: u64) -> u64 {
        match self.seats.get(place) {
            Some(seat) => seat.value_of(number),
            None => 0,
        }
    }

    fn take(&mut self, place: usize, number: u64) -> Result<(), AllocError> {
        let form = Taken {
            number,
            value: self.value_of(place, number),
            place,
            life: self.life(place),
        };
        if !self.standing(place).is_open {
            self.complain(place, "takes a form before it is open")?;
        }
        self.forms.take(form)
    }

    /// A new form comes to a member.
    pub fn submit(&mut self, place: usize) -> Result<(), AllocError>
        requires always { Unit {0} }
    {
        if !self.is_awake(place) {
            return Ok(());
        }
        let number = self.forms.next();
        if self.on(place, Input::Form(number))? == Answer::Taken {
            self.take(place, number)?;
        }
        Ok(())
    }

    /// A form comes to each member.
    pub fn submit_everywhere(&mut self) -> Result<(), AllocError>
        requires always { Unit {0} }
    {
        for place in 0..self.count() {
            self.submit(place)?;
        }
        Ok(())
    }

    /// So many forms come to a member.
    pub fn submit_often(&mut self, place: usize, count: u64) -> Result<(), AllocError>
        requires always { Unit {0} }
    {
        for _ in 0..count {
            self.submit(place)?;
        }
        Ok(())
    }
}
