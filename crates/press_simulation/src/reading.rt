//! A file with a scenario, in lines of words: what it is named by, and numbers. Members are named
//! from 1.

use crate::scenario::{Fault, MOST_MEMBERS, Scenario, Step, Wire};
use std::alloc::{AllocError, Global};

fn number(words: &[&str], at: usize) -> Option<u64> {
    words.get(at)?.parse().ok()
}

// The place of the member of that word.
fn place(words: &[&str], at: usize) -> Option<usize> {
    let number: usize = words.get(at)?.parse().ok()?;
    number.checked_sub(1)
}

// A fault with a member and a number.
fn of_member(words: &[&str]) -> Option<Fault> {
    let place = place(words, 1)?;
    let amount = number(words, 2);
    match *words.first()? {
        "kill" => Some(Fault::Kill(place)),
        "start" => Some(Fault::Start {
            place,
            stops: amount,
        }),
        "fill" => Some(Fault::Fill {
            place,
            room: amount?,
        }),
        "room" => Some(Fault::Room(place)),
        "foreign" => Some(Fault::Foreign(place)),
        "keep" => Some(Fault::Keep(place)),
        "empty" => Some(Fault::Empty(place)),
        "back" => Some(Fault::Back {
            place,
            copy: (amount? as usize).checked_sub(1)?,
        }),
        "pause" => Some(Fault::Pause {
            place,
            millis: amount?,
        }),
        "jump" => Some(Fault::Jump {
            place,
            millis: amount?,
        }),
        "lie" => Some(Fault::Lie {
            place,
            more: amount?,
        }),
        "burst" => Some(Fault::Burst {
            place,
            count: amount?,
        }),
        _ => None,
    }
}

fn fault_of(words: &[&str]) -> Option<Fault> {
    match *words.first()? {
        "heal" => Some(Fault::Heal),
        "outage" => Some(Fault::Outage),
        "all" => Some(Fault::Everywhere),
        "part" => Some(Fault::Part(number(words, 1)?)),
        "cut" => Some(Fault::Cut {
            from: place(words, 1)?,
            to: place(words, 2)?,
        }),
        "give" => Some(Fault::Give {
            place: place(words, 1)?,
            to: place(words, 2)?,
        }),
        _ => of_member(words),
    }
}

fn blank(alloc: Global) -> Scenario {
    Scenario {
        seed: 0,
        members: 3,
        tick: 100,
        is_sql: false,
        wire: Wire::good(),
        rest: Wire::good(),
        forms: 0,
        pages: 0,
        rush: 20,
        calm: 1_000,
        steps: Vec::new(alloc),
    }
}

fn take_wire(wire: &mut Wire, word: &str, number: u64) -> bool {
    match word {
        "least" => wire.least = number,
        "most" => wire.most = number,
        "lost" => wire.lost = number,
        "twice" => wire.repeated = number,
        _ => return false,
    }
    true
}

fn take_size(scenario: &mut Scenario, word: &str, number: u64) -> bool {
    match word {
        "members" => scenario.members = number.clamp(1, MOST_MEMBERS as u64) as u8,
        "tick" => scenario.tick = number.min(1_000_000) as u32,
        "sql" => scenario.is_sql = number > 0,
        _ => return false,
    }
    true
}

fn take_count(scenario: &mut Scenario, word: &str, number: u64) -> bool {
    match word {
        "seed" => scenario.seed = number,
        "forms" => scenario.forms = number,
        "pages" => scenario.pages = number,
        "rush" => scenario.rush = number,
        "calm" => scenario.calm = number,
        _ => return false,
    }
    true
}

// Takes a line that isn't a fault's.
fn take(scenario: &mut Scenario, words: &[&str]) -> Option<()> {
    let (word, number) = (*words.first()?, number(words, 1)?);
    let is_taken = match word.strip_prefix("rest-") {
        Some(word) => take_wire(&mut scenario.rest, word, number),
        None => {
            take_wire(&mut scenario.wire, word, number)
                || take_size(scenario, word, number)
                || take_count(scenario, word, number)
        }
    };
    if is_taken { Some(()) } else { None }
}

// Takes the line of a fault.
fn take_fault(scenario: &mut Scenario, words: &[&str]) -> Result<Option<()>, AllocError> {
    let (Some(at), Some(rest)) = (number(words, 1), words.get(2..)) else {
        return Ok(None);
    };
    match fault_of(rest) {
        Some(fault) => {
            scenario.steps.push(Step { at, fault })?;
            Ok(Some(()))
        }
        None => Ok(None),
    }
}

// Takes a line; None where it is none.
fn take_line(scenario: &mut Scenario, words: &[&str]) -> Result<Option<()>, AllocError> {
    match words.first() {
        None => Ok(Some(())),
        Some(word) if *word == "at" => take_fault(scenario, words),
        Some(_) => Ok(take(scenario, words)),
    }
}

fn take_words(
    scenario: &mut Scenario,
    alloc: Global,
    line: &str,
) -> Result<Option<()>, AllocError> {
    let mut words = Vec::new(alloc);
    for word in line.split_whitespace() {
        words.push(word)?;
    }
    take_line(scenario, &words)
}

/// The scenario of a file, whose faults stand in the order of time. None where a line is none of a
/// scenario.
pub fn read(alloc: Global, text: &str) -> Result<Option<Scenario>, AllocError> {
    let mut scenario = blank(alloc);
    for line in text.lines() {
        if take_words(&mut scenario, alloc, line)?.is_none() {
            return Ok(None);
        }
    }
    Ok(Some(scenario))
}
