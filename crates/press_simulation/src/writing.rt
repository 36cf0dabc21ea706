//! The lines of a scenario, as a file has them.

use crate::scenario::{Fault, Scenario, Wire};
use std::alloc::{AllocError, Global};

// What a fault is named by, and its numbers, members by theirs.
#[derive(Clone, Copy)]
struct Parts {
    word: &'static str,
    first: Option<u64>,
    second: Option<u64>,
}

fn spell(word: &'static str, first: Option<u64>, second: Option<u64>) -> Parts {
    Parts {
        word,
        first,
        second,
    }
}

fn member(place: usize) -> Option<u64> {
    Some((place as u64).saturating_add(1))
}

fn parts_of(fault: Fault) -> Parts {
    match fault {
        Fault::Kill(place) => spell("kill", member(place), None),
        Fault::Start { place, stops } => spell("start", member(place), stops),
        Fault::Fill { place, room } => spell("fill", member(place), Some(room)),
        Fault::Room(place) => spell("room", member(place), None),
        Fault::Foreign(place) => spell("foreign", member(place), None),
        Fault::Cut { from, to } => spell("cut", member(from), member(to)),
        Fault::Give { place, to } => spell("give", member(place), member(to)),
        Fault::Part(side) => spell("part", Some(side), None),
        Fault::Heal => spell("heal", None, None),
        Fault::Pause { place, millis } => spell("pause", member(place), Some(millis)),
        Fault::Jump { place, millis } => spell("jump", member(place), Some(millis)),
        Fault::Lie { place, more } => spell("lie", member(place), Some(more)),
        Fault::Burst { place, count } => spell("burst", member(place), Some(count)),
        Fault::Outage => spell("outage", None, None),
        Fault::Everywhere => spell("all", None, None),
        Fault::Keep(place) => spell("keep", member(place), None),
        Fault::Empty(place) => spell("empty", member(place), None),
        Fault::Back { place, copy } => spell("back", member(place), member(copy)),
    }
}

fn push_number(alloc: Global, line: &mut String, number: Option<u64>) -> Result<(), AllocError> {
    if let Some(number) = number {
        let text = format!(in alloc; " {number}")?;
        line.push_str(text.as_str())?;
    }
    Ok(())
}

/// The line of a fault at a time.
pub fn fault_line(alloc: Global, at: u64, fault: Fault) -> Result<String, AllocError> {
    let parts = parts_of(fault);
    let word = parts.word;
    let mut line = format!(in alloc; "at {at} {word}")?;
    push_number(alloc, &mut line, parts.first)?;
    push_number(alloc, &mut line, parts.second)?;
    Ok(line)
}

fn push_row(alloc: Global, text: &mut String, word: &str, number: u64) -> Result<(), AllocError> {
    let row = format!(in alloc; "{word} {number}\n")?;
    text.push_str(row.as_str())
}

// How long requests take, and how many are lost and come twice, by words that begin so.
fn push_wire(alloc: Global, text: &mut String, front: &str, wire: Wire) -> Result<(), AllocError> {
    let rows = [
        ("least", wire.least),
        ("most", wire.most),
        ("lost", wire.lost),
        ("twice", wire.repeated),
    ];
    for (word, number) in rows {
        text.push_str(front)?;
        push_row(alloc, text, word, number)?;
    }
    Ok(())
}

fn push_head(alloc: Global, text: &mut String, scenario: &Scenario) -> Result<(), AllocError> {
    let rows = [
        ("seed", scenario.seed),
        ("members", u64::from(scenario.members)),
        ("tick", u64::from(scenario.tick)),
        ("sql", u64::from(scenario.is_sql)),
        ("forms", scenario.forms),
        ("pages", scenario.pages),
        ("rush", scenario.rush),
        ("calm", scenario.calm),
    ];
    for (word, number) in rows {
        push_row(alloc, text, word, number)?;
    }
    Ok(())
}

/// What a file with the scenario has.
pub fn text_of(alloc: Global, scenario: &Scenario) -> Result<String, AllocError> {
    let mut text = String::new(alloc);
    push_head(alloc, &mut text, scenario)?;
    push_wire(alloc, &mut text, "", scenario.wire)?;
    push_wire(alloc, &mut text, "rest-", scenario.rest)?;
    for step in scenario.steps.iter() {
        let line = fault_line(alloc, step.at, step.fault)?;
        text.push_str(line.as_str())?;
        text.push_str("\n")?;
    }
    Ok(text)
}
