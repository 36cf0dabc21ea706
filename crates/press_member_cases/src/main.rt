//! Plays members of a cluster on one simulated clock, and looks whether what has to hold does:
//! `press_member_cases [WORD] CASE ..`. CASE is a number, by which members, network, forms and
//! faults are drawn, `A..B` for the numbers from A to before B, or a file with a scenario. `brief`
//! has a line told for each case, `steps` each fault as it happens; `shown` prints the scenarios as
//! such files have them, and plays nothing. The status is 1 where something doesn't hold. From 1,000
//! on, of even numbers and of each fortieth some faults are `keep`, `empty` and `back`, below.
//!
//! A member whose disk lacks some of its saves has to be told so within two seconds of being
//! connected with one that had heard of them, which hears nothing more of it, and no other ever is;
//! a line says how often one was. Where one was heard before, since nobody who had heard more was
//! there, nothing is promised of what is chosen, and nothing of that is judged from then on.
//!
//! A file has a line for each of `seed N` (of what is left to chance), `members N`, `tick MS`, `sql
//! 1` (stores are databases over simulated files, else in memory), `least MS` and `most MS` (how
//! long a request takes), `lost N` and `twice N` (of a thousand requests), the same four with
//! `rest-` before them (once faults have ended), `forms MS` and `pages MS` (how often one comes; 0:
//! never), `rush N` (how many forms come to each at the end), `calm MS` (when faults end); and, in
//! the order of time, `at MS FAULT`, of which a fault is `kill M`, `start M`, `start M N` (its disk
//! stops behind N writes, which are saves in memory, and writes and syncs of a database's files),
//! `fill M N` (it starts on a disk with room for N writes, and for none whenever it starts again),
//! `room M` (there is room again), `foreign M` (it starts with other digests), `give M N` (its
//! files are given to member N, which is not to run over them, and then to it again), `keep M` (it
//! ends, a copy of its disk is taken, and it starts), `empty M` and `back M N` (it ends, its disk is
//! emptied, or its copy N, from 1, is put back, and it starts), `cut A B` (nothing goes from A to
//! B), `part BITS` (members with these bits are cut off), `heal`, `pause M MS`, `jump M MS` (its
//! clock goes forward), `lie M N` (it reports N more slots than are chosen), `burst M N` (that many
//! forms), `all` (a form to each), `outage` (all end, and start again soon).
//!
//! Functions here that play an event on a node carry `requires always { Unit {0} }`, which always
//! holds: `docs/DECISIONS.md` says why the checker wants it.
#![tactic(auto)]

mod forms;
mod limited;
mod memory_shelf;
mod outward;
mod place;
mod shelf;
mod sql_shelf;
mod starts;
mod watched;

use crate::memory_shelf::MemoryShelf;
use crate::place::Place;
use crate::sql_shelf::OnFiles;
use press_simulation::{Outcome, Scenario, Telling, draw, play, read, text_of};
use std::alloc::{AllocError, Global};
use std::process::ExitCode;
use std::str::from_utf8;
use std::{env, fs, io};

fn words_of(rt: &HostRuntime) -> io::Result<Vec<String>> {
    let mut words = Vec::new(rt.alloc());
    for word in env::args(rt)?.skip(1) {
        words.push(word)?;
    }
    Ok(words)
}

// The numbers from one to before another.
fn range_of(word: &str) -> Option<(u64, u64)> {
    let (first, end) = word.split_once("..")?;
    Some((first.parse().ok()?, end.parse().ok()?))
}

fn scenario_in(rt: &HostRuntime, name: &str) -> anyhow::Result<Scenario> {
    let bytes = fs::read(rt, name)?;
    let Ok(text) = from_utf8(&bytes) else {
        return Err(anyhow::anyhow!("no text: {name}"));
    };
    match read(rt.alloc(), text)? {
        Some(scenario) => Ok(scenario),
        None => Err(anyhow::anyhow!("no scenario: {name}")),
    }
}

fn outcome_of(alloc: Global, scenario: &Scenario, telling: Telling) -> Result<Outcome, AllocError>
    requires always { Unit {0} }
{
    if scenario.is_sql {
        play::<Place<OnFiles>>(alloc, scenario, telling)
    } else {
        play::<Place<MemoryShelf>>(alloc, scenario, telling)
    }
}

fn print_all(rt: &HostRuntime, lines: &[String]) -> io::Result<()> {
    for line in lines.iter() {
        println!(rt; "{line}")?;
    }
    Ok(())
}

// What is done with a scenario.
#[derive(Clone, Copy)]
enum Work {
    Show,
    Play(Telling),
}

fn work_of(word: &str) -> Option<Work> {
    match word {
        "brief" => Some(Work::Play(Telling::Brief)),
        "steps" => Some(Work::Play(Telling::Steps)),
        "shown" => Some(Work::Show),
        _ => None,
    }
}

// Whether all holds, where it is played.
fn do_with(rt: &HostRuntime, scenario: &Scenario, how: Work) -> anyhow::Result<bool>
    requires always { Unit {0} }
{
    match how {
        Work::Play(telling) => {
            let outcome = outcome_of(rt.alloc(), scenario, telling)?;
            print_all(rt, outcome.lines.as_slice())?;
            Ok(outcome.holds)
        }
        Work::Show => {
            let text = text_of(rt.alloc(), scenario)?;
            print!(rt; "{text}")?;
            Ok(true)
        }
    }
}

// The same with the scenario of each of the numbers.
fn do_with_range(rt: &HostRuntime, first: u64, end: u64, how: Work) -> anyhow::Result<bool>
    requires always { Unit {0} }
{
    let mut holds = true;
    for seed in first..end {
        holds &= do_with(rt, &draw(rt.alloc(), seed)?, how)?;
    }
    Ok(holds)
}

// The same with each case of a word.
fn do_with_word(rt: &HostRuntime, word: &str, how: Work) -> anyhow::Result<bool>
    requires always { Unit {0} }
{
    if let Ok(seed) = word.parse::<u64>() {
        return do_with_range(rt, seed, seed.saturating_add(1), how);
    }
    match range_of(word) {
        Some((first, end)) => do_with_range(rt, first, end, how),
        None => do_with(rt, &scenario_in(rt, word)?, how),
    }
}

fn main(rt: HostRuntime) -> anyhow::Result<ExitCode> {
    let words = words_of(&rt)?;
    let mut how = Work::Play(Telling::Whole);
    let mut holds = true;
    for word in words.iter() {
        match work_of(word.as_str()) {
            Some(next) => how = next,
            None => holds &= do_with_word(&rt, word.as_str(), how)?,
        }
    }
    Ok(ExitCode::from(u8::from(!holds)))
}
