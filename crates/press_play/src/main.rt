//! Plays kit files: `press_play [FILE ..]` plays the files in turn, or standard input, and prints a
//! line of JSON for each command, page and play.
//!
//! A file with a fault gets a line with it, and one on standard error, there with what is wrong and
//! where, and the program then ends with status 2. What in a file is surely a slip is printed on
//! standard error alone.
#![tactic(auto)]

mod answered;
mod book;
mod commands;
mod fault;
mod journal;
mod line;
mod notes;
mod pages;
mod played;
mod plays;
mod retold;
mod sites;

use crate::answered::{play_input, write_fault};
use crate::fault::PlayFault;
use crate::notes::Notes;
use press_text::{WriteFault, write_once};
use std::io::Read;
use std::process::ExitCode;
use std::{env, fs, io};

// A line that can't be written is dropped.
fn tell(rt: &HostRuntime, name: &str, fault: PlayFault, why: &str) {
    let number = fault.number();
    let _ = if why.is_empty() {
        eprintln!(rt; "press_play: fault {number} in {name}")
    } else {
        eprintln!(rt; "press_play: fault {number} in {name}: {why}")
    };
}

// Plays what a reader has left; its fault.
fn play_reader<R: Read>(
    rt: &HostRuntime,
    reader: &mut R,
    notes: &mut Notes,
) -> Result<Option<PlayFault>, WriteFault> {
    play_input(rt.alloc(), reader, &mut rt.stdout(), notes)
}

// Plays a file by its name, or standard input for `-`; its fault.
fn play_file(
    rt: &HostRuntime,
    name: &str,
    notes: &mut Notes,
) -> Result<Option<PlayFault>, WriteFault> {
    if name == "-" {
        return play_reader(rt, &mut rt.stdin(), notes);
    }
    match fs::open(rt, name) {
        Ok(mut file) => play_reader(rt, &mut file, notes),
        Err(_) => write_fault(rt.alloc(), PlayFault::ReadFault, &mut rt.stdout()),
    }
}

// Plays a file, or standard input for `-`; whether it gave its lines.
fn play(rt: &HostRuntime, name: &str) -> Result<bool, WriteFault> {
    let Ok(mut notes) = Notes::new(rt.alloc(), name) else {
        tell(rt, name, PlayFault::NoMemory, "");
        return Ok(false);
    };
    let fault = play_file(rt, name, &mut notes)?;
    let _ = write_once(&mut rt.stderr(), notes.slips.as_bytes());
    let told = notes.journal.take_lines(rt.alloc());
    let _ = write_once(&mut rt.stderr(), told.as_bytes());
    match fault {
        None => Ok(true),
        Some(fault) => {
            tell(rt, name, fault, notes.why.as_str());
            Ok(false)
        }
    }
}

// Plays the files that are named, or else standard input; whether all gave their lines.
fn play_all(rt: &HostRuntime, names: &[String]) -> Result<bool, WriteFault> {
    if names.is_empty() {
        return play(rt, "-");
    }
    let mut well = true;
    for name in names {
        well = play(rt, name.as_str())? && well;
    }
    Ok(well)
}

// The words after the program's name.
fn words_of(rt: &HostRuntime) -> io::Result<Vec<String>> {
    let mut words = Vec::new(rt.alloc());
    for word in env::args(rt)?.skip(1) {
        words.push(word)?;
    }
    Ok(words)
}

// Tells a fault that is no file's.
fn stop(rt: &HostRuntime, number: u8) -> ExitCode {
    let _ = eprintln!(rt; "press_play: fault {number}");
    ExitCode::from(2)
}

// After a write that failed there is no other.
fn main(rt: HostRuntime) -> ExitCode {
    let Ok(words) = words_of(&rt) else {
        return stop(&rt, 0);
    };
    match play_all(&rt, &words) {
        Ok(true) => ExitCode::from(0),
        Ok(false) => ExitCode::from(2),
        Err(WriteFault) => stop(&rt, 42),
    }
}
