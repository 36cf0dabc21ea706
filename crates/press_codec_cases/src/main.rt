//! Reads files as requests, commands, messages and batches: `press_codec_cases FILE ..` prints what
//! each asks or spells, or which fault it has. `replies` in place of a file prints replies,
//! `writes` replies whose writes fail; after a word `fails` it is shown what comes of requests whose reads
//! fail, after a word `spoils` what comes of files that are cut, lengthened, or have a number at
//! its greatest, after a word `lengths` what comes of requests whose `Content-Length` is at a limit
//! or past it, and after a word `times=N` or `heads=N` the files are only read, that many times,
//! for measuring.
#![tactic(auto)]

mod batches;
mod failing;
mod kind;
mod piece_reader;
mod replies;
mod requests;
mod spoiled;
mod times;
mod wires;

use crate::batches::show_batch;
use crate::failing::{show_failing_reads, show_failing_writes};
use crate::kind::Kind;
use crate::replies::show_replies;
use crate::requests::show_request;
use crate::spoiled::{show_lengths, show_spoiled};
use crate::times::{again, heads};
use crate::wires::show_spelled;
use press_apply::Value;
use press_wire::Message;
use std::{env, fs};

// What is done with the files that are named next.
#[derive(Clone, Copy)]
enum Task {
    Show,
    Fail,
    Spoil,
    Lengthen,
    Read(u32),
    ReadHead(u32),
}

impl Task {
    // The task that an argument sets, if it sets one.
    fn from_word(word: &str) -> Option<Task> {
        if word == "fails" {
            return Some(Task::Fail);
        }
        if word == "spoils" {
            return Some(Task::Spoil);
        }
        if word == "lengths" {
            return Some(Task::Lengthen);
        }
        if let Some(times) = word.strip_prefix("times=") {
            return times.parse().ok().map(Task::Read);
        }
        if let Some(times) = word.strip_prefix("heads=") {
            return times.parse().ok().map(Task::ReadHead);
        }
        None
    }
}

fn show(rt: &HostRuntime, name: &str, bytes: &[u8]) -> anyhow::Result<()> {
    match Kind::of(name) {
        Kind::Command => show_spelled::<Value>(rt, name, bytes),
        Kind::Message => show_spelled::<Message>(rt, name, bytes),
        Kind::Batch => show_batch(rt, name, bytes),
        Kind::Request => show_request(rt, name, bytes),
    }
}

fn play(rt: &HostRuntime, task: Task, name: &str) -> anyhow::Result<()> {
    if name == "replies" {
        return show_replies(rt);
    }
    if name == "writes" {
        return show_failing_writes(rt);
    }
    let bytes = fs::read(rt, name)?;
    match task {
        Task::Show => show(rt, name, &bytes)?,
        Task::Fail => show_failing_reads(rt, name, &bytes)?,
        Task::Spoil => show_spoiled(rt, name, &bytes)?,
        Task::Lengthen => show_lengths(rt, name, &bytes)?,
        Task::Read(times) => again(rt.alloc(), Kind::of(name), &bytes, times),
        Task::ReadHead(times) => heads(&bytes, times),
    }
    Ok(())
}

fn main(rt: HostRuntime) -> anyhow::Result<()> {
    let mut task = Task::Show;
    for word in env::args(&rt)?.skip(1) {
        match Task::from_word(word.as_str()) {
            Some(next) => task = next,
            None => play(&rt, task, word.as_str())?,
        }
    }
    Ok(())
}
