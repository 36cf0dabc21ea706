//! Schedules of clusters.

use crate::cluster::Cluster;
use crate::failing::{Fails, Reader, Writer};
use crate::piece_reader::PieceReader;
use crate::word::Word;
use press_callbacks::{BoxedTurns, CallIn, Kit, Stored};
use press_fakes::Fuse;
use press_kit::{KitParts, read_kit_file};
use press_text::Copied;
use press_wire::MOST_MEMBERS;
use press_world::{ReplayFault, replay};
use std::alloc::{AllocError, Global};
use std::fs;
use std::io::{Read, Write};
use std::rc::Rc;

// How many nodes a schedule has whose closures run out of memory.
const MEMBERS: usize = 3;

/// What stands at the place of a number.
const NUMBERS: [&str; 16] = [
    "1",
    "0",
    "8",
    "4294967296",
    "1099511627777",
    "18446744073709551615",
    "18446744073709551616",
    "-1",
    "-0",
    "0.5",
    "1.0",
    "1e1",
    "1e400",
    "01",
    "null",
    "\"1\"",
];

/// What a schedule prints, and the number of its fault.
#[derive(Drop)]
struct Transcript {
    bytes: Vec<u8>,
    fault: Option<u8>,
}

// What ends a replay over empty kits before its end.
fn fault_of_replay<R: Read, W: Write>(
    alloc: Global,
    reader: &mut R,
    writer: &mut W,
) -> anyhow::Result<Option<ReplayFault>> {
    let mut kits = Vec::new(alloc);
    for _ in 0..MOST_MEMBERS as usize {
        let kit = Kit::build(alloc, Vec::new(alloc), Vec::new(alloc))?;
        kits.push(kit)?;
    }
    Ok(replay(alloc, kits, reader, writer).err())
}

fn transcript_of(alloc: Global, schedule: &[u8]) -> anyhow::Result<Transcript> {
    let mut reader = PieceReader::new(schedule, 4096);
    let mut bytes = Vec::new(alloc);
    let fault = match fault_of_replay(alloc, &mut reader, &mut bytes)? {
        Some(fault) => Some(fault.number()),
        None => None,
    };
    Ok(Transcript { bytes, fault })
}

/// Prints the transcript of the schedule in a file over empty kits, or its fault.
pub fn replay_file(rt: &HostRuntime, name: &str) -> anyhow::Result<()> {
    let file = fs::read(rt, name)?;
    let Transcript { bytes, fault } = transcript_of(rt.alloc(), &file)?;
    rt.stdout().write_all(&bytes)?;
    if let Some(number) = fault {
        println!(rt; "fault {number}")?;
    }
    Ok(())
}

// The lines of a text without their ends, where the second one stands so many times.
fn stretch(alloc: Global, text: &str, count: u32) -> Result<Vec<u8>, AllocError> {
    let mut made = Vec::new(alloc);
    for (place, line) in text.split('\n').enumerate() {
        let times = if place == 1 { count } else { 1 };
        for _ in 0..times {
            made.extend_from_slice(line.as_bytes())?;
        }
    }
    Ok(made)
}

/// Prints how long the schedule is that a file's lines make, where the second one stands so many
/// times, and how many lines of a transcript it gives, with its fault.
pub fn replay_long(rt: &HostRuntime, count: u32, name: &str) -> anyhow::Result<()> {
    let file = fs::read(rt, name)?;
    let schedule = stretch(rt.alloc(), std::str::from_utf8(&file)?, count)?;
    let Transcript { bytes, fault } = transcript_of(rt.alloc(), &schedule)?;
    let lines = bytes.iter().filter(|byte| **byte == b'\n').count();
    match fault {
        None => println!(rt; "{} bytes: {lines} lines", schedule.len())?,
        Some(number) => println!(rt; "{} bytes: {lines} lines, fault {number}", schedule.len())?,
    }
    Ok(())
}

// Whether the schedule is a bad one, of which nothing is printed.
fn is_bad(alloc: Global, schedule: &str) -> anyhow::Result<bool> {
    let Transcript { bytes, fault } = transcript_of(alloc, schedule.as_bytes())?;
    Ok(fault == Some(72) && bytes.is_empty())
}

/// Prints of each number how many of a file's lines are bad schedules with it in place of their
/// `@`.
pub fn replay_numbers(rt: &HostRuntime, name: &str) -> anyhow::Result<()> {
    let alloc = rt.alloc();
    let file = fs::read(rt, name)?;
    let text = std::str::from_utf8(&file)?;
    for number in NUMBERS {
        let (mut count, mut bad) = (0u32, 0u32);
        for line in text.split('\n') {
            if let Some((front, back)) = line.split_once('@') {
                let schedule = format!(in alloc; "{front}{number}{back}")?;
                count = count.saturating_add(1);
                if is_bad(alloc, schedule.as_str())? {
                    bad = bad.saturating_add(1);
                }
            }
        }
        println!(rt; "{number}: {bad} of {count} bad")?;
    }
    Ok(())
}

// How many of the reads of a schedule may fail with nothing written, and of how many.
fn reads_of(alloc: Global, schedule: &[u8], reads: u64) -> anyhow::Result<u64> {
    let mut failed = 0u64;
    for at in 1..=reads {
        let mut reader = Reader::new(schedule, at);
        let mut written = Vec::new(alloc);
        let fault = fault_of_replay(alloc, &mut reader, &mut written)?;
        let is_closed = reader.reads == at && written.is_empty();
        if fault == Some(ReplayFault::ReadFault) && is_closed {
            failed = failed.saturating_add(1);
        }
    }
    Ok(failed)
}

// How many of the writes of a transcript may fail, in two ways, with a front of it written.
fn writes_of(alloc: Global, schedule: &[u8], whole: &Writer) -> anyhow::Result<u64> {
    let mut failed = 0u64;
    for fails in [Fails::WithError, Fails::TakesNone] {
        for at in 1..=whole.writes {
            let mut reader = Reader::new(schedule, 0);
            let mut writer = Writer::new(alloc, at, fails);
            let fault = fault_of_replay(alloc, &mut reader, &mut writer)?;
            if fault == Some(ReplayFault::WriteFault) && writer.has_front_of(&whole.taken) {
                failed = failed.saturating_add(1);
            }
        }
    }
    Ok(failed)
}

/// Replays a schedule with each of its reads failing, then with each of its writes.
pub fn fail_replay(rt: &HostRuntime, name: &str) -> anyhow::Result<()> {
    let alloc = rt.alloc();
    let schedule = fs::read(rt, name)?;
    let mut reader = Reader::new(&schedule, 0);
    let mut whole = Writer::new(alloc, 0, Fails::WithError);
    let _ = fault_of_replay(alloc, &mut reader, &mut whole)?;
    let reads = reader.reads;
    let failed = reads_of(alloc, &schedule, reads)?;
    println!(rt; "{failed} of {reads} reads fail with 40")?;
    let failed = writes_of(alloc, &schedule, &whole)?;
    let writes = whole.writes.saturating_mul(2);
    println!(rt; "{failed} of {writes} writes fail with 42")?;
    Ok(())
}

// Replays a schedule over kits of a kit file, of whose calls the one of that number runs out of
// memory.
fn play_at(kit: &[u8], cluster: &mut Cluster<'_>, at: u64, restarts: bool) -> anyhow::Result<()> {
    let alloc = cluster.alloc;
    let mut kits: Vec<Kit> = Vec::new(alloc);
    for _i in 0..MEMBERS {
        let parts = read_kit_file(alloc, kit)?;
        let mut callbacks: Vec<Stored> = Vec::new(alloc);
        for scripted in parts.callbacks.into_vec() {
            let own = scripted.script.copy_in(alloc)?;
            let fuse = cluster.fuse.clone()?;
            let call: BoxedTurns = Box::new(
                alloc,
                move |input: &CallIn| fuse.turn(alloc, &own, input),
            )?;
            callbacks.push(Stored::new(scripted.id, scripted.script, call))?;
        }
        kits.push(Kit::build(alloc, callbacks, parts.plugins.into_vec())?)?;
    }
    if restarts {
        return cluster.restart(kits, at);
    }
    cluster.transcript(kits, at);
    Ok(())
}

// Each of the calls that a schedule makes runs out of memory in turn.
fn play_schedule(rt: &HostRuntime, kit: &[u8], name: &str) -> anyhow::Result<()> {
    let schedule = fs::read(rt, name)?;
    let fuse = Rc::new(rt.alloc(), Fuse::new())?;
    let mut cluster = Cluster::new(rt.alloc(), fuse, &schedule);
    for restarts in [false, true] {
        play_at(kit, &mut cluster, 0, restarts)?;
        let calls = cluster.transcripts.calls;
        for before in 0..calls {
            let at = before.saturating_add(1);
            play_at(kit, &mut cluster, at, restarts)?;
        }
    }
    let calls = cluster.transcripts.calls;
    let (refused, back) = (cluster.transcripts.refused, cluster.restarts.refused);
    println!(rt; "{name}: {refused} of {calls} calls refused, {back} nodes brought back")?;
    Ok(())
}

/// Replays the schedules of files over kits of a kit file whose closures run out of memory.
pub fn play_cluster(rt: &HostRuntime, kit: &str, words: &[Word<'_>]) -> anyhow::Result<()> {
    let kit = fs::read(rt, kit)?;
    for word in words {
        if let Word::File(name) = word {
            play_schedule(rt, &kit, name)?;
        }
    }
    Ok(())
}
