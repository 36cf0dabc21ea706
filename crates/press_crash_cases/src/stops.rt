//! Stops of a store on two files in memory, at each call that one of them gets; after each the
//! files crash, and a store is opened over them again. It keeps what is kept after the steps that
//! were done, or after one more.

use crate::asks::{answer_to, owner_among};
use crate::command::{command_over, goes_on_over};
use crate::kept::{has_voted, kept_text};
use crate::stores::fuse_files;
use crate::words::Session;
use press_store::{Notes, Owner, SqlStore};
use sqlite::{Alter, Connection, Files, Options};
use sqlite_disk::{Crash, Disk};
use std::alloc::Global;
use std::rc::Rc;

// More calls than any run below makes, and fewer.
const MOST_CALLS: u64 = 1_000;

const FEWEST_CALLS: u64 = 10;

// More steps than any work below has.
const MOST_STEPS: u32 = 100;

// What is done, a step at a time: SQL is run, and then a store is asked, or a node over it takes a
// command.
#[derive(Drop)]
struct Work<'w> {
    tables: &'w [&'w str],
    words: &'w [&'w str],
    is_command: bool,
    // The member whose the file becomes, if any asks.
    member: Option<Owner>,
}

// How many steps were done, and what the store then kept that did them or was stopped, if it
// tells.
#[derive(Drop)]
struct Done {
    steps: u32,
    still: Option<String>,
    // An event that failed may have made its save before, as a call of a store may not.
    of_event: bool,
}

fn done_without_store(steps: u32) -> Done {
    Done {
        steps,
        still: None,
        of_event: false,
    }
}

// Runs the first texts; returns how many were run.
fn run_first<D: Alter>(conn: &mut Connection<D>, tables: &[&str], most: u32) -> u32 {
    let mut steps = 0;
    for text in tables.iter() {
        if steps >= most || conn.execute_batch(text).is_err() {
            return steps;
        }
        steps += 1;
    }
    steps
}

// Asks by the first words; returns how many were answered.
fn ask_first<D: Alter>(alloc: Global, store: &mut SqlStore<D>, words: &[&str], most: u32) -> u32 {
    let mut steps = 0;
    let Ok(notes) = Rc::new(alloc, Notes::new()) else {
        return steps;
    };
    for word in words.iter() {
        if steps >= most || !matches!(answer_to(alloc, store, &notes, word), Some(Ok(_))) {
            return steps;
        }
        steps += 1;
    }
    steps
}

// Does this many steps over the connection, or as many as it can.
fn work_over<D: Alter>(
    alloc: Global,
    work: &Work<'_>,
    most: u32,
    conn: Connection<D>,
) -> (Connection<D>, Done) {
    let mut conn = conn;
    let run = run_first(&mut conn, work.tables, most);
    if u64::from(run) < work.tables.len() as u64 {
        return (conn, done_without_store(run));
    }
    let mut store = match SqlStore::adopt(alloc, conn) {
        Ok(store) => store,
        Err((_, conn)) => return (conn, done_without_store(run)),
    };
    let left = most.saturating_sub(run);
    let steps = if work.is_command {
        let (back, events) = command_over(alloc, store, left);
        store = back;
        events
    } else {
        ask_first(alloc, &mut store, work.words, left)
    };
    let still = kept_text(alloc, &mut store, work.member).ok();
    let steps = run.saturating_add(steps);
    let of_event = work.is_command;
    (
        store.into_connection(),
        Done {
            steps,
            still,
            of_event,
        },
    )
}

// The same over files of which one may stop.
fn work_on<D: Disk + Drop>(
    alloc: Global,
    work: &Work<'_>,
    most: u32,
    files: Files<D>,
) -> (Files<D>, Done) {
    if !files.may_be_used() {
        return (files, done_without_store(0));
    }
    match Connection::open_files(alloc, files, Options::new(1)) {
        Ok(conn) => {
            let (conn, done) = work_over(alloc, work, most, conn);
            (conn.into_store().close(), done)
        }
        Err((_, left)) => (left.into_files(), done_without_store(0)),
    }
}

// What a store over the connection keeps, if it tells, and a node over it goes on.
fn kept_over<D: Alter>(
    alloc: Global,
    work: &Work<'_>,
    conn: Connection<D>,
) -> (Connection<D>, Option<String>) {
    let mut store = match SqlStore::adopt(alloc, conn) {
        Ok(store) => store,
        Err((_, conn)) => return (conn, None),
    };
    let kept = kept_text(alloc, &mut store, work.member).ok();
    if !work.is_command {
        return (store.into_connection(), kept);
    }
    let voted = has_voted(&mut store);
    let (store, goes_on) = goes_on_over(alloc, store, voted);
    (store.into_connection(), if goes_on { kept } else { None })
}

// What a store keeps that is opened over the files again, after a crash.
fn kept_on<D: Crash + Drop>(alloc: Global, work: &Work<'_>, files: Files<D>) -> Option<String> {
    let mut files = files;
    files.log.crash();
    files.db.crash();
    if !files.may_be_used() {
        return None;
    }
    match Connection::open_files(alloc, files, Options::new(1)) {
        Ok(conn) => {
            let (conn, kept) = kept_over(alloc, work, conn);
            drop(conn.into_store().close());
            kept
        }
        Err((_, left)) => {
            drop(left.into_files());
            None
        }
    }
}

// What is kept after each number of steps.
fn kept_after_each(alloc: Global, work: &Work<'_>) -> anyhow::Result<Vec<String>> {
    let mut all = Vec::new(alloc);
    for most in 0..MOST_STEPS {
        let (files, done) = work_on(alloc, work, most, fuse_files(alloc, u64::MAX, u64::MAX));
        if done.steps < most {
            return Ok(all);
        }
        match kept_on(alloc, work, files) {
            Some(kept) => all.push(kept)?,
            None => return Err(anyhow::anyhow!("nothing is kept after {most} steps")),
        }
    }
    Err(anyhow::anyhow!("more than {MOST_STEPS} steps"))
}

fn is_at(rows: &[String], steps: u32, kept: &str) -> bool {
    match rows.get(steps as usize) {
        Some(row) => row.as_str() == kept,
        None => false,
    }
}

// The outcome of one stop.
enum Came {
    // The run ended before the stop.
    Whole,
    // It was stopped, and what was done is kept, with at most one step more; and the store that
    // was stopped told nothing else before.
    Kept,
    Lost,
}

fn came_of(rows: &[String], done: &Done, kept: Option<&str>) -> Came {
    let Some(kept) = kept else {
        return Came::Lost;
    };
    let more = done.steps.saturating_add(1);
    if let Some(still) = &done.still {
        let is_more = done.of_event && is_at(rows, more, still.as_str());
        if !is_more && !is_at(rows, done.steps, still.as_str()) {
            return Came::Lost;
        }
    }
    if more as usize >= rows.len() && is_at(rows, done.steps, kept) {
        return Came::Whole;
    }
    if is_at(rows, done.steps, kept) || is_at(rows, more, kept) {
        return Came::Kept;
    }
    Came::Lost
}

fn came_after<D: Crash + Drop>(
    alloc: Global,
    work: &Work<'_>,
    rows: &[String],
    files: Files<D>,
) -> Came {
    let (files, done) = work_on(alloc, work, MOST_STEPS, files);
    let kept = kept_on(alloc, work, files);
    came_of(rows, &done, kept.as_ref().map(|it| it.as_str()))
}

// Stops the work at each call of one file in turn, until it ends before the stop; returns what
// there is to say.
fn count_stops(alloc: Global, work: &Work<'_>, rows: &[String], of_log: bool) -> Option<u64> {
    for calls in 0..MOST_CALLS {
        let files = if of_log {
            fuse_files(alloc, calls, u64::MAX)
        } else {
            fuse_files(alloc, u64::MAX, calls)
        };
        match came_after(alloc, work, rows, files) {
            Came::Kept => {}
            Came::Whole => return Some(calls),
            Came::Lost => return None,
        }
    }
    None
}

fn show_stops(
    rt: &HostRuntime,
    work: &Work<'_>,
    rows: &[String],
    of_log: bool,
) -> anyhow::Result<()> {
    let file = if of_log { "log" } else { "file" };
    match count_stops(rt.alloc(), work, rows, of_log) {
        Some(calls) if calls < FEWEST_CALLS => println!(rt; "{file}: only {calls} stops")?,
        Some(_) => println!(rt; "{file}: stopped at each call, and nothing that was told is lost")?,
        None => println!(rt; "{file}: a stop loses what was told")?,
    }
    Ok(())
}

// Shows what is kept at first, and after each step that changes it.
fn show_rows(rt: &HostRuntime, rows: &[String]) -> anyhow::Result<()> {
    let mut last = "";
    for row in rows.iter() {
        if row.as_str() != last {
            println!(rt; "{row}")?;
        }
        last = row.as_str();
    }
    Ok(())
}

/// Prints what is kept after each step of a work, and stops it at each call of the log, and of the
/// database's file.
pub fn play_stops(rt: &HostRuntime, all: &[Session<'_>]) -> anyhow::Result<()> {
    for session in all.iter() {
        let words = session.words.as_slice();
        let work = Work {
            tables: session.tables.as_slice(),
            words,
            is_command: matches!(words, ["command"]),
            member: owner_among(words),
        };
        let rows = kept_after_each(rt.alloc(), &work)?;
        show_rows(rt, &rows)?;
        show_stops(rt, &work, &rows, true)?;
        show_stops(rt, &work, &rows, false)?;
    }
    Ok(())
}
