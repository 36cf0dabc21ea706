//! A store on a SQL database, over two files in memory or in a file: it uses the connection for
//! the words of a session, and gives it back. What is opened is closed on each way out, since a
//! caller that drops a database has to prove how each of its parts is dropped; and the whole
//! database is compiled anew for each type of file, of which there are two: what is opened by
//! `SqlStore::open`, which is `open_from` by `Unknown`, would count as a third.

use crate::asks::{answer_to, save_often};
use crate::lines::fault_text;
use crate::words::Session;
use press_acceptor::StoreFault;
use press_store::{Notes, SqlStore};
use sqlite::{Alter, Connection, File, FileStore, Files, Options, Unknown};
use sqlite_disk::{Disk, Fuse, Memory};
use std::alloc::Global;
use std::rc::Rc;

/// Files in memory of which either is stopped after so many calls.
pub fn fuse_files(alloc: Global, log: u64, db: u64) -> Files<Fuse<Memory>> {
    Files {
        log: Fuse::new(Memory::new(alloc), log),
        db: Fuse::new(Memory::new(alloc), db),
    }
}

fn ask_all<D: Alter>(
    rt: &HostRuntime,
    store: &mut SqlStore<D>,
    words: &[&str],
) -> anyhow::Result<()> {
    let notes = Rc::new(rt.alloc(), Notes::new())?;
    for word in words.iter() {
        let said = match answer_to(rt.alloc(), store, &notes, word) {
            None => return Err(anyhow::anyhow!("no word of a store: {word}")),
            Some(Ok(said)) => said,
            Some(Err(fault)) => fault_text(rt.alloc(), fault)?,
        };
        println!(rt; "{said}")?;
    }
    Ok(())
}

// How many rows of version 1 there are.
fn show_old<D: Alter>(rt: &HostRuntime, conn: &mut Connection<D>) -> anyhow::Result<()> {
    let row = conn.query_row("SELECT count(*) FROM promise", &[])?;
    let count: i64 = row.get(0)?;
    println!(rt; "rows of version 1: {count}")?;
    Ok(())
}

fn run_all<D: Alter>(conn: &mut Connection<D>, tables: &[&str]) -> anyhow::Result<()> {
    for text in tables.iter() {
        conn.execute_batch(text)?;
    }
    Ok(())
}

// Runs the SQL, makes a store over the connection, and asks it, or says why there is none.
fn session<D: Alter>(
    rt: &HostRuntime,
    conn: Connection<D>,
    session: &Session<'_>,
) -> (Connection<D>, anyhow::Result<()>) {
    let mut conn = conn;
    if let Err(error) = run_all(&mut conn, &session.tables) {
        return (conn, Err(error));
    }
    if let ["old-rows"] = session.words.as_slice() {
        let shown = show_old(rt, &mut conn);
        return (conn, shown);
    }
    match SqlStore::adopt(rt.alloc(), conn) {
        Ok(mut store) => {
            let done = ask_all(rt, &mut store, &session.words);
            (store.into_connection(), done)
        }
        Err((fault, conn)) => (conn, show_refusal(rt, fault)),
    }
}

// Why no store was made.
fn show_refusal(rt: &HostRuntime, fault: StoreFault) -> anyhow::Result<()> {
    println!(rt; "no store: {fault}")?;
    Ok(())
}

fn close_files_of<D: Disk + Drop>(
    conn: Connection<FileStore<D>>,
) -> (Files<D>, anyhow::Result<()>) {
    match conn.close_files() {
        Ok(files) => (files, Ok(())),
        Err((error, left)) => (left.close(), Err(error.into())),
    }
}

// Opens the files, asks the store over them, and closes them.
fn session_over_files<D: Disk + Drop>(
    rt: &HostRuntime,
    files: Files<D>,
    words: &Session<'_>,
) -> (Files<D>, anyhow::Result<()>) {
    if !files.may_be_used() {
        return (files, Err(anyhow::anyhow!("a file is shut")));
    }
    match Connection::open_files(rt.alloc(), files, Options::new(1)) {
        Ok(conn) => {
            let (conn, done) = session(rt, conn, words);
            let (files, closed) = close_files_of(conn);
            (files, done.and(closed))
        }
        Err((error, left)) => (left.into_files(), Err(error.into())),
    }
}

/// Plays each session on the store, the first on a new one.
pub fn play_store(rt: &HostRuntime, all: &[Session<'_>]) -> anyhow::Result<()> {
    let mut files = fuse_files(rt.alloc(), u64::MAX, u64::MAX);
    for session in all.iter() {
        let (left, done) = session_over_files(rt, files, session);
        files = left;
        done?;
    }
    Ok(())
}

// A store in the file of that name; what was opened is closed where there is none.
fn open_in(rt: &HostRuntime, name: &str) -> Result<SqlStore<FileStore<File>>, StoreFault> {
    match SqlStore::open_from(rt, name, Unknown) {
        Ok(store) => Ok(store),
        Err((fault, conn)) => {
            if let Some(conn) = conn {
                drop(conn.into_store().close());
            }
            Err(fault)
        }
    }
}

// Opens a store in the file of that name, and closes it.
fn open_and_close(rt: &HostRuntime, name: &str) -> Result<(), StoreFault> {
    let store = open_in(rt, name)?;
    drop(store.into_connection().into_store().close());
    Ok(())
}

/// Runs the SQL of each session in the file of this name, which a store then opens.
pub fn play_file(rt: &HostRuntime, name: &str, all: &[Session<'_>]) -> anyhow::Result<()> {
    for session in all.iter() {
        let mut conn = Connection::open(rt, name)?;
        let made = run_all(&mut conn, &session.tables);
        let (files, ended) = close_files_of(conn);
        drop(files);
        made?;
        ended?;
        match open_and_close(rt, name) {
            Ok(()) => println!(rt; "a store was made")?,
            Err(fault) => show_refusal(rt, fault)?,
        }
    }
    Ok(())
}

fn save_and_close(rt: &HostRuntime, name: &str, count: u32) -> Result<(), StoreFault> {
    let mut store = open_in(rt, name)?;
    let saved = save_often(&mut store, count);
    drop(store.into_connection().into_store().close());
    saved
}

/// Saves this many rounds and votes in the file of that name.
pub fn save_in_file(rt: &HostRuntime, name: &str, count: u32) -> anyhow::Result<()> {
    match save_and_close(rt, name, count) {
        Ok(()) => {
            println!(rt; "{count} rounds and {count} votes are saved")?;
            Ok(())
        }
        Err(fault) => Err(anyhow::anyhow!("no store: {fault}")),
    }
}
