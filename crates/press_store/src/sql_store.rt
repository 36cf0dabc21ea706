//! The store over a connection.

ghost use Rattle.std.specs.Prelude.{◌≡◌, ◌≢◌, ◌<◌, ◌≤◌, true, length, Some, Err, option_map, IsTrue, IfOk, IfErr, IfSome, OnOk, OnErr};
ghost use Rattle.sqlite.specs.State.{HasCleanDisk};
ghost use Rattle.sqlite.specs.Held.{state};
ghost use Rattle.sqlite.specs.Files.{file_state};
ghost use Rattle.sqlite.specs.WalFiles.{image_at};
ghost use Rattle.press_store.specs.Adopted.{Adopts, IsServed, IsHandedBack, LeavesItsMaps, is_half};
ghost use Rattle.press_acceptor.specs.declared.fault.StoreFault.TheVariants.{Damaged};
ghost use Rattle.press_store.specs.Faults.{store_fault_of};
ghost use Rattle.press_store.specs.Opened.{Begins, Finds, HoldsServed, IsUp, LeavesFound, WereSound};
ghost use Rattle.press_store.specs.Attempt.{IsReady};
ghost use Rattle.press_store.specs.Kept.{seen_of};
ghost use Rattle.press_store.specs.Noted.{bytes_of, id_of, most_note};
ghost use Rattle.press_store.specs.Owned.{tie_of};
ghost use Rattle.press_store.specs.Tying.{said_by, GivesFile, IsFree, IsOwned, IsUntouched};
ghost use Rattle.press_store.specs.Tying.{LeavesTied, Same, VersionStays};
ghost use Rattle.press_store.specs.Voted.{IsLastVote};
ghost use Rattle.press_wire.specs.Blocks.{is_first};
ghost use Rattle.press_acceptor.specs.Seen.{Calls, Counts, Looks, Saves, fault_in};
ghost use Rattle.press_acceptor.specs.Seen.Call.{SavesPromise, SavesVote, SavesRound};
ghost use Rattle.press_acceptor.specs.StoreMap.{with_promise, with_vote, with_round};
ghost use Rattle.press_store.specs.Counting.{BeginsStart, PutsNote, SavesCounted, WritesAll, first_mark, next_mark, starts_by};

use crate::adopt::prepare;
use crate::begin::{begin, first_mark, is_start};
use crate::block::put_promise;
use crate::count::Count;
use crate::counting::{count_promise, count_round, count_vote};
use crate::fault::fault_of;
use crate::last::read_last;
use crate::load::read_block;
use crate::meta::{put_round, read_round};
use crate::note::{MOST_NOTE, Note};
use crate::notes::Notes;
use crate::noting::{put_note, read_note};
use crate::owner::{Owner, Tie};
use crate::save_vote::put_vote;
use crate::starts::{read_mark, read_names, read_saves};
use crate::tying::{read_owner, tie_file};
use press_acceptor::{Block, PromiseStore, StoreFault};
use press_starts::{Mark, Starts};
use press_wire::{Ballot, MemberId, Round, Slot, Vote, WireFault, encode_cmd};
use sqlite::{Alter, Connection, Error, File, FileFrom, FileStore, Start, Unknown};
use std::alloc::Global;
use std::marker::Model;
use std::rc::Rc;
use std::rt::HostRuntime;

/// A store over the tables `block`, `vote` and `meta` of a database. Each save is one statement or
/// one transaction, so it is kept whole or not at all.
pub struct SqlStore<D: Alter> {
    conn: Connection<D>,
    faults: u64,
    is_ours: bool,
    alloc: Global,
    mark: Option<Mark>,
    notes: Option<Rc<Notes>>,
}

// It is written out, so that a caller does not prove again how each part of a database is dropped.
impl<D: Alter + Drop> Drop for SqlStore<D> {
    fn drop(self) {
        let SqlStore {
            conn: _,
            faults: _,
            is_ours: _,
            alloc: _,
            mark: _,
            notes: _,
        } = self;
    }
}

impl<D: Alter> Model for SqlStore<D> {
    ghost use Rattle.std.specs.Prelude.{IsTrue};
    ghost use Rattle.press_store.specs.Kept.{Kept, kept_code};
    ghost use Rattle.press_store.specs.Attempt.{IsReady};
    ghost use Rattle.press_store.specs.Counting.{HasRunning, IsOfStart};

    ghost Value = { Kept D };

    ghost coded = { kept_code D.code };

    ghost view = { λ s. record {
      conn = s.conn;
      faults = s.faults;
      is_ours = s.is_ours;
      mark = s.mark;
    } };

    ghost invariant = { λ s. IsOfStart s.mark × (IsTrue s.is_ours →
        IsReady D.Store s.conn × HasRunning D.Store s.conn s.mark) };
}

impl<D: Alter> SqlStore<D> {
    /// A store over the connection, which has no limit on its steps from then on. Its tables are
    /// made where it has none, and those of version 1 are migrated, in one transaction. A fault
    /// returns the connection: Damaged where it is in a transaction, where the tables are not those
    /// of a store, or where a row of version 1 is damaged. Where some of the tables are there
    /// without the others, the connection is the very one that was given.
    pub fn adopt(
        alloc: Global,
        conn: Connection<D>,
    ) -> Result<SqlStore<D>, (StoreFault, Connection<D>)>
        ensures ours { IfOk result (λ store. IsServed (state D.Store conn) → IsTrue store.is_ours) }
        ensures adopts { IfOk result (λ store. HasCleanDisk (state D.Store store.conn) →
            IsTrue store.is_ours → Adopts (state D.Store conn) (state D.Store store.conn)) }
        ensures half { is_half (state D.Store conn).now.schema ≡ true →
            result ≡ Err (Damaged, conn) }
        ensures clean { IfOk result (λ store. HasCleanDisk (state D.Store store.conn) →
            HasCleanDisk (state D.Store conn)) }
        ensures faults { IfOk result (λ store. store.faults ≡ 0) }
        ensures back { IfErr result (λ refused. IsHandedBack D.Store conn refused.1) }
        ensures left { IfErr result (λ refused. LeavesItsMaps D.Store conn refused.1) }
    {
        let mut conn = conn;
        match prepare(alloc, &mut conn) {
            Ok(is_ours) => Ok(SqlStore {
                conn,
                faults: 0,
                is_ours,
                alloc,
                mark: None,
                notes: None,
            }),
            Err(fault) => Err((fault, conn)),
        }
    }

    /// The last slot with a vote, by the store's order of slots and not by its search: one
    /// statement, however many slots there are. None where no slot has a vote.
    pub fn last_vote(&mut self) -> Result<Option<Slot>, StoreFault>
        ensures honest { (seen_of D.Store self.new).is_honest →
            (seen_of D.Store self.old).is_honest }
        ensures counts { Counts (seen_of D.Store self.old) (seen_of D.Store self.new)
            (fault_in result) }
        ensures last { (seen_of D.Store self.new).is_honest →
            IfOk result (IsLastVote (seen_of D.Store self.old).kept) }
        ensures looks { (seen_of D.Store self.new).is_honest →
            Looks (seen_of D.Store self.old) (seen_of D.Store self.new) }
    {
        match read_last(&mut self.conn) {
            Ok(Some(last)) => Ok(last),
            Ok(None) => Err(StoreFault::Damaged),
            Err(error) => Err(count_fault(&mut self.faults, error)),
        }
    }

    /// What the file is to the member that asks for it, or to a node by itself, which is None.
    /// Nobody's file is the member's from then on. The first start of a member asks before anything
    /// is saved for it.
    pub fn tie(&mut self, asked: Option<Owner>) -> Result<Tie, StoreFault>
        ensures honest { (seen_of D.Store self.new).is_honest →
            (seen_of D.Store self.old).is_honest }
        ensures counts { Counts (seen_of D.Store self.old) (seen_of D.Store self.new)
            (fault_in result) }
        ensures opened { (seen_of D.Store self.new).is_honest →
            OnOk result (IsTrue (seen_of D.Store self.new).is_open) }
        ensures looks { (seen_of D.Store self.new).is_honest →
            Looks (seen_of D.Store self.old) (seen_of D.Store self.new) }
        ensures answer { (seen_of D.Store self.new).is_honest →
            IfOk result (λ tie. tie_of (said_by (state D.Store self.old.conn)) asked ≡ Some tie) }
        ensures untouched { (seen_of D.Store self.new).is_honest →
            ¬ IsFree (state D.Store self.old.conn) asked →
            IsUntouched (state D.Store self.old.conn) (state D.Store self.new.conn) }
        ensures owned { (seen_of D.Store self.new).is_honest →
            IfOk result (λ tie. GivesFile tie → IsOwned asked (state D.Store self.new.conn)) }
        ensures failed { (seen_of D.Store self.new).is_honest →
            OnErr result (Same (state D.Store self.old.conn) (state D.Store self.new.conn)) }
        ensures stopped { (seen_of D.Store self.new).is_honest →
            LeavesTied asked (state D.Store self.old.conn) (state D.Store self.new.conn) }
        ensures version { (seen_of D.Store self.new).is_honest →
            VersionStays (state D.Store self.old.conn) (state D.Store self.new.conn) }
    {
        match tie_file(&mut self.conn, asked) {
            Ok(Some(tie)) => Ok(tie),
            Ok(None) => Err(StoreFault::Damaged),
            Err(error) => Err(count_fault(&mut self.faults, error)),
        }
    }

    /// Whose file it is. None where it is nobody's.
    pub fn owner(&mut self) -> Result<Option<Owner>, StoreFault>
        ensures honest { (seen_of D.Store self.new).is_honest →
            (seen_of D.Store self.old).is_honest }
        ensures counts { Counts (seen_of D.Store self.old) (seen_of D.Store self.new)
            (fault_in result) }
        ensures owner { (seen_of D.Store self.new).is_honest →
            IfOk result (λ owner. said_by (state D.Store self.old.conn) ≡ Some owner) }
        ensures looks { (seen_of D.Store self.new).is_honest →
            Looks (seen_of D.Store self.old) (seen_of D.Store self.new) }
        ensures mark { self.new.mark ≡ self.old.mark }
    {
        match read_owner(&mut self.conn) {
            Ok(Some(owner)) => Ok(owner),
            Ok(None) => Err(StoreFault::Damaged),
            Err(error) => Err(count_fault(&mut self.faults, error)),
        }
    }

    /// Begins a start of a member, whose saves are counted from then on. The tables of starts are
    /// made where they aren't there yet. What is noted is kept with the next save. A start that
    /// has the number 0 is refused as damage.
    pub fn begin_start(&mut self, start: u64, notes: Rc<Notes>) -> Result<(), StoreFault>
        ensures honest { (seen_of D.Store self.new).is_honest →
            (seen_of D.Store self.old).is_honest }
        ensures counts { Counts (seen_of D.Store self.old) (seen_of D.Store self.new)
            (fault_in result) }
        ensures looks { (seen_of D.Store self.new).is_honest →
            Looks (seen_of D.Store self.old) (seen_of D.Store self.new) }
        ensures begins { (seen_of D.Store self.new).is_honest → WritesAll (BeginsStart start)
            (state D.Store self.old.conn) (state D.Store self.new.conn) result }
        ensures begun { OnOk result (self.new.mark ≡ Some (first_mark start)) }
        ensures failed { OnErr result (self.new.mark ≡ self.old.mark) }
    {
        if !is_start(start) {
            return Err(StoreFault::Damaged);
        }
        match begin(&mut self.conn, start) {
            Ok(()) => {
                self.mark = Some(first_mark(start));
                self.notes = Some(notes);
                Ok(())
            }
            Err(error) => Err(count_fault(&mut self.faults, error)),
        }
    }

    /// How many saves the start made, where the file has it.
    pub fn saves_of(&mut self, start: u64) -> Result<Option<u64>, StoreFault>
        ensures honest { (seen_of D.Store self.new).is_honest →
            (seen_of D.Store self.old).is_honest }
        ensures counts { Counts (seen_of D.Store self.old) (seen_of D.Store self.new)
            (fault_in result) }
        ensures saves { (seen_of D.Store self.new).is_honest →
            IsTrue (seen_of D.Store self.old).is_open → IfOk result (λ saves.
            (starts_by (state D.Store self.old.conn)).saves start ≡ Some saves) }
        ensures looks { (seen_of D.Store self.new).is_honest →
            Looks (seen_of D.Store self.old) (seen_of D.Store self.new) }
        ensures mark { self.new.mark ≡ self.old.mark }
    {
        if !is_start(start) {
            return Err(StoreFault::Damaged);
        }
        match read_saves(&mut self.conn, start) {
            Ok(Some(saves)) => Ok(saves),
            Ok(None) => Err(StoreFault::Damaged),
            Err(error) => Err(count_fault(&mut self.faults, error)),
        }
    }

    /// The last mark that was heard of the member and kept.
    pub fn mark_of(&mut self, member: MemberId) -> Result<Option<Mark>, StoreFault>
        ensures honest { (seen_of D.Store self.new).is_honest →
            (seen_of D.Store self.old).is_honest }
        ensures counts { Counts (seen_of D.Store self.old) (seen_of D.Store self.new)
            (fault_in result) }
        ensures heard { (seen_of D.Store self.new).is_honest →
            IsTrue (seen_of D.Store self.old).is_open → IfOk result (λ mark.
            (starts_by (state D.Store self.old.conn)).heard member ≡ Some mark) }
        ensures looks { (seen_of D.Store self.new).is_honest →
            Looks (seen_of D.Store self.old) (seen_of D.Store self.new) }
        ensures mark { self.new.mark ≡ self.old.mark }
    {
        match read_mark(&mut self.conn, member) {
            Ok(Some(mark)) => Ok(mark),
            Ok(None) => Err(StoreFault::Damaged),
            Err(error) => Err(count_fault(&mut self.faults, error)),
        }
    }

    /// The names of the starts that the file has.
    pub fn start_names(&mut self) -> Result<Vec<u64>, StoreFault>
        ensures honest { (seen_of D.Store self.new).is_honest →
            (seen_of D.Store self.old).is_honest }
        ensures counts { Counts (seen_of D.Store self.old) (seen_of D.Store self.new)
            (fault_in result) }
        ensures looks { (seen_of D.Store self.new).is_honest →
            Looks (seen_of D.Store self.old) (seen_of D.Store self.new) }
        ensures mark { self.new.mark ≡ self.old.mark }
    {
        match read_names(self.alloc, &mut self.conn) {
            Ok(Some(names)) => Ok(names),
            Ok(None) => Err(StoreFault::Damaged),
            Err(error) => Err(count_fault(&mut self.faults, error)),
        }
    }

    /// What the file notes under this name, where it does.
    pub fn note(&mut self, which: Note) -> Result<Option<Vec<u8>>, StoreFault>
        ensures honest { (seen_of D.Store self.new).is_honest →
            (seen_of D.Store self.old).is_honest }
        ensures counts { Counts (seen_of D.Store self.old) (seen_of D.Store self.new)
            (fault_in result) }
        ensures note { (seen_of D.Store self.new).is_honest →
            IsTrue (seen_of D.Store self.old).is_open → IfOk result (λ found.
            (starts_by (state D.Store self.old.conn)).notes (id_of which) ≡
            Some (bytes_of found)) }
        ensures looks { (seen_of D.Store self.new).is_honest →
            Looks (seen_of D.Store self.old) (seen_of D.Store self.new) }
        ensures mark { self.new.mark ≡ self.old.mark }
    {
        match read_note(self.alloc, &mut self.conn, which) {
            Ok(Some(found)) => Ok(found),
            Ok(None) => Err(StoreFault::Damaged),
            Err(error) => Err(count_fault(&mut self.faults, error)),
        }
    }

    /// Notes the bytes in the place of those that are there, in a transaction of its own. The
    /// tables of starts are made where they aren't there yet. More than `MOST_NOTE` bytes are
    /// refused as damage.
    pub fn put_note(&mut self, which: Note, bytes: &[u8]) -> Result<(), StoreFault>
        ensures honest { (seen_of D.Store self.new).is_honest →
            (seen_of D.Store self.old).is_honest }
        ensures counts { Counts (seen_of D.Store self.old) (seen_of D.Store self.new)
            (fault_in result) }
        ensures looks { (seen_of D.Store self.new).is_honest →
            Looks (seen_of D.Store self.old) (seen_of D.Store self.new) }
        ensures puts { (seen_of D.Store self.new).is_honest →
            WritesAll (PutsNote (id_of which) bytes.now)
            (state D.Store self.old.conn) (state D.Store self.new.conn) result }
        ensures long { most_note < length bytes.now → result ≡ Err Damaged }
        ensures mark { self.new.mark ≡ self.old.mark }
    {
        if bytes.len() > MOST_NOTE {
            return Err(StoreFault::Damaged);
        }
        match put_note(&mut self.conn, which, bytes) {
            Ok(()) => Ok(()),
            Err(error) => Err(count_fault(&mut self.faults, error)),
        }
    }

    /// The connection, as the last save left it.
    pub fn into_connection(self) -> Connection<D>
        ensures { result ≡ self.conn }
    {
        let SqlStore {
            conn,
            faults: _,
            is_ours: _,
            alloc: _,
            mark: _,
            notes: _,
        } = self;
        conn
    }
}

impl<S: Start> SqlStore<FileStore<FileFrom<S>>> {
    /// A store in the file at the path, which is created if it doesn't exist; `S` is what it held.
    /// A fault returns the connection, where there was one.
    pub fn open_from(
        rt: &HostRuntime,
        path: &str,
        start: S,
    ) -> Result<
        SqlStore<FileStore<FileFrom<S>>>,
        (StoreFault, Option<Connection<FileStore<FileFrom<S>>>>),
    >
        ensures ours { IfOk result (λ store. HasCleanDisk (file_state store.conn) →
            HoldsServed (image_at S.Start) → IsTrue store.is_ours) }
        ensures up { IfOk result (λ store. HasCleanDisk (file_state store.conn) →
            IsTrue store.is_ours → IsUp (file_state store.conn)) }
        ensures new { IfOk result (λ store. HasCleanDisk (file_state store.conn) →
            IsTrue store.is_ours → Begins (image_at S.Start) (file_state store.conn)) }
        ensures found { IfOk result (λ store. HasCleanDisk (file_state store.conn) →
            IsTrue store.is_ours → Finds (image_at S.Start) (file_state store.conn)) }
        ensures sound { IfOk result (λ store. HasCleanDisk (file_state store.conn) →
            IsTrue store.is_ours → WereSound (image_at S.Start)) }
        ensures faults { IfOk result (λ store. store.faults ≡ 0) }
        ensures left { IfErr result (λ refused. IfSome refused.1 (λ conn.
            HasCleanDisk (file_state conn) → HoldsServed (image_at S.Start) →
            LeavesFound (image_at S.Start) (file_state conn))) }
    {
        let conn = match Connection::open_from(rt, path, false, start) {
            Ok(conn) => conn,
            Err((error, left)) => {
                if let Some(left) = left {
                    drop(left.into_files());
                }
                return Err((fault_of(error), None));
            }
        };
        match SqlStore::adopt(rt.alloc(), conn) {
            Ok(store) => Ok(store),
            Err((fault, conn)) => Err((fault, Some(conn))),
        }
    }
}

impl SqlStore<FileStore<File>> {
    /// A store in the file at the path, which is created if it doesn't exist. What is said of its
    /// tables is said of a file that was empty: nobody knows what another one held.
    pub fn open(rt: &HostRuntime, path: &str) -> Result<SqlStore<FileStore<File>>, StoreFault>
        ensures ours { IfOk result (λ store. HasCleanDisk (file_state store.conn) →
            IsTrue store.is_ours) }
        ensures up { IfOk result (λ store. HasCleanDisk (file_state store.conn) →
            IsTrue store.is_ours → IsUp (file_state store.conn)) }
        ensures faults { IfOk result (λ store. store.faults ≡ 0) }
    {
        match SqlStore::open_from(rt, path, Unknown) {
            Ok(opened) => Ok(opened),
            Err((fault, conn)) => {
                if let Some(conn) = conn {
                    drop(conn.into_store().close());
                }
                Err(fault)
            }
        }
    }
}

// The fault that the error is, counted where it names the disk.
fn count_fault(faults: &mut u64, error: Error) -> StoreFault
    ensures told { faults.old < 18446744073709551615 → result ≡ store_fault_of error }
    ensures disk { result ≡ StoreFault.Disk → faults.old < faults.new }
    ensures counts { faults.old ≤ faults.new }
{
    match fault_of(error) {
        StoreFault::Disk if *faults == u64::MAX => StoreFault::Damaged,
        StoreFault::Disk => {
            *faults += 1;
            StoreFault::Disk
        }
        fault => fault,
    }
}

// With what the next save is counted: one save more, and what was heard since the last.
fn next_count(alloc: Global, notes: &Option<Rc<Notes>>, mark: Mark) -> Result<Count, StoreFault>
    ensures next { IfOk result (λ count. count.mark ≡ next_mark mark) }
    ensures fault { IfErr result (λ fault. fault ≢ StoreFault.Disk) }
{
    let Some(saves) = mark.saves.checked_add(1) else {
        return Err(StoreFault::Damaged);
    };
    let heard = match notes {
        Some(notes) => match notes.sightings(alloc) {
            Ok(heard) => heard,
            Err(_) => return Err(StoreFault::NoMemory),
        },
        None => Vec::new(alloc),
    };
    Ok(Count {
        mark: Mark {
            start: mark.start,
            saves,
        },
        heard,
    })
}

fn clear(notes: &Option<Rc<Notes>>) {
    if let Some(notes) = notes {
        notes.clear();
    }
}

impl<D: Alter> Starts for SqlStore<D> {
    ghost marked = { λ s. s.mark };

    fn mark(&self) -> Option<Mark> {
        self.mark
    }
}

impl<D: Alter> PromiseStore for SqlStore<D> {
    ghost use Rattle.press_store.specs.Kept.{seen_of};
    ghost use Rattle.std.specs.Prelude.{refl};

    ghost seen = { seen_of D.Store };

    fn faults(&self) -> u64 {
        self.faults
    }

    fn load(&mut self, first: Slot) -> Result<Block, StoreFault> {
        match read_block(self.alloc, &mut self.conn, first) {
            Ok(Some(block)) => Ok(block),
            Ok(None) => Err(StoreFault::Damaged),
            Err(error) => Err(count_fault(&mut self.faults, error)),
        }
    }

    fn save_promise(&mut self, first: Slot, ballot: Ballot) -> Result<(), StoreFault>
        requires { is_first first ≡ true }
        ensures calls { Calls (SavesPromise first) (seen_of D.Store self.old) (seen_of D.Store self.new)
            (fault_in result) }
        ensures saves { (seen_of D.Store self.new).is_honest →
            Saves (seen_of D.Store self.old) (seen_of D.Store self.new)
            (with_promise (seen_of D.Store self.old).kept first ballot) (fault_in result) }
        ensures counted { (seen_of D.Store self.new).is_honest → IfSome self.old.mark (λ mark.
            SavesCounted D.Store self.old.conn self.new.conn
            (λ store. with_promise store first ballot) mark result) }
        ensures mark { OnOk result (self.new.mark ≡ option_map next_mark self.old.mark) }
        ensures failed { OnErr result (self.new.mark ≡ self.old.mark) }
    {
        let Some(mark) = self.mark else {
            return match put_promise(&mut self.conn, first, ballot) {
                Ok(_) => Ok(()),
                Err(error) => Err(count_fault(&mut self.faults, error)),
            };
        };
        let count = match next_count(self.alloc, &self.notes, mark) {
            Ok(count) => count,
            Err(fault) => return Err(fault),
        };
        match count_promise(&mut self.conn, first, ballot, &count) {
            Ok(()) => {
                self.mark = Some(count.mark);
                clear(&self.notes);
                Ok(())
            }
            Err(error) => Err(count_fault(&mut self.faults, error)),
        }
    }

    fn save_vote(&mut self, slot: Slot, vote: &Vote) -> Result<(), StoreFault>
        ensures calls { Calls (SavesVote slot) (seen_of D.Store self.old) (seen_of D.Store self.new)
            (fault_in result) }
        ensures saves { (seen_of D.Store self.new).is_honest →
            Saves (seen_of D.Store self.old) (seen_of D.Store self.new)
            (with_vote (seen_of D.Store self.old).kept slot vote.now) (fault_in result) }
        ensures counted { (seen_of D.Store self.new).is_honest → IfSome self.old.mark (λ mark.
            SavesCounted D.Store self.old.conn self.new.conn
            (λ store. with_vote store slot vote.now) mark result) }
        ensures mark { OnOk result (self.new.mark ≡ option_map next_mark self.old.mark) }
        ensures failed { OnErr result (self.new.mark ≡ self.old.mark) }
    {
        let bytes = match encode_cmd(self.alloc, &vote.value) {
            Ok(bytes) => bytes,
            Err(WireFault::NoMemory) => return Err(StoreFault::NoMemory),
            Err(_) => return Err(StoreFault::Damaged),
        };
        let Some(mark) = self.mark else {
            match put_vote(&mut self.conn, slot, vote, &bytes) {
                Ok(()) => return Ok(()),
                Err(error) => return Err(count_fault(&mut self.faults, error)),
            }
        };
        let count = match next_count(self.alloc, &self.notes, mark) {
            Ok(count) => count,
            Err(fault) => return Err(fault),
        };
        match count_vote(&mut self.conn, slot, vote, &bytes, &count) {
            Ok(()) => {
                self.mark = Some(count.mark);
                clear(&self.notes);
                Ok(())
            }
            Err(error) => Err(count_fault(&mut self.faults, error)),
        }
    }

    fn last_round(&mut self) -> Result<u64, StoreFault> {
        match read_round(&mut self.conn) {
            Ok(Some(round)) => Ok(round),
            Ok(None) => Err(StoreFault::Damaged),
            Err(error) => Err(count_fault(&mut self.faults, error)),
        }
    }

    fn save_round(&mut self, round: Round) -> Result<(), StoreFault>
        ensures calls { Calls SavesRound (seen_of D.Store self.old) (seen_of D.Store self.new)
            (fault_in result) }
        ensures saves { (seen_of D.Store self.new).is_honest →
            Saves (seen_of D.Store self.old) (seen_of D.Store self.new)
            (with_round (seen_of D.Store self.old).kept round) (fault_in result) }
        ensures counted { (seen_of D.Store self.new).is_honest → IfSome self.old.mark (λ mark.
            SavesCounted D.Store self.old.conn self.new.conn
            (λ store. with_round store round) mark result) }
        ensures mark { OnOk result (self.new.mark ≡ option_map next_mark self.old.mark) }
        ensures failed { OnErr result (self.new.mark ≡ self.old.mark) }
    {
        let Some(mark) = self.mark else {
            return match put_round(&mut self.conn, round) {
                Ok(_) => Ok(()),
                Err(error) => Err(count_fault(&mut self.faults, error)),
            };
        };
        let count = match next_count(self.alloc, &self.notes, mark) {
            Ok(count) => count,
            Err(fault) => return Err(fault),
        };
        match count_round(&mut self.conn, round, &count) {
            Ok(()) => {
                self.mark = Some(count.mark);
                clear(&self.notes);
                Ok(())
            }
            Err(error) => Err(count_fault(&mut self.faults, error)),
        }
    }

    ghost shows = { λ store honest is_open.
        ((D.Store.view store.conn.store).committed, D.Store.stays store.conn.store is_open, refl) };
}
