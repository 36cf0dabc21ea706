//! A store on a database over two simulated files, which stop or are full at a write.

ghost use Rattle.std.specs.Prelude.{◌≡◌, ◌≢◌, Err};

use crate::limited::{Budget, Limited};
use crate::shelf::{Faults, Opened, Opener, Shelf};
use crate::starts::{Ears, MEMBERS, Register, place_of, sighting_of};
use press_acceptor::{Block, PromiseStore, StoreFault};
use press_simulation::Condition;
use press_starts::{Mark, Sighting, Starts, Witness};
use press_store::{Notes, Owner, SqlStore, Tie};
use press_wire::{Ballot, MOST_MEMBERS, MemberId, Round, Slot, Vote};
use sqlite::{Alter, Connection, FileStore, Files, Options};
use sqlite_disk::{Crash, Disk, Memory};
use std::alloc::Global;
use std::rc::Rc;

/// A simulated file that stops or is full.
pub type Device = Limited<Memory>;

// A file with these bytes.
fn file_with(alloc: Global, bytes: &[u8]) -> Option<Memory> {
    let mut file = Memory::new(alloc);
    file.write_at(0, bytes).ok()?;
    file.sync().ok()?;
    Some(file)
}

// What the two files may take: both share a disk, and a log is written at each save.
fn budgets_of(disk: Condition) -> (Budget, Budget) {
    match disk {
        Condition::Sound => (Budget::endless(), Budget::endless()),
        Condition::Stops(writes) if writes % 8 == 7 => (
            Budget::endless(),
            Budget::stops(writes / 8),
        ),
        Condition::Stops(writes) => (Budget::stops(writes), Budget::endless()),
        Condition::Fills(writes) => (Budget::fills(writes), Budget::fills(writes)),
    }
}

// The same files, on a disk of that condition.
fn limit_files(alloc: Global, kept: &Files<Device>, disk: Condition) -> Option<Files<Device>> {
    let (log, db) = budgets_of(disk);
    Some(Files {
        log: Limited::new(file_with(alloc, kept.log.inner().bytes())?, log),
        db: Limited::new(file_with(alloc, kept.db.inner().bytes())?, db),
    })
}

fn crash_files(files: Files<Device>) -> Files<Device> {
    let mut files = files;
    files.log.crash();
    files.db.crash();
    files
}

// Whether a member may run over a store.
fn is_tied<D: Alter>(store: &mut SqlStore<D>, owner: Owner) -> bool {
    matches!(store.tie(Some(owner)), Ok(Tie::Own | Tie::Taken))
}

// A member's store on an open database, with how many slots are chosen by its votes; the database,
// if it is none of it.
fn store_on<D: Alter>(
    alloc: Global,
    conn: Connection<D>,
    owner: Owner,
) -> Result<(SqlStore<D>, u64), Connection<D>> {
    let mut store = match SqlStore::adopt(alloc, conn) {
        Ok(store) => store,
        Err((_, conn)) => return Err(conn),
    };
    if !is_tied(&mut store, owner) {
        return Err(store.into_connection());
    }
    match store.last_vote() {
        Ok(Some(slot)) => Ok((store, u64::from(slot.number()).saturating_sub(1))),
        Ok(None) => Ok((store, 0)),
        Err(_) => Err(store.into_connection()),
    }
}

// The same over files.
fn store_in<D: Disk + Drop>(
    alloc: Global,
    files: Files<D>,
    owner: Owner,
) -> Result<(SqlStore<FileStore<D>>, u64), Files<D>> {
    if !files.may_be_used() {
        return Err(files);
    }
    match Connection::open_files(alloc, files, Options::new(1)) {
        Ok(conn) => match store_on(alloc, conn, owner) {
            Ok(opened) => Ok(opened),
            Err(conn) => Err(conn.into_store().close()),
        },
        Err((_, left)) => Err(left.into_files()),
    }
}

fn files_of<D: Disk + Drop>(store: SqlStore<FileStore<D>>) -> Files<D> {
    store.into_connection().into_store().close()
}

/// The store over such files. Its contract promises nothing of what it keeps, which the cases look
/// at; that of `SqlStore` does. (By that type, of which each part has a type of its own, a run is
/// too long for the checker.)
#[derive(Drop)]
pub struct OnFiles {
    store: SqlStore<FileStore<Device>>,
    names: Vec<u64>,
    notes: Rc<Notes>,
    register: Register,
    faults: Faults,
}

impl OnFiles {
    // What was heard of the others is kept with the save that comes.
    fn note_heard(&self) {
        for (place, heard) in self.register.ears().iter().enumerate() {
            if let Some(sighting) = sighting_of(place, *heard) {
                self.notes.note(sighting);
            }
        }
    }

    // A save was made.
    fn note_save(&mut self)
        ensures { self.new.faults ≡ self.old.faults }
    {
        if let Some(mark) = self.store.mark() {
            self.register.save(mark.saves);
        }
    }
}

impl PromiseStore for OnFiles {
    ghost use Rattle.std.specs.Prelude.{false};
    ghost use Rattle.press_acceptor.specs.StoreMap.{new_store};

    ghost seen = { λ s. record {
      is_honest = ⊥;
      is_open = false;
      kept = new_store;
      may_leave = λ left. Unit {0};
      faults = s.faults.number;
      ends = λ call fault. Unit {0};
    } };

    fn faults(&self) -> u64 {
        self.faults.number()
    }

    fn load(&mut self, first: Slot) -> Result<Block, StoreFault> {
        match self.store.load(first) {
            Ok(block) => Ok(block),
            Err(fault) => Err(self.faults.count(fault)),
        }
    }

    fn save_promise(&mut self, first: Slot, ballot: Ballot) -> Result<(), StoreFault> {
        self.note_heard();
        match self.store.save_promise(first, ballot) {
            Ok(()) => {
                self.note_save();
                Ok(())
            }
            Err(fault) => Err(self.faults.count(fault)),
        }
    }

    fn save_vote(&mut self, slot: Slot, vote: &Vote) -> Result<(), StoreFault> {
        self.note_heard();
        match self.store.save_vote(slot, vote) {
            Ok(()) => {
                self.note_save();
                Ok(())
            }
            Err(fault) => Err(self.faults.count(fault)),
        }
    }

    fn last_round(&mut self) -> Result<u64, StoreFault> {
        match self.store.last_round() {
            Ok(round) => Ok(round),
            Err(fault) => Err(self.faults.count(fault)),
        }
    }

    fn save_round(&mut self, round: Round) -> Result<(), StoreFault> {
        self.note_heard();
        match self.store.save_round(round) {
            Ok(()) => {
                self.note_save();
                Ok(())
            }
            Err(fault) => Err(self.faults.count(fault)),
        }
    }

    ghost shows = { λ store honest is_open. absurd honest };
}

/// Two files, and the names of all starts that there were over them.
#[derive(Drop)]
pub struct FileDisk {
    files: Files<Device>,
    names: Vec<u64>,
}

// What a database has of starts.
#[derive(Drop)]
struct Kept {
    starts: Vec<Mark>,
    heard: Vec<Sighting>,
}

fn starts_in(
    alloc: Global,
    store: &mut SqlStore<FileStore<Device>>,
    names: &[u64],
) -> Result<Vec<Mark>, StoreFault> {
    let mut starts = Vec::new(alloc);
    for start in names.iter() {
        if let Some(saves) = store.saves_of(*start)? {
            let start = *start;
            starts.push(Mark { start, saves })?;
        }
    }
    Ok(starts)
}

fn heard_in(
    alloc: Global,
    store: &mut SqlStore<FileStore<Device>>,
) -> Result<Vec<Sighting>, StoreFault> {
    let mut heard = Vec::new(alloc);
    for number in 1..=MOST_MEMBERS {
        let Some(member) = MemberId::new(number) else {
            continue;
        };
        if let Some(mark) = store.mark_of(member)? {
            heard.push(Sighting { member, mark })?;
        }
    }
    Ok(heard)
}

// A start of that name begins on a database, which had that of starts.
fn begin_in(
    alloc: Global,
    store: &mut SqlStore<FileStore<Device>>,
    names: &[u64],
    begins: (u64, Rc<Notes>),
) -> Result<Kept, StoreFault> {
    let (start, notes) = begins;
    store.begin_start(start, notes)?;
    let names = names.strip_suffix(&[start]).unwrap_or(names);
    Ok(Kept {
        starts: starts_in(alloc, store, names)?,
        heard: heard_in(alloc, store)?,
    })
}

// What a member knows whose start of that name has begun.
fn witness_of(start: u64, kept: Kept) -> (Witness, Ears) {
    let Kept { starts, heard } = kept;
    let mut witness = Witness::new(Mark { start, saves: 0 }, starts);
    let mut ears: Ears = [None; MEMBERS];
    for sighting in heard.iter() {
        witness.remember(*sighting);
        if let Some(ear) = ears.get_mut(place_of(sighting.member)) {
            *ear = Some(sighting.mark);
        }
    }
    (witness, ears)
}

// A store over files, on which its start begins.
fn begin_on(
    alloc: Global,
    opened: (SqlStore<FileStore<Device>>, u64),
    names: Vec<u64>,
    start: u64,
) -> Result<Opened<OnFiles>, FileDisk> {
    let (mut store, chosen) = opened;
    let mut names = names;
    let Ok(known) = begin_known(alloc, &mut store, &mut names, start) else {
        let files = crash_files(files_of(store));
        return Err(FileDisk { files, names });
    };
    let (notes, register, copy, witness) = known;
    let store = OnFiles {
        store,
        names,
        notes,
        register: copy,
        faults: Faults::new(),
    };
    Ok(Opened {
        store,
        chosen,
        witness,
        register,
    })
}

type Known = (Rc<Notes>, Register, Register, Witness);

fn begin_known(
    alloc: Global,
    store: &mut SqlStore<FileStore<Device>>,
    names: &mut Vec<u64>,
    start: u64,
) -> Result<Known, StoreFault> {
    names.push(start)?;
    let notes = Rc::new(alloc, Notes::new())?;
    let shared = notes.clone()?;
    let kept = begin_in(alloc, store, names.as_slice(), (start, shared))?;
    let (witness, ears) = witness_of(start, kept);
    let register = Register::new(alloc, ears)?;
    let copy = register.copy()?;
    Ok((notes, register, copy, witness))
}

impl Shelf for OnFiles {
    type Kept = FileDisk;

    fn empty(alloc: Global) -> FileDisk {
        let files = Files {
            log: Limited::new(Memory::new(alloc), Budget::endless()),
            db: Limited::new(Memory::new(alloc), Budget::endless()),
        };
        let names = Vec::new(alloc);
        FileDisk { files, names }
    }

    fn copy(alloc: Global, kept: &FileDisk) -> Option<FileDisk> {
        let mut names = Vec::new(alloc);
        names.extend_from_slice(kept.names.as_slice()).ok()?;
        let files = limit_files(alloc, &kept.files, Condition::Sound)?;
        Some(FileDisk { files, names })
    }

    fn open(
        alloc: Global,
        kept: FileDisk,
        disk: Condition,
        opener: Opener,
    ) -> Result<Opened<OnFiles>, FileDisk> {
        let Some(files) = limit_files(alloc, &kept.files, disk) else {
            return Err(kept);
        };
        let FileDisk { files: old, names } = kept;
        drop(old);
        match store_in(alloc, files, opener.owner) {
            Ok(opened) => begin_on(alloc, opened, names, opener.start),
            Err(files) => {
                let files = crash_files(files);
                Err(FileDisk { files, names })
            }
        }
    }

    fn close(self) -> FileDisk {
        let OnFiles {
            store,
            names,
            notes: _,
            register: _,
            faults: _,
        } = self;
        let files = crash_files(files_of(store));
        FileDisk { files, names }
    }
}
