//! The file of a store: whether it is there, who may use it, and how that of a new member is made.

ghost use Rattle.std.specs.Prelude.{◌≡◌, MatchResult, None, Some};
ghost use Rattle.press_server.specs.Stores.{presence_by, store_refusal};

use crate::joining::tie;
use crate::serve_fault::ServeFault;
use crate::setup::Role;
use press_acceptor::StoreFault;
use press_store::{Owner, SqlStore};
use sqlite::{Connection, Error, ErrorCode, File as StoredFile, FileStore};
use std::alloc::{AllocError, Global};
use std::fs::File;
use std::{fs, io};

/// What is there of a store.
#[derive(Clone, Copy, Debug, PartialEq, Eq)]
pub enum Presence {
    Absent,
    /// A file without a byte, or a log without its file.
    Empty,
    Kept,
    /// The folder doesn't tell.
    Unseen,
}

// The file behind a store's, with what isn't in that yet.
fn log_name(alloc: Global, file: &str) -> Result<String, AllocError> {
    format!(in alloc; "{file}-wal")
}

// How many bytes a file has; None where it isn't there.
fn size_of(rt: &HostRuntime, file: &str) -> io::Result<Option<u64>> {
    match fs::metadata(rt, file) {
        Ok(found) => Ok(Some(found.len())),
        Err(e) if e.kind() == io::ErrorKind::NotFound => Ok(None),
        Err(e) => Err(e),
    }
}

// What a file and its log of so many bytes are. A log without its file is nothing that could be
// opened.
fn presence_by(file: Option<u64>, log: Option<u64>) -> Presence
    ensures { result ≡ presence_by file log }
{
    match (file, log) {
        (None, None) => Presence::Absent,
        (None, Some(_)) | (Some(0), None | Some(0)) => Presence::Empty,
        (Some(_), _) => Presence::Kept,
    }
}

// What is there of a store.
fn presence_of(rt: &HostRuntime, file: &str) -> Result<Presence, AllocError> {
    let log = log_name(rt.alloc(), file)?;
    match (size_of(rt, file), size_of(rt, &log)) {
        (Ok(file), Ok(log)) => Ok(presence_by(file, log)),
        _ => Ok(Presence::Unseen),
    }
}

// Whether a server of that place may go on where this is there.
fn admit_file(place: Role<'_>, presence: Presence) -> Result<(), ServeFault>
    ensures { MatchResult result (λ _. store_refusal place.entry presence ≡ None)
        (λ fault. store_refusal place.entry presence ≡ Some fault) }
{
    match (place, presence) {
        (Role::Alone { .. }, _)
        | (Role::Member { .. }, Presence::Kept)
        | (Role::NewMember { .. }, Presence::Absent) => Ok(()),
        (_, Presence::Unseen) => Err(ServeFault::StoreShut),
        (Role::Member { .. }, Presence::Absent | Presence::Empty) => Err(ServeFault::NoStore),
        (Role::NewMember { .. }, Presence::Empty | Presence::Kept) => Err(ServeFault::StoreThere),
    }
}

/// Looks whether the file of a store is there where it has to be, and isn't where it may not be.
pub fn look_for(rt: &HostRuntime, place: Role<'_>, file: &str) -> Result<(), ServeFault> {
    admit_file(place, presence_of(rt, file)?)
}

// Whether the folder of a file doesn't exist.
fn lacks_folder(rt: &HostRuntime, file: &str) -> bool {
    match file.rsplit_once('/') {
        Some(("", _)) | None => false,
        Some((folder, _)) => matches!(fs::exists(rt, folder), Ok(false)),
    }
}

// Why a store that is told to be damaged could not be opened, as far as another look at its file
// tells.
fn why_shut(rt: &HostRuntime, file: &str) -> ServeFault {
    match Connection::open(rt, file) {
        Err(Error::SqliteFailure(ErrorCode::DatabaseBusy)) => ServeFault::StoreTaken,
        Err(Error::SqliteFailure(ErrorCode::CannotOpen)) if lacks_folder(rt, file) => {
            ServeFault::NoFolder
        }
        Err(Error::SqliteFailure(ErrorCode::CannotOpen)) => ServeFault::StoreShut,
        _ => ServeFault::Damaged,
    }
}

// A store could not be opened.
fn fault_of_open(rt: &HostRuntime, file: &str, fault: StoreFault) -> ServeFault {
    match fault {
        StoreFault::Damaged => why_shut(rt, file),
        _ => fault.into(),
    }
}

/// The store in a file, which is made where there is none.
pub fn open(rt: &HostRuntime, file: &str) -> Result<SqlStore<FileStore<StoredFile>>, ServeFault> {
    match SqlStore::open(rt, file) {
        Ok(store) => Ok(store),
        Err(fault) => Err(fault_of_open(rt, file, fault)),
    }
}

// Why a file could not be made.
fn why_unmade(rt: &HostRuntime, file: &str, error: &io::Error) -> ServeFault {
    match error.kind() {
        io::ErrorKind::OutOfMemory => ServeFault::NoMemory,
        io::ErrorKind::AlreadyExists => ServeFault::StoreThere,
        io::ErrorKind::StorageFull => ServeFault::Disk,
        _ if lacks_folder(rt, file) => ServeFault::NoFolder,
        _ => ServeFault::StoreShut,
    }
}

// A store that nobody has yet gets its tables and its owner.
fn fill(rt: &HostRuntime, file: &str, owner: Owner) -> Result<(), ServeFault> {
    let mut store = open(rt, file)?;
    tie(&mut store, Some(owner))
}

/// Makes the store of a new member, which has nothing in it but whose it is. What fails leaves no
/// file.
pub fn make(rt: &HostRuntime, file: &str, owner: Owner) -> Result<(), ServeFault> {
    let log = log_name(rt.alloc(), file)?;
    match File::create_new(rt, file) {
        Ok(made) => drop(made),
        Err(e) => return Err(why_unmade(rt, file, &e)),
    }
    match fill(rt, file, owner) {
        Ok(()) => Ok(()),
        Err(fault) => {
            let _ = fs::remove_file(rt, file);
            let _ = fs::remove_file(rt, &log);
            Err(fault)
        }
    }
}
