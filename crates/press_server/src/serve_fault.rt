//! Why a server ends before its time.

use press_acceptor::StoreFault;
use press_cluster::PeersFault;
use press_store::Owner;
use press_text::WriteFault;
use std::alloc::{AllocError, AllocFailed};
use std::io;
use thiserror::Error;

/// A file that is another's: whose it is, and who asked for it, which is None for a node by itself.
#[derive(Clone, Copy, Debug, PartialEq, Eq)]
pub struct Foreign {
    pub owner: Owner,
    pub asked: Option<Owner>,
}

/// Why nothing is served, or no more.
#[derive(Clone, Copy, Debug, Error)]
pub enum ServeFault {
    #[error("no memory")]
    NoMemory,
    /// The listener could not be opened.
    #[error("no connection could be opened")]
    NoConnections,
    #[error("its address is taken")]
    Taken,
    #[error("its address may not be opened")]
    NotAllowed,
    #[error("its address is none of this machine")]
    NotHere,
    /// The name of the member itself isn't found.
    #[error("no address is found for its name")]
    NotFound,
    #[error("too few files may be open")]
    FewFiles,
    #[error("the page for editors could not be read")]
    ReadFault,
    /// The list of peers is wrong: nothing is opened.
    #[error("a bad list of peers")]
    BadPeers,
    #[error("the line that it listens could not be written")]
    WriteFault,
    /// The file is that of a member with another number, or of other peers; or a member's, and the
    /// node is by itself.
    #[error("the store is another member's")]
    Foreign(Foreign),
    /// A member makes no store without being told.
    #[error("the store is not there")]
    NoStore,
    /// A new member's store was to be made where something is.
    #[error("the store is there already")]
    StoreThere,
    /// Another member heard of this one what the store lacks.
    #[error("the store has forgotten what its member said")]
    Forgotten,
    #[error("the disk failed")]
    Disk,
    #[error("what is stored is damaged")]
    Damaged,
    #[error("the store is open in another process")]
    StoreTaken,
    #[error("the folder of the store does not exist")]
    NoFolder,
    #[error("the store could not be opened")]
    StoreShut,
}

impl From<AllocError> for ServeFault {
    fn from(_e: AllocError) -> ServeFault {
        ServeFault::NoMemory
    }
}

impl<T: Drop> From<AllocFailed<T>> for ServeFault {
    fn from(_e: AllocFailed<T>) -> ServeFault {
        ServeFault::NoMemory
    }
}

impl From<io::Error> for ServeFault {
    fn from(e: io::Error) -> ServeFault {
        match e.kind() {
            io::ErrorKind::OutOfMemory => ServeFault::NoMemory,
            io::ErrorKind::AddrInUse => ServeFault::Taken,
            io::ErrorKind::AddrNotAvailable => ServeFault::NotHere,
            io::ErrorKind::PermissionDenied => ServeFault::NotAllowed,
            _ => ServeFault::NoConnections,
        }
    }
}

impl From<StoreFault> for ServeFault {
    fn from(fault: StoreFault) -> ServeFault {
        match fault {
            StoreFault::NoMemory => ServeFault::NoMemory,
            StoreFault::Disk => ServeFault::Disk,
            StoreFault::Damaged => ServeFault::Damaged,
        }
    }
}

impl From<PeersFault> for ServeFault {
    fn from(fault: PeersFault) -> ServeFault {
        match fault {
            PeersFault::NoMemory => ServeFault::NoMemory,
            PeersFault::Unknown => ServeFault::BadPeers,
            PeersFault::NotFound => ServeFault::NotFound,
        }
    }
}

impl From<WriteFault> for ServeFault {
    fn from(_f: WriteFault) -> ServeFault {
        ServeFault::WriteFault
    }
}
