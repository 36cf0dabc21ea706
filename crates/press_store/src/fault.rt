//! What an error of the connection says of the store.

ghost use Rattle.std.specs.Prelude.{◌≡◌};
ghost use Rattle.press_store.specs.Faults.{store_fault_of};

use press_acceptor::StoreFault;
use sqlite::{Error, ErrorCode};

/// The fault of an error: out of memory, a failure of the disk or a size that the disk's format
/// can't hold; else damage.
pub fn fault_of(error: Error) -> StoreFault
    ensures { result ≡ store_fault_of error }
{
    match error {
        Error::SqliteFailure(ErrorCode::OutOfMemory) => StoreFault::NoMemory,
        Error::SqliteFailure(
            ErrorCode::SystemIoFailure
            | ErrorCode::DatabaseCorrupt
            | ErrorCode::DiskFull
            | ErrorCode::TooBig,
        ) => StoreFault::Disk,
        _ => StoreFault::Damaged,
    }
}
