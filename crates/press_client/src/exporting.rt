//! What a node has applied, as site files.

ghost use Rattle.std.specs.Prelude.{◌≡◌, ◌-◌, IfErr, IfOk, length, take};
ghost use Rattle.press_client.specs.Exporting as spec;
ghost use Rattle.press_client.specs.Exporting.{writing_of};
ghost use Rattle.press_client.specs.Telling.{IsExport, StopsBy};

use crate::entry::LogEntry;
use crate::log::{LogFault, Piece};
use crate::site_files::{Limits, SiteFile, SiteFiles};
use std::alloc::{AllocError, Global};

/// A node that tells what it has applied.
pub trait Teller {
    ghost use Rattle.press_client.specs.Telling.{Question};

    // A question leads from a state to another, and has an answer.
    ghost tells: { Question Self };

    /// How many values it has applied by now, and some of them behind the first so many.
    fn piece(&mut self, from: u64) -> Result<Piece, LogFault>
        ensures { tells self.old from result self.new };
}

fn put_all(files: &mut SiteFiles, entries: Vec<LogEntry>) -> Result<(), AllocError>
    ensures put { IfOk result (λ _. writing_of files.new
        ≡ spec.put_all files.old.limits entries.items (writing_of files.old)) }
    ensures limits { files.new.limits ≡ files.old.limits }
{
    for entry in entries {
        files.put(entry)?;
    }
    Ok(())
}

// The first so many of these; returns how many are left of that.
fn put_first(
    files: &mut SiteFiles,
    mut entries: Vec<LogEntry>,
    most: u64,
) -> Result<u64, AllocError>
    ensures put { IfOk result (λ _. writing_of files.new
        ≡ spec.put_all files.old.limits (take most entries.items) (writing_of files.old)) }
    ensures left { IfOk result (λ left. left ≡ most - length entries.items) }
    ensures limits { files.new.limits ≡ files.old.limits }
{
    let left = most.saturating_sub(entries.len() as u64);
    entries.truncate(most as usize);
    put_all(files, entries)?;
    Ok(left)
}

/// What a node has applied by the first reply, as site files, whose commands make the same site:
/// what comes later is left out.
pub fn export<T: Teller>(
    alloc: Global,
    teller: &mut T,
    limits: Limits,
) -> Result<Vec<SiteFile>, LogFault>
    ensures files { IfOk result (λ files.
        IsExport T.tells limits teller.old teller.new files.items) }
    ensures stops { IfErr result (λ e. StopsBy T.tells e teller.old teller.new) }
{
    let mut files = SiteFiles::new(alloc, limits)?;
    let Piece { applied, entries } = teller.piece(0)?;
    let mut left = put_first(&mut files, entries, applied)?;
    while left > 0 {
        let Piece { entries, .. } = teller.piece(applied - left)?;
        let next = put_first(&mut files, entries, left)?;
        if next == left {
            return Err(LogFault::NoLog);
        }
        left = next;
    }
    Ok(files.into_files()?)
}
