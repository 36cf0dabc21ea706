//! Reading site files and schedules.

ghost use Rattle.std.specs.Prelude.{◌+◌, ◌≤◌, IfOk};
ghost use Rattle.press_text.specs.Streams.{TakesAtMost};
ghost use Rattle.press_kit.specs.KitFile.{file_limit};
ghost use Rattle.press_kit.specs.SiteFile.{site_in};
ghost use Rattle.press_world.specs.ReadingFiles.{ReadsAs};
ghost use Rattle.press_world.specs.ScheduleFile.{schedule_in};

use crate::replay_fault::ReplayFault;
use crate::schedule_file::read_schedule_file;
use crate::step::Step;
use press_apply::Stamped;
use press_kit::{FILE_LIMIT, read_site_file};
use press_text::{Items, read_limited};
use std::alloc::Global;
use std::io::Read;

/// The commands of the site file that a reader has left.
pub fn read_site<R: Read>(alloc: Global, reader: &mut R) -> Result<Items<Stamped>, ReplayFault>
    ensures took { TakesAtMost (R.remaining reader.old) (R.remaining reader.new) (file_limit + 1) }
    ensures gives { ReadsAs site_in (R.remaining reader.old) result }
{
    let bytes = read_limited(alloc, reader, FILE_LIMIT)?;
    Ok(read_site_file(alloc, &bytes)?)
}

/// How many nodes there are, `kits` at most, and the steps of the schedule that a reader has left.
pub fn read_schedule<R: Read>(
    alloc: Global,
    reader: &mut R,
    kits: usize,
) -> Result<(usize, Items<Step>), ReplayFault>
    ensures took { TakesAtMost (R.remaining reader.old) (R.remaining reader.new) (file_limit + 1) }
    ensures gives { ReadsAs (schedule_in kits) (R.remaining reader.old) result }
    ensures nodes { IfOk result (λ s. (1 ≤ s.0) × (s.0 ≤ kits)) }
{
    let bytes = read_limited(alloc, reader, FILE_LIMIT)?;
    Ok(read_schedule_file(alloc, &bytes, kits)?)
}
