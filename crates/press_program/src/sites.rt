//! The commands of site files.

ghost use Rattle.std.specs.Prelude.{◌≡◌, ◌+◌, None, false, length, map};
ghost use Rattle.std.specs.Io.KnownBytes.{Keeps};
ghost use Rattle.press_kit.specs.KitFile.{file_limit};
ghost use Rattle.press_kit.specs.SiteFile.{site_in};
ghost use Rattle.press_text.specs.Streams.{TakesAtMost};
ghost use Rattle.press_world.specs.ReadingFiles.{ReadsAs};
ghost use Rattle.press_program.specs.Endings.{known_of, ReadsNamed};
ghost use Rattle.press_program.specs.Words.{is_input};

use press_apply::Stamped;
use press_text::Items;
use press_world::{ReplayFault, read_site};
use std::io::Read;
use std::rt::Files;
use std::{fs, io};

// The commands of a file by its name. One that can't be opened counts as one that can't be read.
#[tactic(auto, using(crate::proofs::Behind::untold, crate::proofs::Behind::unopened))]
fn read_named<Rt: AllocGlobal + Files>(rt: &Rt, file: &str) -> Result<Items<Stamped>, ReplayFault>
    ensures { ReadsAs site_in None result }
{
    match fs::open(rt, file) {
        Ok(mut reader) => read_site(rt.alloc(), &mut reader),
        Err(e) if e.kind() == io::ErrorKind::OutOfMemory => Err(ReplayFault::NoMemory),
        Err(_) => Err(ReplayFault::ReadFault),
    }
}

/// The commands of a file: of what a reader has left for `-`, which is the standard input.
pub(crate) fn site_of<Rt: AllocGlobal + Files, R: Read>(
    rt: &Rt,
    file: &str,
    reader: &mut R,
) -> Result<Items<Stamped>, ReplayFault>
    ensures took { TakesAtMost (R.remaining reader.old) (R.remaining reader.new) (file_limit + 1) }
    ensures stays { is_input file.now ≡ false →
        Keeps (R.remaining reader.old) (R.remaining reader.new) }
    ensures gives { ReadsAs site_in (known_of file.now (R.remaining reader.old)) result }
{
    if file == "-" {
        read_site(rt.alloc(), reader)
    } else {
        read_named(rt, file)
    }
}

/// The commands of files by their names, one behind the other.
pub(crate) fn read_all_named<Rt: AllocGlobal + Files>(
    rt: &Rt,
    names: &[&str],
) -> Result<Items<Stamped>, ReplayFault>
    ensures { ReadsNamed (length (map (λ name. name.now) names.now)) result }
{
    let mut commands: Vec<Stamped> = Vec::new(rt.alloc());
    for i in 0..names.len() {
        let site = read_named(rt, names[i])?;
        let mut more = site.into_vec();
        commands.append(&mut more)?;
    }
    Ok(Items::from_vec(commands))
}
