//! A play file, from its bytes to its lines.

ghost use Rattle.std.specs.Prelude.{◌≡◌, ◌+◌, IfOk, IfSome, string_bytes};
ghost use Rattle.press_callbacks.specs.Kits.{kit_view};
ghost use Rattle.press_text.specs.Streams.{TakesAtMost};
ghost use Rattle.press_kit.specs.KitFile.{file_limit};
ghost use Rattle.press_kit.specs.PlayFile.{play_file_in};
ghost use Rattle.press_text.specs.Gives.{Gives};
ghost use Rattle.press_play.specs.Played.{Refuses, all_lines, file_where, lines_of_file, played_in};

use crate::commands::commands_on;
use crate::fault::PlayFault;
use crate::journal::Journal;
use crate::notes::Notes;
use crate::pages::pages_on;
use crate::plays::lines_of;
use crate::sites::site_with;
use press_apply::Stamped;
use press_callbacks::{BoxedTurns, CallIn, Kit, Stored};
use press_kit::{FILE_LIMIT, KitFileFault, KitParts, Place, Play, PlayFile, read_play_file};
use press_page::Target;
use press_site::Site;
use press_text::{Copied, Items, ReadLimitedFault, read_limited};
use std::alloc::{AllocError, Global};
use std::io::Read;

#[tactic(auto, unfolding(press_kit::specs::PlayFile::play_file_in, press_kit::specs::KitFile::file_in))]
fn read_file<R: Read>(
    alloc: Global,
    reader: &mut R,
    notes: &mut Notes,
) -> Result<PlayFile, PlayFault>
    ensures took { TakesAtMost (R.remaining reader.old) (R.remaining reader.new) (file_limit + 1) }
    ensures gives { IfSome (R.remaining reader.old)
        (λ input. Gives Refuses Ok result (file_where (play_file_in input))) }
{
    let bytes = match read_limited(alloc, reader, FILE_LIMIT) {
        Ok(bytes) => bytes,
        Err(ReadLimitedFault::NoMemory) => return Err(PlayFault::NoMemory),
        Err(ReadLimitedFault::ReadFault) => return Err(PlayFault::ReadFault),
        Err(ReadLimitedFault::TooLong) => return Err(PlayFault::BadKitFile(Place::File)),
    };
    match read_play_file(alloc, &bytes) {
        Ok(file) => {
            notes.note_kit(alloc, &file);
            Ok(file)
        }
        Err(KitFileFault::NoMemory) => Err(PlayFault::NoMemory),
        Err(KitFileFault::BadKitFile(place)) => {
            notes.note_bad(alloc, &bytes, place);
            Err(PlayFault::BadKitFile(place))
        }
    }
}

// What a play file asks for, once its kit is built.
struct Orders {
    commands: Items<Stamped>,
    pages: Items<Target>,
    plays: Items<Play>,
}

impl Drop for Orders {
    fn drop(self) {
        let Orders {
            commands: _,
            pages: _,
            plays: _,
        } = self;
    }
}

impl Orders {
    // The lines of the commands, and those of the pages and plays on the site after them.
    fn play(self, journal: &Journal, kit: &Kit, mut site: Site) -> Result<String, AllocError>
        ensures { IfOk result (λ t. string_bytes t
            ≡ all_lines (kit_view kit.now) site self.commands self.pages self.plays) }
    {
        let Orders {
            commands,
            pages,
            plays,
        } = self;
        let alloc = journal.alloc();
        let mut lines = commands_on(alloc, kit, &mut site, commands)?;
        let mut shown = pages_on(alloc, kit, &site, pages)?;
        let played = lines_of(journal, kit, site, plays.as_slice())?;
        shown.push_str(played.as_str())?;
        lines.push_str(shown.as_str())?;
        Ok(lines)
    }
}

// The lines of a play file. The kit's closures, which note what they ask, are boxed here: a
// function can't return a box.
fn lines_of_play(journal: &Journal, file: PlayFile) -> Result<String, PlayFault>
    ensures { Gives Refuses (λ t. Ok (string_bytes t)) result (lines_of_file file) }
{
    let alloc = journal.alloc();
    let PlayFile {
        kit,
        active,
        commands,
        pages,
        plays,
    } = file;
    let KitParts {
        callbacks: parts,
        plugins,
    } = kit;
    let mut callbacks: Vec<Stored> = Vec::new(alloc);
    for scripted in parts.into_vec() {
        let own = scripted.script.copy_in(alloc)?;
        let id = scripted.id;
        let noted = journal.copy()?;
        let call: BoxedTurns = Box::new(alloc, move |input: &CallIn| noted.turn(&id, &own, input))?;
        callbacks.push(Stored::new(id, scripted.script, call))?;
    }
    let kit = Kit::build(alloc, callbacks, plugins.into_vec())?;
    let site = site_with(alloc, active)?;
    let asked = Orders {
        commands,
        pages,
        plays,
    };
    let lines = asked.play(journal, &kit, site)?;
    Ok(lines)
}

/// The lines of the play file that a reader has left. Messages to its author go to the notes.
#[tactic(auto, using(crate::proofs::Refused::file_played))]
pub fn read_and_play<R: Read>(
    alloc: Global,
    reader: &mut R,
    notes: &mut Notes,
) -> Result<String, PlayFault>
    ensures took { TakesAtMost (R.remaining reader.old) (R.remaining reader.new) (file_limit + 1) }
    ensures gives { IfSome (R.remaining reader.old)
        (λ input. Gives Refuses (λ t. Ok (string_bytes t)) result (played_in input)) }
{
    let file = read_file(alloc, reader, notes)?;
    lines_of_play(&notes.journal, file)
}
