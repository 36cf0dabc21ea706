//! Messages to the author of a file, beside its lines.

use crate::journal::Journal;
use press_kit::{Place, PlayFile, parse_file};
use press_lint::{active_slips, bad_line, bad_play_line, mistake_in, no_json, slips};
use std::alloc::{AllocError, Global};

/// Messages about a file, on standard error.
#[derive(Drop)]
pub struct Notes {
    // The beginning of the line of each slip.
    front: String,
    /// What is wrong with the file, where it is found wrong.
    pub why: String,
    /// A line for each slip.
    pub slips: String,
    /// What the plays do.
    pub journal: Journal,
}

// Whether a place is in a list of the play file itself.
fn is_of_play(at: Place) -> bool {
    matches!(at, Place::ActiveName(_) | Place::Page(_) | Place::Play(_))
}

// The message about a file that is bad at a place.
fn bad(alloc: Global, bytes: &[u8], at: Place) -> Result<String, AllocError> {
    let Ok(value) = parse_file(alloc, bytes) else {
        return no_json(alloc, bytes);
    };
    match value.get("kit") {
        Some(_) if is_of_play(at) => bad_line(alloc, &value, at),
        Some(kit) if at != Place::File => bad_line(alloc, kit, at),
        _ => bad_play_line(alloc, &value),
    }
}

impl Notes {
    /// Nothing yet, of the file of that name.
    pub fn new(alloc: Global, name: &str) -> Result<Notes, AllocError> {
        Ok(Notes {
            front: format!(in alloc; "press_play: warning in {name}: ")?,
            why: String::new(alloc),
            slips: String::new(alloc),
            journal: Journal::new(alloc, name)?,
        })
    }

    /// The file is bad at a place.
    pub fn note_bad(&mut self, alloc: Global, bytes: &[u8], at: Place) {
        if let Ok(why) = bad(alloc, bytes, at) {
            self.why = why;
        }
    }

    fn slips_of(&self, alloc: Global, file: &PlayFile) -> Result<String, AllocError> {
        let front = self.front.as_str();
        let mut lines = slips(alloc, front, &file.kit, file.plays.as_slice())?;
        let lacking = active_slips(alloc, front, &file.kit, file.active.as_slice())?;
        lines.push_str(lacking.as_str())?;
        Ok(lines)
    }

    /// The file was read: its kit's first mistake, or the slips.
    pub fn note_kit(&mut self, alloc: Global, file: &PlayFile) {
        match mistake_in(alloc, &file.kit) {
            Ok(Some(mistake)) => {
                if let Ok(why) = mistake.tell(alloc, &file.kit) {
                    self.why = why;
                }
            }
            Ok(None) => {
                if let Ok(slips) = self.slips_of(alloc, file) {
                    self.slips = slips;
                }
            }
            Err(_) => {}
        }
    }
}
