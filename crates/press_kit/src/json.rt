//! The JSON value of a file.

ghost use Rattle.std.specs.Prelude.{◌≡◌, ◌<◌, length, IsErrOf};
ghost use Rattle.serde_json.specs.View.{view};
ghost use Rattle.press_text.specs.Gives.{Gives};
ghost use Rattle.press_kit.specs.Refusals.{Refuses};
ghost use Rattle.press_kit.specs.Fields.{or_bad};
ghost use Rattle.press_kit.specs.KitFile.{json_in, file_in, file_limit};
ghost use Rattle.press_kit.specs.declared.place.Place.TheVariants as place;

use crate::fault::KitFileFault;
use crate::place::Place;
use serde_json::Value;
use std::alloc::Global;

/// The most bytes that a file may have.
pub const FILE_LIMIT: usize = 4_194_304;

fn json(alloc: Global, bytes: &[u8]) -> Result<Value, KitFileFault>
    ensures { Gives Refuses (λ v. Ok (view v)) result (or_bad place.File (json_in bytes.now)) }
{
    match Value::from_slice(alloc, bytes) {
        Ok(value) => Ok(value),
        Err(e) => {
            if e.is_memory() {
                Err(KitFileFault::NoMemory)
            } else {
                Err(KitFileFault::BadKitFile(Place::File))
            }
        }
    }
}

/// The value of a file that is not too long.
#[tactic(auto, unfolding(crate::specs::KitFile::file_in))]
pub fn parse_file(alloc: Global, bytes: &[u8]) -> Result<Value, KitFileFault>
    ensures gives { Gives Refuses (λ v. Ok (view v)) result (file_in bytes.now) }
    ensures long { file_limit < length bytes.now
        → IsErrOf result (KitFileFault.BadKitFile place.File) }
{
    if bytes.len() > FILE_LIMIT {
        return Err(KitFileFault::BadKitFile(Place::File));
    }
    json(alloc, bytes)
}
