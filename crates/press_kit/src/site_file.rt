//! Site files.

ghost use Rattle.std.specs.Prelude.{◌≡◌, ◌≢◌, ◌<◌, Err, length, map, option_map, IsErrOf};
ghost use Rattle.serde_json.specs.View.{view};
ghost use Rattle.press_text.specs.Gives.{Gives};
ghost use Rattle.press_kit.specs.Memory.{GrowsBehind, few_at};
ghost use Rattle.press_kit.specs.Refusals.{Refuses};
ghost use Rattle.press_kit.specs.KitFile.{file_limit};
ghost use Rattle.press_kit.specs.declared.place.Place.TheVariants as place;
ghost use Rattle.press_kit.specs.SiteFile as spec;

use crate::fault::KitFileFault;
use crate::fields::Fields;
use crate::json::parse_file;
use crate::listed::each;
use crate::place::Place;
use press_apply::Stamped;
use press_text::Items;
use serde_json::Value;
use std::alloc::Global;

/// The most commands that a list may have.
pub const COMMAND_LIMIT: usize = 100_000;

// The values, if there are not too many.
fn few(values: &[Value]) -> Option<&[Value]>
    ensures { option_map (λ vs. map view vs.now) result ≡ spec.few (map view values.now) }
{
    if values.len() > COMMAND_LIMIT {
        None
    } else {
        Some(values)
    }
}

// The values of the key `commands`, if there are not too many.
#[tactic(auto, unfolding(crate::specs::Memory::few_at))]
fn few_commands(alloc: Global, value: &Value) -> Result<&[Value], KitFileFault>
    ensures gives { Gives Refuses (λ vs. Ok (map view vs.now)) result (few_at (view value.now)) }
    ensures memory { result ≢ Err KitFileFault.NoMemory }
{
    let at = Place::Commands;
    let all = Fields { alloc, at, value }.list("commands")?;
    Ok(few(all).ok_or(at)?)
}

/// The commands of the key `commands`.
#[tactic(auto, unfolding(crate::specs::SiteFile::commands_of, crate::specs::Memory::few_at))]
pub(crate) fn commands(alloc: Global, value: &Value) -> Result<Items<Stamped>, KitFileFault>
    ensures gives { Gives Refuses Ok result (spec.commands_of (view value.now)) }
    ensures memory { GrowsBehind result (few_at (view value.now)) }
{
    each(alloc, Place::Commands, few_commands(alloc, value)?)
}

/// The commands that the bytes of a site file give, in their order.
///
/// Keys that nobody names are ignored; of a key that is repeated the last one counts. A file has at
/// most 4,194,304 bytes and 100,000 commands.
#[tactic(auto, unfolding(crate::specs::SiteFile::site_in))]
pub fn read_site_file(alloc: Global, bytes: &[u8]) -> Result<Items<Stamped>, KitFileFault>
    ensures gives { Gives Refuses Ok result (spec.site_in bytes.now) }
    ensures long { file_limit < length bytes.now
        → IsErrOf result (KitFileFault.BadKitFile place.File) }
{
    let value = parse_file(alloc, bytes)?;
    commands(alloc, &value)
}
