ghost use Rattle.std.specs.Prelude.{◌≡◌, ◌<◌, length, map, IsErrOf};
ghost use Rattle.serde_json.specs.View.{view};
ghost use Rattle.press_text.specs.Gives.{Gives};
ghost use Rattle.press_kit.specs.Refusals.{Refuses};
ghost use Rattle.press_kit.specs.declared.place.Place.TheVariants as place;
ghost use Rattle.press_kit.specs.KitFile as spec;

use crate::fault::KitFileFault;
use crate::fields::Fields;
use crate::json::parse_file;
use crate::listed::each;
use crate::place::Place;
use press_callbacks::{Plugin, Script};
use press_text::{CallbackId, Items};
use serde_json::Value;
use std::alloc::Global;

/// A callback to be: its name and its script.
#[derive(Debug, Drop)]
pub struct Scripted {
    pub id: CallbackId,
    pub script: Script,
}

/// What a kit file gives: callbacks and plugins in the order of the file.
#[derive(Debug, Drop)]
pub struct KitParts {
    pub callbacks: Items<Scripted>,
    pub plugins: Items<Plugin>,
}

/// The callbacks and plugins of a kit's value.
#[tactic(auto, unfolding(crate::specs::KitFile::kit_of))]
pub(crate) fn kit(alloc: Global, value: &Value) -> Result<KitParts, KitFileFault>
    ensures { Gives Refuses Ok result (spec.kit_of (view value.now)) }
{
    let fields = Fields {
        alloc,
        at: Place::File,
        value,
    };
    fields.has_only(&["callbacks", "plugins"])?;
    let values = Fields {
        at: Place::Callbacks,
        ..fields
    }
    .list("callbacks")?;
    let callbacks = each(alloc, Place::Callbacks, values)?;
    let values = Fields {
        at: Place::Plugins,
        ..fields
    }
    .list("plugins")?;
    let plugins = each(alloc, Place::Plugins, values)?;
    Ok(KitParts { callbacks, plugins })
}

/// The callbacks and plugins that the bytes of a kit file give.
///
/// Of a key that is repeated the last one counts; a key that nobody names is bad. A file has at
/// most 4,194,304 bytes.
#[tactic(auto, unfolding(crate::specs::KitFile::kit_in))]
pub fn read_kit_file(alloc: Global, bytes: &[u8]) -> Result<KitParts, KitFileFault>
    ensures gives { Gives Refuses Ok result (spec.kit_in bytes.now) }
    ensures long { spec.file_limit < length bytes.now
        → IsErrOf result (KitFileFault.BadKitFile place.File) }
{
    let value = parse_file(alloc, bytes)?;
    kit(alloc, &value)
}
