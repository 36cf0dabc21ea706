//! The fields of a command.

ghost use Rattle.std.specs.Prelude.{◌≡◌, ◌≢◌, Err};
ghost use Rattle.serde_json.specs.View.{view};
ghost use Rattle.press_text.specs.Gives.{Gives};
ghost use Rattle.press_kit.specs.Memory.{GrowsBehind, editor_at};
ghost use Rattle.press_kit.specs.Refusals.{Refuses};
ghost use Rattle.press_kit.specs.SiteFile as spec;

use crate::fault::KitFileFault;
use crate::fields::Fields;
use crate::listed::Listed;
use crate::place::Place;
use press_apply::Stamped;
use press_fields::{FieldFault, Lookup, read_command};
use serde_json::Value;
use std::alloc::Global;
use std::borrow::CowStr;

impl<'v> Lookup for Fields<'v> {
    ghost seen = { λ fields. spec.fields_of (view fields.value.now) };

    ghost lends = { λ fields key. Unit {0} };

    fn text(&self, key: &str) -> Result<Option<CowStr<'_>>, FieldFault> {
        match self.value.get(key) {
            None => Ok(None),
            Some(told) => match told.as_str() {
                Some(text) => Ok(Some(CowStr::Borrowed(text))),
                None => Err(FieldFault::BadField),
            },
        }
    }

    fn number(&self, key: &str) -> Result<Option<u64>, FieldFault> {
        match self.value.get(key) {
            None => Ok(None),
            Some(told) => match told.as_u64() {
                Some(number) => Ok(Some(number)),
                None => Err(FieldFault::BadField),
            },
        }
    }
}

impl<'v> Fields<'v> {
    #[tactic(auto, unfolding(crate::specs::SiteFile::command_of))]
    fn stamped_command(&self) -> Result<Stamped, KitFileFault>
        ensures gives { Gives Refuses Ok result (spec.command_of self.now.at
            (view self.now.value.now)) }
        ensures memory { GrowsBehind result (editor_at self.now.at
            (view self.now.value.now)) }
    {
        match read_command(self.alloc, self) {
            Ok(command) => Ok(command),
            Err(FieldFault::NoMemory) => Err(KitFileFault::NoMemory),
            Err(FieldFault::BadField) => Err(KitFileFault::BadKitFile(self.at)),
        }
    }
}

impl Listed for Stamped {
    ghost read = { spec.command_of };

    fn read(alloc: Global, at: Place, value: &Value) -> Result<Stamped, KitFileFault> {
        Fields { alloc, at, value }.stamped_command()
    }
}
