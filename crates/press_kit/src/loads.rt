//! Callbacks, and plugins with their loads.

ghost use Rattle.std.specs.Prelude.{◌≡◌, map};
ghost use Rattle.serde_json.specs.View.{view};
ghost use Rattle.press_text.specs.Gives.{Gives};
ghost use Rattle.press_kit.specs.Memory.{GrowsBehind, hook_of_load, tag_of_load};
ghost use Rattle.press_kit.specs.Refusals.{Refuses};
ghost use Rattle.press_kit.specs.KitFile as spec;

use crate::fault::KitFileFault;
use crate::fields::Fields;
use crate::kit_parts::Scripted;
use crate::listed::{Listed, each};
use crate::place::Place;
use press_callbacks::{Load, Plugin};
use serde_json::Value;
use std::alloc::Global;

impl<'v> Fields<'v> {
    #[tactic(auto, unfolding(crate::specs::KitFile::hook_load, crate::specs::Memory::hook_of_load))]
    fn hook_load(&self) -> Result<Load, KitFileFault>
        ensures gives { Gives Refuses Ok result
            (spec.hook_load self.now.at (view self.now.value.now)) }
        ensures memory { GrowsBehind result (hook_of_load self.now.at (view self.now.value.now)) }
    {
        self.has_only(&["hook", "callback", "priority", "accepted"])?;
        let hook = self.hook("hook")?;
        let callback = self.callback("callback")?;
        Ok(Load::Hook {
            hook,
            priority: self.priority()?,
            callback,
            accepted: self.accepted_count()?,
        })
    }

    #[tactic(auto, unfolding(crate::specs::KitFile::tag_load, crate::specs::Memory::tag_of_load))]
    fn tag_load(&self) -> Result<Load, KitFileFault>
        ensures gives { Gives Refuses Ok result
            (spec.tag_load self.now.at (view self.now.value.now)) }
        ensures memory { GrowsBehind result (tag_of_load self.now.at (view self.now.value.now)) }
    {
        self.has_only(&["tag", "callback"])?;
        Ok(Load::Tag {
            tag: self.tag("tag")?,
            callback: self.callback("callback")?,
        })
    }
}

impl Listed for Load {
    ghost read = { spec.load_of };

    fn read(alloc: Global, at: Place, value: &Value) -> Result<Load, KitFileFault> {
        let fields = Fields { alloc, at, value };
        if value.get("hook").is_some() {
            fields.hook_load()
        } else {
            fields.tag_load()
        }
    }
}

impl Listed for Plugin {
    ghost read = { spec.plugin_of };

    #[tactic(auto, unfolding(crate::specs::KitFile::plugin_of))]
    fn read(alloc: Global, at: Place, value: &Value) -> Result<Plugin, KitFileFault> {
        let fields = Fields { alloc, at, value };
        fields.has_only(&["name", "load"])?;
        let name = fields.name("name")?;
        let values = fields.list("load")?;
        Ok(Plugin {
            name,
            load: each(alloc, at, values)?,
        })
    }
}

impl Listed for Scripted {
    ghost read = { spec.callback_of };

    #[tactic(auto, unfolding(crate::specs::KitFile::callback_of))]
    fn read(alloc: Global, at: Place, value: &Value) -> Result<Scripted, KitFileFault> {
        let fields = Fields { alloc, at, value };
        fields.has_only(&["name", "script"])?;
        let id = fields.callback("name")?;
        let values = fields.list("script")?;
        Ok(Scripted {
            id,
            script: each(alloc, at, values)?,
        })
    }
}
