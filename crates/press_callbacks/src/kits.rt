//! A kit is made once, and callbacks and plugins are found in it.

ghost use Rattle.std.specs.Prelude.{◌≡◌, Some, IfOk, IfSome, IsNone, IsTrue, option_map, slice_get};
ghost use Rattle.press_callbacks.specs.Kits.{id_of, script_in, scripts_in, plugins_in, callbacks_in, name_at, is_missing, kit_view, scripts_given, view_of, kit_fault, Builds, script_of, script_at, plugin_of};
ghost use Rattle.press_callbacks.specs.Order.{by_name};

use crate::hints::Hints;
use crate::identified;
use crate::kit::Kit;
use crate::kit_fault::KitFault;
use crate::known::fault_of;
use crate::named::{place_of, sorted_by_name};
use crate::plugin::Plugin;
use crate::stored::Stored;
use press_text::{CallbackId, Name};
use std::alloc::Global;

impl Kit {
    /// Refuses by TwoNames (two callbacks or two plugins of one name, or a callback with the name
    /// of a built-in one), then UnknownCallback (a load or a script names a callback that is
    /// neither there nor built in), then BadLoad (more than 1,000 hook loads or 128 tag loads in
    /// all plugins together). The kit's callbacks are those given, closures and all. Takes memory
    /// for hints to where they stand, and none where there are none.
    pub fn build(
        alloc: Global,
        callbacks: Vec<Stored>,
        plugins: Vec<Plugin>,
    ) -> Result<Kit, KitFault>
        ensures builds { Builds kit_view result
            (kit_fault (scripts_given callbacks.items) plugins.items)
            (view_of (scripts_given callbacks.items) plugins.items) }
        ensures kept { IfOk result (λ kit. callbacks_in kit ≡ by_name id_of callbacks.items) }
    {
        let callbacks = sorted_by_name(callbacks);
        let plugins = sorted_by_name(plugins);
        if let Some(fault) = fault_of(callbacks.as_slice(), plugins.as_slice()) {
            return Err(fault);
        }
        let hints = Hints::new(alloc, callbacks.as_slice())?;
        Ok(Kit {
            callbacks,
            plugins,
            hints,
        })
    }

    /// The callback of that name.
    pub fn callback(&self, id: CallbackId) -> Option<&Stored>
        ensures found { option_map (λ c. script_in c.now) result
            ≡ script_of id (scripts_in self.now) }
        ensures named { IfSome result (λ c. id_of c.now ≡ id) }
    {
        match self.place(id) {
            Some(place) => self.at(place),
            None => None,
        }
    }

    /// The place of the callback of that name, which serves for many turns: by its hint, and where
    /// none leads there by binary search.
    pub fn place(&self, id: CallbackId) -> Option<usize>
        ensures script { script_at result (scripts_in self.now)
            ≡ script_of id (scripts_in self.now) }
        ensures named { IfSome result (λ place. name_at place (scripts_in self.now) ≡ Some id) }
        ensures missing { IsNone result → IsTrue (is_missing id (scripts_in self.now)) }
    {
        let callbacks = self.callbacks.as_slice();
        if let Some(place) = self.hints.place_of(callbacks, &id) {
            return Some(place);
        }
        identified::place_of(callbacks, &id)
    }

    /// The callback at a place.
    pub fn at(&self, place: usize) -> Option<&Stored>
        ensures { option_map (λ c. (id_of c.now, script_in c.now)) result
            ≡ slice_get (scripts_in self.now) place }
    {
        self.callbacks.as_slice().get(place)
    }

    /// The plugin of that name, by binary search.
    pub fn plugin(&self, name: &Name) -> Option<&Plugin>
        ensures { option_map (λ p. p.now) result ≡ plugin_of name.now (plugins_in self.now) }
    {
        match place_of(self.plugins.as_slice(), name.as_str().as_bytes()) {
            Some(place) => self.plugin_at(place),
            None => None,
        }
    }

    fn plugin_at(&self, place: usize) -> Option<&Plugin>
        ensures { option_map (λ p. p.now) result ≡ slice_get (plugins_in self.now) place }
    {
        self.plugins.as_slice().get(place)
    }

    pub(crate) fn callbacks(&self) -> &[Stored]
        ensures { result.now ≡ self.now.callbacks.items }
    {
        self.callbacks.as_slice()
    }

    /// All plugins, in the order of their names.
    pub fn plugins(&self) -> &[Plugin]
        ensures { result.now ≡ self.now.plugins.items }
    {
        self.plugins.as_slice()
    }
}
