//! Where a kit puts its callbacks.

ghost use Rattle.std.specs.Prelude.{◌≡◌, ◌||◌, ℕ, List, false, bytes_eq, IfOk, OnOk, string_bytes};
ghost use Rattle.std.specs.List.{list_any};
ghost use Rattle.press_callbacks.specs.declared.plugin.Plugin.{Plugin as OnePlugin};
ghost use Rattle.press_kit.specs.declared.kit_parts.Scripted.{Scripted as Told};
ghost use Rattle.press_lint.specs.Spots as spec;

use crate::told::text_of;
use press_callbacks::{Load, Op, Plugin};
use press_kit::{KitParts, Scripted};
use press_text::{CallbackId, HookName};
use std::alloc::{AllocError, Global};
use std::collections::BTreeSet;

/// Each hook, callback and priority at which something puts a callback, as one text.
pub struct Spots {
    alloc: Global,
    spots: BTreeSet<String>,
}

impl Drop for Spots {
    fn drop(self) {
        let Spots { alloc: _, spots: _ } = self;
    }
}

/// A hook, a callback and a priority as one text.
pub fn spot(alloc: Global, hook: &str, callback: &str, priority: i64) -> Result<String, AllocError>
    ensures { IfOk result (λ t. string_bytes t ≡ spec.spot hook.now callback.now priority) }
{
    format!(in alloc; "{hook} {callback} {priority}")
}

impl Spots {
    fn new(alloc: Global) -> Spots
        ensures { (q : List ℕ) → spec.has_spot result q ≡ false }
    {
        Spots {
            alloc,
            spots: BTreeSet::new(alloc),
        }
    }

    /// Whether something puts a callback there.
    pub fn has(&self, spot: &str) -> bool
        ensures { result ≡ spec.has_spot self.now spot.now }
    {
        self.spots.contains(spot)
    }

    fn put_text(&mut self, spot: String) -> Result<(), AllocError>
        ensures { OnOk result ((q : List ℕ) → spec.has_spot self.new q
            ≡ (bytes_eq (string_bytes spot) q || spec.has_spot self.old q)) }
    {
        self.spots.insert(spot)?;
        Ok(())
    }

    fn put(
        &mut self,
        hook: &HookName,
        callback: &CallbackId,
        priority: i64,
    ) -> Result<(), AllocError>
        ensures { OnOk result ((q : List ℕ) → spec.has_spot self.new q
            ≡ (bytes_eq (spec.spot hook.now callback.now priority) q
            || spec.has_spot self.old q)) }
    {
        let text = spot(self.alloc, hook.as_str(), text_of(callback), priority)?;
        self.put_text(text)
    }

    fn put_load(&mut self, load: &Load) -> Result<(), AllocError>
        ensures { OnOk result ((q : List ℕ) → spec.has_spot self.new q
            ≡ (spec.loads_at q load.now || spec.has_spot self.old q)) }
    {
        match load {
            Load::Hook {
                hook,
                priority,
                callback,
                ..
            } => self.put(hook, callback, *priority),
            Load::Tag { .. } => Ok(()),
        }
    }

    fn put_step(&mut self, op: &Op) -> Result<(), AllocError>
        ensures { OnOk result ((q : List ℕ) → spec.has_spot self.new q
            ≡ (spec.adds_at q op.now || spec.has_spot self.old q)) }
    {
        match op {
            Op::AddHook {
                hook,
                callback,
                priority,
                ..
            } => self.put(hook, callback, *priority),
            Op::Set(_) | Op::RemoveHook { .. } | Op::RemoveAll { .. } => Ok(()),
            Op::AddTag { .. } | Op::RemoveTag { .. } | Op::SkipIf { .. } => Ok(()),
            Op::Apply { .. } | Op::Do { .. } | Op::Shortcodes(_) | Op::Ask(_) => Ok(()),
            Op::SetOption { .. } | Op::Schedule { .. } | Op::Publish(_) => Ok(()),
            Op::Echo(_) | Op::Return(_) => Ok(()),
        }
    }

    #[tactic(auto, using(crate::proofs::Gathered::gathered))]
    fn put_loads(&mut self, loads: &[Load]) -> Result<(), AllocError>
        ensures { OnOk result ((q : List ℕ) → spec.has_spot self.new q
            ≡ (list_any (spec.loads_at q) loads.now || spec.has_spot self.old q)) }
    {
        for load in loads {
            self.put_load(load)?;
        }
        Ok(())
    }

    #[tactic(auto, using(crate::proofs::Gathered::gathered))]
    fn put_script(&mut self, script: &[Op]) -> Result<(), AllocError>
        ensures { OnOk result ((q : List ℕ) → spec.has_spot self.new q
            ≡ (list_any (spec.adds_at q) script.now || spec.has_spot self.old q)) }
    {
        for op in script {
            self.put_step(op)?;
        }
        Ok(())
    }

    #[tactic(auto, using(crate::proofs::Gathered::gathered))]
    fn put_plugins(&mut self, plugins: &[Plugin]) -> Result<(), AllocError>
        ensures { OnOk result ((q : List ℕ) → spec.has_spot self.new q
            ≡ (list_any (λ (p : OnePlugin). list_any (spec.loads_at q) p.load) plugins.now
            || spec.has_spot self.old q)) }
    {
        for plugin in plugins {
            self.put_loads(plugin.load.as_slice())?;
        }
        Ok(())
    }

    #[tactic(auto, using(crate::proofs::Gathered::gathered))]
    fn put_callbacks(&mut self, callbacks: &[Scripted]) -> Result<(), AllocError>
        ensures { OnOk result ((q : List ℕ) → spec.has_spot self.new q
            ≡ (list_any (λ (c : Told). list_any (spec.adds_at q) c.script) callbacks.now
            || spec.has_spot self.old q)) }
    {
        for callback in callbacks {
            self.put_script(callback.script.as_slice())?;
        }
        Ok(())
    }

    fn put_named(&mut self, spot: &str) -> Result<(), AllocError>
        ensures { OnOk result ((q : List ℕ) → spec.has_spot self.new q
            ≡ (bytes_eq spot.now q || spec.has_spot self.old q)) }
    {
        self.put_text(String::from_str(self.alloc, spot)?)
    }
}

// What a boot puts in.
#[tactic(auto, using(crate::proofs::Gathered::alone))]
fn boot_spots(alloc: Global) -> Result<Spots, AllocError>
    ensures { IfOk result (λ s. (q : List ℕ) → spec.has_spot s q ≡ spec.boots_at q) }
{
    let mut spots = Spots::new(alloc);
    spots.put_named("publish_future_post check_and_publish_future_post 10")?;
    spots.put_named("the_content do_shortcode 11")?;
    Ok(spots)
}

/// Where the loads and steps of a kit, and a boot, put callbacks.
pub fn spots_in(alloc: Global, kit: &KitParts) -> Result<Spots, AllocError>
    ensures { IfOk result (λ s. (q : List ℕ) → spec.has_spot s q ≡ spec.is_put_at kit.now q) }
{
    let mut spots = boot_spots(alloc)?;
    spots.put_plugins(kit.plugins.as_slice())?;
    spots.put_callbacks(kit.callbacks.as_slice())?;
    Ok(spots)
}
