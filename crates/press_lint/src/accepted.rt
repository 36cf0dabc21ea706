//! How many arguments the callbacks of a kit get.

ghost use Rattle.std.specs.Prelude.{◌≡◌, ℕ, List, None, IfOk, OnOk, fold};
ghost use Rattle.press_lint.specs.Accepts as spec;

use press_callbacks::{Load, Op, Plugin};
use press_kit::{KitParts, Scripted};
use press_text::CallbackId;
use std::alloc::{AllocError, Global};
use std::collections::BTreeMap;

/// Names of callbacks that are put somewhere, each with the most arguments that it gets.
pub struct Accepted<'k> {
    counts: BTreeMap<&'k [u8], u32>,
}

impl Drop for Accepted<'_> {
    fn drop(self) {
        let Accepted { counts: _ } = self;
    }
}

fn greater(most: Option<u32>, count: u32) -> u32
    ensures { result ≡ spec.greater most count }
{
    match most {
        Some(most) if most >= count => most,
        _ => count,
    }
}

impl<'k> Accepted<'k> {
    fn new(alloc: Global) -> Accepted<'k>
        ensures { (q : List ℕ) → spec.count_of result q ≡ None }
    {
        Accepted {
            counts: BTreeMap::new(alloc),
        }
    }

    /// The most arguments that the callback of that name gets, where one is put somewhere.
    pub fn most(&self, name: &[u8]) -> Option<u32>
        ensures { result ≡ spec.count_of self.now name.now }
    {
        self.counts.get(name).copied()
    }

    // One is put somewhere with so many arguments.
    fn put(&mut self, id: &'k CallbackId, count: u32) -> Result<(), AllocError>
        ensures { OnOk result ((q : List ℕ) → spec.count_of self.new q
            ≡ spec.once_put q id.now count (spec.count_of self.old q)) }
    {
        let name = id.as_bytes();
        let most = greater(self.most(name), count);
        self.counts.insert(name, most)?;
        Ok(())
    }

    fn put_load(&mut self, load: &'k Load) -> Result<(), AllocError>
        ensures { OnOk result ((q : List ℕ) → spec.count_of self.new q
            ≡ spec.once_loaded q (spec.count_of self.old q) load.now) }
    {
        match load {
            Load::Hook {
                callback,
                accepted,
                ..
            } => self.put(callback, *accepted),
            Load::Tag { callback, .. } => self.put(callback, 0),
        }
    }

    fn put_step(&mut self, op: &'k Op) -> Result<(), AllocError>
        ensures { OnOk result ((q : List ℕ) → spec.count_of self.new q
            ≡ spec.once_done q (spec.count_of self.old q) op.now) }
    {
        match op {
            Op::AddHook {
                callback,
                accepted,
                ..
            } => self.put(callback, *accepted),
            Op::AddTag { callback, .. } => self.put(callback, 0),
            Op::Set(_) | Op::RemoveHook { .. } | Op::RemoveAll { .. } => Ok(()),
            Op::RemoveTag { .. } | Op::SkipIf { .. } | Op::Apply { .. } => Ok(()),
            Op::Do { .. } | Op::Shortcodes(_) | Op::Ask(_) => Ok(()),
            Op::SetOption { .. } | Op::Schedule { .. } | Op::Publish(_) => Ok(()),
            Op::Echo(_) | Op::Return(_) => Ok(()),
        }
    }

    #[tactic(auto, using(crate::proofs::Folded::folded))]
    fn put_loads(&mut self, loads: &'k [Load]) -> Result<(), AllocError>
        ensures { OnOk result ((q : List ℕ) → spec.count_of self.new q
            ≡ fold (spec.once_loaded q) (spec.count_of self.old q) loads.now) }
    {
        for load in loads {
            self.put_load(load)?;
        }
        Ok(())
    }

    #[tactic(auto, using(crate::proofs::Folded::folded))]
    fn put_script(&mut self, script: &'k [Op]) -> Result<(), AllocError>
        ensures { OnOk result ((q : List ℕ) → spec.count_of self.new q
            ≡ fold (spec.once_done q) (spec.count_of self.old q) script.now) }
    {
        for op in script {
            self.put_step(op)?;
        }
        Ok(())
    }

    #[tactic(auto, using(crate::proofs::Folded::folded))]
    fn put_plugins(&mut self, plugins: &'k [Plugin]) -> Result<(), AllocError>
        ensures { OnOk result ((q : List ℕ) → spec.count_of self.new q
            ≡ fold (spec.once_plugged q) (spec.count_of self.old q) plugins.now) }
    {
        for plugin in plugins {
            self.put_loads(plugin.load.as_slice())?;
        }
        Ok(())
    }

    #[tactic(auto, using(crate::proofs::Folded::folded))]
    fn put_callbacks(&mut self, callbacks: &'k [Scripted]) -> Result<(), AllocError>
        ensures { OnOk result ((q : List ℕ) → spec.count_of self.new q
            ≡ fold (spec.once_played q) (spec.count_of self.old q) callbacks.now) }
    {
        for callback in callbacks {
            self.put_script(callback.script.as_slice())?;
        }
        Ok(())
    }
}

/// What the loads and steps of a kit give its callbacks.
pub fn accepted_in(alloc: Global, kit: &KitParts) -> Result<Accepted<'_>, AllocError>
    ensures { IfOk result (λ a. (q : List ℕ)
        → spec.count_of a q ≡ spec.most_accepted kit.now q) }
{
    let mut accepted = Accepted::new(alloc);
    accepted.put_plugins(kit.plugins.as_slice())?;
    accepted.put_callbacks(kit.callbacks.as_slice())?;
    Ok(accepted)
}
