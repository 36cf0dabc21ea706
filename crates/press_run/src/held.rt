//! What frames hold in a box, so that they are moved as a few words.

ghost use Rattle.std.specs.Prelude.{◌≡◌, ◌<◌, ◌^◌, [], true, IfOk, IsSome, IsTrue, OnErr, OnOk, length};
ghost use Rattle.press_hooks.specs.NextEntry.{is_innermost};
ghost use Rattle.press_callbacks.specs.Kits.{Scripts};
ghost use Rattle.press_run.specs.Run.{next_args, next_call};
ghost use Rattle.press_run.specs.Frames.{IsFew, MovesTo, PutsAnswer, ScanReady, Steps, scan_with_answer};
ghost use Rattle.press_run.specs.Limits.{ShowsLimits};
ghost use Rattle.press_run.specs.Standing.{machine_view};
ghost use Rattle.press_run.specs.Waiting.{with_atts};
ghost use Rattle.press_run.specs.declared.frame.Frame.TheVariants as frame;

use crate::callbacks::Callbacks;
use crate::frame::{OpenCallback, OpenFires, OpenHook, OpenScan};
use crate::link::SiteLink;
use crate::machine::Machine;
use crate::run_fault::RunFault;
use crate::step::{Moved, Step};
use press_scan::FoldedAtts;
use press_text::Text;
use std::alloc::{AllocError, Global};
use std::marker::Model;

/// A value in a box, which contracts see as that value.
pub struct Held<T> {
    inside: Box<T>,
}

impl<T: Drop> Drop for Held<T> {
    fn drop(self) {
        let Held { inside: _ } = self;
    }
}

impl<T> Model for Held<T> {
    ghost use Rattle.std.specs.Prelude.{◌≡◌};

    ghost Value = { T };

    ghost view = { λ h. h.inside.value };
}

impl<T: Drop> Held<T> {
    pub fn new(alloc: Global, value: T) -> Result<Held<T>, AllocError>
        ensures { IfOk result (λ h. h ≡ value) }
    {
        match Box::new(alloc, value) {
            Ok(inside) => Ok(Held { inside }),
            Err(_) => Err(AllocError),
        }
    }
}

impl Held<OpenCallback> {
    /// Its next turn.
    pub fn turn<L: SiteLink + Drop, K: Callbacks>(
        &mut self,
        machine: &mut Machine<L>,
        kit: &K,
    ) -> Result<Step, RunFault>
        requires { IsFew 0 self.old }
        ensures steps { Steps L.changes (K.scripts kit.now)
            (frame.Callback self.old) (frame.Callback self.new)
            (machine_view L.view L.fixed machine.old)
            (machine_view L.view L.fixed machine.new) result }
        ensures fixed { L.fixed machine.new.site ≡ L.fixed machine.old.site }
        ensures limits { ShowsLimits result machine.old machine.new }
    {
        machine.turn(kit, &mut self.inside)
    }

    pub fn with_last(&mut self, last: Text) -> Step
        requires { self.old.call.turn < 2 ^ 40 }
        ensures next { self.new ≡ record self.old {
          call = next_call self.old.call self.old.call.value last 0;
        } }
    {
        self.inside.with_last(last)
    }

    /// Whether its attributes are so many that they fold to a text.
    pub fn has_many_atts(&self) -> bool
        ensures { result ≡ true → 64 < length self.now.call.atts }
    {
        self.inside.call.atts.folds_to_text()
    }

    /// Its attributes, folded. It has none from then on.
    pub fn fold_atts(&mut self, alloc: Global) -> FoldedAtts
        ensures atts { result ≡ self.old.call.atts }
        ensures rest { self.new ≡ with_atts self.old [] }
    {
        self.inside.fold_atts(alloc)
    }

    /// Gives it these attributes.
    pub fn unfold_atts(&mut self, alloc: Global, atts: FoldedAtts) -> Result<(), AllocError>
        ensures atts { OnOk result (self.new ≡ with_atts self.old atts) }
        ensures memory { OnErr result (64 < length atts) }
    {
        self.inside.unfold_atts(alloc, atts)
    }
}

impl Held<OpenHook> {
    /// Its next entries.
    pub fn entries<L: SiteLink + Drop, K: Callbacks>(
        &mut self,
        machine: &mut Machine<L>,
        kit: &K,
    ) -> Result<Moved, RunFault>
        requires { IsTrue (is_innermost self.old.run machine.old.tables.hooks.open_runs) }
        ensures steps { MovesTo L.changes (K.scripts kit.now)
            (frame.Hook self.old) (frame.Hook self.new)
            (machine_view L.view L.fixed machine.old)
            (machine_view L.view L.fixed machine.new) result }
        ensures fixed { L.fixed machine.new.site ≡ L.fixed machine.old.site }
        ensures limits { ShowsLimits result machine.old machine.new }
    {
        machine.entries(kit, &mut self.inside)
    }

    /// The arguments of the next callback, after one has answered.
    pub fn take(&mut self, text: Text) -> Result<(), AllocError>
        ensures { OnOk result (self.new ≡ record self.old {
          args = next_args self.old.kind text self.old.args;
        }) }
    {
        self.inside.take(text)
    }
}

impl Held<OpenFires> {
    /// Its next action.
    pub fn fire<L: SiteLink + Drop>(&mut self, machine: &mut Machine<L>) -> Result<Step, RunFault>
        ensures steps { (scripts : Scripts) → Steps L.changes scripts
            (frame.Fires self.old) (frame.Fires self.new)
            (machine_view L.view L.fixed machine.old)
            (machine_view L.view L.fixed machine.new) result }
        ensures fixed { L.fixed machine.new.site ≡ L.fixed machine.old.site }
        ensures limits { ShowsLimits result machine.old machine.new }
    {
        machine.fire(&mut self.inside)
    }
}

impl Held<OpenScan> {
    /// Its next piece.
    pub fn piece<L: SiteLink + Drop, K: Callbacks>(
        &mut self,
        machine: &mut Machine<L>,
        kit: &K,
    ) -> Result<Moved, RunFault>
        requires { ScanReady self.old.filtering self.old.scan }
        ensures steps { MovesTo L.changes (K.scripts kit.now)
            (frame.Scan self.old) (frame.Scan self.new)
            (machine_view L.view L.fixed machine.old)
            (machine_view L.view L.fixed machine.new) result }
        ensures fixed { L.fixed machine.new.site ≡ L.fixed machine.old.site }
        ensures limits { ShowsLimits result machine.old machine.new }
    {
        machine.piece(kit, &mut self.inside)
    }

    /// Takes the answer that the scan waits for.
    pub fn take(&mut self, text: Text) -> Result<(), AllocError>
        requires { IsSome self.old.scan.waiting }
        ensures taken { OnOk result (self.new ≡ scan_with_answer self.old.filtering self.old text) }
        ensures memory { OnErr result (PutsAnswer self.old.filtering) }
    {
        self.inside.take(text)
    }
}
