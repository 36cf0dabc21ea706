//! The callbacks of a hook, one after the other.

ghost use Rattle.std.specs.Prelude.{◌≡◌, IfOk, IsErrOf, IsTrue, OnOk};
ghost use Rattle.press_hooks.specs.NextEntry.{is_innermost};
ghost use Rattle.press_callbacks.specs.Kits.{Scripts};
ghost use Rattle.press_run.specs.Frames.{BeginsAs, EntersAs, IsOfHook, MovesTo, end_run, run_to_answer, hook_answer};
ghost use Rattle.press_run.specs.Run.{at_depth, do_hook, first_text};
ghost use Rattle.press_run.specs.Outcome.{state_of};
ghost use Rattle.press_run.specs.Limits.{ShowsLimits};
ghost use Rattle.press_run.specs.Standing.{machine_view};
ghost use Rattle.press_run.specs.declared.frame.Frame.TheVariants as frame;

use super::Machine;
use crate::callbacks::Callbacks;
use crate::frame::{FUEL, Frame, OpenCallback, OpenHook};
use crate::held::Held;
use crate::link::SiteLink;
use crate::run_fault::RunFault;
use crate::step::{Begun, Kind, Moved, Opened, Step};
use crate::texts;
use press_text::{HookName, Text, Texts};
use std::alloc::AllocError;

impl<L: SiteLink + Drop> Machine<L> {
    /// The callbacks of a hook, where `room` may be open; without one the hook returns at once.
    #[inline(never)]
    pub(super) fn begin(
        &mut self,
        room: u32,
        kind: Kind,
        hook: &HookName,
        args: Texts,
    ) -> Result<Begun, RunFault>
        ensures begins { (scripts : Scripts) → BeginsAs L.changes scripts
            (run_to_answer (at_depth L.changes room scripts) kind hook.now args
            (state_of (machine_view L.view L.fixed self.old)))
            3 (machine_view L.view L.fixed self.old) (machine_view L.view L.fixed self.new) result }
        ensures fixed { L.fixed self.new.site ≡ L.fixed self.old.site }
        ensures limits { ShowsLimits result self.old self.new }
    {
        let Some(place) = self.tables.hooks.place_of(hook) else {
            let text = texts::hook_answer(self.counts.allocator(), kind, &args)?;
            return Ok(Begun::Gives(text));
        };
        self.counts.enter(hook)?;
        let run = self.tables.hooks.begin_near(hook, place)?;
        let open = OpenHook {
            room,
            left: FUEL,
            kind,
            run,
            args,
        };
        let held = Held::new(self.counts.allocator(), open)?;
        Ok(Begun::Opens(Frame::Hook(held)))
    }

    /// An action: its start is counted, and its answers are ignored.
    #[inline(never)]
    pub(super) fn begin_action(
        &mut self,
        room: u32,
        hook: &HookName,
        args: Texts,
    ) -> Result<Begun, RunFault>
        ensures begins { (scripts : Scripts) → BeginsAs L.changes scripts
            (do_hook (at_depth L.changes room scripts) hook.now args
            (state_of (machine_view L.view L.fixed self.old)))
            3 (machine_view L.view L.fixed self.old) (machine_view L.view L.fixed self.new) result }
        ensures fixed { L.fixed self.new.site ≡ L.fixed self.old.site }
        ensures limits { ShowsLimits result self.old self.new }
    {
        self.counts.start(hook)?;
        let args = texts::or_one_empty(self.counts.allocator(), args);
        self.begin(room, Kind::Action, hook, args)
    }

    /// The entries up to one that the run waits for, or to its end.
    #[tactic(auto, using(crate::proofs::Entries::entry_on, crate::proofs::Entries::entry_refused, crate::proofs::Entries::entry_taken, crate::proofs::Entries::run_ends))]
    pub(crate) fn entries<K: Callbacks>(
        &mut self,
        kit: &K,
        run: &mut OpenHook,
    ) -> Result<Moved, RunFault>
        requires { IsTrue (is_innermost run.old.run self.old.tables.hooks.open_runs) }
        ensures spent { run.old.left ≡ 0 → IsErrOf result RunFault.Limit }
        ensures steps { MovesTo L.changes (K.scripts kit.now)
            (frame.Hook run.old) (frame.Hook run.new)
            (machine_view L.view L.fixed self.old) (machine_view L.view L.fixed self.new) result }
        ensures fixed { L.fixed self.new.site ≡ L.fixed self.old.site }
        ensures limits { ShowsLimits result self.old self.new }
    {
        let alloc = self.counts.allocator();
        let mut callback = OpenCallback::of_hook(alloc);
        loop {
            match self.entry(kit, run, &mut callback)? {
                None => {
                    let text = self.end_run(run)?;
                    return Ok(Moved::By(Step::Gives(text)));
                }
                Some(Opened::Gives(text)) => {
                    callback.end(alloc);
                    run.take(text)?;
                }
                Some(opened) => {
                    let moved = opened.into_moved(alloc, callback)?;
                    return Ok(moved);
                }
            }
        }
    }

    // The next entry, if there is one, is called.
    fn entry<K: Callbacks>(
        &mut self,
        kit: &K,
        run: &mut OpenHook,
        callback: &mut OpenCallback,
    ) -> Result<Option<Opened>, RunFault>
        requires innermost { IsTrue (is_innermost run.old.run self.old.tables.hooks.open_runs) }
        requires hook { IsOfHook callback.old }
        ensures spent { run.old.left ≡ 0 → IsErrOf result RunFault.Limit }
        ensures steps { EntersAs L.changes (K.scripts kit.now) run.old run.new callback.new
            (machine_view L.view L.fixed self.old) (machine_view L.view L.fixed self.new) result }
        ensures hook { IsOfHook callback.new }
        ensures fixed { L.fixed self.new.site ≡ L.fixed self.old.site }
        ensures limits { ShowsLimits result self.old self.new }
    {
        if run.left == 0 {
            self.met_limit = true;
            return Err(RunFault::Limit);
        }
        run.left -= 1;
        let alloc = self.counts.allocator();
        let Some(entry) = self.tables.hooks.next(run.run)? else {
            return Ok(None);
        };
        let args = texts::accepted_args(alloc, &run.args, entry.accepted)?;
        callback.begin(alloc, args)?;
        let opened = self.call_callback(kit, run.room, entry.callback, callback)?;
        Ok(Some(opened))
    }

    // Closes a run, and gives its answer.
    fn end_run(&mut self, run: &OpenHook) -> Result<Text, AllocError>
        requires { IsTrue (is_innermost run.now.run self.old.tables.hooks.open_runs) }
        ensures text { IfOk result (λ t. t ≡ hook_answer run.now.kind (first_text run.now.args)) }
        ensures closed { OnOk result (machine_view L.view L.fixed self.new
            ≡ end_run (machine_view L.view L.fixed self.old)) }
        ensures fixed { L.fixed self.new.site ≡ L.fixed self.old.site }
        ensures limits { self.new.met_limit ≡ self.old.met_limit }
    {
        let text = texts::hook_answer(self.counts.allocator(), run.kind, &run.args)?;
        self.tables.hooks.end(run.run);
        self.counts.leave();
        Ok(text)
    }
}
