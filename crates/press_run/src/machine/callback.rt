//! A callback is opened, built in or of the kit, and takes its turns.

ghost use Rattle.std.specs.Prelude.{◌≡◌, ◌++◌, ℕ, List, None, false, true, ltb, IsErrOf};
ghost use Rattle.press_callbacks.specs.Kits.{Scripts, script_at};
ghost use Rattle.press_callbacks.specs.Turns.{turn_of};
ghost use Rattle.press_callbacks.specs.declared.script.Turn.TheVariants as turn;
ghost use Rattle.press_callbacks.specs.declared.script.Turn.TheVariants.{Echo};
ghost use Rattle.press_run.specs.Frames.{BeginsAs, CallsAs, CountsAs, IsFew, KeepsCall, Steps, Turns, frame_meaning};
ghost use Rattle.press_run.specs.Run.{at_depth, built_in, fits, most_turns, one_turn, or_empty, within};
ghost use Rattle.press_run.specs.Outcome.{around, is_limit, state_of};
ghost use Rattle.press_run.specs.Limits.{ShowsLimits};
ghost use Rattle.press_run.specs.Standing.{machine_view};
ghost use Rattle.press_run.specs.declared.frame.Frame.TheVariants as frame;

use super::{Machine, StepAt};
use crate::callbacks::Callbacks;
use crate::frame::{FUEL, OpenCallback};
use crate::link::SiteLink;
use crate::run_fault::RunFault;
use crate::step::{Begun, Opened, Step};
use crate::texts;
use press_callbacks::{CallIn, Turn, is_built_in, is_do_shortcode};
use press_text::{CallbackId, Text};

impl<L: SiteLink + Drop> Machine<L> {
    /// A callback on its call, where a number may be open from it on. One of the kit gets its room,
    /// its turns and its place here.
    pub(super) fn call_callback<K: Callbacks>(
        &mut self,
        kit: &K,
        room: u32,
        id: CallbackId,
        callback: &mut OpenCallback,
    ) -> Result<Opened, RunFault>
        requires { callback.old.call.turn ≡ 0 }
        ensures shut { room ≡ 0 → IsErrOf result RunFault.Limit }
        ensures begins { CallsAs L.changes (K.scripts kit.now)
            (at_depth L.changes room (K.scripts kit.now) id callback.old.call
            (state_of (machine_view L.view L.fixed self.old)))
            1 callback.new
            (machine_view L.view L.fixed self.old) (machine_view L.view L.fixed self.new) result }
        ensures called { KeepsCall callback.old callback.new }
        ensures fixed { L.fixed self.new.site ≡ L.fixed self.old.site }
        ensures limits { ShowsLimits result self.old self.new }
    {
        if room == 0 {
            self.met_limit = true;
            return Err(RunFault::Limit);
        }
        if is_built_in(id.as_bytes()) {
            let begun = self.open_built_in(room - 1, id, &callback.call)?;
            return Ok(begun.into_opened());
        }
        callback.room = room - 1;
        callback.left = FUEL;
        callback.place = kit.place(id);
        self.turns(kit, callback)
    }

    // The turns of a callback up to its answer, or to a frame that it waits for.
    fn turns<K: Callbacks>(
        &mut self,
        kit: &K,
        callback: &mut OpenCallback,
    ) -> Result<Opened, RunFault>
        requires { IsFew 0 callback.old }
        ensures begins { CallsAs L.changes (K.scripts kit.now)
            (frame_meaning L.changes (K.scripts kit.now) (frame.Callback callback.old)
            (around (machine_view L.view L.fixed self.old))
            (state_of (machine_view L.view L.fixed self.old)))
            1 callback.new
            (machine_view L.view L.fixed self.old) (machine_view L.view L.fixed self.new) result }
        ensures called { KeepsCall callback.old callback.new }
        ensures fixed { L.fixed self.new.site ≡ L.fixed self.old.site }
        ensures limits { ShowsLimits result self.old self.new }
    {
        loop {
            match self.turn(kit, callback)? {
                Step::Goes => {}
                Step::Takes(text) => {
                    callback.with_last(text);
                }
                Step::Gives(text) => return Ok(Opened::Gives(text)),
                Step::Opens(inner) => return Ok(Opened::Waits(inner)),
            }
        }
    }

    // One of the built-in callbacks on its first argument: one turn.
    #[inline(never)]
    fn open_built_in(&mut self, room: u32, id: CallbackId, call: &CallIn) -> Result<Begun, RunFault>
        ensures late { one_turn (state_of (machine_view L.view L.fixed self.old)) ≡ None
            → IsErrOf result RunFault.Limit }
        ensures begins { (scripts : Scripts) → BeginsAs L.changes scripts
            (built_in L.changes (at_depth L.changes room scripts) id call.now
            (state_of (machine_view L.view L.fixed self.old)))
            1 (machine_view L.view L.fixed self.old) (machine_view L.view L.fixed self.new) result }
        ensures fixed { L.fixed self.new.site ≡ L.fixed self.old.site }
        ensures limits { ShowsLimits result self.old self.new }
    {
        if !self.counts.take_turn() {
            self.met_limit = true;
            return Err(RunFault::Limit);
        }
        let argument = texts::first_text(self.counts.allocator(), &call.args)?;
        if is_do_shortcode(id.as_bytes()) {
            self.begin_scan(room, argument)
        } else {
            self.begin_publish(room, argument)
        }
    }

    /// The next turn. The limits of turns and of bytes are looked at before the kit makes a text.
    pub(crate) fn turn<K: Callbacks>(
        &mut self,
        kit: &K,
        callback: &mut OpenCallback,
    ) -> Result<Step, RunFault>
        requires { IsFew 0 callback.old }
        ensures steps { Steps L.changes (K.scripts kit.now)
            (frame.Callback callback.old) (frame.Callback callback.new)
            (machine_view L.view L.fixed self.old) (machine_view L.view L.fixed self.new) result }
        ensures spent { callback.old.left ≡ 0 → IsErrOf result RunFault.Limit }
        ensures late { one_turn (state_of (machine_view L.view L.fixed self.old)) ≡ None
            → IsErrOf result RunFault.Limit }
        ensures long { fits (turn_of (or_empty (script_at callback.old.place (K.scripts kit.now)))
            callback.old.call) ≡ false → IsErrOf result RunFault.Limit }
        ensures called { KeepsCall callback.old callback.new }
        ensures fixed { L.fixed self.new.site ≡ L.fixed self.old.site }
        ensures limits { ShowsLimits result self.old self.new }
    {
        if callback.left == 0 {
            self.met_limit = true;
            return Err(RunFault::Limit);
        }
        if !self.counts.has_turns() {
            self.met_limit = true;
            return Err(RunFault::Limit);
        }
        if !kit.fits(callback.place, &callback.call) {
            self.long_step = step_at(callback);
            self.met_limit = true;
            return Err(RunFault::Limit);
        }
        callback.left -= 1;
        match kit.turn(self.counts.allocator(), callback.place, &callback.call) {
            Ok(Turn::Go(value)) => self.set_value(callback, value),
            Ok(Turn::Return(text)) => self.return_text(callback, text),
            Ok(turn) => self.count_turn(callback, turn),
            Err(_) => Err(RunFault::NoMemory),
        }
    }

    // The turn Go, within the turns and the bytes, is counted. It and Return are the commonest, so
    // that what is moved is their text alone.
    fn set_value(&mut self, callback: &mut OpenCallback, value: Text) -> Result<Step, RunFault>
        requires few { IsFew 1 callback.old }
        requires turns { ltb self.old.counts.turns most_turns ≡ true }
        requires short { fits (turn.Go value) ≡ true }
        ensures steps { (scripts : Scripts) → CountsAs L.changes scripts
            callback.old (turn.Go value) callback.new
            (machine_view L.view L.fixed self.old) (machine_view L.view L.fixed self.new) result }
        ensures called { KeepsCall callback.old callback.new }
        ensures fixed { L.fixed self.new.site ≡ L.fixed self.old.site }
        ensures limits { ShowsLimits result self.old self.new }
    {
        self.counts.add_turn();
        self.end_set_value(callback, value)
    }

    // The same, which is counted already.
    fn end_set_value(&self, callback: &mut OpenCallback, value: Text) -> Result<Step, RunFault>
        requires { IsFew 1 callback.old }
        ensures steps { (scripts : Scripts) → Turns L.changes scripts
            callback.old (turn.Go value) callback.new
            (machine_view L.view L.fixed self.now) (machine_view L.view L.fixed self.now) result }
        ensures called { KeepsCall callback.old callback.new }
        ensures limits { is_limit result ≡ false }
    {
        Ok(callback.with_value(value))
    }

    // The turn Return, within the turns and the bytes, is counted.
    fn return_text(&mut self, callback: &OpenCallback, text: Text) -> Result<Step, RunFault>
        requires few { IsFew 1 callback.now }
        requires turns { ltb self.old.counts.turns most_turns ≡ true }
        requires short { fits (turn.Return text) ≡ true }
        ensures steps { (scripts : Scripts) → CountsAs L.changes scripts
            callback.now (turn.Return text) callback.now
            (machine_view L.view L.fixed self.old) (machine_view L.view L.fixed self.new) result }
        ensures fixed { L.fixed self.new.site ≡ L.fixed self.old.site }
        ensures limits { ShowsLimits result self.old self.new }
    {
        self.counts.add_turn();
        Ok(Step::Gives(text))
    }

    // A turn, within the turns and with texts that are within the bytes, is counted.
    #[inline(never)]
    fn count_turn(&mut self, callback: &mut OpenCallback, turn: Turn) -> Result<Step, RunFault>
        requires few { IsFew 1 callback.old }
        requires turns { ltb self.old.counts.turns most_turns ≡ true }
        requires short { fits turn ≡ true }
        ensures full { (text : List ℕ) → turn ≡ Echo text → within (self.old.out ++ text) ≡ None
            → IsErrOf result RunFault.Limit }
        ensures steps { (scripts : Scripts) → CountsAs L.changes scripts
            callback.old turn callback.new
            (machine_view L.view L.fixed self.old) (machine_view L.view L.fixed self.new) result }
        ensures called { KeepsCall callback.old callback.new }
        ensures fixed { L.fixed self.new.site ≡ L.fixed self.old.site }
        ensures limits { ShowsLimits result self.old self.new }
    {
        self.counts.add_turn();
        self.do_turn(callback, turn)
    }
}

// The step that a callback is at; of one that the kit lacks none.
fn step_at(callback: &OpenCallback) -> Option<StepAt> {
    let step = callback.call.turn;
    callback.place.map(|callback| StepAt { callback, step })
}
