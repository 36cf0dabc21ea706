//! What the turns of a callback ask for.

ghost use Rattle.std.specs.Prelude.{◌≡◌, ◌≤◌, ◌++◌, ℕ, List, None, IsErrOf};
ghost use Rattle.press_callbacks.specs.Kits.{Scripts};
ghost use Rattle.press_callbacks.specs.declared.script.Turn.TheVariants.{Echo};
ghost use Rattle.press_run.specs.Frames.{IsFew, KeepsCall, Turns, group};
ghost use Rattle.press_run.specs.Run.{within};
ghost use Rattle.press_run.specs.Limits.{ShowsLimits};
ghost use Rattle.press_run.specs.Standing.{machine_view};

use super::Machine;
use crate::answers::one_if;
use crate::frame::OpenCallback;
use crate::link::SiteLink;
use crate::links::{self, FromNow};
use crate::run_fault::RunFault;
use crate::step::{Kind, Step};
use press_callbacks::Turn;
use press_site::Effect;
use press_text::Text;

impl<L: SiteLink + Drop> Machine<L> {
    /// What a turn asks for, which is counted already.
    pub(super) fn do_turn(
        &mut self,
        callback: &mut OpenCallback,
        turn: Turn,
    ) -> Result<Step, RunFault>
        requires { IsFew 1 callback.old }
        ensures full { (text : List ℕ) → turn ≡ Echo text → within (self.old.out ++ text) ≡ None
            → IsErrOf result RunFault.Limit }
        ensures steps { (scripts : Scripts) → Turns L.changes scripts callback.old turn callback.new
            (machine_view L.view L.fixed self.old) (machine_view L.view L.fixed self.new) result }
        ensures called { KeepsCall callback.old callback.new }
        ensures fixed { L.fixed self.new.site ≡ L.fixed self.old.site }
        ensures limits { ShowsLimits result self.old self.new }
    {
        match turn {
            Turn::Go(value) => Ok(callback.with_value(value)),
            Turn::Skip(n) => {
                drop(turn);
                Ok(callback.further(n))
            }
            Turn::Echo(text) => {
                let pushed = self.write(text.as_str());
                drop(text);
                pushed?;
                Ok(callback.further(0))
            }
            Turn::Return(text) => Ok(Step::Gives(text)),
            _ => self.do_starting_turn(callback, turn),
        }
    }

    // A turn that begins something, for which the callback waits.
    #[inline(never)]
    fn do_starting_turn(
        &mut self,
        callback: &mut OpenCallback,
        turn: Turn,
    ) -> Result<Step, RunFault>
        requires few { IsFew 1 callback.old }
        requires begins { 1 ≤ group turn }
        ensures steps { (scripts : Scripts) → Turns L.changes scripts callback.old turn callback.new
            (machine_view L.view L.fixed self.old) (machine_view L.view L.fixed self.new) result }
        ensures called { KeepsCall callback.old callback.new }
        ensures fixed { L.fixed self.new.site ≡ L.fixed self.old.site }
        ensures limits { ShowsLimits result self.old self.new }
    {
        let room = callback.room;
        match turn {
            Turn::Apply { hook, texts } => {
                let begun = self.begin(room, Kind::Filter, &hook, texts);
                drop(hook);
                Ok(begun?.into_step())
            }
            Turn::Do { hook, texts } => {
                let begun = self.begin_action(room, &hook, texts);
                drop(hook);
                Ok(begun?.into_step())
            }
            Turn::Shortcodes(text) => Ok(self.begin_scan(room, text)?.into_step()),
            Turn::SetOption { name, value } => {
                let effect = Some(Effect::SetOption { name, value });
                Ok(self.begin_change(room, effect)?.into_step())
            }
            Turn::Schedule {
                after,
                every,
                hook,
                arg,
            } => {
                let event = FromNow {
                    after,
                    every,
                    hook,
                    arg,
                };
                let effect = event.effect(self.site.site().now());
                Ok(self.begin_change(room, effect)?.into_step())
            }
            Turn::Publish(id) => {
                let effect = links::publishes(&id, self.site.site().now());
                drop(id);
                Ok(self.begin_change(room, effect)?.into_step())
            }
            _ => self.do_hook_edit(callback, turn),
        }
    }

    // A turn that edits the hooks.
    #[inline(never)]
    fn do_hook_edit(&mut self, callback: &mut OpenCallback, turn: Turn) -> Result<Step, RunFault>
        requires few { IsFew 1 callback.old }
        requires edits { 2 ≤ group turn }
        ensures steps { (scripts : Scripts) → Turns L.changes scripts callback.old turn callback.new
            (machine_view L.view L.fixed self.old) (machine_view L.view L.fixed self.new) result }
        ensures called { KeepsCall callback.old callback.new }
        ensures fixed { L.fixed self.new.site ≡ L.fixed self.old.site }
        ensures limits { ShowsLimits result self.old self.new }
    {
        let alloc = self.counts.allocator();
        match turn {
            Turn::AddHook {
                hook,
                callback: id,
                priority,
                accepted,
            } => {
                let added = self.tables.hooks.add(&hook, id, priority, accepted);
                drop(hook);
                Ok(callback.with_last(one_if(alloc, added?)?))
            }
            Turn::RemoveHook {
                hook,
                callback: id,
                priority,
            } => {
                let stood = self.tables.hooks.remove(&hook, id, priority);
                drop(hook);
                Ok(callback.with_last(one_if(alloc, stood)?))
            }
            Turn::RemoveAll { hook, priority } => {
                self.tables.hooks.remove_all(&hook, priority);
                drop(hook);
                Ok(callback.with_last(Text::from_str(alloc, "1")?))
            }
            _ => self.do_tag_edit_or_question(callback, turn),
        }
    }

    // A turn that edits the tags or asks a question.
    #[inline(never)]
    fn do_tag_edit_or_question(
        &mut self,
        callback: &mut OpenCallback,
        turn: Turn,
    ) -> Result<Step, RunFault>
        requires few { IsFew 1 callback.old }
        requires tells { 3 ≤ group turn }
        ensures steps { (scripts : Scripts) → Turns L.changes scripts callback.old turn callback.new
            (machine_view L.view L.fixed self.old) (machine_view L.view L.fixed self.new) result }
        ensures called { KeepsCall callback.old callback.new }
        ensures fixed { L.fixed self.new.site ≡ L.fixed self.old.site }
        ensures limits { ShowsLimits result self.old self.new }
    {
        let alloc = self.counts.allocator();
        match turn {
            Turn::AddTag { tag, callback: id } => {
                let added = self.tables.tags.add(tag.as_str(), id);
                drop(tag);
                Ok(callback.with_last(one_if(alloc, added?)?))
            }
            Turn::RemoveTag { tag } => {
                let stood = self.tables.tags.remove(tag.as_str());
                drop(tag);
                Ok(callback.with_last(one_if(alloc, stood)?))
            }
            Turn::Ask(ask) => {
                let last = self.counts.answer(&self.tables, self.site.site(), &ask);
                drop(ask);
                Ok(callback.with_last(last?))
            }
            _ => unreachable!(),
        }
    }
}
