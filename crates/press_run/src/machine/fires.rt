//! Changes of the site, and the actions that they fire.

ghost use Rattle.std.specs.Prelude.{◌≡◌, ◌^◌, Err, Some};
ghost use Rattle.press_callbacks.specs.Kits.{Scripts};
ghost use Rattle.press_run.specs.Frames.{BeginsAs, Steps};
ghost use Rattle.press_run.specs.Links.{AsksSome, publishes};
ghost use Rattle.press_run.specs.Run.{at_depth, change_site, publish};
ghost use Rattle.press_run.specs.Outcome.{state_of};
ghost use Rattle.press_run.specs.Limits.{ShowsLimits};
ghost use Rattle.press_run.specs.Standing.{machine_view};
ghost use Rattle.press_run.specs.declared.frame.Frame.TheVariants as frame;

use super::Machine;
use crate::answers::one_if;
use crate::frame::{Frame, OpenFires};
use crate::held::Held;
use crate::link::SiteLink;
use crate::links;
use crate::run_fault::RunFault;
use crate::step::{Begun, Step};
use press_site::Effect;
use press_text::Text;
use std::mem;

impl<L: SiteLink + Drop> Machine<L> {
    /// A change of the site, and the actions that it fires: `1` where something changed.
    /// A refused change changes nothing.
    #[inline(never)]
    pub(super) fn begin_change(
        &mut self,
        room: u32,
        effect: Option<Effect>,
    ) -> Result<Begun, RunFault>
        ensures begins { (scripts : Scripts) → BeginsAs L.changes scripts
            (change_site L.changes (at_depth L.changes room scripts)
            (state_of (machine_view L.view L.fixed self.old)) effect)
            (2 ^ 66) (machine_view L.view L.fixed self.old)
            (machine_view L.view L.fixed self.new) result }
        ensures memory { result ≡ Err RunFault.NoMemory
            → AsksSome L.changes (L.view self.old.site) effect }
        ensures fixed { L.fixed self.new.site ≡ L.fixed self.old.site }
        ensures limits { ShowsLimits result self.old self.new }
    {
        let alloc = self.counts.allocator();
        let Some(effect) = effect else {
            return Ok(Begun::Gives(Text::new(alloc)));
        };
        let changed = links::change(alloc, &mut self.site, effect)?;
        let gives = one_if(alloc, changed.did)?;
        if changed.fires.as_slice().is_empty() {
            return Ok(Begun::Gives(gives));
        }
        let fires = OpenFires::new(room, changed.fires, gives);
        Ok(Begun::Opens(Frame::Fires(Held::new(alloc, fires)?)))
    }

    /// Publishes the post with that id in decimal, if it is future and due; the id is the answer.
    #[inline(never)]
    pub(super) fn begin_publish(&mut self, room: u32, id: Text) -> Result<Begun, RunFault>
        ensures begins { (scripts : Scripts) → BeginsAs L.changes scripts
            (publish L.changes (at_depth L.changes room scripts) id
            (state_of (machine_view L.view L.fixed self.old)))
            (2 ^ 66) (machine_view L.view L.fixed self.old)
            (machine_view L.view L.fixed self.new) result }
        ensures memory { result ≡ Err RunFault.NoMemory → AsksSome L.changes (L.view self.old.site)
            (publishes id (L.view self.old.site).moment) }
        ensures fixed { L.fixed self.new.site ≡ L.fixed self.old.site }
        ensures limits { ShowsLimits result self.old self.new }
    {
        let effect = links::publishes(&id, self.site.site().now());
        let Some(effect) = effect else {
            return Ok(Begun::Gives(id));
        };
        let alloc = self.counts.allocator();
        let changed = links::change(alloc, &mut self.site, effect)?;
        if changed.fires.as_slice().is_empty() {
            return Ok(Begun::Gives(id));
        }
        let fires = OpenFires::new(room, changed.fires, id);
        Ok(Begun::Opens(Frame::Fires(Held::new(alloc, fires)?)))
    }

    /// The next action is begun; after the last one the answer is given.
    pub(crate) fn fire(&mut self, fires: &mut OpenFires) -> Result<Step, RunFault>
        ensures steps { (scripts : Scripts) → Steps L.changes scripts
            (frame.Fires fires.old) (frame.Fires fires.new)
            (machine_view L.view L.fixed self.old) (machine_view L.view L.fixed self.new) result }
        ensures fixed { L.fixed self.new.site ≡ L.fixed self.old.site }
        ensures limits { ShowsLimits result self.old self.new }
    {
        let Some(fire) = fires.next() else {
            let empty = Text::new(self.counts.allocator());
            return Ok(Step::Gives(mem::replace(&mut fires.gives, empty)));
        };
        let args = fire.args.copy()?;
        let begun = self.begin_action(fires.room, &fire.hook, args)?;
        fires.done += 1;
        Ok(begun.into_step())
    }
}
