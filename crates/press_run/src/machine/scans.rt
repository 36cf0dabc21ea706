//! Texts with shortcodes, piece by piece.

ghost use Rattle.std.specs.Prelude.{◌≡◌, ◌^◌, false, IfOk, IsErrOf, IsTrue, OnErr};
ghost use Rattle.press_scan.specs.Shortcodes.{IsShortcode, cut};
ghost use Rattle.press_scan.specs.Tags.{callback_of, names_of};
ghost use Rattle.press_callbacks.specs.Kits.{Scripts};
ghost use Rattle.press_run.specs.Frames.{Awaits, BeginsAs, CallsAs, GoesOn, IsCame, MovesTo, ScanReady, filtering_where};
ghost use Rattle.press_run.specs.Run.{at_depth, filter_answer, filters_answers, is_short, scan, tag_answer};
ghost use Rattle.press_run.specs.Outcome.{state_of};
ghost use Rattle.press_run.specs.Limits.{ShowsLimits};
ghost use Rattle.press_run.specs.Standing.{machine_view};
ghost use Rattle.press_run.specs.declared.frame.Frame.TheVariants as frame;
ghost use Rattle.press_run.specs.declared.frame.Filtering.TheVariants.{Off};

use super::Machine;
use crate::callbacks::Callbacks;
use crate::frame::{Filtering, Frame, OpenCallback, OpenScan};
use crate::held::Held;
use crate::link::SiteLink;
use crate::run_fault::RunFault;
use crate::step::{Begun, Kind, Moved, Opened, Step};
use crate::{shortcodes, texts};
use press_scan::{Scan, ScanStep, Shortcode, computes_first, ends_within};
use press_text::{Text, Texts};
use std::alloc::AllocError;
use std::mem;

// The profile in which the answers to shortcodes are filtered.
const FILTERS_ANSWERS: u8 = 2;

impl<L: SiteLink + Drop> Machine<L> {
    /// What a text means, where a number of callbacks may be open.
    #[inline(never)]
    pub(super) fn begin_scan(&mut self, room: u32, text: Text) -> Result<Begun, RunFault>
        ensures long { is_short text ≡ false → IsErrOf result RunFault.Limit }
        ensures begins { (scripts : Scripts) → BeginsAs L.changes scripts
            (scan (at_depth L.changes room scripts) text
            (state_of (machine_view L.view L.fixed self.old)))
            (2 ^ 24) (machine_view L.view L.fixed self.old)
            (machine_view L.view L.fixed self.new) result }
        ensures fixed { L.fixed self.new.site ≡ L.fixed self.old.site }
        ensures limits { ShowsLimits result self.old self.new }
    {
        if !texts::is_short(&text) {
            self.met_limit = true;
            return Err(RunFault::Limit);
        }
        let inside = text.into_string()?;
        let alloc = self.counts.allocator();
        let open = OpenScan {
            room,
            scan: Scan::new(alloc, inside),
            filtering: Filtering::Off,
        };
        let held = Held::new(alloc, open)?;
        Ok(Begun::Opens(Frame::Scan(held)))
    }

    /// One step: the text before a shortcode, an escape, or a shortcode, whose callback is opened
    /// by the tags that then stand. Where an answer came that is filtered, the step is its filter,
    /// and no text is taken.
    pub(crate) fn piece<K: Callbacks>(
        &mut self,
        kit: &K,
        scan: &mut OpenScan,
    ) -> Result<Moved, RunFault>
        requires { ScanReady scan.old.filtering scan.old.scan }
        ensures long { is_short scan.old.scan.output ≡ false → scan.old.filtering ≡ Off
            → IsErrOf result RunFault.Limit }
        ensures steps { MovesTo L.changes (K.scripts kit.now)
            (frame.Scan scan.old) (frame.Scan scan.new)
            (machine_view L.view L.fixed self.old) (machine_view L.view L.fixed self.new) result }
        ensures fixed { L.fixed self.new.site ≡ L.fixed self.old.site }
        ensures limits { ShowsLimits result self.old self.new }
    {
        match &scan.filtering {
            Filtering::Off => self.next_piece(kit, scan),
            Filtering::Comes(_) => unreachable!(),
            Filtering::Came { .. } => self.filter_answer(scan),
        }
    }

    // The next piece, where no answer came.
    fn next_piece<K: Callbacks>(&mut self, kit: &K, scan: &mut OpenScan) -> Result<Moved, RunFault>
        requires goes_on { GoesOn scan.old.scan }
        requires off { scan.old.filtering ≡ Off }
        ensures long { is_short scan.old.scan.output ≡ false → IsErrOf result RunFault.Limit }
        ensures steps { MovesTo L.changes (K.scripts kit.now)
            (frame.Scan scan.old) (frame.Scan scan.new)
            (machine_view L.view L.fixed self.old) (machine_view L.view L.fixed self.new) result }
        ensures fixed { L.fixed self.new.site ≡ L.fixed self.old.site }
        ensures limits { ShowsLimits result self.old self.new }
    {
        computes_first();
        ends_within();
        if !shortcodes::is_short(&scan.scan) {
            self.met_limit = true;
            return Err(RunFault::Limit);
        }
        match scan.scan.step(&self.tables.tags)? {
            ScanStep::Text => Ok(Moved::By(Step::Goes)),
            ScanStep::Call(shortcode) => {
                let (alloc, text) = (self.counts.allocator(), scan.scan.text());
                let filtering = self.filtering(text, shortcode)?;
                let call = shortcodes::shortcode_call(alloc, text, &self.tables.tags, shortcode)?;
                let mut callback = OpenCallback::on(call);
                let opened = self.begin_shortcode(kit, scan.room, &mut callback)?;
                scan.filtering = filtering;
                Ok(opened.into_moved(alloc, callback)?)
            }
            ScanStep::End => {
                let text = scan.finish(self.counts.allocator())?;
                Ok(Moved::By(Step::Gives(text)))
            }
        }
    }

    // The answer that came goes through the filter.
    #[inline(never)]
    fn filter_answer(&mut self, scan: &mut OpenScan) -> Result<Moved, RunFault>
        requires awaits { Awaits scan.old.scan }
        requires came { IsCame scan.old.filtering }
        ensures steps { (scripts : Scripts) → MovesTo L.changes scripts
            (frame.Scan scan.old) (frame.Scan scan.new)
            (machine_view L.view L.fixed self.old) (machine_view L.view L.fixed self.new) result }
        ensures fixed { L.fixed self.new.site ≡ L.fixed self.old.site }
        ensures limits { ShowsLimits result self.old self.new }
    {
        let Filtering::Came { answer, tag } = mem::replace(&mut scan.filtering, Filtering::Off)
        else {
            unreachable!()
        };
        let begun = self.begin_filter(scan.room, answer, tag)?;
        Ok(Moved::By(begun.into_step()))
    }

    // The filter: its callbacks see the answer as their value and the tag as their second argument;
    // where the hook has none, the answer stays as it is.
    fn begin_filter(&mut self, room: u32, answer: Text, tag: Text) -> Result<Begun, RunFault>
        ensures begins { (scripts : Scripts) → BeginsAs L.changes scripts
            (filter_answer (at_depth L.changes room scripts) tag answer
            (state_of (machine_view L.view L.fixed self.old)))
            3 (machine_view L.view L.fixed self.old) (machine_view L.view L.fixed self.new) result }
        ensures fixed { L.fixed self.new.site ≡ L.fixed self.old.site }
        ensures limits { ShowsLimits result self.old self.new }
    {
        let alloc = self.counts.allocator();
        let args = Texts::from_vec(vec![in alloc; answer, tag]?)?;
        let hook = shortcodes::do_shortcode_tag(alloc)?;
        let begun = self.begin(room, Kind::Filter, &hook, args);
        drop(hook);
        begun
    }

    // What becomes of the answer to a shortcode.
    fn filtering(&self, text: &str, shortcode: Shortcode) -> Result<Filtering, AllocError>
        requires stands { IsShortcode text.now (names_of self.now.tables.tags)
            shortcode.start shortcode }
        ensures filtering { IfOk result (λ f. f ≡ filtering_where (cut text.now shortcode.tag)
            (filters_answers (L.view self.now.site))) }
        ensures memory { OnErr result (IsTrue (filters_answers (L.view self.now.site))) }
    {
        if self.site.site().profile() != FILTERS_ANSWERS {
            return Ok(Filtering::Off);
        }
        let alloc = self.counts.allocator();
        let tag = shortcodes::tag_of(alloc, text, &self.tables.tags, shortcode)?;
        Ok(Filtering::Comes(tag))
    }

    // The callback of a call's tag; a tag without one answers the empty text.
    fn begin_shortcode<K: Callbacks>(
        &mut self,
        kit: &K,
        room: u32,
        callback: &mut OpenCallback,
    ) -> Result<Opened, RunFault>
        requires { callback.old.call.turn ≡ 0 }
        ensures begins { CallsAs L.changes (K.scripts kit.now)
            (tag_answer (at_depth L.changes room (K.scripts kit.now))
            (callback_of callback.old.call.tag self.old.tables.tags)
            callback.old.call (state_of (machine_view L.view L.fixed self.old)))
            2 callback.new
            (machine_view L.view L.fixed self.old) (machine_view L.view L.fixed self.new) result }
        ensures fixed { L.fixed self.new.site ≡ L.fixed self.old.site }
        ensures limits { ShowsLimits result self.old self.new }
    {
        match self.tables.tags.get(callback.call.tag.as_str()) {
            None => Ok(Opened::Gives(Text::new(self.counts.allocator()))),
            Some(id) => self.call_callback(kit, room, id, callback),
        }
    }
}
