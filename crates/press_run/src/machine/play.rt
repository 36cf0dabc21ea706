//! A run: its frames, the innermost of which goes on until all have answered.

ghost use Rattle.std.specs.Prelude.{◌≡◌, ◌^◌};
ghost use Rattle.press_callbacks.specs.Kits.{Scripts};
ghost use Rattle.press_run.specs.Frames.{BeginsAs, MovesTo, Ready, frame_meaning, round};
ghost use Rattle.press_run.specs.Outcome.{GivesText, around, job_meaning, state_of};
ghost use Rattle.press_run.specs.Limits.{ShowsLimits};
ghost use Rattle.press_run.specs.Standing.{machine_view};

use super::Machine;
use crate::callbacks::Callbacks;
use crate::frame::{Frame, OpenFires};
use crate::frames::Frames;
use crate::held::Held;
use crate::job::Job;
use crate::link::SiteLink;
use crate::run_fault::RunFault;
use crate::step::{Begun, Kind, Moved, Step};
use press_text::Text;
use std::mem;

// How many callbacks may be open at once.
const MOST_OPEN: u32 = 32;

impl<L: SiteLink + Drop> Machine<L> {
    /// What a job begins with.
    pub(super) fn begin_job(&mut self, job: Job) -> Result<Begun, RunFault>
        ensures begins { (scripts : Scripts) → BeginsAs L.changes scripts
            (job_meaning L.changes scripts job (state_of (machine_view L.view L.fixed self.old)))
            (2 ^ 66) (machine_view L.view L.fixed self.old)
            (machine_view L.view L.fixed self.new) result }
        ensures fixed { L.fixed self.new.site ≡ L.fixed self.old.site }
        ensures limits { ShowsLimits result self.old self.new }
    {
        match job {
            Job::Fires(fires) => {
                let alloc = self.counts.allocator();
                let fires = OpenFires::new(MOST_OPEN, fires, Text::new(alloc));
                Ok(Begun::Opens(Frame::Fires(Held::new(alloc, fires)?)))
            }
            Job::Apply { hook, args } => {
                let begun = self.begin(MOST_OPEN, Kind::Filter, &hook, args);
                drop(hook);
                begun
            }
        }
    }

    /// The answer of a job.
    pub(super) fn answer<K: Callbacks>(&mut self, kit: &K, job: Job) -> Result<Text, RunFault>
        ensures gives { GivesText (job_meaning L.changes (K.scripts kit.now) job
            (state_of (machine_view L.view L.fixed self.old)))
            (around (machine_view L.view L.fixed self.old))
            (machine_view L.view L.fixed self.new) result }
        ensures fixed { L.fixed self.new.site ≡ L.fixed self.old.site }
        ensures limits { ShowsLimits result self.old self.new }
    {
        match self.begin_job(job)? {
            Begun::Opens(frame) => self.play(kit, frame),
            Begun::Gives(text) => Ok(text),
        }
    }

    // The outermost frame, and all that it opens, until it has answered.
    fn play<K: Callbacks>(&mut self, kit: &K, mut top: Frame) -> Result<Text, RunFault>
        requires { Ready top (around (machine_view L.view L.fixed self.old)) }
        ensures gives { GivesText (frame_meaning L.changes (K.scripts kit.now) top
            (around (machine_view L.view L.fixed self.old))
            (state_of (machine_view L.view L.fixed self.old)))
            (round top (around (machine_view L.view L.fixed self.old)))
            (machine_view L.view L.fixed self.new) result }
        ensures fixed { L.fixed self.new.site ≡ L.fixed self.old.site }
        ensures limits { ShowsLimits result self.old self.new }
    {
        let mut waiting = Frames::new(self.counts.allocator());
        loop {
            match self.step(kit, &mut top)? {
                Moved::By(Step::Goes) => {}
                Moved::By(Step::Opens(inner)) => waiting.push(mem::replace(&mut top, inner))?,
                Moved::Calls(callback, inner) => {
                    waiting.push(mem::replace(&mut top, inner))?;
                    waiting.push(callback)?;
                }
                Moved::By(Step::Takes(text)) => top.take(text)?,
                Moved::By(Step::Gives(text)) => {
                    let Some(frame) = waiting.pop()? else {
                        return Ok(text);
                    };
                    top = frame;
                    top.take(text)?;
                }
            }
        }
    }

    // The innermost frame goes on by one turn, action or piece, or by entries up to one that it
    // waits for.
    fn step<K: Callbacks>(&mut self, kit: &K, top: &mut Frame) -> Result<Moved, RunFault>
        requires { Ready top.old (around (machine_view L.view L.fixed self.old)) }
        ensures steps { MovesTo L.changes (K.scripts kit.now) top.old top.new
            (machine_view L.view L.fixed self.old) (machine_view L.view L.fixed self.new) result }
        ensures fixed { L.fixed self.new.site ≡ L.fixed self.old.site }
        ensures limits { ShowsLimits result self.old self.new }
    {
        match top {
            Frame::Callback(callback) => Ok(Moved::By(callback.turn(self, kit)?)),
            Frame::Hook(run) => run.entries(self, kit),
            Frame::Fires(fires) => Ok(Moved::By(fires.fire(self)?)),
            Frame::Scan(scan) => scan.piece(self, kit),
        }
    }
}
