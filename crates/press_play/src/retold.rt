//! The plays of a file once more, so that it is told where one of them met a limit.

use crate::journal::Journal;
use crate::plays::job;
use press_callbacks::Kit;
use press_kit::Play;
use press_run::{Counts, Job, Machine, RunFault};
use press_site::Site;
use press_text::{CallbackId, HookName, Texts};
use std::alloc::{AllocError, Global};
use std::mem;

/// The machine as it stood before the first play.
pub struct Again {
    alloc: Global,
    machine: Machine<Site>,
    journal: Journal,
}

impl Drop for Again {
    fn drop(self) {
        let Again {
            alloc: _,
            machine: _,
            journal: _,
        } = self;
    }
}

// Whether a machine that met a limit has no step left: it is asked for one more, on a boot without
// plugins, where `the_content` has a built-in callback alone. No clause says what a limit leaves of
// a machine, and nothing but a note rests on it.
fn is_spent(alloc: Global, kit: &Kit, counts: &mut Counts) -> Result<bool, AllocError> {
    let hook = HookName::from_valid(alloc, "the_content")?;
    let args = Texts::new(alloc);
    let mut bare = Machine::new(alloc, kit, Site::new(alloc))?;
    mem::swap(&mut bare.counts, counts);
    let asked = bare.run(kit, Job::Apply { hook, args });
    Ok(matches!(asked, Err(RunFault::Limit)))
}

fn name_at(kit: &Kit, place: usize) -> Option<CallbackId> {
    kit.at(place).map(|callback| callback.id())
}

impl Again {
    /// A copy of the machine.
    pub fn new(journal: &Journal, machine: &Machine<Site>) -> Result<Again, AllocError> {
        let alloc = journal.alloc();
        let journal = journal.copy()?;
        let machine = machine.copy(alloc)?;
        Ok(Again {
            alloc,
            machine,
            journal,
        })
    }

    // Whether a play met a limit.
    fn meets_limit(&mut self, kit: &Kit, play: &Play) -> Result<bool, AllocError> {
        match self.machine.run(kit, job(self.alloc, play)?) {
            Ok(_) => Ok(false),
            Err(RunFault::Limit) => Ok(true),
            Err(RunFault::NoMemory) => Err(AllocError),
        }
    }

    // The play that met a limit is watched.
    fn watch(&mut self, kit: &Kit, play: &Play) -> Result<(), AllocError> {
        self.journal.begin(play);
        if self.meets_limit(kit, play)? {
            match self.machine.long_step {
                Some(at) => self.journal.long_text(name_at(kit, at.callback), at.step),
                None => {
                    let is_spent = is_spent(self.alloc, kit, &mut self.machine.counts)?;
                    self.journal.limit(is_spent);
                }
            }
        }
        self.journal.end(play);
        Ok(())
    }

    /// Tells of the first of these that hasn't ended, for which those before it are done once more.
    pub fn tell(mut self, kit: &Kit, plays: &[Play]) -> Result<(), AllocError> {
        let ended = self.journal.end_count();
        self.journal.rest();
        for play in plays.iter().take(ended) {
            self.meets_limit(kit, play)?;
        }
        match plays.get(ended) {
            Some(play) => self.watch(kit, play),
            None => Ok(()),
        }
    }
}
