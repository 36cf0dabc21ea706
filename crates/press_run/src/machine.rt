//! What runs go on with, and one run on it.

mod callback;
mod fires;
mod hooks;
mod play;
mod scans;
mod turns;

ghost use Rattle.std.specs.Prelude.{◌≡◌, IfOk, Some, false};
ghost use Rattle.press_callbacks.specs.Kits.{plugins_in, scripts_in};
ghost use Rattle.press_run.specs.Boot.{boot_with};
ghost use Rattle.press_run.specs.Limits.{ShowsLimits};
ghost use Rattle.press_run.specs.Links.{unchanging_part};
ghost use Rattle.press_run.specs.Outcome.{GivesJob, Pushes, around, is_limit, job_meaning, loaded_in, state_at_start, state_of};
ghost use Rattle.press_run.specs.Standing.{machine_view};

use crate::boots::boot;
use crate::counts::Counts;
use crate::job::Job;
use crate::link::SiteLink;
use crate::out::Out;
use crate::run_fault::{RunFault, is_limit};
use press_callbacks::{Kit, Tables};
use press_site::Site;
use std::alloc::{AllocError, Global};

/// A callback, by its place in the kit, and the step of its script.
#[derive(Clone, Copy, Debug)]
pub struct StepAt {
    pub callback: usize,
    pub step: usize,
}

/// What one boot has and counts: its tables, its counts, the site as runs have it, and what was
/// written.
#[derive(Debug)]
pub struct Machine<L> {
    pub tables: Tables,
    pub counts: Counts,
    pub site: L,
    pub out: Out,
    /// Whether the last run, or what was written since, met a limit.
    pub met_limit: bool,
    /// The step whose text would have passed the bytes, where the last run met that limit: a note,
    /// on which nothing depends.
    pub long_step: Option<StepAt>,
}

impl<L: Drop> Drop for Machine<L> {
    fn drop(self) {
        let Machine {
            tables: _,
            counts: _,
            site: _,
            out: _,
            met_limit: _,
            long_step: _,
        } = self;
    }
}

impl<L: SiteLink + Drop> Machine<L> {
    /// A fresh boot of the site: its tables, nothing counted and nothing written.
    pub fn new(alloc: Global, kit: &Kit, site: L) -> Result<Machine<L>, AllocError>
        ensures started { IfOk result (λ s. state_of (machine_view L.view L.fixed s)
            ≡ state_at_start (boot_with (plugins_in kit.now) (L.view site).active) (L.view site)) }
        ensures site { IfOk result (λ s. s.site ≡ site) }
        ensures limit { IfOk result (λ s. s.met_limit ≡ false) }
    {
        let tables = boot(alloc, kit, site.site())?;
        Ok(Machine::over(alloc, tables, site))
    }

    /// The same over tables that were made before; takes no memory.
    pub fn over(alloc: Global, tables: Tables, site: L) -> Machine<L>
        ensures started { state_of (machine_view L.view L.fixed result)
            ≡ state_at_start (loaded_in tables) (L.view site) }
        ensures site { result.site ≡ site }
        ensures limit { result.met_limit ≡ false }
    {
        let (counts, out) = (Counts::new(alloc), Out::new(alloc));
        Machine {
            tables,
            counts,
            site,
            out,
            met_limit: false,
            long_step: None,
        }
    }

    /// Runs a job: actions one after the other, which answer the empty text, or one filter, which
    /// answers what its last callback gave.
    ///
    /// Callbacks may edit the tables, change the site, and write to the output. What a change of
    /// the site fires is done within the run. Limit is returned where a 33rd callback would be open
    /// at once, a 10,001st turn would be played, or a text would pass 1,048,576 bytes. After a
    /// fault the machine is in no stated state, but for what no change of the site touches, and
    /// that it shows whether a limit was met.
    pub fn run(&mut self, kit: &Kit, job: Job) -> Result<String, RunFault>
        ensures gives { GivesJob
            (job_meaning L.changes (scripts_in kit.now) job
            (state_of (machine_view L.view L.fixed self.old)))
            (around (machine_view L.view L.fixed self.old))
            (machine_view L.view L.fixed self.new) result }
        ensures fixed { L.fixed self.new.site ≡ L.fixed self.old.site }
        ensures limit { self.new.met_limit ≡ is_limit result }
    {
        self.met_limit = false;
        self.long_step = None;
        self.answer_string(kit, job)
    }

    fn answer_string(&mut self, kit: &Kit, job: Job) -> Result<String, RunFault>
        ensures gives { GivesJob
            (job_meaning L.changes (scripts_in kit.now) job
            (state_of (machine_view L.view L.fixed self.old)))
            (around (machine_view L.view L.fixed self.old))
            (machine_view L.view L.fixed self.new) result }
        ensures fixed { L.fixed self.new.site ≡ L.fixed self.old.site }
        ensures limits { ShowsLimits result self.old self.new }
    {
        let text = self.answer(kit, job)?;
        Ok(text.into_string()?)
    }

    /// Writes to the output. Limit where that would pass 1,048,576 bytes, and then nothing is
    /// written.
    pub fn write(&mut self, text: &str) -> Result<(), RunFault>
        ensures pushes { Pushes self.old.out text.now self.new.out result }
        ensures kept { self.new ≡ record self.old {
          out = self.new.out;
          met_limit = self.new.met_limit;
        } }
        ensures limits { ShowsLimits result self.old self.new }
    {
        let pushed = self.out.push(text);
        self.met_limit = is_limit(&pushed) | self.met_limit;
        pushed
    }

    /// The site as the runs left it, and what was written.
    pub fn into_parts(self) -> (L, Out)
        ensures { result ≡ (self.site, self.out) }
    {
        let Machine {
            tables: _,
            counts: _,
            site,
            out,
            met_limit: _,
            long_step: _,
        } = self;
        (site, out)
    }
}

impl Machine<Site> {
    /// A machine with the same rows, tags, counts, site and output, and no open run.
    pub fn copy(&self, alloc: Global) -> Result<Machine<Site>, AllocError>
        ensures { IfOk result (λ s.
            state_of (machine_view (λ x. x) (λ x. Some (unchanging_part x)) s)
            ≡ state_of (machine_view (λ x. x) (λ x. Some (unchanging_part x)) self.now)) }
    {
        Ok(Machine {
            tables: self.tables.copy()?,
            counts: self.counts.copy()?,
            site: self.site.copy()?,
            out: self.out.copy(alloc)?,
            met_limit: self.met_limit,
            long_step: self.long_step,
        })
    }
}
