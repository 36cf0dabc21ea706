//! Commands, pages and plays over a kit whose closures run out of memory.

use crate::runs::{Answer, Came, Runs, refused_at_each};
use press_apply::{CommandKind, Stamped, Value, apply};
use press_callbacks::Kit;
use press_fakes::Fuse;
use press_kit::{Play, PlayKind};
use press_page::{Target, page};
use press_posts::Fire;
use press_run::{Job, Machine, RunFault};
use press_site::{Outcome, Site};
use press_text::Items;
use std::alloc::{AllocError, Global};

// A command, on a copy of the site each time.
#[derive(Drop)]
struct OnSite<'a> {
    alloc: Global,
    kit: &'a Kit,
    site: &'a Site,
    value: &'a Value,
}

fn text_of(alloc: Global, site: &Site) -> Result<String, AllocError> {
    format!(in alloc; "{site:?}")
}

fn outcome_of(alloc: Global, outcome: Outcome, site: &Site) -> Result<Answer, AllocError> {
    Ok(Answer {
        told: format!(in alloc; "{outcome:?}")?,
        whole: text_of(alloc, site)?.into_bytes(),
    })
}

impl Runs for OnSite<'_> {
    fn run(&mut self, fuse: &Fuse, at: u64) -> anyhow::Result<Came> {
        let alloc = self.alloc;
        let mut site = self.site.copy()?;
        fuse.set(at);
        if let Ok(outcome) = apply(alloc, &mut site, self.kit, self.value) {
            return Ok(Came::Gave(outcome_of(alloc, outcome, &site)?));
        }
        let (before, after) = (text_of(alloc, self.site)?, text_of(alloc, &site)?);
        if !fuse.is_blown() || before.as_str() != after.as_str() {
            return Ok(Came::Otherwise);
        }
        fuse.set(0);
        let outcome = apply(alloc, &mut site, self.kit, self.value)?;
        Ok(Came::Wanted(outcome_of(alloc, outcome, &site)?))
    }
}

// A page.
#[derive(Drop)]
struct OfPage<'a> {
    alloc: Global,
    kit: &'a Kit,
    site: &'a Site,
    target: &'a Target,
}

impl OfPage<'_> {
    fn show_page(&self) -> Result<Answer, AllocError> {
        let reply = page(self.alloc, self.site, self.kit, self.target)?;
        let (status, count) = (reply.status, reply.body.as_bytes().len());
        let mut whole = Vec::new(self.alloc);
        whole.extend_from_slice(reply.body.as_bytes())?;
        Ok(Answer {
            told: format!(in self.alloc; "{status}, {count} bytes")?,
            whole,
        })
    }
}

impl Runs for OfPage<'_> {
    fn run(&mut self, fuse: &Fuse, at: u64) -> anyhow::Result<Came> {
        fuse.set(at);
        if let Ok(answer) = self.show_page() {
            return Ok(Came::Gave(answer));
        }
        if !fuse.is_blown() {
            return Ok(Came::Otherwise);
        }
        fuse.set(0);
        Ok(Came::Wanted(self.show_page()?))
    }
}

// A play, on a copy of the machine each time.
#[derive(Drop)]
struct OnMachine<'a> {
    alloc: Global,
    kit: &'a Kit,
    machine: &'a Machine<Site>,
    play: &'a Play,
}

impl OnMachine<'_> {
    fn job(&self) -> Result<Job, AllocError> {
        let hook = self.play.hook.copy(self.alloc)?;
        let args = self.play.args.copy()?;
        match self.play.kind {
            PlayKind::Apply => Ok(Job::Apply { hook, args }),
            PlayKind::Do => {
                let fires = vec![in self.alloc; Fire { hook, args }]?;
                Ok(Job::Fires(Items::from_vec(fires)))
            }
        }
    }

    // What is left of it beside the answer is a machine's, which is dropped.
    fn run_machine(&self) -> anyhow::Result<Result<Answer, RunFault>> {
        let mut machine = self.machine.copy(self.alloc)?;
        let job = self.job()?;
        match machine.run(self.kit, job) {
            Ok(told) => {
                let mut whole = Vec::new(self.alloc);
                whole.extend_from_slice(machine.out.as_str().as_bytes())?;
                Ok(Ok(Answer { told, whole }))
            }
            Err(RunFault::Limit) => {
                let (told, whole) = (format!(in self.alloc; "limit")?, Vec::new(self.alloc));
                Ok(Ok(Answer { told, whole }))
            }
            Err(RunFault::NoMemory) => Ok(Err(RunFault::NoMemory)),
        }
    }
}

impl Runs for OnMachine<'_> {
    fn run(&mut self, fuse: &Fuse, at: u64) -> anyhow::Result<Came> {
        fuse.set(at);
        if let Ok(answer) = self.run_machine()? {
            return Ok(Came::Gave(answer));
        }
        if !fuse.is_blown() {
            return Ok(Came::Otherwise);
        }
        fuse.set(0);
        match self.run_machine()? {
            Ok(answer) => Ok(Came::Wanted(answer)),
            Err(_) => Ok(Came::Otherwise),
        }
    }
}

/// Runs over one kit, and what is printed of them.
#[derive(Drop)]
pub struct Wants<'a> {
    pub alloc: Global,
    pub kit: &'a Kit,
    pub fuse: &'a Fuse,
    pub said: String,
}

impl Wants<'_> {
    fn tell<R: Runs>(&mut self, what: &str, runs: &mut R) -> anyhow::Result<()>
        requires always { Unit {0} }
    {
        let line = refused_at_each(self.alloc, self.fuse, what, runs)?;
        self.said.push_str(line.as_str())?;
        Ok(())
    }

    /// Applies the commands in turn, each over closures of which one runs out of memory, and then
    /// with ample memory.
    pub fn commands(&mut self, site: &mut Site, commands: &[Stamped]) -> anyhow::Result<()>
        requires always { Unit {0} }
    {
        for stamped in commands {
            let value = Value::Cmd(stamped.copy(self.alloc)?);
            let kind = CommandKind::of(&stamped.command);
            let what = format!(in self.alloc; "{kind:?}")?;
            let mut run = OnSite {
                alloc: self.alloc,
                kit: self.kit,
                site,
                value: &value,
            };
            self.tell(what.as_str(), &mut run)?;
            self.fuse.set(0);
            apply(self.alloc, site, self.kit, &value)?;
        }
        Ok(())
    }

    /// Shows the pages.
    pub fn pages(&mut self, site: &Site, targets: &[Target]) -> anyhow::Result<()>
        requires always { Unit {0} }
    {
        for target in targets {
            let what = format!(in self.alloc; "{target:?}")?;
            let mut run = OfPage {
                alloc: self.alloc,
                kit: self.kit,
                site,
                target,
            };
            self.tell(what.as_str(), &mut run)?;
        }
        Ok(())
    }

    /// Does the plays in turn, each on the machine as those before it left it.
    pub fn plays(&mut self, site: Site, plays: &[Play]) -> anyhow::Result<()>
        requires always { Unit {0} }
    {
        let mut machine = Machine::new(self.alloc, self.kit, site)?;
        for play in plays {
            let mut run = OnMachine {
                alloc: self.alloc,
                kit: self.kit,
                machine: &machine,
                play,
            };
            self.tell(play.hook.as_str(), &mut run)?;
            let job = run.job()?;
            self.fuse.set(0);
            if machine.run(self.kit, job).is_err() {
                return Ok(());
            }
        }
        Ok(())
    }
}
