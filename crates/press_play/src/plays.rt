//! Plays, each on the machine as the ones before it left it.

ghost use Rattle.std.specs.Prelude.{◌≡◌, [], IfOk, string_bytes};
ghost use Rattle.press_site.specs.Effects.{effect_on};
ghost use Rattle.press_callbacks.specs.Kits.{scripts_in, plugins_in};
ghost use Rattle.press_run.specs.Boot.{boot_with};
ghost use Rattle.press_run.specs.Outcome.{job_meaning, state_at_start};
ghost use Rattle.press_play.specs.Lines.{Plays, job_of, lines, state_in};

use crate::journal::Journal;
use crate::line::{answer_line, limit_line};
use crate::retold::Again;
use press_callbacks::Kit;
use press_kit::{Play, PlayKind};
use press_posts::Fire;
use press_run::{Job, Machine, RunFault};
use press_site::Site;
use press_text::Items;
use std::alloc::{AllocError, Global};

// The machine as the plays so far left it, and their lines.
struct Playing {
    alloc: Global,
    machine: Machine<Site>,
    lines: String,
    journal: Journal,
}

impl Drop for Playing {
    fn drop(self) {
        let Playing {
            alloc: _,
            machine: _,
            lines: _,
            journal: _,
        } = self;
    }
}

impl Playing {
    // A fresh boot of the site, and no line.
    fn new(journal: &Journal, kit: &Kit, site: Site) -> Result<Playing, AllocError>
        ensures started { IfOk result (λ p. state_in p.machine
            ≡ state_at_start (boot_with (plugins_in kit.now) site.active) site) }
        ensures lines { IfOk result (λ p. string_bytes p.lines ≡ []) }
    {
        let alloc = journal.alloc();
        let journal = journal.copy()?;
        let machine = Machine::new(alloc, kit, site)?;
        let lines = String::new(alloc);
        Ok(Playing {
            alloc,
            machine,
            lines,
            journal,
        })
    }

    // Does a play once less than it says, each time from where it begins.
    fn rehearse(&self, kit: &Kit, play: &Play) -> Result<(), AllocError> {
        for _time in 1..play.times {
            let mut again = self.machine.copy(self.alloc)?;
            if let Err(RunFault::NoMemory) = again.run(kit, job(self.alloc, play)?) {
                return Err(AllocError);
            }
        }
        Ok(())
    }

    // One play, whose line is put at the end; whether the plays go on.
    fn play(&mut self, kit: &Kit, play: &Play) -> Result<bool, AllocError>
        ensures { Plays
            (job_meaning effect_on (scripts_in kit.now) (job_of play.now)
            (state_in self.old.machine))
            (state_in self.new.machine)
            (string_bytes self.old.lines) (string_bytes self.new.lines) result }
    {
        if play.trace {
            self.journal.begin(play);
        }
        match self.machine.run(kit, job(self.alloc, play)?) {
            Ok(text) => {
                self.journal.end(play);
                let line = answer_line(self.alloc, text.as_str(), self.machine.out.as_str())?;
                self.lines.push_str(line.as_str())?;
                Ok(true)
            }
            Err(RunFault::Limit) => {
                let line = limit_line(self.alloc)?;
                self.lines.push_str(line.as_str())?;
                Ok(false)
            }
            Err(RunFault::NoMemory) => Err(AllocError),
        }
    }

    fn into_lines(self) -> String
        ensures { result ≡ self.lines }
    {
        let Playing {
            alloc: _,
            machine: _,
            lines,
            journal: _,
        } = self;
        lines
    }
}

/// What the machine is asked for by a play.
pub fn job(alloc: Global, play: &Play) -> Result<Job, AllocError>
    ensures { IfOk result (λ j. j ≡ job_of play.now) }
{
    let hook = play.hook.copy(alloc)?;
    let args = play.args.copy()?;
    match play.kind {
        PlayKind::Apply => Ok(Job::Apply { hook, args }),
        PlayKind::Do => {
            let fires = vec![in alloc; Fire { hook, args }]?;
            Ok(Job::Fires(Items::from_vec(fires)))
        }
    }
}

/// The lines of the plays on a fresh boot of the site; messages about them go to the journal.
pub fn lines_of(
    journal: &Journal,
    kit: &Kit,
    site: Site,
    plays: &[Play],
) -> Result<String, AllocError>
    ensures { IfOk result (λ t. string_bytes t ≡ lines (scripts_in kit.now) plays.now
        (state_at_start (boot_with (plugins_in kit.now) site.active) site)) }
{
    let mut playing = Playing::new(journal, kit, site)?;
    let again = Again::new(journal, &playing.machine)?;
    for play in plays {
        playing.rehearse(kit, play)?;
        if !playing.play(kit, play)? {
            let _ = again.tell(kit, plays);
            return Ok(playing.into_lines());
        }
    }
    Ok(playing.into_lines())
}
