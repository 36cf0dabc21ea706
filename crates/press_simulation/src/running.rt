//! A run of a scenario, and its transcript.

use crate::actor::Actor;
use crate::scenario::{Fault, Scenario};
use crate::telling::Telling;
use crate::world::World;
use crate::writing::fault_line;
use std::alloc::{AllocError, Global};

// Within so many milliseconds after the last fault all is done, beside what letters take.
const WITHIN: u64 = 4_000;

// How many more it may take without one that is gone for good.
const WITHOUT: u64 = 120_000;

// How many letters one after another it may take to know what was missed.
const FIRST: u64 = 400;

// How many more a form may take.
const EACH: u64 = 5;

// How long nothing happens then.
const IDLE: u64 = 2_000;

// After how many milliseconds without faults all was applied everywhere.
#[derive(Clone, Copy, Drop)]
struct Times {
    calm: u64,
    form: u64,
    rush: u64,
}

impl Times {
    fn never() -> Times {
        Times {
            calm: u64::MAX,
            form: u64::MAX,
            rush: u64::MAX,
        }
    }
}

/// Members as they play a scenario.
pub struct Run<'a, A: Actor> {
    alloc: Global,
    scenario: &'a Scenario,
    telling: Telling,
    world: World<A>,
    lines: Vec<String>,
    times: Times,
}

impl<A: Actor> Drop for Run<'_, A> {
    fn drop(self) {
        let Run {
            alloc: _,
            scenario: _,
            telling: _,
            world: _,
            lines: _,
            times: _,
        } = self;
    }
}

// What is told.
impl<'a, A: Actor> Run<'a, A> {
    /// A run of the scenario that nothing was done of, of which that much is told.
    pub fn new(
        alloc: Global,
        scenario: &'a Scenario,
        telling: Telling,
    ) -> Result<Run<'a, A>, AllocError> {
        Ok(Run {
            alloc,
            scenario,
            telling,
            world: World::new(alloc, scenario)?,
            lines: Vec::new(alloc),
            times: Times::never(),
        })
    }

    /// What was told.
    pub fn into_lines(self) -> Vec<String> {
        let Run {
            alloc: _,
            scenario: _,
            telling: _,
            world: _,
            lines,
            times: _,
        } = self;
        lines
    }

    fn tell_fault(&mut self, fault: Fault) -> Result<(), AllocError> {
        if self.telling == Telling::Steps {
            let line = fault_line(self.alloc, self.world.now, fault)?;
            self.lines.push(line)?;
        }
        Ok(())
    }

    // What was played, and whether all holds. It says nothing of time, so that it stays as it is
    // where members only take theirs.
    fn tell_outcome(&mut self) -> Result<(), AllocError> {
        let one = self.scenario;
        let (seed, members, store, faults) = (one.seed, one.members, one.store(), one.steps.len());
        let outcome = if self.holds() {
            "all holds"
        } else {
            "not all holds"
        };
        let mut line = format!(in self.alloc;
            "{seed}: {members} members, {store}, {faults} faults: {outcome}"
        )?;
        self.tell_found(&mut line)?;
        self.lines.push(line)?;
        Ok(())
    }

    // How often one was found whose disk lacked some of its saves, and whether one was heard.
    fn tell_found(&self, line: &mut String) -> Result<(), AllocError> {
        let found = self.world.tally.found;
        if found > 0 {
            let text = format!(in self.alloc; ", {found} found forgetful")?;
            line.push_str(text.as_str())?;
        }
        if self.world.judge.is_loose() {
            line.push_str(", one heard before")?;
        }
        Ok(())
    }

    fn tell_forms(&mut self) -> Result<(), AllocError> {
        let (forms, chosen) = (self.world.forms.count(), self.world.judge.chosen_count());
        let line = format!(in self.alloc; "{forms} forms, {chosen} chosen")?;
        self.lines.push(line)?;
        Ok(())
    }

    // How long it took, in milliseconds without faults; a great number where it didn't end.
    fn tell_times(&mut self) -> Result<(), AllocError> {
        let Times { calm, form, rush } = self.times;
        let line = format!(in self.alloc;
            "applied everywhere {calm} ms after the faults, {form} after a form, {rush} after a rush"
        )?;
        self.lines.push(line)?;
        Ok(())
    }

    fn tell_tally(&mut self) -> Result<(), AllocError> {
        let all = self.world.tally;
        let (letters, asked, sent) = (all.letters, all.most_asked, all.most_sent);
        let line = format!(in self.alloc;
            "{letters} letters; in a second at most {asked} questions to one member, {sent} letters"
        )?;
        self.lines.push(line)?;
        Ok(())
    }

    fn tell_network(&mut self) -> Result<(), AllocError> {
        let (lost, twice) = self.world.network.counts();
        let (starts, falls) = (self.world.tally.starts, self.world.tally.falls);
        let line = format!(in self.alloc;
            "{starts} starts, {falls} stores failed, {lost} requests lost, {twice} twice"
        )?;
        self.lines.push(line)?;
        Ok(())
    }

    fn tell_rest(&mut self) -> Result<(), AllocError> {
        if self.telling != Telling::Brief {
            self.tell_forms()?;
            self.tell_times()?;
            self.tell_tally()?;
            self.tell_network()?;
        }
        Ok(())
    }

    // Whether all holds.
    fn holds(&self) -> bool {
        self.world.judge.complaints().is_empty()
    }

    // What doesn't hold.
    fn tell_complaints(&mut self) -> Result<(), AllocError> {
        for text in self.world.judge.complaints() {
            let line = format!(in self.alloc; "WRONG: {text}")?;
            self.lines.push(line)?;
        }
        Ok(())
    }
}

// What is done.
impl<A: Actor> Run<'_, A> {
    // Whether a form or a page comes to one of the members, and to which.
    fn draw(&mut self, often: u64) -> Option<usize> {
        let last = (self.world.count() as u64).saturating_sub(1);
        if !self.world.network.happens(often) {
            return None;
        }
        Some(self.world.network.draw(0, last) as usize)
    }

    // Forms and pages that come by themselves.
    fn ask(&mut self) -> Result<(), AllocError>
        requires always { Unit {0} }
    {
        if let Some(place) = self.draw(self.scenario.forms) {
            self.world.submit(place)?;
        }
        if let Some(place) = self.draw(self.scenario.pages) {
            self.world.show(place)?;
        }
        Ok(())
    }

    // The fault of that number happens, if its time has come; whether it did.
    fn happen(&mut self, number: usize, now: u64) -> Result<bool, AllocError>
        requires always { Unit {0} }
    {
        match self.scenario.steps.get(number) {
            Some(step) if step.at <= now => {
                let fault = step.fault;
                self.tell_fault(fault)?;
                self.world.happen(fault)?;
                Ok(true)
            }
            _ => Ok(false),
        }
    }

    // The faults whose time has come, from that number on; the number of the next one.
    fn happen_from(&mut self, number: usize, now: u64) -> Result<usize, AllocError>
        requires always { Unit {0} }
    {
        for next in number..self.scenario.steps.len() {
            if !self.happen(next, now)? {
                return Ok(next);
            }
        }
        Ok(self.scenario.steps.len())
    }

    // The faults, one after another.
    fn play_faults(&mut self) -> Result<(), AllocError>
        requires always { Unit {0} }
    {
        let mut next: usize = 0;
        for now in 0..self.scenario.calm {
            self.world.begin()?;
            next = self.happen_from(next, now.saturating_add(1))?;
            self.ask()?;
            self.world.end()?;
        }
        Ok(())
    }

    // Another millisecond, in which nothing comes from outside.
    fn wait(&mut self) -> Result<(), AllocError>
        requires always { Unit {0} }
    {
        self.world.begin()?;
        self.world.end()
    }

    // How long it may last after the last fault: without a majority nothing is waited for but who
    // lacks some of its saves, and where one is gone for good the others learn each slot anew for
    // which it voted.
    fn limit(&self, within: u64) -> u64 {
        if !self.world.can_settle() {
            WITHIN
        } else if self.world.found_count() > 0 {
            within.saturating_add(WITHOUT)
        } else {
            within
        }
    }

    // Whether it has lasted too long since the last fault.
    fn is_late(&self, within: u64) -> bool {
        self.world.now.saturating_sub(self.world.changed) > self.limit(within)
    }

    // Time passes until all is done; after how many milliseconds that is, if it ends in time.
    fn settle(&mut self, within: u64) -> Result<u64, AllocError>
        requires always { Unit {0} }
    {
        for passed in 0..within.saturating_add(WITHOUT).saturating_mul(4) {
            if self.world.is_settled(0) {
                return Ok(passed);
            }
            if self.is_late(within) {
                return Ok(u64::MAX);
            }
            self.wait()?;
        }
        Ok(u64::MAX)
    }

    // Within so many milliseconds that many forms are applied everywhere: each has the time of a
    // few letters, since one is chosen behind another.
    fn time_for(&self, forms: u64) -> u64 {
        let letters = forms.saturating_mul(EACH).saturating_add(FIRST);
        WITHIN.saturating_add(letters.saturating_mul(self.scenario.rest.most))
    }

    // All is done some time after the faults; whether it is. A last slot whose proposer ended
    // before others knew that it is chosen may wait for the next form.
    fn settle_calm(&mut self) -> Result<bool, AllocError>
        requires always { Unit {0} }
    {
        let within = self.time_for(self.world.waiting_form_count());
        self.times.calm = self.settle(within)?;
        if !self.world.can_settle() {
            return Ok(false);
        }
        if self.times.calm < u64::MAX || self.world.is_settled(1) {
            return Ok(true);
        }
        self.world.complain_of_rest(within)?;
        Ok(false)
    }

    // So many forms come to each member; all must be applied in time. After how many milliseconds
    // they are.
    fn settle_forms(&mut self, count: u64) -> Result<u64, AllocError>
        requires always { Unit {0} }
    {
        for _ in 0..count {
            self.world.submit_everywhere()?;
        }
        self.world.changed = self.world.now;
        let within = self.time_for(count.saturating_mul(self.world.count() as u64));
        let after = self.settle(within)?;
        if after == u64::MAX && self.world.can_settle() {
            self.world.complain_of_rest(within)?;
        }
        Ok(after)
    }

    // Nothing comes, for half of the time.
    fn rest(&mut self) -> Result<(), AllocError>
        requires always { Unit {0} }
    {
        for _ in 0..IDLE / 2 {
            self.wait()?;
        }
        Ok(())
    }

    // Nothing comes: after a second nothing more is chosen.
    fn idle(&mut self) -> Result<(), AllocError>
        requires always { Unit {0} }
    {
        self.rest()?;
        let before = self.world.judge.chosen_count();
        self.rest()?;
        if self.world.judge.chosen_count() != before {
            let text = format!(in self.alloc; "slots are chosen though nothing waits")?;
            self.world.judge.complain(text);
        }
        Ok(())
    }

    // Faults end, and more forms come.
    fn end(&mut self) -> Result<(), AllocError>
        requires always { Unit {0} }
    {
        self.world.calm(self.scenario.rest)?;
        if self.settle_calm()? {
            self.times.form = self.settle_forms(1)?;
            self.times.rush = self.settle_forms(self.scenario.rush)?;
            self.idle()?;
        }
        Ok(())
    }

    /// Plays all of it; whether all holds.
    pub fn play(&mut self) -> Result<bool, AllocError>
        requires always { Unit {0} }
    {
        self.play_faults()?;
        self.end()?;
        self.world.check_forms()?;
        self.world.check_disks()?;
        self.tell_outcome()?;
        self.tell_rest()?;
        self.tell_complaints()?;
        Ok(self.holds())
    }
}
