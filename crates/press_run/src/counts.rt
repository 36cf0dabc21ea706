ghost use Rattle.std.specs.Prelude.{◌≡◌, ◌++◌, ◌∷◌, [], None, true, IfOk, OnOk, ltb};
ghost use Rattle.press_run.specs.Counts.{no_counts};
ghost use Rattle.press_run.specs.Run.{answer_of, most_turns, without_last};
ghost use Rattle.press_run.specs.Outcome.{CountsTurn, machine, state_of};

use crate::answers::{count_of, decimal, decimal_or_empty, has_hook, one_if, or_no_text};
use press_callbacks::{Ask, Tables};
use press_site::Site;
use press_text::{HookName, Text, copy_all};
use std::alloc::{AllocError, Global};
use std::marker::Model;

/// How many turns one page or command may play.
pub const MOST_TURNS: u32 = 10_000;

/// What one boot counts: the starts of actions, the hooks that are running, and the turns played.
#[derive(Debug)]
pub struct Counts {
    alloc: Global,
    did: Vec<HookName>,
    doing: Vec<HookName>,
    turns: u32,
}

impl Drop for Counts {
    fn drop(self) {
        let Counts {
            alloc: _,
            did: _,
            doing: _,
            turns: _,
        } = self;
    }
}

impl Model for Counts {
    ghost use Rattle.press_run.specs.Counts.{Counts};

    ghost Value = { Counts };

    ghost view = { λ m. record { did = m.did.items; doing = m.doing.items; turns = m.turns } };
}

impl Counts {
    /// Nothing counted yet; takes no memory.
    pub fn new(alloc: Global) -> Counts
        ensures { result ≡ no_counts }
    {
        Counts {
            alloc,
            did: Vec::new(alloc),
            doing: Vec::new(alloc),
            turns: 0,
        }
    }

    /// A copy of the counts.
    pub fn copy(&self) -> Result<Counts, AllocError>
        ensures { IfOk result (λ m. m ≡ self.now) }
    {
        Ok(Counts {
            alloc: self.alloc,
            did: copy_all(self.alloc, self.did.as_slice())?,
            doing: copy_all(self.alloc, self.doing.as_slice())?,
            turns: self.turns,
        })
    }

    /// Where its counts take memory from.
    pub(crate) fn allocator(&self) -> Global {
        self.alloc
    }

    /// Whether one more turn is within the turns.
    pub(crate) fn has_turns(&self) -> bool
        ensures { result ≡ ltb self.now.turns most_turns }
    {
        self.turns < MOST_TURNS
    }

    /// Counts a turn, where it is within the turns.
    pub(crate) fn take_turn(&mut self) -> bool
        ensures { CountsTurn self.old self.new result }
    {
        if self.turns >= MOST_TURNS {
            return false;
        }
        self.turns += 1;
        true
    }

    /// Counts a turn that is within the turns.
    pub(crate) fn add_turn(&mut self)
        requires { ltb self.old.turns most_turns ≡ true }
        ensures { CountsTurn self.old self.new true }
    {
        self.turns += 1;
    }

    /// Counts the start of an action.
    pub(crate) fn start(&mut self, hook: &HookName) -> Result<(), AllocError>
        ensures { OnOk result (self.new
            ≡ record self.old { did = self.old.did ++ hook.now ∷ [] }) }
    {
        self.did.push(hook.copy(self.alloc)?)?;
        Ok(())
    }

    /// Puts a hook on the stack of running hooks.
    pub(crate) fn enter(&mut self, hook: &HookName) -> Result<(), AllocError>
        ensures { OnOk result (self.new
            ≡ record self.old { doing = self.old.doing ++ hook.now ∷ [] }) }
    {
        self.doing.push(hook.copy(self.alloc)?)?;
        Ok(())
    }

    /// Takes the last hook off the stack of running hooks.
    pub(crate) fn leave(&mut self)
        ensures { self.new ≡ record self.old { doing = without_last self.old.doing } }
    {
        self.doing.pop();
    }

    /// The answer to a question.
    pub(crate) fn answer(&self, tables: &Tables, site: &Site, ask: &Ask) -> Result<Text, AllocError>
        ensures { IfOk result (λ t. t
            ≡ answer_of ask.now (state_of (machine tables.now self.now site.now None []))) }
    {
        let alloc = self.alloc;
        match ask {
            Ask::Did(hook) => decimal(alloc, count_of(self.did.as_slice(), hook)),
            Ask::Doing(hook) => one_if(alloc, has_hook(self.doing.as_slice(), hook)),
            Ask::Has(hook, callback) => decimal_or_empty(alloc, tables.hooks.has(hook, *callback)),
            Ask::Option(name) => or_no_text(alloc, site.option(name)),
            Ask::Tag(tag) => one_if(alloc, tables.tags.get(tag.as_str()).is_some()),
        }
    }
}
