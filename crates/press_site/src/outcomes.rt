ghost use Rattle.std.specs.Prelude.{◌≡◌, ◌<◌, [], length, None, IfOk, OnOk, OnErr};
ghost use Rattle.press_site.specs.Outcomes.{outcome_of, with_outcome};

use crate::token::{Outcome, Token};
use std::alloc::{AllocError, Global};
use std::collections::BTreeMap;
use std::marker::Model;

/// What became of each command, by its token.
#[derive(Debug)]
pub struct Outcomes {
    alloc: Global,
    kept: BTreeMap<Token, Outcome>,
}

impl Drop for Outcomes {
    fn drop(self) {
        let Outcomes { alloc: _, kept: _ } = self;
    }
}

impl Model for Outcomes {
    ghost use Rattle.std.specs.Prelude.{List};
    ghost use Rattle.press_site.specs.declared.token.Token.{Token};
    ghost use Rattle.press_site.specs.declared.token.Outcome.{Outcome};

    ghost Value = { List (Token × Outcome) };

    ghost view = { λ o. o.kept.entries };
}

impl Outcomes {
    /// No outcomes, which takes no memory.
    pub fn new(alloc: Global) -> Outcomes
        ensures { result ≡ [] }
    {
        Outcomes {
            alloc,
            kept: BTreeMap::new(alloc),
        }
    }

    /// A copy of the outcomes. Without one this takes no memory.
    pub fn copy(&self) -> Result<Outcomes, AllocError>
        ensures same { IfOk result (λ o. o ≡ self.now) }
        ensures memory { OnErr result (0 < length self.now) }
    {
        if self.kept.is_empty() {
            return Ok(Outcomes::new(self.alloc));
        }
        let kept = self.kept.clone()?;
        Ok(Outcomes {
            alloc: self.alloc,
            kept,
        })
    }

    /// What became of the command with that token.
    pub fn result_of(&self, token: &Token) -> Option<Outcome>
        ensures { result ≡ outcome_of token.now self.now }
    {
        self.kept.get(token).copied()
    }

    /// Keeps what became of a command, in place of what is kept under its token. Only a token that
    /// has no outcome takes memory.
    pub fn keep(&mut self, token: Token, outcome: Outcome) -> Result<(), AllocError>
        ensures ok { OnOk result (self.new ≡ with_outcome token outcome self.old) }
        ensures err { OnErr result (self.new ≡ self.old) }
        ensures memory { OnErr result (outcome_of token self.old ≡ None) }
    {
        self.kept.insert(token, outcome)?;
        Ok(())
    }
}
