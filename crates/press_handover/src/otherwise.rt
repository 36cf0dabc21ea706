//! An outcome that comes out otherwise over another kit, in words.

ghost use Rattle.std.specs.Prelude.{◌≡◌, IfOk, string_bytes};
ghost use Rattle.press_handover.specs.Handovers as spec;

use press_site::{Outcome, Token};
use std::alloc::{AllocError, Global};

/// A command whose outcome was another before.
#[derive(Debug, Drop)]
pub struct Otherwise {
    pub token: Token,
    pub before: Outcome,
    pub after: Outcome,
}

fn outcome_text(alloc: Global, outcome: Outcome) -> Result<String, AllocError>
    ensures { IfOk result (λ t. string_bytes t ≡ spec.outcome_text outcome) }
{
    match outcome {
        Outcome::Done(id) => format!(in alloc; "{{\"done\":{id}}}"),
        Outcome::Refused(number) => format!(in alloc; "{{\"refused\":{number}}}"),
    }
}

impl Otherwise {
    /// A line with the token, and what it was and is.
    #[tactic(auto, unfolding(crate::specs::Handovers::otherwise_line))]
    pub fn line(&self, alloc: Global) -> Result<String, AllocError>
        ensures { IfOk result (λ t. string_bytes t ≡ spec.otherwise_line self.now) }
    {
        let before = outcome_text(alloc, self.before)?;
        let after = outcome_text(alloc, self.after)?;
        let (editor, seq) = (self.token.editor.as_str(), self.token.seq);
        format!(in alloc; "press: {editor}/{seq} was {before}, is {after}\n")
    }
}
