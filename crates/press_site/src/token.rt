//! Who sent a command, and what became of it.

ghost use Rattle.std.proofs.Common.{rules};
ghost use Rattle.std.specs.Cmp.{partial_order_from_own_ties};
ghost use Rattle.std.specs.Cmp.Rules.{comparing};
ghost use Rattle.std.specs.Cmp.Lexicographic.{slice_cmp, pointwise};
ghost use Rattle.std.specs.Ordering.{nat_cmp, on, then_cmp, as_partial_cmp, eq_of_both};
ghost use Rattle.std.specs.Prelude.{◌≡◌, ◌==◌, nat_eq};

use press_text::{Copied, Name};
use std::alloc::{AllocError, Global};
use std::cmp::Ordering;

/// Who sent a command, and the number that the sender gave it.
#[derive(Debug)]
pub struct Token {
    pub editor: Name,
    pub seq: u64,
}

impl Drop for Token {
    fn drop(self) {
        let Token { editor: _, seq: _ } = self;
    }
}

/// What became of a command: the id of the post that it is about, or 0; or the number of the fault
/// that refused it.
#[derive(Clone, Copy, Debug, PartialEq, Eq)]
pub enum Outcome {
    Done(u64),
    Refused(u8),
}

impl Clone for Token {
    ghost is_clone = { λ t u. u ≡ t };

    fn clone(&self) -> Result<Token, AllocError> {
        Ok(Token {
            editor: self.editor.clone()?,
            seq: self.seq,
        })
    }
}

impl PartialEq for Token {
    ghost eq = { eq_of_both (on (λ t. t.editor) (pointwise ◌==◌)) (on (λ t. t.seq) ◌==◌) };

    ghost laws = { Prim.search (comparing, rules) };

    fn eq(&self, other: &Token) -> bool {
        self.editor.as_str() == other.editor.as_str() && self.seq == other.seq
    }
}

impl Eq for Token {
    ghost laws = { Prim.search (comparing, rules) };
}

impl PartialOrd for Token {
    ghost partial_cmp = { as_partial_cmp (then_cmp
        (on (λ t. t.editor) (slice_cmp nat_cmp)) (on (λ t. t.seq) nat_cmp)) };

    ghost laws = { partial_order_from_own_ties
        (Prim.search (comparing, rules)) (Prim.search (comparing, rules)) };

    fn partial_cmp(&self, other: &Token) -> Option<Ordering> {
        Some(self.cmp(other))
    }
}

impl Ord for Token {
    ghost cmp = { then_cmp (on (λ t. t.editor) (slice_cmp nat_cmp)) (on (λ t. t.seq) nat_cmp) };

    ghost total = { Prim.search (comparing, rules) };

    ghost matches_partial_cmp = { Prim.search (comparing, rules) };

    ghost matches_eq = { Prim.search (comparing, rules) };

    fn cmp(&self, other: &Token) -> Ordering {
        self.editor
            .as_str()
            .cmp(other.editor.as_str())
            .then(self.seq.cmp(&other.seq))
    }
}

impl Copied for Token {
    fn copy_in(&self, alloc: Global) -> Result<Token, AllocError> {
        Ok(Token {
            editor: self.editor.copy(alloc)?,
            seq: self.seq,
        })
    }
}
