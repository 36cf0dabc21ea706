//! What is run again and again, over closures of which the first, the second, and so on runs out of
//! memory.

use press_fakes::Fuse;
use std::alloc::{AllocError, Global};

/// What a run gives: what is printed of it, and all that is compared.
#[derive(Drop)]
pub struct Answer {
    pub told: String,
    pub whole: Vec<u8>,
}

impl Answer {
    fn is(&self, other: &Answer) -> bool {
        self.told.as_str() == other.told.as_str() && self.whole.as_slice() == other.whole.as_slice()
    }
}

/// How a run ends.
#[derive(Drop)]
pub enum Came {
    /// A closure ran out of memory, no other was called after it, and what had been there was
    /// there. What it gave then, with ample memory.
    Wanted(Answer),
    Gave(Answer),
    /// A closure ran out of memory, and something else was seen.
    Otherwise,
}

impl Came {
    // Whether a closure ran out of memory, and what the run then gave is this.
    fn gives_again(&self, ample: &Answer) -> bool {
        match self {
            Came::Wanted(again) => again.is(ample),
            _ => false,
        }
    }
}

// How many calls a run has, and how many of them can run out of memory with nothing else changed.
#[derive(Clone, Copy)]
struct Calls {
    all: u64,
    refused: u64,
}

// The line of a run.
fn run_line(alloc: Global, what: &str, ample: &Answer, calls: Calls) -> Result<String, AllocError> {
    let (told, Calls { all, refused }) = (ample.told.as_str(), calls);
    format!(in alloc; "{what}: {told}; {refused} of {all} calls refused\n")
}

// The line of a run that gave nothing with ample memory.
fn no_answer_line(alloc: Global, what: &str) -> Result<String, AllocError> {
    format!(in alloc; "{what}: no answer\n")
}

/// A run that can be done again from where it begins.
pub trait Runs {
    /// Runs over closures of which the call of that number runs out of memory, none for 0.
    fn run(&mut self, fuse: &Fuse, at: u64) -> anyhow::Result<Came>
        requires always { Unit {0} };
}

/// The line of a run: what it gives, and how many of its calls can run out of memory with nothing
/// else changed.
pub fn refused_at_each<R: Runs>(
    alloc: Global,
    fuse: &Fuse,
    what: &str,
    runs: &mut R,
) -> anyhow::Result<String>
    requires always { Unit {0} }
{
    let Came::Gave(ample) = runs.run(fuse, 0)? else {
        return Ok(no_answer_line(alloc, what)?);
    };
    let all = fuse.calls();
    let mut refused = 0u64;
    for at in 1..=all {
        if runs.run(fuse, at)?.gives_again(&ample) {
            refused = refused.saturating_add(1);
        }
    }
    Ok(run_line(alloc, what, &ample, Calls { all, refused })?)
}
