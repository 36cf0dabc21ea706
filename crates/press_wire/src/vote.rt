ghost use Rattle.std.specs.Prelude.{◌≡◌, true, IfOk, OnErr};
ghost use Rattle.press_apply.specs.Copies.{is_command};

use crate::ballot::Ballot;
use press_apply::Value;
use press_text::Copied;
use std::alloc::{AllocError, Global};

/// A vote for a value in a ballot.
#[derive(Debug)]
pub struct Vote {
    pub ballot: Ballot,
    pub value: Value,
}

impl Drop for Vote {
    fn drop(self) {
        let Vote {
            ballot: _,
            value: _,
        } = self;
    }
}

impl Vote {
    /// A copy of the vote. Of one for a value without a command this takes no memory.
    pub fn copy(&self, alloc: Global) -> Result<Vote, AllocError>
        ensures same { IfOk result (λ v. v ≡ self.now) }
        ensures memory { OnErr result (is_command self.now.value ≡ true) }
    {
        Ok(Vote {
            ballot: self.ballot,
            value: self.value.copy(alloc)?,
        })
    }
}

impl Copied for Vote {
    fn copy_in(&self, alloc: Global) -> Result<Vote, AllocError> {
        self.copy(alloc)
    }
}
