//! What is applied to a site.

ghost use Rattle.std.specs.Prelude.{◌≡◌, true, IfOk, OnErr};
ghost use Rattle.press_apply.specs.Copies.{is_command};

use crate::command::Stamped;
use press_text::{Copied, Moment};
use std::alloc::{AllocError, Global};

/// What is applied to a site: nothing but a moment, or a command.
#[derive(Debug, Drop)]
pub enum Value {
    Noop { at: Moment },
    Cmd(Stamped),
}

impl Value {
    /// A copy of the value. Of nothing but a moment this takes no memory.
    pub fn copy(&self, alloc: Global) -> Result<Value, AllocError>
        ensures same { IfOk result (λ v. v ≡ self.now) }
        ensures memory { OnErr result (is_command self.now ≡ true) }
    {
        match self {
            Value::Noop { at } => Ok(Value::Noop { at: *at }),
            Value::Cmd(stamped) => Ok(Value::Cmd(stamped.copy(alloc)?)),
        }
    }
}

impl Copied for Value {
    fn copy_in(&self, alloc: Global) -> Result<Value, AllocError> {
        self.copy(alloc)
    }
}
