ghost use Rattle.std.specs.Prelude.{◌≡◌, ◌<◌, [], length, IfOk, OnErr, string_bytes};
ghost use Rattle.press_run.specs.Outcome.{Pushes};

use crate::run_fault::RunFault;
use std::alloc::{AllocError, Global};
use std::marker::Model;

/// How many bytes a text, an output or a body of a page may have.
pub const MOST_BYTES: usize = 1_048_576;

/// What a page or a command has written so far: at most 1,048,576 bytes.
#[derive(Debug)]
pub struct Out {
    text: String,
}

impl Drop for Out {
    fn drop(self) {
        let Out { text: _ } = self;
    }
}

impl Model for Out {
    ghost use Rattle.std.specs.Prelude.{ℕ, List, ◌≤◌, length, string_bytes};

    ghost Value = { List ℕ };

    ghost view = { λ o. string_bytes o.text };

    ghost invariant = { λ o. length (string_bytes o.text) ≤ 1048576 };
}

impl Out {
    /// Takes no memory.
    pub fn new(alloc: Global) -> Out
        ensures { result ≡ [] }
    {
        Out {
            text: String::new(alloc),
        }
    }

    /// A copy of the output. Of an empty one this takes no memory.
    pub fn copy(&self, alloc: Global) -> Result<Out, AllocError>
        ensures same { IfOk result (λ o. o ≡ self.now) }
        ensures memory { OnErr result (0 < length self.now) }
    {
        if self.text.is_empty() {
            return Ok(Out::new(alloc));
        }
        Ok(Out {
            text: String::from_str(alloc, self.text.as_str())?,
        })
    }

    /// Limit where the text would pass 1,048,576 bytes; after a fault the output is as it was.
    pub fn push(&mut self, text: &str) -> Result<(), RunFault>
        ensures { Pushes self.old text.now self.new result }
    {
        if text.len() > MOST_BYTES - self.text.len() {
            return Err(RunFault::Limit);
        }
        self.text.push_str(text)?;
        Ok(())
    }

    pub fn as_str(&self) -> &str
        ensures { result.now ≡ self.now }
    {
        self.text.as_str()
    }

    /// Takes no memory.
    pub fn into_text(self) -> String
        ensures { string_bytes result ≡ self }
    {
        let Out { text } = self;
        text
    }
}
