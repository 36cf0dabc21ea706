ghost use Rattle.std.specs.Prelude.{◌≡◌, IfOk, Ok};
ghost use Rattle.press_callbacks.specs.declared.script.Turn.{Turn};
ghost use Rattle.press_callbacks.specs.Turns.{are_within, turn_of};

use crate::script::{CallIn, Op, Script, Turn};
use crate::sizes;
use press_text::CallbackId;
use std::alloc::AllocError;

/// A closure in a box that gives a callback's turns.
pub type BoxedTurns = Box<dyn Fn(&CallIn) -> Result<Turn, AllocError>>;

/// A callback whose closure is boxed: it may be called on every input, and what it gives is its
/// script's turn.
pub struct Stored {
    id: CallbackId,
    script: Script,
    call: BoxedTurns,
    ghost callable: { BoxedTurns.IsAlwaysCallable call },
    ghost plays: { (c : _) (t : Turn) → BoxedTurns.post call c (Ok t) → t ≡ turn_of script c.now },
}

impl Drop for Stored {
    fn drop(self) {
        let Stored {
            id: _,
            script: _,
            call: _,
        } = self;
    }
}

impl Stored {
    /// The closure may be called on every input, and each Ok that it gives is the script's turn.
    pub fn new(id: CallbackId, script: Script, call: BoxedTurns) -> Stored
        requires callable { IsAlwaysCallable call }
        requires plays { (c : _) (t : Turn) → post call c (Ok t) → t ≡ turn_of script c.now }
        ensures id { result.id ≡ id }
        ensures script { result.script ≡ script }
        ensures call { result.call ≡ call }
    {
        Stored { id, script, call }
    }

    /// The callback's name.
    pub fn id(&self) -> CallbackId
        ensures { result ≡ self.now.id }
    {
        self.id
    }

    pub(crate) fn id_in(&self) -> &CallbackId
        ensures { result.now ≡ self.now.id }
    {
        &self.id
    }

    pub(crate) fn id_bytes(&self) -> &[u8]
        ensures { result.now ≡ self.now.id }
    {
        self.id.as_bytes()
    }

    pub(crate) fn script_ops(&self) -> &[Op]
        ensures { result.now ≡ self.now.script }
    {
        self.script.as_slice()
    }

    /// Whether each text of the turn that is due on this input has at most so many bytes. No text
    /// is made.
    pub fn fits(&self, input: &CallIn, most: usize) -> bool
        ensures { result ≡ are_within most (turn_of self.now.script input.now) }
    {
        sizes::fits(self.script.as_slice(), input, most)
    }

    /// What the closure gives on this input; an Ok is the script's turn.
    pub fn turn(&self, input: &CallIn) -> Result<Turn, AllocError>
        ensures called { BoxedTurns.post self.now.call input.entry result }
        ensures turn { IfOk result (λ t. t ≡ turn_of self.now.script input.now) }
    {
        (self.call)(input)
    }
}
