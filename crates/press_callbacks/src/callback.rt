ghost use Rattle.std.specs.Prelude.{◌≡◌, IfOk};
ghost use Rattle.std.specs.Fn.{FnReturnsAt};
ghost use Rattle.press_callbacks.specs.Turns.{turn_of, PlaysScript};

use crate::script::{CallIn, Script, Turn};
use press_text::CallbackId;
use std::alloc::AllocError;

/// A closure beside the script that it plays. (No ghost field can cite an `Fn` bound, so the fact
/// is asked at each call.)
#[derive(Drop)]
pub struct Callback<F: Fn(&CallIn) -> Result<Turn, AllocError>> {
    id: CallbackId,
    script: Script,
    call: F,
}

impl<F: Fn(&CallIn) -> Result<Turn, AllocError>> Callback<F> {
    /// The closure may be called on every input, and each Ok that it gives is the script's turn.
    pub fn new(id: CallbackId, script: Script, call: F) -> Callback<F>
        requires callable { F.IsAlwaysCallable call }
        requires plays { PlaysScript (FnReturnsAt F.Fn call) script }
        ensures id { result.id ≡ id }
        ensures script { result.script ≡ script }
        ensures call { result.call ≡ call }
    {
        Callback { id, script, call }
    }

    /// The callback's name.
    pub fn id(&self) -> CallbackId
        ensures { result ≡ self.now.id }
    {
        self.id
    }

    /// What the closure gives on this input; an Ok is the script's turn.
    pub fn turn(&self, input: &CallIn) -> Result<Turn, AllocError>
        requires callable { F.IsAlwaysCallable self.now.call }
        requires plays { PlaysScript (FnReturnsAt F.Fn self.now.call) self.now.script }
        ensures called { FnReturnsAt F.Fn self.now.call input.now result }
        ensures turn { IfOk result (λ t. t ≡ turn_of self.now.script input.now) }
    {
        (self.call)(input)
    }
}
