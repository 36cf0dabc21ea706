ghost use Rattle.std.specs.Prelude.{◌≡◌, IfOk};
ghost use Rattle.press_callbacks.specs.Turns.{turn_of};
ghost use Rattle.press_callbacks.specs.declared.script.Turn.TheVariants.{Return};
ghost use Rattle.press_callbacks.specs.Kits.{Scripts, scripts_in, script_of, script_at};
ghost use Rattle.press_run.specs.Run.{fits, or_empty};

use crate::out::MOST_BYTES;
use crate::texts;
use press_callbacks::{CallIn, Kit, Turn};
use press_text::CallbackId;
use std::alloc::{AllocError, Global};

/// What a run asks of a kit. (The proofs speak of a bound, and of no boxed closure.)
pub trait Callbacks {
    ghost scripts: { Self → Scripts };

    /// The place of the callback of that name, if it exists.
    fn place(&self, id: CallbackId) -> Option<usize>
        ensures { script_at result (scripts self.now) ≡ script_of id (scripts self.now) };

    /// Whether the texts of the turn that is due at a place are within the bytes. It is asked
    /// before they are made.
    fn fits(&self, place: Option<usize>, input: &CallIn) -> bool
        ensures { result
            ≡ fits (turn_of (or_empty (script_at place (scripts self.now))) input.now) };

    /// What the closure of the callback at a place gives; without a place, the value is returned.
    fn turn(&self, alloc: Global, place: Option<usize>, input: &CallIn) -> Result<Turn, AllocError>
        ensures { IfOk result (λ t. t
            ≡ turn_of (or_empty (script_at place (scripts self.now))) input.now) };
}

impl Callbacks for Kit {
    ghost scripts = { scripts_in };

    fn place(&self, id: CallbackId) -> Option<usize> {
        Kit::place(self, id)
    }

    fn fits(&self, place: Option<usize>, input: &CallIn) -> bool {
        let Some(place) = place else {
            return texts::is_short(&input.value);
        };
        match self.at(place) {
            Some(stored) => stored.fits(input, MOST_BYTES),
            None => texts::is_short(&input.value),
        }
    }

    fn turn(
        &self,
        alloc: Global,
        place: Option<usize>,
        input: &CallIn,
    ) -> Result<Turn, AllocError> {
        let Some(place) = place else {
            return return_input(alloc, input);
        };
        match self.at(place) {
            Some(stored) => stored.turn(input),
            None => return_input(alloc, input),
        }
    }
}

// The turn of a callback that the kit lacks.
#[inline(never)]
fn return_input(alloc: Global, input: &CallIn) -> Result<Turn, AllocError>
    ensures { IfOk result (λ t. t ≡ Return input.now.value) }
{
    Ok(Turn::Return(input.value.copy(alloc)?))
}
