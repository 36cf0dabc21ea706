//! Closures that run out of memory at one of their calls.

ghost use Rattle.std.specs.Prelude.{◌≡◌, IfOk};
ghost use Rattle.press_callbacks.specs.Turns.{turn_of};

use press_callbacks::{CallIn, Script, Turn, script_turn};
use std::alloc::{AllocError, Global};
use std::cell::Cell;

/// Counts the calls of the closures of a kit, of which one runs out of memory.
#[derive(Drop)]
pub struct Fuse {
    calls: Cell<u64>,
    last: Cell<u64>,
}

impl Fuse {
    pub fn new() -> Fuse {
        Fuse {
            calls: Cell::new(0),
            last: Cell::new(0),
        }
    }

    /// Counts anew; the call of that number runs out of memory, and none for 0.
    pub fn set(&self, last: u64) {
        self.calls.set(0);
        self.last.set(last);
    }

    pub fn calls(&self) -> u64 {
        self.calls.get()
    }

    /// Whether a call ran out of memory, and no other came after it.
    pub fn is_blown(&self) -> bool {
        let last = self.last.get();
        last > 0 && last == self.calls.get()
    }

    /// Whether no call runs out of memory from now on.
    pub fn is_off(&self) -> bool {
        self.last.get() == 0
    }

    /// The script's turn, or out of memory.
    pub fn turn(&self, alloc: Global, script: &Script, input: &CallIn) -> Result<Turn, AllocError>
        ensures { IfOk result (λ t. t ≡ turn_of script.now input.now) }
    {
        self.calls.set(self.calls.get().saturating_add(1));
        if self.is_blown() {
            return Err(AllocError);
        }
        script_turn(alloc, script, input)
    }
}
