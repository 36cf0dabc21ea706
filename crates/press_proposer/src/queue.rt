//! Commands that wait to be chosen.

ghost use Rattle.std.specs.Prelude.{◌≡◌, ◌++◌, ◌∷◌, [], OnOk, OnErr, ◌<◌, IfOk, IfSome, length, position};
ghost use Rattle.press_apply.specs.Same.{is_same_value};
ghost use Rattle.press_apply.specs.declared.value.Value.TheVariants.{Cmd};
ghost use Rattle.press_proposer.specs.Queues.{is_empty, is_full, first_of, without};

use press_apply::{Stamped, Value};
use press_text::Moment;
use std::alloc::{AllocError, Global};
use std::marker::Model;

// The most commands that wait.
const MOST_COMMANDS: usize = 256;

/// Commands that wait to be chosen, in the order in which they came.
#[derive(Debug)]
pub struct Queue {
    commands: Vec<Stamped>,
}

impl Drop for Queue {
    fn drop(self) {
        let Queue { commands: _ } = self;
    }
}

impl Model for Queue {
    ghost use Rattle.std.specs.Prelude.{List};
    ghost use Rattle.press_apply.specs.declared.command.Stamped.{Stamped};

    ghost Value = { List Stamped };

    ghost view = { λ q. q.commands.items };
}

impl Queue {
    pub fn new(alloc: Global) -> Queue
        ensures { result ≡ [] }
    {
        Queue {
            commands: Vec::new(alloc),
        }
    }

    pub fn is_empty(&self) -> bool
        ensures { result ≡ is_empty self.now }
    {
        self.commands.is_empty()
    }

    pub fn len(&self) -> usize
        ensures { result ≡ length self.now }
    {
        self.commands.len()
    }

    pub fn is_full(&self) -> bool
        ensures { result ≡ is_full self.now }
    {
        MOST_COMMANDS <= self.commands.len()
    }

    /// Puts the command at the end.
    pub fn push(&mut self, command: Stamped) -> Result<(), AllocError>
        ensures pushed { OnOk result (self.new ≡ self.old ++ command ∷ []) }
        ensures unchanged { OnErr result (self.new ≡ self.old) }
    {
        self.commands.push(command)?;
        Ok(())
    }

    /// What is to be proposed where nobody voted yet: the first command, or a value that does
    /// nothing.
    pub fn first_value(&self, alloc: Global) -> Result<Value, AllocError>
        ensures { IfOk result (λ value. value ≡ first_of self.now) }
    {
        match self.commands.first() {
            Some(command) => Ok(Value::Cmd(command.copy(alloc)?)),
            None => Ok(Value::Noop { at: Moment::zero() }),
        }
    }

    /// Takes the first command out that is the value.
    pub fn remove(&mut self, value: &Value)
        ensures { self.new ≡ without value.now self.old }
    {
        if let Some(place) = place_of(&self.commands, value) {
            drop(self.commands.remove(place));
        }
    }
}

// The first command that is the value.
fn place_of(commands: &[Stamped], value: &Value) -> Option<usize>
    ensures place { result ≡ position (λ command.
        is_same_value (Cmd command) value.now) commands.now }
    ensures within { IfSome result (λ place. place < length commands.now) }
{
    commands.iter().position(|command| is_value(command, value))
}

// Whether the command is the value.
fn is_value(command: &Stamped, value: &Value) -> bool
    ensures { result ≡ is_same_value (Cmd command.now) value.now }
{
    match value {
        Value::Noop { .. } => false,
        Value::Cmd(other) => command.is(other),
    }
}
