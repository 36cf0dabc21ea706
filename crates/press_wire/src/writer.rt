//! Numbers, names and texts, each appended to bytes. Both encoders use it.
#![tactic(auto, using(crate::proofs::Lengths::regroup))]

ghost use Rattle.std.specs.Prelude.{◌≡◌, ◌≤◌, [], ◌∷◌, ◌++◌, length, OnOk, IfOk};
ghost use Rattle.press_text.specs.Names.{IsName};
ghost use Rattle.press_wire.specs.Spelling as spell;
ghost use Rattle.press_wire.specs.Spelling.{longest};

use crate::ballot::Ballot;
use press_text::{Moment, Name, OptName, Text};
use std::alloc::{AllocError, Global};
use std::marker::Model;

/// The bytes that are written so far. Nothing is said of them once memory ran out.
pub struct Writer {
    bytes: Vec<u8>,
}

impl Drop for Writer {
    fn drop(self) {
        let Writer { bytes: _ } = self;
    }
}

impl Model for Writer {
    ghost use Rattle.std.specs.Prelude.{ℕ, List};

    ghost Value = { List ℕ };

    ghost view = { λ w. w.bytes.items };
}

impl Writer {
    /// No bytes, and room for `room` of them.
    pub fn with_room(alloc: Global, room: usize) -> Result<Writer, AllocError>
        ensures { IfOk result (λ w. w ≡ []) }
    {
        let bytes = Vec::with_capacity(alloc, room)?;
        Ok(Writer { bytes })
    }

    pub fn into_bytes(self) -> Vec<u8>
        ensures { result.items ≡ self }
    {
        let Writer { bytes } = self;
        bytes
    }

    pub fn byte(&mut self, byte: u8) -> Result<(), AllocError>
        ensures { OnOk result (self.new ≡ self.old ++ byte ∷ []) }
    {
        self.bytes.push(byte)?;
        Ok(())
    }

    #[tactic(auto, unfolding(crate::specs::Spelling::number4))]
    pub fn number4(&mut self, n: u32) -> Result<(), AllocError>
        ensures { OnOk result (self.new ≡ self.old ++ spell.number4 n) }
    {
        self.bytes.extend_from_slice(&n.to_be_bytes())
    }

    #[tactic(auto, unfolding(crate::specs::Spelling::number8))]
    pub fn number8(&mut self, n: u64) -> Result<(), AllocError>
        ensures { OnOk result (self.new ≡ self.old ++ spell.number8 n) }
    {
        self.bytes.extend_from_slice(&n.to_be_bytes())
    }

    pub fn moment(&mut self, moment: Moment) -> Result<(), AllocError>
        ensures { OnOk result (self.new ≡ self.old ++ spell.number8 moment) }
    {
        self.number8(moment.seconds())
    }

    #[tactic(auto, using(crate::proofs::Lengths::regroup, crate::proofs::Lengths::name_is_short), unfolding(crate::specs::Spelling::name))]
    fn short(&mut self, text: &str) -> Result<(), AllocError>
        requires { IsName 32 text.now }
        ensures { OnOk result (self.new ≡ self.old ++ spell.name text.now) }
    {
        self.byte(text.len() as u8)?;
        self.bytes.extend_from_slice(text.as_bytes())
    }

    pub fn name(&mut self, name: &Name) -> Result<(), AllocError>
        ensures { OnOk result (self.new ≡ self.old ++ spell.name name.now) }
    {
        self.short(name.as_str())
    }

    pub fn option_name(&mut self, name: &OptName) -> Result<(), AllocError>
        ensures { OnOk result (self.new ≡ self.old ++ spell.name name.now) }
    {
        self.short(name.as_str())
    }

    #[tactic(auto, using(crate::proofs::Lengths::regroup), unfolding(crate::specs::Spelling::text))]
    pub fn text(&mut self, text: &Text) -> Result<(), AllocError>
        requires { length text.now ≤ longest }
        ensures { OnOk result (self.new ≡ self.old ++ spell.text text.now) }
    {
        let bytes = text.as_bytes();
        self.number4(bytes.len() as u32)?;
        self.bytes.extend_from_slice(bytes)
    }

    #[tactic(auto, using(crate::proofs::Lengths::regroup), unfolding(crate::specs::Spelling::ballot))]
    pub fn ballot(&mut self, ballot: Ballot) -> Result<(), AllocError>
        ensures { OnOk result (self.new ≡ self.old ++ spell.ballot ballot) }
    {
        self.number8(ballot.round.number())?;
        self.byte(ballot.node.number())
    }
}
