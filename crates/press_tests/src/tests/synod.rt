use press_apply::{Command, Stamped, Value};
use press_site::Token;
use press_text::{Moment, Name};
use press_wire::{Ballot, MemberId, Round, Slot};
use std::alloc::Global;
use std::test::Fail;

pub fn node(number: u8) -> Result<MemberId, Fail> {
    Ok(MemberId::new(number).ok_or("no node")?)
}

pub fn round(number: u64) -> Result<Round, Fail> {
    Ok(Round::new(number).ok_or("no round")?)
}

pub fn ballot(round_number: u64, number: u8) -> Result<Ballot, Fail> {
    Ok(Ballot {
        round: round(round_number)?,
        node: node(number)?,
    })
}

pub fn slot() -> Result<Slot, Fail> {
    Ok(Slot::new(1).ok_or("no slot")?)
}

pub fn noop() -> Value {
    Value::Noop { at: Moment::zero() }
}

pub fn tick(alloc: Global, seq: u64) -> Result<Stamped, Fail> {
    Ok(Stamped {
        token: Token {
            editor: Name::new(alloc, "ann")?,
            seq,
        },
        at: Moment::zero(),
        command: Command::Tick,
    })
}
