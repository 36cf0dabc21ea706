//! What a store keeps, as a text.

use crate::lines::block_text;
use crate::note_asks::notes_text;
use crate::start_asks::{heard_line, saves_line};
use press_acceptor::{PromiseStore, StoreFault};
use press_store::{Owner, SqlStore, Tie};
use press_wire::{MemberId, Slot};
use sqlite::Alter;
use std::alloc::Global;

/// The block of a slot.
pub fn block_in<S: PromiseStore>(
    alloc: Global,
    store: &mut S,
    slot: u32,
) -> Result<String, StoreFault> {
    let Some(slot) = Slot::new(slot) else {
        return Ok(format!(in alloc; "no slot {slot}")?);
    };
    let first = slot.first();
    let block = store.load(first)?;
    Ok(block_text(alloc, first, &block)?)
}

// Whose the file is. A member asks for it only where it is a member's already, so that nothing is
// written.
fn whose<D: Alter>(
    store: &mut SqlStore<D>,
    member: Option<Owner>,
) -> Result<&'static str, StoreFault> {
    match store.tie(None)? {
        Tie::Own => Ok("nobody's"),
        Tie::Taken => Ok("taken by nobody"),
        Tie::Foreign => match store.tie(member)? {
            Tie::Own => Ok("the member's"),
            _ => Ok("another's"),
        },
    }
}

// What the file says of the starts 5 and 6, and of what was heard of member 2, where it has any.
fn starts_text<D: Alter>(alloc: Global, store: &mut SqlStore<D>) -> Result<String, StoreFault> {
    let mut text = String::new(alloc);
    for start in 5..7 {
        if let Some(saves) = store.saves_of(start)? {
            let line = saves_line(alloc, start, Some(saves))?;
            text.push_str("; ")?;
            text.push_str(line.as_str())?;
        }
    }
    if let Some(member) = MemberId::new(2) {
        if let Some(mark) = store.mark_of(member)? {
            let line = heard_line(alloc, member, Some(mark))?;
            text.push_str("; ")?;
            text.push_str(line.as_str())?;
        }
    }
    Ok(text)
}

/// The last round, whose the file is, the first two blocks, what is said of starts, and the notes.
pub fn kept_text<D: Alter>(
    alloc: Global,
    store: &mut SqlStore<D>,
    member: Option<Owner>,
) -> Result<String, StoreFault> {
    let round = store.last_round()?;
    let owner = whose(store, member)?;
    let first = block_in(alloc, store, 1)?;
    let second = block_in(alloc, store, 17)?;
    let starts = starts_text(alloc, store)?;
    let notes = notes_text(alloc, store)?;
    Ok(format!(in alloc; "round {round}, {owner}; {first}; {second}{starts}{notes}")?)
}

/// Whether there is a vote for slot 1.
pub fn has_voted<S: PromiseStore>(store: &mut S) -> bool {
    match Slot::new(1) {
        Some(slot) => match store.load(slot.first()) {
            Ok(block) => block.votes.get(slot).is_some(),
            Err(_) => false,
        },
        None => false,
    }
}
