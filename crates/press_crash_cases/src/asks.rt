//! What is asked of a store, and the lines of the answers.

use crate::kept::block_in;
use crate::note_asks::{NoteAsk, answer_of_notes};
use crate::numbered::{promise_of, vote_of};
use crate::start_asks::{StartAsk, answer_of_starts};
use crate::words::number_behind;
use press_acceptor::{PromiseStore, StoreFault};
use press_store::{Notes, Owner, SqlStore, Tie};
use press_wire::{MemberId, Round, Slot};
use sqlite::Alter;
use std::alloc::{AllocError, Global};
use std::rc::Rc;

#[derive(Clone, Copy)]
enum Ask {
    LastRound,
    // The last slot with a vote.
    LastVote,
    SaveRound(u64),
    // The block of a slot.
    Load(u32),
    // A promise of that round is saved for the block of the slot.
    Promise(u32, u64),
    // A vote of that round is saved for the slot.
    Save(u32, u64),
    // A member asks for the file, or a node by itself.
    Tie(Option<Owner>),
    OfStarts(StartAsk),
}

// The member of that number, count and digest; `none` is a node by itself.
fn owner_in(word: &str) -> Option<Option<Owner>> {
    if word == "none" {
        return Some(None);
    }
    let (number, rest) = word.split_once(':')?;
    let (members, peers) = rest.split_once(':')?;
    Some(Some(Owner {
        number: MemberId::new(number.parse().ok()?)?,
        members: members.parse().ok()?,
        peers: peers.parse().ok()?,
    }))
}

// The numbers of a slot and a round.
fn numbers_in(word: &str) -> Option<(u32, u64)> {
    let (slot, round) = word.split_once(':')?;
    Some((slot.parse().ok()?, round.parse().ok()?))
}

impl Ask {
    fn from_word(word: &str) -> Option<Ask> {
        if word == "last" {
            return Some(Ask::LastRound);
        }
        if word == "vote" {
            return Some(Ask::LastVote);
        }
        if let Some(number) = number_behind("round=", word) {
            return Some(Ask::SaveRound(u64::from(number)));
        }
        if let Some(number) = number_behind("load=", word) {
            return Some(Ask::Load(number));
        }
        if let Some(rest) = word.strip_prefix("own=") {
            return Some(Ask::Tie(owner_in(rest)?));
        }
        if let Some(ask) = StartAsk::from_word(word) {
            return Some(Ask::OfStarts(ask));
        }
        if let Some(rest) = word.strip_prefix("promise=") {
            let (slot, round) = numbers_in(rest)?;
            return Some(Ask::Promise(slot, round));
        }
        let (slot, round) = numbers_in(word.strip_prefix("save=")?)?;
        Some(Ask::Save(slot, round))
    }
}

/// The member that the first of these words asks the file for.
pub fn owner_among(words: &[&str]) -> Option<Owner> {
    for word in words.iter() {
        if let Some(rest) = word.strip_prefix("own=") {
            return owner_in(rest)?;
        }
    }
    None
}

fn save<S: PromiseStore>(store: &mut S, slot: u32, round: u64) -> Result<(), StoreFault> {
    match (Slot::new(slot), vote_of(round)) {
        (Some(slot), Some(vote)) => store.save_vote(slot, &vote),
        _ => Ok(()),
    }
}

fn promise<S: PromiseStore>(store: &mut S, slot: u32, round: u64) -> Result<(), StoreFault> {
    match (Slot::new(slot), promise_of(round)) {
        (Some(slot), Some(ballot)) => store.save_promise(slot.first(), ballot),
        _ => Ok(()),
    }
}

fn save_round<S: PromiseStore>(store: &mut S, round: u64) -> Result<(), StoreFault> {
    match Round::new(round) {
        Some(round) => store.save_round(round),
        None => Ok(()),
    }
}

fn vote_line(alloc: Global, last: Option<Slot>) -> Result<String, AllocError> {
    match last {
        Some(slot) => {
            let slot = slot.number();
            format!(in alloc; "last vote in slot {slot}")
        }
        None => String::from_str(alloc, "no slot has a vote"),
    }
}

fn tie_line(tie: Tie) -> &'static str {
    match tie {
        Tie::Own => "the file is its own",
        Tie::Taken => "the file is taken",
        Tie::Foreign => "the file is another's",
    }
}

// The answer; what is saved is said to be.
fn answer<D: Alter>(
    alloc: Global,
    store: &mut SqlStore<D>,
    notes: &Rc<Notes>,
    ask: Ask,
) -> Result<String, StoreFault> {
    let text = match ask {
        Ask::OfStarts(ask) => return answer_of_starts(alloc, store, notes, ask),
        Ask::LastVote => vote_line(alloc, store.last_vote()?),
        Ask::LastRound => {
            let round = store.last_round()?;
            format!(in alloc; "last round {round}")
        }
        Ask::SaveRound(round) => {
            save_round(store, round)?;
            format!(in alloc; "round {round} is saved")
        }
        Ask::Load(slot) => return block_in(alloc, store, slot),
        Ask::Promise(slot, round) => {
            promise(store, slot, round)?;
            format!(in alloc; "the block of slot {slot} is promised")
        }
        Ask::Tie(asking) => String::from_str(alloc, tie_line(store.tie(asking)?)),
        Ask::Save(slot, round) => {
            save(store, slot, round)?;
            format!(in alloc; "slot {slot} is saved")
        }
    };
    Ok(text?)
}

/// Asks by a word, and returns the answer: `last`, `vote`, `round=N`, `load=SLOT`,
/// `promise=SLOT:ROUND`, `save=SLOT:ROUND`, `own=NUMBER:MEMBERS:PEERS`, `own=none`, `start=N`,
/// `mark`, `starts`, `of=N`, `hear=MEMBER:START:SAVES`, `heard=MEMBER`, `note=NAME:TEXT`,
/// `noted=NAME`. None for any other word.
pub fn answer_to<D: Alter>(
    alloc: Global,
    store: &mut SqlStore<D>,
    notes: &Rc<Notes>,
    word: &str,
) -> Option<Result<String, StoreFault>> {
    if let Some(ask) = NoteAsk::from_word(word) {
        return Some(answer_of_notes(alloc, store, ask));
    }
    let ask = Ask::from_word(word)?;
    Some(answer(alloc, store, notes, ask))
}

/// Saves this many times a round, and a vote for one of a thousand slots.
pub fn save_often<S: PromiseStore>(store: &mut S, count: u32) -> Result<(), StoreFault> {
    for number in 0..count {
        let round = u64::from(number) + 1;
        save_round(store, round)?;
        save(store, 1 + number % 1_000, round)?;
    }
    Ok(())
}
