//! What is asked of a store about starts, and the lines of the answers.

use press_acceptor::StoreFault;
use press_starts::{Mark, Sighting, Starts};
use press_store::{Notes, SqlStore};
use press_wire::MemberId;
use sqlite::Alter;
use std::alloc::{AllocError, Global};
use std::rc::Rc;

#[derive(Clone, Copy)]
pub enum StartAsk {
    // A start of that number begins.
    Begin(u64),
    // The start that runs.
    Mark,
    // The starts that the file has.
    Names,
    // How many saves the start of that number made.
    SavesOf(u64),
    // That mark is heard of that member, and noted.
    Hear(Sighting),
    // The last mark that was heard of that member.
    Heard(MemberId),
}

// The member of that number, and the start and the saves of its mark.
fn sighting_in(word: &str) -> Option<Sighting> {
    let (number, rest) = word.split_once(':')?;
    let (start, saves) = rest.split_once(':')?;
    Some(Sighting {
        member: MemberId::new(number.parse().ok()?)?,
        mark: Mark {
            start: start.parse().ok()?,
            saves: saves.parse().ok()?,
        },
    })
}

impl StartAsk {
    pub fn from_word(word: &str) -> Option<StartAsk> {
        if word == "mark" {
            return Some(StartAsk::Mark);
        }
        if word == "starts" {
            return Some(StartAsk::Names);
        }
        let (name, rest) = word.split_once('=')?;
        match name {
            "start" => Some(StartAsk::Begin(rest.parse().ok()?)),
            "of" => Some(StartAsk::SavesOf(rest.parse().ok()?)),
            "hear" => Some(StartAsk::Hear(sighting_in(rest)?)),
            "heard" => Some(StartAsk::Heard(MemberId::new(rest.parse().ok()?)?)),
            _ => None,
        }
    }
}

fn mark_line(alloc: Global, mark: Option<Mark>) -> Result<String, AllocError> {
    match mark {
        Some(Mark { start, saves }) => format!(in alloc; "start {start} runs, with {saves} saves"),
        None => String::from_str(alloc, "no start runs"),
    }
}

/// How many saves a start made, if the file has it.
pub fn saves_line(alloc: Global, start: u64, saves: Option<u64>) -> Result<String, AllocError> {
    match saves {
        Some(saves) => format!(in alloc; "start {start} made {saves} saves"),
        None => format!(in alloc; "no start {start}"),
    }
}

/// What was heard last of a member, if anything.
pub fn heard_line(
    alloc: Global,
    member: MemberId,
    mark: Option<Mark>,
) -> Result<String, AllocError> {
    let member = member.number();
    match mark {
        Some(Mark { start, saves }) => {
            format!(in alloc;
                "start {start} of member {member} was heard to have made {saves} saves"
            )
        }
        None => format!(in alloc; "nothing was heard of member {member}"),
    }
}

fn names_line(alloc: Global, names: &[u64]) -> Result<String, AllocError> {
    if names.is_empty() {
        return String::from_str(alloc, "the file has no start");
    }
    let mut text = String::from_str(alloc, "the file has the starts")?;
    for name in names.iter() {
        let one = format!(in alloc; " {name}")?;
        text.push_str(one.as_str())?;
    }
    Ok(text)
}

/// The answer; what is noted or begun is said to be.
pub fn answer_of_starts<D: Alter>(
    alloc: Global,
    store: &mut SqlStore<D>,
    notes: &Rc<Notes>,
    ask: StartAsk,
) -> Result<String, StoreFault> {
    let text = match ask {
        StartAsk::Begin(start) => {
            store.begin_start(start, notes.clone()?)?;
            format!(in alloc; "start {start} begins")
        }
        StartAsk::Mark => mark_line(alloc, store.mark()),
        StartAsk::Names => {
            let names = store.start_names()?;
            names_line(alloc, names.as_slice())
        }
        StartAsk::SavesOf(start) => saves_line(alloc, start, store.saves_of(start)?),
        StartAsk::Hear(sighting) => {
            notes.note(sighting);
            String::from_str(alloc, "it is noted")
        }
        StartAsk::Heard(member) => heard_line(alloc, member, store.mark_of(member)?),
    };
    Ok(text?)
}
