//! What is asked of a store about its notes, and the lines of the answers.

use press_acceptor::StoreFault;
use press_store::{Note, SqlStore};
use sqlite::Alter;
use std::alloc::{AllocError, Global};
use std::str::from_utf8;

#[derive(Clone, Copy)]
pub enum NoteAsk<'w> {
    // That text is noted.
    Put(Note, &'w str),
    // What is noted.
    Get(Note),
}

fn note_of(name: &str) -> Option<Note> {
    match name {
        "kit" => Some(Note::Kit),
        "parts" => Some(Note::Parts),
        "peers" => Some(Note::Peers),
        "alone" => Some(Note::Alone),
        _ => None,
    }
}

fn name_of(which: Note) -> &'static str {
    match which {
        Note::Kit => "kit",
        Note::Parts => "parts",
        Note::Peers => "peers",
        Note::Alone => "alone",
    }
}

impl<'w> NoteAsk<'w> {
    pub fn from_word(word: &'w str) -> Option<NoteAsk<'w>> {
        if let Some(name) = word.strip_prefix("noted=") {
            return Some(NoteAsk::Get(note_of(name)?));
        }
        let (name, text) = word.strip_prefix("note=")?.split_once(':')?;
        Some(NoteAsk::Put(note_of(name)?, text))
    }
}

fn note_line(alloc: Global, which: Note, found: &[u8]) -> Result<String, AllocError> {
    let name = name_of(which);
    match from_utf8(found) {
        Ok(text) => format!(in alloc; "{name} is noted as '{text}'"),
        Err(_) => format!(in alloc; "{name} is noted as no text"),
    }
}

/// The answer; what is noted is said to be.
pub fn answer_of_notes<D: Alter>(
    alloc: Global,
    store: &mut SqlStore<D>,
    ask: NoteAsk<'_>,
) -> Result<String, StoreFault> {
    match ask {
        NoteAsk::Put(which, text) => {
            store.put_note(which, text.as_bytes())?;
            Ok(note_line(alloc, which, text.as_bytes())?)
        }
        NoteAsk::Get(which) => match store.note(which)? {
            Some(found) => Ok(note_line(alloc, which, &found)?),
            None => {
                let name = name_of(which);
                Ok(format!(in alloc; "{name} is not noted")?)
            }
        },
    }
}

/// What is noted of the kit and its parts, where anything is.
pub fn notes_text<D: Alter>(alloc: Global, store: &mut SqlStore<D>) -> Result<String, StoreFault> {
    let mut text = String::new(alloc);
    for which in [Note::Kit, Note::Parts] {
        if let Some(found) = store.note(which)? {
            let line = note_line(alloc, which, &found)?;
            text.push_str("; ")?;
            text.push_str(line.as_str())?;
        }
    }
    Ok(text)
}
