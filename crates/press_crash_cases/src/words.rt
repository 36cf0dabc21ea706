use std::alloc::{AllocError, Global};

/// The number after a name.
pub fn number_behind(name: &str, word: &str) -> Option<u32> {
    word.strip_prefix(name)?.parse().ok()
}

/// What a scene is about.
#[derive(Clone, Copy)]
pub enum Start {
    /// A store over files in memory.
    Store,
    /// A store in a file.
    File,
    /// Stops of a store, at each call.
    Stops,
    /// So many saves in the file `saves.db`, for measuring.
    Saves(u32),
}

impl Start {
    pub fn from_word(word: &str) -> Option<Start> {
        if word.starts_with("stops") {
            return Some(Start::Stops);
        }
        if word.starts_with("store") && word.ends_with("-file") {
            return Some(Start::File);
        }
        if word.starts_with("store") {
            return Some(Start::Store);
        }
        Some(Start::Saves(number_behind("saves=", word)?))
    }
}

/// The words of a store from one adoption to the next, behind the SQL that is run before it.
#[derive(Drop)]
pub struct Session<'w> {
    pub tables: Vec<&'w str>,
    pub words: Vec<&'w str>,
}

impl<'w> Session<'w> {
    fn new(alloc: Global) -> Session<'w> {
        Session {
            tables: Vec::new(alloc),
            words: Vec::new(alloc),
        }
    }

    fn push(&mut self, word: &'w str) -> Result<(), AllocError> {
        match word.strip_prefix("sql=") {
            Some(text) => self.tables.push(text)?,
            None => self.words.push(word)?,
        }
        Ok(())
    }
}

/// A beginning, and what is asked of its store: after `again` by another one over the same
/// database.
#[derive(Drop)]
pub struct Scene<'w> {
    pub name: &'w str,
    pub start: Start,
    pub sessions: Vec<Session<'w>>,
}

impl<'w> Scene<'w> {
    pub fn new(alloc: Global, name: &'w str, start: Start) -> Result<Scene<'w>, AllocError> {
        let mut sessions = Vec::new(alloc);
        sessions.push(Session::new(alloc))?;
        Ok(Scene {
            name,
            start,
            sessions,
        })
    }

    pub fn push(&mut self, alloc: Global, word: &'w str) -> Result<(), AllocError> {
        if word == "again" {
            self.sessions.push(Session::new(alloc))?;
        } else if let Some(session) = self.sessions.last_mut() {
            session.push(word)?;
        }
        Ok(())
    }
}
