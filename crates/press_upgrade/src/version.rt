//! The names of versions: the first has a name as it is, and later ones a number behind it.

use crate::part::{Part, find};
use crate::piece::{Piece, is_given};
use press_text::MOST_NAME;
use std::alloc::{AllocError, Global};

/// The parts of the old kit and of the new one.
#[derive(Clone, Copy)]
pub struct Both<'k, T> {
    pub old: &'k [T],
    pub new: &'k [T],
}

// The name of the version of that number, within the bytes of a name.
fn version_name(alloc: Global, name: &str, number: usize) -> Result<String, AllocError> {
    let tail = format!(in alloc; "-{number}")?;
    let room = MOST_NAME.saturating_sub(tail.len());
    let front = name.get(..room).unwrap_or(name);
    format!(in alloc; "{front}{tail}")
}

fn has<T: Part>(parts: &[T], name: &str) -> bool {
    find(parts, name.as_bytes()).is_some()
}

impl<'k, T: Part> Both<'k, T> {
    fn have(&self, name: &str) -> bool {
        has(self.old, name) || has(self.new, name)
    }

    // The number of the last version that there may be, and one more.
    fn past_last(&self) -> usize {
        self.old
            .len()
            .saturating_add(self.new.len())
            .saturating_add(3)
    }

    /// The latest version of that name in the old kit; a name that the new one has itself is no
    /// version of another.
    pub fn latest_name(&self, alloc: Global, name: &str) -> Result<String, AllocError> {
        let mut latest = String::from_str(alloc, name)?;
        for number in 2..self.past_last() {
            let version = version_name(alloc, name, number)?;
            if !has(self.old, &version) {
                return Ok(latest);
            }
            if !has(self.new, &version) {
                latest = version;
            }
        }
        Ok(latest)
    }

    /// The first version of that name that neither kit has, nor any piece.
    pub fn free_name(
        &self,
        alloc: Global,
        name: &str,
        pieces: &[Piece<'_>],
    ) -> Result<Option<String>, AllocError> {
        if !has(self.old, name) {
            return Ok(Some(String::from_str(alloc, name)?));
        }
        for number in 2..self.past_last() {
            let version = version_name(alloc, name, number)?;
            if !self.have(&version) && !is_given(pieces, &version) {
                return Ok(Some(version));
            }
        }
        Ok(None)
    }
}
