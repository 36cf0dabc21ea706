//! The first bytes of a reply.

ghost use Rattle.std.specs.Prelude.{◌≡◌, ◌↔◌, ℕ, [], None, IfSome, IsTrue};
ghost use Rattle.press_http.specs.StatusLine.{SaysStatus};
ghost use Rattle.press_loop.specs.Carrying.{with_more};

use press_http::{FRONT_LEN, status_of_reply};
use std::marker::Model;

/// What is kept of a reply: its first bytes, up to the status. Contracts see it as their list.
#[derive(Drop)]
pub struct Front {
    bytes: [u8; FRONT_LEN],
    count: usize,
}

impl Model for Front {
    ghost use Rattle.std.specs.Prelude.{ℕ, ◌≤◌, List, take};
    ghost use Rattle.press_http.specs.StatusLine.{front_length};

    ghost Value = { List ℕ };

    ghost view = { λ f. take f.count f.bytes };

    ghost invariant = { λ f. f.count ≤ front_length };
}

impl Front {
    /// That of a reply of which nothing came.
    pub fn new() -> Front
        ensures { result ≡ [] }
    {
        Front {
            bytes: [0; FRONT_LEN],
            count: 0,
        }
    }

    /// Keeps what more came of the reply, as far as there is room.
    pub fn keep(&mut self, bytes: &[u8])
        ensures { self.new ≡ with_more self.old bytes.now }
    {
        let count = bytes.len().min(FRONT_LEN - self.count);
        self.bytes[self.count..self.count + count].copy_from_slice(&bytes[..count]);
        self.count += count;
    }

    /// Whether nothing came.
    pub fn is_empty(&self) -> bool
        ensures { IsTrue result ↔ (self.now ≡ []) }
    {
        self.count == 0
    }

    /// The status of the reply; None where what came isn't the front of one.
    pub fn status(&self) -> Option<u16>
        ensures says { IfSome result (λ status. SaysStatus self.now status) }
        ensures none { result ≡ None → (status : ℕ) → SaysStatus self.now status → ⊥ }
    {
        status_of_reply(&self.bytes[..self.count])
    }
}
