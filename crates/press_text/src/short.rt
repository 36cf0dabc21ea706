ghost use Rattle.std.specs.Prelude.{◌≡◌, ◌<◌, ◌≤◌, ◌+◌, ◌++◌, [], length};

use std::marker::Model;
use std::str;

/// The most bytes of a text that lies in the value itself.
pub const MOST: usize = 22;

/// The most bytes of a text that lies in the block of its holders' count.
pub const MOST_HERE: usize = 111;

/// A text of at most N bytes, in place. N is below 256.
#[derive(Drop)]
pub struct Short<const N: usize> {
    cells: [u8; N],
    len: u8,
}

impl<const N: usize> Model for Short<N> {
    ghost use Rattle.std.specs.Prelude.{ℕ, List, ◌≤◌, take, IsUtf8};

    ghost Value = { List ℕ };

    ghost view = { λ s. take s.len s.cells };

    ghost invariant = { λ s. (s.len ≤ N) × IsUtf8 (take s.len s.cells) };
}

impl<const N: usize> Short<N> {
    pub fn empty() -> Short<N>
        ensures { result ≡ [] }
    {
        Short {
            cells: [0; N],
            len: 0,
        }
    }

    pub fn from_str(text: &str) -> Short<N>
        requires short { length text.now ≤ N }
        requires small { N < 256 }
        ensures { result ≡ text.now }
    {
        let mut cells = [0; N];
        let len = text.len();
        cells[..len].copy_from_slice(text.as_bytes());
        Short {
            cells,
            len: len as u8,
        }
    }

    /// Appends.
    pub fn push(&mut self, more: &str)
        requires short { length self.old + length more.now ≤ N }
        requires small { N < 256 }
        ensures { self.new ≡ self.old ++ more.now }
    {
        let len = self.len as usize;
        let end = len + more.len();
        let cells = &mut self.cells[..];
        cells[len..end].copy_from_slice(more.as_bytes());
        self.len = end as u8;
    }

    /// A copy of the text.
    pub fn copy(&self) -> Short<N>
        ensures { result ≡ self.now }
    {
        Short {
            cells: self.cells,
            len: self.len,
        }
    }

    pub fn as_str(&self) -> &str
        ensures value { result.now ≡ self.now }
        ensures fits { length result.now ≤ N }
    {
        unsafe { str::from_utf8_unchecked(&self.cells[..self.len as usize]) }
    }
}
