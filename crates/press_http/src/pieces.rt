//! A reader with a contract for each read.

ghost use Rattle.std.specs.Prelude.{take, None, Some, MatchResult};
ghost use Rattle.std.specs.Io.{ReadsAtMost};
ghost use Rattle.std.specs.Io.KnownBytes.{ReadConsumes};

use std::io;
use std::io::Read;

/// A reader with a contract for each read, which every reader can meet.
pub trait Pieces {
    ghost use Rattle.std.specs.Prelude.{ℕ, List, Option};

    // The bytes that reads will give from here on, where they are known.
    ghost left: { Self → Option (List ℕ) };

    // One read leads from a state to another, and gives bytes, or fails.
    ghost gives: { Self → Option (List ℕ) → Self → Type 0 };

    /// One read: how many bytes it gave. 0 is the end.
    fn piece(&mut self, buf: &mut [u8]) -> io::Result<usize>
        ensures bound { ReadsAtMost result buf.new }
        ensures bytes { ReadConsumes (left self.old) (left self.new) result buf.new }
        ensures gives { MatchResult result (λ n. gives self.old (Some (take n buf.new)) self.new)
            (λ _. gives self.old None self.new) };
}

impl<R: Read> Pieces for R {
    ghost use Rattle.press_http.specs.Reads.{Took};

    ghost left = { λ r. R.remaining r };

    ghost gives = { λ old read new. Took (R.remaining old) read (R.remaining new) };

    fn piece(&mut self, buf: &mut [u8]) -> io::Result<usize> {
        self.read(buf)
    }
}
