//! A writer with a contract for each write.

ghost use Rattle.std.specs.Prelude.{◌≡◌, IfErr, IfOk, IsFalse, IsTrue};
ghost use Rattle.std.specs.Io.{WritesAtMost};
ghost use Rattle.std.specs.Io.KnownBytes.{Appends, WriteAppends};
ghost use Rattle.std.specs.IoError.{error_kind};
ghost use Rattle.press_text.specs.Streams.{AppendsProperFront};

use std::io;
use std::io::{ErrorKind, Write};

/// A writer with a contract for each write, which every writer can meet.
pub trait Outlet {
    ghost use Rattle.std.specs.Prelude.{ℕ, List, Option};

    // The bytes that the writer holds, where they are known.
    ghost contents: { Self → Option (List ℕ) };

    // One write that is refused for now leads from a state to another.
    ghost refuses: { Self → Self → Type 0 };

    // One write that failed, or took nothing, leads from a state to another.
    ghost fails: { Self → Self → Type 0 };

    /// One write: how many bytes it took.
    fn put(&mut self, bytes: &[u8]) -> io::Result<usize>
        ensures bound { WritesAtMost result bytes.now }
        ensures bytes { WriteAppends (contents self.old) (contents self.new) result bytes.now }
        ensures refused { IfErr result (λ e. error_kind e ≡ ErrorKind.WouldBlock →
            refuses self.old self.new) }
        ensures nothing { IfOk result (λ n. n ≡ 0 → fails self.old self.new) }
        ensures failed { IfErr result (λ _. fails self.old self.new) };
}

impl<W: Write> Outlet for W {
    ghost use Rattle.std.specs.Io.KnownBytes.{Keeps};

    ghost contents = { λ w. W.contents w };

    ghost refuses = { λ old new. Keeps (W.contents old) (W.contents new) };

    ghost fails = { λ _ _. Unit {0} };

    fn put(&mut self, bytes: &[u8]) -> io::Result<usize> {
        self.write(bytes)
    }
}

/// Writes the bytes in order, each of them once, until a write fails or takes nothing; whether all
/// are out.
pub fn put_all<W: Outlet>(writer: &mut W, bytes: &[u8]) -> bool
    ensures whole { IsTrue result →
        Appends (W.contents writer.old) (W.contents writer.new) bytes.now }
    ensures front { IsFalse result →
        AppendsProperFront (W.contents writer.old) (W.contents writer.new) bytes.now }
    ensures failed { IsFalse result → (before : W) × W.fails before writer.new }
{
    let mut done = 0;
    while done < bytes.len() {
        match writer.put(&bytes[done..]) {
            Ok(0) => return false,
            Ok(n) => done += n,
            Err(_) => return false,
        }
    }
    true
}
