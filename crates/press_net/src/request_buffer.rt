//! The bytes of a request, as they come.

ghost use Rattle.std.specs.Prelude.{◌≡◌, ◌++◌, ◌&&◌, [], true, false, if◌then◌else◌, IfErr, IfOk, None, length, nat_le, not};
ghost use Rattle.press_net.specs.declared.request_buffer.Line.TheVariants.{Before};
ghost use Rattle.press_net.specs.Heads.{IsDueWithBody, IsWanted, due_again, is_whole, line_after, lines_after};
ghost use Rattle.press_net.specs.Padding.{Pads};

use press_http::{LONGEST_HEAD, Pieces, read_pieces};
use std::alloc::{AllocError, Global};
use std::io;
use std::str::from_utf8;

// Where the bytes of a head are. Empty lines before it are none of its lines.
#[derive(Clone, Copy, PartialEq, Eq)]
enum Line {
    Before,
    Inside,
    Ended,
    // An empty line came: the head is whole.
    Empty,
}

impl Line {
    fn after(self, byte: u8) -> Line
        ensures { result ≡ line_after self byte }
    {
        match (self, byte) {
            (Line::Empty, _) | (Line::Ended, b'\n') => Line::Empty,
            (Line::Before, b'\r' | b'\n') => Line::Before,
            (Line::Ended, b'\r') | (Line::Inside, b'\n') => Line::Ended,
            _ => Line::Inside,
        }
    }

    fn after_all(self, piece: &[u8]) -> Line
        ensures { result ≡ lines_after self piece.now }
    {
        let mut line = self;
        for byte in piece {
            line = line.after(*byte);
        }
        line
    }
}

// The bytes that came, and behind them as many zeros as a reader of a request asks for.
#[derive(Drop)]
struct Padded<'b> {
    rest: &'b [u8],
    zeros: usize,
    // One more than the zeros that were there before its last read of some, which wanted more.
    wanted: usize,
}

impl Pieces for Padded<'_> {
    ghost left = { λ _. None };

    ghost gives = { Pads };

    // Zeros come one fewer than are asked for, so that the last one that is wanted comes by itself.
    fn piece(&mut self, buf: &mut [u8]) -> io::Result<usize> {
        if self.rest.is_empty() {
            let count = buf.len().saturating_sub(1).max(1).min(buf.len());
            self.wanted = self.zeros.saturating_add(1);
            self.zeros = self.zeros.saturating_add(count);
            return Ok(count);
        }
        let count = self.rest.len().min(buf.len());
        buf[..count].copy_from_slice(&self.rest[..count]);
        self.rest = &self.rest[count..];
        Ok(count)
    }
}

// How many more bytes a request wants, of which so many came: fewer where memory for it fails.
fn missing_count(alloc: Global, bytes: &[u8]) -> usize
    ensures { IsWanted bytes.now result }
{
    let mut padded = Padded {
        rest: bytes,
        zeros: 0,
        wanted: 0,
    };
    drop(read_pieces(alloc, &mut padded));
    padded.wanted
}

// The first word, of visible ASCII, or `-`, and what follows it.
fn word(bytes: &[u8]) -> (&str, &[u8]) {
    let count = bytes
        .iter()
        .position(|b| !b.is_ascii_graphic())
        .unwrap_or(bytes.len());
    match from_utf8(&bytes[..count]) {
        Ok(word) if count > 0 => (word, &bytes[count..]),
        _ => ("-", &bytes[count..]),
    }
}

// What is behind the empty lines that may come before a request (RFC 9112, 2.2).
fn behind_empty_lines(bytes: &[u8]) -> &[u8] {
    let count = bytes
        .iter()
        .position(|b| *b != b'\r' && *b != b'\n')
        .unwrap_or(bytes.len());
    &bytes[count..]
}

/// The method and the target of a request, as far as its first line has such words, and `-` for one
/// that it lacks.
pub fn method_and_target_of(bytes: &[u8]) -> (&str, &str) {
    let (method, rest) = word(behind_empty_lines(bytes));
    let (target, _) = match rest {
        [_, rest @ ..] => word(rest),
        [] => ("-", rest),
    };
    (method, target)
}

/// The bytes of a request so far, and when another look at them is due.
pub struct RequestBuffer {
    bytes: Vec<u8>,
    line: Line,
    // How many bytes there have to be for the next look.
    due: usize,
}

impl Drop for RequestBuffer {
    fn drop(self) {
        let RequestBuffer {
            bytes: _,
            line: _,
            due: _,
        } = self;
    }
}

impl RequestBuffer {
    pub fn new(alloc: Global) -> RequestBuffer
        ensures none { result.bytes.items ≡ [] }
        ensures line { result.line ≡ Before }
        ensures due { result.due ≡ 0 }
    {
        RequestBuffer {
            bytes: Vec::new(alloc),
            line: Line::Before,
            due: 0,
        }
    }

    /// The bytes so far.
    pub fn as_slice(&self) -> &[u8]
        ensures { result.now ≡ self.now.bytes.items }
    {
        &self.bytes
    }

    /// Adds the bytes that came.
    pub fn add(&mut self, piece: &[u8]) -> Result<(), AllocError>
        ensures added { IfOk result (λ _.
            self.new.bytes.items ≡ self.old.bytes.items ++ piece.now) }
        ensures line { IfOk result (λ _. self.new.line ≡ lines_after self.old.line piece.now) }
        ensures due { IfOk result (λ _. self.new.due ≡ (if not (is_whole self.old.line)
            && is_whole self.new.line then 0 else self.old.due)) }
        ensures no_memory { IfErr result (λ _. (self.new.bytes.items ≡ self.old.bytes.items)
            × (self.new.line ≡ self.old.line) × (self.new.due ≡ self.old.due)) }
    {
        self.bytes.extend_from_slice(piece)?;
        let line = self.line.after_all(piece);
        if line != self.line && line == Line::Empty {
            self.due = 0;
        }
        self.line = line;
        Ok(())
    }

    /// Whether a look may find a whole request, or one that is refused.
    pub fn is_due(&self) -> bool
        ensures { result ≡ nat_le self.now.due (length self.now.bytes.items) }
    {
        self.due <= self.bytes.len()
    }

    /// A look found that more has to come. No whole request waits for the next one: a head is whole
    /// only where an empty line comes, and a body only with as many bytes as its head gives it; a
    /// head that isn't whole may be refused, and is looked at again at twice its bytes, so that
    /// bytes that come one by one don't cost the square of their count.
    pub fn wait(&mut self, alloc: Global)
        ensures bytes { self.new.bytes ≡ self.old.bytes }
        ensures line { self.new.line ≡ self.old.line }
        ensures due { is_whole self.old.line ≡ false →
            self.new.due ≡ due_again (length self.old.bytes.items) }
        ensures body { is_whole self.old.line ≡ true →
            IsDueWithBody self.old.bytes.items self.new.due }
    {
        let count = self.bytes.len();
        self.due = if self.line == Line::Empty {
            count.saturating_add(missing_count(alloc, &self.bytes))
        } else if count < LONGEST_HEAD {
            LONGEST_HEAD.min(count.saturating_mul(2))
        } else {
            count
        };
    }

    /// The method and the target, as far as the first line has such words.
    pub fn method_and_target(&self) -> (&str, &str) {
        method_and_target_of(&self.bytes)
    }
}
