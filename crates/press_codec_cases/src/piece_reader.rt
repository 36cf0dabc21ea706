use std::io;
use std::io::{ErrorKind, Read, Write};

/// When a connection fails. It does so once, and goes on after that.
#[derive(Clone, Copy, PartialEq, Eq)]
pub enum Failure {
    Never,
    /// After the last byte.
    AtEnd,
    /// At that call, counted from 0.
    AtCall(usize),
}

// The error after which the standard library's own loops try again.
fn interruption() -> io::Error {
    io::Error::from(ErrorKind::Interrupted)
}

/// A reader that gives its bytes in pieces.
#[derive(Drop)]
pub struct PieceReader<'b> {
    left: &'b [u8],
    size: usize,
    failure: Failure,
    reads: usize,
}

impl<'b> PieceReader<'b> {
    pub fn new(bytes: &'b [u8], size: usize, failure: Failure) -> PieceReader<'b> {
        PieceReader {
            left: bytes,
            size,
            failure,
            reads: 0,
        }
    }

    fn fails_now(&self) -> bool {
        match self.failure {
            Failure::Never => false,
            Failure::AtEnd => self.left.is_empty(),
            Failure::AtCall(call) => self.reads == call,
        }
    }
}

impl Read for PieceReader<'_> {
    fn read(&mut self, buf: &mut [u8]) -> io::Result<usize> {
        let fails = self.fails_now();
        self.reads = self.reads.saturating_add(1);
        if fails {
            self.failure = Failure::Never;
            return Err(interruption());
        }
        let room = self.size.min(buf.len());
        self.left.read(&mut buf[..room])
    }
}

/// A writer that takes a few bytes at a time, and fails once at the call of that number, counted
/// from 0.
#[derive(Drop)]
pub struct Taken {
    pub bytes: usize,
    size: usize,
    fails_at: usize,
    writes: usize,
}

impl Taken {
    pub fn new(size: usize, fails_at: usize) -> Taken {
        Taken {
            bytes: 0,
            size,
            fails_at,
            writes: 0,
        }
    }
}

impl Write for Taken {
    fn write(&mut self, buf: &[u8]) -> io::Result<usize> {
        let fails = self.writes == self.fails_at;
        self.writes = self.writes.saturating_add(1);
        if fails {
            return Err(interruption());
        }
        let taken = self.size.min(buf.len());
        self.bytes = self.bytes.saturating_add(taken);
        Ok(taken)
    }

    fn flush(&mut self) -> io::Result<()> {
        Ok(())
    }
}
