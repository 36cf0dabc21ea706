//! A reader and a writer that fail once, with the error after which the standard library's own
//! loops try again.

use std::alloc::Global;
use std::io;
use std::io::{ErrorKind, Read, Write};

/// A reader that gives a byte at a time. The read of a number fails, and any later one gives more.
#[derive(Drop)]
pub struct Reader<'b> {
    left: &'b [u8],
    fails_at: u64,
    pub reads: u64,
}

impl<'b> Reader<'b> {
    /// Reads are counted from 1; at 0 none fails.
    pub fn new(bytes: &'b [u8], fails_at: u64) -> Reader<'b> {
        Reader {
            left: bytes,
            fails_at,
            reads: 0,
        }
    }
}

impl Read for Reader<'_> {
    fn read(&mut self, buf: &mut [u8]) -> io::Result<usize> {
        self.reads = self.reads.saturating_add(1);
        if self.reads == self.fails_at {
            return Err(io::Error::from(ErrorKind::Interrupted));
        }
        let room = buf.len().min(1);
        self.left.read(&mut buf[..room])
    }
}

/// How a write fails.
#[derive(Clone, Copy, PartialEq, Eq)]
pub enum Fails {
    WithError,
    /// It takes none of the bytes.
    TakesNone,
}

/// A writer that takes a byte at a time. The write of a number fails, and any later one takes more.
#[derive(Drop)]
pub struct Writer {
    pub taken: Vec<u8>,
    fails_at: u64,
    fails: Fails,
    pub writes: u64,
}

impl Writer {
    /// Writes are counted from 1; at 0 none fails.
    pub fn new(alloc: Global, fails_at: u64, fails: Fails) -> Writer {
        Writer {
            taken: Vec::new(alloc),
            fails_at,
            fails,
            writes: 0,
        }
    }

    /// Whether that write was the last one, and what was taken before it is a front of these bytes.
    pub fn has_front_of(&self, whole: &[u8]) -> bool {
        self.writes == self.fails_at
            && self.taken.len() < whole.len()
            && whole.starts_with(self.taken.as_slice())
    }
}

impl Write for Writer {
    fn write(&mut self, buf: &[u8]) -> io::Result<usize> {
        self.writes = self.writes.saturating_add(1);
        if self.writes == self.fails_at {
            return match self.fails {
                Fails::WithError => Err(io::Error::from(ErrorKind::Interrupted)),
                Fails::TakesNone => Ok(0),
            };
        }
        let count = buf.len().min(1);
        self.taken.extend_from_slice(&buf[..count])?;
        Ok(count)
    }

    fn flush(&mut self) -> io::Result<()> {
        Ok(())
    }
}
