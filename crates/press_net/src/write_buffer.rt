//! Bytes that go out over a socket, which takes a part of them at a time.

ghost use Rattle.std.specs.Prelude.{◌≡◌, ◌<◌, ◌≤◌, ◌-◌, IfErr, IfOk, IsFalse, drop, length, nat_le, take};
ghost use Rattle.std.specs.Io.KnownBytes.{Appends};

use crate::outlet::Outlet;
use std::io;
use std::io::ErrorKind;

/// Bytes, and how many of them are out.
pub struct WriteBuffer {
    pub bytes: Vec<u8>,
    sent: usize,
}

impl Drop for WriteBuffer {
    fn drop(self) {
        let WriteBuffer { bytes: _, sent: _ } = self;
    }
}

impl WriteBuffer {
    /// None of the bytes is out yet.
    pub fn new(bytes: Vec<u8>) -> WriteBuffer
        ensures bytes { result.bytes ≡ bytes }
        ensures sent { result.sent ≡ 0 }
    {
        WriteBuffer { bytes, sent: 0 }
    }

    /// How many of them are out.
    pub fn sent_count(&self) -> usize
        ensures { result ≡ self.now.sent }
    {
        self.sent
    }

    // What is left.
    fn rest(&self) -> &[u8]
        ensures { result.now ≡ drop self.now.sent self.now.bytes.items }
    {
        match self.bytes.get(self.sent..) {
            Some(left) => left,
            None => &[],
        }
    }

    /// Writes what is left, as far as the writer takes it; returns whether all is out.
    pub fn send<W: Outlet>(&mut self, writer: &mut W) -> io::Result<bool>
        ensures bytes { self.new.bytes ≡ self.old.bytes }
        ensures more { self.old.sent ≤ self.new.sent }
        ensures within { self.old.sent ≤ length self.old.bytes.items →
            self.new.sent ≤ length self.old.bytes.items }
        ensures wrote { self.old.sent ≤ length self.old.bytes.items →
            Appends (W.contents writer.old) (W.contents writer.new)
            (take (self.new.sent - self.old.sent) (drop self.old.sent self.old.bytes.items)) }
        ensures whole { IfOk result (λ whole.
            whole ≡ nat_le (length self.old.bytes.items) self.new.sent) }
        ensures refused { IfOk result (λ whole. IsFalse whole →
            (before : W) × W.refuses before writer.new) }
        ensures left { IfErr result (λ _. self.new.sent < length self.old.bytes.items) }
    {
        while self.sent < self.bytes.len() {
            match writer.put(self.rest()) {
                Ok(0) => return Err(io::Error::from(ErrorKind::WriteZero)),
                Ok(n) => self.sent = self.sent.saturating_add(n),
                Err(e) if e.kind() == ErrorKind::WouldBlock => return Ok(false),
                Err(e) => return Err(e),
            }
        }
        Ok(true)
    }
}
