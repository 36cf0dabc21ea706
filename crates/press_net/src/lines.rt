//! Lines that hold up nobody who writes them.

ghost use Rattle.std.specs.Prelude.{◌≡◌, ◌+◌, min};
ghost use Rattle.press_net.specs.Losing.{Puts};

use crate::outlet::{Outlet, put_all};
use crate::server::seconds_of;
use jiff::Timestamp;
use mio::unix::SourceFd;
use mio::{Events, Interest, Poll, Token};
use std::alloc::{AllocError, Global};
use std::io;
use std::io::{ErrorKind, Write};
use std::net::Net;
use std::os::fd::RawFd;
use std::time::{Clock, Duration};

// What a pipe that is ready takes at once (PIPE_BUF).
const PIECE: usize = 4096;

// A descriptor that is looked at before each write.
struct Watch {
    poll: Poll,
    events: Events<Global>,
    descriptor: RawFd,
}

impl Drop for Watch {
    fn drop(self) {
        let Watch {
            poll: _,
            events: _,
            descriptor: _,
        } = self;
    }
}

impl Watch {
    // None for one that is always ready, as a file is: it can't be watched.
    fn new<N: Net>(net: &N, alloc: Global, descriptor: RawFd) -> io::Result<Option<Watch>> {
        let poll = Poll::new(net)?;
        let mut source = SourceFd(&descriptor);
        let watched = poll
            .registry()
            .register(&mut source, Token(0), Interest::WRITABLE);
        if watched.is_err() {
            return Ok(None);
        }
        let events = Events::with_capacity(alloc, 1)?;
        Ok(Some(Watch {
            poll,
            events,
            descriptor,
        }))
    }

    // Whether it takes a piece at once. Registered again, it is told of as it stands, whether or
    // not that has changed.
    fn is_ready(&mut self) -> bool {
        let mut source = SourceFd(&self.descriptor);
        let asked = self
            .poll
            .registry()
            .reregister(&mut source, Token(0), Interest::WRITABLE);
        let told = self.poll.poll(&mut self.events, Some(Duration::ZERO));
        asked.is_ok() && told.is_ok() && !self.events.is_empty()
    }
}

/// A writer that is written to only as long as its descriptor takes what comes at once.
pub struct Ready<W> {
    writer: W,
    watch: Option<Watch>,
}

impl<W: Drop> Drop for Ready<W> {
    fn drop(self) {
        let Ready {
            writer: _,
            watch: _,
        } = self;
    }
}

impl<W> Ready<W> {
    fn is_ready(&mut self) -> bool
        ensures same { self.new.writer ≡ self.old.writer }
    {
        match &mut self.watch {
            Some(watch) => watch.is_ready(),
            None => true,
        }
    }
}

impl<W: Write> Write for Ready<W> {
    ghost contents = { λ ready. W.contents ready.writer };

    fn write(&mut self, bytes: &[u8]) -> io::Result<usize> {
        if !self.is_ready() {
            return Err(io::Error::from(ErrorKind::WouldBlock));
        }
        let count = bytes.len().min(PIECE);
        self.writer.write(&bytes[..count])
    }

    fn flush(&mut self) -> io::Result<()> {
        self.writer.flush()
    }
}

/// Lines of which some may be lost.
pub trait Log {
    /// How many were lost.
    fn lost_count(&self) -> u64;
}

/// Lines on a writer, each behind the time: it goes out at once, or it is lost, and counted. The
/// next that goes out comes behind the count.
pub struct Lines<'c, C, O> {
    clock: &'c C,
    ready: O,
    // How many were lost since the count was told.
    lost: u64,
    // How many were told as lost.
    told: u64,
    alloc: Global,
}

impl<C, O: Drop> Drop for Lines<'_, C, O> {
    fn drop(self) {
        let Lines {
            clock: _,
            ready: _,
            lost: _,
            told: _,
            alloc: _,
        } = self;
    }
}

impl<'c, C: AllocGlobal + Clock + Net, W: Write + Drop> Lines<'c, C, Ready<W>> {
    /// Lines on the writer to that descriptor, with the time by that clock.
    pub fn new(clock: &'c C, descriptor: RawFd, writer: W) -> io::Result<Lines<'c, C, Ready<W>>> {
        let watch = Watch::new(clock, clock.alloc(), descriptor)?;
        Ok(Lines {
            clock,
            ready: Ready { writer, watch },
            lost: 0,
            told: 0,
            alloc: clock.alloc(),
        })
    }
}

impl<C: Clock, O: Outlet + Drop> Lines<'_, C, O> {
    // The time in UTC, to the second.
    fn time(&self) -> Timestamp {
        let seconds = seconds_of(self.clock.since_1970());
        let seconds = i64::try_from(seconds).unwrap_or(i64::MAX);
        Timestamp::from_second(seconds).unwrap_or(Timestamp::MAX)
    }

    // Tells how many were lost; only then they count no more.
    fn tell_lost(&mut self) {
        let (time, lost) = (self.time(), self.lost);
        let Ok(line) = format!(in self.alloc; "{time} {lost} lines lost\n") else {
            return;
        };
        if put_all(&mut self.ready, line.as_bytes()) {
            self.told = self.told.saturating_add(lost);
            self.lost = 0;
        }
    }

    // The line behind the time.
    fn with_time(&self, line: &[u8]) -> Result<Vec<u8>, AllocError> {
        let time = self.time();
        let mut timed = format!(in self.alloc; "{time} ")?.into_bytes();
        timed.extend_from_slice(line)?;
        Ok(timed)
    }

    // A line goes out whole, or is lost.
    fn put(&mut self, line: &[u8])
        ensures { Puts O.contents O.fails line.now self.old.ready self.new.ready
            self.old.lost self.new.lost }
    {
        if !put_all(&mut self.ready, line) {
            self.lost = self.lost.saturating_add(1);
        }
    }
}

impl<C: Clock, O: Outlet + Drop> Write for Lines<'_, C, O> {
    fn write(&mut self, line: &[u8]) -> io::Result<usize> {
        if self.lost > 0 {
            self.tell_lost();
        }
        match self.with_time(line) {
            Ok(timed) => self.put(&timed),
            Err(_) => self.lost = self.lost.saturating_add(1),
        }
        Ok(line.len())
    }

    fn flush(&mut self) -> io::Result<()> {
        Ok(())
    }
}

impl<C, O> Log for Lines<'_, C, O> {
    fn lost_count(&self) -> u64
        ensures { result ≡ min (self.now.told + self.now.lost) 18446744073709551615 }
    {
        self.told.saturating_add(self.lost)
    }
}
