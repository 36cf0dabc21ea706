//! Schedules over sockets of the loopback whose ends are watched.

use crate::tests::replays::{STOP_AFTER_MESSAGE, STOP_AFTER_SAVE, THREE_NODES, long_form};
use press_callbacks::Kit;
use press_loop::loop_over;
use std::alloc::{Alloc, Global};
use std::cell::Cell;
use std::io;
use std::io::{Read, Write};
use std::net::{Net, OpenListener, OpenStream, SocketAddr, TcpListener, TcpStream};
use std::os::fd::{AsRawFd, RawFd};
use std::test::Fail;
use std::time::Duration;

const NODES: usize = 7;

// A request of somebody else.
const FRONT: &[u8] = b"GET / HTTP/1.1\r\nHost: a\r\n\r\n";

// How many connections were made, how many ended for their client, how many of those without a
// byte, and how many writes there were.
#[derive(Drop)]
struct Seen {
    made: Cell<u32>,
    ended: Cell<u32>,
    silent: Cell<u32>,
    writes: Cell<u32>,
}

impl Seen {
    fn none() -> Seen {
        Seen {
            made: Cell::new(0),
            ended: Cell::new(0),
            silent: Cell::new(0),
            writes: Cell::new(0),
        }
    }

    fn counts(&self) -> (u32, u32, u32) {
        (self.made.get(), self.ended.get(), self.silent.get())
    }
}

fn count(of: &Cell<u32>) {
    of.set(of.get().saturating_add(1));
}

// One end of a connection.
#[derive(Drop)]
struct Watched<'s> {
    stream: TcpStream,
    seen: &'s Seen,
    is_silent: bool,
}

impl Read for Watched<'_> {
    fn read(&mut self, buf: &mut [u8]) -> io::Result<usize> {
        let came = self.stream.read(buf)?;
        if came > 0 {
            self.is_silent = false;
        } else {
            count(&self.seen.ended);
            if self.is_silent {
                count(&self.seen.silent);
            }
        }
        Ok(came)
    }
}

impl Write for Watched<'_> {
    fn write(&mut self, buf: &[u8]) -> io::Result<usize> {
        count(&self.seen.writes);
        self.stream.write(buf)
    }

    fn flush(&mut self) -> io::Result<()> {
        self.stream.flush()
    }
}

impl OpenStream for Watched<'_> {
    fn local_addr(&self) -> io::Result<SocketAddr> {
        self.stream.local_addr()
    }
}

impl AsRawFd for Watched<'_> {
    fn as_raw_fd(&self) -> RawFd {
        self.stream.as_raw_fd()
    }
}

#[derive(Drop)]
struct Listener<'s> {
    listener: TcpListener,
    seen: &'s Seen,
}

impl<'s> OpenListener for Listener<'s> {
    type Stream = Watched<'s>;

    fn accept(&self) -> io::Result<(Watched<'s>, SocketAddr)> {
        let (stream, peer) = self.listener.accept()?;
        let server = Watched {
            stream,
            seen: self.seen,
            is_silent: true,
        };
        Ok((server, peer))
    }

    fn local_addr(&self) -> io::Result<SocketAddr> {
        self.listener.local_addr()
    }
}

impl AsRawFd for Listener<'_> {
    fn as_raw_fd(&self) -> RawFd {
        self.listener.as_raw_fd()
    }
}

// The network of the host.
#[derive(Drop)]
struct Watch<'s> {
    rt: &'s HostRuntime,
    seen: &'s Seen,
    // Whether somebody else comes before each connection.
    is_preceded: bool,
}

impl Watch<'_> {
    // Somebody else asks for a page, over a connection of the same address.
    fn precede(&self, addr: SocketAddr) -> io::Result<()> {
        let mut stranger = TcpStream::connect(self.rt, addr)?;
        stranger.write_all(FRONT)
    }
}

impl Alloc for Watch<'_> {
    type A = Global;

    fn alloc(&self) -> Global {
        self.rt.alloc()
    }
}

impl<'s> Net for Watch<'s> {
    type Stream = Watched<'s>;

    type Listener = Listener<'s>;

    fn bind(&self, addr: SocketAddr) -> io::Result<Listener<'s>> {
        let listener = TcpListener::bind(self.rt, addr)?;
        let seen = self.seen;
        Ok(Listener { listener, seen })
    }

    fn connect(&self, addr: SocketAddr) -> io::Result<Watched<'s>> {
        if self.is_preceded {
            self.precede(addr)?;
        }
        let stream = TcpStream::connect(self.rt, addr)?;
        // What never comes ends the run.
        stream.set_read_timeout(Some(Duration::from_secs(5)))?;
        count(&self.seen.made);
        Ok(Watched {
            stream,
            seen: self.seen,
            is_silent: true,
        })
    }
}

// Plays a schedule over nodes without plugins; whether it came to its end.
fn plays(watch: &Watch<'_>, schedule: &str) -> Result<bool, Fail> {
    let alloc = watch.alloc();
    let mut kits = Vec::new(alloc);
    for _ in 0..NODES {
        let kit = Kit::build(alloc, Vec::new(alloc), Vec::new(alloc))?;
        kits.push(kit)?;
    }
    let mut input = schedule.as_bytes();
    let mut out: Vec<u8> = Vec::new(alloc);
    Ok(loop_over(watch, kits, &mut input, &mut out).is_ok())
}

// What is seen of the connections of a schedule.
fn seen_of(rt: &HostRuntime, schedule: &str) -> Result<(u32, u32, u32), Fail> {
    let seen = Seen::none();
    let watch = Watch {
        rt,
        seen: &seen,
        is_preceded: false,
    };
    if !plays(&watch, schedule)? {
        return Err(Fail::from("it ended early"));
    }
    Ok(seen.counts())
}

// Where somebody else has come first the run ends before a byte is sent.
#[test]
fn somebody_elses_connection_is_not_taken(rt: HostRuntime) -> Result<(), Fail> {
    let seen = Seen::none();
    let watch = Watch {
        rt: &rt,
        seen: &seen,
        is_preceded: true,
    };
    assert!(rt; !plays(&watch, THREE_NODES)?);
    assert_eq!(rt; (seen.made.get(), seen.writes.get()), (1, 0));
    Ok(())
}

// Each submit, message and request for a page has a connection, whose client sees it close; that of
// a step by which a node stops closes without a byte. A form that is too long has none.
#[test]
fn each_step_has_a_connection_that_closes(rt: HostRuntime) -> Result<(), Fail> {
    let long = long_form(rt.alloc())?;
    for (schedule, counts) in [
        (THREE_NODES, (20, 20, 0)),
        (STOP_AFTER_SAVE, (13, 13, 1)),
        (STOP_AFTER_MESSAGE, (13, 13, 1)),
        (long.as_str(), (0, 0, 0)),
    ] {
        assert_eq!(rt; seen_of(&rt, schedule)?, counts);
    }
    Ok(())
}
