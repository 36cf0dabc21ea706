use crate::tests::fixtures::holds;
use std::alloc::Global;
use std::io;
use std::io::{Read, Write};
use std::net::{Shutdown, SocketAddr, TcpListener, TcpStream};
use std::thread::sleep;
use std::time::Duration;

/// A reader that gives seven bytes at a time. The read after a given number fails, and any later
/// one gives more.
#[derive(Drop)]
pub struct Failing {
    rest: &'static [u8],
    good: u32,
    pub reads: u32,
}

impl Failing {
    pub fn new(rest: &'static [u8], good: u32) -> Failing {
        Failing {
            rest,
            good,
            reads: 0,
        }
    }
}

impl Read for Failing {
    fn read(&mut self, buf: &mut [u8]) -> io::Result<usize> {
        let turn = self.reads;
        self.reads = self.reads.saturating_add(1);
        if turn == self.good {
            return Err(io::Error::from(io::ErrorKind::Interrupted));
        }
        let n = if buf.len() < 7 { buf.len() } else { 7 };
        let mut rest = self.rest;
        let got = rest.read(&mut buf[..n])?;
        self.rest = rest;
        Ok(got)
    }
}

/// A client that asks once, as soon as a server says that it listens. It says nothing more then,
/// unless it stays.
#[derive(Drop)]
pub struct Client<'a> {
    rt: &'a HostRuntime,
    addr: SocketAddr,
    // What another one says that comes before it, and leaves then.
    first: Option<&'a [u8]>,
    request: &'a [u8],
    stays: bool,
    stream: Option<TcpStream>,
}

impl<'a> Client<'a> {
    pub fn new(rt: &'a HostRuntime, addr: SocketAddr, request: &'a [u8]) -> Client<'a> {
        Client {
            rt,
            addr,
            first: None,
            request,
            stays: false,
            stream: None,
        }
    }

    /// One whose connection stays open behind its request.
    pub fn staying(rt: &'a HostRuntime, addr: SocketAddr, request: &'a [u8]) -> Client<'a> {
        Client {
            stays: true,
            ..Client::new(rt, addr, request)
        }
    }

    /// One behind another that says something and leaves.
    pub fn behind(
        rt: &'a HostRuntime,
        addr: SocketAddr,
        first: &'a [u8],
        request: &'a [u8],
    ) -> Client<'a> {
        Client {
            first: Some(first),
            ..Client::new(rt, addr, request)
        }
    }

    fn ask(&mut self) -> io::Result<()> {
        if let Some(first) = self.first {
            let mut stream = TcpStream::connect(self.rt, self.addr)?;
            stream.write_all(first)?;
        }
        let mut stream = TcpStream::connect(self.rt, self.addr)?;
        stream.write_all(self.request)?;
        if !self.stays {
            stream.shutdown(Shutdown::Write)?;
        }
        self.stream = Some(stream);
        Ok(())
    }

    fn reply(self, reply: &mut Vec<u8>) -> io::Result<()> {
        if let Some(mut stream) = self.stream {
            stream.read_to_end(reply)?;
        }
        Ok(())
    }
}

/// What comes of the flush of a writer.
#[derive(Drop)]
pub enum Flush<'a> {
    Done,
    Fails,
    /// It is done, and a client asks.
    Asks(Client<'a>),
}

/// A writer that takes three bytes at a time. The write after a given number fails or takes none,
/// and any later one goes well.
#[derive(Drop)]
pub struct Narrow<'a> {
    pub taken: Vec<u8>,
    good: u32,
    fails: bool,
    pub writes: u32,
    flush: Flush<'a>,
}

impl<'a> Narrow<'a> {
    pub fn new(alloc: Global, good: u32, fails: bool) -> Narrow<'a> {
        Narrow {
            taken: Vec::new(alloc),
            good,
            fails,
            writes: 0,
            flush: Flush::Done,
        }
    }

    /// One whose writes go well.
    pub fn with_flush(alloc: Global, flush: Flush<'a>) -> Narrow<'a> {
        Narrow {
            flush,
            ..Narrow::new(alloc, u32::MAX, true)
        }
    }

    /// The whole reply to the client that asked, if one did.
    pub fn reply(self, reply: &mut Vec<u8>) -> io::Result<()> {
        match self.flush {
            Flush::Asks(client) => client.reply(reply),
            _ => Ok(()),
        }
    }
}

impl Write for Narrow<'_> {
    fn write(&mut self, buf: &[u8]) -> io::Result<usize> {
        let turn = self.writes;
        self.writes = self.writes.saturating_add(1);
        if turn == self.good {
            return if self.fails {
                Err(io::Error::from(io::ErrorKind::Interrupted))
            } else {
                Ok(0)
            };
        }
        let n = if buf.len() < 3 { buf.len() } else { 3 };
        self.taken.extend_from_slice(&buf[..n])?;
        Ok(n)
    }

    fn flush(&mut self) -> io::Result<()> {
        match &mut self.flush {
            Flush::Done => Ok(()),
            Flush::Fails => Err(io::Error::from(io::ErrorKind::BrokenPipe)),
            Flush::Asks(client) => client.ask(),
        }
    }
}

/// A reader without end, which counts what it gave.
#[derive(Drop)]
pub struct Endless {
    pub given: usize,
}

impl Read for Endless {
    fn read(&mut self, buf: &mut [u8]) -> io::Result<usize> {
        buf.fill(b' ');
        self.given = self.given.saturating_add(buf.len());
        Ok(buf.len())
    }
}

// Where the body of a request begins.
const HEAD_END: &[u8] = b"\r\n\r\n";

// The bytes of a report.
const REPORT: usize = 98;

// Where the two marks of a recall stand behind that.
const MARKS: usize = 123;

// What a request brings: nothing, where it isn't whole.
fn body_of(request: &[u8]) -> &[u8] {
    match request.windows(4).position(|it| it == HEAD_END) {
        Some(place) => &request[place.saturating_add(HEAD_END.len()).min(request.len())..],
        None => b"",
    }
}

// How many bytes a mark has there.
fn mark_len(body: &[u8], at: usize) -> usize {
    match body.get(at) {
        Some(1) => 17,
        _ => 1,
    }
}

// How many bytes stand before the messages of a batch.
fn head_len(body: &[u8]) -> usize {
    if body.get(REPORT) != Some(&1) {
        return REPORT.saturating_add(1);
    }
    let answered = MARKS.saturating_add(mark_len(body, MARKS));
    answered.saturating_add(mark_len(body, answered))
}

// The reply of member 2 with this head, which is of member 1.
fn reply_with(alloc: Global, head: &[u8]) -> io::Result<Vec<u8>> {
    let count = head.len();
    let line = format!(in alloc; "HTTP/1.1 200 OK\r\nContent-Length: {count}\r\n\r\n")?;
    let mut reply = line.into_bytes();
    reply.extend_from_slice(b"\x02\x02")?;
    reply.extend_from_slice(&head[head.len().min(2)..])?;
    Ok(reply)
}

/// The request of a member that has heard of no mark of the other: what it brings otherwise is as
/// in this one.
pub fn without_marks(alloc: Global, request: &[u8]) -> io::Result<Vec<u8>> {
    let body = body_of(request);
    let front = &body[..body.len().min(MARKS)];
    let messages = &body[body.len().min(head_len(body))..];
    let count = front.len().saturating_add(2).saturating_add(messages.len());
    let line = format!(in alloc;
        "POST /members HTTP/1.1\r\nHost: a\r\nContent-Length: {count}\r\n\r\n"
    )?;
    let mut told = line.into_bytes();
    told.extend_from_slice(front)?;
    told.extend_from_slice(b"\x00\x00")?;
    told.extend_from_slice(messages)?;
    Ok(told)
}

/// The other one of two members, which says of itself what member 1 says, its start among it, and
/// nothing more. It
/// stands behind the lines of that one's server: at each line of a request it replies to what has
/// come, and the next client asks a while later.
#[derive(Drop)]
pub struct Mirror<'a> {
    rt: &'a HostRuntime,
    listener: TcpListener,
    streams: Vec<TcpStream>,
    // The server of member 1, what it is to be asked, and how much of that it was.
    addr: SocketAddr,
    requests: &'a [&'a [u8]],
    asked: usize,
    clients: Vec<TcpStream>,
    /// The lines.
    pub lines: Vec<u8>,
    /// The last request of member 1 with a message.
    pub brought: Vec<u8>,
}

impl<'a> Mirror<'a> {
    /// It waits for nobody.
    pub fn new(
        rt: &'a HostRuntime,
        listener: TcpListener,
        addr: SocketAddr,
        requests: &'a [&'a [u8]],
    ) -> io::Result<Mirror<'a>> {
        listener.set_nonblocking(true)?;
        Ok(Mirror {
            rt,
            listener,
            streams: Vec::new(rt.alloc()),
            addr,
            requests,
            asked: 0,
            clients: Vec::new(rt.alloc()),
            lines: Vec::new(rt.alloc()),
            brought: Vec::new(rt.alloc()),
        })
    }

    // Takes the one that waits first, if one does.
    fn accept(&mut self) -> io::Result<()> {
        if let Ok((stream, _)) = self.listener.accept() {
            stream.set_nonblocking(true)?;
            self.streams.push(stream)?;
        }
        Ok(())
    }

    // Replies to what has come; of a request that was given up nothing comes but its end.
    fn give_back(&mut self) -> io::Result<()> {
        let mut piece = [0u8; 4096];
        for stream in self.streams.iter_mut() {
            let count = stream.read(&mut piece).unwrap_or(0);
            if count == 0 {
                continue;
            }
            let request = &piece[..count];
            let body = body_of(request);
            let len = body.len().min(head_len(body));
            if body.len() > len {
                self.brought.clear();
                self.brought.extend_from_slice(request)?;
            }
            stream.write_all(&reply_with(self.rt.alloc(), &body[..len])?)?;
        }
        Ok(())
    }

    // The next client asks.
    fn ask(&mut self) -> io::Result<()> {
        let Some(request) = self.requests.get(self.asked) else {
            return Ok(());
        };
        self.asked = self.asked.saturating_add(1);
        sleep(self.rt, Duration::from_millis(20));
        let mut stream = TcpStream::connect(self.rt, self.addr)?;
        stream.write_all(request)?;
        stream.shutdown(Shutdown::Write)?;
        self.clients.push(stream)?;
        Ok(())
    }
}

impl Write for Mirror<'_> {
    fn write(&mut self, line: &[u8]) -> io::Result<usize> {
        self.lines.extend_from_slice(line)?;
        if holds(line, b" /") {
            // The next client asks whatever becomes of these.
            let _ = self.accept();
            let _ = self.give_back();
            self.ask()?;
        }
        Ok(line.len())
    }

    fn flush(&mut self) -> io::Result<()> {
        Ok(())
    }
}
