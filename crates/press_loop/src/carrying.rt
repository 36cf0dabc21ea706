//! Connections over the loopback, of which the program holds both ends.

ghost use Rattle.std.specs.Prelude.{◌≡◌, ◌++◌, None, [], IfOk, IfSome, OnOk, take};
ghost use Rattle.std.specs.Io.{ReadsAtMost, WritesAtMost};
ghost use Rattle.std.specs.Io.KnownBytes.{IsAtEnd, ReadConsumes, WriteAppends};
ghost use Rattle.press_loop.specs.Carrying.{Brings, Gives, Hears, Sends, SendsSome, Tells};

use crate::front::Front;
use std::io;
use std::io::{ErrorKind, Read, Write};
use std::net::{Ipv4Addr, Net, OpenListener, OpenStream, SocketAddr, SocketAddrV4};

// The most bytes that are on their way.
const PIECE: usize = 4096;

/// A listener on the loopback, and where it listens.
#[derive(Drop)]
pub struct Loopback<'r, Rt: Net> {
    rt: &'r Rt,
    listener: Rt::Listener,
    addr: SocketAddr,
}

impl<'r, Rt: Net> Loopback<'r, Rt> {
    /// A listener at 127.0.0.1, at whichever port is free.
    pub fn bind(rt: &'r Rt) -> io::Result<Loopback<'r, Rt>> {
        let any_port = SocketAddr::V4(SocketAddrV4::new(Ipv4Addr::LOCALHOST, 0));
        let listener = rt.bind(any_port)?;
        let addr = listener.local_addr()?;
        Ok(Loopback { rt, listener, addr })
    }

    /// A new connection, by which a request is to come. Where somebody else has come before, it is
    /// refused.
    pub fn connect<'q>(&self, request: &'q [u8]) -> io::Result<Connection<'q, Rt::Stream>>
        ensures request { IfOk result (λ c. c.client.request.now ≡ request.now) }
        ensures front { IfOk result (λ c. c.client.front ≡ []) }
    {
        let stream = self.rt.connect(self.addr)?;
        let (server, peer) = self.listener.accept()?;
        if stream.local_addr()? != peer {
            return Err(io::Error::from(ErrorKind::ConnectionRefused));
        }
        let client = Client {
            stream,
            request,
            front: Front::new(),
        };
        Ok(Connection {
            server,
            client,
            coming: 0,
        })
    }
}

// The end that sends a request and receives the reply.
#[derive(Drop)]
struct Client<'q, S> {
    stream: S,
    // What is still to be sent of the request.
    request: &'q [u8],
    // What was received of the reply.
    front: Front,
}

impl<S: Read + Write> Client<'_, S> {
    // Sends the next bytes of the request; returns how many.
    fn send(&mut self) -> io::Result<usize>
        ensures sends { Sends (S.contents self.old.stream) (S.contents self.new.stream)
            self.old.request.now self.new.request.now result }
        ensures front { self.new.front ≡ self.old.front }
    {
        let count = self.request.len().min(PIECE);
        let sent = self.stream.write(&self.request[..count])?;
        self.request = &self.request[sent..];
        Ok(sent)
    }

    // Receives these bytes of the reply; an error where others come.
    fn hear(&mut self, written: &[u8]) -> io::Result<()>
        ensures hears { Hears (S.remaining self.old.stream) (S.remaining self.new.stream)
            self.old.front self.new.front (λ came. OnOk result (came ≡ written.now)) }
        ensures request { self.new.request.now ≡ self.old.request.now }
    {
        let mut piece = [0u8; PIECE];
        let mut left = written;
        while !left.is_empty() {
            let room = left.len().min(PIECE);
            let came = self.stream.read(&mut piece[..room])?;
            if came == 0 {
                return Err(io::Error::from(ErrorKind::UnexpectedEof));
            }
            self.front.keep(&piece[..came]);
            let Some(rest) = behind(left, &piece[..came]) else {
                return Err(io::Error::from(ErrorKind::InvalidData));
            };
            left = rest;
        }
        Ok(())
    }

    // The status of what was received of the reply; None where nothing was.
    fn status(&self) -> io::Result<Option<u16>>
        ensures { IfOk result (Tells self.now.front) }
    {
        if self.front.is_empty() {
            return Ok(None);
        }
        match self.front.status() {
            Some(status) => Ok(Some(status)),
            None => Err(io::Error::from(ErrorKind::InvalidData)),
        }
    }

    // The end of the reply; an error where more comes.
    fn end(&mut self) -> io::Result<()>
        ensures { OnOk result (IsAtEnd (S.remaining self.new.stream)) }
    {
        if self.stream.read(&mut [0u8; 1])? > 0 {
            return Err(io::Error::from(ErrorKind::InvalidData));
        }
        Ok(())
    }
}

// What is left of some bytes behind those that came; None where others came.
#[tactic(auto, using(crate::proofs::Heard::whole_again))]
fn behind<'a>(written: &'a [u8], came: &[u8]) -> Option<&'a [u8]>
    ensures { IfSome result (λ left. came.now ++ left.now ≡ written.now) }
{
    written.strip_prefix(came)
}

/// A connection as its server has it. What is read here the client sends just before, and what is
/// written here it receives at once, so that neither end waits for the other.
#[derive(Drop)]
pub struct Connection<'q, S> {
    server: S,
    client: Client<'q, S>,
    // How many bytes were sent and not read yet.
    coming: usize,
}

impl<S: Read + Write> Read for Connection<'_, S> {
    fn read(&mut self, buf: &mut [u8]) -> io::Result<usize>
        ensures bound { ReadsAtMost result buf.new }
        ensures bytes { ReadConsumes None None result buf.new }
        ensures sends { SendsSome (S.contents self.old.client.stream)
            (S.contents self.new.client.stream) self.old.client.request.now
            self.new.client.request.now }
        ensures brings { Brings (S.remaining self.old.server) (S.remaining self.new.server) buf.new
            result }
        ensures front { self.new.client.front ≡ self.old.client.front }
    {
        if self.coming == 0 {
            self.coming = self.client.send()?;
        }
        if self.coming == 0 {
            return Ok(0);
        }
        let room = self.coming.min(buf.len());
        let came = self.server.read(&mut buf[..room])?;
        self.coming -= came;
        Ok(came)
    }
}

impl<S: Read + Write> Write for Connection<'_, S> {
    fn write(&mut self, buf: &[u8]) -> io::Result<usize>
        ensures bound { WritesAtMost result buf.now }
        ensures bytes { WriteAppends None None result buf.now }
        ensures gives { Gives (S.contents self.old.server) (S.contents self.new.server) buf.now
            result }
        ensures hears { Hears (S.remaining self.old.client.stream)
            (S.remaining self.new.client.stream) self.old.client.front self.new.client.front
            (λ came. IfOk result (λ n. came ≡ take n buf.now)) }
        ensures request { self.new.client.request.now ≡ self.old.client.request.now }
    {
        let count = buf.len().min(PIECE);
        let sent = self.server.write(&buf[..count])?;
        self.client.hear(&buf[..sent])?;
        Ok(sent)
    }

    fn flush(&mut self) -> io::Result<()> {
        self.server.flush()
    }
}

impl<S: Read + Write> Connection<'_, S> {
    /// The status of the reply that the client received; None where there was no reply.
    pub fn status(&self) -> io::Result<Option<u16>>
        ensures { IfOk result (Tells self.now.client.front) }
    {
        self.client.status()
    }
}

impl<S: Read + Write + Drop> Connection<'_, S> {
    /// The server closes it. An error where the client receives more than it has by now.
    pub fn close(self) -> io::Result<()> {
        let Connection {
            server,
            mut client,
            ..
        } = self;
        drop(server);
        client.end()
    }
}
