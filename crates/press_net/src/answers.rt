//! What a server serves: something that answers requests and has requests of its own to send.

ghost use Rattle.press_net.specs.Answering.{credit, exchange};

use press_http::HttpFault;
use std::net::{IpAddr, SocketAddr};

/// When something happens.
#[derive(Clone, Copy)]
pub struct Time {
    /// Milliseconds of a clock that does not go back.
    pub millis: u64,
    /// Seconds since 1970, by the machine's clock.
    pub seconds: u64,
}

/// Where a request that goes out goes, and what it is for.
#[derive(Clone, Copy, Debug, PartialEq, Eq)]
pub struct Errand {
    /// Without one it is lost.
    pub addr: Option<SocketAddr>,
    /// How many looks and questions are in it.
    pub asked: u32,
}

/// A request that goes out.
#[derive(Drop)]
pub struct Outgoing {
    /// The place of the member that it is for, from 0.
    pub place: usize,
    pub bytes: Vec<u8>,
    pub errand: Errand,
}

/// How much is at a server.
#[derive(Clone, Copy, Debug, PartialEq, Eq)]
pub struct Traffic {
    /// How many connections are open.
    pub connections: u64,
    /// How many of its lines were lost.
    pub lost: u64,
}

/// What a server serves: it is given requests and time, and has requests of its own to send.
pub trait Answers {
    ghost use Rattle.press_net.specs.Answering.{Credit, Exchange};

    // One request is answered.
    ghost answers: { Self → Exchange → Self → Type 0 };

    // One request that went out, or was to, has ended.
    ghost hears: { Self → Credit → Self → Type 0 };

    // What becomes of it, from any moment to any later one.
    ghost becomes: { Self → Self → Type 0 };

    /// Where it listens.
    fn addr(&self) -> SocketAddr;

    /// Whether it is an address of a member, from which any number of connections may come.
    fn is_member(&self, from: IpAddr) -> bool;

    /// The reply to a request goes to `told`; its status. Ended where the request isn't whole.
    fn answer(&mut self, from: IpAddr, request: &[u8], told: &mut Vec<u8>) -> Result<u16, HttpFault>
        requires always { Unit {0} }
        ensures answers { answers self.old
            (exchange from request.now told.old.items told.new.items result) self.new }
        ensures becomes { becomes self.old self.new };

    /// The next request that goes out, if one waits.
    fn next_call(&mut self) -> Option<Outgoing>
        ensures becomes { becomes self.old self.new };

    /// Whether it has requests to send, or something to do that waits for nothing else.
    fn has_more(&self) -> bool;

    /// Whether it answers no more: its server ends.
    fn is_over(&self) -> bool;

    /// It may do now what waits for nothing else: its requests are out, or it has waited for them
    /// for two milliseconds.
    fn go_on(&mut self)
        requires always { Unit {0} }
        ensures becomes { becomes self.old self.new };

    /// A request that went out, or was to, has ended: its reply, as far as it is looked at; empty
    /// where it is lost.
    fn end_call(&mut self, place: usize, errand: Errand, reply: &[u8])
        requires always { Unit {0} }
        ensures hears { hears self.old (credit place errand reply.now) self.new }
        ensures becomes { becomes self.old self.new };

    /// The next line, with its end, that it has for whoever runs it, if one waits.
    fn next_line(&mut self) -> Option<String>
        ensures becomes { becomes self.old self.new };

    /// It may wait for a name to be looked up.
    fn look_up(&mut self, net: &HostRuntime)
        requires always { Unit {0} }
        ensures becomes { becomes self.old self.new };

    /// Time has passed.
    fn pass(&mut self, time: Time)
        requires always { Unit {0} }
        ensures becomes { becomes self.old self.new };

    /// So much is at its server.
    fn see(&mut self, traffic: Traffic)
        ensures becomes { becomes self.old self.new };

    /// Where nothing happens it is what it was.
    ghost rests: { (a : Self) → becomes a a };

    /// What becomes of what it has become, becomes of it.
    ghost goes_on: { (a b c : Self) → becomes a b → becomes b c → becomes a c };
}
