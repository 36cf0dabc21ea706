//! A server over readiness: no connection is waited for, so one that says nothing, or reads
//! nothing, holds up nobody.

ghost use Rattle.std.specs.Prelude.{◌≡◌, ◌-◌, ◌/◌, ◌<◌, [], IsErr, IsFalse, MatchOption, MatchResult, None, if◌then◌else◌, not, option_map};
ghost use Rattle.std.specs.Duration.{as_nanos};
ghost use Rattle.std.specs.IoError.{raw_os_error};
ghost use Rattle.press_net.specs.Accepting.{is_wanting, miss_of};
ghost use Rattle.press_net.specs.Answering.{credit};
ghost use Rattle.press_net.specs.Lanes.{IsCredited, after_end, call_at, changed_at, queues};
ghost use Rattle.press_net.specs.Talking.{free_where, group_of, is_crowded, is_held_at, is_reading};
ghost use Rattle.press_net.specs.Turning.{KeepsAllButCalls, call_of, ends_at, holder_named, connection_of};

use crate::answers::{Answers, Outgoing, Time, Traffic};
use crate::connection::{Arrival, Connection, Group, Phase, log_close, log_line};
use crate::connections::{Connections, Intake};
use crate::dial::connect_from;
use crate::lines::Log;
use crate::outgoing_connection::OutgoingConnection;
use crate::outgoing_connections::OutgoingConnections;
use mio::net::{TcpListener, TcpStream};
use mio::{Events, Interest, Poll, Token};
use std::alloc::Global;
use std::collections::VecDeque;
use std::io;
use std::io::Write;
use std::net::{IpAddr, Net, SocketAddr};
use std::time::{Clock, Duration, Instant};

const LISTENER: usize = 0;

// More than can be ready at once (1,024 connections, 192 requests, the listener), so that a round
// looks at all that came before any is told late.
const EVENTS: usize = 2_048;

// The most connections that are taken before others have their turn.
const MOST_TAKEN: u32 = 256;

// The most requests that go out before others have their turn.
const MOST_CALLED: u32 = 256;

// The most lines of its own that what is served has before others have their turn.
const MOST_LINES: u32 = 16;

// How long may pass before late connections are looked for.
const LATE_LOOK_MILLIS: u64 = 100;

// How long may pass where requests go out by time.
const STEP_MILLIS: u64 = 2;

// For how many milliseconds others keep it from what waits for nothing else.
const BEHIND_MILLIS: u64 = 2;

// Milliseconds from one reply that has a client come again later to the next one: many clients that
// come again at once take a small part of its time.
const LET_OUT_MILLIS: u64 = 5;

// The most of them that go out at once.
const MOST_LET_OUT: u128 = 32;

// Who has a token of the poll.
enum Holder {
    Listener,
    // The connection of that place.
    Connection(usize),
    // The request of that place.
    OutgoingConnection(usize),
}

fn holder_of(token: Token) -> Holder
    ensures { result ≡ holder_named token.0 }
{
    let number = usize::from(token);
    match number.checked_sub(1) {
        None => Holder::Listener,
        Some(rest) if rest % 2 == 0 => Holder::Connection(rest / 2),
        Some(rest) => Holder::OutgoingConnection(rest / 2),
    }
}

fn token_of_connection(place: usize) -> Token
    ensures { place < 4611686018427387904 → holder_named result.0 ≡ connection_of place }
{
    Token(place.saturating_mul(2).saturating_add(1))
}

fn token_of_call(place: usize) -> Token
    ensures { place < 4611686018427387904 → holder_named result.0 ≡ call_of place }
{
    Token(place.saturating_mul(2).saturating_add(2))
}

// What an accept that gave no connection says.
enum Miss {
    NobodyWaits,
    // Nothing more can be opened: who waits first waits on.
    WaitsOn,
    // Who waited first is gone.
    IsLost,
}

// Whether an error of that number says that there is no memory (ENOMEM), no descriptor of the
// machine (ENFILE) or of the process (EMFILE), or no buffer (ENOBUFS).
fn is_wanting(code: i32) -> bool
    ensures { result ≡ is_wanting code }
{
    code == 12 || code == 23 || code == 24 || code == 105
}

fn miss_of(error: &io::Error) -> Miss
    ensures { result ≡ miss_of (raw_os_error error.now) }
{
    match error.raw_os_error() {
        None => Miss::IsLost,
        Some(11) => Miss::NobodyWaits,
        Some(code) if is_wanting(code) => Miss::WaitsOn,
        Some(_) => Miss::IsLost,
    }
}

// Whether a connection over which nothing is to come is still open.
fn is_open(stream: &TcpStream) -> bool {
    let mut byte = [0u8; 1];
    match stream.peek(&mut byte) {
        Err(e) => e.kind() == io::ErrorKind::WouldBlock,
        Ok(_) => false,
    }
}

// Seconds since 1970. Before that, and by a clock that can't be read, it is 1970.
pub fn seconds_of(since: io::Result<Duration>) -> u64
    ensures { MatchResult since (λ past. result ≡ as_nanos past / 1000000000) (λ _. result ≡ 0) }
{
    match since {
        Ok(past) => past.as_secs(),
        Err(_) => 0,
    }
}

// What is served has its own lines written.
fn write_lines<A: Answers, E: Write>(answers: &mut A, log: &mut E)
    ensures { A.becomes answers.old answers.new }
{
    for _ in 0..MOST_LINES {
        match answers.next_line() {
            Some(line) => log_line(log, &line),
            None => return,
        }
    }
}

// Those of members are never beyond a quarter.
fn group_of(is_member: bool, is_crowded: bool) -> Group
    ensures { result ≡ group_of is_member is_crowded }
{
    if is_member {
        return Group::Member;
    }
    if is_crowded {
        return Group::Surplus;
    }
    Group::Within
}

/// What a server is to do.
#[derive(Clone, Copy)]
pub struct Task {
    /// After how many connections it ends, one that stays open counted for each of its requests;
    /// without it, when it is ended.
    pub turns: Option<u32>,
    /// The most connections that are open at once.
    pub most: usize,
    /// Whether requests go out by time.
    pub is_timed: bool,
}

// A connection whose reply is held: its place, and its number among all that have come.
#[derive(Clone, Copy)]
struct Held {
    place: usize,
    number: u64,
}

/// A listener, the connections that came by it, and the requests that go out.
pub struct Server {
    poll: Poll,
    listener: TcpListener,
    // Where it listens, from where requests go out too.
    addr: SocketAddr,
    connections: Connections,
    calls: OutgoingConnections,
    // Those whose replies are held, the oldest first, and when one was last let out.
    held: VecDeque<Held>,
    last_out: Instant,
    // Since when what waits for nothing else waits for requests to be out.
    waits_since: Option<Instant>,
    // How many connections came.
    came: u64,
    // Whether some may wait of whom nothing more will be told.
    is_behind: bool,
    // How many are still to have their turn, if it ends by that.
    left: Option<u32>,
    // When it began, and the time when it was last looked at.
    begun: Instant,
    now: Instant,
    // Whether requests go out by time.
    is_timed: bool,
    alloc: Global,
}

impl Drop for Server {
    fn drop(self) {
        let Server {
            poll: _,
            listener: _,
            addr: _,
            connections: _,
            calls: _,
            held: _,
            last_out: _,
            waits_since: _,
            came: _,
            is_behind: _,
            left: _,
            begun: _,
            now: _,
            is_timed: _,
            alloc: _,
        } = self;
    }
}

impl Server {
    /// Listens at an address.
    pub fn listen<R: AllocGlobal + Net + Clock>(
        rt: &R,
        addr: SocketAddr,
        task: Task,
    ) -> io::Result<Server> {
        let Task {
            turns,
            most,
            is_timed,
        } = task;
        let poll = Poll::new(rt)?;
        let mut listener = TcpListener::bind(rt, addr)?;
        poll.registry()
            .register(&mut listener, Token(LISTENER), Interest::READABLE)?;
        let now = Instant::now(rt)?;
        Ok(Server {
            poll,
            listener,
            addr,
            connections: Connections::new(rt.alloc(), most),
            calls: OutgoingConnections::new(rt.alloc()),
            held: VecDeque::new(rt.alloc()),
            last_out: now,
            waits_since: None,
            came: 0,
            is_behind: false,
            left: turns,
            begun: now,
            now,
            is_timed,
            alloc: rt.alloc(),
        })
    }

    // A connection that comes now.
    fn arrival(&self, from: IpAddr, is_member: bool) -> Arrival
        ensures from { result.from ≡ from }
        ensures number { result.number ≡ self.entry.now.came }
        ensures begun { result.begun ≡ self.entry.now.now }
        ensures group { result.group ≡ group_of is_member (is_crowded
            self.entry.now.connections.most from self.entry.now.connections.places.items) }
    {
        Arrival {
            from,
            number: self.came,
            begun: self.now,
            group: group_of(is_member, self.connections.is_crowded(from)),
        }
    }

    // Has the poll look at a connection.
    fn watch(&mut self, place: usize) -> io::Result<()> {
        let Some(connection) = self.connections.get_mut(place) else {
            return Ok(());
        };
        self.poll.registry().register(
            connection.stream(),
            token_of_connection(place),
            Interest::READABLE | Interest::WRITABLE,
        )
    }

    // Has the poll look at a connection again, of which nothing new may be told otherwise.
    fn watch_again(&mut self, place: usize) -> io::Result<()> {
        let Some(connection) = self.connections.get_mut(place) else {
            return Ok(());
        };
        self.poll.registry().reregister(
            connection.stream(),
            token_of_connection(place),
            Interest::READABLE | Interest::WRITABLE,
        )
    }

    // A connection begins, in the intake whose first one has that number.
    fn begin<E: Write>(
        &mut self,
        stream: TcpStream,
        arrival: Arrival,
        intake: Intake,
        log: &mut E,
    ) -> io::Result<()> {
        let connection = Connection::new(self.alloc, stream, arrival);
        self.came = self.came.saturating_add(1);
        let Some(place) = self.connections.enter(connection, intake, log)? else {
            return Ok(());
        };
        let watched = self.watch(place);
        if watched.is_err() {
            self.connections.leave(place);
        }
        watched
    }

    // Has the poll look at the listener again.
    fn listen_again(&mut self) -> io::Result<()> {
        self.poll
            .registry()
            .reregister(&mut self.listener, Token(LISTENER), Interest::READABLE)
    }

    // Looks at the time. A clock that can't be read stands still.
    fn look_at_clock<C: Clock>(&mut self, clock: &C) -> Instant
        ensures now { result ≡ self.new.now }
        ensures same { self.new.connections ≡ self.old.connections }
    {
        if let Ok(now) = Instant::now(clock) {
            self.now = now;
        }
        self.now
    }

    // Accepts those that wait, each at the time when it is taken. An error costs the one that it is
    // of. Where nothing more can be opened, one that came in an earlier intake gives way, but none
    // of a member, since nothing is known of who waits; where none does, those that wait are tried
    // again by time.
    fn take<C: Clock, A: Answers, E: Write>(&mut self, clock: &C, answers: &A, log: &mut E) {
        let intake = Intake {
            first: self.came,
            now: self.now,
        };
        self.is_behind = false;
        for _ in 0..MOST_TAKEN {
            match self.listener.accept() {
                Ok((stream, from)) => {
                    self.look_at_clock(clock);
                    let from = from.ip();
                    let arrival = self.arrival(from, answers.is_member(from));
                    if self.begin(stream, arrival, intake, log).is_err() {
                        log_close(self.alloc, log, from, "nothing more can be opened");
                    }
                }
                Err(e) => match miss_of(&e) {
                    Miss::NobodyWaits => return,
                    Miss::IsLost => {}
                    Miss::WaitsOn => {
                        if self
                            .connections
                            .give_way(Group::Within, intake, log)
                            .is_none()
                        {
                            self.is_behind = true;
                            return;
                        }
                    }
                },
            }
        }
        // More may wait though nothing else comes.
        self.is_behind = self.listen_again().is_err();
    }

    // Whether connections are still to have their turn.
    fn is_open(&self) -> bool
        ensures { result ≡ not (ends_at 0 self.entry.now.left) }
    {
        self.left != Some(0)
    }

    fn had_turn(&mut self)
        ensures left { self.new.left ≡ option_map (λ left. left - 1) self.old.left }
        ensures ends { self.new.connections.places.items ≡ (if ends_at 0 self.new.left
            then free_where is_reading self.old.connections.places.items
            else self.old.connections.places.items) }
        ensures same { self.new.calls ≡ self.old.calls }
    {
        if let Some(left) = self.left {
            let left = left.saturating_sub(1);
            self.left = Some(left);
            if left == 0 {
                self.connections.end_unheard();
            }
        }
    }

    // A connection's socket is ready.
    fn step<A: Answers, E: Write>(&mut self, answers: &mut A, place: usize, log: &mut E)
        requires always { Unit {0} }
        ensures { A.becomes answers.old answers.new }
    {
        let now = self.now;
        let Some(connection) = self.connections.get_mut(place) else {
            return;
        };
        let had_turn = connection.step(answers, now, log);
        let phase = connection.phase();
        let has_more = connection.has_more();
        let held = Held {
            place,
            number: connection.number(),
        };
        let is_held = had_turn && connection.is_held();
        let is_lost = has_more && self.watch_again(place).is_err();
        if phase == Phase::Over || is_lost {
            self.connections.leave(place);
        } else if is_held {
            self.hold(held);
        }
        if had_turn || (is_lost && phase == Phase::Reading) {
            self.had_turn();
        }
    }

    // Lets a held reply out, if its connection is still there.
    fn let_out(&mut self, held: Held)
        ensures other { IsFalse (is_held_at self.old.connections held.place held.number) →
            self.new ≡ self.old }
    {
        let Held { place, number } = held;
        let now = self.now;
        if !self.connections.is_held_at(place, number) {
            return;
        }
        let Some(connection) = self.connections.get_mut(place) else {
            return;
        };
        connection.let_out(now);
        let is_over = connection.phase() == Phase::Over;
        let has_more = connection.has_more();
        if is_over || (has_more && self.watch_again(place).is_err()) {
            self.connections.leave(place);
        }
    }

    // A reply is held. Those that are held have half of the places at most, and where more would
    // be, the oldest is let out.
    fn hold(&mut self, held: Held) {
        if self.held.len() >= self.connections.most() / 2 {
            if let Some(oldest) = self.held.pop_front() {
                self.let_out(oldest);
            }
        }
        if self.held.push_back(held).is_err() {
            self.let_out(held);
        }
    }

    // Lets the oldest held replies out: one for each five milliseconds that passed, or as many
    // where no connection is still to have its turn.
    fn let_some_out(&mut self) {
        let passed = self.now.duration_since(self.last_out);
        if self.is_open() && passed < Duration::from_millis(LET_OUT_MILLIS) {
            return;
        }
        self.last_out = self.now;
        let count = (passed.as_millis() / u128::from(LET_OUT_MILLIS)).max(1);
        for _ in 0..count.min(MOST_LET_OUT) {
            let Some(held) = self.held.pop_front() else {
                return;
            };
            self.let_out(held);
        }
    }

    // The socket of a request that goes out is ready.
    fn step_call<A: Answers>(&mut self, answers: &mut A, place: usize)
        ensures credits { MatchOption (call_at self.old.calls place) (answers.new ≡ answers.old)
            (λ call. IsCredited A.hears call answers.old answers.new) }
        ensures rest { KeepsAllButCalls self.new self.old }
        ensures becomes { A.becomes answers.old answers.new }
    {
        let Some(call) = self.calls.get_mut(place) else {
            return;
        };
        call.step();
        let Some(reply) = call.final_reply() else {
            return;
        };
        answers.end_call(call.place(), call.errand(), reply);
        self.calls.keep(place);
    }

    // Gives up a request that goes out.
    fn lose<A: Answers>(&mut self, answers: &mut A, place: usize)
        ensures loses { MatchOption (call_at self.old.calls place) (answers.new ≡ answers.old)
            (λ call. A.hears answers.old (credit call.place call.errand []) answers.new) }
        ensures becomes { A.becomes answers.old answers.new }
    {
        if let Some(call) = self.calls.get_mut(place) {
            answers.end_call(call.place(), call.errand(), &[]);
        }
        self.calls.leave(place);
    }

    // A request goes out, at the time when it does. One that can't is lost, as a message may be.
    fn call<R: Net + Clock>(&mut self, rt: &R, outgoing: Outgoing) -> io::Result<()>
        ensures unnamed { outgoing.errand.addr ≡ None → IsErr result × (self.new ≡ self.old) }
    {
        let Some(addr) = outgoing.errand.addr else {
            return Err(io::ErrorKind::AddrNotAvailable.into());
        };
        let now = self.look_at_clock(rt);
        let place = self.calls.free_place()?;
        let call = match self.calls.take_stream(outgoing.place) {
            Some(stream) if is_open(&stream) => {
                let call = OutgoingConnection::new(self.alloc, stream, outgoing, now);
                self.call_again(place, call)?
            }
            _ => {
                let stream = connect_from(rt, self.addr, addr)?;
                let call = OutgoingConnection::new(self.alloc, stream, outgoing, now);
                self.call_first(place, call)?
            }
        };
        self.calls.enter(place, call);
        Ok(())
    }

    // A request begins at a place, on a connection of which the poll hasn't heard.
    fn call_first(
        &mut self,
        place: usize,
        call: OutgoingConnection,
    ) -> io::Result<OutgoingConnection> {
        let mut call = call;
        // A batch is written at once, so nothing is to be gathered by the socket.
        let _ = call.stream().set_nodelay(true);
        self.poll.registry().register(
            call.stream(),
            token_of_call(place),
            Interest::READABLE | Interest::WRITABLE,
        )?;
        // Where the member is near, it is connected already.
        call.step();
        Ok(call)
    }

    // A request begins at a place, on a connection that stayed open. What came for it meanwhile the
    // poll tells at once.
    fn call_again(
        &mut self,
        place: usize,
        call: OutgoingConnection,
    ) -> io::Result<OutgoingConnection> {
        let mut call = call;
        let interest = if call.send()? {
            Interest::READABLE
        } else {
            Interest::READABLE | Interest::WRITABLE
        };
        self.poll
            .registry()
            .reregister(call.stream(), token_of_call(place), interest)?;
        Ok(call)
    }

    // Sends what waits, as far as there is room.
    fn call_all<R: Net + Clock, A: Answers>(&mut self, rt: &R, answers: &mut A)
        ensures { A.becomes answers.old answers.new }
    {
        for _ in 0..u64::MAX {
            let Some(outgoing) = answers.next_call() else {
                break;
            };
            let (place, errand) = (outgoing.place, outgoing.errand);
            if !self.calls.add(outgoing) {
                answers.end_call(place, errand, &[]);
            }
        }
        for _ in 0..MOST_CALLED {
            let Some(outgoing) = self.calls.next() else {
                return;
            };
            self.call_or_lose(rt, outgoing, answers);
        }
    }

    // A request goes out, or is lost: then its lane has one less that is open.
    fn call_or_lose<R: Net + Clock, A: Answers>(
        &mut self,
        rt: &R,
        outgoing: Outgoing,
        answers: &mut A,
    )
        ensures closes { outgoing.errand.addr ≡ None → queues self.new.calls ≡
            changed_at after_end outgoing.place (queues self.old.calls) }
        ensures loses { outgoing.errand.addr ≡ None →
            A.hears answers.old (credit outgoing.place outgoing.errand []) answers.new }
        ensures becomes { A.becomes answers.old answers.new }
    {
        let (place, errand) = (outgoing.place, outgoing.errand);
        if self.call(rt, outgoing).is_err() {
            self.calls.close_lane(place);
            answers.end_call(place, errand, &[]);
        }
    }

    // Whether it may be done now what waits for nothing else: the requests are out, or others that
    // came since have kept it waiting for two milliseconds.
    fn may_go_on(&mut self, has_more: bool) -> bool {
        let since = self.waits_since.take().unwrap_or(self.now);
        if self.calls.are_out(self.now) {
            return true;
        }
        if has_more && self.now.duration_since(since) < Duration::from_millis(BEHIND_MILLIS) {
            self.waits_since = Some(since);
            return false;
        }
        has_more
    }

    // Sends what waits; once that is out, what waits for nothing else may be done.
    fn send_all<R: Net + Clock, A: Answers>(&mut self, rt: &R, answers: &mut A)
        requires always { Unit {0} }
        ensures { A.becomes answers.old answers.new }
    {
        self.call_all(rt, answers);
        if self.may_go_on(answers.has_more()) {
            answers.go_on();
        }
    }

    // Hears the replies that came to requests that went out.
    fn hear_calls<A: Answers>(&mut self, answers: &mut A, events: &Events<Global>)
        requires always { Unit {0} }
        ensures { A.becomes answers.old answers.new }
    {
        for event in events.iter() {
            match holder_of(event.token()) {
                Holder::OutgoingConnection(place) => self.step_call(answers, place),
                Holder::Connection(_) | Holder::Listener => {}
            }
        }
    }

    // How long it may wait for a socket: not at all where there is something to do.
    fn limit(&self, has_more: bool) -> Option<Duration> {
        if has_more && self.calls.are_out(self.now) {
            Some(Duration::from_millis(0))
        } else if has_more {
            Some(Duration::from_millis(BEHIND_MILLIS))
        } else if self.is_timed {
            Some(Duration::from_millis(STEP_MILLIS))
        } else if !self.held.is_empty() {
            Some(Duration::from_millis(LET_OUT_MILLIS))
        } else if self.connections.is_empty() && !self.is_behind {
            None
        } else {
            Some(Duration::from_millis(LATE_LOOK_MILLIS))
        }
    }

    // Does what the sockets of connections are ready for. The listener is last, so that what has
    // come is heard before any gives way.
    fn round<C: Clock, A: Answers, E: Write>(
        &mut self,
        clock: &C,
        answers: &mut A,
        events: &Events<Global>,
        log: &mut E,
    )
        requires always { Unit {0} }
        ensures { A.becomes answers.old answers.new }
    {
        let mut some_may_wait = self.is_behind;
        for event in events.iter() {
            match holder_of(event.token()) {
                Holder::Connection(place) => self.step(answers, place, log),
                Holder::OutgoingConnection(_) => {}
                Holder::Listener => some_may_wait = true,
            }
        }
        if some_may_wait && self.is_open() {
            self.take(clock, answers, log);
        }
    }

    // Ends what is late at a time up to which all that came was looked at.
    fn end_late<A: Answers, E: Write>(&mut self, answers: &mut A, now: Instant, log: &mut E)
        ensures { A.becomes answers.old answers.new }
    {
        for _ in 0..self.connections.end_late(now, log) {
            if self.is_open() {
                self.had_turn();
            }
        }
        for place in 0..self.calls.len() {
            if self.calls.is_late(place, now) {
                self.lose(answers, place);
            }
        }
    }

    // The time, by both clocks.
    fn time<C: Clock>(&self, clock: &C, now: Instant) -> Time {
        let since = now.duration_since(self.begun);
        Time {
            millis: u64::try_from(since.as_millis()).unwrap_or(u64::MAX),
            seconds: seconds_of(clock.since_1970()),
        }
    }

    // What is served hears the time, and how much is here.
    fn tell<A: Answers, E: Log>(&self, answers: &mut A, time: Time, log: &E)
        requires always { Unit {0} }
        ensures { A.becomes answers.old answers.new }
    {
        let traffic = Traffic {
            connections: self.connections.count(),
            lost: log.lost_count(),
        };
        answers.pass(time);
        answers.see(traffic);
    }

    /// Serves until all its connections had their turn and the last reply is out, until nothing is
    /// answered any more, or until it is ended. A connection has its turn when its request is
    /// served, or it is closed without a reply, and one that stays open has one for each request.
    pub fn serve<A: Answers, E: Log + Write>(
        &mut self,
        rt: &HostRuntime,
        answers: &mut A,
        log: &mut E,
    ) -> io::Result<()>
        requires always { Unit {0} }
        ensures { A.becomes answers.old answers.new }
    {
        let mut events = Events::with_capacity(self.alloc, EVENTS)?;
        for _ in 0..u64::MAX {
            if answers.is_over() || (!self.is_open() && self.connections.is_empty()) {
                return Ok(());
            }
            answers.look_up(rt);
            self.send_all(rt, answers);
            let limit = self.limit(answers.has_more());
            self.poll.poll(&mut events, limit)?;
            let now = self.look_at_clock(rt);
            let time = self.time(rt, now);
            self.tell(answers, time, log);
            // What a reply brings goes out first: whoever is to answer that is at it while others
            // are served here.
            self.hear_calls(answers, &events);
            self.send_all(rt, answers);
            self.round(rt, answers, &events, log);
            self.let_some_out();
            self.end_late(answers, now, log);
            write_lines(answers, log);
        }
        Ok(())
    }
}
