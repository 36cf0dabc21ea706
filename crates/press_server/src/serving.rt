//! A node behind a server, by itself or as a member of a cluster, over a store in memory or in a
//! file.

ghost use Rattle.std.specs.Prelude.{◌≡◌, IfOk, string_bytes};
ghost use Rattle.press_text.specs.Streams.{AppendsFront};
ghost use Rattle.press_callbacks.specs.Kits.{kit_view};
ghost use Rattle.press_node.specs.Nodes.{kit_of, node_move, state_of, store_of};
ghost use Rattle.press_node.specs.States.{applied_count, started_at};
ghost use Rattle.press_server.specs.Listening.{server_line, where_of};
ghost use Rattle.press_server.specs.Listening.Where.{alone_at, member_of, new_member_of};
ghost use Rattle.press_server.specs.Turns.{HasCaughtUp};

use crate::alone::Alone;
use crate::files::{FEWEST, OWN, most_connections, open_files};
use crate::joining::{Joiner, Membership, join, membership_of, tie};
use crate::serve_fault::ServeFault;
use crate::setup::{Role, Setup};
use crate::store_file::{look_for, make, open};
use crate::turn::catch_up;
use press_acceptor::{MemoryStore, PromiseStore, StoreFault};
use press_callbacks::Kit;
use press_net::{Answers, Lines, Server, Task};
use press_node::{Node, StartFault};
use press_operator::{OperatorOptions, Tally, TimedStore};
use press_text::{Text, write_once};
use press_wire::MemberId;
use std::alloc::{AllocError, Global};
use std::fs;
use std::io::Write;
use std::net::{IpAddr, Ipv4Addr, SocketAddr};

// The descriptor of the writer for lines.
const STANDARD_ERROR: i32 = 2;

// Where a process finds its limits.
const LIMITS: &str = "/proc/self/limits";

// The only member of its cluster.
fn member() -> MemberId
    ensures { result ≡ 1 }
{
    let Some(member) = MemberId::new(1) else {
        unreachable!()
    };
    member
}

/// Starts the only node of a cluster over its store.
pub fn begin<S: PromiseStore + Drop>(
    alloc: Global,
    kit: Kit,
    store: S,
) -> Result<Node<S>, StoreFault>
    ensures kit { IfOk result (λ node. kit_of node ≡ kit_view kit) }
    ensures begins { IfOk result (λ node. (S.seen (store_of node)).is_honest → state_of node
        ≡ started_at 1 1 (S.seen store).kept.last_round) }
{
    match Node::start(alloc, member(), 1, kit, store) {
        Ok(node) => Ok(node),
        Err(StartFault { fault, .. }) => Err(fault),
    }
}

// The same node, once it has caught up with its store.
fn begin_caught_up<S: PromiseStore + Drop>(
    alloc: Global,
    kit: Kit,
    store: S,
) -> Result<Node<S>, StoreFault>
    requires always { Unit {0} }
    ensures kit { IfOk result (λ node. kit_of node ≡ kit_view kit) }
    ensures caught_up { IfOk result (λ node. HasCaughtUp (λ a b. node_move S.seen a b)
        (λ n. applied_count (state_of n))
        (λ n. (S.seen (store_of n)).is_honest → state_of n
        ≡ started_at 1 1 (S.seen store).kept.last_round) node) }
{
    let mut node = begin(alloc, kit, store)?;
    catch_up(alloc, &mut node)?;
    Ok(node)
}

#[tactic(auto, unfolding(crate::specs::Listening::server_line))]
fn alone_line(alloc: Global, port: u16) -> Result<String, AllocError>
    ensures { IfOk result (λ t. string_bytes t ≡ server_line (alone_at port)) }
{
    format!(in alloc; "listening on 127.0.0.1:{port}\n")
}

#[tactic(auto, unfolding(crate::specs::Listening::server_line))]
fn new_member_line(alloc: Global, id: u8, peers: &str) -> Result<String, AllocError>
    ensures { IfOk result (λ t. string_bytes t ≡ server_line (new_member_of id peers.now)) }
{
    format!(in alloc; "made the store of member {id} of {peers}\n")
}

#[tactic(auto, unfolding(crate::specs::Listening::server_line))]
fn member_line(alloc: Global, id: u8, peers: &str) -> Result<String, AllocError>
    ensures { IfOk result (λ t. string_bytes t ≡ server_line (member_of id peers.now)) }
{
    format!(in alloc; "listening as {id} of {peers}\n")
}

fn server_line(alloc: Global, place: &Role<'_>) -> Result<String, AllocError>
    ensures { IfOk result (λ t. string_bytes t ≡ server_line (where_of place.now)) }
{
    match place {
        Role::Alone { port } => alone_line(alloc, *port),
        Role::Member { id, peers, .. } => member_line(alloc, *id, peers),
        Role::NewMember { id, peers } => new_member_line(alloc, *id, peers),
    }
}

/// What a server begins with.
#[derive(Clone, Copy)]
pub struct Start<'a> {
    pub rt: &'a HostRuntime,
    pub setup: &'a Setup<'a>,
    /// The most connections that are open at once.
    pub most: usize,
}

// A server that listens already, and what it begins with.
#[derive(Drop)]
struct Listening<'a> {
    start: Start<'a>,
    server: Server,
}

// Writes the line that it listens, or has made what it was to make.
#[tactic(auto, using(crate::proofs::Fronts::nothing))]
fn announce<W: Write>(alloc: Global, place: &Role<'_>, writer: &mut W) -> Result<(), ServeFault>
    ensures { AppendsFront (W.contents writer.old) (W.contents writer.new)
        (server_line (where_of place.now)) }
{
    let line = server_line(alloc, place)?;
    write_once(writer, line.as_bytes())?;
    match writer.flush() {
        Ok(()) => Ok(()),
        Err(_) => Err(ServeFault::WriteFault),
    }
}

// Listens at an address.
fn listen(start: Start<'_>, addr: SocketAddr) -> Result<Server, ServeFault> {
    let Start { rt, setup, most } = start;
    let task = Task {
        turns: setup.turns,
        most,
        is_timed: matches!(setup.place, Role::Member { .. }),
    };
    Ok(Server::listen(rt, addr, task)?)
}

// Writes its line, and serves whoever comes to a server that listens.
#[tactic(auto, using(crate::proofs::Fronts::nothing))]
fn serve_over<A: Answers, W: Write, E: Write>(
    listening: Listening<'_>,
    answers: &mut A,
    writer: &mut W,
    error: &mut E,
) -> Result<(), ServeFault>
    requires always { Unit {0} }
    ensures listens { AppendsFront (W.contents writer.old) (W.contents writer.new)
        (server_line (where_of listening.entry.start.setup.now.place)) }
    ensures becomes { A.becomes answers.old answers.new }
{
    let Listening { start, mut server } = listening;
    let Start { rt, setup, .. } = start;
    tell_kit(setup, error);
    let mut lines = Lines::new(rt, STANDARD_ERROR, error)?;
    announce(rt.alloc(), &setup.place, writer)?;
    server.serve(rt, answers, &mut lines)?;
    Ok(())
}

// A line says that too few files may be open; one that can't be written is dropped.
fn tell_few<E: Write>(alloc: Global, files: u64, error: &mut E) {
    let needed = OWN.saturating_add(FEWEST);
    let line = format!(in alloc;
        "press: the limit of open files is {files}, and {needed} are needed\n"
    );
    if let Ok(line) = line {
        let _ = write_once(error, line.as_bytes());
    }
}

// A line says which kit is played where none was named; one that can't be written is dropped.
fn tell_kit<E: Write>(setup: &Setup<'_>, error: &mut E) {
    if setup.kit.is_none() {
        let _ = write_once(error, b"press: it plays the demonstration kit (no --kit)\n");
    }
}

// How many connections may be open at once. Limits that can't be read are none.
fn most_open<E: Write>(rt: &HostRuntime, error: &mut E) -> Result<usize, ServeFault> {
    let files = match fs::read(rt, LIMITS) {
        Ok(limits) => open_files(&limits),
        Err(_) => None,
    };
    match most_connections(files) {
        Some(most) => Ok(most),
        None => {
            tell_few(rt.alloc(), files.unwrap_or(0), error);
            Err(ServeFault::FewFiles)
        }
    }
}

fn options_of(rt: &HostRuntime, setup: &Setup<'_>) -> Result<OperatorOptions, ServeFault> {
    let editor = match setup.editor {
        None => None,
        Some(file) => match fs::read_to_string(rt, file) {
            Ok(page) => Some(Text::from_string(page)?),
            Err(_) => return Err(ServeFault::ReadFault),
        },
    };
    let tally = if setup.status {
        Some(Tally::new())
    } else {
        None
    };
    Ok(OperatorOptions::new(rt.alloc(), editor, setup.ahead.map(u64::from), tally)?)
}

fn loopback(port: u16) -> SocketAddr {
    SocketAddr::new(IpAddr::V4(Ipv4Addr::new(127, 0, 0, 1)), port)
}

fn port_of(place: Role<'_>) -> u16 {
    match place {
        Role::Alone { port } => port,
        Role::Member { .. } | Role::NewMember { .. } => 0,
    }
}

// What a server has beside its store.
#[derive(Drop)]
struct Beside<'a> {
    start: Start<'a>,
    options: OperatorOptions,
    kit: Kit,
}

// A node by itself.
#[tactic(auto, using(crate::proofs::Fronts::nothing))]
fn serve_alone<S: PromiseStore + Drop, W: Write, E: Write>(
    beside: Beside<'_>,
    store: S,
    writer: &mut W,
    error: &mut E,
) -> Result<(), ServeFault>
    ensures { AppendsFront (W.contents writer.old) (W.contents writer.new)
        (server_line (where_of beside.entry.start.setup.now.place)) }
{
    let Beside {
        start,
        options,
        kit,
    } = beside;
    let Start { rt, setup, .. } = start;
    let store = TimedStore::new(rt, options.tally(), store);
    let node = begin_caught_up(rt.alloc(), kit, store)?;
    let addr = loopback(port_of(setup.place));
    let mut alone = Alone::new(rt.alloc(), addr, node, &options)?;
    let server = listen(start, addr)?;
    serve_over(Listening { start, server }, &mut alone, writer, error)
}

// A node by itself over the store in a file, which is no member's, or in memory.
#[tactic(auto, using(crate::proofs::Fronts::nothing))]
fn serve_by_itself<W: Write, E: Write>(
    beside: Beside<'_>,
    writer: &mut W,
    error: &mut E,
) -> Result<(), ServeFault>
    ensures { AppendsFront (W.contents writer.old) (W.contents writer.new)
        (server_line (where_of beside.entry.start.setup.now.place)) }
{
    let Start { rt, setup, .. } = beside.start;
    let Some(file) = setup.store else {
        return serve_alone(beside, MemoryStore::new(rt.alloc()), writer, error);
    };
    let mut store = open(rt, file)?;
    tie(&mut store, None)?;
    serve_alone(beside, store, writer, error)
}

// Who is to be a member, of what it has beside its store.
#[derive(Drop)]
struct Candidate<'a> {
    membership: Membership,
    beside: Beside<'a>,
}

// The file of a member's store, where it is there as its place wants it.
fn file_of<'a>(start: Start<'a>) -> Result<&'a str, ServeFault> {
    let Start { rt, setup, .. } = start;
    let Some(file) = setup.store else {
        return Err(ServeFault::BadPeers);
    };
    look_for(rt, setup.place, file)?;
    Ok(file)
}

// The store of a new member is made, where that could listen. Nobody is served.
#[tactic(auto, using(crate::proofs::Fronts::nothing))]
fn make_store<W: Write>(candidate: Candidate<'_>, writer: &mut W) -> Result<(), ServeFault>
    ensures { AppendsFront (W.contents writer.old) (W.contents writer.new)
        (server_line (where_of candidate.entry.beside.start.setup.now.place)) }
{
    let Candidate { membership, beside } = candidate;
    let Start { rt, setup, .. } = beside.start;
    let file = file_of(beside.start)?;
    drop(listen(beside.start, membership.addr()?)?);
    make(rt, file, membership.owner()?)?;
    announce(rt.alloc(), &setup.place, writer)
}

// A member over its store, which is opened once it listens.
#[tactic(auto, using(crate::proofs::Fronts::nothing))]
fn serve_member<W: Write, E: Write>(
    candidate: Candidate<'_>,
    writer: &mut W,
    error: &mut E,
) -> Result<(), ServeFault>
    ensures { AppendsFront (W.contents writer.old) (W.contents writer.new)
        (server_line (where_of candidate.entry.beside.start.setup.now.place)) }
{
    let Candidate { membership, beside } = candidate;
    let Beside {
        start,
        options,
        kit,
    } = beside;
    let Start { rt, .. } = start;
    let file = file_of(start)?;
    let server = listen(start, membership.addr()?)?;
    let mut store = open(rt, file)?;
    tie(&mut store, Some(membership.owner()?))?;
    let joiner = Joiner {
        rt,
        membership,
        options: &options,
    };
    let mut clustered = join(joiner, kit, store)?;
    serve_over(Listening { start, server }, &mut clustered, writer, error)?;
    match clustered.stop() {
        Some(stop) => Err(stop.into()),
        None if clustered.ends_forgotten() => Err(ServeFault::Forgotten),
        None => Ok(()),
    }
}

impl Setup<'_> {
    /// Serves one node: it listens, writes its line, and serves connections until as many as were
    /// asked for had their turn, or until it is ended, with a line for each on the other writer.
    /// One by itself has caught up with its store by then, which it makes where there is none; a
    /// member of a cluster has a store, answers no page and no command until its peers have nothing
    /// newer, and ends where its store fails, unless it is to stay. Of a new member the store is
    /// made, and nothing is served. What fails before a member listens leaves no file that wasn't
    /// there.
    #[tactic(auto, using(crate::proofs::Fronts::nothing))]
    pub fn serve<W: Write, E: Write>(
        &self,
        rt: &HostRuntime,
        kit: Kit,
        writer: &mut W,
        error: &mut E,
    ) -> Result<(), ServeFault>
        ensures { AppendsFront (W.contents writer.old) (W.contents writer.new)
            (server_line (where_of self.now.place)) }
    {
        let membership = membership_of(rt, self, error)?;
        let most = most_open(rt, error)?;
        let start = Start {
            rt,
            setup: self,
            most,
        };
        let options = options_of(rt, self)?;
        let beside = Beside {
            start,
            options,
            kit,
        };
        let Some(membership) = membership else {
            return serve_by_itself(beside, writer, error);
        };
        let candidate = Candidate { membership, beside };
        match self.place {
            Role::NewMember { .. } => make_store(candidate, writer),
            _ => serve_member(candidate, writer, error),
        }
    }
}
