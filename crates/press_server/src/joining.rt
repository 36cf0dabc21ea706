//! What a member of a cluster begins with: its peers, its store, and how many slots it knows to be
//! chosen.

ghost use Rattle.std.specs.Prelude.{◌≡◌, ◌≢◌, IfOk, IfSome, MatchResult, option_map};
ghost use Rattle.press_callbacks.specs.Kits.{kit_view};
ghost use Rattle.press_member.specs.Acts.{chain_in, first_view, node_in, view_of};
ghost use Rattle.press_member.specs.Starting.{IsItsStart};
ghost use Rattle.press_net.specs.Addresses.{listed_count};
ghost use Rattle.press_node.specs.Nodes.{kit_of, node_move, state_of, store_of};
ghost use Rattle.press_node.specs.States.{applied_count, started_at};
ghost use Rattle.press_server.specs.Stores.{IsBeforeLast, refusal_to_another};
ghost use Rattle.press_server.specs.Listening.{number_of};
ghost use Rattle.press_server.specs.Turns.{HasCaughtUp};
ghost use Rattle.press_store.specs.Kept.{seen_of};

use crate::serve_fault::{Foreign, ServeFault};
use crate::setup::{Role, Setup};
use crate::start_name::start_name;
use crate::turn::catch_up;
use press_acceptor::{PromiseStore, StoreFault};
use press_batch::Digests;
use press_callbacks::Kit;
use press_cluster::{Clustered, Party, Peers, PeersFault, Recollection};
use press_member::{Beginning, Member};
use press_node::{Node, StartFault};
use press_operator::{OperatorOptions, TimedStore};
use press_starts::{Mark, Sighting, Starts, Witness};
use press_store::{Notes, Owner, SqlStore, Tie};
use press_text::write_once;
use press_wire::{MOST_MEMBERS, MemberId};
use sqlite::Alter;
use std::alloc::{AllocError, Global};
use std::io::Write;
use std::net::SocketAddr;
use std::rc::Rc;

/// A member's place: its peers, the milliseconds of its tick, the digest of its kit, and whether it
/// stays where its node has stopped.
#[derive(Drop)]
pub struct Membership {
    peers: Peers,
    tick: u32,
    kit: u64,
    stays: bool,
}

impl Membership {
    /// Where it listens.
    pub fn addr(&self) -> Result<SocketAddr, ServeFault> {
        match self.peers.own_addr() {
            Some(addr) => Ok(addr),
            None => Err(PeersFault::NotFound.into()),
        }
    }

    fn members(&self) -> Option<u8>
        ensures { IfSome result (λ members. members ≡ listed_count self.now.peers.book) }
    {
        match u8::try_from(self.peers.count()) {
            Ok(members) => Some(members),
            Err(_) => None,
        }
    }

    /// Whose its file is.
    pub fn owner(&self) -> Result<Owner, ServeFault>
        ensures number { IfOk result (λ owner. owner.number ≡ self.now.peers.own) }
        ensures members { IfOk result (λ owner. owner.members ≡ listed_count self.now.peers.book) }
        ensures peers { IfOk result (λ owner. owner.peers ≡ self.now.peers.digest) }
    {
        match self.members() {
            Some(members) => Ok(Owner {
                number: self.peers.own(),
                members,
                peers: self.peers.digest(),
            }),
            None => Err(ServeFault::BadPeers),
        }
    }

    // What the member begins with beside its node, where so many slots are chosen.
    fn beginning(&self, chosen: u64) -> Result<Beginning, ServeFault>
        ensures id { IfOk result (λ beginning. beginning.id ≡ self.now.peers.own) }
        ensures members { IfOk result
            (λ beginning. beginning.members ≡ listed_count self.now.peers.book) }
    {
        let Some(members) = self.members() else {
            return Err(ServeFault::BadPeers);
        };
        let digests = Digests {
            peers: self.peers.digest(),
            kit: self.kit,
        };
        Ok(Beginning {
            id: self.peers.own(),
            members,
            tick: self.tick,
            digests,
            chosen,
        })
    }
}

fn missing_line(alloc: Global, name: &str) -> Result<String, AllocError> {
    format!(in alloc; "press: {name} isn't found yet\n")
}

// Tells whose name isn't found.
fn tell_missing<E: Write>(alloc: Global, peers: &Peers, error: &mut E) {
    for place in 0..peers.count() {
        let Some(name) = peers.missing_name(place) else {
            continue;
        };
        if let Ok(line) = missing_line(alloc, name) {
            let _ = write_once(error, line.as_bytes());
        }
    }
}

/// The place of the member that a server is to be, or whose store it is to make. None for a node by
/// itself.
pub fn membership_of<E: Write>(
    rt: &HostRuntime,
    setup: &Setup<'_>,
    error: &mut E,
) -> Result<Option<Membership>, ServeFault>
    ensures { IfOk result (λ membership. option_map (λ membership. membership.peers.own) membership
        ≡ number_of setup.now.place) }
{
    let (id, peers, tick) = match setup.place {
        Role::Alone { .. } => return Ok(None),
        Role::Member { id, peers, tick } => (id, peers, tick),
        Role::NewMember { id, peers } => (id, peers, 0),
    };
    let peers = Peers::read(rt.alloc(), rt, id, peers)?;
    if peers.own_addr().is_none() {
        return Err(PeersFault::NotFound.into());
    }
    tell_missing(rt.alloc(), &peers, error);
    Ok(Some(Membership {
        peers,
        tick,
        kit: setup.kit.unwrap_or(0),
        stays: setup.stay,
    }))
}

// Another's file is not served. A file that is nobody's is nobody else's.
fn admit(tie: Tie, owner: Option<Owner>, asked: Option<Owner>) -> Result<(), ServeFault>
    ensures { MatchResult result (λ _. tie ≢ Tie.Foreign)
        (λ fault. (fault ≡ refusal_to_another owner asked) × (tie ≡ Tie.Foreign)) }
{
    match (tie, owner) {
        (Tie::Own | Tie::Taken, _) => Ok(()),
        (Tie::Foreign, Some(owner)) => Err(ServeFault::Foreign(Foreign { owner, asked })),
        (Tie::Foreign, None) => Err(ServeFault::Damaged),
    }
}

/// Ties a store to the member that asks for it, or sees that it is no member's where a node by
/// itself does.
pub fn tie<D: Alter>(store: &mut SqlStore<D>, asked: Option<Owner>) -> Result<(), ServeFault> {
    let owner = store.owner()?;
    admit(store.tie(asked)?, owner, asked)
}

// How many slots are chosen, by what the store keeps: who proposes for a slot has applied those
// before it, so these are all before the last one with a vote.
fn chosen_by<D: Alter>(store: &mut SqlStore<D>) -> Result<u64, StoreFault>
    ensures { IfOk result (λ chosen. (seen_of D.Store store.new).is_honest →
        IsBeforeLast (seen_of D.Store store.old).kept chosen) }
{
    match store.last_vote()? {
        Some(slot) => Ok(u64::from(slot.number()).saturating_sub(1)),
        None => Ok(0),
    }
}

// The node of a member begins over its store.
fn begin_member<S: PromiseStore + Drop>(
    alloc: Global,
    peers: &Peers,
    kit: Kit,
    store: S,
) -> Result<Node<S>, ServeFault>
    ensures kit { IfOk result (λ node. kit_of node ≡ kit_view kit) }
    ensures joins { IfOk result (λ node. (S.seen (store_of node)).is_honest → state_of node
        ≡ started_at peers.now.own (listed_count peers.now.book) (S.seen store).kept.last_round) }
{
    let member = peers.own();
    let Ok(count) = u8::try_from(peers.count()) else {
        return Err(ServeFault::BadPeers);
    };
    if count > MOST_MEMBERS || member.number() > count {
        return Err(ServeFault::BadPeers);
    }
    match Node::start(alloc, member, count, kit, store) {
        Ok(node) => Ok(node),
        Err(StartFault { fault, .. }) => Err(fault.into()),
    }
}

// The only member of its cluster, which has caught up with its store.
fn begin_caught_up<S: PromiseStore + Drop>(
    alloc: Global,
    peers: &Peers,
    kit: Kit,
    store: S,
) -> Result<Node<S>, ServeFault>
    requires always { Unit {0} }
    ensures kit { IfOk result (λ node. kit_of node ≡ kit_view kit) }
    ensures caught_up { IfOk result (λ node. HasCaughtUp (λ a b. node_move S.seen a b)
        (λ n. applied_count (state_of n))
        (λ n. (S.seen (store_of n)).is_honest → state_of n
        ≡ started_at peers.now.own (listed_count peers.now.book) (S.seen store).kept.last_round)
        node) }
{
    let mut node = begin_member(alloc, peers, kit, store)?;
    catch_up(alloc, &mut node)?;
    Ok(node)
}

// A member among others starts over its store, which is a move of it.
fn start_member<S: PromiseStore + Drop>(
    alloc: Global,
    kit: Kit,
    store: S,
    beginning: Beginning,
) -> Result<Member<S>, ServeFault>
    ensures kit { IfOk result (λ member. kit_of (node_in (view_of member)) ≡ kit_view kit) }
    ensures begins { IfOk result
        (λ member. view_of member ≡ first_view beginning (node_in (view_of member))
        (chain_in (view_of member))) }
    ensures starts { IfOk result (λ member. IsItsStart S.seen (λ node. store_of node)
        (λ node. state_of node) store (view_of member)) }
{
    if beginning.members > MOST_MEMBERS || beginning.id.number() > beginning.members {
        return Err(ServeFault::BadPeers);
    }
    match Member::start(alloc, kit, store, beginning) {
        Ok(member) => Ok(member),
        Err(StartFault { fault, .. }) => Err(fault.into()),
    }
}

impl Membership {
    // The member begins over its store; the only one of its cluster has caught up with that.
    fn begin<S: PromiseStore + Drop>(
        &self,
        alloc: Global,
        kit: Kit,
        store: S,
        beginning: Beginning,
    ) -> Result<Member<S>, ServeFault>
        requires always { Unit {0} }
        ensures kit { IfOk result (λ member. kit_of (node_in (view_of member)) ≡ kit_view kit) }
        ensures begins { IfOk result
            (λ member. view_of member ≡ first_view beginning (node_in (view_of member))
            (chain_in (view_of member))) }
        ensures alone { listed_count self.now.peers.book ≡ 1 → IfOk result
            (λ member. HasCaughtUp (λ a b. node_move S.seen a b)
            (λ n. applied_count (state_of n)) (λ n. (S.seen (store_of n)).is_honest → state_of n
            ≡ started_at self.now.peers.own (listed_count self.now.peers.book)
            (S.seen store).kept.last_round) (node_in (view_of member))) }
        ensures among { listed_count self.now.peers.book ≢ 1 → IfOk result
            (λ member. IsItsStart S.seen (λ node. store_of node) (λ node. state_of node) store
            (view_of member)) }
    {
        if self.peers.count() != 1 {
            return start_member(alloc, kit, store, beginning);
        }
        let node = begin_caught_up(alloc, &self.peers, kit, store)?;
        Ok(Member::new(alloc, node, beginning)?)
    }
}

// The starts that the file of a store has, but for the one that runs.
fn earlier_starts<D: Alter>(
    alloc: Global,
    store: &mut SqlStore<D>,
) -> Result<Vec<Mark>, ServeFault> {
    let mut marks = Vec::new(alloc);
    for start in store.start_names()? {
        if let Some(saves) = store.saves_of(start)? {
            marks.push(Mark { start, saves })?;
        }
    }
    Ok(marks)
}

// What the file has of the other members.
fn remember_others<D: Alter>(
    store: &mut SqlStore<D>,
    witness: &mut Witness,
) -> Result<(), ServeFault> {
    for number in 1..=MOST_MEMBERS {
        let Some(member) = MemberId::new(number) else {
            continue;
        };
        if let Some(mark) = store.mark_of(member)? {
            witness.remember(Sighting { member, mark });
        }
    }
    Ok(())
}

// A start of the member begins in the file of its store.
fn begin_start<D: Alter>(
    rt: &HostRuntime,
    store: &mut SqlStore<D>,
) -> Result<Recollection, ServeFault> {
    let alloc = rt.alloc();
    let earlier = earlier_starts(alloc, store)?;
    let notes = Rc::new(alloc, Notes::new())?;
    let Ok(start) = start_name(rt) else {
        return Err(ServeFault::Disk);
    };
    store.begin_start(start, notes.clone()?)?;
    let witness = match store.mark() {
        Some(mark) => {
            let mut witness = Witness::new(mark, earlier);
            remember_others(store, &mut witness)?;
            Some(witness)
        }
        None => None,
    };
    Ok(Recollection::new(witness, notes))
}

/// Who is to be a member: its place, what its operator asked for, and the clock by which its saves
/// are timed.
#[derive(Drop)]
pub struct Joiner<'s> {
    pub rt: &'s HostRuntime,
    pub membership: Membership,
    pub options: &'s OperatorOptions,
}

/// The member, over its store.
pub fn join<'s, D: Alter + Drop>(
    joiner: Joiner<'s>,
    kit: Kit,
    store: SqlStore<D>,
) -> Result<Clustered<'s, TimedStore<'s, SqlStore<D>>>, ServeFault>
    requires always { Unit {0} }
{
    let Joiner {
        rt,
        membership,
        options,
    } = joiner;
    let alloc = rt.alloc();
    let mut store = store;
    let beginning = membership.beginning(chosen_by(&mut store)?)?;
    let recollection = begin_start(rt, &mut store)?;
    let store = TimedStore::new(rt, options.tally(), store);
    let member = membership.begin(alloc, kit, store, beginning)?;
    let Membership { peers, stays, .. } = membership;
    let party = Party {
        peers,
        options,
        stays,
        recollection,
    };
    Ok(Clustered::new(alloc, member, party)?)
}
