//! The members of a cluster, by their addresses.

ghost use Rattle.std.specs.Prelude.{◌≡◌, ◌+◌, ◌-◌, ◌≤◌, IfOk};
ghost use Rattle.press_net.specs.Addresses.{behind_loss, first_at, listed_count, sockets_at};
ghost use Rattle.press_cluster.specs.Digests.{digest_of};
ghost use Rattle.press_cluster.specs.Members.{is_other_at};
ghost use Rattle.press_wire.specs.Ranges.{member_id_of};
ghost use Rattle.press_cluster.specs.declared.peers.PeersFault.TheVariants.{NoMemory};

use crate::digest::digest_of;
use press_net::{AddressBook, Listed};
use press_wire::{MOST_MEMBERS, MemberId};
use std::alloc::{AllocError, Global};
use std::net::{IpAddr, Net, SocketAddr};
use thiserror::Error;

/// The members, of which one is this node.
pub struct Peers {
    book: AddressBook,
    own: MemberId,
    digest: u64,
}

impl Drop for Peers {
    fn drop(self) {
        let Peers {
            book: _,
            own: _,
            digest: _,
        } = self;
    }
}

/// Why no peers were read.
#[derive(Clone, Copy, Debug, PartialEq, Eq, Error)]
pub enum PeersFault {
    #[error("no memory")]
    NoMemory,
    /// The text names no members, or too many, or not this one; or what it names is none.
    #[error("no such peers")]
    Unknown,
    /// The name of this one can't be found.
    #[error("no address of its own")]
    NotFound,
}

impl From<AllocError> for PeersFault {
    fn from(_e: AllocError) -> PeersFault
        ensures { result ≡ NoMemory }
    {
        PeersFault::NoMemory
    }
}

impl Peers {
    /// The members whose addresses or names are in the text, with commas between; the node's number
    /// is its place there, from
    /// 1. The name of another may be found later.
    pub fn read<N: Net>(alloc: Global, net: &N, number: u8, text: &str) -> Result<Peers, PeersFault>
        ensures own { IfOk result (λ peers. peers.own ≡ number) }
        ensures among { IfOk result (λ peers. peers.own ≤ listed_count peers.book) }
        ensures digest { IfOk result (λ peers. peers.digest ≡ digest_of text.now) }
    {
        let mut book = AddressBook::new(alloc);
        for part in text.split(',') {
            if book.len() >= MOST_MEMBERS as usize
                || book.add(net, part)? == Listed::Never
                || book.is_doubled()
            {
                return Err(PeersFault::Unknown);
            }
        }
        let digest = digest_of(text.as_bytes());
        match MemberId::new(number) {
            Some(own) if usize::from(number) <= book.len() => Ok(Peers { book, own, digest }),
            _ => Err(PeersFault::Unknown),
        }
    }

    /// How many there are: at most 7.
    pub fn count(&self) -> usize
        ensures { result ≡ listed_count self.now.book }
    {
        self.book.len()
    }

    /// This node.
    pub fn own(&self) -> MemberId
        ensures { result ≡ self.now.own }
    {
        self.own
    }

    /// The digest of the text that lists them, by which members see whether they count the same.
    pub fn digest(&self) -> u64
        ensures { result ≡ self.now.digest }
    {
        self.digest
    }

    /// The address at which this node listens.
    pub fn own_addr(&self) -> Option<SocketAddr> {
        self.addr(place_of(self.own))
    }

    /// Where the next request to a member goes; none as long as its name isn't found.
    pub fn addr(&self, place: usize) -> Option<SocketAddr>
        ensures { result ≡ first_at self.now.book place }
    {
        self.book.first(place)
    }

    /// The name of a member that isn't found.
    pub fn missing_name(&self, place: usize) -> Option<&str> {
        self.book.missing_name(place)
    }

    /// Whether a member has that address.
    pub fn has(&self, ip: IpAddr) -> bool {
        self.book.has(ip)
    }

    /// Whether that is another member, which has that address.
    pub fn is_other_at(&self, member: MemberId, ip: IpAddr) -> bool
        ensures { result ≡ is_other_at self.now member ip }
    {
        member != self.own && self.book.is_at(place_of(member), ip)
    }

    /// A request to a member, which went there, was lost.
    pub fn lose(&mut self, place: usize, tried: Option<SocketAddr>)
        ensures own { self.new.own ≡ self.old.own }
        ensures count { listed_count self.new.book ≡ listed_count self.old.book }
        ensures lost { sockets_at self.new.book place
            ≡ behind_loss tried (sockets_at self.old.book place) }
    {
        self.book.lose(place, tried);
    }

    /// At that time, in milliseconds, the name of one to whom a request was lost may be looked up
    /// again.
    pub fn look_up<N: Net>(&mut self, net: &N, now: u64) {
        self.book.look_up(net, now);
    }
}

/// The place of a member, from 0.
pub fn place_of(member: MemberId) -> usize
    ensures { result ≡ member - 1 }
{
    usize::from(member.number()).saturating_sub(1)
}

/// The member of that place.
pub fn member_at(place: usize) -> Option<MemberId>
    ensures { result ≡ member_id_of (place + 1) }
{
    match u8::try_from(place.saturating_add(1)) {
        Ok(number) => MemberId::new(number),
        Err(_) => None,
    }
}
