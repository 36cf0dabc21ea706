//! Where requests go: the addresses of those who are listed, by place.

ghost use Rattle.std.specs.Prelude.{ℕ, ◌≡◌, ◌≢◌, ◌++◌, ◌∷◌, ◌<◌, ◌≤◌, [], IfOk, IfErr, IfSome, Some, None, false, length, slice_get, true};
ghost use Rattle.std.specs.List.{list_any};
ghost use Rattle.std.specs.Net.Socket.{socket_ip};
ghost use Rattle.press_net.specs.Talking.{is_same};
ghost use Rattle.press_net.specs.declared.addresses.AddressEntry.{AddressEntry};
ghost use Rattle.press_net.specs.Addresses.{HasSameTurn, HasTurn, IsFirstWanted, IsLookedUp, IsLookedUpAt, behind_loss, due_behind, first_at, newly_found, has_ip, has_socket, is_same_socket, listed_count, pause, sockets_at, found_again, wants, wants_at, went_first, with_found};

use std::alloc::{AllocError, Global};
use std::net::{IpAddr, Net, SocketAddr, ToSocketAddrs};

// Milliseconds from one lookup to the next.
const LOOKUP_MILLIS: u64 = 1_000;

// Nor is a name looked up before so many times as long as the last lookup took: lookups take a
// small part of the time.
const SHARE: u64 = 30;

// The longest name of a host.
const LONGEST: usize = 253;

/// What is known of one who is listed.
#[derive(Clone, Copy, Debug, PartialEq, Eq)]
pub enum Listed {
    Found,
    /// Its name may be found later.
    NotYet,
    /// The text is no address and no name with a port.
    Never,
}

// One who is listed.
#[derive(Drop)]
struct AddressEntry {
    // What is looked up; none where it is listed by number.
    name: Option<String>,
    // Its addresses, of which requests go to the first; none where its name isn't found yet.
    sockets: Vec<SocketAddr>,
    // Whether its name is to be looked up.
    is_wanted: bool,
}

fn is_at(socket: &SocketAddr, ip: IpAddr) -> bool
    ensures { result ≡ is_same ip (socket_ip socket.now) }
{
    ip == socket.ip()
}

fn has_ip(sockets: &[SocketAddr], ip: IpAddr) -> bool
    ensures { result ≡ has_ip ip sockets.now }
{
    sockets.iter().any(|socket| is_at(socket, ip))
}

fn is_same_socket(one: SocketAddr, other: SocketAddr) -> bool
    ensures { result ≡ is_same_socket one other }
{
    one == other
}

fn has_socket(sockets: &[SocketAddr], socket: SocketAddr) -> bool
    ensures { result ≡ has_socket sockets.now socket }
{
    sockets.iter().any(|other| is_same_socket(*other, socket))
}

fn keep_found(known: &mut Vec<SocketAddr>, found: &[SocketAddr])
    ensures { known.new.items ≡ found_again known.old.items found.now }
{
    known.retain(|socket| has_socket(found, *socket));
}

fn drop_known(found: &mut Vec<SocketAddr>, known: &[SocketAddr])
    ensures { found.new.items ≡ newly_found known.now found.old.items }
{
    found.retain(|socket| !has_socket(known, *socket));
}

// The addresses that a text gives, as many as are found.
fn sockets_of<N: Net>(alloc: Global, net: &N, text: &str) -> Result<Vec<SocketAddr>, AllocError> {
    let mut sockets = Vec::new(alloc);
    if let Ok(found) = text.to_socket_addrs(net) {
        for socket in found {
            sockets.push(socket)?;
        }
    }
    Ok(sockets)
}

// Milliseconds until the next lookup behind one that took so long.
fn pause(took: u64) -> u64
    ensures { result ≡ pause took }
{
    took.saturating_mul(SHARE).max(LOOKUP_MILLIS)
}

fn is_host_byte(byte: u8) -> bool {
    byte.is_ascii_alphanumeric() || matches!(byte, b'-' | b'_' | b'.')
}

// Whether it is a name of a host: what ends in digits alone is a number.
fn is_host(host: &str) -> bool {
    let host = host.strip_suffix('.').unwrap_or(host);
    let last = match host.rsplit_once('.') {
        Some((_, last)) => last,
        None => host,
    };
    host.len() <= LONGEST
        && host.bytes().all(|byte| is_host_byte(byte))
        && !last.bytes().all(|byte| byte.is_ascii_digit())
}

// Whether it is a name of a host, with a port.
fn is_name(text: &str) -> bool {
    match text.rsplit_once(':') {
        Some((host, port)) => is_host(host) && port.parse::<u16>().is_ok(),
        None => false,
    }
}

impl AddressEntry {
    fn read<N: Net>(alloc: Global, net: &N, text: &str) -> Result<AddressEntry, AllocError> {
        let sockets = sockets_of(alloc, net, text)?;
        let name = match text.parse::<SocketAddr>() {
            Ok(_) => None,
            Err(_) => Some(String::from_str(alloc, text)?),
        };
        Ok(AddressEntry {
            name,
            is_wanted: sockets.is_empty(),
            sockets,
        })
    }

    fn is_found(&self) -> bool {
        !self.sockets.is_empty()
    }

    // Whether both have an address, or a name.
    fn shares(&self, other: &AddressEntry) -> bool {
        let is_same = match (&self.name, &other.name) {
            (Some(one), Some(other)) => one == other,
            _ => false,
        };
        is_same
            || self
                .sockets
                .iter()
                .any(|socket| has_socket(&other.sockets, *socket))
    }

    // Whether a request went to the first of its addresses.
    fn went_first(&self, tried: Option<SocketAddr>) -> bool
        ensures { result ≡ went_first tried self.now.sockets.items }
    {
        match (tried, self.sockets.first()) {
            (Some(tried), Some(first)) => is_same_socket(*first, tried),
            _ => false,
        }
    }

    // A request that went there was lost.
    fn lose(&mut self, tried: Option<SocketAddr>)
        ensures sockets { self.new.sockets.items ≡ behind_loss tried self.old.sockets.items }
        ensures wanted { self.new.is_wanted ≡ true }
        ensures name { self.new.name ≡ self.old.name }
    {
        self.is_wanted = true;
        if self.went_first(tried) {
            self.sockets.rotate_left(1);
        }
    }

    fn wants(&self) -> bool
        ensures { result ≡ wants self.now }
    {
        self.is_wanted && self.name.is_some()
    }

    // These were found. Without memory what was known stays.
    fn take(&mut self, alloc: Global, found: Vec<SocketAddr>) -> Result<(), AllocError>
        ensures found { IfOk result (λ _. self.new.sockets.items ≡
            with_found self.old.sockets.items found.items) }
        ensures stays { IfErr result (λ _. self.new ≡ self.old) }
        ensures wanted { self.new.is_wanted ≡ self.old.is_wanted }
        ensures name { self.new.name ≡ self.old.name }
    {
        if found.is_empty() {
            return Ok(());
        }
        let mut known = Vec::new(alloc);
        known.extend_from_slice(&self.sockets)?;
        keep_found(&mut known, &found);
        let mut found = found;
        drop_known(&mut found, &known);
        found.extend_from_slice(&known)?;
        self.sockets = found;
        Ok(())
    }

    // Looks its name up; without memory nothing is found.
    fn look_up<N: Net>(&mut self, alloc: Global, net: &N) -> Result<(), AllocError>
        ensures wanted { self.new.is_wanted ≡ false }
        ensures name { self.new.name ≡ self.old.name }
        ensures found { IsLookedUp self.old self.new }
    {
        self.is_wanted = false;
        let Some(name) = &self.name else {
            return Ok(());
        };
        let found = sockets_of(alloc, net, name.as_str())?;
        self.take(alloc, found)
    }
}

/// The addresses of those who are listed, by place. Names are looked up, and again behind each
/// request that was lost.
#[derive(Drop)]
pub struct AddressBook {
    alloc: Global,
    all: Vec<AddressEntry>,
    // The place whose name was looked up last, and when that began, until it is known how long it
    // took.
    last: usize,
    begun: Option<u64>,
    // When the next name may be looked up.
    due: u64,
}

impl AddressBook {
    pub fn new(alloc: Global) -> AddressBook
        ensures { result.all.items ≡ [] }
    {
        AddressBook {
            alloc,
            all: Vec::new(alloc),
            last: 0,
            begun: None,
            due: LOOKUP_MILLIS,
        }
    }

    /// Puts one more at the end, unless it is none: an address with its port, or a name with a
    /// port, which is looked up.
    pub fn add<N: Net>(&mut self, net: &N, text: &str) -> Result<Listed, AllocError>
        ensures added { IfOk result (λ told. told ≢ Listed.Never →
            (entry : AddressEntry) × (self.new.all.items ≡ self.old.all.items ++ entry ∷ [])) }
        ensures not_added { IfOk result (λ told. told ≡ Listed.Never → self.new ≡ self.old) }
        ensures no_memory { IfErr result (λ _. self.new.all.items ≡ self.old.all.items) }
    {
        let entry = AddressEntry::read(self.alloc, net, text)?;
        let told = if entry.is_found() {
            Listed::Found
        } else if is_name(text) {
            Listed::NotYet
        } else {
            return Ok(Listed::Never);
        };
        self.all.push(entry)?;
        Ok(told)
    }

    /// How many are listed.
    pub fn len(&self) -> usize
        ensures { result ≡ listed_count self.now }
    {
        self.all.len()
    }

    /// Where the next request to the one at a place goes; none where no address of its is known.
    pub fn first(&self, place: usize) -> Option<SocketAddr>
        ensures { result ≡ first_at self.now place }
    {
        self.all.get(place)?.sockets.first().copied()
    }

    /// Whether the one at a place has that address.
    pub fn is_at(&self, place: usize, ip: IpAddr) -> bool
        ensures { result ≡ has_ip ip (sockets_at self.now place) }
    {
        match self.all.get(place) {
            Some(entry) => has_ip(&entry.sockets, ip),
            None => false,
        }
    }

    /// Whether one that is listed has that address.
    pub fn has(&self, ip: IpAddr) -> bool
        ensures { result ≡ list_any (λ entry. has_ip ip entry.sockets.items) self.now.all.items }
    {
        self.all.iter().any(|entry| has_ip(&entry.sockets, ip))
    }

    /// What one is listed by whose address isn't known.
    pub fn missing_name(&self, place: usize) -> Option<&str> {
        let entry = self.all.get(place)?;
        if entry.is_found() {
            return None;
        }
        match &entry.name {
            Some(name) => Some(name.as_str()),
            None => None,
        }
    }

    // Whether the ones at two places have an address, or a name.
    fn share(&self, place: usize, other: usize) -> bool {
        match (self.all.get(place), self.all.get(other)) {
            (Some(one), Some(other)) => one.shares(other),
            _ => false,
        }
    }

    /// Whether the last one has an address, or a name, that another has, too.
    pub fn is_doubled(&self) -> bool {
        let last = self.all.len().saturating_sub(1);
        for other in 0..last {
            if self.share(last, other) {
                return true;
            }
        }
        false
    }

    /// A request to the one at a place, which went there, was lost: if that is its first address,
    /// the next one goes to the next, and its name is to be looked up.
    pub fn lose(&mut self, place: usize, tried: Option<SocketAddr>)
        ensures there { sockets_at self.new place ≡ behind_loss tried (sockets_at self.old place) }
        ensures others { (other : ℕ) → other ≢ place →
            sockets_at self.new other ≡ sockets_at self.old other }
        ensures count { listed_count self.new ≡ listed_count self.old }
        ensures wanted { IfSome (slice_get self.new.all.items place)
            (λ entry. entry.is_wanted ≡ true) }
        ensures turn { HasSameTurn self.new self.old }
    {
        if let Some(entry) = self.all.get_mut(place) {
            entry.lose(tried);
        }
    }

    // The first place from one on whose name is to be looked up.
    fn wanted_from(&self, first: usize) -> Option<usize>
        ensures { IsFirstWanted self.now first result }
    {
        for place in first..self.all.len() {
            if let Some(entry) = self.all.get(place) {
                if entry.wants() {
                    return Some(place);
                }
            }
        }
        None
    }

    // The last lookup is over, if it wasn't known yet.
    fn note_end(&mut self, now: u64)
        ensures same { self.new.all ≡ self.old.all }
        ensures last { self.new.last ≡ self.old.last }
        ensures due { self.new.due ≡ due_behind self.old now }
        ensures noted { self.new.begun ≡ None }
    {
        if let Some(begun) = self.begun.take() {
            self.due = now.saturating_add(pause(now.saturating_sub(begun)));
        }
    }

    /// At that time, in milliseconds, looks up the name of one to whom a request was lost, if one
    /// may be: at most one in a second, and none before thirty times as long as the last one took.
    /// It waits for the resolver.
    pub fn look_up<N: Net>(&mut self, net: &N, now: u64)
        ensures rests { self.new.begun ≡ None → self.new.all ≡ self.old.all }
        ensures early { now < due_behind self.old now → self.new.begun ≡ None }
        ensures begins { due_behind self.old now ≤ now → (place : ℕ) →
            wants_at self.old place ≡ true → self.new.begun ≡ Some now }
        ensures time { IfSome self.new.begun (λ begun. begun ≡ now) }
        ensures turn { IfSome self.new.begun (λ _. HasTurn self.old self.new.last) }
        ensures others { (other : ℕ) → other ≢ self.new.last →
            sockets_at self.new other ≡ sockets_at self.old other }
        ensures known { IfSome self.new.begun (λ _. wants_at self.new self.new.last ≡ false) }
        ensures found { IfSome self.new.begun (λ _.
            IsLookedUpAt self.old self.new self.new.last) }
        ensures due { self.new.due ≡ due_behind self.old now }
    {
        self.note_end(now);
        if now < self.due {
            return;
        }
        let next = self.last.saturating_add(1);
        let Some(place) = self.wanted_from(next).or(self.wanted_from(0)) else {
            return;
        };
        self.last = place;
        self.begun = Some(now);
        if let Some(entry) = self.all.get_mut(place) {
            let _ = entry.look_up(self.alloc, net);
        }
    }
}
