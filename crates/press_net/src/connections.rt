//! The open connections.

ghost use Rattle.std.specs.Prelude.{◌≡◌, ◌<◌, ◌≤◌, [], IfErr, IfOk, IfSome, IsSomeAnd, List, MatchOption, None, Option, Some, is_none, position, slice_set, true};
ghost use Rattle.std.specs.List.{list_all};
ghost use Rattle.press_net.specs.declared.connection.Group.TheVariants.{Member};
ghost use Rattle.press_net.specs.declared.connection.Connection.{Connection};
ghost use Rattle.press_net.specs.Talking.{GivesWay, GoesFirst, GoesFor, HasNone, HasRank, IsOldest, MakesPlace, MakesWay, MayGrow, count_of, free_where, has_room, is_crowded, is_from, is_held_at, is_late, is_reading, is_same, is_stranger, is_unheard, kept_unless, meets, rank_of, connection_at, with_slot};

use crate::connection::{Connection, Group, Phase};
use std::alloc::{AllocError, Global};
use std::io::Write;
use std::net::IpAddr;
use std::time::Instant;

// The part of all places that is kept back for members: a sixteenth.
const KEPT_BACK: usize = 16;

const GIVEN_UP: &str = "given up for another";

/// Those of a group that are in a phase.
#[derive(Clone, Copy)]
pub struct Rank {
    pub group: Group,
    pub phase: Phase,
    /// Whether a second or more is over since their sockets took anything of a reply that isn't
    /// out.
    pub is_stalled: bool,
}

/// Connections that are taken one after the other, before others have their turn.
#[derive(Clone, Copy)]
pub struct Intake {
    /// The number of the first of them.
    pub first: u64,
    /// A time up to which all that came was looked at.
    pub now: Instant,
}

/// Connections by their places. Where each place is taken, one that was there before gives way to a
/// newcomer.
pub struct Connections {
    places: Vec<Option<Connection>>,
    // The most connections that are open at once.
    most: usize,
}

// A connection ends, with a line where its request wasn't whole; whether it wasn't.
fn close<E: Write>(slot: &mut Option<Connection>, log: &mut E, why: &str) -> bool
    ensures free { slot.new ≡ None }
    ensures reading { result ≡ meets is_reading slot.old }
{
    let Some(connection) = slot.take() else {
        return false;
    };
    if connection.phase() != Phase::Reading {
        return false;
    }
    connection.give_up(log, why);
    true
}

// Closes one whose time is over; whether it had had no turn.
fn end_if_late<E: Write>(slot: &mut Option<Connection>, now: Instant, log: &mut E) -> bool
    ensures free { slot.new ≡ kept_unless (is_late now) slot.old }
    ensures unheard { result ≡ meets (is_unheard now) slot.old }
{
    match slot {
        Some(connection) if connection.is_late(now) => close(slot, log, "its time is over"),
        _ => false,
    }
}

fn end_all_late<E: Write>(slots: &mut [Option<Connection>], now: Instant, log: &mut E) -> usize
    ensures freed { slots.new ≡ free_where (is_late now) slots.old }
    ensures count { result ≡ count_of (is_unheard now) slots.old }
{
    let mut count: usize = 0;
    for slot in slots.iter_mut() {
        count = count.saturating_add(usize::from(end_if_late(slot, now, log)));
    }
    count
}

fn is_same(one: IpAddr, other: IpAddr) -> bool
    ensures { result ≡ is_same one other }
{
    one == other
}

// Whether a connection stands there that came from that address.
fn is_from(slot: &Option<Connection>, from: IpAddr) -> bool
    ensures { result ≡ meets (is_from from) slot.now }
{
    match slot {
        Some(connection) => is_same(from, connection.from()),
        None => false,
    }
}

// How many came from that address.
fn count_from(slots: &[Option<Connection>], from: IpAddr) -> usize
    ensures { result ≡ count_of (is_from from) slots.now }
{
    let mut count: usize = 0;
    for slot in slots {
        count = count.saturating_add(usize::from(is_from(slot, from)));
    }
    count
}

// Whether a connection stands there that isn't a member's.
fn is_stranger(slot: &Option<Connection>) -> bool
    ensures { result ≡ meets is_stranger slot.now }
{
    match slot {
        Some(connection) => !connection.group().is_member(),
        None => false,
    }
}

// How many are no members'.
fn count_strangers(slots: &[Option<Connection>]) -> usize
    ensures { result ≡ count_of is_stranger slots.now }
{
    let mut count: usize = 0;
    for slot in slots {
        count = count.saturating_add(usize::from(is_stranger(slot)));
    }
    count
}

// The number of a connection of that rank that came before the first of an intake, and before what
// was found.
fn number_before(
    found: Option<(usize, u64)>,
    rank: Rank,
    intake: Intake,
    slot: &Option<Connection>,
) -> Option<u64>
    ensures { MatchOption result
        ((connection : Connection) → slot.now ≡ Some connection →
        HasRank intake.now rank connection → connection.arrival.number < intake.first →
        IsSomeAnd found (λ f. f.1 ≤ connection.arrival.number))
        (λ number. (connection : Connection) × (slot.now ≡ Some connection)
        × HasRank intake.now rank connection × (connection.arrival.number < intake.first)
        × (number ≡ connection.arrival.number)
        × IfSome found (λ f. number < f.1)) }
{
    let Some(connection) = slot else {
        return None;
    };
    if connection.group() != rank.group {
        return None;
    }
    if connection.phase() != rank.phase {
        return None;
    }
    if connection.is_stalled(intake.now) != rank.is_stalled {
        return None;
    }
    if intake.first <= connection.number() {
        return None;
    }
    match found {
        None => Some(connection.number()),
        Some((_, number)) if connection.number() < number => Some(connection.number()),
        Some(_) => None,
    }
}

// How many connections stand there.
fn count_open(slots: &[Option<Connection>]) -> u64
    ensures { result ≡ count_of (λ _. true) slots.now }
{
    let mut count: u64 = 0;
    for slot in slots {
        count = count.saturating_add(u64::from(slot.is_some()));
    }
    count
}

// Frees a place whose request isn't whole.
fn end_if_unheard(slot: &mut Option<Connection>)
    ensures { slot.new ≡ kept_unless is_reading slot.old }
{
    if let Some(connection) = slot {
        if connection.phase() == Phase::Reading {
            *slot = None;
        }
    }
}

fn end_all_unheard(slots: &mut [Option<Connection>])
    ensures { slots.new ≡ free_where is_reading slots.old }
{
    for slot in slots.iter_mut() {
        end_if_unheard(slot);
    }
}

impl Drop for Connections {
    fn drop(self) {
        let Connections { places: _, most: _ } = self;
    }
}

impl Connections {
    /// None is open yet, and so many may be at once.
    pub fn new(alloc: Global, most: usize) -> Connections
        ensures none { result.places.items ≡ [] }
        ensures most { result.most ≡ most }
    {
        Connections {
            places: Vec::new(alloc),
            most,
        }
    }

    pub fn is_empty(&self) -> bool
        ensures { result ≡ list_all is_none self.now.places.items }
    {
        self.places.iter().all(|connection| connection.is_none())
    }

    /// How many are open.
    pub fn count(&self) -> u64
        ensures { result ≡ count_of (λ _. true) self.now.places.items }
    {
        count_open(&self.places)
    }

    /// The most connections that are open at once.
    pub fn most(&self) -> usize
        ensures { result ≡ self.now.most }
    {
        self.most
    }

    /// Whether the one at a place is the one of that number, and its reply is held.
    pub fn is_held_at(&self, place: usize, number: u64) -> bool
        ensures { result ≡ is_held_at self.now place number }
    {
        match self.places.get(place) {
            Some(Some(connection)) => connection.is_held_as(number),
            _ => false,
        }
    }

    /// The one at a place.
    pub fn get_mut(&mut self, place: usize) -> Option<&mut Connection>
        ensures is { MatchOption result (connection_at self.old place ≡ None)
            (λ connection. connection_at self.old place ≡ Some connection.now) }
    {
        match self.places.get_mut(place) {
            Some(Some(connection)) => Some(connection),
            _ => None,
        }
    }

    fn free_place(&self) -> Option<usize>
        ensures { result ≡ position is_none self.now.places.items }
    {
        self.places
            .iter()
            .position(|connection| connection.is_none())
    }

    /// Whether an address has a quarter of the places.
    pub fn is_crowded(&self, from: IpAddr) -> bool
        ensures { result ≡ is_crowded self.now.most from self.now.places.items }
    {
        self.most / 4 <= count_from(&self.places, from)
    }

    // The place of the oldest of that rank that came before the first of an intake.
    fn oldest(&self, rank: Rank, intake: Intake) -> Option<usize>
        ensures { MatchOption result (HasNone rank intake self.now.places.items)
            (IsOldest rank intake self.now.places.items) }
    {
        let mut found: Option<(usize, u64)> = None;
        for (place, slot) in self.places.iter().enumerate() {
            if let Some(number) = number_before(found, rank, intake, slot) {
                found = Some((place, number));
            }
        }
        let (place, _) = found?;
        Some(place)
    }

    fn oldest_in(
        &self,
        group: Group,
        phase: Phase,
        is_stalled: bool,
        intake: Intake,
    ) -> Option<usize>
        ensures { MatchOption result
            (HasNone (rank_of group phase is_stalled) intake self.now.places.items)
            (IsOldest (rank_of group phase is_stalled) intake self.now.places.items) }
    {
        let rank = Rank {
            group,
            phase,
            is_stalled,
        };
        self.oldest(rank, intake)
    }

    // Which goes first of a group.
    fn first_of(&self, group: Group, intake: Intake) -> Option<usize>
        ensures { GoesFirst group intake self.now.places.items result }
    {
        if let Some(place) = self.oldest_in(group, Phase::Ending, false, intake) {
            return Some(place);
        }
        if let Some(place) = self.oldest_in(group, Phase::Reading, false, intake) {
            return Some(place);
        }
        if let Some(place) = self.oldest_in(group, Phase::Writing, true, intake) {
            return Some(place);
        }
        self.oldest_in(group, Phase::Writing, false, intake)
    }

    // Which goes first for a member's, where none is beyond its address's quarter.
    fn first_for_member(&self, intake: Intake) -> Option<usize>
        ensures { GoesFor Member intake self.now.places.items result }
    {
        if let Some(place) = self.first_of(Group::Within, intake) {
            return Some(place);
        }
        self.first_of(Group::Member, intake)
    }

    // Which one is to be closed for one of an intake, of that group.
    fn first_to_go(&self, newcomer: Group, intake: Intake) -> Option<usize>
        ensures { MakesWay newcomer intake self.now.places.items result }
    {
        if let Some(place) = self.first_of(Group::Surplus, intake) {
            return Some(place);
        }
        match newcomer {
            Group::Surplus => None,
            Group::Within => self.first_of(Group::Within, intake),
            Group::Member => self.first_for_member(intake),
        }
    }

    /// Closes one for an intake's, of that group: one that came as its address had a quarter of
    /// the places, else, for a newcomer that doesn't come so itself, any other that is no member's,
    /// else, for a member's, any; among those the oldest that was served and stays open, else the
    /// oldest whose request isn't whole, else the oldest of whose reply nothing was taken for a
    /// second, else the oldest, and none that came in that intake. Returns its place, if there was
    /// one.
    pub fn give_way<E: Write>(
        &mut self,
        newcomer: Group,
        intake: Intake,
        log: &mut E,
    ) -> Option<usize>
        ensures { GivesWay newcomer intake self.old.places.items self.new.places.items result }
    {
        let place = self.first_to_go(newcomer, intake)?;
        self.close(place, log, GIVEN_UP);
        Some(place)
    }

    // A connection ends, with a line where its request wasn't whole.
    fn close<E: Write>(&mut self, place: usize, log: &mut E, why: &str)
        ensures { self.new.places.items ≡ slice_set self.old.places.items place None }
    {
        if let Some(slot) = self.places.get_mut(place) {
            close(slot, log, why);
        }
    }

    /// Frees a place.
    pub fn leave(&mut self, place: usize)
        ensures { self.new.places.items ≡ slice_set self.old.places.items place None }
    {
        if let Some(slot) = self.places.get_mut(place) {
            *slot = None;
        }
    }

    // Whether one of that group may have a place beside those that are there.
    fn has_room(&self, newcomer: Group) -> bool
        ensures { result ≡ has_room self.now.most newcomer self.now.places.items }
    {
        let for_strangers = self.most - self.most / KEPT_BACK;
        newcomer.is_member() || count_strangers(&self.places) < for_strangers
    }

    // A place for one more of that group, if there is one.
    fn place<E: Write>(
        &mut self,
        newcomer: Group,
        intake: Intake,
        log: &mut E,
    ) -> Result<Option<usize>, AllocError>
        ensures made { IfOk result (MakesPlace self.old.most newcomer intake self.old.places.items
            self.new.places.items) }
        ensures no_memory { IfErr result (λ _. MayGrow self.old.most self.old.places.items
            × (self.new.places.items ≡ self.old.places.items)) }
    {
        if !self.has_room(newcomer) {
            return Ok(self.give_way(newcomer, intake, log));
        }
        if let Some(place) = self.free_place() {
            return Ok(Some(place));
        }
        let count = self.places.len();
        if count < self.most {
            self.places.push(None)?;
            return Ok(Some(count));
        }
        Ok(self.give_way(newcomer, intake, log))
    }

    fn put(&mut self, place: usize, connection: Connection)
        ensures { self.new.places.items ≡ slice_set self.old.places.items place (Some connection) }
    {
        if let Some(slot) = self.places.get_mut(place) {
            *slot = Some(connection);
        }
    }

    /// Puts a connection of an intake at a free place, at a new one, or at that of one that gives
    /// way; where none does, it is closed. Returns its place.
    pub fn enter<E: Write>(
        &mut self,
        connection: Connection,
        intake: Intake,
        log: &mut E,
    ) -> Result<Option<usize>, AllocError>
        ensures entered { IfOk result (λ place. (slots : List (Option Connection))
            × MakesPlace self.old.most connection.arrival.group intake self.old.places.items
            slots place
            × (self.new.places.items ≡ with_slot place (Some connection) slots)) }
        ensures no_memory { IfErr result (λ _. MayGrow self.old.most self.old.places.items
            × (self.new.places.items ≡ self.old.places.items)) }
    {
        let Some(place) = self.place(connection.arrival.group, intake, log)? else {
            connection.give_up(log, GIVEN_UP);
            return Ok(None);
        };
        self.put(place, connection);
        Ok(Some(place))
    }

    /// Closes those whose time is over; returns how many of them had had no turn.
    pub fn end_late<E: Write>(&mut self, now: Instant, log: &mut E) -> usize
        ensures freed { self.new.places.items ≡ free_where (is_late now) self.old.places.items }
        ensures count { result ≡ count_of (is_unheard now) self.old.places.items }
    {
        end_all_late(&mut self.places, now, log)
    }

    /// Closes those whose request isn't whole.
    pub fn end_unheard(&mut self)
        ensures { self.new.places.items ≡ free_where is_reading self.old.places.items }
    {
        end_all_unheard(&mut self.places);
    }
}
