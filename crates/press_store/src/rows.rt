//! The values of rows.

ghost use Rattle.std.specs.Prelude.{◌≡◌, ◌<◌, ◌≤◌, ◌^◌, pos};
ghost use Rattle.sqlite.specs.Value.{owned};
ghost use Rattle.sqlite.specs.declared.types.Value.TheVariants.{Int, Blob};
ghost use Rattle.press_store.specs.Owned as spec;
ghost use Rattle.press_store.specs.Starts.{bits_in};
ghost use Rattle.press_store.specs.Shown.{ballot_in, most_rounds, number_in};
ghost use Rattle.press_wire.specs.Ranges.{last_slot, most_members};

use press_wire::{Ballot, MOST_MEMBERS, MemberId, Round, Slot};
use sqlite::types::ValueRef;

fn int_of(n: u64) -> i64
    requires { n ≤ 2 ^ 40 }
    ensures { result ≡ pos n }
{
    n as i64
}

pub fn slot_value<'a>(slot: Slot) -> ValueRef<'a>
    ensures value { owned result ≡ Int (pos slot) }
    ensures range { (1 ≤ slot) × (slot ≤ last_slot) }
{
    ValueRef::Int(i64::from(slot.number()))
}

pub fn round_value<'a>(round: Round) -> ValueRef<'a>
    ensures value { owned result ≡ Int (pos round) }
    ensures range { (1 ≤ round) × (round ≤ 2 ^ 40) }
{
    ValueRef::Int(int_of(round.number()))
}

pub fn node_value<'a>(node: MemberId) -> ValueRef<'a>
    ensures value { owned result ≡ Int (pos node) }
    ensures range { (1 ≤ node) × (node ≤ most_members) }
{
    ValueRef::Int(i64::from(node.number()))
}

pub fn small_value<'a>(n: u8) -> ValueRef<'a>
    ensures value { owned result ≡ Int (pos n) }
    ensures range { n ≤ 255 }
{
    ValueRef::Int(i64::from(n))
}

fn signed_number(n: u64) -> i64
    ensures { result ≡ spec.signed_number n }
{
    if n < 1 << 63 {
        n as i64
    } else {
        -1 - (u64::MAX - n) as i64
    }
}

/// The number of the same 64 bits.
pub fn unsigned_number(n: i64) -> u64
    ensures { result ≡ spec.unsigned_number n }
{
    if n < 0 {
        u64::MAX - (-1 - n) as u64
    } else {
        n as u64
    }
}

/// The number of 64 bits that a value gives; None where it is damaged.
pub fn bits(value: ValueRef<'_>) -> Option<u64>
    ensures { result ≡ bits_in (owned value.entry) }
{
    let ValueRef::Int(n) = value else {
        return None;
    };
    Some(unsigned_number(n))
}

pub fn digest_value<'a>(digest: u64) -> ValueRef<'a>
    ensures value { owned result ≡ Int (spec.signed_number digest) }
    ensures range { digest < 2 ^ 64 }
{
    ValueRef::Int(signed_number(digest))
}

pub fn bytes_value(bytes: &[u8]) -> ValueRef<'_>
    ensures { owned result ≡ Blob bytes.now }
{
    ValueRef::Blob(bytes)
}

/// A slot from the least one to the last; None where it is damaged.
pub fn slot(value: ValueRef<'_>, least: u32, last: u32) -> Option<Slot>
    requires { (1 ≤ least) × (last ≤ last_slot) }
    ensures { result ≡ number_in least last (owned value.entry) }
{
    let ValueRef::Int(n) = value else {
        return None;
    };
    if n < i64::from(least) || n > i64::from(last) {
        None
    } else {
        Slot::new(n as u32)
    }
}

fn round(value: ValueRef<'_>) -> Option<Round>
    ensures { result ≡ number_in 1 most_rounds (owned value.entry) }
{
    let ValueRef::Int(n) = value else {
        return None;
    };
    if n < 0 { None } else { Round::new(n as u64) }
}

pub fn member_number(n: i64) -> Option<MemberId>
    ensures { result ≡ number_in 1 most_members (Int n) }
{
    node(ValueRef::Int(n))
}

pub fn member_count(n: i64) -> Option<u8>
    ensures { result ≡ number_in 0 255 (Int n) }
{
    if n < 0 || n > 255 {
        None
    } else {
        Some(n as u8)
    }
}

fn node(value: ValueRef<'_>) -> Option<MemberId>
    ensures { result ≡ number_in 1 most_members (owned value.entry) }
{
    let ValueRef::Int(n) = value else {
        return None;
    };
    if n < 0 || n > MOST_MEMBERS as i64 {
        None
    } else {
        MemberId::new(n as u8)
    }
}

/// The ballot of two values; None where it is damaged.
pub fn ballot(of_round: ValueRef<'_>, of_node: ValueRef<'_>) -> Option<Ballot>
    ensures { result ≡ ballot_in (owned of_round.entry) (owned of_node.entry) }
{
    let round = round(of_round)?;
    let node = node(of_node)?;
    Some(Ballot { round, node })
}
