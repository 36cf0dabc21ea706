ghost use Rattle.std.specs.Prelude.{◌≡◌, ◌*◌, ◌<◌, ◌≤◌, length, bytes_eq};
ghost use Rattle.std.specs.Cmp.Lexicographic.{slice_cmp};
ghost use Rattle.std.specs.Ordering.{nat_cmp};
ghost use Rattle.press_text.specs.Names.{CallbackGives, IsName};
ghost use Rattle.press_text.specs.Padded.{AreBytes, eight, number, padded_name};

use crate::class::{MOST_NAME, fault_of};
use crate::name_fault::NameFault;
use std::cmp::Ordering;
use std::marker::Model;

/// The name of a callback: 1 to 32 bytes of `[A-Za-z0-9_-]`, kept in place, so that it is Copy and
/// takes no memory.
#[derive(Clone, Copy, Debug)]
pub struct CallbackId {
    bytes: [u8; MOST_NAME],
    len: u8,
}

impl Model for CallbackId {
    ghost use Rattle.std.specs.Prelude.{ℕ, List, take, length};

    ghost Value = { List ℕ };

    ghost use Rattle.press_text.specs.Padded.{padded_name, IsKept};

    ghost view = { λ c. take c.len c.bytes };

    ghost invariant = { λ c. IsKept c.bytes c.len };

    ghost inverse = { λ n. record { bytes = padded_name n; len = length n } };

    ghost inverse_ok = { λ a h i. record { bytes = h.padded i; len = h.long i } };
}

impl CallbackId {
    /// Refuses by BadName (empty), then TooLong (over 32 bytes), then BadName (a byte outside the
    /// class).
    pub fn new(text: &str) -> Result<CallbackId, NameFault>
        ensures { CallbackGives result text.now }
    {
        if let Some(fault) = fault_of(MOST_NAME, text.as_bytes()) {
            return Err(fault);
        }
        let bytes = padded_name(text.as_bytes());
        Ok(CallbackId {
            bytes,
            len: text.len() as u8,
        })
    }

    pub fn as_bytes(&self) -> &[u8]
        ensures value { result.now ≡ self.now }
        ensures class { IsName 32 result.now }
    {
        &self.bytes[..self.len as usize]
    }

    /// The number that eight bytes of the name spell, zeros behind it up to 32; so many words lie
    /// before them.
    #[tactic(auto, using(crate::proofs::Words::kept_word))]
    pub fn word(&self, i: usize) -> u64
        requires { i < 4 }
        ensures { result ≡ number 0 (eight (8 * i) (padded_name self.now)) }
    {
        word(&self.bytes, i)
    }

    /// Whether the two names are the same, byte by byte.
    pub fn is(self, other: CallbackId) -> bool
        ensures { result ≡ bytes_eq self other }
    {
        self.order(&other).is_eq()
    }

    /// The order of the two names, byte by byte.
    #[tactic(auto, using(crate::proofs::Words::kept_bytes, crate::proofs::Words::kept_order))]
    pub fn order(&self, other: &CallbackId) -> Ordering
        ensures { result ≡ slice_cmp nat_cmp self.now other.now }
    {
        order_by_words(&self.bytes, &other.bytes)
    }
}

// The order byte by byte, found eight bytes at a time.
fn order_by_words(a: &[u8; MOST_NAME], b: &[u8; MOST_NAME]) -> Ordering
    requires a { AreBytes a.now }
    requires b { AreBytes b.now }
    ensures { result ≡ slice_cmp nat_cmp a.now b.now }
{
    for i in 0..4 {
        let (x, y) = (word(a, i), word(b, i));
        if x != y {
            return x.cmp(&y);
        }
    }
    Ordering::Equal
}

// The number that eight bytes spell, the greatest first; so many words lie before them.
// In this order of the sum a compiler makes one load of it.
fn word(bytes: &[u8; MOST_NAME], i: usize) -> u64
    requires { i < 4 }
    ensures { result ≡ number 0 (eight (8 * i) bytes.now) }
{
    let at = 8 * i;
    u64::from(bytes[at + 7])
        + u64::from(bytes[at + 6]) * 0x100
        + u64::from(bytes[at + 5]) * 0x1_0000
        + u64::from(bytes[at + 4]) * 0x100_0000
        + u64::from(bytes[at + 3]) * 0x1_0000_0000
        + u64::from(bytes[at + 2]) * 0x100_0000_0000
        + u64::from(bytes[at + 1]) * 0x1_0000_0000_0000
        + u64::from(bytes[at]) * 0x100_0000_0000_0000
}

// The bytes of a name, and zeros up to 32.
fn padded_name(name: &[u8]) -> [u8; MOST_NAME]
    requires { length name.now ≤ 32 }
    ensures { result ≡ padded_name name.now }
{
    let mut bytes = [0u8; MOST_NAME];
    bytes[..name.len()].copy_from_slice(name);
    bytes
}
