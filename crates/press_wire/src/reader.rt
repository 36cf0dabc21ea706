//! Numbers, names and texts, each read from the beginning of bytes. Both decoders use it.

ghost use Rattle.std.specs.Prelude.{◌≡◌, ◌≢◌, ◌==◌, length, option_map, Err, IsOk};
ghost use Rattle.std.specs.Str.{is_utf8};
ghost use Rattle.press_text.specs.Gives.{Gives};
ghost use Rattle.press_wire.specs.Refusals.{Refuses};
ghost use Rattle.press_wire.specs.Fields.{byte_at, bytes_at, number4_at, number8_at, short_at, name_at, text_at, moment_at, round_at, node_at, status_at, slot_at, ballot_at};
ghost use Rattle.press_wire.specs.Ranges.{only};

use crate::ballot::Ballot;
use crate::fault::WireFault;
use crate::member_id::MemberId;
use crate::round::Round;
use crate::slot::Slot;
use crate::status::status_from_number;
use press_posts::Status;
use press_text::{MOST_NAME, Moment, Name, NameFault, OptName, Text};
use std::alloc::Global;
use std::marker::Model;
use std::str;

const MOST_TEXT: u32 = 65_536;

/// The bytes that are still to be read.
#[derive(Drop)]
pub struct Reader<'a> {
    rest: &'a [u8],
}

impl<'a> Model for Reader<'a> {
    ghost use Rattle.std.specs.Prelude.{ℕ, List};

    ghost Value = { List ℕ };

    ghost view = { λ r. r.rest.now };
}

impl<'a> Reader<'a> {
    pub fn new(bytes: &'a [u8]) -> Reader<'a>
        ensures { result ≡ bytes.now }
    {
        Reader { rest: bytes }
    }

    pub fn is_at_end(&self) -> bool
        ensures { result ≡ (length self.now == 0) }
    {
        self.rest.is_empty()
    }

    pub fn byte(&mut self) -> Result<u8, WireFault>
        ensures read { Gives Refuses (λ x. Ok (x, self.new)) result (byte_at self.old) }
        ensures memory { result ≢ Err WireFault.NoMemory }
    {
        match self.rest {
            [] => Err(WireFault::Short),
            [b, rest @ ..] => {
                self.rest = rest;
                Ok(*b)
            }
        }
    }

    pub fn cut(&mut self, len: usize) -> Result<&'a [u8], WireFault>
        ensures read { Gives Refuses (λ front. Ok (front.now, self.new)) result
            (bytes_at len self.old) }
        ensures memory { result ≢ Err WireFault.NoMemory }
    {
        if self.rest.len() < len {
            return Err(WireFault::Short);
        }
        let (front, rest) = self.rest.split_at(len);
        self.rest = rest;
        Ok(front)
    }

    #[tactic(auto, unfolding(crate::specs::Fields::number4_at))]
    pub fn number4(&mut self) -> Result<u32, WireFault>
        ensures read { Gives Refuses (λ x. Ok (x, self.new)) result (number4_at self.old) }
        ensures memory { result ≢ Err WireFault.NoMemory }
    {
        let front = self.cut(4)?;
        Ok(u32::from_be_bytes([front[0], front[1], front[2], front[3]]))
    }

    #[tactic(auto, unfolding(crate::specs::Fields::number8_at))]
    pub fn number8(&mut self) -> Result<u64, WireFault>
        ensures read { Gives Refuses (λ x. Ok (x, self.new)) result (number8_at self.old) }
        ensures memory { result ≢ Err WireFault.NoMemory }
    {
        let front = self.cut(8)?;
        Ok(u64::from_be_bytes([
            front[0], front[1], front[2], front[3], front[4], front[5], front[6], front[7],
        ]))
    }

    // A length, and that many bytes of a name.
    #[tactic(auto, unfolding(crate::specs::Fields::short_at))]
    fn short(&mut self) -> Result<&'a [u8], WireFault>
        ensures read { Gives Refuses (λ front. Ok (front.now, self.new)) result
            (short_at self.old) }
        ensures memory { result ≢ Err WireFault.NoMemory }
    {
        let len = self.byte()?;
        if len < 1 || MOST_NAME < len as usize {
            return Err(WireFault::BadField);
        }
        self.cut(len as usize)
    }

    #[tactic(auto, using(crate::proofs::Names::is_named, crate::proofs::Names::has_no_name, crate::proofs::Names::names_are_texts), unfolding(crate::specs::Fields::name_at))]
    pub fn name(&mut self, alloc: Global) -> Result<Name, WireFault>
        ensures read { Gives Refuses (λ x. Ok (x, self.new)) result (name_at self.old) }
        ensures memory { result ≡ Err WireFault.NoMemory → IsOk (name_at self.old) }
    {
        let Some(text) = as_text(self.short()?) else {
            return Err(WireFault::BadField);
        };
        match Name::new(alloc, text) {
            Ok(name) => Ok(name),
            Err(NameFault::NoMemory) => Err(WireFault::NoMemory),
            Err(_) => Err(WireFault::BadField),
        }
    }

    #[tactic(auto, using(crate::proofs::Names::is_named, crate::proofs::Names::has_no_name, crate::proofs::Names::names_are_texts), unfolding(crate::specs::Fields::name_at))]
    pub fn option_name(&mut self, alloc: Global) -> Result<OptName, WireFault>
        ensures read { Gives Refuses (λ x. Ok (x, self.new)) result (name_at self.old) }
        ensures memory { result ≡ Err WireFault.NoMemory → IsOk (name_at self.old) }
    {
        let Some(text) = as_text(self.short()?) else {
            return Err(WireFault::BadField);
        };
        match OptName::new(alloc, text) {
            Ok(name) => Ok(name),
            Err(NameFault::NoMemory) => Err(WireFault::NoMemory),
            Err(_) => Err(WireFault::BadField),
        }
    }

    #[tactic(auto, unfolding(crate::specs::Fields::text_at))]
    pub fn text(&mut self, alloc: Global) -> Result<Text, WireFault>
        ensures read { Gives Refuses (λ x. Ok (x, self.new)) result (text_at self.old) }
        ensures memory { result ≡ Err WireFault.NoMemory → IsOk (text_at self.old) }
    {
        let len = self.number4()?;
        if len > MOST_TEXT {
            return Err(WireFault::BadField);
        }
        match as_text(self.cut(len as usize)?) {
            Some(text) => Ok(Text::from_str(alloc, text)?),
            None => Err(WireFault::BadField),
        }
    }

    #[tactic(auto, unfolding(crate::specs::Fields::moment_at))]
    pub fn moment(&mut self) -> Result<Moment, WireFault>
        ensures read { Gives Refuses (λ x. Ok (x, self.new)) result (moment_at self.old) }
        ensures memory { result ≢ Err WireFault.NoMemory }
    {
        match Moment::new(self.number8()?) {
            Some(moment) => Ok(moment),
            None => Err(WireFault::BadField),
        }
    }

    #[tactic(auto, unfolding(crate::specs::Fields::status_at))]
    pub fn status(&mut self) -> Result<Status, WireFault>
        ensures read { Gives Refuses (λ x. Ok (x, self.new)) result (status_at self.old) }
        ensures memory { result ≢ Err WireFault.NoMemory }
    {
        match status_from_number(self.byte()?) {
            Some(status) => Ok(status),
            None => Err(WireFault::BadField),
        }
    }

    #[tactic(auto, unfolding(crate::specs::Fields::node_at))]
    pub fn node(&mut self) -> Result<MemberId, WireFault>
        ensures read { Gives Refuses (λ x. Ok (x, self.new)) result (node_at self.old) }
        ensures memory { result ≢ Err WireFault.NoMemory }
    {
        match MemberId::new(self.byte()?) {
            Some(node) => Ok(node),
            None => Err(WireFault::BadField),
        }
    }

    #[tactic(auto, unfolding(crate::specs::Fields::slot_at))]
    pub fn slot(&mut self) -> Result<Slot, WireFault>
        ensures read { Gives Refuses (λ x. Ok (x, self.new)) result (slot_at self.old) }
        ensures memory { result ≢ Err WireFault.NoMemory }
    {
        match Slot::new(self.number4()?) {
            Some(slot) => Ok(slot),
            None => Err(WireFault::BadField),
        }
    }

    #[tactic(auto, unfolding(crate::specs::Fields::round_at))]
    pub fn round(&mut self) -> Result<Round, WireFault>
        ensures read { Gives Refuses (λ x. Ok (x, self.new)) result (round_at self.old) }
        ensures memory { result ≢ Err WireFault.NoMemory }
    {
        match Round::new(self.number8()?) {
            Some(round) => Ok(round),
            None => Err(WireFault::BadField),
        }
    }

    #[tactic(auto, unfolding(crate::specs::Fields::ballot_at))]
    pub fn ballot(&mut self) -> Result<Ballot, WireFault>
        ensures read { Gives Refuses (λ x. Ok (x, self.new)) result (ballot_at self.old) }
        ensures memory { result ≢ Err WireFault.NoMemory }
    {
        let round = self.round()?;
        let node = self.node()?;
        Ok(Ballot { round, node })
    }
}

// The text that the bytes are, if they are UTF-8.
#[tactic(auto, using(crate::proofs::Names::is_text, crate::proofs::Names::is_no_text))]
fn as_text(bytes: &[u8]) -> Option<&str>
    ensures { option_map (λ s. s.now) result ≡ only is_utf8 bytes.now }
{
    match str::from_utf8(bytes) {
        Ok(text) => Some(text),
        Err(_) => None,
    }
}
