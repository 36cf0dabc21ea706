//! The digests of the fronts of a list of values.

ghost use Rattle.std.specs.Prelude.{◌≡◌, ◌+◌, ◌-◌, ◌%◌, ◌/◌, ◌==◌, ◌<◌, ◌≤◌, ◌⊎◌, ◌^◌, List, OnErr, OnOk, Some, None, false, length, slice_get, if◌then◌else◌};
ghost use Rattle.press_apply.specs.declared.value.Value.{Value as OneValue};
ghost use Rattle.press_chain.specs.Chains.{IsChainOf, block_at, count_of, digest_at, is_kept, put_at, tip_of};
ghost use Rattle.press_chain.specs.Comparing.{ComparesTip, ComparesWhere};

use crate::comparison::Comparison;
use crate::feed::digest_with;
use crate::put::put;
use crate::tip::Tip;
use press_apply::Value;
use std::alloc::{AllocError, Global};

// How many values make a block.
const BLOCK: u64 = 64;

// The digest of no values.
const NONE: [u8; 32] = [0; 32];

/// The digest of the first values of a list that grows, with those of its shorter fronts: each
/// 64th, and the last 64. Each value is hashed once.
#[derive(Drop)]
pub struct Chain {
    count: u64,
    digest: [u8; 32],
    // That of the last multiple of 64.
    block_digest: [u8; 32],
    // Those at 64, 128 and so on.
    blocks: Vec<[u8; 32]>,
    // The last 64, that of the first value in the first place; then they go round.
    recent: Vec<[u8; 32]>,
}

fn digest_in(list: &[[u8; 32]], place: u64) -> Option<[u8; 32]>
    ensures { result ≡ slice_get list.now place }
{
    match list.get(place as usize) {
        Some(digest) => Some(*digest),
        None => None,
    }
}

impl Chain {
    /// Of no values.
    pub fn new(alloc: Global) -> Chain
        ensures count { count_of result ≡ 0 }
        ensures chain { (values : List OneValue) → IsChainOf values result }
    {
        Chain {
            count: 0,
            digest: NONE,
            block_digest: NONE,
            blocks: Vec::new(alloc),
            recent: Vec::new(alloc),
        }
    }

    /// Of how many values it is.
    pub fn count(&self) -> u64
        ensures { result ≡ count_of self.now }
    {
        self.count
    }

    /// What it tells of itself.
    pub fn tip(&self) -> Tip
        ensures { result ≡ tip_of self.now }
    {
        Tip {
            count: self.count,
            digest: self.digest,
            block_digest: self.block_digest,
        }
    }

    // The digest of so many values, where it is kept.
    fn at(&self, slot: u64) -> Option<[u8; 32]>
        ensures { (values : List OneValue) → IsChainOf values self.now → result
            ≡ (if is_kept self.now.count slot then Some (digest_at values slot) else None) }
    {
        if self.count < slot {
            return None;
        }
        if slot == 0 {
            return Some(NONE);
        }
        if self.count - slot < BLOCK {
            return digest_in(&self.recent, (slot - 1) % BLOCK);
        }
        if slot % BLOCK == 0 {
            return digest_in(&self.blocks, slot / BLOCK - 1);
        }
        None
    }

    // At the last multiple of 64 before where the other is.
    fn compare_block(&self, tip: &Tip) -> Comparison
        ensures { (values : List OneValue) → IsChainOf values self.now →
            ComparesWhere false (is_kept self.now.count (block_at tip.now.count)) values tip.now
            result }
    {
        match self.at(tip.count / BLOCK * BLOCK) {
            Some(own) => Comparison::of(&own, &tip.block_digest),
            None => Comparison::Unknown,
        }
    }

    /// Compares it with another: where that one is, if this one keeps its digest there, or else at
    /// the last multiple of 64 before that.
    pub fn compare(&self, tip: &Tip) -> Comparison
        ensures { (values : List OneValue) → IsChainOf values self.now →
            ComparesTip (count_of self.now) values tip.now result }
    {
        match self.at(tip.count) {
            Some(own) => Comparison::of(&own, &tip.digest),
            None => self.compare_block(tip),
        }
    }

    // Forgets all of it.
    fn clear(&mut self)
        ensures count { self.new.count ≡ 0 }
        ensures chain { (values : List OneValue) → IsChainOf values self.new }
    {
        self.count = 0;
        self.digest = NONE;
        self.block_digest = NONE;
        self.blocks.clear();
        self.recent.clear();
    }

    // Keeps this as the digest behind one value more, where that makes a block whole.
    fn put_block(&mut self, digest: [u8; 32]) -> Result<(), AllocError>
        ensures count { self.new.count ≡ self.old.count }
        ensures digest { self.new.digest ≡ self.old.digest }
        ensures block { self.new.block_digest ≡ self.old.block_digest }
        ensures recent { self.new.recent ≡ self.old.recent }
        ensures put { OnOk result (self.new.blocks.items ≡ (if self.old.count % 64 == 63
            then put_at self.old.blocks.items (self.old.count / 64) digest
            else self.old.blocks.items)) }
        ensures fails { OnErr result (self.new.blocks.items ≡ self.old.blocks.items) }
    {
        if self.count % BLOCK != BLOCK - 1 {
            return Ok(());
        }
        put(&mut self.blocks, (self.count / BLOCK) as usize, digest)
    }

    // Is of one value more, with this digest.
    fn advance(&mut self, digest: [u8; 32])
        requires { self.old.count < 2 ^ 64 - 1 }
        ensures count { self.new.count ≡ self.old.count + 1 }
        ensures digest { self.new.digest ≡ digest }
        ensures block { self.new.block_digest
            ≡ (if self.old.count % 64 == 63 then digest else self.old.block_digest) }
        ensures recent { self.new.recent ≡ self.old.recent }
        ensures blocks { self.new.blocks ≡ self.old.blocks }
    {
        if self.count % BLOCK == BLOCK - 1 {
            self.block_digest = digest;
        }
        self.count += 1;
        self.digest = digest;
    }

    // One value more. Without memory it is as it was.
    fn push(&mut self, value: &Value) -> Result<(), AllocError>
        requires { self.old.count < 2 ^ 64 - 1 }
        ensures count { OnOk result (self.new.count ≡ self.old.count + 1) }
        ensures stays { OnErr result (self.new.count ≡ self.old.count) }
        ensures chain { (values : List OneValue) →
            slice_get values self.old.count ≡ Some value.now → IsChainOf values self.old →
            IsChainOf values self.new }
    {
        let digest = digest_with(&self.digest, value);
        self.put_block(digest)?;
        put(&mut self.recent, (self.count % BLOCK) as usize, digest)?;
        self.advance(digest);
        Ok(())
    }

    // Forgets what it has where there are no values, or fewer than it is of.
    fn keep_within(&mut self, most: u64)
        ensures few { self.new.count ≤ most }
        ensures chain { (values : List OneValue) → ((most ≡ 0) ⊎ IsChainOf values self.old) →
            IsChainOf values self.new }
    {
        if most == 0 || most < self.count {
            self.clear();
        }
    }

    // Goes on to the end of these values, of whose first it is.
    fn extend(&mut self, values: &[Value]) -> Result<(), AllocError>
        requires { self.old.count ≤ length values.now }
        ensures chain { IsChainOf values.now self.old → IsChainOf values.now self.new }
        ensures all { OnOk result (self.new.count ≡ length values.now) }
    {
        for place in self.count as usize..values.len() {
            self.push(&values[place])?;
        }
        Ok(())
    }

    /// Comes to be of these values, of whose first it is, or of none where there are none. Without
    /// memory it is of fewer of them.
    pub fn follow(&mut self, values: &[Value]) -> Result<(), AllocError>
        ensures chain { ((length values.now ≡ 0) ⊎ IsChainOf values.now self.old) →
            IsChainOf values.now self.new }
        ensures all { OnOk result (count_of self.new ≡ length values.now) }
    {
        self.keep_within(values.len() as u64);
        self.extend(values)
    }
}
