//! How attributes are kept: a few in a list, many in a map.

ghost use Rattle.std.specs.Prelude.{◌≡◌, ◌<◌, ◌+◌, ◌++◌, ◌∷◌, [], ℕ, IfOk, IfSome, OnOk, OnErr, length, position};
ghost use Rattle.press_scan.specs.Attributes.{has_name, with_name};
ghost use Rattle.press_scan.specs.Entries.{atts_of, AreBefore};
ghost use Rattle.press_scan.specs.Kept.{IsNumbered, kept_atts};
ghost use Rattle.press_scan.specs.declared.att_key.AttKey.TheVariants.{Place};

use crate::att::Att;
use crate::att_key::AttKey;
use indexmap::IndexMap;
use press_text::Text;
use std::alloc::{AllocError, Global};

/// As they were listed, where a key may occur twice, or each value under its key. The map is in a
/// box, since few texts have one, and every call has room for it.
#[derive(Debug, Drop)]
pub enum Kept {
    Listed(Vec<Att>),
    Keyed(Box<IndexMap<AttKey, Text>>),
}

impl Kept {
    pub fn len(&self) -> usize
        ensures { result ≡ length (kept_atts self.now) }
    {
        match self {
            Kept::Listed(atts) => atts.len(),
            Kept::Keyed(atts) => atts.len(),
        }
    }
}

/// An empty map, for attributes each under its key.
pub fn new_keyed(alloc: Global) -> Result<Kept, AllocError>
    ensures list { IfOk result (λ kept. kept_atts kept ≡ []) }
    ensures numbered { IfOk result (λ kept. IsNumbered 0 kept) }
{
    match Box::new(alloc, IndexMap::new(alloc)) {
        Ok(atts) => Ok(Kept::Keyed(atts)),
        Err(_) => Err(AllocError),
    }
}

// The place of that name.
fn place_of(atts: &[Att], name: &str) -> Option<usize>
    ensures place { result ≡ position (λ a. has_name a.key name.now) atts.now }
    ensures within { IfSome result (λ i. i < length atts.now) }
{
    atts.iter().position(|a| a.key.is_name(name))
}

/// Stores a value under a name, which is looked for among the names so far.
pub fn list_name(atts: &mut Vec<Att>, name: Text, value: Text) -> Result<(), AllocError>
    ensures { OnOk result (atts.new.items ≡ with_name atts.old.items name value) }
{
    let place = place_of(atts.as_slice(), name.as_str());
    let att = Att {
        key: AttKey::Name(name),
        value,
    };
    match place {
        Some(place) => {
            atts[place] = att;
            Ok(())
        }
        None => {
            atts.push(att)?;
            Ok(())
        }
    }
}

/// Puts a value without a name last, with its number.
pub fn list_number(atts: &mut Vec<Att>, number: u32, value: Text) -> Result<(), AllocError>
    ensures { OnOk result (atts.new.items ≡ atts.old.items
        ++ record { key = Place number; value = value } ∷ []) }
{
    let att = Att {
        key: AttKey::Place(number),
        value,
    };
    atts.push(att)?;
    Ok(())
}

/// Stores a value under a name, which is looked up by its hash.
#[tactic(auto, using(crate::proofs::MapAtts::before_inserted, crate::proofs::MapAtts::name_inserted))]
pub fn key_name(
    atts: &mut IndexMap<AttKey, Text>,
    name: Text,
    value: Text,
) -> Result<(), AllocError>
    ensures before { (next : ℕ) → AreBefore next atts.old.entries
        → AreBefore next atts.new.entries }
    ensures ok { OnOk result (atts_of atts.new.entries
        ≡ with_name (atts_of atts.old.entries) name value) }
{
    atts.insert(AttKey::Name(name), value)?;
    Ok(())
}

/// Puts a value without a name last, under its number.
#[tactic(auto, using(crate::proofs::MapAtts::before_numbered, crate::proofs::MapAtts::number_inserted))]
pub fn key_number(
    atts: &mut IndexMap<AttKey, Text>,
    number: u32,
    value: Text,
) -> Result<(), AllocError>
    requires { AreBefore number atts.old.entries }
    ensures before { OnOk result (AreBefore (number + 1) atts.new.entries) }
    ensures ok { OnOk result (atts_of atts.new.entries ≡ atts_of atts.old.entries
        ++ record { key = Place number; value = value } ∷ []) }
    ensures err { OnErr result (AreBefore number atts.new.entries) }
{
    atts.insert(AttKey::Place(number), value)?;
    Ok(())
}
