ghost use Rattle.std.specs.Prelude.{◌≡◌, ◌<◌, ◌^◌, true, Some, IfOk, OnErr, length, option_map, slice_get};
ghost use Rattle.press_scan.specs.Attributes.{value_of};
ghost use Rattle.press_scan.specs.AttributesOf.{attributes_of};
ghost use Rattle.press_scan.specs.Entries.{atts_of};
ghost use Rattle.press_scan.specs.Kept.{kept_atts};

use crate::att::Att;
use crate::att_key::AttKey;
use crate::folded_atts::FoldedAtts;
use crate::kept::Kept;
use indexmap::IndexMap;
use press_text::Text;
use std::alloc::{AllocError, Global};
use std::marker::Model;

// So many attributes stay as they are, since they take little room.
const FEW_ATTS: usize = 64;

/// Attributes in order: those of a text, each name once, or a list as it was given.
#[derive(Debug, Drop)]
pub struct Atts {
    kept: Kept,
    // The text that they are of, where they are many. In a box, since few have it, and every call
    // has room for it.
    text: Option<Box<Text>>,
}

impl Model for Atts {
    ghost use Rattle.std.specs.Prelude.{List};
    ghost use Rattle.press_scan.specs.declared.att.Att.{Att};

    ghost Value = { List Att };

    ghost use Rattle.std.specs.Prelude.{IfSome};
    ghost use Rattle.press_scan.specs.Kept.{kept_atts, AreManyOf};

    ghost view = { λ a. kept_atts a.kept };

    ghost invariant = { λ a. IfSome a.text (λ b. AreManyOf b.value (kept_atts a.kept)) };
}

impl Atts {
    /// Takes no memory.
    pub fn from_vec(entries: Vec<Att>) -> Atts
        ensures { result ≡ entries.items }
    {
        Atts {
            kept: Kept::Listed(entries),
            text: None,
        }
    }

    /// The attributes of a text. Many keep that text beside them, to be folded to it, and take
    /// memory for it.
    pub(crate) fn from_kept(alloc: Global, kept: Kept, text: &str) -> Result<Atts, AllocError>
        requires text { kept_atts kept ≡ attributes_of text.now }
        requires short { length text.now < 2 ^ 32 }
        ensures value { IfOk result (λ atts. atts ≡ kept_atts kept) }
        ensures memory { OnErr result (64 < length (kept_atts kept)) }
    {
        let text = if kept.len() > FEW_ATTS {
            Some(box_text(alloc, text)?)
        } else {
            None
        };
        Ok(Atts { kept, text })
    }

    pub fn len(&self) -> usize
        ensures { result ≡ length self.now }
    {
        self.kept.len()
    }

    /// The value of that key.
    pub fn get(&self, key: &AttKey) -> Option<&str>
        ensures { option_map (λ v. v.now) result ≡ value_of key.now self.now }
    {
        match &self.kept {
            Kept::Listed(atts) => listed_value(atts.as_slice(), key),
            Kept::Keyed(atts) => keyed_value(atts, key),
        }
    }

    /// The key and the value of the attribute at a place of the list, which must be within it.
    pub fn at(&self, place: usize) -> (&AttKey, &str)
        requires { place < length self.now }
        ensures { slice_get self.now place
            ≡ Some (record { key = result.0.now; value = result.1.now }) }
    {
        match &self.kept {
            Kept::Listed(atts) => listed_at(atts.as_slice(), place),
            Kept::Keyed(atts) => keyed_at(atts, place),
        }
    }

    /// Whether folding makes a text of them, as of more than 64 attributes of a text, and of no
    /// others.
    pub fn folds_to_text(&self) -> bool
        ensures { result ≡ true → 64 < length self.now }
    {
        self.text.is_some()
    }

    /// Folds them while nobody reads them: many attributes of a text become that text, which may
    /// have two bytes for an attribute, where it takes fifty to a hundred here. Takes no memory.
    pub fn fold(self) -> FoldedAtts
        ensures { result ≡ self }
    {
        let Atts { kept, text } = self;
        match text {
            Some(text) => FoldedAtts::of_text(text),
            None => FoldedAtts::as_they_are(Atts { kept, text: None }),
        }
    }
}

fn box_text(alloc: Global, text: &str) -> Result<Box<Text>, AllocError>
    ensures { IfOk result (λ b. b.value ≡ text.now) }
{
    match Box::new(alloc, Text::from_str(alloc, text)?) {
        Ok(text) => Ok(text),
        Err(_) => Err(AllocError),
    }
}

fn listed_value<'a>(atts: &'a [Att], key: &AttKey) -> Option<&'a str>
    ensures { option_map (λ v. v.now) result ≡ value_of key.now atts.now }
{
    for att in atts {
        if att.key.is(key) {
            return Some(att.value.as_str());
        }
    }
    None
}

fn listed_at(atts: &[Att], place: usize) -> (&AttKey, &str)
    requires { place < length atts.now }
    ensures { slice_get atts.now place
        ≡ Some (record { key = result.0.now; value = result.1.now }) }
{
    let att = &atts[place];
    (&att.key, att.value.as_str())
}

#[tactic(auto, using(crate::proofs::MapAtts::looked_up))]
fn keyed_value<'a>(atts: &'a IndexMap<AttKey, Text>, key: &AttKey) -> Option<&'a str>
    ensures { option_map (λ v. v.now) result ≡ value_of key.now (atts_of atts.now.entries) }
{
    match atts.get(key) {
        Some(value) => Some(value.as_str()),
        None => None,
    }
}

#[tactic(auto, using(crate::proofs::MapAtts::att_at, crate::proofs::MapAtts::as_many))]
fn keyed_at(atts: &IndexMap<AttKey, Text>, place: usize) -> (&AttKey, &str)
    requires { place < length (atts_of atts.now.entries) }
    ensures { slice_get (atts_of atts.now.entries) place
        ≡ Some (record { key = result.0.now; value = result.1.now }) }
{
    let Some((key, value)) = atts.get_index(place) else {
        unreachable!()
    };
    (key, value.as_str())
}
