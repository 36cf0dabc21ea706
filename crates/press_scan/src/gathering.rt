//! The attributes of an attribute text.
//!
//! Splitting reads each byte a bounded number of times: a quote is looked for from an opening quote
//! to the next one of its kind, and an opening quote is tried at most twice, after a name and where
//! a token begins. A name is looked up among those so far by its hash; in a text of up to 64 bytes
//! it is compared with each, which are 32 at most.

ghost use Rattle.std.specs.Prelude.{◌≡◌, ◌-◌, ◌^◌, ◌+◌, ◌<◌, ◌≤◌, ◌++◌, ◌∷◌, [], IfOk, OnOk, OnErr, IsTrue, ◌↔◌, length, string_bytes, slice_range, None};
ghost use Rattle.std.specs.Str.{str_to_ascii_lowercase};
ghost use Rattle.std.specs.Char.{is_ascii_uppercase};
ghost use Rattle.std.specs.List.{list_any};
ghost use Rattle.press_scan.specs.Attributes.{with_name, IsAttributes, Gathers, IsCutAt};
ghost use Rattle.press_scan.specs.declared.att_key.AttKey.TheVariants.{Place};
ghost use Rattle.std.specs.Str.{IsCharBoundary};
ghost use Rattle.press_scan.specs.AttributesOf.{attributes_of};
ghost use Rattle.press_scan.specs.Shortcodes.{cut};
ghost use Rattle.press_scan.specs.Tokens.{IsToken, NoSpace};
ghost use Rattle.press_scan.specs.Places.{IsFirst};

use crate::atts::Atts;
use crate::kept::{Kept, key_name, key_number, list_name, list_number, new_keyed};
use crate::span::Span;
use crate::token::{Token, skip_spaces, token_at};
use press_text::Text;
use std::alloc::{AllocError, Global};
use std::marker::Model;

// A text that is no longer has so few attributes that a list of them is cheaper than a map.
const FEW_BYTES: usize = 64;

// What was found so far, and the number of the next nameless attribute.
#[derive(Drop)]
struct Gathering {
    kept: Kept,
    next: u32,
}

impl Model for Gathering {
    ghost use Rattle.press_scan.specs.Attributes.{AttsSoFar};
    ghost use Rattle.press_scan.specs.Kept.{kept_atts, IsNumbered};

    ghost Value = { AttsSoFar };

    ghost view = { λ g. record { atts = kept_atts g.kept; next = g.next } };

    ghost invariant = { λ g. IsNumbered g.next g.kept };
}

impl Gathering {
    // Takes memory for a map alone.
    fn new(alloc: Global, bytes: usize) -> Result<Gathering, AllocError>
        ensures atts { IfOk result (λ found. found.atts ≡ []) }
        ensures next { IfOk result (λ found. found.next ≡ 0) }
        ensures memory { OnErr result (64 < bytes) }
    {
        let kept = if bytes <= FEW_BYTES {
            Kept::Listed(Vec::new(alloc))
        } else {
            new_keyed(alloc)?
        };
        Ok(Gathering { kept, next: 0 })
    }

    // Takes memory for the text of many alone.
    fn into_atts(self, alloc: Global, text: &str) -> Result<Atts, AllocError>
        requires text { self.atts ≡ attributes_of text.now }
        requires short { length text.now < 2 ^ 32 }
        ensures value { IfOk result (λ atts. atts ≡ self.atts) }
        ensures memory { OnErr result (64 < length self.atts) }
    {
        Atts::from_kept(alloc, self.kept, text)
    }

    // Stores a value under a name.
    fn put_name(&mut self, name: Text, value: Text) -> Result<(), AllocError>
        ensures atts { OnOk result (self.new.atts ≡ with_name self.old.atts name value) }
        ensures next { OnOk result (self.new.next ≡ self.old.next) }
    {
        match &mut self.kept {
            Kept::Listed(atts) => list_name(atts, name, value),
            Kept::Keyed(atts) => key_name(atts, name, value),
        }
    }

    // Puts a value without a name last, with its number.
    fn put_number(&mut self, value: Text) -> Result<(), AllocError>
        requires { self.old.next < 2 ^ 32 - 1 }
        ensures atts { OnOk result (self.new.atts ≡ self.old.atts
            ++ record { key = Place self.old.next; value = value } ∷ []) }
        ensures next { OnOk result (self.new.next ≡ self.old.next + 1) }
    {
        match &mut self.kept {
            Kept::Listed(atts) => list_number(atts, self.next, value)?,
            Kept::Keyed(atts) => key_number(atts, self.next, value)?,
        }
        self.next += 1;
        Ok(())
    }
}

// A part of a text, which is text if it is cut between characters.
fn part(alloc: Global, text: &str, span: Span) -> Result<Text, AllocError>
    requires order { span.start ≤ span.end }
    requires start { IsCharBoundary text.now span.start }
    requires end { IsCharBoundary text.now span.end }
    ensures value { IfOk result (λ t. t ≡ cut text.now span) }
    ensures memory { OnErr result (22 < length (cut text.now span)) }
{
    Text::from_str(alloc, &text[span.start..span.end])
}

fn has_upper(bytes: &[u8]) -> bool
    ensures { result ≡ list_any is_ascii_uppercase bytes.now }
{
    bytes.iter().any(|b| b.is_ascii_uppercase())
}

// The same in ASCII lower case.
#[tactic(auto, using(crate::proofs::Lower::lower_already))]
fn lower(alloc: Global, text: &str, span: Span) -> Result<Text, AllocError>
    requires order { span.start ≤ span.end }
    requires start { IsCharBoundary text.now span.start }
    requires end { IsCharBoundary text.now span.end }
    ensures { IfOk result (λ t. t ≡ str_to_ascii_lowercase (cut text.now span)) }
{
    let name = &text[span.start..span.end];
    if has_upper(name.as_bytes()) {
        return Text::from_string(name.to_ascii_lowercase(alloc)?);
    }
    Text::from_str(alloc, name)
}

// Takes the token's attribute. An empty value without a name is none, and takes no memory.
fn take(alloc: Global, text: &str, found: &mut Gathering, token: Token) -> Result<(), AllocError>
    requires token { IsCutAt text.now token }
    requires room { found.old.next < 2 ^ 32 - 1 }
    ensures gathers { OnOk result (Gathers found.old.atts found.old.next found.new.atts
        found.new.next text.now token) }
    ensures memory { OnErr result (token.name ≡ None → 0 < length (cut text.now token.value)) }
{
    match token.name {
        Some(name) => {
            let name = lower(alloc, text, name)?;
            let value = part(alloc, text, token.value)?;
            found.put_name(name, value)
        }
        None => {
            let value = part(alloc, text, token.value)?;
            if value.len() > 0 {
                found.put_number(value)?;
            }
            Ok(())
        }
    }
}

// A token is cut between characters, without work.
fn cuts(text: &str, place: usize, token: Token)
    requires there { IsCharBoundary text.now place }
    requires within { token.end ≤ length text.now }
    requires token { IsToken text.now place token }
    ensures cuts { IsCutAt text.now token }
    ensures end { IsCharBoundary text.now token.end }
{}

// Spaces are skipped between characters, without work.
fn check_skip(text: &str, from: usize, place: usize)
    requires there { IsCharBoundary text.now from }
    requires first { IsFirst (NoSpace text.now) from place }
    ensures { IsCharBoundary text.now place }
{}

// The next place without a space.
fn next_place(text: &str, from: usize) -> usize
    requires { IsCharBoundary text.now from }
    ensures first { IsFirst (NoSpace text.now) from result }
    ensures within { result ≤ length text.now }
    ensures edge { IsCharBoundary text.now result }
{
    let place = skip_spaces(text.as_bytes(), from);
    check_skip(text, from, place);
    place
}

// The token there.
fn token_of(text: &str, place: usize) -> Token
    requires place { place < length text.now }
    requires begins { NoSpace text.now place }
    requires edge { IsCharBoundary text.now place }
    ensures token { IsToken text.now place result }
    ensures end { (place < result.end) × (result.end ≤ length text.now) }
    ensures cuts { IsCutAt text.now result }
    ensures edge { IsCharBoundary text.now result.end }
{
    let token = token_at(text.as_bytes(), place);
    cuts(text, place, token);
    token
}

/// The attributes of an attribute text. Of an empty one this takes no memory.
pub fn attributes(alloc: Global, text: &str) -> Result<Atts, AllocError>
    requires { length text.now < 2 ^ 32 }
    ensures computed { IfOk result (λ atts. atts ≡ attributes_of text.now) }
    ensures list { IfOk result (λ atts. IsAttributes text.now atts) }
    ensures memory { OnErr result (0 < length text.now) }
{
    let mut found = Gathering::new(alloc, text.len())?;
    let mut at = 0;
    'tokens: loop {
        let place = next_place(text, at);
        if place == text.len() {
            let atts = found.into_atts(alloc, text)?;
            return Ok(atts);
        }
        let token = token_of(text, place);
        take(alloc, text, &mut found, token)?;
        at = token.end;
    }
}
