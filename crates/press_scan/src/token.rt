//! The tokens of an attribute text.

ghost use Rattle.std.specs.Prelude.{◌≡◌, ◌+◌, ◌<◌, ◌≤◌, ◌⊎◌, IsTrue, ◌↔◌, length, MatchOption, IfOk, IfSome, IfNone, Some, None, true, ◌++◌, ◌∷◌, []};
ghost use Rattle.press_scan.specs.Places.{At, AtNoName, IsFirst, NoneFrom};
ghost use Rattle.press_scan.specs.Tokens.{is_space as space, NoSpace, Ends, StopsBare, IsNamed, IsQuoted, IsBare, IsRun, Named, Nameless, IsToken, AreTokens};
ghost use Rattle.press_scan.specs.Tokens.{IsNamedToken, NoNamedToken, IsNamelessToken};
ghost use Rattle.press_scan.specs.declared.token.NamePart.{NamePart};
ghost use Rattle.press_scan.specs.declared.token.ValuePart.{ValuePart};

use crate::places::{find_byte, name_end};
use crate::span::Span;

/// A token: perhaps a name, a value, and the place after it, which has a space or is the end.
#[derive(Clone, Copy, Debug)]
pub struct Token {
    pub name: Option<Span>,
    pub value: Span,
    pub end: usize,
}

/// The name before an `=`, and where its value begins.
#[derive(Clone, Copy)]
pub struct NamePart {
    pub name: Span,
    pub next: usize,
}

/// A value, and the place after its token.
#[derive(Clone, Copy)]
pub struct ValuePart {
    pub value: Span,
    pub end: usize,
}

fn is_space(b: u8) -> bool
    ensures { result ≡ space b }
{
    (9 <= b && b <= 13) || b == 32
}

// Whether a token may end at a place.
fn ends(text: &[u8], place: usize) -> bool
    ensures { IsTrue result ↔ Ends text.now place }
{
    text.len() <= place || is_space(text[place])
}

/// The first non-space at or after a place, or the end.
pub fn skip_spaces(text: &[u8], from: usize) -> usize
    requires { from ≤ length text.now }
    ensures first { IsFirst (NoSpace text.now) from result }
    ensures within { result ≤ length text.now }
{
    for place in from..text.len() {
        if !is_space(text[place]) {
            return place;
        }
    }
    text.len()
}

// The first space at or after a place, or the end.
fn run_end(text: &[u8], from: usize) -> usize
    requires { from ≤ length text.now }
    ensures first { IsFirst (Ends text.now) from result }
    ensures within { result ≤ length text.now }
{
    for place in from..text.len() {
        if is_space(text[place]) {
            return place;
        }
    }
    text.len()
}

fn stops_bare(b: u8) -> bool
    ensures { IsTrue result ↔ (space b ≡ true) ⊎ (b ≡ 34) ⊎ (b ≡ 39) }
{
    is_space(b) || b == b'"' || b == b'\''
}

// The first space or quote at or after a place, or the end.
fn bare_end(text: &[u8], from: usize) -> usize
    requires { from ≤ length text.now }
    ensures first { IsFirst (StopsBare text.now) from result }
    ensures within { result ≤ length text.now }
{
    for place in from..text.len() {
        if stops_bare(text[place]) {
            return place;
        }
    }
    text.len()
}

fn read_name(text: &[u8], place: usize) -> Option<NamePart>
    requires { place ≤ length text.now }
    ensures { MatchOption result ((p : NamePart) → IsNamed text.now place p.name p.next → ⊥)
        (λ p. IsNamed text.now place p.name p.next × (place < p.next)
        × (p.next ≤ length text.now)) }
{
    let end = name_end(text, place);
    if end == place {
        return None;
    }
    let equals = skip_spaces(text, end);
    if equals == text.len() || text[equals] != b'=' {
        return None;
    }
    let next = skip_spaces(text, equals + 1);
    Some(NamePart {
        name: Span { start: place, end },
        next,
    })
}

fn read_quoted(text: &[u8], quote: u8, place: usize) -> Option<ValuePart>
    requires quote { 0 < quote }
    requires place { place ≤ length text.now }
    ensures { MatchOption result ((p : ValuePart) → IsQuoted quote text.now place p.value p.end
        → ⊥) (λ p. IsQuoted quote text.now place p.value p.end × (place < p.end)
        × (p.end ≤ length text.now)) }
{
    if place == text.len() || text[place] != quote {
        return None;
    }
    match find_byte(text, quote, place + 1) {
        Some(close) => {
            if ends(text, close + 1) {
                Some(ValuePart {
                    value: Span {
                        start: place + 1,
                        end: close,
                    },
                    end: close + 1,
                })
            } else {
                None
            }
        }
        None => None,
    }
}

fn bare(text: &[u8], place: usize) -> Option<ValuePart>
    requires { place ≤ length text.now }
    ensures { MatchOption result ((p : ValuePart) → IsBare text.now place p.value p.end → ⊥)
        (λ p. IsBare text.now place p.value p.end × (place < p.end) × (p.end ≤ length text.now)) }
{
    let end = bare_end(text, place);
    if place < end && ends(text, end) {
        Some(ValuePart {
            value: Span { start: place, end },
            end,
        })
    } else {
        None
    }
}

fn with_value(name: Option<Span>, part: ValuePart) -> Token
    ensures { (result.name ≡ name) × (result.value ≡ part.value) × (result.end ≡ part.end) }
{
    Token {
        name,
        value: part.value,
        end: part.end,
    }
}

// A token with a name.
fn named_token(text: &[u8], place: usize) -> Option<Token>
    requires { place ≤ length text.now }
    ensures none { IfNone result (NoNamedToken text.now place) }
    ensures some { IfSome result (λ t. IsNamedToken text.now place t × (place < t.end)
        × (t.end ≤ length text.now)) }
{
    let part = match read_name(text, place) {
        Some(part) => part,
        None => return None,
    };
    if let Some(double) = read_quoted(text, b'"', part.next) {
        return Some(with_value(Some(part.name), double));
    }
    if let Some(single) = read_quoted(text, b'\'', part.next) {
        return Some(with_value(Some(part.name), single));
    }
    match bare(text, part.next) {
        Some(word) => Some(with_value(Some(part.name), word)),
        None => None,
    }
}

// A token without a name.
fn nameless_token(text: &[u8], place: usize) -> Token
    requires place { place < length text.now }
    requires begins { NoSpace text.now place }
    ensures token { IsNamelessToken text.now place result }
    ensures end { (place < result.end) × (result.end ≤ length text.now) }
{
    if let Some(double) = read_quoted(text, b'"', place) {
        return with_value(None, double);
    }
    if let Some(single) = read_quoted(text, b'\'', place) {
        return with_value(None, single);
    }
    let end = run_end(text, place);
    Token {
        name: None,
        value: Span { start: place, end },
        end,
    }
}

/// The token at a place without a space.
pub fn token_at(text: &[u8], place: usize) -> Token
    requires place { place < length text.now }
    requires begins { NoSpace text.now place }
    ensures token { IsToken text.now place result }
    ensures end { (place < result.end) × (result.end ≤ length text.now) }
{
    match named_token(text, place) {
        Some(token) => token,
        None => nameless_token(text, place),
    }
}
