//! The fields of a head, and what they say of the body.

ghost use Rattle.std.specs.Prelude.{IfSome, position, ◌≡◌, ◌==◌, ◌<◌, ◌≤◌, ◌^◌, List, ℕ, All, true, not, length, map, codes, MatchOption};
ghost use Rattle.std.specs.List.{list_all, before_first};
ghost use Rattle.std.specs.Char.{is_ascii_digit};
ghost use Rattle.std.specs.Str.Parse.{digits_value};
ghost use Rattle.httparse.specs.Spans.{IsHeaderWithin, header_bytes};
ghost use Rattle.press_http.specs.Bodies.{AreValues, are_digits, body_length, is_empty, is_named, length_by, length_in, most_body, posted_length, starts_with_slash, values_of};

use crate::fault::HttpFault;
use httparse::spans::HeaderSpan;
use std::str::from_utf8;

/// How long the body of a form may be.
pub const LONGEST_FORM: u64 = 65_536;

// How long that of a message from another node may be, which may have 16 votes.
const LONGEST_PEER: u64 = 524_288;

// What stands before the query.
#[tactic(auto, using(crate::proofs::Paths::cut_at, crate::proofs::Paths::uncut))]
fn path_of(target: &[u8]) -> &[u8]
    ensures { result.now ≡ before_first (λ b. b == 63) target.now }
{
    match query_at(target) {
        Some(end) => &target[..end],
        None => target,
    }
}

// Where the query begins.
fn query_at(target: &[u8]) -> Option<usize>
    ensures place { result ≡ position (λ b. b == 63) target.now }
    ensures within { IfSome result (λ end. end < length target.now) }
{
    target.iter().position(|b| *b == b'?')
}

#[tactic(auto, unfolding(crate::specs::Bodies::most_body))]
fn most_body(target: &[u8]) -> u64
    ensures { result ≡ most_body target.now }
{
    if path_of(target) == b"/peer".as_slice() {
        LONGEST_PEER
    } else {
        LONGEST_FORM
    }
}

/// The values of the fields of one name.
#[derive(Clone, Copy, Debug)]
pub enum Values<'b> {
    Nothing,
    One(&'b [u8]),
    More,
}

fn is_named(name: &str, other: &[u8]) -> bool
    ensures { result ≡ is_named name.now other.now }
{
    other.eq_ignore_ascii_case(name.as_bytes())
}

// The values of the fields of that name, over the bytes that hold them.
fn values_of<'b>(buf: &'b [u8], fields: &[HeaderSpan], name: &str) -> Values<'b>
    requires { All (IsHeaderWithin (length buf.now)) fields.now }
    ensures { AreValues result (values_of name.now (map (header_bytes buf.now) fields.now)) }
{
    let mut found = Values::Nothing;
    for field in fields {
        if is_named(name, field.name.of(buf)) {
            match found {
                Values::Nothing => found = Values::One(field.value.of(buf)),
                _ => return Values::More,
            }
        }
    }
    found
}

fn all_digits(value: &[u8]) -> bool
    ensures { result ≡ list_all is_ascii_digit value.now }
{
    value.iter().all(|b| b.is_ascii_digit())
}

fn are_digits(value: &[u8]) -> bool
    ensures { result ≡ are_digits value.now }
{
    !value.is_empty() && all_digits(value)
}

// The digits as text.
fn text_of(digits: &[u8]) -> &str
    requires { are_digits digits.now ≡ true }
    ensures { result.now ≡ digits.now }
{
    let Ok(text) = from_utf8(digits) else {
        unreachable!()
    };
    text
}

// The number that digits write, where it is below 2^64.
fn number_of(digits: &str) -> Option<u64>
    requires { are_digits digits.now ≡ true }
    ensures { MatchOption result (2 ^ 64 ≤ digits_value 10 digits.now)
        (λ n. n ≡ digits_value 10 digits.now) }
{
    digits.parse::<u64>().ok()
}

// The length in a field: digits alone, however many.
fn length_in(value: &[u8], most: u64) -> Result<usize, HttpFault>
    ensures { result ≡ length_in most value.now }
{
    if !are_digits(value) {
        return Err(HttpFault::BadHead);
    }
    match number_of(text_of(value)) {
        Some(n) if n <= most => Ok(n as usize),
        _ => Err(HttpFault::TooBig),
    }
}

fn length_by(values: Values<'_>, most: u64) -> Result<usize, HttpFault>
    ensures { (vs : List (List ℕ)) → AreValues values.entry vs → result ≡ length_by most vs }
{
    match values {
        Values::Nothing => Err(HttpFault::NoLength),
        Values::One(value) => length_in(value, most),
        Values::More => Err(HttpFault::BadHead),
    }
}

fn has_coding(buf: &[u8], fields: &[HeaderSpan]) -> bool
    requires { All (IsHeaderWithin (length buf.now)) fields.now }
    ensures { result ≡ not (is_empty (values_of (codes "Transfer-Encoding")
        (map (header_bytes buf.now) fields.now))) }
{
    match values_of(buf, fields, "Transfer-Encoding") {
        Values::Nothing => false,
        Values::One(_) | Values::More => true,
    }
}

fn told_length(buf: &[u8], fields: &[HeaderSpan], most: u64) -> Result<usize, HttpFault>
    requires { All (IsHeaderWithin (length buf.now)) fields.now }
    ensures { result ≡ length_by most (values_of (codes "Content-Length")
        (map (header_bytes buf.now) fields.now)) }
{
    length_by(values_of(buf, fields, "Content-Length"), most)
}

/// How many bytes of body a request has that has to have one, where so many are taken at most.
pub fn posted_length(buf: &[u8], fields: &[HeaderSpan], most: u64) -> Result<usize, HttpFault>
    requires { All (IsHeaderWithin (length buf.now)) fields.now }
    ensures { result ≡ posted_length most (map (header_bytes buf.now) fields.now) }
{
    if has_coding(buf, fields) {
        return Err(HttpFault::NotDone);
    }
    told_length(buf, fields, most)
}

fn starts_with_slash(target: &[u8]) -> bool
    ensures { result ≡ starts_with_slash target.now }
{
    match target {
        [first, ..] => *first == b'/',
        [] => false,
    }
}

/// How many bytes of body a request has, by its target, its method and its fields.
#[tactic(auto, unfolding(crate::specs::Bodies::body_length))]
pub fn body_length(
    buf: &[u8],
    method: &[u8],
    target: &[u8],
    fields: &[HeaderSpan],
) -> Result<usize, HttpFault>
    requires { All (IsHeaderWithin (length buf.now)) fields.now }
    ensures { result ≡ body_length method.now target.now (map (header_bytes buf.now) fields.now) }
{
    if !starts_with_slash(target) {
        return Err(HttpFault::BadHead);
    }
    if has_coding(buf, fields) {
        return Err(HttpFault::NotDone);
    }
    if method == b"POST".as_slice() {
        told_length(buf, fields, most_body(target))
    } else {
        Ok(0)
    }
}
