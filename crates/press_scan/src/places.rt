ghost use Rattle.std.specs.Prelude.{◌≡◌, ◌<◌, ◌≤◌, length, MatchOption};
ghost use Rattle.std.specs.List.{list_all};
ghost use Rattle.press_text.specs.Names.{is_name_byte as name_byte};
ghost use Rattle.press_scan.specs.Places.{At, AtNoName, IsFirst, NoneFrom};

use memchr::memchr;

fn is_name_byte(b: u8) -> bool
    ensures { result ≡ name_byte b }
{
    b.is_ascii_alphanumeric() || b == b'_' || b == b'-'
}

pub fn all_name_bytes(bytes: &[u8]) -> bool
    ensures { result ≡ list_all name_byte bytes.now }
{
    bytes.iter().all(|b| is_name_byte(*b))
}

/// The byte at a place, 0 past the end.
pub fn byte_at(text: &[u8], place: usize) -> u8
    ensures { At text.now result place }
{
    if place < text.len() { text[place] } else { 0 }
}

/// The end of the longest run of name bytes.
pub fn name_end(text: &[u8], from: usize) -> usize
    requires { from ≤ length text.now }
    ensures first { IsFirst (AtNoName text.now) from result }
    ensures within { result ≤ length text.now }
{
    for place in from..text.len() {
        if !is_name_byte(text[place]) {
            return place;
        }
    }
    text.len()
}

/// The first such byte at or after a place.
pub fn find_byte(text: &[u8], byte: u8, from: usize) -> Option<usize>
    requires { 0 < byte }
    ensures { MatchOption result (NoneFrom (At text.now byte) from)
        (λ p. IsFirst (At text.now byte) from p) }
{
    if text.len() <= from {
        return None;
    }
    if text[from] == byte {
        return Some(from);
    }
    match memchr(byte, &text[from..]) {
        Some(ahead) => Some(from + ahead),
        None => None,
    }
}
