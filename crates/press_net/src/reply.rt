//! Whether a reply is whole, so that another request may go over its connection.

ghost use Rattle.std.specs.Prelude.{◌≤◌, All, length};
ghost use Rattle.httparse.specs.Spans.{IsHeaderWithin};

use httparse::Status;
use httparse::spans::{EMPTY_HEADER_SPAN, HeaderSpan, parse_response};
use press_text::dec_u64;
use std::str::from_utf8;

// How many fields its head may have.
const MOST_FIELDS: usize = 8;

// The status of one behind which another request may go. Any other ends with its connection.
const DONE: u16 = 200;

// The number that digits alone spell.
fn number_in(digits: &[u8]) -> Option<usize> {
    let number = dec_u64(from_utf8(digits).ok()?)?;
    usize::try_from(number).ok()
}

// How many bytes of body there are, by the first field that says so.
fn count_by(reply: &[u8], fields: &[HeaderSpan]) -> Option<usize>
    requires { All (IsHeaderWithin (length reply.now)) fields.now }
{
    for field in fields {
        if field.name.of(reply).eq_ignore_ascii_case(b"Content-Length") {
            return number_in(field.value.of(reply));
        }
    }
    None
}

/// Whether a reply is one of status 200, with as many bytes of body as its head says.
pub fn is_whole(reply: &[u8]) -> bool {
    let mut fields = [EMPTY_HEADER_SPAN; MOST_FIELDS];
    let spans = match parse_response(reply, &mut fields) {
        Ok(Status::Complete(spans)) if spans.code == DONE => spans,
        _ => return false,
    };
    match count_by(reply, &fields[..spans.headers]) {
        Some(count) => spans.len.saturating_add(count) <= reply.len(),
        None => false,
    }
}
