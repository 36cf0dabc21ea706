//! Reading a head in the pieces in which it comes.

ghost use Rattle.std.specs.Prelude.{◌≡◌, ℕ, ◌≤◌, List, length, Option, MatchResult};
ghost use Rattle.std.specs.Io.KnownBytes.{Consumes};
ghost use Rattle.press_http.specs.Heads.{IsHead, Looks, RefusesHead, WantsHead, longest_head, most_fields};
ghost use Rattle.press_http.specs.Reads.{MayGoOn, Reads, seen_by};
ghost use Rattle.press_http.specs.Requests.{EndsBy};

use crate::fault::HttpFault;
use crate::pieces::Pieces;
use crate::streams::read_some;
use httparse::spans::{HeaderSpan, RequestSpans, parse_request};
use httparse::{Error, Status};
use std::alloc::Global;

/// How many fields a head may have.
pub const MOST_FIELDS: usize = 32;

/// How long a head may be.
pub const LONGEST_HEAD: usize = 8192;

// One look at the bytes that came so far.
fn look(buf: &[u8], headers: &mut [HeaderSpan]) -> Result<Option<RequestSpans>, HttpFault>
    requires { length headers.old ≡ most_fields }
    ensures { Looks buf.now headers.new result }
{
    match parse_request(buf, headers) {
        Ok(Status::Complete(spans)) => Ok(Some(spans)),
        Ok(Status::Partial) => Ok(None),
        Err(Error::TooManyHeaders) => Err(HttpFault::FieldsTooLarge),
        Err(_) => Err(HttpFault::BadHead),
    }
}

/// Reads a head in the pieces in which it comes: the bytes that were seen, which begin with the
/// head, and where its parts are. Bytes after the head follow it.
pub fn read_head<R: Pieces>(
    alloc: Global,
    reader: &mut R,
    headers: &mut [HeaderSpan],
) -> Result<(Vec<u8>, RequestSpans), HttpFault>
    requires { length headers.old ≡ most_fields }
    ensures { (reads : List (Option (List ℕ)))
        × Reads R.gives WantsHead reads reader.old reader.new
        × Consumes (R.left reader.old) (R.left reader.new) (seen_by reads)
        × (length (seen_by reads) ≤ longest_head)
        × MatchResult result
        (λ x. (x.0.items ≡ seen_by reads) × IsHead (seen_by reads) headers.new x.1
        × MayGoOn reads)
        (λ e. RefusesHead e (seen_by reads) (R.left reader.new) × EndsBy e reads) }
{
    let mut buf = Vec::new(alloc);
    while buf.len() < LONGEST_HEAD {
        if let Some(spans) = look(&buf, headers)? {
            return Ok((buf, spans));
        }
        let room = LONGEST_HEAD - buf.len();
        if read_some(reader, &mut buf, room)? == 0 {
            return Err(HttpFault::Ended);
        }
    }
    match look(&buf, headers)? {
        Some(spans) => Ok((buf, spans)),
        None => Err(HttpFault::FieldsTooLarge),
    }
}
