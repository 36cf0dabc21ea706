//! Reading a request.

ghost use Rattle.std.specs.Prelude.{◌≡◌, ℕ, ◌≤◌, List, length, Option, MatchResult};
ghost use Rattle.std.specs.Io.KnownBytes.{Consumes};
ghost use Rattle.press_http.specs.Reads.{Reads, seen_by};
ghost use Rattle.press_http.specs.Requests.{EndsBy, IsRequest, Refuses, WantsMore, longest_request};

use crate::body::read_body;
use crate::fault::HttpFault;
use crate::pieces::Pieces;
use crate::request::Request;
use crate::start::{Start, read_start};
use std::alloc::Global;
use std::io::Read;

/// Reads a request as `read_request` does, and says which reads it makes: each one where what was
/// seen before it is no whole request, and has no fault that more bytes leave; none after one that
/// failed, or that found the end.
pub fn read_pieces<R: Pieces>(alloc: Global, reader: &mut R) -> Result<Request, HttpFault>
    ensures { (reads : List (Option (List ℕ)))
        × Reads R.gives WantsMore reads reader.old reader.new
        × Consumes (R.left reader.old) (R.left reader.new) (seen_by reads)
        × (length (seen_by reads) ≤ longest_request)
        × MatchResult result (IsRequest (seen_by reads))
        (λ e. Refuses e (seen_by reads) (R.left reader.new) × EndsBy e reads) }
{
    let Start {
        method,
        target,
        count,
        rest,
    } = read_start(alloc, reader)?;
    let body = read_body(reader, rest, count)?;
    Ok(Request {
        method,
        target,
        body,
    })
}

/// Reads a request, in whatever pieces it comes, and no more than it needs but for what comes with
/// its last piece. The first read that fails ends it with ReadFault; a read of nothing is the end
/// of the input.
pub fn read_request<R: Read>(alloc: Global, reader: &mut R) -> Result<Request, HttpFault>
    ensures { (seen : List ℕ)
        × Consumes (R.remaining reader.old) (R.remaining reader.new) seen
        × (length seen ≤ longest_request)
        × MatchResult result (IsRequest seen) (λ e. Refuses e seen (R.remaining reader.new)) }
{
    read_pieces(alloc, reader)
}
