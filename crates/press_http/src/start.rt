//! The head of a request, and what its fields say of the body.

ghost use Rattle.std.specs.Prelude.{◌≡◌, ℕ, ◌≤◌, List, Option, All, IfOk, IsUtf8, drop, length, map, take, MatchResult};
ghost use Rattle.std.specs.Io.KnownBytes.{Consumes};
ghost use Rattle.httparse.specs.Grammar.{IsToken};
ghost use Rattle.httparse.specs.Spans.{IsRequestWithin, header_bytes, span_bytes};
ghost use Rattle.press_http.specs.Bodies.{body_length};
ghost use Rattle.press_http.specs.Heads.{IsHead, WantsHead, longest_head, most_fields};
ghost use Rattle.press_http.specs.Reads.{MayGoOn, Reads, seen_by};
ghost use Rattle.press_http.specs.Requests.{EndsBy, IsStart, Refuses};

use crate::fault::HttpFault;
use crate::fields::body_length;
use crate::head::{MOST_FIELDS, read_head};
use crate::pieces::Pieces;
use http::Method;
use http::method::MethodError;
use httparse::spans::{EMPTY_HEADER_SPAN, HeaderSpan, RequestSpans};
use press_text::{Items, Text};
use std::alloc::{AllocError, Global};
use std::str::from_utf8;

/// A head, the count of bytes of the body, and the bytes after the head.
#[derive(Drop)]
pub struct Start {
    pub method: Method,
    pub target: Text,
    pub count: usize,
    pub rest: Items<u8>,
}

#[tactic(auto, using(crate::proofs::Tokens::same_token))]
fn method_of(alloc: Global, bytes: &[u8]) -> Result<Method, AllocError>
    requires { IsToken bytes.now }
    ensures { IfOk result (λ m. m ≡ bytes.now) }
{
    match Method::from_bytes(alloc, bytes) {
        Ok(method) => Ok(method),
        Err(MethodError::OutOfMemory) => Err(AllocError),
        Err(MethodError::Invalid) => unreachable!(),
    }
}

fn target_of(alloc: Global, bytes: &[u8]) -> Result<Text, AllocError>
    requires { IsUtf8 bytes.now }
    ensures { IfOk result (λ t. t ≡ bytes.now) }
{
    match from_utf8(bytes) {
        Ok(text) => Text::from_str(alloc, text),
        Err(_) => unreachable!(),
    }
}

// How many bytes of body there are.
fn count_of(seen: &[u8], headers: &[HeaderSpan], spans: &RequestSpans) -> Result<usize, HttpFault>
    requires { IsRequestWithin seen.now headers.now spans.now }
    ensures { result ≡ body_length (span_bytes seen.now spans.now.method)
        (span_bytes seen.now spans.now.path)
        (map (header_bytes seen.now) (take spans.now.headers headers.now)) }
{
    let method = spans.method.of(seen);
    let target = spans.path.of(seen);
    body_length(seen, method, target, &headers[..spans.headers])
}

// What the head says, in memory of its own.
fn parts(
    alloc: Global,
    seen: &[u8],
    headers: &[HeaderSpan],
    spans: &RequestSpans,
    count: usize,
) -> Result<Start, AllocError>
    requires { IsHead seen.now headers.now spans.now }
    ensures { IfOk result (λ s. (s.method ≡ span_bytes seen.now spans.now.method)
        × (s.target ≡ span_bytes seen.now spans.now.path)
        × (s.count ≡ count) × (s.rest ≡ drop spans.now.len seen.now)) }
{
    let method = method_of(alloc, spans.method.of(seen))?;
    let target = target_of(alloc, spans.path.of(seen))?;
    let rest = Vec::from_slice(alloc, &seen[spans.len..])?;
    Ok(Start {
        method,
        target,
        count,
        rest: Items::from_vec(rest),
    })
}

// The length of the body is judged before memory is taken for it.
fn start_of_head(
    alloc: Global,
    seen: &[u8],
    headers: &[HeaderSpan],
    spans: &RequestSpans,
) -> Result<Start, HttpFault>
    requires head { IsHead seen.now headers.now spans.now }
    requires room { length headers.now ≡ most_fields }
    requires short { length seen.now ≤ longest_head }
    ensures { (left : Option (List ℕ)) → MatchResult result (IsStart seen.now)
        (λ e. Refuses e seen.now left × ((reads : List (Option (List ℕ))) → EndsBy e reads)) }
{
    let count = count_of(seen, headers, spans)?;
    let start = parts(alloc, seen, headers, spans, count)?;
    Ok(start)
}

/// Reads the head of a request, and judges it.
pub fn read_start<R: Pieces>(alloc: Global, reader: &mut R) -> Result<Start, HttpFault>
    ensures { (reads : List (Option (List ℕ)))
        × Reads R.gives WantsHead reads reader.old reader.new
        × Consumes (R.left reader.old) (R.left reader.new) (seen_by reads)
        × (length (seen_by reads) ≤ longest_head)
        × MatchResult result (λ s. IsStart (seen_by reads) s × MayGoOn reads)
        (λ e. Refuses e (seen_by reads) (R.left reader.new) × EndsBy e reads) }
{
    let mut headers = [EMPTY_HEADER_SPAN; MOST_FIELDS];
    let (seen, spans) = read_head(alloc, reader, &mut headers)?;
    start_of_head(alloc, &seen, &headers, &spans)
}
