//! How a batch goes over a connection: in the request that brings it, and in the reply to that,
//! which is a batch as well.

ghost use Rattle.std.specs.Prelude.{ℕ, ◌≡◌, ◌++◌, IfOk, IfSome, List, drop, true};
ghost use Rattle.press_batch.specs.Carried.{carried_by};
ghost use Rattle.press_cluster.specs.Members.{IsSaid, is_done};

use httparse::spans::{EMPTY_HEADER_SPAN, parse_request};
use httparse::{Error, Status};
use press_batch::{Batch, MOST_BATCH_BYTES, decode_batch};
use press_http::{HttpFault, LONGEST_HEAD, MOST_FIELDS, posted_length};
use press_wire::MemberId;
use std::alloc::{AllocError, Global};

// How the reply to a request begins that is done, and what ends a head.
const DONE: &[u8] = b"HTTP/1.1 200 ";

const END: [u8; 4] = *b"\r\n\r\n";

fn head_of(alloc: Global, count: usize) -> Result<String, AllocError> {
    format!(in alloc;
        "POST /members HTTP/1.1\r\nHost: press\r\nContent-Type: application/octet-stream\r\nContent-Length: {count}\r\n\r\n"
    )
}

/// The bytes of the request that brings a batch. None without memory.
pub fn request_of(alloc: Global, batch: &[u8]) -> Option<Vec<u8>>
    ensures { IfSome result (λ request. (head : List ℕ) × (request.items ≡ head ++ batch.now)) }
{
    let head = head_of(alloc, batch.len()).ok()?;
    let mut request = head.into_bytes();
    request.extend_from_slice(batch).ok()?;
    Some(request)
}

/// The batch that a request brings, which may be longer than another body. A head is refused as
/// that of any other request; Ended where the request isn't whole yet.
pub fn body_in(request: &[u8]) -> Result<&[u8], HttpFault> {
    let mut fields = [EMPTY_HEADER_SPAN; MOST_FIELDS];
    let spans = match parse_request(request, &mut fields) {
        Ok(Status::Complete(spans)) if spans.len <= LONGEST_HEAD => spans,
        Ok(Status::Partial) if request.len() < LONGEST_HEAD => return Err(HttpFault::Ended),
        Ok(_) | Err(Error::TooManyHeaders) => return Err(HttpFault::FieldsTooLarge),
        Err(_) => return Err(HttpFault::BadHead),
    };
    let fields = &fields[..spans.headers];
    let count = posted_length(request, fields, MOST_BATCH_BYTES as u64)?;
    let end = spans.len.saturating_add(count);
    match request.get(spans.len..end) {
        Some(body) => Ok(body),
        None => Err(HttpFault::Ended),
    }
}

fn head_of_done(alloc: Global, count: usize) -> Result<String, AllocError> {
    format!(in alloc;
        "HTTP/1.1 200 OK\r\nContent-Type: application/octet-stream\r\nContent-Length: {count}\r\n\r\n"
    )
}

/// Writes the reply to a batch: another one.
pub fn tell_batch(alloc: Global, batch: &[u8], told: &mut Vec<u8>) -> Result<u16, HttpFault>
    ensures done { IfOk result (λ status. status ≡ 200) }
    ensures written { IfOk result (λ _. (head : List ℕ)
        × (told.new.items ≡ told.old.items ++ (head ++ batch.now))) }
{
    let mut reply = head_of_done(alloc, batch.len())?.into_bytes();
    reply.extend_from_slice(batch)?;
    told.extend_from_slice(&reply)?;
    Ok(200)
}

// The body of a reply that says that what was asked is done.
fn body_of_done(reply: &[u8]) -> Option<&[u8]>
    ensures done { IfSome result (λ _. is_done reply.now ≡ true) }
    ensures behind { IfSome result (λ body. (head : ℕ) × (body.now ≡ drop head reply.now)) }
{
    if !reply.starts_with(DONE) {
        return None;
    }
    let head = reply.windows(4).position(|it| it == END.as_slice())?;
    reply.get(head.saturating_add(END.len())..)
}

/// The batch of a member in its reply to another.
pub fn batch_by(alloc: Global, member: MemberId, reply: &[u8]) -> Option<Batch>
    ensures from { IfSome result (λ batch. batch.head.from ≡ member) }
    ensures said { IfSome result (λ batch. IsSaid reply.now (carried_by batch)) }
{
    match decode_batch(alloc, body_of_done(reply)?) {
        Ok(batch) if batch.head.from == member => Some(batch),
        _ => None,
    }
}
