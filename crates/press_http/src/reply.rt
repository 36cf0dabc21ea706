//! Replies as bytes.

ghost use Rattle.std.specs.Prelude.{◌≡◌, IfOk, IfErr, ◌⊎◌, ◌++◌, OnOk, OnErr, IsErrOf, string_bytes};
ghost use Rattle.std.specs.Io.KnownBytes.{Appends, Keeps};
ghost use Rattle.press_text.specs.Streams.{AppendsFront, AppendsProperFront};
ghost use Rattle.press_http.specs.Replies.{content_type, fault_bytes, head_bytes, phrase_of, reply_bytes, reply_head, IsReplyStatus};

use crate::fault::HttpFault;
use http::StatusCode;
use press_page::{ContentKind, Reply};
use press_text::write_once;
use std::alloc::{AllocError, Global};
use std::io::Write;

#[tactic(auto, unfolding(crate::specs::Replies::phrase_of))]
fn phrase(status: u16) -> &'static str
    ensures { result.now ≡ phrase_of status }
{
    match StatusCode::from_u16(status) {
        Ok(code) => code.canonical_reason().unwrap_or(""),
        Err(_) => "",
    }
}

fn content_type(kind: ContentKind) -> &'static str
    ensures { result.now ≡ content_type kind }
{
    match kind {
        ContentKind::Html => "text/html; charset=UTF-8",
        ContentKind::Json => "application/json; charset=UTF-8",
        ContentKind::Text => "text/plain; charset=UTF-8",
    }
}

#[tactic(auto, unfolding(crate::specs::Replies::head_bytes))]
fn head(
    alloc: Global,
    status: u16,
    phrase: &str,
    kind: &str,
    count: usize,
) -> Result<String, AllocError>
    ensures { IfOk result (λ t. string_bytes t ≡ head_bytes status phrase.now kind.now count) }
{
    format!(in alloc;
        "HTTP/1.1 {status} {phrase}\r\nContent-Type: {kind}\r\nContent-Length: {count}\r\nConnection: close\r\n\r\n"
    )
}

fn head_of(alloc: Global, reply: &Reply) -> Result<String, AllocError>
    ensures { IfOk result (λ t. string_bytes t ≡ reply_head reply.now) }
{
    head(
        alloc,
        reply.status,
        phrase(reply.status),
        content_type(reply.kind),
        reply.body.len(),
    )
}

fn write_bytes<W: Write>(writer: &mut W, bytes: &[u8]) -> Result<(), HttpFault>
    ensures ok { OnOk result (Appends (W.contents writer.old) (W.contents writer.new) bytes.now) }
    ensures err { OnErr result (AppendsFront (W.contents writer.old) (W.contents writer.new)
        bytes.now) }
    ensures left { OnErr result (AppendsProperFront (W.contents writer.old)
        (W.contents writer.new) bytes.now) }
    ensures fault { IfErr result (λ e. e ≡ HttpFault.WriteFault) }
{
    match write_once(writer, bytes) {
        Ok(()) => Ok(()),
        Err(_) => Err(HttpFault::WriteFault),
    }
}

// Two runs of bytes, one after the other.
fn write_both<W: Write>(writer: &mut W, first: &[u8], second: &[u8]) -> Result<(), HttpFault>
    ensures ok { OnOk result (Appends (W.contents writer.old) (W.contents writer.new) (first.now
        ++ second.now)) }
    ensures err { OnErr result (AppendsFront (W.contents writer.old) (W.contents writer.new)
        (first.now ++ second.now)) }
    ensures left { OnErr result (AppendsProperFront (W.contents writer.old)
        (W.contents writer.new) (first.now ++ second.now)) }
    ensures fault { IfErr result (λ e. e ≡ HttpFault.WriteFault) }
{
    write_bytes(writer, first)?;
    write_bytes(writer, second)?;
    Ok(())
}

/// Writes a reply, each byte once. Out of memory is returned before anything is written; a write
/// that failed, or took nothing, is not tried again.
pub fn write_reply<W: Write>(alloc: Global, writer: &mut W, reply: &Reply) -> Result<(), HttpFault>
    ensures ok { OnOk result (Appends (W.contents writer.old) (W.contents writer.new)
        (reply_bytes reply.now)) }
    ensures err { IfErr result (λ e. (e ≡ HttpFault.WriteFault) ⊎ (e ≡ HttpFault.NoMemory)) }
    ensures part { IsErrOf result HttpFault.WriteFault
        → AppendsFront (W.contents writer.old) (W.contents writer.new) (reply_bytes reply.now) }
    ensures left { IsErrOf result HttpFault.WriteFault → AppendsProperFront
        (W.contents writer.old) (W.contents writer.new) (reply_bytes reply.now) }
    ensures nothing { IsErrOf result HttpFault.NoMemory
        → Keeps (W.contents writer.old) (W.contents writer.new) }
{
    let head = head_of(alloc, reply)?;
    write_both(writer, head.as_bytes(), reply.body.as_bytes())
}

macro_rules! fixed {
    ($status:literal, $phrase:literal, $count:literal) => {
        concat!(
            "HTTP/1.1 ",
            $status,
            " ",
            $phrase,
            "\r\nContent-Type: text/html; charset=UTF-8\r\nContent-Length: ",
            $count,
            "\r\nConnection: close\r\n\r\n<!DOCTYPE html>\n<html>\n<body>\n<h1>",
            $status,
            " ",
            $phrase,
            "</h1>\n</body>\n</html>\n"
        )
    };
}

// The whole reply of a status, which takes no memory.
fn fixed_reply(status: u16) -> &'static str
    requires { IsReplyStatus status }
    ensures { result.now ≡ fault_bytes status }
{
    match status {
        200 => fixed!("200", "OK", "62"),
        202 => fixed!("202", "Accepted", "68"),
        400 => fixed!("400", "Bad Request", "71"),
        404 => fixed!("404", "Not Found", "69"),
        405 => fixed!("405", "Method Not Allowed", "78"),
        411 => fixed!("411", "Length Required", "75"),
        413 => fixed!("413", "Payload Too Large", "77"),
        431 => fixed!("431", "Request Header Fields Too Large", "91"),
        500 => fixed!("500", "Internal Server Error", "81"),
        501 => fixed!("501", "Not Implemented", "75"),
        503 => fixed!("503", "Service Unavailable", "79"),
        _ => unreachable!(),
    }
}

/// Writes the reply of a status with its fixed body, each byte once, and takes no memory. A write
/// that failed, or took nothing, is not tried again.
pub fn write_fault<W: Write>(writer: &mut W, status: u16) -> Result<(), HttpFault>
    requires { IsReplyStatus status }
    ensures ok { OnOk result (Appends (W.contents writer.old) (W.contents writer.new)
        (fault_bytes status)) }
    ensures err { OnErr result (AppendsFront (W.contents writer.old) (W.contents writer.new)
        (fault_bytes status)) }
    ensures left { OnErr result (AppendsProperFront (W.contents writer.old)
        (W.contents writer.new) (fault_bytes status)) }
    ensures fault { IfErr result (λ e. e ≡ HttpFault.WriteFault) }
{
    write_bytes(writer, fixed_reply(status).as_bytes())
}
