//! The status line of a reply, as a client reads it.

ghost use Rattle.std.specs.Prelude.{◌≡◌, ℕ, None, IfSome};
ghost use Rattle.press_http.specs.StatusLine.{SaysStatus};

use press_text::dec_u64;
use std::str::from_utf8;

/// How many bytes a reply has up to the end of its status: `HTTP/1.1 200`.
pub const FRONT_LEN: usize = 12;

/// The status that a reply says, by its first bytes; None where they are none of a reply's.
pub fn status_of_reply(reply: &[u8]) -> Option<u16>
    ensures says { IfSome result (λ status. SaysStatus reply.now status) }
    ensures none { result ≡ None → (status : ℕ) → SaysStatus reply.now status → ⊥ }
{
    let front = from_utf8(reply.get(..FRONT_LEN)?).ok()?;
    let code = front.strip_prefix("HTTP/1.1 ")?;
    u16::try_from(dec_u64(code)?).ok()
}
