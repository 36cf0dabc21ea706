use crate::batches::spell_batch_again;
use crate::kind::Kind;
use crate::piece_reader::{Failure, PieceReader};
use crate::requests::read_and_route;
use crate::wires::Spelled;
use httparse::spans::{EMPTY_HEADER_SPAN, parse_request};
use press_apply::Value;
use press_wire::Message;
use std::alloc::Global;

// Reads what the bytes spell, and spells it again.
fn spell_again<T: Spelled>(alloc: Global, bytes: &[u8]) {
    if let Ok(value) = T::read(alloc, bytes) {
        let _ = value.spell(alloc);
    }
}

fn once(alloc: Global, kind: Kind, bytes: &[u8]) {
    match kind {
        Kind::Command => spell_again::<Value>(alloc, bytes),
        Kind::Message => spell_again::<Message>(alloc, bytes),
        Kind::Batch => spell_batch_again(alloc, bytes),
        Kind::Request => {
            let _ = read_and_route(alloc, &mut PieceReader::new(bytes, 4096, Failure::Never));
        }
    }
}

/// Reads the bytes this many times, for measuring.
pub fn again(alloc: Global, kind: Kind, bytes: &[u8], times: u32) {
    for _ in 0..times {
        once(alloc, kind, bytes);
    }
}

/// Reads a request's head this many times, by `httparse` alone.
pub fn heads(bytes: &[u8], times: u32) {
    for _ in 0..times {
        let mut fields = [EMPTY_HEADER_SPAN; 32];
        let _ = parse_request(bytes, &mut fields);
    }
}
