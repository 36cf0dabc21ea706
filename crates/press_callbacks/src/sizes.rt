//! Whether the texts of a turn are within so many bytes, which is seen before they are made.

ghost use Rattle.std.specs.Prelude.{◌≡◌, length, leb};
ghost use Rattle.std.specs.List.{list_all};
ghost use Rattle.press_text.specs.Escapes.{escaped_byte, escaped_text};
ghost use Rattle.press_callbacks.specs.Sizes.{left_of};
ghost use Rattle.press_callbacks.specs.Turns.{are_within, part_text, text_of, turn_of, turn_of_op};

use crate::script::{CallIn, Op, Part, Parts};
use crate::sources::source_text;

/// Whether each text of a script's turn has at most so many bytes.
pub fn fits(script: &[Op], call: &CallIn, most: usize) -> bool
    ensures { result ≡ are_within most (turn_of script.now call.now) }
{
    match script.get(call.turn) {
        None => call.value.len() <= most,
        Some(op) => op_fits(op, call, most),
    }
}

#[tactic(auto, using(crate::proofs::Past::texts_within))]
fn op_fits(op: &Op, call: &CallIn, most: usize) -> bool
    ensures { result ≡ are_within most (turn_of_op call.now op.now) }
{
    match op {
        Op::Set(parts) => is_within(parts.as_slice(), call, most),
        Op::AddHook { .. } => true,
        Op::RemoveHook { .. } => true,
        Op::RemoveAll { .. } => true,
        Op::AddTag { .. } => true,
        Op::RemoveTag { .. } => true,
        Op::SkipIf { .. } => true,
        Op::Apply { value, more, .. } => {
            is_within(value.as_slice(), call, most) && all_within(more.as_slice(), call, most)
        }
        Op::Do { args, .. } => all_within(args.as_slice(), call, most),
        Op::Shortcodes(parts) => is_within(parts.as_slice(), call, most),
        Op::Ask(_) => true,
        Op::SetOption { value, .. } => is_within(value.as_slice(), call, most),
        Op::Schedule { arg, .. } => is_within(arg.as_slice(), call, most),
        Op::Publish(parts) => is_within(parts.as_slice(), call, most),
        Op::Echo(parts) => is_within(parts.as_slice(), call, most),
        Op::Return(parts) => is_within(parts.as_slice(), call, most),
    }
}

fn all_within(all: &[Parts], call: &CallIn, most: usize) -> bool
    ensures { result ≡ list_all (λ parts. leb (length (text_of call.now parts)) most) all.now }
{
    all.iter()
        .all(|parts| is_within(parts.as_slice(), call, most))
}

#[tactic(auto, using(crate::proofs::Past::past_parts))]
fn is_within(parts: &[Part], call: &CallIn, most: usize) -> bool
    ensures { result ≡ leb (length (text_of call.now parts.now)) most }
{
    let mut room = most;
    for part in parts {
        match room_behind(part, call, room) {
            Some(left) => room = left,
            None => return false,
        }
    }
    true
}

// What is left of some room behind a part.
fn room_behind(part: &Part, call: &CallIn, room: usize) -> Option<usize>
    ensures { result ≡ left_of room (length (part_text call.now part.now)) }
{
    match part {
        Part::Lit(t) => room.checked_sub(t.len()),
        Part::Raw(source) => room.checked_sub(source_text(source, call).len()),
        Part::Escaped(source) => room_behind_escape(source_text(source, call).as_bytes(), room),
    }
}

#[tactic(auto, using(crate::proofs::Past::past_bytes))]
fn room_behind_escape(text: &[u8], room: usize) -> Option<usize>
    ensures { result ≡ left_of room (length (escaped_text text.now)) }
{
    let mut left = room;
    for byte in text {
        let length = escaped_length(*byte);
        if left < length {
            return None;
        }
        left -= length;
    }
    Some(left)
}

fn escaped_length(byte: u8) -> usize
    ensures { result ≡ length (escaped_byte byte) }
{
    match byte {
        b'&' => 5,
        b'<' => 4,
        b'>' => 4,
        b'"' => 6,
        b'\'' => 6,
        _ => 1,
    }
}
