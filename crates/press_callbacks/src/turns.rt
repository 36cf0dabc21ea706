ghost use Rattle.std.specs.Prelude.{◌≡◌, ◌<◌, ◌∷◌, ◌++◌, map, length, IfOk, IfSome, OnOk, OnErr};
ghost use Rattle.press_text.specs.Escapes.{escaped_text};
ghost use Rattle.press_callbacks.specs.Turns.{source_text, part_text, skip_count, text_of, turn_of_op, turn_of, TakesMemory};
ghost use Rattle.press_callbacks.specs.declared.script.Turn.TheVariants.{Go, Return};

use crate::script::{Ask, CallIn, Op, Part, Parts, Script, Source, Turn};
use crate::sources::source_text;
use crate::unread_text::{UnreadText, are_same};
use press_text::{Copied, Items, Text, Texts, esc_html};
use std::alloc::{AllocError, Global};

/// What one turn of a script asks for: that of the op at place `turn`, and past the last op Return
/// of the value. It may serve as a closure's body. Set, `do_shortcode`, publish and echo take no
/// memory where their text is empty.
pub fn script_turn(alloc: Global, script: &Script, call: &CallIn) -> Result<Turn, AllocError>
    ensures turn { IfOk result (λ t. t ≡ turn_of script.now call.now) }
    ensures memory { OnErr result (TakesMemory (turn_of script.now call.now)) }
{
    match script.as_slice().get(call.turn) {
        None => last_turn(alloc, call),
        Some(Op::Set(parts)) => set_turn(alloc, parts, call),
        Some(Op::Return(parts)) => return_turn(alloc, parts, call),
        Some(op) => op_turn(alloc, op, call),
    }
}

// The commonest turns have functions of their own: a call clears the room of all arms of its
// function.
#[inline(never)]
fn last_turn(alloc: Global, call: &CallIn) -> Result<Turn, AllocError>
    ensures { IfOk result (λ t. t ≡ Return call.now.value) }
{
    Ok(Turn::Return(call.value.copy(alloc)?))
}

#[inline(never)]
fn set_turn(alloc: Global, parts: &Parts, call: &CallIn) -> Result<Turn, AllocError>
    ensures turn { IfOk result (λ t. t ≡ Go (text_of call.now parts.now)) }
    ensures memory { OnErr result (0 < length (text_of call.now parts.now)) }
{
    Ok(Turn::Go(text_of(alloc, parts, call)?))
}

#[inline(never)]
fn return_turn(alloc: Global, parts: &Parts, call: &CallIn) -> Result<Turn, AllocError>
    ensures { IfOk result (λ t. t ≡ Return (text_of call.now parts.now)) }
{
    Ok(Turn::Return(text_of(alloc, parts, call)?))
}

#[inline(never)]
fn op_turn(alloc: Global, op: &Op, call: &CallIn) -> Result<Turn, AllocError>
    ensures turn { IfOk result (λ t. t ≡ turn_of_op call.now op.now) }
    ensures memory { OnErr result (TakesMemory (turn_of_op call.now op.now)) }
{
    match op {
        Op::Set(parts) => set_turn(alloc, parts, call),
        Op::AddHook {
            hook,
            callback,
            priority,
            accepted,
        } => Ok(Turn::AddHook {
            hook: hook.copy(alloc)?,
            callback: *callback,
            priority: *priority,
            accepted: *accepted,
        }),
        Op::RemoveHook {
            hook,
            callback,
            priority,
        } => Ok(Turn::RemoveHook {
            hook: hook.copy(alloc)?,
            callback: *callback,
            priority: *priority,
        }),
        Op::RemoveAll { hook, priority } => Ok(Turn::RemoveAll {
            hook: hook.copy(alloc)?,
            priority: *priority,
        }),
        Op::AddTag { tag, callback } => Ok(Turn::AddTag {
            tag: tag.copy(alloc)?,
            callback: *callback,
        }),
        Op::RemoveTag { tag } => Ok(Turn::RemoveTag {
            tag: tag.copy(alloc)?,
        }),
        Op::SkipIf { left, right, n } => Ok(Turn::Skip(skip_count(*n, left, right, call))),
        Op::Apply { hook, value, more } => {
            let hook = hook.copy(alloc)?;
            let texts = value_and_more(alloc, value, more, call)?;
            Ok(Turn::Apply { hook, texts })
        }
        Op::Do { hook, args } => {
            let hook = hook.copy(alloc)?;
            let texts = texts_of(alloc, args, call)?;
            Ok(Turn::Do { hook, texts })
        }
        Op::Shortcodes(parts) => Ok(Turn::Shortcodes(text_of(alloc, parts, call)?)),
        Op::Ask(ask) => Ok(Turn::Ask(ask.copy_in(alloc)?)),
        Op::SetOption { name, value } => Ok(Turn::SetOption {
            name: name.copy(alloc)?,
            value: text_of(alloc, value, call)?,
        }),
        Op::Schedule {
            after,
            every,
            hook,
            arg,
        } => Ok(Turn::Schedule {
            after: *after,
            every: *every,
            hook: hook.copy(alloc)?,
            arg: text_of(alloc, arg, call)?,
        }),
        Op::Publish(parts) => Ok(Turn::Publish(text_of(alloc, parts, call)?)),
        Op::Echo(parts) => Ok(Turn::Echo(text_of(alloc, parts, call)?)),
        Op::Return(parts) => return_turn(alloc, parts, call),
    }
}

// How many ops a SkipIf passes over: those that it names where the two texts are equal.
fn skip_count(n: u16, left: &Parts, right: &Parts, call: &CallIn) -> u16
    ensures { result ≡ skip_count (text_of call.now left.now) (text_of call.now right.now) n }
{
    let left = UnreadText::new(call, left.as_slice());
    let right = UnreadText::new(call, right.as_slice());
    if are_same(left, right) { n } else { 0 }
}

fn value_and_more(
    alloc: Global,
    value: &Parts,
    more: &Items<Parts>,
    call: &CallIn,
) -> Result<Texts, AllocError>
    ensures { IfOk result (λ ts. ts ≡ text_of call.now value.now
        ∷ map (text_of call.now) more.now) }
{
    let mut texts = Vec::new(alloc);
    texts.push(text_of(alloc, value, call)?)?;
    push_texts(alloc, &mut texts, more, call)?;
    Texts::from_vec(texts)
}

fn texts_of(alloc: Global, all: &Items<Parts>, call: &CallIn) -> Result<Texts, AllocError>
    ensures { IfOk result (λ ts. ts ≡ map (text_of call.now) all.now) }
{
    let mut texts = Vec::new(alloc);
    push_texts(alloc, &mut texts, all, call)?;
    Texts::from_vec(texts)
}

fn push_texts(
    alloc: Global,
    texts: &mut Vec<Text>,
    all: &Items<Parts>,
    call: &CallIn,
) -> Result<(), AllocError>
    ensures { OnOk result (texts.new.items ≡ texts.old.items ++ map (text_of call.now) all.now) }
{
    for parts in all.as_slice() {
        texts.push(text_of(alloc, parts, call)?)?;
    }
    Ok(())
}

#[tactic(auto, using(crate::proofs::Lengths::text_some))]
fn text_of(alloc: Global, parts: &Parts, call: &CallIn) -> Result<Text, AllocError>
    ensures text { IfOk result (λ t. t ≡ text_of call.now parts.now) }
    ensures memory { OnErr result (0 < length (text_of call.now parts.now)) }
{
    if let [first, second] = parts.as_slice() {
        if let Some((first, second)) = both(first, second, call) {
            return Text::join(alloc, first, second);
        }
    }
    let mut text = Text::new(alloc);
    for part in parts.as_slice() {
        push_part(alloc, &mut text, part, call)?;
    }
    Ok(text)
}

// The texts of two parts that are neither empty nor escaped.
fn both<'a>(first: &'a Part, second: &'a Part, call: &'a CallIn) -> Option<(&'a str, &'a str)>
    ensures { IfSome result (λ p. (p.0.now ≡ part_text call.now first.now)
        × (p.1.now ≡ part_text call.now second.now)) }
{
    let (first, second) = (plain(first, call)?, plain(second, call)?);
    if first.is_empty() || second.is_empty() {
        return None;
    }
    Some((first, second))
}

fn plain<'a>(part: &'a Part, call: &'a CallIn) -> Option<&'a str>
    ensures { IfSome result (λ t. t.now ≡ part_text call.now part.now) }
{
    match part {
        Part::Lit(text) => Some(text.as_str()),
        Part::Raw(source) => Some(source_text(source, call)),
        Part::Escaped(_) => None,
    }
}

#[tactic(auto, using(crate::proofs::Lengths::escaped_some))]
fn push_part(alloc: Global, text: &mut Text, part: &Part, call: &CallIn) -> Result<(), AllocError>
    ensures text { OnOk result (text.new ≡ text.old ++ part_text call.now part.now) }
    ensures memory { OnErr result (0 < length (part_text call.now part.now)) }
{
    match part {
        Part::Lit(t) => text.push(t),
        Part::Raw(source) => push_source(text, source, call),
        Part::Escaped(source) => text.push(&escape(alloc, source, call)?),
    }
}

fn escape(alloc: Global, source: &Source, call: &CallIn) -> Result<Text, AllocError>
    ensures text { IfOk result (λ t. t ≡ escaped_text (source_text call.now source.now)) }
    ensures memory { OnErr result (0 < length (source_text call.now source.now)) }
{
    let mut raw = Text::new(alloc);
    push_source(&mut raw, source, call)?;
    if raw.is_empty() {
        return Ok(raw);
    }
    Text::from_string(esc_html(alloc, raw.as_str())?)
}

fn push_source(text: &mut Text, source: &Source, call: &CallIn) -> Result<(), AllocError>
    ensures text { OnOk result (text.new ≡ text.old ++ source_text call.now source.now) }
    ensures memory { OnErr result (0 < length (source_text call.now source.now)) }
{
    match source {
        Source::Arg(n) => match call.args.as_slice().get(*n) {
            None => Ok(()),
            Some(t) => text.push(t),
        },
        Source::Att(key) => match call.atts.get(key) {
            None => Ok(()),
            Some(value) => text.push_str(value),
        },
        Source::Content => text.push(&call.content),
        Source::Tag => text.push(&call.tag),
        Source::Value => text.push(&call.value),
        Source::Last => text.push(&call.last),
    }
}
