//! The texts of calls and turns.

ghost use Rattle.std.specs.Prelude.{◌≡◌, take, IfOk, OnOk};
ghost use Rattle.press_run.specs.Run.{first_text, next_args, or_one_empty, is_short};
ghost use Rattle.press_run.specs.Frames.{hook_answer};

use crate::out::MOST_BYTES;
use crate::step::Kind;
use press_text::{Text, Texts, copy_all};
use std::alloc::{AllocError, Global};

/// The first text, or the empty one.
pub fn first_text(alloc: Global, texts: &Texts) -> Result<Text, AllocError>
    ensures { IfOk result (λ t. t ≡ first_text texts.now) }
{
    match texts.as_slice().first() {
        None => Ok(Text::new(alloc)),
        Some(t) => t.copy(alloc),
    }
}

/// What a hook returns with these arguments: an action the empty text.
pub fn hook_answer(alloc: Global, kind: Kind, args: &Texts) -> Result<Text, AllocError>
    ensures { IfOk result (λ t. t ≡ hook_answer kind (first_text args.now)) }
{
    match kind {
        Kind::Action => Ok(Text::new(alloc)),
        Kind::Filter => first_text(alloc, args),
    }
}

/// The arguments of the next callback, after one has returned.
pub fn hand_on(kind: Kind, args: &mut Texts, answer: Text) -> Result<(), AllocError>
    ensures { OnOk result (args.new ≡ next_args kind answer args.old) }
{
    match kind {
        Kind::Action => Ok(()),
        Kind::Filter => args.set_first(answer),
    }
}

/// An action without arguments passes one empty text.
pub fn or_one_empty(alloc: Global, args: Texts) -> Texts
    ensures { result ≡ or_one_empty args }
{
    if args.as_slice().is_empty() {
        Texts::one(alloc, Text::new(alloc))
    } else {
        args
    }
}

/// As many arguments as a callback accepts.
pub fn accepted_args(alloc: Global, texts: &Texts, accepted: u32) -> Result<Texts, AllocError>
    ensures { IfOk result (λ ts. ts ≡ take accepted texts.now) }
{
    let all = texts.as_slice();
    if (accepted as usize) < all.len() {
        Texts::from_vec(copy_all(alloc, &all[..accepted as usize])?)
    } else {
        texts.copy()
    }
}

pub fn is_short(text: &Text) -> bool
    ensures { result ≡ is_short text.now }
{
    text.len() <= MOST_BYTES
}
