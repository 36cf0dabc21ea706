//! What a text asks of a site.

ghost use Rattle.std.specs.Prelude.{◌≡◌, ◌<◌, None, Ok, IfOk, OnErr, IsSome, option_map};
ghost use Rattle.press_page.specs.Targets as spec;

use crate::reply::Target;
use press_site::Token;
use press_text::{Name, NameFault, dec_u64};
use std::alloc::{AllocError, Global};

// The texts before and after the first such byte.
fn split_at(text: &str, at: char) -> Option<(&str, &str)>
    requires { at < 128 }
    ensures { option_map (λ p. (p.0.now, p.1.now)) result ≡ spec.split_at at text.now }
{
    text.split_once(at)
}

fn token_by(alloc: Global, editor: &str, seq: u64) -> Result<Option<Token>, AllocError>
    ensures gives { IfOk result (λ t. t ≡ spec.token_by editor.now seq) }
    ensures none { spec.token_by editor.now seq ≡ None → result ≡ Ok None }
    ensures memory { OnErr result (IsSome (spec.token_by editor.now seq)) }
{
    match Name::new(alloc, editor) {
        Ok(editor) => Ok(Some(Token { editor, seq })),
        Err(NameFault::NoMemory) => Err(AllocError),
        Err(NameFault::BadName | NameFault::TooLong) => Ok(None),
    }
}

fn token(alloc: Global, text: &str) -> Result<Option<Token>, AllocError>
    ensures gives { IfOk result (λ t. t ≡ spec.token_in text.now) }
    ensures none { spec.token_in text.now ≡ None → result ≡ Ok None }
    ensures memory { OnErr result (IsSome (spec.token_in text.now)) }
{
    let Some((editor, seq)) = split_at(text, '/') else {
        return Ok(None);
    };
    match dec_u64(seq) {
        Some(seq) => token_by(alloc, editor, seq),
        None => Ok(None),
    }
}

fn result(alloc: Global, text: &str) -> Result<Option<Target>, AllocError>
    ensures gives { IfOk result (λ t. t ≡ option_map Target.Result (spec.token_in text.now)) }
    ensures none { spec.token_in text.now ≡ None → result ≡ Ok None }
    ensures memory { OnErr result (IsSome (spec.token_in text.now)) }
{
    Ok(token(alloc, text)?.map(Target::Result))
}

fn target_by(alloc: Global, kind: &str, rest: &str) -> Result<Option<Target>, AllocError>
    ensures gives { IfOk result (λ t. t ≡ spec.target_by kind.now rest.now) }
    ensures none { spec.target_by kind.now rest.now ≡ None → result ≡ Ok None }
    ensures memory { OnErr result (spec.HasEditor (spec.target_by kind.now rest.now)) }
{
    if kind == "post" {
        Ok(dec_u64(rest).map(Target::Post))
    } else if kind == "json" {
        Ok(dec_u64(rest).map(Target::Json))
    } else if kind == "result" {
        result(alloc, rest)
    } else {
        Ok(None)
    }
}

impl Target {
    /// What a text asks: `front`, `post:ID`, `json:ID` or `result:EDITOR/SEQ`, with 1 to 20 decimal
    /// digits for a number. None for any other text, and then without memory.
    pub fn from_text(alloc: Global, text: &str) -> Result<Option<Target>, AllocError>
        ensures gives { IfOk result (λ t. t ≡ spec.target_in text.now) }
        ensures none { spec.target_in text.now ≡ None → result ≡ Ok None }
        // Out of memory comes only where an outcome is asked for.
        ensures memory { OnErr result (spec.HasEditor (spec.target_in text.now)) }
    {
        if text == "front" {
            return Ok(Some(Target::Front));
        }
        match split_at(text, ':') {
            Some((kind, rest)) => target_by(alloc, kind, rest),
            None => Ok(None),
        }
    }
}
