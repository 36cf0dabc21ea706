//! What the machine answers to a question.

ghost use Rattle.std.specs.Prelude.{◌≡◌, IfOk, IsOk, decimal, count_by, bytes_eq, option_map, string_bytes};
ghost use Rattle.std.specs.Fmt.{signed_decimal};
ghost use Rattle.std.specs.List.{list_any};
ghost use Rattle.press_run.specs.Run.{one_if, decimal_or_empty, or_no_text};

use press_text::{HookName, Text};
use std::alloc::{AllocError, Global};

pub fn one_if(alloc: Global, is: bool) -> Result<Text, AllocError>
    ensures text { IfOk result (λ t. t ≡ one_if is) }
    ensures memory { IsOk result }
{
    if is {
        Text::from_str(alloc, "1")
    } else {
        Ok(Text::new(alloc))
    }
}

pub fn or_no_text(alloc: Global, text: Option<&str>) -> Result<Text, AllocError>
    ensures { IfOk result (λ t. t ≡ or_no_text (option_map (λ x. x.now) text.entry)) }
{
    match text {
        None => Ok(Text::new(alloc)),
        Some(text) => Text::from_str(alloc, text),
    }
}

pub fn count_of(hooks: &[HookName], hook: &HookName) -> usize
    ensures { result ≡ count_by (bytes_eq hook.now) hooks.now }
{
    hooks.iter().filter(|h| hook.is(h)).count()
}

pub fn has_hook(hooks: &[HookName], hook: &HookName) -> bool
    ensures { result ≡ list_any (bytes_eq hook.now) hooks.now }
{
    hooks.iter().any(|h| hook.is(h))
}

pub fn decimal(alloc: Global, n: usize) -> Result<Text, AllocError>
    ensures { IfOk result (λ t. t ≡ decimal n) }
{
    let text = format!(in alloc; "{n}")?;
    Text::from_string(text)
}

pub fn decimal_or_empty(alloc: Global, priority: Option<i64>) -> Result<Text, AllocError>
    ensures { IfOk result (λ t. t ≡ decimal_or_empty priority) }
{
    match priority {
        None => Ok(Text::new(alloc)),
        Some(p) => priority_text(alloc, p),
    }
}

fn priority_text(alloc: Global, p: i64) -> Result<Text, AllocError>
    ensures { IfOk result (λ t. t ≡ signed_decimal p) }
{
    let text = format!(in alloc; "{p}")?;
    Text::from_string(text)
}
