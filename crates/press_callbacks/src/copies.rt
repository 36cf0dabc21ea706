//! Copies of scripts: one for the kit, one for the closure that plays it.

ghost use Rattle.std.specs.Prelude.{◌≡◌, IfOk};
ghost use Rattle.press_callbacks.specs.declared.script.Op.{Op};

use crate::script::{Ask, Op, Part, Parts, Source};
use press_text::{Copied, Every, HookName, Items, OptName};
use std::alloc::{AllocError, Global};

impl Copied for Source {
    fn copy_in(&self, alloc: Global) -> Result<Source, AllocError> {
        match self {
            Source::Arg(n) => Ok(Source::Arg(*n)),
            Source::Att(key) => Ok(Source::Att(key.copy_in(alloc)?)),
            Source::Content => Ok(Source::Content),
            Source::Tag => Ok(Source::Tag),
            Source::Value => Ok(Source::Value),
            Source::Last => Ok(Source::Last),
        }
    }
}

impl Copied for Part {
    fn copy_in(&self, alloc: Global) -> Result<Part, AllocError> {
        match self {
            Part::Lit(text) => Ok(Part::Lit(text.copy(alloc)?)),
            Part::Raw(source) => Ok(Part::Raw(source.copy_in(alloc)?)),
            Part::Escaped(source) => Ok(Part::Escaped(source.copy_in(alloc)?)),
        }
    }
}

impl Copied for Ask {
    fn copy_in(&self, alloc: Global) -> Result<Ask, AllocError> {
        match self {
            Ask::Did(hook) => Ok(Ask::Did(hook.copy(alloc)?)),
            Ask::Doing(hook) => Ok(Ask::Doing(hook.copy(alloc)?)),
            Ask::Has(hook, callback) => Ok(Ask::Has(hook.copy(alloc)?, *callback)),
            Ask::Option(name) => Ok(Ask::Option(name.copy(alloc)?)),
            Ask::Tag(tag) => Ok(Ask::Tag(tag.copy(alloc)?)),
        }
    }
}

impl Copied for Op {
    fn copy_in(&self, alloc: Global) -> Result<Op, AllocError> {
        match self {
            Op::Set(parts) => Ok(Op::Set(parts.copy_in(alloc)?)),
            Op::AddHook {
                hook,
                callback,
                priority,
                accepted,
            } => Ok(Op::AddHook {
                hook: hook.copy(alloc)?,
                callback: *callback,
                priority: *priority,
                accepted: *accepted,
            }),
            Op::RemoveHook {
                hook,
                callback,
                priority,
            } => Ok(Op::RemoveHook {
                hook: hook.copy(alloc)?,
                callback: *callback,
                priority: *priority,
            }),
            Op::RemoveAll { hook, priority } => Ok(Op::RemoveAll {
                hook: hook.copy(alloc)?,
                priority: *priority,
            }),
            Op::AddTag { tag, callback } => Ok(Op::AddTag {
                tag: tag.copy(alloc)?,
                callback: *callback,
            }),
            Op::RemoveTag { tag } => Ok(Op::RemoveTag {
                tag: tag.copy(alloc)?,
            }),
            Op::SkipIf { left, right, n } => skip_if(alloc, left, right, *n),
            Op::Apply { hook, value, more } => apply(alloc, hook, value, more),
            Op::Do { hook, args } => start(alloc, hook, args),
            Op::Shortcodes(parts) => Ok(Op::Shortcodes(parts.copy_in(alloc)?)),
            Op::Ask(ask) => Ok(Op::Ask(ask.copy_in(alloc)?)),
            Op::SetOption { name, value } => set_option(alloc, name, value),
            Op::Schedule {
                after,
                every,
                hook,
                arg,
            } => {
                let times = Times {
                    after: *after,
                    every: *every,
                };
                schedule(alloc, times, hook, arg)
            }
            Op::Publish(parts) => Ok(Op::Publish(parts.copy_in(alloc)?)),
            Op::Echo(parts) => Ok(Op::Echo(parts.copy_in(alloc)?)),
            Op::Return(parts) => Ok(Op::Return(parts.copy_in(alloc)?)),
        }
    }
}

fn skip_if(alloc: Global, left: &Parts, right: &Parts, n: u16) -> Result<Op, AllocError>
    ensures { IfOk result (λ op. op ≡ Op.SkipIf left.now right.now n) }
{
    let left = left.copy_in(alloc)?;
    let right = right.copy_in(alloc)?;
    Ok(Op::SkipIf { left, right, n })
}

fn apply(
    alloc: Global,
    hook: &HookName,
    value: &Parts,
    more: &Items<Parts>,
) -> Result<Op, AllocError>
    ensures { IfOk result (λ op. op ≡ Op.Apply hook.now value.now more.now) }
{
    let hook = hook.copy(alloc)?;
    let value = value.copy_in(alloc)?;
    let more = more.copy_in(alloc)?;
    Ok(Op::Apply { hook, value, more })
}

fn start(alloc: Global, hook: &HookName, args: &Items<Parts>) -> Result<Op, AllocError>
    ensures { IfOk result (λ op. op ≡ Op.Do hook.now args.now) }
{
    let hook = hook.copy(alloc)?;
    let args = args.copy_in(alloc)?;
    Ok(Op::Do { hook, args })
}

fn set_option(alloc: Global, name: &OptName, value: &Parts) -> Result<Op, AllocError>
    ensures { IfOk result (λ op. op ≡ Op.SetOption name.now value.now) }
{
    let name = name.copy(alloc)?;
    let value = value.copy_in(alloc)?;
    Ok(Op::SetOption { name, value })
}

// When an event is asked for: so many seconds from now, and how often from then on.
#[derive(Clone, Copy)]
struct Times {
    after: u64,
    every: Every,
}

fn schedule(alloc: Global, times: Times, hook: &HookName, arg: &Parts) -> Result<Op, AllocError>
    ensures { IfOk result (λ op. op ≡ Op.Schedule times.after times.every hook.now arg.now) }
{
    let hook = hook.copy(alloc)?;
    let arg = arg.copy_in(alloc)?;
    Ok(Op::Schedule {
        after: times.after,
        every: times.every,
        hook,
        arg,
    })
}
