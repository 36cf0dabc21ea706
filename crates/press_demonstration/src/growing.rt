//! The callback `grow`: its script, and its closure written out.

ghost use Rattle.std.specs.Prelude.{◌≡◌, ◌∷◌, ◌++◌, [], IfOk, OnOk, None, codes};
ghost use Rattle.press_text.specs.Names.{name_fault};
ghost use Rattle.press_callbacks.specs.Turns.{turn_of};
ghost use Rattle.press_demonstration.specs.Demonstration as spec;

use crate::names::{callback_named, the_title};
use crate::scripts::append;
use press_callbacks::{CallIn, Op, Script, Turn};
use press_text::{CallbackId, Items};
use std::alloc::{AllocError, Global};

/// The callback that grows the hook of titles while it runs.
pub fn grow() -> CallbackId
    ensures { result ≡ codes "grow" }
{
    callback_named("grow")
}

/// The script of `grow`.
pub fn grow_script(alloc: Global) -> Result<Script, AllocError>
    ensures { IfOk result (λ s. s ≡ spec.grow_script) }
{
    let mut ops = Vec::new(alloc);
    push_add(alloc, &mut ops, "add_d", 10)?;
    push_add(alloc, &mut ops, "add_e", 11)?;
    push_add(alloc, &mut ops, "add_f", 9)?;
    push_append(alloc, &mut ops, "a")?;
    Ok(Items::from_vec(ops))
}

// (One step at a time: a list of four made at once is too much for the prover.)
fn push_add(
    alloc: Global,
    ops: &mut Vec<Op>,
    callback: &str,
    priority: i64,
) -> Result<(), AllocError>
    requires { name_fault 32 callback.now ≡ None }
    ensures { OnOk result (ops.new.items ≡ ops.old.items
        ++ Op.AddHook spec.the_title callback.now priority 1 ∷ []) }
{
    ops.push(add_op(alloc, callback, priority)?)?;
    Ok(())
}

fn push_append(alloc: Global, ops: &mut Vec<Op>, text: &str) -> Result<(), AllocError>
    ensures { OnOk result (ops.new.items ≡ ops.old.items ++ spec.append text.now ∷ []) }
{
    ops.push(append(alloc, text)?)?;
    Ok(())
}

fn add_op(alloc: Global, callback: &str, priority: i64) -> Result<Op, AllocError>
    requires { name_fault 32 callback.now ≡ None }
    ensures { IfOk result (λ o. o ≡ Op.AddHook spec.the_title callback.now priority 1) }
{
    Ok(Op::AddHook {
        hook: the_title(alloc)?,
        callback: callback_named(callback),
        priority,
        accepted: 1,
    })
}

fn add_turn(alloc: Global, callback: &str, priority: i64) -> Result<Turn, AllocError>
    requires { name_fault 32 callback.now ≡ None }
    ensures { IfOk result (λ t. t ≡ Turn.AddHook spec.the_title callback.now priority 1) }
{
    Ok(Turn::AddHook {
        hook: the_title(alloc)?,
        callback: callback_named(callback),
        priority,
        accepted: 1,
    })
}

/// The turn that the closure of `grow` returns, written out.
pub fn grow_turn(alloc: Global, input: &CallIn) -> Result<Turn, AllocError>
    ensures { IfOk result (λ t. t ≡ turn_of spec.grow_script input.now) }
{
    if input.turn == 0 {
        return add_turn(alloc, "add_d", 10);
    }
    if input.turn == 1 {
        return add_turn(alloc, "add_e", 11);
    }
    if input.turn == 2 {
        return add_turn(alloc, "add_f", 9);
    }
    let mut text = input.value.copy(alloc)?;
    if input.turn == 3 {
        text.push_str("a")?;
        return Ok(Turn::Go(text));
    }
    Ok(Turn::Return(text))
}
