//! Scripts of tests, calls, and their results.

ghost use Rattle.std.specs.Prelude.{◌≡◌, ◌∷◌, [], IfOk};
ghost use Rattle.press_callbacks.specs.Turns.{turn_of};
ghost use Rattle.press_callbacks.specs.declared.script.Op.TheVariants as op;
ghost use Rattle.press_callbacks.specs.declared.script.Part.TheVariants as part;
ghost use Rattle.press_callbacks.specs.declared.script.Source.TheVariants as source;

use press_callbacks::{CallIn, Load, Op, Part, Plugin, Script, Source, Stored, Turn, script_turn};
use press_scan::attributes;
use press_text::{CallbackId, HookName, Items, Name, Text, Texts};
use std::alloc::{AllocError, Global};
use std::cell::Cell;
use std::test::Fail;

/// The script that appends a text to its value.
pub fn appending(alloc: Global, text: &str) -> Result<Script, AllocError>
    ensures { IfOk result (λ s. s ≡ op.Set (part.Raw source.Value ∷ (part.Lit text.now ∷ []))
        ∷ []) }
{
    let lit = Text::from_str(alloc, text)?;
    let parts = vec![in alloc; Part::Raw(Source::Value), Part::Lit(lit)]?;
    let set = Op::Set(Items::from_vec(parts));
    Ok(Items::from_vec(vec![in alloc; set]?))
}

/// The script's turn, except that the second call runs out of memory.
pub fn fails_once(
    alloc: Global,
    calls: &Cell<u32>,
    script: &Script,
    input: &CallIn,
) -> Result<Turn, AllocError>
    ensures { IfOk result (λ t. t ≡ turn_of script.now input.now) }
{
    calls.set(calls.get().wrapping_add(1));
    if calls.get() == 2 {
        return Err(AllocError);
    }
    script_turn(alloc, script, input)
}

/// A call at a turn, with the value `v`.
pub fn call_in(alloc: Global, turn: usize) -> Result<CallIn, AllocError> {
    Ok(CallIn {
        args: Texts::new(alloc),
        atts: attributes(alloc, "")?,
        content: Text::new(alloc),
        tag: Text::new(alloc),
        value: Text::from_str(alloc, "v")?,
        last: Text::new(alloc),
        turn,
    })
}

/// What a callback gives on that call.
pub fn answer_of_turn(alloc: Global, stored: &Stored, turn: usize) -> Result<Turn, AllocError> {
    stored.turn(&call_in(alloc, turn)?)
}

/// Whether a turn goes on with this value.
pub fn goes_on(turn: Result<Turn, AllocError>, want: &str) -> bool {
    match turn {
        Ok(Turn::Go(text)) => text.as_str() == want,
        _ => false,
    }
}

/// The plugin `one`, which puts a callback on the hook `h`.
pub fn plugin(alloc: Global, callback: &str) -> Result<Plugin, Fail> {
    let load = Load::Hook {
        hook: HookName::new(alloc, "h")?,
        priority: 10,
        callback: CallbackId::new(callback)?,
        accepted: 1,
    };
    Ok(Plugin {
        name: Name::new(alloc, "one")?,
        load: Items::from_vec(vec![in alloc; load]?),
    })
}
