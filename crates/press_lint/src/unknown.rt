//! Callbacks that a step or a load names, and that the kit lacks.

ghost use Rattle.std.specs.Prelude.{◌≡◌};
ghost use Rattle.press_callbacks.specs.Kits.{callback_loaded, callback_named, is_known};
ghost use Rattle.press_kit.specs.declared.kit_parts.Scripted.{Scripted as Told};
ghost use Rattle.press_lint.specs.Mistakes as spec;

use crate::known::Known;
use crate::mistake::{Mistake, Why};
use press_callbacks::{Ask, Load, Op, Plugin, is_built_in};
use press_kit::{Place, Scripted};
use press_text::CallbackId;

fn is_known(known: &Known<'_>, id: CallbackId) -> bool
    ensures { result ≡ is_known (λ (c : Told). c.id) known.now.callbacks.now id }
{
    is_built_in(id.as_bytes()) || known.has(id.as_bytes())
}

// The callback that a step names.
fn named_by(op: &Op) -> Option<CallbackId>
    ensures { result ≡ callback_named op.now }
{
    match op {
        Op::AddHook { callback, .. } => Some(*callback),
        Op::RemoveHook { callback, .. } => Some(*callback),
        Op::AddTag { callback, .. } => Some(*callback),
        Op::Ask(Ask::Has(_, callback)) => Some(*callback),
        Op::Ask(Ask::Did(_)) | Op::Ask(Ask::Doing(_)) => None,
        Op::Ask(Ask::Option(_)) | Op::Ask(Ask::Tag(_)) => None,
        Op::Set(_) | Op::RemoveAll { .. } | Op::SkipIf { .. } | Op::Apply { .. } => None,
        Op::RemoveTag { .. } | Op::Do { .. } | Op::Shortcodes(_) => None,
        Op::SetOption { .. } | Op::Schedule { .. } | Op::Publish(_) => None,
        Op::Echo(_) | Op::Return(_) => None,
    }
}

fn loaded_by(load: &Load) -> CallbackId
    ensures { result ≡ callback_loaded load.now }
{
    match load {
        Load::Hook { callback, .. } => *callback,
        Load::Tag { callback, .. } => *callback,
    }
}

fn unknown_at(known: &Known<'_>, at: Place, named: Option<CallbackId>) -> Option<Mistake>
    ensures { result ≡ spec.unknown_at known.now.callbacks.now at named }
{
    match named {
        Some(id) if !is_known(known, id) => Some(Mistake {
            at,
            why: Why::Unknown(id),
        }),
        _ => None,
    }
}

fn unknown_in_script(known: &Known<'_>, callback: usize, script: &[Op]) -> Option<Mistake>
    ensures { result ≡ spec.first (spec.unknown_op known.now.callbacks.now callback) 0 script.now }
{
    for op in 0..script.len() {
        let at = Place::Op { callback, op };
        let found = unknown_at(known, at, named_by(&script[op]));
        if found.is_some() {
            return found;
        }
    }
    None
}

fn unknown_in_scripts(known: &Known<'_>, callbacks: &[Scripted]) -> Option<Mistake>
    ensures { result ≡ spec.first (spec.unknown_in_script known.now.callbacks.now) 0 callbacks.now }
{
    for n in 0..callbacks.len() {
        let found = unknown_in_script(known, n, callbacks[n].script.as_slice());
        if found.is_some() {
            return found;
        }
    }
    None
}

fn unknown_in_loads(known: &Known<'_>, plugin: usize, loads: &[Load]) -> Option<Mistake>
    ensures { result ≡ spec.first (spec.unknown_load known.now.callbacks.now plugin) 0 loads.now }
{
    for load in 0..loads.len() {
        let at = Place::Load { plugin, load };
        let found = unknown_at(known, at, Some(loaded_by(&loads[load])));
        if found.is_some() {
            return found;
        }
    }
    None
}

fn unknown_in_plugins(known: &Known<'_>, plugins: &[Plugin]) -> Option<Mistake>
    ensures { result ≡ spec.first (spec.unknown_in_plugin known.now.callbacks.now) 0 plugins.now }
{
    for n in 0..plugins.len() {
        let found = unknown_in_loads(known, n, plugins[n].load.as_slice());
        if found.is_some() {
            return found;
        }
    }
    None
}

/// The first step or load that names a callback which the kit lacks.
pub fn unknown_in(known: &Known<'_>, plugins: &[Plugin]) -> Option<Mistake>
    ensures { result ≡ spec.unknown_in known.now.callbacks.now plugins.now }
{
    match unknown_in_scripts(known, known.callbacks()) {
        Some(mistake) => Some(mistake),
        None => unknown_in_plugins(known, plugins),
    }
}
