//! Why callbacks and plugins make no kit: whether every callback that a script or a load names is
//! there.

ghost use Rattle.std.specs.Prelude.{◌≡◌, ◌≢◌, ◌+◌, List, IfSome, true, nat_lt, count_by};
ghost use Rattle.std.specs.List.{list_all, list_any};
ghost use Rattle.press_callbacks.specs.declared.script.Op.{Op};
ghost use Rattle.press_callbacks.specs.declared.plugin.Plugin.{Plugin as OnePlugin};
ghost use Rattle.press_callbacks.specs.Order.{in_order};
ghost use Rattle.press_callbacks.specs.Kits.{kit_fault_by, knows_all, knows_script, knows_plugin, is_known_where, is_known, callback_named, callback_loaded, is_of_kind, loads_of_kind, has_many_loads, has_two_names};
ghost use Rattle.press_callbacks.specs.declared.kit_fault.KitFault.TheVariants.{NoMemory};
ghost use Rattle.press_callbacks.specs.BuiltIns.{is_built_in as built_in};

use crate::built_in::is_built_in;
use crate::kit_fault::KitFault;
use crate::named::Named;
use crate::plugin::{Load, LoadKind, Plugin};
use crate::script::{Ask, Op};
use crate::sorted::Sorted;
use crate::stored::Stored;
use press_text::CallbackId;

const MOST_HOOK_LOADS: usize = 1000;

const MOST_TAG_LOADS: usize = 128;

/// A thing with a name and a script.
pub trait Scripted: Named {
    ghost script: { Self → List Op };

    fn ops(&self) -> &[Op]
        ensures { result.now ≡ script self.now };
}

impl Scripted for Stored {
    ghost script = { λ c. c.script };

    fn ops(&self) -> &[Op] {
        self.script_ops()
    }
}

/// The first reason why these, in the order of their names, make no kit.
pub fn fault_of<T: Scripted>(callbacks: &[T], plugins: &[Plugin]) -> Option<KitFault>
    requires callbacks { in_order T.name callbacks.now ≡ true }
    requires plugins { in_order (λ (p : OnePlugin). p.name) plugins.now ≡ true }
    ensures fault { result ≡ kit_fault_by T.name T.script callbacks.now plugins.now }
    ensures own { IfSome result (λ f. f ≢ NoMemory) }
{
    let callbacks = Sorted::new(callbacks);
    if has_two_names(&callbacks, &Sorted::new(plugins)) {
        return Some(KitFault::TwoNames);
    }
    if !knows_all(&callbacks, plugins) {
        return Some(KitFault::UnknownCallback);
    }
    if has_many_loads(plugins) {
        return Some(KitFault::BadLoad);
    }
    None
}

fn has_two_names<T: Named>(callbacks: &Sorted<'_, T>, plugins: &Sorted<'_, Plugin>) -> bool
    ensures { result ≡ has_two_names T.name callbacks.now.items.now plugins.now.items.now }
{
    callbacks.has_two() || has_built_in(callbacks.as_slice()) || plugins.has_two()
}

fn has_built_in<T: Named>(callbacks: &[T]) -> bool
    ensures { result ≡ list_any (λ c. built_in (T.name c)) callbacks.now }
{
    callbacks.iter().any(|c| is_built_in(c.name_bytes()))
}

// Whether a callback is built in or one of these.
fn is_known<T: Named>(callbacks: &Sorted<'_, T>, callback: CallbackId) -> bool
    ensures { result ≡ is_known T.name callbacks.now.items.now callback }
{
    is_built_in(callback.as_bytes()) || callbacks.has_name(callback.as_bytes())
}

fn knows_all<T: Scripted>(callbacks: &Sorted<'_, T>, plugins: &[Plugin]) -> bool
    ensures { result ≡ knows_all T.name T.script callbacks.now.items.now plugins.now }
{
    knows_scripts(callbacks, callbacks.as_slice()) && knows_plugins(callbacks, plugins)
}

fn knows_scripts<T: Scripted>(all: &Sorted<'_, T>, callbacks: &[T]) -> bool
    ensures { result ≡ list_all (λ c. knows_script T.name all.now.items.now (T.script c))
        callbacks.now }
{
    callbacks.iter().all(|c| knows_script(all, c.ops()))
}

fn knows_plugins<T: Named>(callbacks: &Sorted<'_, T>, plugins: &[Plugin]) -> bool
    ensures { result ≡ list_all (knows_plugin T.name callbacks.now.items.now) plugins.now }
{
    plugins.iter().all(|p| knows_plugin(callbacks, p))
}

fn knows_script<T: Named>(callbacks: &Sorted<'_, T>, script: &[Op]) -> bool
    ensures { result ≡ knows_script T.name callbacks.now.items.now script.now }
{
    script.iter().all(|o| knows_op(callbacks, o))
}

fn knows_op<T: Named>(callbacks: &Sorted<'_, T>, op: &Op) -> bool
    ensures { result ≡ is_known_where T.name callbacks.now.items.now (callback_named op.now) }
{
    match op {
        Op::AddHook { callback, .. } => is_known(callbacks, *callback),
        Op::RemoveHook { callback, .. } => is_known(callbacks, *callback),
        Op::AddTag { callback, .. } => is_known(callbacks, *callback),
        Op::Ask(Ask::Has(_, callback)) => is_known(callbacks, *callback),
        Op::Ask(Ask::Did(_)) | Op::Ask(Ask::Doing(_)) => true,
        Op::Ask(Ask::Option(_)) | Op::Ask(Ask::Tag(_)) => true,
        Op::Set(_) | Op::RemoveAll { .. } | Op::SkipIf { .. } | Op::Apply { .. } => true,
        Op::RemoveTag { .. } | Op::Do { .. } | Op::Shortcodes(_) => true,
        Op::SetOption { .. } | Op::Schedule { .. } | Op::Publish(_) => true,
        Op::Echo(_) | Op::Return(_) => true,
    }
}

fn knows_plugin<T: Named>(callbacks: &Sorted<'_, T>, plugin: &Plugin) -> bool
    ensures { result ≡ knows_plugin T.name callbacks.now.items.now plugin.now }
{
    knows_loads(callbacks, plugin.load.as_slice())
}

fn knows_loads<T: Named>(callbacks: &Sorted<'_, T>, loads: &[Load]) -> bool
    ensures { result ≡ list_all (λ l. is_known T.name callbacks.now.items.now (callback_loaded l))
        loads.now }
{
    loads.iter().all(|l| knows_load(callbacks, l))
}

fn knows_load<T: Named>(callbacks: &Sorted<'_, T>, load: &Load) -> bool
    ensures { result ≡ is_known T.name callbacks.now.items.now (callback_loaded load.now) }
{
    match load {
        Load::Hook { callback, .. } => is_known(callbacks, *callback),
        Load::Tag { callback, .. } => is_known(callbacks, *callback),
    }
}

fn has_many_loads(plugins: &[Plugin]) -> bool
    ensures { result ≡ has_many_loads plugins.now }
{
    has_more_loads(plugins, LoadKind::Hooks, MOST_HOOK_LOADS)
        || has_more_loads(plugins, LoadKind::Tags, MOST_TAG_LOADS)
}

// Whether the plugins have more loads of a kind together than this.
fn has_more_loads(plugins: &[Plugin], kind: LoadKind, most: usize) -> bool
    ensures { result ≡ nat_lt most (loads_of_kind kind plugins.now) }
{
    let mut left = most;
    for p in plugins {
        let loads = count_of_kind(p.load.as_slice(), kind);
        if loads > left {
            return true;
        }
        left -= loads;
    }
    false
}

fn count_of_kind(loads: &[Load], kind: LoadKind) -> usize
    ensures { result ≡ count_by (is_of_kind kind) loads.now }
{
    loads.iter().filter(|l| l.is_of(kind)).count()
}

impl Load {
    fn is_of(&self, kind: LoadKind) -> bool
        ensures { result ≡ is_of_kind kind self.now }
    {
        match self {
            Load::Hook { .. } => kind == LoadKind::Hooks,
            Load::Tag { .. } => kind == LoadKind::Tags,
        }
    }
}
