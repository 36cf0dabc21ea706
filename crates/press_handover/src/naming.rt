//! Whether a command named a plugin before the kit had it.

ghost use Rattle.std.specs.Prelude.{◌≡◌, IfOk, MatchOption, bytes_eq, false, is_some, option_map};
ghost use Rattle.std.specs.List.{list_any};
ghost use Rattle.press_acceptor.specs.Seen.{Looks};
ghost use Rattle.press_callbacks.specs.Kits.{plugin_of};
ghost use Rattle.press_upgrade.specs.Differences.{kit_given};
ghost use Rattle.press_upgrade.specs.Extends.{ask_new, is_new};
ghost use Rattle.press_handover.specs.Handovers as spec;
ghost use Rattle.press_handover.specs.Naming.{FindsName};
ghost use Rattle.press_handover.specs.Voted.{voted_values};

use crate::obstacle::short;
use crate::visiting::{Visitor, visit_all};
use press_acceptor::{PromiseStore, StoreFault};
use press_apply::{Command, Value};
use press_callbacks::Plugin;
use press_kit::KitParts;
use press_text::{CallbackId, Name};
use std::alloc::{AllocError, Global};

fn is_among(plugins: &[Plugin], name: &Name) -> bool
    ensures { result ≡ list_any (λ p. bytes_eq p.name name.now) plugins.now }
{
    plugins.iter().any(|plugin| plugin.name.is(name))
}

fn has_plugin(kit: &KitParts, name: &Name) -> bool
    ensures { result ≡ is_some (plugin_of name.now kit.now.plugins) }
{
    is_among(kit.plugins.as_slice(), name)
}

// The plugin that a command activates or deactivates.
fn plugin_named(command: &Command) -> Option<&Name>
    ensures { option_map (λ name. name.now) result ≡ spec.plugin_of_command command.now }
{
    match command {
        Command::Activate { plugin } | Command::Deactivate { plugin } => Some(plugin),
        Command::Insert(_)
        | Command::Update { .. }
        | Command::Trash { .. }
        | Command::Untrash { .. }
        | Command::Delete { .. }
        | Command::SetOption { .. }
        | Command::Tick
        | Command::Profile(_) => None,
    }
}

fn plugin_in(value: &Value) -> Option<&Name>
    ensures { option_map (λ name. name.now) result ≡ spec.plugin_in value.now }
{
    match value {
        Value::Noop { .. } => None,
        Value::Cmd(stamped) => plugin_named(&stamped.command),
    }
}

// Two kits, and the first plugin of the new one alone that was named so far.
struct Naming<'k> {
    old: &'k KitParts,
    new: &'k KitParts,
    found: Option<CallbackId>,
}

impl Drop for Naming<'_> {
    fn drop(self) {
        let Naming {
            old: _,
            new: _,
            found: _,
        } = self;
    }
}

impl Naming<'_> {
    fn is_new(&self, name: &Name) -> bool
        ensures { result ≡ is_new (kit_given self.now.old.now) (kit_given self.now.new.now)
            name.now }
    {
        has_plugin(self.new, name) && !has_plugin(self.old, name)
    }

    fn note(&mut self, name: &Name)
        ensures same_old { self.exit.now.old ≡ self.entry.now.old }
        ensures same_new { self.exit.now.new ≡ self.entry.now.new }
        ensures found { FindsName self.entry.now name.now self.entry.now.found
            self.exit.now.found }
    {
        if self.found.is_some() {
            return;
        }
        if self.is_new(name) {
            self.found = Some(short(name.as_str()));
        }
    }
}

impl Visitor for Naming<'_> {
    ghost use Rattle.press_handover.specs.Naming.{Notes};

    ghost visits = { λ old value new. Notes old value new };

    fn visit(&mut self, value: &Value) -> Result<(), AllocError> {
        let Some(name) = plugin_in(value) else {
            return Ok(());
        };
        self.note(name);
        Ok(())
    }
}

/// The first plugin of the new kit alone that a command in the store names.
pub fn named_plugin<S: PromiseStore>(
    alloc: Global,
    store: &mut S,
    old: &KitParts,
    new: &KitParts,
) -> Result<Option<CallbackId>, StoreFault>
    ensures named { (S.seen store.new).is_honest → IfOk result (λ found. MatchOption found
        (ask_new (kit_given old.now) (kit_given new.now)
        (voted_values (S.seen store.old).kept) ≡ false)
        (λ name. spec.NamesFirst (kit_given old.now) (kit_given new.now)
        (voted_values (S.seen store.old).kept) name)) }
    ensures looks { (S.seen store.new).is_honest → Looks (S.seen store.old) (S.seen store.new) }
{
    let mut naming = Naming {
        old,
        new,
        found: None,
    };
    visit_all(alloc, store, &mut naming)?;
    Ok(naming.found)
}
