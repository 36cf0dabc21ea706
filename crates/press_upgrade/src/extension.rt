//! Whether a kit extends another.

ghost use Rattle.std.specs.Prelude.{◌≡◌, ◌↔◌, IfErr, IsOk};
ghost use Rattle.press_text.specs.Names.{IsName};
ghost use Rattle.press_upgrade.specs.Differences.{LosesCallback, LosesPlugin, Tells, kit_given, name_in};
ghost use Rattle.press_upgrade.specs.Extends.{Extends};

use crate::difference::Difference;
use crate::part::{Loss, first_loss};
use press_kit::KitParts;
use press_text::CallbackId;
use std::str::from_utf8;

/// Whether each callback and each plugin of the old kit is there in the new one, and the same; else
/// the first difference, callbacks first.
pub fn extends<'k>(old: &'k KitParts, new: &KitParts) -> Result<(), Difference<'k>>
    ensures ok { IsOk result ↔ Extends (kit_given old.now) (kit_given new.now) }
    ensures first { IfErr result (λ d. Tells d old.now new.now) }
    ensures named { IfErr result (λ d. IsName 32 (name_in d)) }
{
    if let Some((callback, loss)) = first_loss(old.callbacks.as_slice(), new.callbacks.as_slice()) {
        return Err(callback_difference(text_of(&callback.id), loss));
    }
    if let Some((plugin, loss)) = first_loss(old.plugins.as_slice(), new.plugins.as_slice()) {
        return Err(plugin_difference(plugin.name.as_str(), loss));
    }
    Ok(())
}

// The name as a text: its bytes are ASCII.
fn text_of(id: &CallbackId) -> &str
    ensures value { result.now ≡ id.now }
    ensures class { IsName 32 result.now }
{
    match from_utf8(id.as_bytes()) {
        Ok(text) => text,
        Err(_) => unreachable!(),
    }
}

fn callback_difference<'k>(name: &'k str, loss: Loss) -> Difference<'k>
    requires { IsName 32 name.now }
    ensures named { IsName 32 (name_in result) }
    ensures tells { (old new : _) → LosesCallback old new name.now loss → Tells result old new }
{
    match loss {
        Loss::Other => Difference::CallbackIsOther(name),
        Loss::Gone => Difference::CallbackIsGone(name),
    }
}

fn plugin_difference<'k>(name: &'k str, loss: Loss) -> Difference<'k>
    requires { IsName 32 name.now }
    ensures named { IsName 32 (name_in result) }
    ensures tells { (old new : _) → LosesPlugin old new name.now loss → Tells result old new }
{
    match loss {
        Loss::Other => Difference::PluginIsOther(name),
        Loss::Gone => Difference::PluginIsGone(name),
    }
}
