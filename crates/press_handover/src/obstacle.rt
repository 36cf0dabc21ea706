//! What stands against another kit for a site.

ghost use Rattle.std.specs.Prelude.{◌≡◌, ◌↔◌, IfOk, IfSome, None, string_bytes};
ghost use Rattle.press_text.specs.Names.{IsName};
ghost use Rattle.press_upgrade.specs.Differences.{kit_given, name_in};
ghost use Rattle.press_upgrade.specs.Extends.{Extends};
ghost use Rattle.press_handover.specs.Handovers as spec;

use press_kit::KitParts;
use press_text::CallbackId;
use press_upgrade::{Difference, extends};
use std::alloc::{AllocError, Global};

/// The first thing, by its name, that stands against another kit. The name of a plugin is of the
/// same letters as that of a callback.
#[derive(Clone, Copy, Debug)]
pub enum Obstacle {
    CallbackIsGone(CallbackId),
    CallbackIsOther(CallbackId),
    PluginIsGone(CallbackId),
    PluginIsOther(CallbackId),
    /// A command named the plugin, which the new kit alone has.
    PluginWasNamed(CallbackId),
}

fn words(obstacle: &Obstacle) -> (&'static str, &'static str)
    ensures { (result.0.now, result.1.now) ≡ spec.words_of obstacle.now }
{
    match obstacle {
        Obstacle::CallbackIsGone(_) => ("callback", "is gone"),
        Obstacle::CallbackIsOther(_) => ("callback", "has another script"),
        Obstacle::PluginIsGone(_) => ("plugin", "is gone"),
        Obstacle::PluginIsOther(_) => ("plugin", "has another load"),
        Obstacle::PluginWasNamed(_) => ("plugin", "is new, and a command named it before"),
    }
}

impl Obstacle {
    /// Its name.
    pub fn name(self) -> CallbackId
        ensures { result ≡ spec.name_of self }
    {
        match self {
            Obstacle::CallbackIsGone(name)
            | Obstacle::CallbackIsOther(name)
            | Obstacle::PluginIsGone(name)
            | Obstacle::PluginIsOther(name)
            | Obstacle::PluginWasNamed(name) => name,
        }
    }

    /// What it is, in words.
    #[tactic(auto, unfolding(crate::specs::Handovers::obstacle_text))]
    pub fn text(self, alloc: Global) -> Result<String, AllocError>
        ensures { IfOk result (λ t. string_bytes t ≡ spec.obstacle_text self) }
    {
        let (part, what) = words(&self);
        let name = self.name();
        let Ok(name) = std::str::from_utf8(name.as_bytes()) else {
            unreachable!()
        };
        format!(in alloc; "{part} \"{name}\" {what}")
    }
}

/// A name, kept in place.
pub(crate) fn short(name: &str) -> CallbackId
    requires { IsName 32 name.now }
    ensures { result ≡ name.now }
{
    let Ok(name) = CallbackId::new(name) else {
        unreachable!()
    };
    name
}

fn obstacle_of(difference: Difference<'_>) -> Obstacle
    requires { IsName 32 (name_in difference) }
    ensures { result ≡ spec.obstacle_of difference.entry }
{
    match difference {
        Difference::CallbackIsGone(name) => Obstacle::CallbackIsGone(short(name)),
        Difference::CallbackIsOther(name) => Obstacle::CallbackIsOther(short(name)),
        Difference::PluginIsGone(name) => Obstacle::PluginIsGone(short(name)),
        Difference::PluginIsOther(name) => Obstacle::PluginIsOther(short(name)),
    }
}

/// What stands against the new kit by itself: the first thing of the old one that it lacks.
pub fn first_obstacle(old: &KitParts, new: &KitParts) -> Option<Obstacle>
    ensures none { result ≡ None ↔ Extends (kit_given old.now) (kit_given new.now) }
    ensures first { IfSome result (λ o. spec.StandsAgainst o old.now new.now) }
{
    match extends(old, new) {
        Ok(()) => None,
        Err(difference) => Some(obstacle_of(difference)),
    }
}
