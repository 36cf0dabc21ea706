ghost use Rattle.std.specs.Prelude.{◌≡◌, IfOk};
ghost use Rattle.press_demonstration.specs.Demonstration as spec;

use crate::growing::grow_script;
use crate::plugins::plugins;
use crate::scripted::Scripted;
use crate::scripts::played_scripts;
use press_callbacks::{Plugin, Script};
use std::alloc::{AllocError, Global};

/// What the demonstration kit is made of.
#[derive(Drop)]
pub struct DemonstrationParts {
    pub growing: Script,
    pub played: Vec<Scripted>,
    pub plugins: Vec<Plugin>,
}

/// The parts of the kit, made anew: nothing is shared between two calls.
pub fn parts(alloc: Global) -> Result<DemonstrationParts, AllocError>
    ensures growing { IfOk result (λ p. p.growing ≡ spec.grow_script) }
    ensures played { IfOk result (λ p. spec.scripts_of p.played.items ≡ spec.play_scripts) }
    ensures plugins { IfOk result (λ p. p.plugins.items ≡ spec.plugins) }
{
    Ok(DemonstrationParts {
        growing: grow_script(alloc)?,
        played: played_scripts(alloc)?,
        plugins: plugins(alloc)?,
    })
}
