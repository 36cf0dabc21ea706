//! What a scenario comes to.

use crate::actor::Actor;
use crate::running::Run;
use crate::scenario::Scenario;
use crate::telling::Telling;
use std::alloc::{AllocError, Global};

/// What is told of a run, and whether all holds that has to.
#[derive(Drop)]
pub struct Outcome {
    pub lines: Vec<String>,
    pub holds: bool,
}

/// Plays a scenario, of which that much is told.
pub fn play<A: Actor>(
    alloc: Global,
    scenario: &Scenario,
    telling: Telling,
) -> Result<Outcome, AllocError>
    requires always { Unit {0} }
{
    let mut run = Run::<A>::new(alloc, scenario, telling)?;
    let holds = run.play()?;
    Ok(Outcome {
        lines: run.into_lines(),
        holds,
    })
}
