//! Schedule files.

ghost use Rattle.std.specs.Prelude.{◌≡◌, ◌<◌, ◌≤◌, IfOk, IfSome, length, map, option_map, option_and_then, IsErrOf};
ghost use Rattle.serde_json.specs.View.{view};
ghost use Rattle.press_text.specs.Gives.{Gives};
ghost use Rattle.press_kit.specs.Fields.{number_in};
ghost use Rattle.press_kit.specs.KitFile.{file_limit};
ghost use Rattle.press_kit.specs.Refusals.{Refuses};
ghost use Rattle.press_kit.specs.declared.place.Place.TheVariants as place;
ghost use Rattle.press_world.specs.ScheduleFile as spec;

use crate::step::{Cut, Step};
use crate::step_kind::StepKind;
use press_apply::Stamped;
use press_kit::{Fields, KitFileFault, Listed, Place, each, number32, parse_file};
use press_page::Target;
use press_text::Items;
use serde_json::Value;
use std::alloc::Global;

// The most steps that a schedule may have.
const STEP_LIMIT: usize = 100_000;

fn cut_by_word(word: &str) -> Option<Cut>
    ensures { result ≡ spec.cut_by_word word.now }
{
    if word == "before" {
        Some(Cut::BeforeSave)
    } else if word == "save" {
        Some(Cut::AfterSave)
    } else {
        None
    }
}

fn cut_in(value: &Value) -> Option<Cut>
    ensures { result ≡ spec.cut_in (view value.now) }
{
    match value.as_str() {
        Some(word) => cut_by_word(word),
        None => number32(value).map(Cut::AfterMessages),
    }
}

// None, where none is given.
fn cut_at(fields: &Fields<'_>) -> Result<Option<Cut>, KitFileFault>
    ensures { Gives Refuses Ok result (spec.cut_at fields.now.at (view fields.now.value.now)) }
{
    match fields.value.get("cut") {
        None => Ok(None),
        Some(told) => Ok(Some(cut_in(told).ok_or(fields.at)?)),
    }
}

fn target(fields: &Fields<'_>) -> Result<Target, KitFileFault>
    ensures { Gives Refuses Ok result (spec.target_at fields.now.at (view fields.now.value.now)) }
{
    let told = fields.value.get("target").ok_or(fields.at)?;
    Target::read(fields.alloc, fields.at, told)
}

#[tactic(auto, unfolding(crate::specs::ScheduleFile::submit_of))]
fn submit(fields: &Fields<'_>) -> Result<Step, KitFileFault>
    ensures { Gives Refuses Ok result (spec.submit_of fields.now.at (view fields.now.value.now)) }
{
    Ok(Step::Submit {
        node: fields.number("node")?,
        command: Stamped::read(fields.alloc, fields.at, fields.value)?,
        cut: cut_at(fields)?,
    })
}

#[tactic(auto, unfolding(crate::specs::ScheduleFile::wake_of))]
fn wake(fields: &Fields<'_>) -> Result<Step, KitFileFault>
    ensures { Gives Refuses Ok result (spec.wake_of fields.now.at (view fields.now.value.now)) }
{
    Ok(Step::Wake {
        node: fields.number("node")?,
        cut: cut_at(fields)?,
    })
}

#[tactic(auto, unfolding(crate::specs::ScheduleFile::deliver_of))]
fn deliver(fields: &Fields<'_>) -> Result<Step, KitFileFault>
    ensures { Gives Refuses Ok result (spec.deliver_of fields.now.at (view fields.now.value.now)) }
{
    Ok(Step::Deliver {
        message: fields.number("message")?,
        cut: cut_at(fields)?,
    })
}

#[tactic(auto, unfolding(crate::specs::ScheduleFile::get_of))]
fn get(fields: &Fields<'_>) -> Result<Step, KitFileFault>
    ensures { Gives Refuses Ok result (spec.get_of fields.now.at (view fields.now.value.now)) }
{
    Ok(Step::Get {
        node: fields.number("node")?,
        target: target(fields)?,
    })
}

#[tactic(auto, unfolding(crate::specs::ScheduleFile::step_by))]
fn step(kind: StepKind, fields: &Fields<'_>) -> Result<Step, KitFileFault>
    ensures { Gives Refuses Ok result
        (spec.step_by kind fields.now.at (view fields.now.value.now)) }
{
    match kind {
        StepKind::Submit => submit(fields),
        StepKind::Wake => wake(fields),
        StepKind::Deliver => deliver(fields),
        StepKind::Restart => Ok(Step::Restart {
            node: fields.number("node")?,
        }),
        StepKind::Get => get(fields),
    }
}

fn kind(value: &Value) -> Option<StepKind>
    ensures { result ≡ spec.kind_in (view value.now) }
{
    match value.get("do").and_then(Value::as_str) {
        None => None,
        Some(word) => StepKind::by_word(word),
    }
}

impl Listed for Step {
    ghost read = { spec.step_of };

    #[tactic(auto, unfolding(crate::specs::ScheduleFile::step_of))]
    fn read(alloc: Global, at: Place, value: &Value) -> Result<Step, KitFileFault> {
        let kind = kind(value).ok_or(at)?;
        step(kind, &Fields { alloc, at, value })
    }
}

// The values, if there are not too many.
fn few(values: &[Value]) -> Option<&[Value]>
    ensures { option_map (λ vs. map view vs.now) result ≡ spec.few (map view values.now) }
{
    if values.len() > STEP_LIMIT {
        None
    } else {
        Some(values)
    }
}

#[tactic(auto, unfolding(crate::specs::ScheduleFile::steps_of))]
fn steps(alloc: Global, value: &Value) -> Result<Items<Step>, KitFileFault>
    ensures { Gives Refuses Ok result (spec.steps_of (view value.now)) }
{
    let at = Place::Steps;
    let all = Fields { alloc, at, value }.list("steps")?;
    let values = few(all).ok_or(at)?;
    each(alloc, at, values)
}

// A number from 1 to `kits`.
fn nodes(kits: usize, value: &Value) -> Option<usize>
    ensures value { result ≡ option_and_then (spec.nodes_in kits) (number_in (view value.now)) }
    ensures range { IfSome result (λ n. (1 ≤ n) × (n ≤ kits)) }
{
    match value.as_u64() {
        None => None,
        Some(n) => usize::try_from(n).ok().filter(|n| *n > 0 && *n <= kits),
    }
}

#[tactic(auto, unfolding(crate::specs::ScheduleFile::schedule_of))]
fn schedule(alloc: Global, value: &Value, kits: usize) -> Result<(usize, Items<Step>), KitFileFault>
    ensures gives { Gives Refuses Ok result (spec.schedule_of kits (view value.now)) }
    ensures nodes { IfOk result (λ s. (1 ≤ s.0) × (s.0 ≤ kits)) }
{
    let told = value.get("nodes").ok_or(Place::File)?;
    let nodes = nodes(kits, told).ok_or(Place::File)?;
    Ok((nodes, steps(alloc, value)?))
}

/// How many nodes there are, `kits` at most, and the steps that the bytes of a schedule file give,
/// in their order.
///
/// Keys that nobody names are passed over; of a key that is repeated the last one counts. A file
/// has at most 4,194,304 bytes and 100,000 steps.
#[tactic(auto, unfolding(crate::specs::ScheduleFile::schedule_in))]
pub fn read_schedule_file(
    alloc: Global,
    bytes: &[u8],
    kits: usize,
) -> Result<(usize, Items<Step>), KitFileFault>
    ensures gives { Gives Refuses Ok result (spec.schedule_in kits bytes.now) }
    ensures nodes { IfOk result (λ s. (1 ≤ s.0) × (s.0 ≤ kits)) }
    ensures long { file_limit < length bytes.now
        → IsErrOf result (KitFileFault.BadKitFile place.File) }
{
    let value = parse_file(alloc, bytes)?;
    schedule(alloc, &value, kits)
}
