//! Pieces of the list of values that were applied.

ghost use Rattle.std.specs.Prelude.{◌≡◌, IfOk, drop, map, take};
ghost use Rattle.serde_json.specs.Data.{array};
ghost use Rattle.serde_json.specs.View.{items_of, view};
ghost use Rattle.press_log.specs.Log.{entry_data, entry_limit, log_data, log_reply};

use crate::commands::entry_value;
use press_apply::Value;
use press_page::{Reply, json_reply};
use serde_json::{Value as Json, json};
use std::alloc::{AllocError, Global};

// The most values of one reply.
const MOST: usize = 64;

// The first values behind so many.
#[tactic(auto, using(crate::proofs::Cuts::piece))]
fn piece_of(values: &[Value], from: u64) -> &[Value]
    ensures { result.now ≡ take entry_limit (drop from values.now) }
{
    let first = from.min(values.len() as u64) as usize;
    let end = first.saturating_add(MOST).min(values.len());
    &values[first..end]
}

fn entries_value(alloc: Global, values: &[Value]) -> Result<Json, AllocError>
    ensures { IfOk result (λ v. view v ≡ array (items_of (map entry_data values.now))) }
{
    let mut entries = Vec::new(alloc);
    for value in values {
        entries.push(entry_value(alloc, value)?)?;
    }
    Ok(Json::Array(entries))
}

fn log_value(alloc: Global, values: &[Value], from: u64) -> Result<Json, AllocError>
    ensures { IfOk result (λ v. view v ≡ log_data values.now from) }
{
    let applied = values.len() as u64;
    let commands = entries_value(alloc, piece_of(values, from))?;
    json!(in alloc; {"applied": applied, "commands": commands})
}

/// The values behind the first so many, 64 at most, each as a site file has its command; one
/// without a command has its moment alone.
#[tactic(auto, using(crate::proofs::Cuts::no_float_log))]
pub fn show_log(alloc: Global, values: &[Value], from: u64) -> Result<Reply, AllocError>
    ensures { IfOk result (λ r. r ≡ log_reply values.now from) }
{
    let value = log_value(alloc, values, from)?;
    json_reply(alloc, 200, &value)
}
