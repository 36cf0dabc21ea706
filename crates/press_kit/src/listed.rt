//! Items of a list, each read in turn.

ghost use Rattle.std.specs.Prelude.{◌≡◌, ◌+◌, map, Result, IfOk};
ghost use Rattle.serde_json.specs.Data.{Data};
ghost use Rattle.serde_json.specs.View.{view};
ghost use Rattle.press_kit.specs.declared.place.Place.{Place as At};
ghost use Rattle.press_text.specs.Gives.{Gives};
ghost use Rattle.press_kit.specs.Refusals.{Refuses};
ghost use Rattle.press_kit.specs.Fields.{each};

use crate::fault::KitFileFault;
use crate::place::Place;
use press_text::Items;
use serde_json::Value;
use std::alloc::Global;

/// What a value of JSON may give.
pub trait Listed {
    ghost read: { At → Data → Result Self At };

    /// What the value at a place gives.
    fn read(alloc: Global, at: Place, value: &Value) -> Result<Self, KitFileFault>
    where
        Self: Sized,
        ensures { Gives Refuses Ok result (read at (view value.now)) };
}

/// What the values of a list give, each at its place.
pub fn each<T: Listed + Drop>(
    alloc: Global,
    at: Place,
    values: &[Value],
) -> Result<Items<T>, KitFileFault>
    ensures { Gives Refuses Ok result (each T.read at 0 (map view values.now)) }
{
    let mut found = Vec::new(alloc);
    for i in 0..values.len() {
        found.push(T::read(alloc, at.item(i), &values[i])?)?;
    }
    Ok(Items::from_vec(found))
}
