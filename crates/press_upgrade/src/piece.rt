//! The callbacks and plugins of a new kit file, under the names that they get in the next kit.

use serde_json::{Value, json};
use std::alloc::{AllocError, Global};

/// A callback or a plugin as its file has it.
pub struct Piece<'v> {
    /// Its name in the file.
    pub name: &'v str,
    pub value: &'v Value,
    /// Its name in the next kit.
    pub now: String,
    /// Whether the old kit lacks it under that name, so that the next one gets it.
    pub is_made: bool,
}

impl<'v> Drop for Piece<'v> {
    fn drop(self) {
        let Piece {
            name: _,
            value: _,
            now: _,
            is_made: _,
        } = self;
    }
}

/// Whether one of these gets that name.
pub fn is_given(pieces: &[Piece<'_>], name: &str) -> bool {
    pieces.iter().any(|piece| piece.now.as_str() == name)
}

// The name that a callback gets; one that isn't among these keeps its own.
fn name_now<'n>(callbacks: &'n [Piece<'_>], name: &'n str) -> &'n str {
    for callback in callbacks {
        if callback.name == name {
            return callback.now.as_str();
        }
    }
    name
}

fn set_member(
    alloc: Global,
    object: &mut Value,
    key: &str,
    member: Value,
) -> Result<(), AllocError> {
    if let Some(members) = object.as_object_mut() {
        let key = String::from_str(alloc, key)?;
        drop(members.insert(key, member)?);
    }
    Ok(())
}

// A step or a load, which names the callback by the name that it gets.
fn item_now(alloc: Global, item: &Value, callbacks: &[Piece<'_>]) -> Result<Value, AllocError> {
    let mut now = item.clone()?;
    if let Some(name) = item.get("callback").and_then(Value::as_str) {
        let name = Value::try_from_str(alloc, name_now(callbacks, name))?;
        set_member(alloc, &mut now, "callback", name)?;
    }
    Ok(now)
}

impl<'v> Piece<'v> {
    /// The piece under the name that it gets, whose items under that key name callbacks by those
    /// that they get.
    pub fn value_now(
        &self,
        alloc: Global,
        key: &str,
        callbacks: &[Piece<'_>],
    ) -> Result<Value, AllocError> {
        let mut items = Vec::new(alloc);
        if let Some(values) = self.value.get(key).and_then(Value::as_array) {
            for value in values {
                items.push(item_now(alloc, value, callbacks)?)?;
            }
        }
        let name = self.now.as_str();
        let mut now = json!(in alloc; {"name": name})?;
        set_member(alloc, &mut now, key, Value::Array(items))?;
        Ok(now)
    }
}
