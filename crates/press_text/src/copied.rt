ghost use Rattle.std.specs.Prelude.{◌≡◌, IfOk};

use crate::hook_name::HookName;
use crate::items::Items;
use crate::text::Text;
use std::alloc::{AllocError, Global};

/// A value that can be copied.
pub trait Copied {
    /// A copy of the value.
    fn copy_in(&self, alloc: Global) -> Result<Self, AllocError>
    where
        Self: Sized,
        ensures { IfOk result (λ x. x ≡ self.now) };
}

impl Copied for Text {
    fn copy_in(&self, alloc: Global) -> Result<Text, AllocError> {
        self.copy(alloc)
    }
}

impl Copied for HookName {
    fn copy_in(&self, alloc: Global) -> Result<HookName, AllocError> {
        self.copy(alloc)
    }
}

/// A copy of each of these.
pub fn copy_all<T: Copied + Drop>(alloc: Global, items: &[T]) -> Result<Vec<T>, AllocError>
    ensures { IfOk result (λ v. v.items ≡ items.now) }
{
    let mut copies = Vec::new(alloc);
    for item in items {
        copies.push(item.copy_in(alloc)?)?;
    }
    Ok(copies)
}

impl<T: Copied + Drop> Copied for Items<T> {
    fn copy_in(&self, alloc: Global) -> Result<Items<T>, AllocError> {
        Ok(Items::from_vec(copy_all(alloc, self.as_slice())?))
    }
}
