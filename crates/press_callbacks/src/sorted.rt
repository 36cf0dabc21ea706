//! Things in the order of their names, so that a name is found by binary search and equal names are
//! neighbours.

ghost use Rattle.std.specs.Prelude.{◌≡◌, true};
ghost use Rattle.press_callbacks.specs.Order.{in_order};
ghost use Rattle.press_callbacks.specs.Kits.{has_two, is_named as named_in};

use crate::named::{Named, is_named, place_of};

/// Things in the order of their names.
#[derive(Drop)]
pub struct Sorted<'a, T: Named> {
    items: &'a [T],
    ghost sorted: { in_order T.name items.now ≡ true },
}

impl<'a, T: Named> Sorted<'a, T> {
    pub fn new(items: &'a [T]) -> Sorted<'a, T>
        requires { in_order T.name items.now ≡ true }
        ensures { result.items.now ≡ items.now }
    {
        Sorted { items }
    }

    pub fn as_slice(&self) -> &'a [T]
        ensures { result.now ≡ self.now.items.now }
    {
        self.items
    }

    /// Whether one of these has that name.
    pub fn has_name(&self, name: &[u8]) -> bool
        ensures { result ≡ named_in T.name self.now.items.now name.now }
    {
        place_of(self.items, name).is_some()
    }

    /// Whether two of these have one name.
    pub fn has_two(&self) -> bool
        ensures { result ≡ has_two T.name self.now.items.now }
    {
        let items = self.items;
        for i in 1..items.len() {
            if is_named(&items[i], items[i - 1].name_bytes()) {
                return true;
            }
        }
        false
    }
}
