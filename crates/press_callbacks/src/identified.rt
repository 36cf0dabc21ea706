//! Callbacks by their names, which compare as words.

ghost use Rattle.std.specs.Prelude.{◌≡◌, ◌≤◌, ℕ, List, length, bytes_eq, true, false};
ghost use Rattle.std.specs.List.Sorted.{IsPartitionPoint};
ghost use Rattle.press_text.specs.NameOrder.{is_before};
ghost use Rattle.press_callbacks.specs.Order.{place_of, in_order};

use crate::stored::Stored;
use press_text::CallbackId;

/// A thing that goes by the name of a callback.
pub trait Identified {
    ghost id: { Self → List ℕ };

    fn callback_id(&self) -> &CallbackId
        ensures { result.now ≡ id self.now };
}

impl Identified for Stored {
    ghost id = { λ c. c.id };

    fn callback_id(&self) -> &CallbackId {
        self.id_in()
    }
}

/// Whether it goes by that name.
pub fn is_of_id<T: Identified>(x: &T, id: &CallbackId) -> bool
    ensures { result ≡ bytes_eq (T.id x.now) id.now }
{
    x.callback_id().order(id).is_eq()
}

/// Where the first callback of that name stands among these in the order of their names, found by
/// halves.
pub fn place_of<T: Identified>(sorted: &[T], id: &CallbackId) -> Option<usize>
    requires { in_order T.id sorted.now ≡ true }
    ensures { result ≡ place_of T.id id.now sorted.now }
{
    let place = first_not_before(sorted, id);
    if place == sorted.len() {
        return None;
    }
    if is_of_id(&sorted[place], id) {
        return Some(place);
    }
    None
}

// Where the callbacks that stand before a name end.
fn first_not_before<T: Identified>(sorted: &[T], id: &CallbackId) -> usize
    requires { in_order T.id sorted.now ≡ true }
    ensures parts { IsPartitionPoint (λ y. is_before (T.id y) id.now ≡ true)
        (λ y. is_before (T.id y) id.now ≡ false) sorted.now result }
    ensures within { result ≤ length sorted.now }
{
    sorted.partition_point(|y| y.callback_id().order(id).is_lt())
}
