//! Things with a name, and their order by name.

ghost use Rattle.std.specs.Prelude.{◌≡◌, ◌≤◌, ℕ, List, length, bytes_eq, true, false};
ghost use Rattle.std.specs.List.Sorted.{IsPartitionPoint, IsPermutation};
ghost use Rattle.std.specs.Ordering.{is_lt};
ghost use Rattle.press_text.specs.NameOrder.{is_before};
ghost use Rattle.press_callbacks.specs.Order.{place_of, in_order};

use crate::plugin::Plugin;
use crate::stored::Stored;
use press_text::Name;
use std::cmp::Ordering;

/// A thing that goes by a name.
pub trait Named {
    ghost name: { Self → List ℕ };

    fn name_bytes(&self) -> &[u8]
        ensures { result.now ≡ name self.now };
}

impl Named for Name {
    ghost name = { λ n. n };

    fn name_bytes(&self) -> &[u8] {
        self.as_str().as_bytes()
    }
}

impl Named for Plugin {
    ghost name = { λ p. p.name };

    fn name_bytes(&self) -> &[u8] {
        self.name.as_str().as_bytes()
    }
}

impl Named for Stored {
    ghost name = { λ c. c.id };

    fn name_bytes(&self) -> &[u8] {
        self.id_bytes()
    }
}

pub(crate) fn is_named<T: Named>(x: &T, name: &[u8]) -> bool
    ensures { result ≡ bytes_eq (T.name x.now) name.now }
{
    x.name_bytes() == name
}

/// These in the order of their names; takes no memory.
pub fn sorted_by_name<T: Named>(mut items: Vec<T>) -> Vec<T>
    ensures moved { IsPermutation items.items result.items }
    ensures sorted { in_order T.name result.items ≡ true }
{
    items.sort_unstable_by(|a, b| compare(a, b));
    items
}

fn compare<T: Named>(a: &T, b: &T) -> Ordering
    ensures { is_lt result ≡ is_before (T.name a.now) (T.name b.now) }
{
    a.name_bytes().cmp(b.name_bytes())
}

/// Where the first of that name is among these in the order of their names, by binary search.
pub fn place_of<T: Named>(sorted: &[T], name: &[u8]) -> Option<usize>
    requires { in_order T.name sorted.now ≡ true }
    ensures { result ≡ place_of T.name name.now sorted.now }
{
    let place = first_not_before(sorted, name);
    if place == sorted.len() {
        return None;
    }
    if is_named(&sorted[place], name) {
        return Some(place);
    }
    None
}

// Where the names before a name end.
fn first_not_before<T: Named>(sorted: &[T], name: &[u8]) -> usize
    requires { in_order T.name sorted.now ≡ true }
    ensures parts { IsPartitionPoint (λ y. is_before (T.name y) name.now ≡ true)
        (λ y. is_before (T.name y) name.now ≡ false) sorted.now result }
    ensures within { result ≤ length sorted.now }
{
    sorted.partition_point(|y| is_before(y.name_bytes(), name))
}

fn is_before(a: &[u8], b: &[u8]) -> bool
    ensures { result ≡ is_before a.now b.now }
{
    match a.cmp(b) {
        Ordering::Less => true,
        Ordering::Equal => false,
        Ordering::Greater => false,
    }
}
