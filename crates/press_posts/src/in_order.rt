//! Published posts in their order, oldest first: a post's position is found by binary search.

ghost use Rattle.std.specs.Prelude.{◌≡◌, ◌<◌, ◌≤◌, length, map, take, reverse, vec_len, vec_capacity, IfOk, OnErr, OnOk};
ghost use Rattle.press_posts.specs.Kept.{place_among, put_in, take_out, IsAmong};
ghost use Rattle.press_posts.specs.Published.{is_older, IsOldestFirst};

use crate::posts::Dated;
use std::alloc::{AllocError, Global};

/// Room for that many published posts.
pub fn make_room(order: &mut Vec<Dated>, most: usize) -> Result<(), AllocError>
    ensures items { order.new.items ≡ order.old.items }
    ensures room { OnOk result (most ≤ vec_capacity order.new) }
    ensures capacity { vec_capacity order.old ≤ vec_capacity order.new }
{
    order.reserve(most.saturating_sub(order.len()))
}

/// Puts one at its position, in the room that there is.
pub fn put_in(order: &mut Vec<Dated>, dated: Option<Dated>)
    requires order { IsOldestFirst order.old.items }
    requires room { vec_len order.old < vec_capacity order.old }
    ensures items { order.new.items ≡ put_in dated order.old.items }
    ensures capacity { vec_capacity order.new ≡ vec_capacity order.old }
{
    let Some(dated) = dated else {
        return;
    };
    let place = place_among(order, &dated);
    let Ok(()) = order.insert(place, dated) else {
        unreachable!()
    };
}

/// Removes one that is among them.
pub fn take_out(order: &mut Vec<Dated>, dated: Option<Dated>)
    requires order { IsOldestFirst order.old.items }
    requires among { IsAmong dated order.old.items }
    ensures items { order.new.items ≡ take_out dated order.old.items }
    ensures capacity { vec_capacity order.new ≡ vec_capacity order.old }
{
    let Some(dated) = dated else {
        return;
    };
    let place = place_among(order, &dated);
    order.remove(place);
}

/// The ids of the first `most`, newest first.
pub fn newest(alloc: Global, order: &[Dated], most: usize) -> Result<Vec<u64>, AllocError>
    ensures ids { IfOk result (λ ids. ids.items ≡ map (λ d. d.id) (take most (reverse order.now))) }
    ensures memory { OnErr result (0 < length (map (λ d. d.id) (take most (reverse order.now)))) }
{
    if most == 0 || order.is_empty() {
        return Ok(Vec::new(alloc));
    }
    order.iter().rev().take(most).map(|d| d.id).collect(alloc)
}

fn place_among(order: &[Dated], dated: &Dated) -> usize
    requires { IsOldestFirst order.now }
    ensures place { result ≡ place_among dated.now order.now }
    ensures within { result ≤ length order.now }
{
    order.partition_point(|d| is_older(d, dated))
}

fn is_older(a: &Dated, b: &Dated) -> bool
    ensures { result ≡ is_older a.now b.now }
{
    let (early, late) = (a.date.seconds(), b.date.seconds());
    early < late || early == late && a.id < b.id
}
