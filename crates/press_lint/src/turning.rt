//! A kit of several files, turned so that any one of them is the first.

ghost use Rattle.std.specs.Prelude.{◌≡◌, ◌++◌, drop, take};
ghost use Rattle.press_lint.specs.Files as spec;
ghost use Rattle.press_lint.specs.Joints.{share_of};

use crate::joint::Share;
use press_kit::{KitParts, Place};
use press_text::Items;

/// A place in the first share of a kit, or the same one counted from behind that share.
#[derive(Clone, Copy, Debug)]
pub enum Side {
    Own(Place),
    Behind(Place),
}

/// The first so many of these, or all where there are fewer.
pub fn front<T>(items: &[T], n: usize) -> &[T]
    ensures { result.now ≡ take n items.now }
{
    if items.len() < n { items } else { &items[..n] }
}

// The first so many of these are now the last.
fn turn_items<T: Drop>(items: Items<T>, n: usize) -> Items<T>
    ensures { result ≡ drop n items ++ take n items }
{
    let mut all = items.into_vec();
    if all.len() < n {
        return Items::from_vec(all);
    }
    all.rotate_left(n);
    Items::from_vec(all)
}

/// The kit with this share, which is its first, at its end.
pub fn turn_parts(parts: KitParts, share: &Share<'_>) -> KitParts
    ensures { result ≡ spec.turn_parts (share_of share.now) parts }
{
    KitParts {
        callbacks: turn_items(parts.callbacks, share.callbacks),
        plugins: turn_items(parts.plugins, share.plugins),
    }
}

fn callback_side(share: &Share<'_>, n: usize) -> Side
    ensures { result ≡ spec.side_of (share_of share.now) (Place.Callback n) }
{
    if n < share.callbacks {
        Side::Own(Place::Callback(n))
    } else {
        Side::Behind(Place::Callback(n - share.callbacks))
    }
}

fn op_side(share: &Share<'_>, callback: usize, op: usize) -> Side
    ensures { result ≡ spec.side_of (share_of share.now) (Place.Op callback op) }
{
    if callback < share.callbacks {
        Side::Own(Place::Op { callback, op })
    } else {
        let callback = callback - share.callbacks;
        Side::Behind(Place::Op { callback, op })
    }
}

fn plugin_side(share: &Share<'_>, n: usize) -> Side
    ensures { result ≡ spec.side_of (share_of share.now) (Place.Plugin n) }
{
    if n < share.plugins {
        Side::Own(Place::Plugin(n))
    } else {
        Side::Behind(Place::Plugin(n - share.plugins))
    }
}

fn load_side(share: &Share<'_>, plugin: usize, load: usize) -> Side
    ensures { result ≡ spec.side_of (share_of share.now) (Place.Load plugin load) }
{
    if plugin < share.plugins {
        Side::Own(Place::Load { plugin, load })
    } else {
        let plugin = plugin - share.plugins;
        Side::Behind(Place::Load { plugin, load })
    }
}

/// On which side of the end of a kit's first share a place is.
pub fn side_of(share: &Share<'_>, at: Place) -> Side
    ensures { result ≡ spec.side_of (share_of share.now) at }
{
    match at {
        Place::Callback(n) => callback_side(share, n),
        Place::Op { callback, op } => op_side(share, callback, op),
        Place::Plugin(n) => plugin_side(share, n),
        Place::Load { plugin, load } => load_side(share, plugin, load),
        _ => Side::Own(at),
    }
}
