//! Callbacks and plugins as parts of a kit: each goes by a name.

ghost use Rattle.std.specs.Prelude.{◌≡◌, ℕ, List, option_map};
ghost use Rattle.press_upgrade.specs.Differences.{callback_title, plugin_title};
ghost use Rattle.press_upgrade.specs.Parts.{FindsLoss, Stands, part_of};

use crate::same::Same;
use press_callbacks::Plugin;
use press_kit::Scripted;

/// A part of a kit, which goes by a name.
pub trait Part: Same {
    ghost title: { Self → List ℕ };

    fn title(&self) -> &[u8]
        ensures { result.now ≡ title self.now };
}

impl Part for Scripted {
    ghost title = { callback_title };

    fn title(&self) -> &[u8] {
        self.id.as_bytes()
    }
}

impl Part for Plugin {
    ghost title = { plugin_title };

    fn title(&self) -> &[u8] {
        self.name.as_str().as_bytes()
    }
}

/// Why a part of one kit isn't found as it is in another.
#[derive(Clone, Copy, Debug, PartialEq, Eq)]
pub enum Loss {
    /// Another part has its name there.
    Other,
    /// Nothing has its name there.
    Gone,
}

/// The first part of that name.
pub fn find<'p, T: Part>(parts: &'p [T], title: &[u8]) -> Option<&'p T>
    ensures { option_map (λ x. x.now) result ≡ part_of T.title title.now parts.now }
{
    for n in 0..parts.len() {
        if parts[n].title() == title {
            return Some(&parts[n]);
        }
    }
    None
}

/// Why a part isn't found as it is among others; none where it is.
pub fn loss_of<T: Part>(part: &T, among: &[T]) -> Option<Loss>
    ensures { Stands T.title among.now part.now result }
{
    let Some(found) = find(among, part.title()) else {
        return Some(Loss::Gone);
    };
    if found.same(part) {
        return None;
    }
    Some(Loss::Other)
}

/// The first of these parts that isn't found as it is among others, and why.
pub fn first_loss<'p, T: Part>(parts: &'p [T], among: &[T]) -> Option<(&'p T, Loss)>
    ensures { FindsLoss T.title among.now parts.now
        (option_map (λ lost. (lost.0.now, lost.1)) result) }
{
    for n in 0..parts.len() {
        if let Some(loss) = loss_of(&parts[n], among) {
            return Some((&parts[n], loss));
        }
    }
    None
}
