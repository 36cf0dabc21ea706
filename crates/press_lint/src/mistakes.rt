//! The first mistake in a kit.

ghost use Rattle.std.specs.Prelude.{◌≡◌, ℕ, List, IfOk};
ghost use Rattle.press_callbacks.specs.Kits.{is_named as named_among};
ghost use Rattle.press_kit.specs.declared.place.Place.{Place as At};
ghost use Rattle.press_kit.specs.declared.place.Place.TheVariants as place;
ghost use Rattle.press_lint.specs.Mistakes as spec;
ghost use Rattle.press_lint.specs.NameSets.{holds};

use crate::known::Known;
use crate::loads::mistake_in_loads;
use crate::mistake::{Mistake, Why};
use crate::name_set::NameSet;
use crate::unknown::unknown_in;
use press_callbacks::{Plugin, is_built_in};
use press_kit::{KitParts, Place, Scripted};
use std::alloc::{AllocError, Global};

/// What has a name, and a place by its number.
pub trait Titled {
    ghost title: { Self → List ℕ };

    ghost place: { ℕ → At };

    fn title(&self) -> &[u8]
        ensures { result.now ≡ title self.now };

    fn place(n: usize) -> Place
        ensures { result ≡ place n };
}

impl Titled for Scripted {
    ghost title = { λ c. c.id };

    ghost place = { place.Callback };

    fn title(&self) -> &[u8] {
        self.id.as_bytes()
    }

    fn place(n: usize) -> Place {
        Place::Callback(n)
    }
}

impl Titled for Plugin {
    ghost title = { λ p. p.name };

    ghost place = { place.Plugin };

    fn title(&self) -> &[u8] {
        self.name.as_str().as_bytes()
    }

    fn place(n: usize) -> Place {
        Place::Plugin(n)
    }
}

/// The names of these, and the first that has the name of a later one.
#[derive(Drop)]
pub struct Titles<'k> {
    pub names: NameSet<'k>,
    pub same: Option<Mistake>,
}

pub fn titles_of<T: Titled>(alloc: Global, items: &[T]) -> Result<Titles<'_>, AllocError>
    ensures names { IfOk result (λ t. (q : List ℕ) → holds t.names q
        ≡ named_among T.title items.now q) }
    ensures same { IfOk result (λ t. t.same
        ≡ spec.first (spec.same_name T.title T.place) 0 items.now) }
{
    let mut names = NameSet::new(alloc);
    let mut same = None;
    let mut n = items.len();
    while n > 0 {
        n -= 1;
        if !names.insert(items[n].title())? {
            same = Some(Mistake {
                at: T::place(n),
                why: Why::SameName,
            });
        }
    }
    Ok(Titles { names, same })
}

fn built_in_name(callbacks: &[Scripted]) -> Option<Mistake>
    ensures { result ≡ spec.first spec.built_in_name 0 callbacks.now }
{
    for n in 0..callbacks.len() {
        if is_built_in(callbacks[n].id.as_bytes()) {
            return Some(Mistake {
                at: Place::Callback(n),
                why: Why::BuiltInName,
            });
        }
    }
    None
}

// The first of these that has the name of a later one.
fn same_name<T: Titled>(alloc: Global, items: &[T]) -> Result<Option<Mistake>, AllocError>
    ensures { IfOk result (λ m. m ≡ spec.first (spec.same_name T.title T.place) 0 items.now) }
{
    let Titles { names: _, same } = titles_of(alloc, items)?;
    Ok(same)
}

// The first of two, where it is some, else the second.
fn or_else(first: Option<Mistake>, other: Option<Mistake>) -> Option<Mistake>
    ensures { result ≡ spec.or_else first other }
{
    match first {
        Some(mistake) => Some(mistake),
        None => other,
    }
}

fn mistake_by(
    alloc: Global,
    callbacks: &[Scripted],
    plugins: &[Plugin],
) -> Result<Option<Mistake>, AllocError>
    ensures { IfOk result (λ m. m ≡ spec.mistake_by callbacks.now plugins.now) }
{
    let Titles { names, same } = titles_of(alloc, callbacks)?;
    let plugin = same_name(alloc, plugins)?;
    let mistaken = or_else(same, or_else(built_in_name(callbacks), plugin));
    let known = Known::new(callbacks, names);
    let unknown = unknown_in(&known, plugins);
    Ok(or_else(mistaken, or_else(unknown, mistake_in_loads(plugins))))
}

/// The first reason why these make no kit: two callbacks or plugins of one name or a callback with
/// a built-in one, then a callback that is named and missing, then too many loads.
pub fn mistake_in(alloc: Global, kit: &KitParts) -> Result<Option<Mistake>, AllocError>
    ensures { IfOk result (λ m. m ≡ spec.mistake_in kit.now) }
{
    mistake_by(alloc, kit.callbacks.as_slice(), kit.plugins.as_slice())
}
