//! How many loads the plugins have together.

ghost use Rattle.std.specs.Prelude.{◌≡◌, count_by, nat_lt};
ghost use Rattle.press_lint.specs.Files as files;
ghost use Rattle.press_lint.specs.Mistakes as spec;

use crate::mistake::{Mistake, Sort, Why};
use press_callbacks::{Load, Plugin};
use press_kit::Place;

fn is_of(load: &Load, sort: Sort) -> bool
    ensures { result ≡ spec.is_of sort load.now }
{
    match load {
        Load::Hook { .. } => sort == Sort::Hooks,
        Load::Tag { .. } => sort == Sort::Tags,
    }
}

fn count_of(loads: &[Load], sort: Sort) -> usize
    ensures { result ≡ count_by (spec.is_of sort) loads.now }
{
    loads.iter().filter(|l| is_of(l, sort)).count()
}

// Whether the plugins have more loads of a sort together than this.
fn has_more(plugins: &[Plugin], sort: Sort, most: usize) -> bool
    ensures { result ≡ nat_lt most (spec.loads_of sort plugins.now) }
{
    let mut left = most;
    for p in plugins {
        let loads = count_of(p.load.as_slice(), sort);
        if loads > left {
            return true;
        }
        left -= loads;
    }
    false
}

// The most that a kit may have.
fn most_of(sort: Sort) -> usize
    ensures { result ≡ spec.most_of sort }
{
    match sort {
        Sort::Hooks => 1000,
        Sort::Tags => 128,
    }
}

/// The number of the plugin with whose loads there are more of a sort than a kit may have, or how
/// many plugins there are.
pub fn plugin_past_limit(plugins: &[Plugin], sort: Sort) -> usize
    ensures { result ≡ files.plugin_past_limit sort 0 (spec.most_of sort) plugins.now }
{
    let mut left = most_of(sort);
    for n in 0..plugins.len() {
        let loads = count_of(plugins[n].load.as_slice(), sort);
        if loads > left {
            return n;
        }
        left -= loads;
    }
    plugins.len()
}

fn too_many(plugins: &[Plugin], sort: Sort) -> Option<Mistake>
    ensures { result ≡ spec.too_many sort plugins.now }
{
    if has_more(plugins, sort, most_of(sort)) {
        Some(Mistake {
            at: Place::Plugins,
            why: Why::TooMany(sort),
        })
    } else {
        None
    }
}

/// More loads than a kit may have.
pub fn mistake_in_loads(plugins: &[Plugin]) -> Option<Mistake>
    ensures { result ≡ spec.mistake_in_loads plugins.now }
{
    match too_many(plugins, Sort::Hooks) {
        Some(mistake) => Some(mistake),
        None => too_many(plugins, Sort::Tags),
    }
}
