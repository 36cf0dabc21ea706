ghost use Rattle.std.specs.Prelude.{◌≡◌, ◌+◌, ◌<◌, ◌≤◌, ◌^◌, ℕ, List, false, is_some, length, map, filter, insert, not, Some, None, OnOk, OnErr};
ghost use Rattle.press_hooks.specs.HookRows.{accepted_as, has_rows, is_of_hook, put_row};
ghost use Rattle.press_hooks.specs.Hooked.{IsByName, AreGroups, IsPlaceOf, KeepsOthers, entries_of, groups_named, has_entry, row_of, table_rows, is_row_named};

use crate::entry::Entry;
use crate::group::Group;
use crate::groups::entry_count;
use crate::hook::Hook;
use press_text::{CallbackId, HookName};
use std::alloc::{AllocError, Global};

// Where the hook of that name is, or would be, by binary search.
fn find(hooks: &[Hook], name: &HookName) -> Result<usize, usize>
    requires { IsByName hooks.now }
    ensures { IsPlaceOf name.now hooks.now result }
{
    hooks.binary_search_by(|h| h.cmp_name(name))
}

// The same of a hook that stood at a place when it was last looked for, which is looked at before
// it is believed.
fn find_near(hooks: &[Hook], name: &HookName, place: usize) -> Result<usize, usize>
    requires { IsByName hooks.now }
    ensures { IsPlaceOf name.now hooks.now result }
{
    if place < hooks.len() && hooks[place].is(name) {
        return Ok(place);
    }
    find(hooks, name)
}

/// Where the hook of that name stands, if it has an entry at all.
pub(crate) fn place_of(hooks: &[Hook], name: &HookName) -> Option<usize>
    requires { IsByName hooks.now }
    ensures { is_some result ≡ has_rows name.now (table_rows hooks.now) }
{
    let Ok(place) = find(hooks, name) else {
        return None;
    };
    if hooks[place].groups().is_empty() {
        return None;
    }
    Some(place)
}

/// The groups of the hook of that name, none where there isn't one.
pub(crate) fn groups_of<'a>(hooks: &'a [Hook], name: &HookName) -> &'a [Group]
    requires { IsByName hooks.now }
    ensures groups { result.now ≡ groups_named name.now hooks.now }
    ensures rows { filter (is_of_hook name.now) (table_rows hooks.now)
        ≡ map (row_of name.now) (entries_of result.now) }
    ensures order { AreGroups result.now }
{
    match find(hooks, name) {
        Ok(place) => hooks[place].groups(),
        Err(_) => &[],
    }
}

/// The same of a hook that stood at a place when it was last looked for.
pub(crate) fn groups_near<'a>(hooks: &'a [Hook], name: &HookName, place: usize) -> &'a [Group]
    requires { IsByName hooks.now }
    ensures groups { result.now ≡ groups_named name.now hooks.now }
    ensures rows { filter (is_of_hook name.now) (table_rows hooks.now)
        ≡ map (row_of name.now) (entries_of result.now) }
    ensures order { AreGroups result.now }
{
    match find_near(hooks, name, place) {
        Ok(place) => hooks[place].groups(),
        Err(_) => &[],
    }
}

/// Sets `accepted` of the entry, if it exists.
pub(crate) fn accept(hooks: &mut Vec<Hook>, name: &HookName, entry: &Entry)
    requires { IsByName hooks.old.items }
    ensures rows { table_rows hooks.new.items
        ≡ map (accepted_as name.now entry.now.priority entry.now.callback entry.now.accepted)
        (table_rows hooks.old.items) }
    ensures others { KeepsOthers name.now hooks.old.items hooks.new.items }
    ensures order { IsByName hooks.new.items }
{
    if let Ok(place) = find(hooks.as_slice(), name) {
        hooks[place].accept(entry);
    }
}

/// Adds an entry after those of its hook and priority, of a callback that has none there.
pub(crate) fn put(
    alloc: Global,
    hooks: &mut Vec<Hook>,
    name: &HookName,
    entry: &Entry,
) -> Result<(), AllocError>
    requires order { IsByName hooks.old.items }
    requires new { has_entry entry.now.priority entry.now.callback
        (entries_of (groups_named name.now hooks.old.items)) ≡ false }
    ensures rows { OnOk result (table_rows hooks.new.items
        ≡ put_row (row_of name.now entry.now) (table_rows hooks.old.items)) }
    ensures others { OnOk result (KeepsOthers name.now hooks.old.items hooks.new.items) }
    ensures order { OnOk result (IsByName hooks.new.items) }
    ensures refused { OnErr result (hooks.new.items ≡ hooks.old.items) }
{
    match find(hooks.as_slice(), name) {
        Ok(place) => hooks[place].put(alloc, entry),
        Err(place) => put_hook(hooks, place, Hook::with_entry(alloc, name, entry)?),
    }
}

fn put_hook(hooks: &mut Vec<Hook>, place: usize, hook: Hook) -> Result<(), AllocError>
    requires { place ≤ length hooks.old.items }
    ensures put { OnOk result (hooks.new.items ≡ insert hooks.old.items place hook) }
    ensures refused { OnErr result (hooks.new.items ≡ hooks.old.items) }
{
    hooks.insert(place, hook)?;
    Ok(())
}

/// Removes the hook's entry of a priority and a callback, or all of that priority; returns how many
/// there were.
pub(crate) fn remove(
    hooks: &mut Vec<Hook>,
    name: &HookName,
    priority: i64,
    callback: Option<CallbackId>,
) -> usize
    requires { IsByName hooks.old.items }
    ensures rows { table_rows hooks.new.items ≡ filter
        (λ r. not (is_row_named name.now (Some priority) callback r))
        (table_rows hooks.old.items) }
    ensures gone { result + length (table_rows hooks.new.items)
        ≡ length (table_rows hooks.old.items) }
    ensures others { KeepsOthers name.now hooks.old.items hooks.new.items }
    ensures order { IsByName hooks.new.items }
{
    let Ok(place) = find(hooks.as_slice(), name) else {
        return 0;
    };
    let gone = hooks[place].remove(priority, callback);
    drop_empty(hooks, place);
    gone
}

// Removes a hook that has no group left.
fn drop_empty(hooks: &mut Vec<Hook>, place: usize)
    requires within { place < length hooks.old.items }
    requires order { IsByName hooks.old.items }
    ensures rows { table_rows hooks.new.items ≡ table_rows hooks.old.items }
    ensures groups { (name : List ℕ) → groups_named name hooks.new.items
        ≡ groups_named name hooks.old.items }
    ensures order { IsByName hooks.new.items }
{
    if hooks[place].groups().is_empty() {
        drop(hooks.remove(place));
    }
}

/// Removes all of the hook's entries; returns how many there were.
pub(crate) fn remove_hook(hooks: &mut Vec<Hook>, name: &HookName) -> usize
    requires order { IsByName hooks.old.items }
    requires small { length (table_rows hooks.old.items) < 2 ^ 64 }
    ensures rows { table_rows hooks.new.items ≡ filter
        (λ r. not (is_row_named name.now None None r)) (table_rows hooks.old.items) }
    ensures gone { result + length (table_rows hooks.new.items)
        ≡ length (table_rows hooks.old.items) }
    ensures others { KeepsOthers name.now hooks.old.items hooks.new.items }
    ensures order { IsByName hooks.new.items }
{
    let Ok(place) = find(hooks.as_slice(), name) else {
        return 0;
    };
    let gone = entry_count(hooks[place].groups());
    drop(hooks.remove(place));
    gone
}
