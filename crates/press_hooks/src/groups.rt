ghost use Rattle.std.specs.Prelude.{◌≡◌, ◌+◌, ◌≤◌, ◌<◌, ◌^◌, ℤ, Option, false, length, map, filter, insert, not, bytes_eq, option_map, OnOk, OnErr};
ghost use Rattle.std.specs.Ordering.{int_eq};
ghost use Rattle.std.specs.List.{list_any, find};
ghost use Rattle.press_hooks.specs.Hooked.{AreGroups, IsPlaceAt, entries_of, has_entry, up_to, accepted_where, is_named, put_entry};

use crate::entry::Entry;
use crate::group::Group;
use press_text::CallbackId;
use std::alloc::{AllocError, Global};

// Where the group of that priority is, or would be, by binary search.
fn find(groups: &[Group], priority: &i64) -> Result<usize, usize>
    requires { AreGroups groups.now }
    ensures { IsPlaceAt priority.now groups.now result }
{
    groups.binary_search_by_key(priority, |g| g.priority())
}

/// How many groups have priorities not greater than the one reached, by binary search.
pub(crate) fn count_up_to(groups: &[Group], reached: Option<i64>) -> usize
    requires { AreGroups groups.now }
    ensures { result ≡ up_to reached groups.now }
{
    match reached {
        None => 0,
        Some(priority) => groups.partition_point(|g| g.priority() <= priority),
    }
}

/// Whether the callback has an entry at that priority.
pub(crate) fn has(groups: &[Group], priority: i64, callback: CallbackId) -> bool
    requires { AreGroups groups.now }
    ensures { result ≡ list_any (λ e. bytes_eq e.callback callback) (filter
        (λ e. int_eq e.priority priority) (entries_of groups.now)) }
{
    match find(groups, &priority) {
        Ok(place) => groups[place].has(callback),
        Err(_) => false,
    }
}

/// The priority of the first entry of the callback.
pub(crate) fn priority_of(groups: &[Group], callback: CallbackId) -> Option<i64>
    ensures { result ≡ option_map (λ e. e.priority) (find
        (λ e. bytes_eq e.callback callback) (entries_of groups.now)) }
{
    groups
        .iter()
        .find(|g| g.has(callback))
        .map(|g| g.priority())
}

/// Sets `accepted` of the entry, if it exists.
pub(crate) fn accept(groups: &mut Vec<Group>, entry: &Entry)
    requires { AreGroups groups.old.items }
    ensures entries { entries_of groups.new.items
        ≡ map (accepted_where entry.now.priority entry.now.callback entry.now.accepted)
        (entries_of groups.old.items) }
    ensures order { AreGroups groups.new.items }
{
    if let Ok(place) = find(groups.as_slice(), &entry.priority) {
        groups[place].accept(entry);
    }
}

/// Adds an entry after those of its priority, of a callback that has none there.
pub(crate) fn put(alloc: Global, groups: &mut Vec<Group>, entry: &Entry) -> Result<(), AllocError>
    requires order { AreGroups groups.old.items }
    requires new { has_entry entry.now.priority entry.now.callback (entries_of groups.old.items)
        ≡ false }
    ensures entries { OnOk result (entries_of groups.new.items
        ≡ put_entry entry.now (entries_of groups.old.items)) }
    ensures order { OnOk result (AreGroups groups.new.items) }
    ensures refused { OnErr result (groups.new.items ≡ groups.old.items) }
{
    match find(groups.as_slice(), &entry.priority) {
        Ok(place) => groups[place].put(entry),
        Err(place) => put_group(groups, place, Group::with_entry(alloc, entry)?),
    }
}

fn put_group(groups: &mut Vec<Group>, place: usize, group: Group) -> Result<(), AllocError>
    requires { place ≤ length groups.old.items }
    ensures put { OnOk result (groups.new.items ≡ insert groups.old.items place group) }
    ensures refused { OnErr result (groups.new.items ≡ groups.old.items) }
{
    groups.insert(place, group)?;
    Ok(())
}

/// Removes the entry of a priority and a callback, or all of that priority; returns how many there
/// were.
pub(crate) fn remove(groups: &mut Vec<Group>, priority: i64, callback: Option<CallbackId>) -> usize
    requires { AreGroups groups.old.items }
    ensures entries { entries_of groups.new.items ≡ filter
        (λ e. not (is_named (Some priority) callback e)) (entries_of groups.old.items) }
    ensures gone { result + length (entries_of groups.new.items)
        ≡ length (entries_of groups.old.items) }
    ensures order { AreGroups groups.new.items }
{
    let Ok(place) = find(groups.as_slice(), &priority) else {
        return 0;
    };
    let gone = groups[place].remove(callback);
    if groups[place].is_empty() {
        drop(groups.remove(place));
    }
    gone
}

/// How many entries these groups have.
pub(crate) fn entry_count(groups: &[Group]) -> usize
    requires { length (entries_of groups.now) < 2 ^ 64 }
    ensures { result ≡ length (entries_of groups.now) }
{
    let mut count = 0;
    for group in groups {
        count += group.len();
    }
    count
}
