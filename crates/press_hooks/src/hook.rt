ghost use Rattle.std.specs.Prelude.{◌≡◌, ◌+◌, ◌<◌, ◌^◌, false, bytes_eq, length, map, filter, not, Some, None, IfOk, OnOk, OnErr, [], ◌∷◌};
ghost use Rattle.std.specs.Cmp.Lexicographic.{slice_cmp};
ghost use Rattle.std.specs.Ordering.{nat_cmp};
ghost use Rattle.press_hooks.specs.Hooked.{hook_entries, AreGroups, has_entry, is_named, accepted_where, put_entry};

use crate::entry::Entry;
use crate::group::Group;
use crate::groups;
use press_text::{CallbackId, Copied, HookName, copy_all};
use std::alloc::{AllocError, Global};
use std::cmp::Ordering;
use std::marker::Model;

/// A hook's entries in groups by priority; none is empty.
#[derive(Debug)]
pub struct Hook {
    name: HookName,
    groups: Vec<Group>,
}

impl Drop for Hook {
    fn drop(self) {
        let Hook { name: _, groups: _ } = self;
    }
}

impl Model for Hook {
    ghost use Rattle.press_hooks.specs.Hooked.{HookView, AreGroups};

    ghost Value = { HookView };

    ghost view = { λ h. record { name = h.name; groups = h.groups.items } };

    ghost invariant = { λ h. AreGroups h.groups.items };
}

impl Hook {
    /// A hook with its first entry.
    pub fn with_entry(alloc: Global, name: &HookName, entry: &Entry) -> Result<Hook, AllocError>
        ensures name { IfOk result (λ h. h.name ≡ name.now) }
        ensures entries { IfOk result (λ h. hook_entries h ≡ entry.now ∷ []) }
    {
        let name = name.copy(alloc)?;
        let groups = vec![in alloc; Group::with_entry(alloc, entry)?]?;
        Ok(Hook { name, groups })
    }

    /// How its name compares with another.
    pub fn cmp_name(&self, name: &HookName) -> Ordering
        ensures { result ≡ slice_cmp nat_cmp self.now.name name.now }
    {
        self.name.as_str().cmp(name.as_str())
    }

    /// Whether it is the hook of that name.
    pub fn is(&self, name: &HookName) -> bool
        ensures { result ≡ bytes_eq self.now.name name.now }
    {
        self.name.is(name)
    }

    pub fn groups(&self) -> &[Group]
        ensures items { result.now ≡ self.now.groups }
        ensures order { AreGroups result.now }
    {
        self.groups.as_slice()
    }

    /// Sets `accepted` of the entry, if it exists.
    pub fn accept(&mut self, entry: &Entry)
        ensures name { self.new.name ≡ self.old.name }
        ensures entries { hook_entries self.new
            ≡ map (accepted_where entry.now.priority entry.now.callback entry.now.accepted)
            (hook_entries self.old) }
    {
        groups::accept(&mut self.groups, entry);
    }

    /// Adds an entry after those of its priority, of a callback that has none there.
    pub fn put(&mut self, alloc: Global, entry: &Entry) -> Result<(), AllocError>
        requires { has_entry entry.now.priority entry.now.callback (hook_entries self.old)
            ≡ false }
        ensures name { self.new.name ≡ self.old.name }
        ensures put { OnOk result (hook_entries self.new
            ≡ put_entry entry.now (hook_entries self.old)) }
        ensures refused { OnErr result (self.new ≡ self.old) }
    {
        groups::put(alloc, &mut self.groups, entry)
    }

    /// Removes the entry of a priority and a callback, or all of that priority; returns how many
    /// there were.
    pub fn remove(&mut self, priority: i64, callback: Option<CallbackId>) -> usize
        ensures name { self.new.name ≡ self.old.name }
        ensures entries { hook_entries self.new ≡ filter
            (λ e. not (is_named (Some priority) callback e)) (hook_entries self.old) }
        ensures gone { result + length (hook_entries self.new) ≡ length (hook_entries self.old) }
    {
        groups::remove(&mut self.groups, priority, callback)
    }
}

impl Copied for Hook {
    fn copy_in(&self, alloc: Global) -> Result<Hook, AllocError> {
        let name = self.name.copy(alloc)?;
        let groups = copy_all(alloc, self.groups.as_slice())?;
        Ok(Hook { name, groups })
    }
}
