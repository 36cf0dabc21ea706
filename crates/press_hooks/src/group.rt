ghost use Rattle.std.specs.Prelude.{◌≡◌, ◌+◌, ◌++◌, ◌∷◌, ◌≤◌, ◌==◌, [], false, length, map, filter, not, bytes_eq, IfOk, OnOk, OnErr, vec_len, vec_capacity};
ghost use Rattle.std.specs.List.{list_any};
ghost use Rattle.indexmap.specs.IndexMap.{index_map_len};
ghost use Rattle.press_hooks.specs.Hooked.{with_members};
ghost use Rattle.press_hooks.specs.Keys.{group_entries_in};
ghost use Rattle.press_hooks.specs.GroupEntries.{group_entry_of, is_group_entry_of, accepted_if};

use crate::entry::Entry;
use crate::group_entry::GroupEntry;
use crate::key::Key;
use indexmap::IndexMap;
use press_text::{CallbackId, Copied};
use std::alloc::{AllocError, Global};
use std::marker::Model;

/// The entries of a hook at one priority, in the order in which they were added: how many arguments
/// each callback accepts.
#[derive(Debug)]
pub struct Group {
    priority: i64,
    members: IndexMap<Key, u32>,
}

impl Drop for Group {
    fn drop(self) {
        let Group {
            priority: _,
            members: _,
        } = self;
    }
}

impl Model for Group {
    ghost use Rattle.press_hooks.specs.Hooked.{GroupView};
    ghost use Rattle.press_hooks.specs.Keys.{group_entries_in};

    ghost Value = { GroupView };

    ghost view = { λ g. record { priority = g.priority; members = group_entries_in g.members.entries } };
}

impl Group {
    /// A group with its first entry.
    pub fn with_entry(alloc: Global, entry: &Entry) -> Result<Group, AllocError>
        ensures { IfOk result (λ g. g ≡ record {
          priority = entry.now.priority;
          members = group_entry_of entry.now ∷ [];
        }) }
    {
        let mut members = IndexMap::new(alloc);
        members.insert(Key::of(entry.callback), entry.accepted)?;
        Ok(Group {
            priority: entry.priority,
            members,
        })
    }

    pub fn priority(&self) -> i64
        ensures { result ≡ self.now.priority }
    {
        self.priority
    }

    /// How many entries it has.
    pub fn len(&self) -> usize
        ensures { result ≡ length self.now.members }
    {
        self.members.len()
    }

    pub fn is_empty(&self) -> bool
        ensures { result ≡ (length self.now.members == 0) }
    {
        self.members.len() == 0
    }

    pub fn has(&self, callback: CallbackId) -> bool
        ensures { result ≡ list_any (λ m. bytes_eq m.callback callback) self.now.members }
    {
        self.members.contains_key(&Key::of(callback))
    }

    /// Sets `accepted` of the entry, if it exists.
    pub fn accept(&mut self, entry: &Entry)
        ensures { self.new ≡ with_members (map (accepted_if entry.now.callback entry.now.accepted)
            self.old.members) self.old }
    {
        let Some(accepted) = self.members.get_mut(&Key::of(entry.callback)) else {
            return;
        };
        *accepted = entry.accepted;
    }

    /// Adds an entry after the others, of a callback that has none.
    pub fn put(&mut self, entry: &Entry) -> Result<(), AllocError>
        requires { list_any (λ m. bytes_eq m.callback entry.now.callback) self.old.members ≡ false }
        ensures put { OnOk result (self.new ≡ with_members (self.old.members
            ++ group_entry_of entry.now ∷ []) self.old) }
        ensures refused { OnErr result (self.new ≡ self.old) }
    {
        self.members
            .insert(Key::of(entry.callback), entry.accepted)?;
        Ok(())
    }

    /// Removes the entry of a callback, or all; returns how many there were.
    pub fn remove(&mut self, callback: Option<CallbackId>) -> usize
        ensures members { self.new ≡ with_members (filter
            (λ m. not (is_group_entry_of callback m)) self.old.members) self.old }
        ensures gone { result + length self.new.members ≡ length self.old.members }
    {
        let before = self.members.len();
        let Some(callback) = callback else {
            self.members.clear();
            return before;
        };
        self.members.shift_remove(&Key::of(callback));
        before - self.members.len()
    }

    /// Copies the entries behind what is there.
    pub fn copy_to(&self, members: &mut Vec<GroupEntry>) -> Result<(), AllocError>
        ensures copied { OnOk result (members.new.items ≡ members.old.items ++ self.now.members) }
        ensures refused { OnErr result (members.new.items ≡ members.old.items) }
    {
        members.reserve(self.members.len())?;
        push_all(members, &self.members);
        Ok(())
    }
}

impl Copied for Group {
    // A map copies itself by the allocator that it has.
    fn copy_in(&self, _alloc: Global) -> Result<Group, AllocError> {
        Ok(Group {
            priority: self.priority,
            members: self.members.clone()?,
        })
    }
}

// Copies a map's entries behind what is there, where there is room for them.
fn push_all(members: &mut Vec<GroupEntry>, entries: &IndexMap<Key, u32>)
    requires { vec_len members.old + index_map_len entries.now ≤ vec_capacity members.old }
    ensures { members.new.items ≡ members.old.items ++ group_entries_in entries.now.entries }
{
    for (key, accepted) in entries {
        members.push_reserved(GroupEntry {
            callback: key.callback(),
            accepted: *accepted,
        });
    }
}
