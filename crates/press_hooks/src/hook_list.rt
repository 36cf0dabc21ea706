ghost use Rattle.std.specs.Prelude.{◌≡◌, ◌<◌, ◌==◌, [], true, false, ltb, Some, None, is_some, IsOk, IfOk, OnOk, OnErr, length, map, filter, not};
ghost use Rattle.std.specs.List.{list_any};
ghost use Rattle.press_hooks.specs.HookRows.{is_row, has_rows, is_of_hook, accepted_as, most_rows, put_row, add_row, adds_row, remove_row, remove_rows};
ghost use Rattle.press_hooks.specs.Hooked.{AreGroups, KeepsOthers, entries_of, groups_named, has_entry, row_of, table_rows, is_row_named};

use crate::entry::Entry;
use crate::group::Group;
use crate::hook::Hook;
use crate::{groups, hooks};
use press_text::{CallbackId, HookName, copy_all};
use std::alloc::{AllocError, Global};
use std::marker::Model;

// How many rows a table holds at most.
const MOST_ROWS: usize = 1024;

/// The entries of every hook: the hooks are in the order of their names.
#[derive(Debug)]
pub struct HookList {
    hooks: Vec<Hook>,
    count: usize,
}

impl Drop for HookList {
    fn drop(self) {
        let HookList { hooks: _, count: _ } = self;
    }
}

impl Model for HookList {
    ghost use Rattle.std.specs.Prelude.{◌≡◌, List, length};
    ghost use Rattle.press_hooks.specs.Hooked.{HookView, IsByName, table_rows};

    ghost Value = { List HookView };

    ghost view = { λ r. r.hooks.items };

    ghost invariant = { λ r. IsByName r.hooks.items
        × (r.count ≡ length (table_rows r.hooks.items)) };
}

impl HookList {
    pub fn new(alloc: Global) -> HookList
        ensures { result ≡ [] }
    {
        HookList {
            hooks: Vec::new(alloc),
            count: 0,
        }
    }

    pub fn copy(&self, alloc: Global) -> Result<HookList, AllocError>
        ensures { IfOk result (λ r. r ≡ self.now) }
    {
        let hooks = copy_all(alloc, self.hooks.as_slice())?;
        Ok(HookList {
            hooks,
            count: self.count,
        })
    }

    /// Whether no hook has an entry.
    pub fn is_empty(&self) -> bool
        ensures { result ≡ (length (table_rows self.now) == 0) }
    {
        self.count == 0
    }

    /// The hook's entries in groups by priority, each in the order in which they were added.
    pub fn groups_of(&self, hook: &HookName) -> &[Group]
        ensures groups { result.now ≡ groups_named hook.now self.now }
        ensures rows { filter (is_of_hook hook.now) (table_rows self.now)
            ≡ map (row_of hook.now) (entries_of result.now) }
        ensures order { AreGroups result.now }
    {
        hooks::groups_of(self.hooks.as_slice(), hook)
    }

    /// The same of a hook that stood at a place when it was last looked for. Nothing is said of the
    /// place.
    pub fn groups_near(&self, hook: &HookName, place: usize) -> &[Group]
        ensures groups { result.now ≡ groups_named hook.now self.now }
        ensures rows { filter (is_of_hook hook.now) (table_rows self.now)
            ≡ map (row_of hook.now) (entries_of result.now) }
        ensures order { AreGroups result.now }
    {
        hooks::groups_near(self.hooks.as_slice(), hook, place)
    }

    /// Where the hook stands, if it has an entry at all.
    pub fn place_of(&self, hook: &HookName) -> Option<usize>
        ensures { is_some result ≡ has_rows hook.now (table_rows self.now) }
    {
        hooks::place_of(self.hooks.as_slice(), hook)
    }

    pub fn has(&self, hook: &HookName, priority: i64, callback: CallbackId) -> bool
        ensures row { result ≡ list_any (is_row hook.now priority callback) (table_rows self.now) }
        ensures entry { result ≡ has_entry priority callback
            (entries_of (groups_named hook.now self.now)) }
    {
        groups::has(self.groups_of(hook), priority, callback)
    }

    /// Sets `accepted` of the entry that is there already, or adds a new one if there is room;
    /// returns whether it is then there.
    pub fn add(&mut self, alloc: Global, hook: &HookName, e: &Entry) -> Result<bool, AllocError>
        ensures answer { IfOk result (λ b. b
            ≡ adds_row hook.now e.now.callback e.now.priority (table_rows self.old)) }
        ensures rows { OnOk result (table_rows self.new
            ≡ add_row hook.now e.now.callback e.now.priority e.now.accepted
            (table_rows self.old)) }
        ensures others { OnOk result (KeepsOthers hook.now self.old self.new) }
        ensures refused { OnErr result (self.new ≡ self.old) }
        ensures kept { list_any (is_row hook.now e.now.priority e.now.callback)
            (table_rows self.old) ≡ true → IsOk result }
        ensures full { adds_row hook.now e.now.callback e.now.priority (table_rows self.old)
            ≡ false → IsOk result }
    {
        if self.has(hook, e.priority, e.callback) {
            self.accept(hook, e);
            return Ok(true);
        }
        if self.is_full() {
            return Ok(false);
        }
        self.put(alloc, hook, e)?;
        Ok(true)
    }

    fn is_full(&self) -> bool
        ensures { result ≡ not (ltb (length (table_rows self.now)) most_rows) }
    {
        self.count >= MOST_ROWS
    }

    fn accept(&mut self, hook: &HookName, e: &Entry)
        ensures rows { table_rows self.new ≡ map
            (accepted_as hook.now e.now.priority e.now.callback e.now.accepted)
            (table_rows self.old) }
        ensures others { KeepsOthers hook.now self.old self.new }
    {
        hooks::accept(&mut self.hooks, hook, e);
    }

    fn put(&mut self, alloc: Global, hook: &HookName, e: &Entry) -> Result<(), AllocError>
        requires room { length (table_rows self.old) < most_rows }
        requires new { has_entry e.now.priority e.now.callback
            (entries_of (groups_named hook.now self.old)) ≡ false }
        ensures put { OnOk result (table_rows self.new
            ≡ put_row (row_of hook.now e.now) (table_rows self.old)) }
        ensures others { OnOk result (KeepsOthers hook.now self.old self.new) }
        ensures refused { OnErr result (self.new ≡ self.old) }
    {
        hooks::put(alloc, &mut self.hooks, hook, e)?;
        self.count += 1;
        Ok(())
    }

    /// Removes the entry of that callback at that priority.
    pub fn remove(&mut self, hook: &HookName, callback: CallbackId, priority: i64)
        ensures rows { table_rows self.new ≡ remove_row hook.now callback priority
            (table_rows self.old) }
        ensures others { KeepsOthers hook.now self.old self.new }
    {
        self.remove_at(hook, priority, Some(callback));
    }

    /// Removes the hook's entries at a priority, or at every one.
    pub fn remove_all(&mut self, hook: &HookName, priority: Option<i64>)
        ensures rows { table_rows self.new ≡ remove_rows hook.now priority (table_rows self.old) }
        ensures others { KeepsOthers hook.now self.old self.new }
    {
        match priority {
            None => self.remove_hook(hook),
            Some(p) => self.remove_at(hook, p, None),
        }
    }

    fn remove_at(&mut self, hook: &HookName, priority: i64, callback: Option<CallbackId>)
        ensures rows { table_rows self.new ≡ filter
            (λ r. not (is_row_named hook.now (Some priority) callback r)) (table_rows self.old) }
        ensures others { KeepsOthers hook.now self.old self.new }
    {
        let gone = hooks::remove(&mut self.hooks, hook, priority, callback);
        self.count -= gone;
    }

    fn remove_hook(&mut self, hook: &HookName)
        ensures rows { table_rows self.new ≡ filter
            (λ r. not (is_row_named hook.now None None r)) (table_rows self.old) }
        ensures others { KeepsOthers hook.now self.old self.new }
    {
        let gone = hooks::remove_hook(&mut self.hooks, hook);
        self.count -= gone;
    }
}
