ghost use Rattle.std.specs.Prelude.{◌≡◌, [], true, map, IfOk, OnOk, OnErr, IsTrue};
ghost use Rattle.press_hooks.specs.NextEntry.{new_run, refilled_run, next_entry, next_run, first_of, without_first, is_done, moves_on};
ghost use Rattle.press_hooks.specs.Hooked.{group_entries, table_rows};
ghost use Rattle.press_hooks.specs.Placed.{at_group, without_next_entry, IsInPlace, mend_cursor};

use crate::entry::Entry;
use crate::group::Group;
use crate::group_entry::GroupEntry;
use crate::groups::count_up_to;
use crate::hook_list::HookList;
use press_text::HookName;
use std::alloc::{AllocError, Global};
use std::marker::Model;

/// Entries that a run has still to return.
#[derive(Debug)]
pub struct Rest {
    priority: i64,
    members: Vec<GroupEntry>,
    given: usize,
}

impl Drop for Rest {
    fn drop(self) {
        let Rest {
            priority: _,
            members: _,
            given: _,
        } = self;
    }
}

impl Model for Rest {
    ghost use Rattle.std.specs.Prelude.{◌≤◌, List, map, drop, length};
    ghost use Rattle.press_hooks.specs.declared.entry.Entry.{Entry};
    ghost use Rattle.press_hooks.specs.GroupEntries.{entry_at};

    ghost Value = { List Entry };

    ghost view = { λ r. map (entry_at r.priority) (drop r.given r.members.items) };

    ghost invariant = { λ r. r.given ≤ length r.members.items };
}

/// An open run of a hook: the priority last reached, and what is left of the entries that were
/// there then.
#[derive(Debug)]
pub struct OpenRun {
    pub hook: HookName,
    pub reached: Option<i64>,
    pub rest: Rest,
}

impl Drop for OpenRun {
    fn drop(self) {
        let OpenRun {
            hook: _,
            reached: _,
            rest: _,
        } = self;
    }
}

impl OpenRun {
    /// A run that has reached no priority yet.
    pub fn begin(alloc: Global, hook: &HookName) -> Result<OpenRun, AllocError>
        ensures { IfOk result (λ r. r ≡ new_run hook.now) }
    {
        Ok(OpenRun {
            hook: hook.copy(alloc)?,
            reached: None,
            rest: Rest::new(alloc),
        })
    }

    /// Whether all entries of the priority reached were returned.
    pub(crate) fn is_done(&self) -> bool
        ensures { result ≡ is_done self.now.rest }
    {
        self.rest.is_empty()
    }

    /// Gets to the priority of a group, whose entries it takes as they are.
    pub(crate) fn reach(&mut self, group: &Group) -> Result<(), AllocError>
        requires { is_done self.old.rest ≡ true }
        ensures reached { OnOk result (self.new ≡ at_group group.now self.old) }
        ensures refused { OnErr result (self.new ≡ self.old) }
    {
        self.rest.refill(group)?;
        self.reached = Some(group.priority());
        Ok(())
    }

    /// Removes the first entry of the rest.
    pub(crate) fn take_next(&mut self) -> Option<Entry>
        ensures given { result ≡ first_of self.old.rest }
        ensures after { self.new ≡ without_next_entry self.old }
    {
        self.rest.take_first()
    }
}

impl Rest {
    fn new(alloc: Global) -> Rest
        ensures { result ≡ [] }
    {
        Rest {
            priority: 0,
            members: Vec::new(alloc),
            given: 0,
        }
    }

    fn is_empty(&self) -> bool
        ensures { result ≡ is_done self.now }
    {
        self.given == self.members.len()
    }

    // Takes over a group's entries, in the memory of those that were returned.
    fn refill(&mut self, group: &Group) -> Result<(), AllocError>
        requires { is_done self.old ≡ true }
        ensures filled { OnOk result (self.new ≡ group_entries group.now) }
        ensures refused { OnErr result (self.new ≡ self.old) }
    {
        self.priority = group.priority();
        self.members.clear();
        self.given = 0;
        group.copy_to(&mut self.members)
    }

    fn take_first(&mut self) -> Option<Entry>
        ensures given { result ≡ first_of self.old }
        ensures after { self.new ≡ without_first self.old }
    {
        if self.given == self.members.len() {
            return None;
        }
        let GroupEntry { callback, accepted } = self.members[self.given];
        self.given += 1;
        Some(Entry {
            priority: self.priority,
            callback,
            accepted,
        })
    }
}

/// An open run, and its cursor: how many groups of its hook have priorities not greater than the
/// one reached.
#[derive(Debug)]
pub struct PlacedRun {
    pub run: OpenRun,
    pub cursor: usize,
    // Where its hook stood when the run began. That is looked at before it is believed, so nothing
    // is said of it.
    place: usize,
}

impl Drop for PlacedRun {
    fn drop(self) {
        let PlacedRun {
            run: _,
            cursor: _,
            place: _,
        } = self;
    }
}

impl PlacedRun {
    /// A run that has reached no priority yet, of a hook that stands at that place or not.
    pub fn begin(alloc: Global, hook: &HookName, place: usize) -> Result<PlacedRun, AllocError>
        ensures run { IfOk result (λ r. r.run ≡ new_run hook.now) }
        ensures cursor { IfOk result (λ r. r.cursor ≡ 0) }
    {
        let run = OpenRun::begin(alloc, hook)?;
        Ok(PlacedRun {
            run,
            cursor: 0,
            place,
        })
    }

    /// Takes the next entry, from the group at the cursor where the last group is done.
    pub fn advance(&mut self, rows: &HookList) -> Result<Option<Entry>, AllocError>
        requires { IsInPlace rows.now self.old }
        ensures given { IfOk result (λ e. e ≡ next_entry (table_rows rows.now) self.old.run) }
        ensures after { IfOk result (λ e. self.new.run
            ≡ next_run (table_rows rows.now) self.old.run) }
        ensures place { IsInPlace rows.now self.new }
        ensures refused { OnErr result (self.new ≡ self.old) }
        ensures memory { OnErr result (IsTrue (moves_on (table_rows rows.now) self.old.run)) }
    {
        self.fill(rows)?;
        Ok(self.run.take_next())
    }

    // Gets to the next group where the last one is done.
    fn fill(&mut self, rows: &HookList) -> Result<(), AllocError>
        requires { IsInPlace rows.now self.old }
        ensures filled { OnOk result (self.new.run
            ≡ refilled_run (table_rows rows.now) self.old.run) }
        ensures place { IsInPlace rows.now self.new }
        ensures refused { OnErr result (self.new ≡ self.old) }
        ensures memory { OnErr result (IsTrue (moves_on (table_rows rows.now) self.old.run)) }
    {
        if self.run.is_done() {
            return self.move_on(rows);
        }
        Ok(())
    }

    fn move_on(&mut self, rows: &HookList) -> Result<(), AllocError>
        requires done { is_done self.old.run.rest ≡ true }
        requires place { IsInPlace rows.now self.old }
        ensures moved { OnOk result (self.new.run
            ≡ refilled_run (table_rows rows.now) self.old.run) }
        ensures place { IsInPlace rows.now self.new }
        ensures refused { OnErr result (self.new ≡ self.old) }
        ensures memory { OnErr result (IsTrue (moves_on (table_rows rows.now) self.old.run)) }
    {
        let groups = rows.groups_near(&self.run.hook, self.place);
        if self.cursor < groups.len() {
            self.run.reach(&groups[self.cursor])?;
            self.cursor += 1;
        }
        Ok(())
    }

    // Counts the cursor of a run of that hook anew.
    fn mend(&mut self, hook: &HookName, rows: &HookList)
        ensures { self.new ≡ mend_cursor hook.now rows.now self.old }
    {
        if self.run.hook.is(hook) {
            self.cursor = count_up_to(rows.groups_of(&self.run.hook), self.run.reached);
        }
    }
}

/// Counts the cursors of the hook's runs anew after an edit of its rows.
pub(crate) fn mend_all(runs: &mut Vec<PlacedRun>, hook: &HookName, rows: &HookList)
    ensures { runs.new.items ≡ map (mend_cursor hook.now rows.now) runs.old.items }
{
    for run in runs.iter_mut() {
        run.mend(hook, rows);
    }
}
