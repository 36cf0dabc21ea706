ghost use Rattle.std.specs.Prelude.{◌≡◌, ◌<◌, true, false, is_some, IsOk, IfOk, OnErr, IsTrue, length};
ghost use Rattle.std.specs.List.{list_any};
ghost use Rattle.press_hooks.specs.HookRows.{is_row, add_row, adds_row, remove_row, remove_rows, has_rows, priority_of};
ghost use Rattle.press_hooks.specs.NextEntry.{no_rows, with_rows, is_innermost, run_begun, run_ended, entry_next, run_advanced, innermost_moves_on};

use crate::entry::Entry;
use crate::groups;
use crate::hook_list::HookList;
use crate::open_run::{PlacedRun, mend_all};
use press_text::{CallbackId, HookName};
use std::alloc::{AllocError, Global};
use std::marker::Model;

/// The entries of every hook, and the runs that are open (`WP_Hook`).
///
/// HookList are ordered by hook, then by priority, then by when they were added.
#[derive(Debug)]
pub struct HookTable {
    alloc: Global,
    rows: HookList,
    runs: Vec<PlacedRun>,
}

impl Drop for HookTable {
    fn drop(self) {
        let HookTable {
            alloc: _,
            rows: _,
            runs: _,
        } = self;
    }
}

impl Model for HookTable {
    ghost use Rattle.press_hooks.specs.NextEntry.{Table};
    ghost use Rattle.press_hooks.specs.Hooked.{IsEach, table_rows};
    ghost use Rattle.press_hooks.specs.Placed.{IsInPlace, open_runs_of};

    ghost Value = { Table };

    ghost view = { λ t. record {
      rows = table_rows t.rows;
      open_runs = open_runs_of t.runs.items;
    } };

    ghost invariant = { λ t. IsEach (IsInPlace t.rows) t.runs.items };
}

/// Names a place in the stack of open runs: how many runs were open when this one began.
#[derive(Clone, Copy, Debug)]
pub struct RunId {
    depth: usize,
}

impl Model for RunId {
    ghost use Rattle.std.specs.Prelude.{ℕ};

    ghost Value = { ℕ };

    ghost view = { λ r. r.depth };

    ghost inverse = { λ n. record { depth = n } };
}

impl HookTable {
    /// A table without rows and runs, which takes no memory until something is added.
    pub fn new(alloc: Global) -> HookTable
        ensures { result ≡ no_rows }
    {
        HookTable {
            alloc,
            rows: HookList::new(alloc),
            runs: Vec::new(alloc),
        }
    }

    /// A table with the same rows, and no open run. Without a row this takes no memory.
    pub fn copy(&self) -> Result<HookTable, AllocError>
        ensures same { IfOk result (λ t. t ≡ with_rows self.now.rows no_rows) }
        ensures memory { OnErr result (0 < length self.now.rows) }
    {
        if self.rows.is_empty() {
            return Ok(HookTable::new(self.alloc));
        }
        let rows = self.rows.copy(self.alloc)?;
        let runs = Vec::new(self.alloc);
        Ok(HookTable {
            alloc: self.alloc,
            rows,
            runs,
        })
    }

    /// Adds an entry, or sets `accepted` of the one that is there already, which keeps its place
    /// (`add_filter`). False, and no change, where a new entry would be the 1,025th. Takes memory
    /// only for a new entry.
    pub fn add(
        &mut self,
        hook: &HookName,
        callback: CallbackId,
        priority: i64,
        accepted: u32,
    ) -> Result<bool, AllocError>
        ensures answer { IfOk result (λ b. b ≡ adds_row hook.now callback priority self.old.rows) }
        ensures rows { IfOk result (λ b. self.new
            ≡ with_rows (add_row hook.now callback priority accepted self.old.rows) self.old) }
        ensures refused { OnErr result (self.new ≡ self.old) }
        ensures kept { list_any (is_row hook.now priority callback) self.old.rows ≡ true
            → IsOk result }
        ensures full { adds_row hook.now callback priority self.old.rows ≡ false → IsOk result }
    {
        let entry = Entry {
            priority,
            callback,
            accepted,
        };
        let stands = self.rows.add(self.alloc, hook, &entry)?;
        mend_all(&mut self.runs, hook, &self.rows);
        Ok(stands)
    }

    /// Removes the entry of that callback at that priority; returns whether there was one
    /// (`remove_filter`).
    pub fn remove(&mut self, hook: &HookName, callback: CallbackId, priority: i64) -> bool
        ensures answer { result ≡ list_any (is_row hook.now priority callback) self.old.rows }
        ensures rows { self.new ≡ with_rows (remove_row hook.now callback priority self.old.rows)
            self.old }
    {
        let stood = self.rows.has(hook, priority, callback);
        self.rows.remove(hook, callback, priority);
        mend_all(&mut self.runs, hook, &self.rows);
        stood
    }

    /// Removes the hook's entries at a priority, or at every one (`remove_all_filters`).
    pub fn remove_all(&mut self, hook: &HookName, priority: Option<i64>)
        ensures { self.new ≡ with_rows (remove_rows hook.now priority self.old.rows) self.old }
    {
        self.rows.remove_all(hook, priority);
        mend_all(&mut self.runs, hook, &self.rows);
    }

    /// The least priority at which the callback is on the hook (`has_filter`).
    pub fn has(&self, hook: &HookName, callback: CallbackId) -> Option<i64>
        ensures { result ≡ priority_of hook.now callback self.now.rows }
    {
        groups::priority_of(self.rows.groups_of(hook), callback)
    }

    /// Whether the hook has an entry at all.
    pub fn has_any(&self, hook: &HookName) -> bool
        ensures { result ≡ has_rows hook.now self.now.rows }
    {
        !self.rows.groups_of(hook).is_empty()
    }

    /// Where the hook stands, if it has an entry at all.
    pub fn place_of(&self, hook: &HookName) -> Option<usize>
        ensures { is_some result ≡ has_rows hook.now self.now.rows }
    {
        self.rows.place_of(hook)
    }

    /// Opens a run of the hook, which is the innermost from now on.
    pub fn begin(&mut self, hook: &HookName) -> Result<RunId, AllocError>
        ensures begun { IfOk result (λ id. self.new ≡ run_begun hook.now self.old) }
        ensures named { IfOk result (λ id. id ≡ length self.old.open_runs) }
        ensures refused { OnErr result (self.new ≡ self.old) }
    {
        self.begin_near(hook, 0)
    }

    /// The same of a hook that stands at that place or not: where it does, the run finds its groups
    /// there.
    pub fn begin_near(&mut self, hook: &HookName, place: usize) -> Result<RunId, AllocError>
        ensures begun { IfOk result (λ id. self.new ≡ run_begun hook.now self.old) }
        ensures named { IfOk result (λ id. id ≡ length self.old.open_runs) }
        ensures refused { OnErr result (self.new ≡ self.old) }
    {
        let run = PlacedRun::begin(self.alloc, hook, place)?;
        let depth = self.runs.len();
        self.runs.push(run)?;
        Ok(RunId { depth })
    }

    /// The next entry of the innermost run, or None where no greater priority is left.
    /// Takes memory only where it reaches a new priority.
    pub fn next(&mut self, run: RunId) -> Result<Option<Entry>, AllocError>
        requires { IsTrue (is_innermost run self.old.open_runs) }
        ensures given { IfOk result (λ e. e ≡ entry_next self.old.rows self.old.open_runs) }
        ensures advanced { IfOk result (λ e. self.new ≡ run_advanced self.old) }
        ensures refused { OnErr result (self.new ≡ self.old) }
        ensures memory { OnErr result (IsTrue
            (innermost_moves_on self.old.rows self.old.open_runs)) }
    {
        let open = &mut self.runs[run.depth];
        open.advance(&self.rows)
    }

    /// Closes the innermost run.
    pub fn end(&mut self, run: RunId)
        requires { IsTrue (is_innermost run self.old.open_runs) }
        ensures { self.new ≡ run_ended self.old }
    {
        let _ = run;
        self.runs.pop();
    }

    /// Whether the handle names the run begun last of those still open.
    pub fn is_innermost(&self, run: RunId) -> bool
        ensures { result ≡ is_innermost run self.now.open_runs }
    {
        !self.runs.is_empty() && run.depth == self.runs.len() - 1
    }
}
