use press_hooks::{HookTable, RunId};
use press_text::{CallbackId, HookName, NameFault};
use std::alloc::{AllocError, Global};
use std::test::Fail;

// An edit of a hook that has an entry at each of the priorities 5, 10, 20, 30 and 40, while three
// runs of it have reached 10, 20 and 30.
#[derive(Clone, Copy)]
enum Edit {
    Put(i64),
    TakeOut(i64),
}

// The priorities that the innermost run returns next, two digits each.
fn handed_out(table: &mut HookTable, run: RunId, times: usize) -> Result<i64, AllocError> {
    let mut seen: i64 = 0;
    for _ in 0..times {
        let priority = next_priority(table, run)?;
        seen = seen.wrapping_mul(100).wrapping_add(priority);
    }
    Ok(seen)
}

fn next_priority(table: &mut HookTable, run: RunId) -> Result<i64, AllocError> {
    if !table.is_innermost(run) {
        return Ok(99);
    }
    match table.next(run)? {
        Some(entry) => Ok(entry.priority),
        None => Ok(0),
    }
}

// What a run has left, which then ends.
fn left_of(table: &mut HookTable, run: RunId) -> Result<i64, AllocError> {
    let left = handed_out(table, run, 4)?;
    if table.is_innermost(run) {
        table.end(run);
    }
    Ok(left)
}

// A run that has returned this many entries.
fn run_behind(table: &mut HookTable, hook: &HookName, times: usize) -> Result<RunId, AllocError> {
    let run = table.begin(hook)?;
    handed_out(table, run, times)?;
    Ok(run)
}

// What the innermost run, the one around it and the outermost return after the edit: four
// priorities, 00 where there is none.
fn left_after(alloc: Global, edit: Edit) -> Result<[i64; 3], NameFault> {
    let hook = HookName::new(alloc, "h")?;
    let callback = CallbackId::new("c")?;
    let mut table = HookTable::new(alloc);
    for priority in [5, 10, 20, 30, 40] {
        table.add(&hook, callback, priority, 1)?;
    }
    let outer = run_behind(&mut table, &hook, 2)?;
    let middle = run_behind(&mut table, &hook, 3)?;
    let inner = run_behind(&mut table, &hook, 4)?;
    match edit {
        Edit::Put(priority) => drop(table.add(&hook, callback, priority, 1)?),
        Edit::TakeOut(priority) => drop(table.remove(&hook, callback, priority)),
    }
    let at_30 = left_of(&mut table, inner)?;
    let at_20 = left_of(&mut table, middle)?;
    let at_10 = left_of(&mut table, outer)?;
    Ok([at_30, at_20, at_10])
}

#[test]
fn open_runs_find_their_place_after_an_edit(rt: HostRuntime) -> Result<(), Fail> {
    let edits = [
        (Edit::Put(7), [40_00_00_00, 30_40_00_00, 20_30_40_00]),
        (Edit::Put(15), [40_00_00_00, 30_40_00_00, 15_20_30_40]),
        (Edit::Put(25), [40_00_00_00, 25_30_40_00, 20_25_30_40]),
        (Edit::Put(35), [35_40_00_00, 30_35_40_00, 20_30_35_40]),
        (Edit::TakeOut(5), [40_00_00_00, 30_40_00_00, 20_30_40_00]),
        (Edit::TakeOut(10), [40_00_00_00, 30_40_00_00, 20_30_40_00]),
        (Edit::TakeOut(20), [40_00_00_00, 30_40_00_00, 30_40_00_00]),
        (Edit::TakeOut(30), [40_00_00_00, 40_00_00_00, 20_40_00_00]),
        (Edit::TakeOut(40), [0, 30_00_00_00, 20_30_00_00]),
    ];
    for (edit, left) in edits {
        assert_eq!(rt; left_after(rt.alloc(), edit)?, left);
    }
    Ok(())
}
