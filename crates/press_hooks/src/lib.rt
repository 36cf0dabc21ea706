//! The hook table: which callbacks are on a hook and in which order, and the runs that are open.
//!
//! A run takes the entries of one priority as they are when it gets there; no edit changes what it
//! has taken.
#![tactic(auto)]

mod entry;
mod group;
mod group_entry;
mod groups;
mod hook;
mod hook_list;
mod hooks;
mod key;
mod laws;
mod open_run;
mod row;
mod table;

pub use entry::Entry;
pub use laws::numbered_rows_agree;
pub use open_run::{OpenRun, Rest};
pub use row::Row;
pub use table::{HookTable, RunId};
