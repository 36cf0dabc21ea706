//! Messages to the author of a kit: why it is no kit, with the place and the name of what is wrong
//! there, and what in it is surely a slip.
//!
//! A kit file is refused only where a kit can't be built of it, with the same number, and is never
//! taken there; a slip refuses nothing.
#![tactic(auto)]

mod accepted;
mod active;
mod bad;
mod fault;
mod files;
mod hooks;
mod installed;
mod joining;
mod joint;
mod keys;
mod known;
mod linted;
mod linting;
mod loads;
mod mistake;
mod mistakes;
mod name_set;
mod pages;
mod reads;
mod run;
mod slipping;
mod spots;
mod telling;
mod told;
mod turning;
mod unfit;
mod unknown;
mod wanted;

pub use active::active_slips;
pub use bad::{bad_line, bad_play_line, no_json};
pub use fault::LintFault;
pub use files::{FilesFault, lint_files, one_file_is_told_as_alone};
pub use joint::{Joint, NamedFile, Share, read_files};
pub use linted::Linted;
pub use linting::{lint, refusals_are_mistakes};
pub use mistake::{Mistake, Sort, Why};
pub use mistakes::mistake_in;
pub use slipping::slips;
