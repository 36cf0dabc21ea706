//! Kit files, play files and site files: callbacks with their scripts, plugins, plays and commands,
//! as their author writes them in JSON.
//!
//! A file gives what the definitions give, or the first place at which it is bad. `file`, `Fields`,
//! `Listed` and `each` read other files in the same way.
#![tactic(auto)]

mod commands;
mod fault;
mod fields;
mod json;
mod kit_parts;
mod listed;
mod loads;
mod op_kind;
mod ops;
mod parts;
mod place;
mod play_file;
mod site_file;

pub use fault::KitFileFault;
pub use fields::{Fields, list, number32};
pub use json::{FILE_LIMIT, parse_file};
pub use kit_parts::{KitParts, Scripted, read_kit_file};
pub use listed::{Listed, each};
pub use place::Place;
pub use play_file::{Play, PlayFile, PlayKind, read_play_file};
pub use site_file::{COMMAND_LIMIT, read_site_file};
