//! The demonstration kit of `press`: the scripts and plugins that it is made of.
//!
//! Its closures are boxed, and a function can't return a box: a caller makes them from these parts
//! and builds the kit.
#![tactic(auto)]

mod growing;
mod kit_parts;
mod names;
mod plugins;
mod scripted;
mod scripts;

pub use growing::{grow, grow_turn};
pub use kit_parts::{DemonstrationParts, parts};
pub use scripted::Scripted;
