//! Scripts and their turns, closures kept beside the scripts that they play, and kits of callbacks
//! and plugins.
//!
//! Contracts see a kit as plain data, by name; no public call returns the script of a callback that
//! is in a kit. `script_turn` plays a script that its caller holds.
#![tactic(auto)]

mod built_in;
mod callback;
mod copies;
mod hints;
mod identified;
mod kit;
mod kit_fault;
mod kits;
mod known;
mod named;
mod plugin;
mod same;
mod script;
mod sizes;
mod sorted;
mod sources;
mod stored;
mod tables;
mod turns;
mod unread_text;

pub use built_in::{check_and_publish_future_post, do_shortcode, is_built_in, is_do_shortcode};
pub use callback::Callback;
pub use kit::Kit;
pub use kit_fault::KitFault;
pub use named::Named;
pub use plugin::{Load, Plugin};
pub use script::{Ask, CallIn, Op, Part, Parts, Script, Source, Turn};
pub use stored::{BoxedTurns, Stored};
pub use tables::Tables;
pub use turns::script_turn;
