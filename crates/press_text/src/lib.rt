//! Texts, lists and names that contracts see as plain lists, escaping, decimal numbers, moments,
//! and reading and writing bytes.
//!
//! Every other crate uses these types: a contract compares them by what they hold and never by
//! capacity.
#![tactic(auto)]

mod callback_id;
mod class;
mod copied;
mod decimal;
mod escape;
mod every;
mod growth;
mod hook_name;
mod items;
mod moment;
mod name;
mod name_fault;
mod opt_name;
mod short;
mod streams;
mod tag;
mod text;
mod texts;

pub use callback_id::CallbackId;
pub use class::MOST_NAME;
pub use copied::{Copied, copy_all};
pub use decimal::dec_u64;
pub use escape::{esc_html, escape_of};
pub use every::Every;
pub use growth::make_room;
pub use hook_name::HookName;
pub use items::Items;
pub use moment::Moment;
pub use name::Name;
pub use name_fault::NameFault;
pub use opt_name::OptName;
pub use streams::{ReadLimitedFault, WriteFault, read_limited, write_once};
pub use tag::Tag;
pub use text::Text;
pub use texts::Texts;
