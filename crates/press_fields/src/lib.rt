//! The command that fields give, which are looked up by their names: those of a form or of an
//! object in a file.
#![tactic(auto)]

mod command;
mod fault;
mod lookup;
mod reader;

pub use command::read_command;
pub use fault::FieldFault;
pub use lookup::Lookup;
