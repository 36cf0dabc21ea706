//! Commands to a site, each with its token and its moment, and the values that are applied to a
//! site one after another.
#![tactic(auto)]

mod actions;
mod applies;
mod checks;
mod command;
mod earlier;
mod edit;
mod fault;
mod kind;
mod laws;
mod same;
mod value;
mod work;

pub use applies::apply;
pub use command::{Command, Stamped};
pub use earlier::folds_as_before;
pub use fault::ApplyFault;
pub use kind::CommandKind;
pub use laws::{same_values_are_equal, token_answers_once};
pub use value::Value;
