//! A whole site as one value: posts, events, options, active plugins, the profile, and what became
//! of each command.
//!
//! It knows nothing of hooks: a change answers what is to be fired.
#![tactic(auto)]

mod changed;
mod content;
mod effect;
mod fault;
mod open;
mod options;
mod outcomes;
mod plugins;
mod site;
mod stood;
mod token;
mod undo;

pub use changed::Changed;
pub use effect::Effect;
pub use fault::SiteFault;
pub use open::OpenSite;
pub use options::SetOption;
pub use site::Site;
pub use token::{Outcome, Token};
