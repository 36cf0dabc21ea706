//! A kit and the next one: whether one extends the other, so that nothing of what a site was or
//! showed is another.
#![tactic(auto)]

mod difference;
mod extension;
mod laws;
mod next;
mod part;
mod piece;
mod same;
#[cfg(test)]
mod tests;
mod version;

pub use difference::Difference;
pub use extension::extends;
pub use laws::{
    built_kits_are_whole, pages_over_extension, runs_over_extension, values_over_extension,
};
pub use next::{NextFault, NextKit, next_kit};
