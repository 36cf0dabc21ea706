//! The digest of the values that a member has applied, by which members that have applied other
//! values are seen.
#![tactic(auto)]

mod chain;
mod comparison;
mod feed;
mod put;
mod tip;

pub use chain::Chain;
pub use comparison::Comparison;
pub use tip::Tip;
