//! The proposer of Paxos Made Simple: the ballots of a node, and the commands that wait for one.
#![tactic(auto)]

mod fault;
mod laws;
mod phase;
mod promises;
mod proposer;
mod queue;

pub use fault::ProposerFault;
pub use laws::best_is_the_greatest_reported;
pub use promises::Promise;
pub use proposer::Proposer;
