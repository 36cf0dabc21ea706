//! What fails as planned, for the programs and tests of what stands on it: a store in memory over a
//! device, and closures that run out of memory.
#![tactic(auto)]

mod failing_store;
mod fuse;

pub use failing_store::{Device, FailingStore, Fate};
pub use fuse::Fuse;
