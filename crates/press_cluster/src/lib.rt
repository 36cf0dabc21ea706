//! A member of a cluster as a service of the net: its peers, the batches that go between them, and what
//! each heard of the others.
#![tactic(auto)]

mod carrying;
mod clustered;
mod digest;
mod lanes;
mod member_lines;
mod peers;
mod recollection;
mod replies;

pub use clustered::{Clustered, Party};
pub use digest::{behind_file, digest_of};
pub use peers::{Peers, PeersFault};
pub use recollection::Recollection;
