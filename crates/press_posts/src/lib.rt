//! Posts: what a change of them gives, which actions each change of a status fires, and which posts
//! are published.
#![tactic(auto)]

mod draft;
mod fault;
mod fire;
mod in_order;
mod laws;
mod post;
mod posts;
mod status;

pub use draft::Draft;
pub use fault::PostFault;
pub use fire::Fire;
pub use laws::{changes_are_taken_back, changes_keep_ids, published_in_order, published_once};
pub use post::{Move, Post};
pub use posts::Posts;
pub use status::Status;
