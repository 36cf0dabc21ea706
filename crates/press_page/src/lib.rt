//! Pages of a site: what is asked of it, and the reply.
//!
//! A page comes from a fresh boot of its own and only reads the site.
#![tactic(auto)]

mod desk;
mod earlier;
mod filtered;
mod hooks;
mod json;
mod pages;
mod rendering;
mod reply;
mod targets;
mod template;

pub use desk::{Applied, Desk, MOST_POSTS, show_desk};
pub use earlier::pages_as_before;
pub use json::json_reply;
pub use pages::page;
pub use reply::{ContentKind, Reply, Target};
