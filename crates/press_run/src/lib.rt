//! The machine that runs hooks and shortcodes over a kit and a site: callbacks edit the running
//! tables and change the site, runs nest, and three limits hold.
//!
//! What it gives is a big-step meaning over scripts; what it calls are the kit's closures.
#![tactic(auto)]

mod answers;
mod boots;
mod callbacks;
mod counts;
mod earlier;
mod frame;
mod frames;
mod held;
mod job;
mod link;
mod links;
mod machine;
mod out;
mod run_fault;
mod shortcodes;
mod step;
mod texts;
mod waiting;

pub use boots::{boot, boot_actions};
pub use callbacks::Callbacks;
pub use counts::Counts;
pub use earlier::{changes_keep_profile, runs_as_before};
pub use job::Job;
pub use link::{Read, SiteLink};
pub use machine::{Machine, StepAt};
pub use out::{MOST_BYTES, Out};
pub use run_fault::RunFault;
