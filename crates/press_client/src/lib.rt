//! Who sends commands to the members of a cluster: each in its turn, again where a member is away,
//! until each has an outcome.
#![tactic(auto)]

mod counts;
mod delivery;
mod ending;
mod entry;
mod exporting;
mod log;
mod newsroom;
mod replies;
mod reporting;
mod requests;
mod site_files;
mod sockets;

pub use counts::Counts;
pub use delivery::deliver;
pub use ending::Ending;
pub use entry::LogEntry;
pub use exporting::{Teller, export};
pub use log::{LogFault, Piece};
pub use newsroom::{FormAnswer, Newsroom, OutcomeAnswer};
pub use replies::{piece_of_reply, taken_by, told_by};
pub use reporting::report;
pub use site_files::{Limits, SiteFile, SiteFiles};
pub use sockets::{MembersFault, Sockets};
