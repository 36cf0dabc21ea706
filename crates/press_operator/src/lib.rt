//! What a server says to its operator and takes from editors beside the pages of its site: options,
//! readiness, metrics, and why a form is refused.
#![tactic(auto)]

mod counts;
mod metrics;
mod operator_options;
mod paths;
mod reasons;
mod replies;
mod timed;

pub use counts::{Count, Counts};
pub use metrics::{Among, Metrics, show_metrics};
pub use operator_options::{
    Agreement, OperatorOptions, Sort, Standing, is_of_desk, refuse_for_now, refuse_form,
    refuse_path, refuse_without_memory, show_forgotten, show_ready,
};
pub use paths::{Own, Paths};
pub use reasons::{REFUSED, line_about};
pub use replies::{refuse, refuse_by, tell_desk, tell_reply};
pub use timed::{Saves, Tally, TimedStore};
