//! Shortcodes in a text: the tags, the next shortcode, its attributes, and the scan of a whole text
//! (Shortcode API).
#![tactic(auto)]

mod att;
mod att_key;
mod atts;
mod find;
mod folded_atts;
mod gathering;
mod kept;
mod laws;
mod missing;
mod next;
mod places;
mod scan;
mod scan_step;
mod shortcode;
mod span;
mod tag_row;
mod tag_table;
mod token;

pub use att::Att;
pub use att_key::AttKey;
pub use atts::Atts;
pub use folded_atts::FoldedAtts;
pub use gathering::attributes;
pub use laws::{computes_attributes, computes_first, ends_within, has_parts, one_reading};
pub use next::next_shortcode;
pub use scan::Scan;
pub use scan_step::ScanStep;
pub use shortcode::Shortcode;
pub use span::Span;
pub use tag_table::TagTable;
