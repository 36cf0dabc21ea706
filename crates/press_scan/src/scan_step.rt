use crate::shortcode::Shortcode;

/// What a step has taken.
#[derive(Clone, Copy, Debug, PartialEq, Eq)]
pub enum ScanStep {
    /// A part of the text went to the output.
    Text,
    /// A callback has to answer the shortcode.
    Call(Shortcode),
    /// The text is done.
    End,
}
