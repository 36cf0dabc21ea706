/// How much of a run is told.
#[derive(Clone, Copy, PartialEq, Eq)]
pub enum Telling {
    /// One line, and what doesn't hold.
    Brief,
    /// What came of each part of it.
    Whole,
    /// Each fault as it happens too.
    Steps,
}
