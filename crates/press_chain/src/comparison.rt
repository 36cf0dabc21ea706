ghost use Rattle.press_chain.specs.Comparing.{Compares};

/// What a comparison of two chains says.
#[derive(Clone, Copy, Debug, PartialEq, Eq)]
pub enum Comparison {
    /// They are of the same values, as far as both are known.
    Same,
    /// They are of other values.
    Other,
    /// There is no digest that both have.
    Unknown,
}

impl Comparison {
    /// Of two digests.
    pub(crate) fn of(own: &[u8; 32], theirs: &[u8; 32]) -> Comparison
        ensures { Compares own.now theirs.now result }
    {
        if own.as_slice() == theirs.as_slice() {
            Comparison::Same
        } else {
            Comparison::Other
        }
    }
}
