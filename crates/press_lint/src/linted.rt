use press_kit::KitParts;

/// What a kit file gives.
#[derive(Debug, Drop)]
pub struct Linted {
    pub parts: KitParts,
    /// A line for each slip.
    pub slips: String,
}
