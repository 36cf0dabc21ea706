use press_posts::Fire;
use press_text::Items;

/// What a change did: the id of the post concerned, or 0; whether anything changed; what is to be
/// fired, in order.
#[derive(Debug, Drop)]
pub struct Changed {
    pub id: u64,
    pub did: bool,
    pub fires: Items<Fire>,
}
