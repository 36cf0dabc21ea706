//! Where a callback is looked for first: places by a hash of their names.

ghost use Rattle.std.specs.Prelude.{◌≡◌, Some, IfSome, option_map, slice_get};

use crate::identified::{Identified, is_of_id};
use press_text::CallbackId;
use std::alloc::{AllocError, Global};

// How many slots are looked at for one name.
const TRIES: usize = 8;

// What is in a slot without a place: no callback stands there.
const FREE: usize = usize::MAX;

// An odd number whose bits follow no rule: 2^64 by the golden ratio.
const MIXING: u64 = 0x9E37_79B9_7F4A_7C15;

/// Places of callbacks, each in a slot that the hash of its name gives, or soon behind it. A place
/// is looked at before it is believed, so nothing is said of what stands here.
pub struct Hints {
    slots: Vec<usize>,
    mask: usize,
}

impl Drop for Hints {
    fn drop(self) {
        let Hints { slots: _, mask: _ } = self;
    }
}

impl Hints {
    /// Hints for these, at least four slots for each; for none it takes no memory.
    pub fn new<T: Identified>(alloc: Global, items: &[T]) -> Result<Hints, AllocError> {
        if items.is_empty() {
            return Ok(Hints {
                slots: Vec::new(alloc),
                mask: 0,
            });
        }
        let count = items
            .len()
            .saturating_mul(4)
            .checked_next_power_of_two()
            .ok_or(AllocError)?;
        let slots = vec![in alloc; FREE; count]?;
        let mask = count.wrapping_sub(1);
        let mut hints = Hints { slots, mask };
        for place in 0..items.len() {
            hints.put(hash(items[place].callback_id()), place);
        }
        Ok(hints)
    }

    // Puts a place into the first free slot from that of the hash on. Where all that are looked at
    // are taken, it has no hint.
    fn put(&mut self, first: usize, place: usize) {
        for i in 0..TRIES {
            let at = first.wrapping_add(i) & self.mask;
            if at < self.slots.len() && self.slots[at] == FREE {
                self.slots[at] = place;
                return;
            }
        }
    }

    /// Where a callback of that name stands among these, if a hint leads there.
    pub fn place_of<T: Identified>(&self, items: &[T], id: &CallbackId) -> Option<usize>
        ensures { IfSome result (λ p. option_map T.id (slice_get items.now p) ≡ Some id.now) }
    {
        let first = hash(id);
        for i in 0..TRIES {
            let place = *self
                .slots
                .as_slice()
                .get(first.wrapping_add(i) & self.mask)?;
            if is_of_id(items.get(place)?, id) {
                return Some(place);
            }
        }
        None
    }
}

// The words of a name up to its end, mixed. The first bytes of a word are its highest, which a
// product moves no lower, so the half that is used is the upper one of a last product.
fn hash(id: &CallbackId) -> usize {
    let mut mixed = 0u64;
    for i in 0..4 {
        let word = id.word(i);
        if word == 0 {
            break;
        }
        mixed = (mixed ^ word).wrapping_mul(MIXING);
        mixed ^= mixed >> 32;
    }
    (mixed.wrapping_mul(MIXING) >> 32) as usize
}
