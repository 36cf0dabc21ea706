//! Places of a list that are written again.

ghost use Rattle.std.specs.Prelude.{◌≡◌, OnErr, OnOk};
ghost use Rattle.press_chain.specs.Chains.{put_at};

use std::alloc::AllocError;

/// Writes at a place of the list, or behind its end where it has no such place.
pub fn put(list: &mut Vec<[u8; 32]>, place: usize, digest: [u8; 32]) -> Result<(), AllocError>
    ensures put { OnOk result (list.new.items ≡ put_at list.old.items place digest) }
    ensures fails { OnErr result (list.new.items ≡ list.old.items) }
{
    if place < list.len() {
        list[place] = digest;
        return Ok(());
    }
    list.push(digest)?;
    Ok(())
}
