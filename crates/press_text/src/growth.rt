//! How a text grows.

ghost use Rattle.std.specs.Prelude.{◌≡◌, ◌<◌, string_bytes, OnErr};

use std::alloc::AllocError;

// From so many bytes on a text is long.
const LONG: usize = 65_536;

/// Makes room for so many bytes more in a long text: an eighth of what it has, or as many as they
/// are. A text under 65,536 bytes is left to itself, and doubles. So appending stays linear, and
/// texts that wait hold little but their bytes.
pub fn make_room(text: &mut String, more: usize) -> Result<(), AllocError>
    ensures bytes { string_bytes text.new ≡ string_bytes text.old }
    ensures memory { OnErr result (0 < more) }
{
    let free = text.capacity().saturating_sub(text.len());
    if more <= free || text.len() < LONG {
        return Ok(());
    }
    text.reserve_exact(more.max(text.len() / 8))
}
