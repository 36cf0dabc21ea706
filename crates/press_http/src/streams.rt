//! One read from a connection.

ghost use Rattle.std.specs.Prelude.{◌≡◌, ℕ, ◌<◌, ◌≤◌, List, ◌++◌, length, Option, Some, MatchResult};
ghost use Rattle.std.specs.Io.KnownBytes.{Consumes, IsAtEnd};
ghost use Rattle.press_http.specs.Heads.{Misses};
ghost use Rattle.press_http.specs.Reads.{bytes_of_read};

use crate::fault::HttpFault;
use crate::pieces::Pieces;

const PIECE: usize = 4096;

/// Reads once, at most `room` bytes, and puts them at the end; returns how many came: 0 is the end,
/// and takes no memory.
pub fn read_some<R: Pieces>(
    reader: &mut R,
    out: &mut Vec<u8>,
    room: usize,
) -> Result<usize, HttpFault>
    requires { 0 < room }
    ensures { (read : Option (List ℕ)) × R.gives reader.old read reader.new
        × Consumes (R.left reader.old) (R.left reader.new) (bytes_of_read read)
        × (length (bytes_of_read read) ≤ room)
        × MatchResult result
        (λ n. (read ≡ Some (bytes_of_read read)) × (n ≡ length (bytes_of_read read))
        × (out.new.items ≡ out.old.items ++ bytes_of_read read)
        × (n ≡ 0 → IsAtEnd (R.left reader.new)))
        (λ e. Misses e read) }
{
    let mut piece = [0u8; PIECE];
    let room = if room < PIECE { room } else { PIECE };
    let buf = &mut piece[..room];
    let Ok(n) = reader.piece(buf) else {
        return Err(HttpFault::ReadFault);
    };
    if n > 0 {
        out.extend_from_slice(&buf[..n])?;
    }
    Ok(n)
}
