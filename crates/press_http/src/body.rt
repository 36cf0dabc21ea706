//! Reading a body.

ghost use Rattle.std.specs.Prelude.{◌≡◌, ℕ, ◌+◌, ◌≤◌, List, ◌++◌, length, take, Option, MatchResult};
ghost use Rattle.std.specs.Io.KnownBytes.{Consumes};
ghost use Rattle.press_http.specs.Bodies.{RefusesBody, WantsBody};
ghost use Rattle.press_http.specs.Reads.{Reads, seen_by};
ghost use Rattle.press_http.specs.Requests.{EndsBy};

use crate::fault::HttpFault;
use crate::pieces::Pieces;
use crate::streams::read_some;
use press_text::Items;

/// A body of that many bytes: those after the head, and then what is read.
pub fn read_body<R: Pieces>(
    reader: &mut R,
    rest: Items<u8>,
    count: usize,
) -> Result<Items<u8>, HttpFault>
    ensures { (reads : List (Option (List ℕ)))
        × Reads R.gives (WantsBody count rest) reads reader.old reader.new
        × Consumes (R.left reader.old) (R.left reader.new) (seen_by reads)
        × (length (seen_by reads) ≤ count)
        × MatchResult result
        (λ body. (count ≤ length rest + length (seen_by reads))
        × (body ≡ take count (rest ++ seen_by reads)))
        (λ e. RefusesBody e count rest (seen_by reads) (R.left reader.new) × EndsBy e reads) }
{
    let mut body = rest.into_vec();
    while body.len() < count {
        let room = count - body.len();
        if read_some(reader, &mut body, room)? == 0 {
            return Err(HttpFault::Ended);
        }
    }
    body.truncate(count);
    Ok(Items::from_vec(body))
}
