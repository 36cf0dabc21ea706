//! How many files a server may have open, and how many of them are for connections.

ghost use Rattle.std.specs.Prelude.{◌≡◌, None, drop, option_map, true};
ghost use Rattle.press_server.specs.Files.{behind, behind_name, connections_by, number_from, open_files};

// What a server has open beside connections: 192 requests to six peers at most, 32 each, its
// listener, three polls, the standard streams, its store, and some to spare.
pub const OWN: usize = 226;

// A server that could have fewer connections at once doesn't start.
pub const FEWEST: usize = 64;

// No server has more.
const MOST_CONNECTIONS: usize = 1024;

// What stands there from a place on.
fn from(text: &[u8], place: usize) -> &[u8]
    ensures { result.now ≡ drop place text.now }
{
    match text.get(place..) {
        Some(rest) => rest,
        None => &[],
    }
}

// What follows a name.
fn behind<'t>(name: &[u8], text: &'t [u8]) -> Option<&'t [u8]>
    ensures { option_map (λ rest. rest.now) result ≡ behind name.now text.now }
{
    text.strip_prefix(name)
}

// What follows a name at the beginning of a line, in the first line that begins so.
fn behind_name<'t>(name: &[u8], text: &'t [u8]) -> Option<&'t [u8]>
    ensures { option_map (λ rest. rest.now) result ≡ behind_name name.now true text.now }
{
    let mut begins = true;
    for (place, byte) in text.iter().enumerate() {
        if begins {
            if let Some(rest) = behind(name, from(text, place)) {
                return Some(rest);
            }
        }
        begins = *byte == b'\n';
    }
    None
}

// The number that begins there, behind blanks; the most that there is in place of a larger one.
fn number_in(text: &[u8]) -> Option<u64>
    ensures { result ≡ number_from None text.now }
{
    let mut found: Option<u64> = None;
    for byte in text {
        match (found, *byte) {
            (_, b'0'..=b'9') => {
                let digit = u64::from(*byte - b'0');
                found = Some(found.unwrap_or(0).saturating_mul(10).saturating_add(digit));
            }
            (None, b' ') => {}
            _ => return found,
        }
    }
    found
}

/// How many files may be open, by the text of a process's limits: the first number of the line that
/// begins `Max open files`, which is the limit that holds. None where it says none, as that there
/// is no limit.
pub fn open_files(limits: &[u8]) -> Option<u64>
    ensures { result ≡ open_files limits.now }
{
    number_in(behind_name(b"Max open files", limits)?)
}

/// How many connections may be open at once, of so many files: what the server itself needs is kept
/// back. None where too few are left.
pub fn most_connections(files: Option<u64>) -> Option<usize>
    ensures { result ≡ connections_by files }
{
    let Some(files) = files else {
        return Some(MOST_CONNECTIONS);
    };
    let left = usize::try_from(files)
        .unwrap_or(usize::MAX)
        .saturating_sub(OWN);
    if left < FEWEST {
        return None;
    }
    Some(left.min(MOST_CONNECTIONS))
}
