//! The name of a start: a random number that is never 0.

use std::fs::File;
use std::io;
use std::io::Read;

// Where the machine gives random bytes.
const RANDOM: &str = "/dev/urandom";

// How many numbers are taken at most: each is 0 once in 2^64.
const MOST_TRIES: u32 = 8;

fn number_from<R: Read>(reader: &mut R) -> io::Result<u64> {
    let mut bytes = [0u8; 8];
    reader.read_exact(&mut bytes)?;
    Ok(u64::from_be_bytes(bytes))
}

/// A name by the machine's randomness.
pub fn start_name(rt: &HostRuntime) -> io::Result<u64> {
    let mut file = File::open(rt, RANDOM)?;
    for _ in 0..MOST_TRIES {
        let name = number_from(&mut file)?;
        if name != 0 {
            return Ok(name);
        }
    }
    Err(io::ErrorKind::InvalidData.into())
}
