//! Reading bytes up to a limit and writing them once. No read or write that failed is tried again;
//! a read of nothing is the end.

ghost use Rattle.std.specs.Prelude.{◌≡◌, ◌≢◌, ℕ, ◌+◌, ◌<◌, ◌≤◌, ◌^◌, List, ◌++◌, length, IfOk, IfErr, IfSome, OnOk, OnErr, IsErrOf};
ghost use Rattle.std.specs.Io.KnownBytes.{Appends, Consumes, IsAtEnd};
ghost use Rattle.press_text.specs.Streams.{TakesAtMost, AppendsFront, AppendsProperFront};
ghost use Rattle.press_text.specs.declared.streams.ReadLimitedFault.TheVariants.{NoMemory, TooLong};

use std::alloc::{AllocError, AllocFailed, Global};
use std::io::{Read, Write};
use thiserror::Error;

/// Why the bytes of a reader could not be had.
#[derive(Clone, Copy, Debug, PartialEq, Eq, Error)]
pub enum ReadLimitedFault {
    #[error("no memory")]
    NoMemory,
    #[error("a read failed")]
    ReadFault,
    #[error("more bytes than the limit")]
    TooLong,
}

impl From<AllocError> for ReadLimitedFault {
    ghost from_gives = { λ _ e. e ≡ NoMemory };

    fn from(_e: AllocError) -> ReadLimitedFault {
        ReadLimitedFault::NoMemory
    }
}

impl<T: Drop> From<AllocFailed<T>> for ReadLimitedFault {
    ghost from_gives = { λ _ e. e ≡ NoMemory };

    fn from(_e: AllocFailed<T>) -> ReadLimitedFault {
        ReadLimitedFault::NoMemory
    }
}

/// A write failed, or took nothing.
#[derive(Clone, Copy, Debug, PartialEq, Eq, Error)]
#[error("a write failed")]
pub struct WriteFault;

const PIECE: usize = 4096;

// One read of at most `room` bytes, which are put at the end.
fn read_some<R: Read>(
    reader: &mut R,
    out: &mut Vec<u8>,
    room: usize,
) -> Result<usize, ReadLimitedFault>
    requires { 0 < room }
    ensures took { (bytes : List ℕ)
        × Consumes (R.remaining reader.old) (R.remaining reader.new) bytes
        × (length bytes ≤ room)
        × IfOk result (λ n. (n ≡ length bytes) × (out.new.items ≡ out.old.items ++ bytes)) }
    ensures end { IfOk result (λ n. n ≡ 0 → IsAtEnd (R.remaining reader.new)) }
    ensures faults { IfErr result (λ e. e ≢ TooLong) }
{
    let mut piece = [0u8; PIECE];
    let room = if room < PIECE { room } else { PIECE };
    let buf = &mut piece[..room];
    let Ok(n) = reader.read(buf) else {
        return Err(ReadLimitedFault::ReadFault);
    };
    out.extend_from_slice(&buf[..n])?;
    Ok(n)
}

/// All that a reader has left, if that is at most `limit` bytes, and else `TooLong`.
///
/// One byte past the limit is read to see that there is more. The first read that fails ends it,
/// with `ReadFault`.
pub fn read_limited<R: Read>(
    alloc: Global,
    reader: &mut R,
    limit: usize,
) -> Result<Vec<u8>, ReadLimitedFault>
    requires { limit < 2 ^ 62 }
    ensures took { TakesAtMost (R.remaining reader.old) (R.remaining reader.new) (limit + 1) }
    ensures whole { IfOk result (λ v. IfSome (R.remaining reader.old) (λ input. v.items ≡ input)) }
    ensures end { OnOk result (IsAtEnd (R.remaining reader.new)) }
    ensures fits { IfOk result (λ v. length v.items ≤ limit) }
    ensures over { IsErrOf result ReadLimitedFault.TooLong → IfSome (R.remaining reader.old)
        (λ input. limit < length input) }
{
    let mut out = Vec::new(alloc);
    while out.len() <= limit {
        let room = limit + 1 - out.len();
        if read_some(reader, &mut out, room)? == 0 {
            return Ok(out);
        }
    }
    Err(ReadLimitedFault::TooLong)
}

/// Writes the bytes in order, each of them once.
///
/// A write that takes none of them has failed, and after a failed write there is no other.
pub fn write_once<W: Write>(writer: &mut W, bytes: &[u8]) -> Result<(), WriteFault>
    ensures ok { OnOk result (Appends (W.contents writer.old) (W.contents writer.new) bytes.now) }
    ensures err { OnErr result (AppendsFront (W.contents writer.old) (W.contents writer.new)
        bytes.now) }
    ensures left { OnErr result (AppendsProperFront (W.contents writer.old)
        (W.contents writer.new) bytes.now) }
{
    let mut done = 0;
    while done < bytes.len() {
        match writer.write(&bytes[done..]) {
            Ok(n) if n > 0 => done += n,
            _ => return Err(WriteFault),
        }
    }
    Ok(())
}
