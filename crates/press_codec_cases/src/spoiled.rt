use crate::kind::Kind;
use crate::piece_reader::{Failure, PieceReader};
use crate::requests::read_and_route;
use crate::wires::Spelled;
use press_apply::Value;
use press_batch::{BatchFault, decode_batch};
use press_wire::Message;
use std::alloc::{AllocError, Global};

// Before a length in a head.
const LENGTH: &[u8] = b"Content-Length: ";

// Lengths at the two limits of a body and past them, at the greatest numbers of 32 and of 64 bits,
// past them, and one of 100 digits.
const LENGTHS: [&str; 9] = [
    "65535",
    "65536",
    "65537",
    "524288",
    "524289",
    "4294967295",
    "18446744073709551615",
    "18446744073709551616",
    "9999999999999999999999999999999999999999999999999999999999999999999999999999999999999999999999999999",
];

// What bytes are read as.
#[derive(Clone, Copy, PartialEq, Eq, Drop)]
enum Outcome {
    Read,
    Closed,
    /// The number of a fault on the wire, or the status of a reply.
    Fault(u16),
    Batch(BatchFault),
}

// The same outcome of this many in turn.
#[derive(Clone, Copy, Drop)]
struct Run {
    outcome: Outcome,
    count: usize,
}

fn outcome_of_spelling<T: Spelled>(alloc: Global, bytes: &[u8]) -> Outcome {
    match T::read(alloc, bytes) {
        Ok(_) => Outcome::Read,
        Err(fault) => Outcome::Fault(u16::from(fault.number())),
    }
}

fn outcome_of_batch(alloc: Global, bytes: &[u8]) -> Outcome {
    match decode_batch(alloc, bytes) {
        Ok(_) => Outcome::Read,
        Err(fault) => Outcome::Batch(fault),
    }
}

fn outcome_of_request(alloc: Global, bytes: &[u8]) -> Outcome {
    match read_and_route(alloc, &mut PieceReader::new(bytes, 4096, Failure::Never)) {
        Ok(_) => Outcome::Read,
        Err(fault) => fault.status().map_or(Outcome::Closed, Outcome::Fault),
    }
}

impl Outcome {
    fn of(alloc: Global, kind: Kind, bytes: &[u8]) -> Outcome {
        match kind {
            Kind::Command => outcome_of_spelling::<Value>(alloc, bytes),
            Kind::Message => outcome_of_spelling::<Message>(alloc, bytes),
            Kind::Batch => outcome_of_batch(alloc, bytes),
            Kind::Request => outcome_of_request(alloc, bytes),
        }
    }
}

fn count(runs: &mut Vec<Run>, outcome: Outcome) -> Result<(), AllocError> {
    match runs.last_mut() {
        Some(run) if run.outcome == outcome => run.count = run.count.saturating_add(1),
        _ => runs.push(Run { outcome, count: 1 })?,
    }
    Ok(())
}

fn show_runs(rt: &HostRuntime, name: &str, what: &str, runs: Vec<Run>) -> anyhow::Result<()> {
    print!(rt; "{name}, {what}:")?;
    for Run { outcome, count } in runs {
        match outcome {
            Outcome::Read => print!(rt; " {count}xread")?,
            Outcome::Closed => print!(rt; " {count}xclosed")?,
            Outcome::Fault(number) => print!(rt; " {count}x{number}")?,
            Outcome::Batch(fault) => print!(rt; " {count}x({fault})")?,
        }
    }
    println!(rt; "")?;
    Ok(())
}

// The bytes with the greatest number in this many of them.
fn raise_number(
    alloc: Global,
    bytes: &[u8],
    at: usize,
    width: usize,
) -> Result<Vec<u8>, AllocError> {
    let mut changed = Vec::new(alloc);
    for (place, byte) in bytes.iter().enumerate() {
        let is_raised = at <= place && place < at.saturating_add(width);
        changed.push(if is_raised { 255 } else { *byte })?;
    }
    Ok(changed)
}

fn show_raised(
    rt: &HostRuntime,
    name: &str,
    bytes: &[u8],
    (what, width): (&str, usize),
) -> anyhow::Result<()> {
    let alloc = rt.alloc();
    let mut runs = Vec::new(alloc);
    for at in 0..bytes.len().saturating_add(1).saturating_sub(width) {
        let changed = raise_number(alloc, bytes, at, width)?;
        count(&mut runs, Outcome::of(alloc, Kind::of(name), &changed))?;
    }
    show_runs(rt, name, what, runs)
}

// What each shorter front of the bytes is read as, from none of them on.
fn show_cuts(rt: &HostRuntime, name: &str, bytes: &[u8]) -> anyhow::Result<()> {
    let alloc = rt.alloc();
    let mut runs = Vec::new(alloc);
    for end in 0..bytes.len() {
        count(&mut runs, Outcome::of(alloc, Kind::of(name), &bytes[..end]))?;
    }
    show_runs(rt, name, "cut", runs)
}

// What the bytes and each one byte more are read as.
fn show_longer(rt: &HostRuntime, name: &str, bytes: &[u8]) -> anyhow::Result<()> {
    let alloc = rt.alloc();
    let mut runs = Vec::new(alloc);
    let mut longer = Vec::new(alloc);
    for more in 0..=u8::MAX {
        longer.clear();
        longer.extend_from_slice(bytes)?;
        longer.push(more)?;
        count(&mut runs, Outcome::of(alloc, Kind::of(name), &longer))?;
    }
    show_runs(rt, name, "longer", runs)
}

/// How often the bytes give which outcome where they are cut at each place, where each byte comes
/// behind them, and, if they are no request, where each of them, and each four side by side, is at
/// its greatest.
pub fn show_spoiled(rt: &HostRuntime, name: &str, bytes: &[u8]) -> anyhow::Result<()> {
    show_cuts(rt, name, bytes)?;
    show_longer(rt, name, bytes)?;
    if Kind::of(name) != Kind::Request {
        show_raised(rt, name, bytes, ("a byte at 255", 1))?;
        show_raised(rt, name, bytes, ("four at 255", 4))?;
    }
    Ok(())
}

// The bytes with this in place of the digits of each length.
fn of_length(alloc: Global, bytes: &[u8], length: &str) -> Result<Vec<u8>, AllocError> {
    let (mut changed, mut is_length) = (Vec::new(alloc), false);
    for byte in bytes {
        if is_length && byte.is_ascii_digit() {
            continue;
        }
        changed.push(*byte)?;
        is_length = changed.as_slice().ends_with(LENGTH);
        if is_length {
            changed.extend_from_slice(length.as_bytes())?;
        }
    }
    Ok(changed)
}

/// How often a request has which outcome where each length that its head names is one of `LENGTHS`,
/// in their order.
pub fn show_lengths(rt: &HostRuntime, name: &str, bytes: &[u8]) -> anyhow::Result<()> {
    let alloc = rt.alloc();
    let mut runs = Vec::new(alloc);
    for length in LENGTHS {
        let changed = of_length(alloc, bytes, length)?;
        count(&mut runs, Outcome::of(alloc, Kind::of(name), &changed))?;
    }
    show_runs(rt, name, "lengths", runs)
}
