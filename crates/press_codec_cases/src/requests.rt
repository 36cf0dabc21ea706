use crate::piece_reader::{Failure, PieceReader};
use press_http::{Asked, HttpFault, form_command, read_request, route};
use std::alloc::{AllocError, Global};

/// What a request asks; a form is read by itself.
pub fn read_and_route(alloc: Global, reader: &mut PieceReader<'_>) -> Result<Asked, HttpFault> {
    let request = read_request(alloc, reader)?;
    match route(alloc, &request)? {
        Asked::Command(_) => {
            let command = form_command(alloc, request.body.as_slice())?;
            Ok(Asked::Command(command))
        }
        other => Ok(other),
    }
}

/// What a reader's bytes ask, or the status of their fault.
pub fn line(alloc: Global, mut reader: PieceReader<'_>) -> Result<String, AllocError> {
    match read_and_route(alloc, &mut reader) {
        Ok(asked) => format!(in alloc; "{asked:?}"),
        Err(fault) => match fault.status() {
            Some(status) => format!(in alloc; "{status} {fault}"),
            None => format!(in alloc; "closed, {fault}"),
        },
    }
}

/// What the request in the bytes asks, in pieces of 1, 7 and 4,096 bytes, and once more before a
/// read that fails where the bytes end. What differs from the first of these gets a line of its
/// own.
pub fn show_request(rt: &HostRuntime, name: &str, bytes: &[u8]) -> anyhow::Result<()> {
    let first = line(rt.alloc(), PieceReader::new(bytes, 1, Failure::Never))?;
    println!(rt; "{name}: {first}")?;
    for (how, size, failure) in [
        ("in pieces of 7", 7, Failure::Never),
        ("in pieces of 4096", 4096, Failure::Never),
        ("before a read that fails", 4096, Failure::AtEnd),
    ] {
        let other = line(rt.alloc(), PieceReader::new(bytes, size, failure))?;
        if other != first {
            println!(rt; "{name}, {how}: {other}")?;
        }
    }
    Ok(())
}
