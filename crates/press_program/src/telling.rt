//! What a run prints: a body on standard output, a fault on standard error.

ghost use Rattle.std.specs.Prelude.{◌≡◌, ◌⊎◌};
ghost use Rattle.press_text.specs.Streams.{AppendsFront};
ghost use Rattle.press_program.specs.Endings.{usage_line, Finishes};
ghost use Rattle.press_program.specs.KitFiles.{fault_line, kit_line as line_of_kit};

use crate::ending::Ending;
use crate::kitting::{KitSourceFault, kit_line};
use press_text::write_once;
use press_world::ReplayFault;
use std::alloc::Global;
use std::io::Write;

fn line_of(fault: ReplayFault) -> &'static [u8]
    ensures { result.now ≡ fault_line fault }
{
    match fault {
        ReplayFault::NoMemory => b"press: fault 0\n",
        ReplayFault::ReadFault => b"press: fault 40\n",
        ReplayFault::WriteFault => b"press: fault 42\n",
        ReplayFault::BadSchedule => b"press: fault 72\n",
    }
}

/// A line that can't be written is dropped.
pub(crate) fn tell<E: Write>(error: &mut E, line: &[u8])
    ensures { AppendsFront (E.contents error.old) (E.contents error.new) line.now }
{
    let _ = write_once(error, line);
}

/// Prints the usage, for refused arguments.
pub fn refuse<E: Write>(error: &mut E) -> u8
    ensures status { result ≡ 2 }
    ensures told { AppendsFront (E.contents error.old) (E.contents error.new) usage_line }
{
    tell(error, b"press: usage\n");
    2
}

/// Reports a fault: the line `press: fault N` on standard error, and status 2.
pub fn fail<E: Write>(fault: ReplayFault, error: &mut E) -> u8
    ensures status { result ≡ 2 }
    ensures told { AppendsFront (E.contents error.old) (E.contents error.new) (fault_line fault) }
{
    tell(error, line_of(fault));
    2
}

/// Prints a body or a fault. A body that can't be written whole ends as a failed write.
pub(crate) fn finish<W: Write, E: Write>(end: Ending, writer: &mut W, error: &mut E) -> u8
    ensures { Finishes end result (W.contents writer.old) (W.contents writer.new)
        (E.contents error.old) (E.contents error.new) }
{
    match end {
        Ending::Printed { status, body } => match write_once(writer, body.as_bytes()) {
            Ok(()) => status,
            Err(fault) => fail(fault.into(), error),
        },
        Ending::Replayed => 0,
        Ending::Fault(fault) => fail(fault, error),
    }
}

/// Reports a kit file that can't be used.
pub(crate) fn refuse_kit<E: Write>(
    alloc: Global,
    file: &str,
    fault: &KitSourceFault,
    error: &mut E,
) -> u8
    ensures status { result ≡ 2 }
    ensures told { AppendsFront (E.contents error.old) (E.contents error.new)
        (line_of_kit file.now fault.now)
        ⊎ AppendsFront (E.contents error.old) (E.contents error.new)
        (fault_line ReplayFault.NoMemory) }
{
    match kit_line(alloc, file, fault) {
        Ok(line) => tell(error, line.as_bytes()),
        Err(_) => tell(error, line_of(ReplayFault::NoMemory)),
    }
    2
}
