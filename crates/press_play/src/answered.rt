//! What is written for a play file.

ghost use Rattle.std.specs.Prelude.{◌≡◌, ◌+◌, Err, IfSome, IfOk};
ghost use Rattle.press_text.specs.Streams.{TakesAtMost};
ghost use Rattle.press_kit.specs.KitFile.{file_limit};
ghost use Rattle.press_play.specs.declared.answered.Answered.{Answered as Said};
ghost use Rattle.press_play.specs.Answers.{Answers, Tells, Writes, answer_of, bytes_in, or_no_memory};

use crate::fault::PlayFault;
use crate::line::fault_line;
use crate::notes::Notes;
use crate::played::read_and_play;
use press_text::{Text, WriteFault, write_once};
use std::alloc::{AllocError, Global};
use std::io::{Read, Write};

/// Why a file gave no lines, where it gave none, and what is written for it.
#[derive(Debug)]
pub struct Answered {
    pub fault: Option<PlayFault>,
    pub text: Text,
}

impl Drop for Answered {
    fn drop(self) {
        let Answered { fault: _, text: _ } = self;
    }
}

fn answer_fault(alloc: Global, fault: PlayFault) -> Result<Answered, AllocError>
    ensures { IfOk result (λ a. a ≡ answer_of (Err fault)) }
{
    Ok(Answered {
        fault: Some(fault),
        text: Text::from_string(fault_line(alloc, fault)?)?,
    })
}

fn outcome(alloc: Global, lines: Result<String, PlayFault>) -> Result<Answered, AllocError>
    ensures { IfOk result (λ a. a ≡ answer_of (bytes_in lines)) }
{
    match lines {
        Ok(text) => Ok(Answered {
            fault: None,
            text: Text::from_string(text)?,
        }),
        Err(fault) => answer_fault(alloc, fault),
    }
}

// What is written where there is no memory even for the fault's line.
const NO_MEMORY: &[u8] = b"{\"fault\":0}\n";

fn write_said<W: Write>(
    writer: &mut W,
    said: &Result<Answered, AllocError>,
) -> Result<Option<PlayFault>, WriteFault>
    ensures { Writes (or_no_memory said.now)
        (W.contents writer.old) (W.contents writer.new) result }
{
    match said {
        Ok(answered) => {
            write_once(writer, answered.text.as_bytes())?;
            Ok(answered.fault)
        }
        Err(_) => {
            write_once(writer, NO_MEMORY)?;
            Ok(Some(PlayFault::NoMemory))
        }
    }
}

/// Plays the file that a reader has left, and writes its lines, or the line of its fault; returns
/// the fault. Messages to its author go to the notes.
pub fn play_input<R: Read, W: Write>(
    alloc: Global,
    reader: &mut R,
    writer: &mut W,
    notes: &mut Notes,
) -> Result<Option<PlayFault>, WriteFault>
    ensures took { TakesAtMost (R.remaining reader.old) (R.remaining reader.new) (file_limit + 1) }
    ensures writes { IfSome (R.remaining reader.old) (λ input. (a : Said) × Answers input a
        × Writes a (W.contents writer.old) (W.contents writer.new) result) }
{
    let said = outcome(alloc, read_and_play(alloc, reader, notes));
    write_said(writer, &said)
}

/// Writes the line of a fault, and returns it, or out of memory in its place.
pub fn write_fault<W: Write>(
    alloc: Global,
    fault: PlayFault,
    writer: &mut W,
) -> Result<Option<PlayFault>, WriteFault>
    ensures { (a : Said) × Tells fault a
        × Writes a (W.contents writer.old) (W.contents writer.new) result }
{
    let said = answer_fault(alloc, fault);
    write_said(writer, &said)
}
