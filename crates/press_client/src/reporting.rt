//! What is told of commands that were sent.

ghost use Rattle.std.specs.Prelude.{◌≡◌, ◌++◌, IfOk, string_bytes};
ghost use Rattle.press_client.specs.Reporting as spec;
ghost use Rattle.press_client.specs.Reporting.{counts_line, fault_text, line_about, report_of, status_text};

use crate::counts::Counts;
use crate::ending::Ending;
use press_apply::{CommandKind, Stamped};
use press_forms::word;
use std::alloc::{AllocError, Global};

#[tactic(auto, unfolding(crate::specs::Reporting::fault_text))]
fn fault_text(alloc: Global, fault: u8) -> Result<String, AllocError>
    ensures { IfOk result (λ t. string_bytes t ≡ fault_text fault) }
{
    format!(in alloc; "fault {fault}")
}

#[tactic(auto, unfolding(crate::specs::Reporting::status_text))]
fn status_text(alloc: Global, status: u16) -> Result<String, AllocError>
    ensures { IfOk result (λ t. string_bytes t ≡ status_text status) }
{
    format!(in alloc; "status {status}")
}

// What is said of one, with its token.
#[derive(Clone, Copy)]
struct Line<'a> {
    place: usize,
    editor: &'a str,
    seq: u64,
    kind: &'a str,
}

impl Line<'_> {
    #[tactic(auto, unfolding(crate::specs::Reporting::line))]
    fn text(&self, alloc: Global, what: &str) -> Result<String, AllocError>
        ensures { IfOk result (λ t. string_bytes t ≡ spec.line self.now.place
            self.now.editor.now self.now.seq self.now.kind.now what.now) }
    {
        let Line {
            place,
            editor,
            seq,
            kind,
        } = *self;
        format!(in alloc; "commands[{place}] {editor}/{seq} {kind}: {what}\n")
    }
}

// The line about a command at a place.
fn line_about(
    alloc: Global,
    place: usize,
    command: &Stamped,
    what: &str,
) -> Result<String, AllocError>
    ensures { IfOk result (λ t. string_bytes t ≡ line_about place command.now what.now) }
{
    let line = Line {
        place,
        editor: command.token.editor.as_str(),
        seq: command.token.seq,
        kind: word(CommandKind::of(&command.command)),
    };
    line.text(alloc, what)
}

// The line of a command that was not done.
fn line_of(
    alloc: Global,
    place: usize,
    command: &Stamped,
    ending: Ending,
) -> Result<String, AllocError>
    ensures { IfOk result (λ t. string_bytes t ≡ spec.line_of place command.now ending) }
{
    match ending {
        Ending::Done(_) => Ok(String::new(alloc)),
        Ending::Refused(fault) => {
            let what = fault_text(alloc, fault)?;
            line_about(alloc, place, command, &what)
        }
        Ending::NotTaken(status) => {
            let what = status_text(alloc, status)?;
            line_about(alloc, place, command, &what)
        }
    }
}

#[tactic(auto, unfolding(crate::specs::Reporting::counts_line))]
fn counts_line(alloc: Global, counts: Counts) -> Result<String, AllocError>
    ensures { IfOk result (λ t. string_bytes t ≡ counts_line counts) }
{
    let Counts {
        done,
        refused,
        not_taken,
        left,
    } = counts;
    format!(in alloc; "{done} done, {refused} refused, {not_taken} not taken, {left} left\n")
}

// A line for each that was not done.
#[tactic(auto, using(crate::proofs::Lines::lines_on, crate::proofs::Lines::lines_end))]
fn lines_of_endings(
    alloc: Global,
    commands: &[Stamped],
    endings: &[Ending],
) -> Result<String, AllocError>
    ensures { IfOk result (λ t. string_bytes t ≡ spec.lines_from 0 commands.now endings.now) }
{
    let mut text = String::new(alloc);
    for place in 0..endings.len() {
        let (Some(command), Some(ending)) = (commands.get(place), endings.get(place)) else {
            return Ok(text);
        };
        let line = line_of(alloc, place, command, *ending)?;
        text.push_str(&line)?;
    }
    Ok(text)
}

/// A line for each command that was not done, with its place in the file, its token and its kind,
/// and how many ended how.
pub fn report(alloc: Global, commands: &[Stamped], endings: &[Ending]) -> Result<String, AllocError>
    ensures { IfOk result (λ t. string_bytes t ≡ report_of commands.now endings.now) }
{
    let mut text = lines_of_endings(alloc, commands, endings)?;
    let counts = counts_line(alloc, Counts::of(commands.len(), endings))?;
    text.push_str(&counts)?;
    Ok(text)
}
