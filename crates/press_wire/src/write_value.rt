//! Values, appended to bytes, and how long they are.
#![tactic(auto, using(crate::proofs::Lengths::regroup))]

ghost use Rattle.std.specs.Prelude.{◌≡◌, ◌≤◌, ◌+◌, ◌++◌, length, OnOk};
ghost use Rattle.press_apply.specs.declared.value.Value.TheVariants.{Cmd};
ghost use Rattle.press_wire.specs.Held.{HasShortTexts, IsShort};
ghost use Rattle.press_wire.specs.Spelling as spell;
ghost use Rattle.press_wire.specs.Spelling.{longest};
ghost use Rattle.press_wire.specs.Measures.{Measures, MeasuresWell};

use crate::status::status_number;
use crate::writer::Writer;
use press_apply::{Command, CommandKind, Stamped, Value};
use press_posts::Draft;
use std::alloc::AllocError;

/// The most bytes of a value.
pub const LONGEST: usize = 16_384;

impl Writer {
    #[tactic(auto, using(crate::proofs::Lengths::regroup), unfolding(crate::specs::Spelling::draft))]
    fn draft(&mut self, draft: &Draft) -> Result<(), AllocError>
        requires { (length draft.now.title ≤ longest) × (length draft.now.content ≤ longest) }
        ensures { OnOk result (self.new ≡ self.old ++ spell.draft draft.now) }
    {
        self.text(&draft.title)?;
        self.text(&draft.content)?;
        self.byte(status_number(draft.status))?;
        self.moment(draft.date)
    }

    #[tactic(auto, using(crate::proofs::Lengths::regroup), unfolding(crate::specs::Spelling::fields))]
    fn fields(&mut self, command: &Command) -> Result<(), AllocError>
        requires { HasShortTexts command.now }
        ensures { OnOk result (self.new ≡ self.old ++ spell.fields command.now) }
    {
        match command {
            Command::Insert(draft) => self.draft(draft),
            Command::Update { id, draft } => {
                self.number8(*id)?;
                self.draft(draft)
            }
            Command::Trash { id } => self.number8(*id),
            Command::Untrash { id } => self.number8(*id),
            Command::Delete { id } => self.number8(*id),
            Command::SetOption { name, value } => {
                self.option_name(name)?;
                self.text(value)
            }
            Command::Activate { plugin } => self.name(plugin),
            Command::Deactivate { plugin } => self.name(plugin),
            Command::Tick => Ok(()),
            Command::Profile(to) => self.byte(*to),
        }
    }

    #[tactic(auto, using(crate::proofs::Lengths::regroup), unfolding(crate::specs::Spelling::stamped))]
    fn stamped(&mut self, stamped: &Stamped) -> Result<(), AllocError>
        requires { HasShortTexts stamped.now.command }
        ensures { OnOk result (self.new ≡ self.old ++ spell.stamped stamped.now) }
    {
        self.name(&stamped.token.editor)?;
        self.number8(stamped.token.seq)?;
        self.moment(stamped.at)?;
        self.fields(&stamped.command)
    }

    #[tactic(auto, using(crate::proofs::Lengths::regroup), unfolding(crate::specs::Spelling::spelled_command))]
    pub fn value(&mut self, value: &Value) -> Result<(), AllocError>
        requires { IsShort value.now }
        ensures { OnOk result (self.new ≡ self.old ++ spell.spelled_command value.now) }
    {
        match value {
            Value::Noop { at } => {
                self.byte(0)?;
                self.moment(*at)
            }
            Value::Cmd(stamped) => {
                self.byte(CommandKind::of(&stamped.command).number())?;
                self.stamped(stamped)
            }
        }
    }
}

fn draft_len(draft: &Draft) -> Option<usize>
    ensures { MeasuresWell 40000 result (17 + length draft.now.title
        + length draft.now.content) }
{
    if draft.title.len() > LONGEST || draft.content.len() > LONGEST {
        return None;
    }
    Some(17 + draft.title.len() + draft.content.len())
}

#[tactic(auto, using(crate::proofs::Lengths::length_fields))]
fn fields_len(command: &Command) -> Option<usize>
    ensures { MeasuresWell 50000 result (length (spell.fields command.now)) }
{
    match command {
        Command::Insert(draft) => draft_len(draft),
        Command::Update { draft, .. } => match draft_len(draft) {
            Some(len) => Some(8 + len),
            None => None,
        },
        Command::Trash { .. } => Some(8),
        Command::Untrash { .. } => Some(8),
        Command::Delete { .. } => Some(8),
        Command::SetOption { name, value } => {
            if value.len() > LONGEST {
                return None;
            }
            Some(5 + name.as_str().len() + value.len())
        }
        Command::Activate { plugin } => Some(1 + plugin.as_str().len()),
        Command::Deactivate { plugin } => Some(1 + plugin.as_str().len()),
        Command::Tick => Some(0),
        Command::Profile(_) => Some(1),
    }
}

/// How many bytes spell the command; None if they are too many.
#[tactic(auto, using(crate::proofs::Lengths::length_spelled))]
pub fn stamped_len(stamped: &Stamped) -> Option<usize>
    ensures { Measures result (length (spell.spelled_command (Cmd stamped.now))) }
{
    let len = 18 + stamped.token.editor.as_str().len() + fields_len(&stamped.command)?;
    if len > LONGEST {
        return None;
    }
    Some(len)
}

/// How many bytes spell the value; None if they are too many.
#[tactic(auto, using(crate::proofs::Lengths::length_spelled))]
pub fn spelled_len(value: &Value) -> Option<usize>
    ensures { Measures result (length (spell.spelled_command value.now)) }
{
    match value {
        Value::Noop { .. } => Some(9),
        Value::Cmd(stamped) => stamped_len(stamped),
    }
}
