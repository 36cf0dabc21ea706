//! Commands, read from the beginning of bytes.

ghost use Rattle.std.specs.Prelude.{◌≡◌, ◌<◌, length, Err, IsOk, IsErrOf};
ghost use Rattle.press_text.specs.Gives.{Gives};
ghost use Rattle.press_wire.specs.Fields.{name_at, text_at};
ghost use Rattle.press_wire.specs.Memory.{behind_id, first_at, editor_at, editor_behind};
ghost use Rattle.press_wire.specs.Refusals.{Refuses};
ghost use Rattle.press_wire.specs.Spelling.{longest};
ghost use Rattle.press_wire.specs.Reading.{draft_at, insert_at, update_at, option_at, fields_at, stamped_at, behind_kind, command_at, read_value, read_command};

use crate::fault::WireFault;
use crate::kind::ValueKind;
use crate::reader::Reader;
use crate::write_value::LONGEST;
use press_apply::{Command, CommandKind, Stamped, Value};
use press_posts::Draft;
use press_site::Token;
use std::alloc::Global;

impl<'a> Reader<'a> {
    #[tactic(auto, unfolding(crate::specs::Reading::draft_at))]
    fn draft(&mut self, alloc: Global) -> Result<Draft, WireFault>
        ensures read { Gives Refuses (λ x. Ok (x, self.new)) result (draft_at self.old) }
        ensures memory { result ≡ Err WireFault.NoMemory → IsOk (text_at self.old) }
    {
        Ok(Draft {
            title: self.text(alloc)?,
            content: self.text(alloc)?,
            status: self.status()?,
            date: self.moment()?,
        })
    }

    #[tactic(auto, unfolding(crate::specs::Reading::insert_at))]
    fn insert(&mut self, alloc: Global) -> Result<Command, WireFault>
        ensures read { Gives Refuses (λ x. Ok (x, self.new)) result (insert_at self.old) }
        ensures memory { result ≡ Err WireFault.NoMemory → IsOk (text_at self.old) }
    {
        Ok(Command::Insert(self.draft(alloc)?))
    }

    #[tactic(auto, unfolding(crate::specs::Reading::update_at))]
    fn update(&mut self, alloc: Global) -> Result<Command, WireFault>
        ensures read { Gives Refuses (λ x. Ok (x, self.new)) result (update_at self.old) }
        ensures memory { result ≡ Err WireFault.NoMemory → IsOk (behind_id self.old) }
    {
        Ok(Command::Update {
            id: self.number8()?,
            draft: self.draft(alloc)?,
        })
    }

    #[tactic(auto, unfolding(crate::specs::Reading::option_at))]
    fn option(&mut self, alloc: Global) -> Result<Command, WireFault>
        ensures read { Gives Refuses (λ x. Ok (x, self.new)) result (option_at self.old) }
        ensures memory { result ≡ Err WireFault.NoMemory → IsOk (name_at self.old) }
    {
        let name = self.option_name(alloc)?;
        let value = self.text(alloc)?;
        Ok(Command::SetOption { name, value })
    }

    #[tactic(auto, unfolding(crate::specs::Reading::fields_at, crate::specs::Memory::first_at))]
    fn fields(&mut self, alloc: Global, kind: CommandKind) -> Result<Command, WireFault>
        ensures read { Gives Refuses (λ x. Ok (x, self.new)) result (fields_at kind self.old) }
        ensures memory { result ≡ Err WireFault.NoMemory → IsOk (first_at kind self.old) }
    {
        match kind {
            CommandKind::Insert => self.insert(alloc),
            CommandKind::Update => self.update(alloc),
            CommandKind::Trash => Ok(Command::Trash {
                id: self.number8()?,
            }),
            CommandKind::Untrash => Ok(Command::Untrash {
                id: self.number8()?,
            }),
            CommandKind::Delete => Ok(Command::Delete {
                id: self.number8()?,
            }),
            CommandKind::SetOption => self.option(alloc),
            CommandKind::Activate => Ok(Command::Activate {
                plugin: self.name(alloc)?,
            }),
            CommandKind::Deactivate => Ok(Command::Deactivate {
                plugin: self.name(alloc)?,
            }),
            CommandKind::Tick => Ok(Command::Tick),
            CommandKind::Profile => Ok(Command::Profile(self.byte()?)),
        }
    }

    #[tactic(auto, unfolding(crate::specs::Reading::stamped_at))]
    fn stamped(&mut self, alloc: Global, kind: CommandKind) -> Result<Stamped, WireFault>
        ensures read { Gives Refuses (λ x. Ok (x, self.new)) result (stamped_at kind self.old) }
        ensures memory { result ≡ Err WireFault.NoMemory → IsOk (name_at self.old) }
    {
        let editor = self.name(alloc)?;
        let seq = self.number8()?;
        let at = self.moment()?;
        let command = self.fields(alloc, kind)?;
        Ok(Stamped {
            token: Token { editor, seq },
            at,
            command,
        })
    }

    #[tactic(auto, unfolding(crate::specs::Reading::behind_kind, crate::specs::Memory::editor_behind))]
    fn behind_kind(&mut self, alloc: Global, kind: ValueKind) -> Result<Value, WireFault>
        ensures read { Gives Refuses (λ x. Ok (x, self.new)) result (behind_kind kind self.old) }
        ensures memory { result ≡ Err WireFault.NoMemory → IsOk (editor_behind kind self.old) }
    {
        match kind {
            ValueKind::Noop => Ok(Value::Noop { at: self.moment()? }),
            ValueKind::Cmd(kind) => Ok(Value::Cmd(self.stamped(alloc, kind)?)),
        }
    }

    #[tactic(auto, unfolding(crate::specs::Reading::command_at, crate::specs::Memory::editor_at))]
    fn command(&mut self, alloc: Global) -> Result<Value, WireFault>
        ensures read { Gives Refuses (λ x. Ok (x, self.new)) result (command_at self.old) }
        ensures memory { result ≡ Err WireFault.NoMemory → IsOk (editor_at self.old) }
    {
        match ValueKind::from_number(self.byte()?) {
            Some(kind) => self.behind_kind(alloc, kind),
            None => Err(WireFault::BadKind),
        }
    }
}

/// The value that all of the bytes are.
#[tactic(auto, unfolding(crate::specs::Reading::read_value, crate::specs::Memory::editor_at))]
pub fn whole_value(alloc: Global, bytes: &[u8]) -> Result<Value, WireFault>
    ensures read { Gives Refuses Ok result (read_value bytes.now) }
    ensures memory { result ≡ Err WireFault.NoMemory → IsOk (editor_at bytes.now) }
{
    let mut reader = Reader::new(bytes);
    let value = reader.command(alloc)?;
    if !reader.is_at_end() {
        return Err(WireFault::Extra);
    }
    Ok(value)
}

/// The same, of at most 16,384 bytes.
#[tactic(auto, unfolding(crate::specs::Reading::read_command))]
pub fn short_value(alloc: Global, bytes: &[u8]) -> Result<Value, WireFault>
    ensures read { Gives Refuses Ok result (read_command bytes.now) }
    ensures long { longest < length bytes.now → IsErrOf result WireFault.TooLong }
    ensures memory { result ≡ Err WireFault.NoMemory → IsOk (editor_at bytes.now) }
{
    if bytes.len() > LONGEST {
        return Err(WireFault::TooLong);
    }
    whole_value(alloc, bytes)
}
