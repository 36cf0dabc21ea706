//! The command that fields give.

ghost use Rattle.std.specs.Prelude.{ℕ, List, Ok, IsOk, OnOk, codes};
ghost use Rattle.press_text.specs.Gives.{Gives};
ghost use Rattle.press_fields.specs.Commands as spec;
ghost use Rattle.press_fields.specs.Fields.{Refuses, name_at, text_at};
ghost use Rattle.press_fields.specs.Memory.{GrowsBehind, editor_at, first_of, title_behind_id};

use crate::fault::FieldFault;
use crate::lookup::Lookup;
use crate::reader::Reader;
use press_apply::{Command, CommandKind, Stamped};
use press_posts::Draft;
use press_site::Token;
use press_text::Moment;
use std::alloc::Global;

impl<'f, F: Lookup> Reader<'f, F> {
    #[tactic(auto, unfolding(crate::specs::Commands::draft))]
    fn draft(&self, now: Moment) -> Result<Draft, FieldFault>
        ensures gives { Gives Refuses Ok result (spec.draft now (F.seen self.now.fields.now)) }
        ensures memory { F.lends self.now.fields.now (codes "title") → GrowsBehind result
            (text_at (codes "title") (F.seen self.now.fields.now)) }
    {
        Ok(Draft {
            title: self.text("title")?,
            content: self.text("content")?,
            status: self.status()?,
            date: self.date(now)?,
        })
    }

    #[tactic(auto, unfolding(crate::specs::Commands::update_command, crate::specs::Memory::title_behind_id))]
    fn update(&self, now: Moment) -> Result<Command, FieldFault>
        ensures gives { Gives Refuses Ok result
            (spec.update_command now (F.seen self.now.fields.now)) }
        ensures memory { ((name : List ℕ) → F.lends self.now.fields.now name) → GrowsBehind result
            (title_behind_id (F.seen self.now.fields.now)) }
    {
        Ok(Command::Update {
            id: self.number("id")?,
            draft: self.draft(now)?,
        })
    }

    #[tactic(auto, unfolding(crate::specs::Commands::option_command))]
    fn option_command(&self) -> Result<Command, FieldFault>
        ensures gives { Gives Refuses Ok result (spec.option_command (F.seen self.now.fields.now)) }
        ensures memory { F.lends self.now.fields.now (codes "name") → GrowsBehind result
            (name_at (codes "name") (F.seen self.now.fields.now)) }
    {
        Ok(Command::SetOption {
            name: self.option("name")?,
            value: self.text("value")?,
        })
    }

    #[tactic(auto, unfolding(crate::specs::Commands::command_by, crate::specs::Memory::first_of))]
    fn command(&self, kind: CommandKind, now: Moment) -> Result<Command, FieldFault>
        ensures gives { Gives Refuses Ok result
            (spec.command_by kind now (F.seen self.now.fields.now)) }
        ensures memory { ((name : List ℕ) → F.lends self.now.fields.now name) → GrowsBehind result
            (first_of kind (F.seen self.now.fields.now)) }
    {
        match kind {
            CommandKind::Insert => Ok(Command::Insert(self.draft(now)?)),
            CommandKind::Update => self.update(now),
            CommandKind::Trash => Ok(Command::Trash {
                id: self.number("id")?,
            }),
            CommandKind::Untrash => Ok(Command::Untrash {
                id: self.number("id")?,
            }),
            CommandKind::Delete => Ok(Command::Delete {
                id: self.number("id")?,
            }),
            CommandKind::SetOption => self.option_command(),
            CommandKind::Activate => Ok(Command::Activate {
                plugin: self.name("plugin")?,
            }),
            CommandKind::Deactivate => Ok(Command::Deactivate {
                plugin: self.name("plugin")?,
            }),
            CommandKind::Tick => Ok(Command::Tick),
            CommandKind::Profile => Ok(Command::Profile(self.profile()?)),
        }
    }

    #[tactic(auto, unfolding(crate::specs::Commands::token_of))]
    fn token(&self) -> Result<Token, FieldFault>
        ensures gives { Gives Refuses Ok result (spec.token_of (F.seen self.now.fields.now)) }
        ensures memory { F.lends self.now.fields.now (codes "editor") → GrowsBehind result
            (editor_at (F.seen self.now.fields.now)) }
        ensures editor { OnOk result (IsOk (editor_at (F.seen self.now.fields.now))) }
    {
        Ok(Token {
            editor: self.name("editor")?,
            seq: self.number("seq")?,
        })
    }

    #[tactic(auto, unfolding(crate::specs::Commands::command_of))]
    fn stamped_command(&self) -> Result<Stamped, FieldFault>
        ensures gives { Gives Refuses Ok result (spec.command_of (F.seen self.now.fields.now)) }
        ensures memory { F.lends self.now.fields.now (codes "editor") → GrowsBehind result
            (editor_at (F.seen self.now.fields.now)) }
    {
        let token = self.token()?;
        let at = self.moment("at")?;
        let kind = self.kind()?;
        let command = self.command(kind, at)?;
        Ok(Stamped { token, at, command })
    }
}

/// The command that fields give, with its token and its moment. BadField where one is missing or
/// out of its range; what a site refuses of a command is not looked at here. Memory is first taken
/// for looking up the editor, or for its name.
pub fn read_command<F: Lookup>(alloc: Global, fields: &F) -> Result<Stamped, FieldFault>
    ensures gives { Gives Refuses Ok result (spec.command_of (F.seen fields.now)) }
    ensures memory { F.lends fields.now (codes "editor") → GrowsBehind result
        (editor_at (F.seen fields.now)) }
{
    Reader { alloc, fields }.stamped_command()
}
