//! Commands, and the stamp that each carries.

ghost use Rattle.std.specs.Prelude.{◌≡◌, true, IfOk, OnErr};
ghost use Rattle.press_apply.specs.Copies.{has_text};

use press_posts::Draft;
use press_site::Token;
use press_text::{Copied, Moment, Name, OptName, Text};
use std::alloc::{AllocError, Global};

/// What is to be done to a site.
#[derive(Debug, Drop)]
pub enum Command {
    Insert(Draft),
    Update { id: u64, draft: Draft },
    Trash { id: u64 },
    Untrash { id: u64 },
    Delete { id: u64 },
    SetOption { name: OptName, value: Text },
    Activate { plugin: Name },
    Deactivate { plugin: Name },
    /// Does what is due at the site's moment, which is never before the command's.
    Tick,
    /// Switches the site to that profile.
    Profile(u8),
}

/// A command with its token and its moment.
#[derive(Debug)]
pub struct Stamped {
    pub token: Token,
    pub at: Moment,
    pub command: Command,
}

impl Drop for Stamped {
    fn drop(self) {
        let Stamped {
            token: _,
            at: _,
            command: _,
        } = self;
    }
}

impl Command {
    /// A copy of the command. Of one that has no text this takes no memory.
    pub fn copy(&self, alloc: Global) -> Result<Command, AllocError>
        ensures same { IfOk result (λ c. c ≡ self.now) }
        ensures memory { OnErr result (has_text self.now ≡ true) }
    {
        match self {
            Command::Insert(draft) => Ok(Command::Insert(draft.copy(alloc)?)),
            Command::Update { id, draft } => Ok(Command::Update {
                id: *id,
                draft: draft.copy(alloc)?,
            }),
            Command::Trash { id } => Ok(Command::Trash { id: *id }),
            Command::Untrash { id } => Ok(Command::Untrash { id: *id }),
            Command::Delete { id } => Ok(Command::Delete { id: *id }),
            Command::SetOption { name, value } => Ok(Command::SetOption {
                name: name.copy(alloc)?,
                value: value.copy(alloc)?,
            }),
            Command::Activate { plugin } => Ok(Command::Activate {
                plugin: plugin.copy(alloc)?,
            }),
            Command::Deactivate { plugin } => Ok(Command::Deactivate {
                plugin: plugin.copy(alloc)?,
            }),
            Command::Tick => Ok(Command::Tick),
            Command::Profile(to) => Ok(Command::Profile(*to)),
        }
    }
}

impl Stamped {
    /// A copy of the command, with its token and moment.
    pub fn copy(&self, alloc: Global) -> Result<Stamped, AllocError>
        ensures { IfOk result (λ s. s ≡ self.now) }
    {
        Ok(Stamped {
            token: self.token.copy_in(alloc)?,
            at: self.at,
            command: self.command.copy(alloc)?,
        })
    }
}

impl Copied for Command {
    fn copy_in(&self, alloc: Global) -> Result<Command, AllocError> {
        self.copy(alloc)
    }
}

impl Copied for Stamped {
    fn copy_in(&self, alloc: Global) -> Result<Stamped, AllocError> {
        self.copy(alloc)
    }
}
