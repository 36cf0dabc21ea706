//! The kinds of commands.

ghost use Rattle.std.specs.Prelude.{◌≡◌};
ghost use Rattle.press_apply.specs.Kinds.{command_kind_of, command_number, kind_named, kind_of_command};

use crate::command::Command;

/// The kind of a command.
#[derive(Clone, Copy, Debug, PartialEq, Eq)]
pub enum CommandKind {
    Insert,
    Update,
    Trash,
    Untrash,
    Delete,
    SetOption,
    Activate,
    Deactivate,
    Tick,
    Profile,
}

impl CommandKind {
    /// The kind of a command, whatever it carries.
    pub fn of(command: &Command) -> CommandKind
        ensures { result ≡ kind_of_command command.now }
    {
        match command {
            Command::Insert(_) => CommandKind::Insert,
            Command::Update { .. } => CommandKind::Update,
            Command::Trash { .. } => CommandKind::Trash,
            Command::Untrash { .. } => CommandKind::Untrash,
            Command::Delete { .. } => CommandKind::Delete,
            Command::SetOption { .. } => CommandKind::SetOption,
            Command::Activate { .. } => CommandKind::Activate,
            Command::Deactivate { .. } => CommandKind::Deactivate,
            Command::Tick => CommandKind::Tick,
            Command::Profile(_) => CommandKind::Profile,
        }
    }

    /// The kind of that word.
    pub fn from_word(word: &str) -> Option<CommandKind>
        ensures { result ≡ kind_named word.now }
    {
        if word == "insert" {
            Some(CommandKind::Insert)
        } else if word == "update" {
            Some(CommandKind::Update)
        } else if word == "trash" {
            Some(CommandKind::Trash)
        } else if word == "untrash" {
            Some(CommandKind::Untrash)
        } else if word == "delete" {
            Some(CommandKind::Delete)
        } else if word == "option" {
            Some(CommandKind::SetOption)
        } else if word == "activate" {
            Some(CommandKind::Activate)
        } else if word == "deactivate" {
            Some(CommandKind::Deactivate)
        } else if word == "tick" {
            Some(CommandKind::Tick)
        } else if word == "profile" {
            Some(CommandKind::Profile)
        } else {
            None
        }
    }

    pub fn from_number(number: u8) -> Option<CommandKind>
        ensures { result ≡ command_kind_of number }
    {
        match number {
            1 => Some(CommandKind::Insert),
            2 => Some(CommandKind::Update),
            3 => Some(CommandKind::Trash),
            4 => Some(CommandKind::Untrash),
            5 => Some(CommandKind::Delete),
            6 => Some(CommandKind::SetOption),
            7 => Some(CommandKind::Activate),
            8 => Some(CommandKind::Deactivate),
            9 => Some(CommandKind::Tick),
            10 => Some(CommandKind::Profile),
            _ => None,
        }
    }

    pub fn number(self) -> u8
        ensures { result ≡ command_number self }
    {
        match self {
            CommandKind::Insert => 1,
            CommandKind::Update => 2,
            CommandKind::Trash => 3,
            CommandKind::Untrash => 4,
            CommandKind::Delete => 5,
            CommandKind::SetOption => 6,
            CommandKind::Activate => 7,
            CommandKind::Deactivate => 8,
            CommandKind::Tick => 9,
            CommandKind::Profile => 10,
        }
    }
}
