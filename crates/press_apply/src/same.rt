//! Whether two commands are the same.

ghost use Rattle.std.specs.Prelude.{◌≡◌};
ghost use Rattle.press_apply.specs.Same.{date_in, first_in, id_or_profile_in, is_same_command, is_same_stamped, is_same_value, second_in, status_in};

use crate::command::{Command, Stamped};
use crate::kind::CommandKind;
use crate::value::Value;

impl Command {
    // 0 where it has neither.
    fn id_or_profile(&self) -> u64
        ensures { result ≡ id_or_profile_in self.now }
    {
        match self {
            Command::Update { id, .. }
            | Command::Trash { id }
            | Command::Untrash { id }
            | Command::Delete { id } => *id,
            Command::Profile(to) => *to as u64,
            Command::Insert(_)
            | Command::SetOption { .. }
            | Command::Activate { .. }
            | Command::Deactivate { .. }
            | Command::Tick => 0,
        }
    }

    fn date(&self) -> u64
        ensures { result ≡ date_in self.now }
    {
        match self {
            Command::Insert(draft) | Command::Update { draft, .. } => draft.date.seconds(),
            Command::Trash { .. }
            | Command::Untrash { .. }
            | Command::Delete { .. }
            | Command::SetOption { .. }
            | Command::Activate { .. }
            | Command::Deactivate { .. }
            | Command::Tick
            | Command::Profile(_) => 0,
        }
    }

    fn status(&self) -> &str
        ensures { result.now ≡ status_in self.now }
    {
        match self {
            Command::Insert(draft) | Command::Update { draft, .. } => draft.status.word(),
            Command::Trash { .. }
            | Command::Untrash { .. }
            | Command::Delete { .. }
            | Command::SetOption { .. }
            | Command::Activate { .. }
            | Command::Deactivate { .. }
            | Command::Tick
            | Command::Profile(_) => "",
        }
    }

    fn first(&self) -> &str
        ensures { result.now ≡ first_in self.now }
    {
        match self {
            Command::Insert(draft) | Command::Update { draft, .. } => draft.title.as_str(),
            Command::SetOption { name, .. } => name.as_str(),
            Command::Activate { plugin } | Command::Deactivate { plugin } => plugin.as_str(),
            Command::Trash { .. }
            | Command::Untrash { .. }
            | Command::Delete { .. }
            | Command::Tick
            | Command::Profile(_) => "",
        }
    }

    fn second(&self) -> &str
        ensures { result.now ≡ second_in self.now }
    {
        match self {
            Command::Insert(draft) | Command::Update { draft, .. } => draft.content.as_str(),
            Command::SetOption { value, .. } => value.as_str(),
            Command::Activate { .. }
            | Command::Deactivate { .. }
            | Command::Trash { .. }
            | Command::Untrash { .. }
            | Command::Delete { .. }
            | Command::Tick
            | Command::Profile(_) => "",
        }
    }

    /// Whether the two are the same command.
    pub fn is(&self, other: &Command) -> bool
        ensures { result ≡ is_same_command self.now other.now }
    {
        CommandKind::of(self).number() == CommandKind::of(other).number()
            && self.id_or_profile() == other.id_or_profile()
            && self.date() == other.date()
            && self.status() == other.status()
            && self.first() == other.first()
            && self.second() == other.second()
    }
}

impl Stamped {
    /// Whether the two are the same command of the same token and moment.
    pub fn is(&self, other: &Stamped) -> bool
        ensures { result ≡ is_same_stamped self.now other.now }
    {
        self.token.editor.is(&other.token.editor)
            && self.token.seq == other.token.seq
            && self.at.seconds() == other.at.seconds()
            && self.command.is(&other.command)
    }
}

impl Value {
    /// Whether the two are the same value.
    pub fn is(&self, other: &Value) -> bool
        ensures { result ≡ is_same_value self.now other.now }
    {
        match (self, other) {
            (Value::Noop { at }, Value::Noop { at: when }) => at.seconds() == when.seconds(),
            (Value::Cmd(stamped), Value::Cmd(another)) => stamped.is(another),
            (Value::Noop { .. }, Value::Cmd(_)) | (Value::Cmd(_), Value::Noop { .. }) => false,
        }
    }
}
