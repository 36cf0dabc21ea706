//! The form that gives a command.

ghost use Rattle.std.specs.Prelude.{◌≡◌, ◌∷◌, [], Some, IfOk, decimal, string_bytes};
ghost use Rattle.press_apply.specs.Kinds.{kind_named};
ghost use Rattle.press_forms.specs.Forms.{draft_pairs, form_of, kind_word, pairs_of, Puts};

use form_urlencoded::Serializer;
use itoa::Buffer;
use press_apply::{Command, CommandKind, Stamped};
use press_posts::Draft;
use std::alloc::{AllocError, Global};

/// The word for a kind of commands in a form.
pub fn word(kind: CommandKind) -> &'static str
    ensures named { kind_named result.now ≡ Some kind }
    ensures word { result.now ≡ kind_word kind }
{
    match kind {
        CommandKind::Insert => "insert",
        CommandKind::Update => "update",
        CommandKind::Trash => "trash",
        CommandKind::Untrash => "untrash",
        CommandKind::Delete => "delete",
        CommandKind::SetOption => "option",
        CommandKind::Activate => "activate",
        CommandKind::Deactivate => "deactivate",
        CommandKind::Tick => "tick",
        CommandKind::Profile => "profile",
    }
}

#[tactic(auto, unfolding(crate::specs::Forms::with_pair))]
fn put(form: &mut Serializer, name: &str, value: &str) -> Result<(), AllocError>
    ensures { Puts form.old form.new ((name.now, value.now) ∷ []) result }
{
    form.append_pair(name, value)
}

fn put_number(form: &mut Serializer, name: &str, number: u64) -> Result<(), AllocError>
    ensures { Puts form.old form.new ((name.now, decimal number) ∷ []) result }
{
    let mut digits = Buffer::new();
    put(form, name, digits.format(number))
}

fn put_draft(form: &mut Serializer, draft: &Draft) -> Result<(), AllocError>
    ensures { Puts form.old form.new (draft_pairs draft.now) result }
{
    put(form, "title", draft.title.as_str())?;
    put(form, "content", draft.content.as_str())?;
    put(form, "status", draft.status.word())?;
    put_number(form, "date", draft.date.seconds())
}

fn put_fields(form: &mut Serializer, command: &Command) -> Result<(), AllocError>
    ensures { Puts form.old form.new (pairs_of command.now) result }
{
    match command {
        Command::Insert(draft) => put_draft(form, draft),
        Command::Update { id, draft } => {
            put_number(form, "id", *id)?;
            put_draft(form, draft)
        }
        Command::Trash { id } | Command::Untrash { id } | Command::Delete { id } => {
            put_number(form, "id", *id)
        }
        Command::SetOption { name, value } => {
            put(form, "name", name.as_str())?;
            put(form, "value", value.as_str())
        }
        Command::Activate { plugin } | Command::Deactivate { plugin } => {
            put(form, "plugin", plugin.as_str())
        }
        Command::Tick => Ok(()),
        Command::Profile(to) => put_number(form, "profile", *to as u64),
    }
}

/// The form that gives the command (URL Standard, 5.2).
pub fn form_of(alloc: Global, stamped: &Stamped) -> Result<String, AllocError>
    ensures { IfOk result (λ form. string_bytes form ≡ form_of stamped.now) }
{
    let mut form = Serializer::new(String::new(alloc));
    put(&mut form, "editor", stamped.token.editor.as_str())?;
    put_number(&mut form, "seq", stamped.token.seq)?;
    put_number(&mut form, "at", stamped.at.seconds())?;
    put(&mut form, "kind", word(CommandKind::of(&stamped.command)))?;
    put_fields(&mut form, &stamped.command)?;
    Ok(form.finish())
}
