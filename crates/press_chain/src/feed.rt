//! The spelling of a value, fed to a hasher piece by piece: so hashing takes no memory.

ghost use Rattle.std.specs.Prelude.{◌≡◌, ◌∷◌, []};
ghost use Rattle.press_chain.specs.Chains.{digest_with};
ghost use Rattle.press_chain.specs.Feeding.{Feeds};
ghost use Rattle.press_text.specs.Names.{IsName};
ghost use Rattle.press_wire.specs.Kinds.{status_number as number_of};
ghost use Rattle.press_wire.specs.Spelling as spell;

use press_apply::{Command, CommandKind, Stamped, Value};
use press_posts::{Draft, Status};
use press_text::Text;
use sha2::{Digest, Sha256};

/// The digest behind another by one value.
#[tactic(auto, unfolding(crate::specs::Chains::digest_with))]
pub fn digest_with(digest: &[u8; 32], value: &Value) -> [u8; 32]
    ensures { result ≡ digest_with digest.now value.now }
{
    let mut hasher = Sha256::new();
    hasher.update(digest.as_slice());
    feed_value(&mut hasher, value);
    hasher.finalize()
}

fn feed(hasher: &mut Sha256, bytes: &[u8])
    ensures { Feeds hasher.old hasher.new bytes.now }
{
    hasher.update(bytes);
}

fn feed_byte(hasher: &mut Sha256, byte: u8)
    ensures { Feeds hasher.old hasher.new (byte ∷ []) }
{
    feed(hasher, [byte].as_slice());
}

fn feed_number8(hasher: &mut Sha256, number: u64)
    ensures { Feeds hasher.old hasher.new (spell.number8 number) }
{
    feed(hasher, number.to_be_bytes().as_slice());
}

// The last four of its eight bytes.
fn feed_number4(hasher: &mut Sha256, number: u64)
    ensures { Feeds hasher.old hasher.new (spell.number4 number) }
{
    let bytes = number.to_be_bytes();
    feed(hasher, &bytes[4..]);
}

fn feed_name(hasher: &mut Sha256, name: &str)
    requires { IsName 32 name.now }
    ensures { Feeds hasher.old hasher.new (spell.name name.now) }
{
    feed_byte(hasher, name.len() as u8);
    feed(hasher, name.as_bytes());
}

fn feed_text(hasher: &mut Sha256, text: &Text)
    ensures { Feeds hasher.old hasher.new (spell.text text.now) }
{
    let bytes = text.as_bytes();
    feed_number4(hasher, bytes.len() as u64);
    feed(hasher, bytes);
}

fn status_number(status: Status) -> u8
    ensures { result ≡ number_of status }
{
    match status {
        Status::Publish => 0,
        Status::Future => 1,
        Status::Draft => 2,
        Status::Pending => 3,
        Status::Private => 4,
        Status::Trash => 5,
    }
}

fn feed_draft(hasher: &mut Sha256, draft: &Draft)
    ensures { Feeds hasher.old hasher.new (spell.draft draft.now) }
{
    feed_text(hasher, &draft.title);
    feed_text(hasher, &draft.content);
    feed_byte(hasher, status_number(draft.status));
    feed_number8(hasher, draft.date.seconds());
}

fn feed_fields(hasher: &mut Sha256, command: &Command)
    ensures { Feeds hasher.old hasher.new (spell.fields command.now) }
{
    match command {
        Command::Insert(draft) => feed_draft(hasher, draft),
        Command::Update { id, draft } => {
            feed_number8(hasher, *id);
            feed_draft(hasher, draft);
        }
        Command::Trash { id } => feed_number8(hasher, *id),
        Command::Untrash { id } => feed_number8(hasher, *id),
        Command::Delete { id } => feed_number8(hasher, *id),
        Command::SetOption { name, value } => {
            feed_name(hasher, name.as_str());
            feed_text(hasher, value);
        }
        Command::Activate { plugin } => feed_name(hasher, plugin.as_str()),
        Command::Deactivate { plugin } => feed_name(hasher, plugin.as_str()),
        Command::Tick => {}
        Command::Profile(to) => feed_byte(hasher, *to),
    }
}

fn feed_stamped(hasher: &mut Sha256, stamped: &Stamped)
    ensures { Feeds hasher.old hasher.new (spell.stamped stamped.now) }
{
    feed_name(hasher, stamped.token.editor.as_str());
    feed_number8(hasher, stamped.token.seq);
    feed_number8(hasher, stamped.at.seconds());
    feed_fields(hasher, &stamped.command);
}

fn feed_value(hasher: &mut Sha256, value: &Value)
    ensures { Feeds hasher.old hasher.new (spell.spelled_command value.now) }
{
    match value {
        Value::Noop { at } => {
            feed_byte(hasher, 0);
            feed_number8(hasher, at.seconds());
        }
        Value::Cmd(stamped) => {
            feed_byte(hasher, CommandKind::of(&stamped.command).number());
            feed_stamped(hasher, stamped);
        }
    }
}
