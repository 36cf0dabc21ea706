//! Commands as the objects of a site file.

ghost use Rattle.std.specs.Prelude.{◌≡◌, IfOk, codes};
ghost use Rattle.serde_json.specs.View.{view};
ghost use Rattle.press_log.specs.Log.{bare_data, command_data, entry_data, insert_data, moment_data, option_data};
ghost use Rattle.press_log.specs.Log.{plugin_data, post_data, profile_data, update_data};

use press_apply::{Command, Stamped, Value};
use press_posts::Draft;
use press_site::Token;
use press_text::{Moment, Name, OptName, Text};
use serde_json::{Value as Json, json};
use std::alloc::{AllocError, Global};

// Who gives a command, and when.
#[derive(Clone, Copy)]
struct Stamp<'a> {
    token: &'a Token,
    at: u64,
}

fn bare_value(alloc: Global, kind: &str, stamp: Stamp<'_>) -> Result<Json, AllocError>
    ensures { IfOk result (λ v. view v ≡ bare_data kind.now stamp.entry.token.now stamp.entry.at) }
{
    let (at, editor, seq) = (stamp.at, stamp.token.editor.as_str(), stamp.token.seq);
    json!(in alloc; {"at": at, "editor": editor, "kind": kind, "seq": seq})
}

fn post_value(alloc: Global, kind: &str, id: u64, stamp: Stamp<'_>) -> Result<Json, AllocError>
    ensures { IfOk result (λ v.
        view v ≡ post_data kind.now id stamp.entry.token.now stamp.entry.at) }
{
    let (at, editor, seq) = (stamp.at, stamp.token.editor.as_str(), stamp.token.seq);
    json!(in alloc; {"at": at, "editor": editor, "id": id, "kind": kind, "seq": seq})
}

fn plugin_value(
    alloc: Global,
    kind: &str,
    plugin: &Name,
    stamp: Stamp<'_>,
) -> Result<Json, AllocError>
    ensures { IfOk result (λ v.
        view v ≡ plugin_data kind.now plugin.now stamp.entry.token.now stamp.entry.at) }
{
    let (at, editor, seq) = (stamp.at, stamp.token.editor.as_str(), stamp.token.seq);
    let plugin = plugin.as_str();
    json!(in alloc; {"at": at, "editor": editor, "kind": kind, "plugin": plugin, "seq": seq})
}

fn option_value(
    alloc: Global,
    name: &OptName,
    value: &Text,
    stamp: Stamp<'_>,
) -> Result<Json, AllocError>
    ensures { IfOk result (λ v.
        view v ≡ option_data name.now value.now stamp.entry.token.now stamp.entry.at) }
{
    let (at, editor, seq) = (stamp.at, stamp.token.editor.as_str(), stamp.token.seq);
    let (name, value) = (name.as_str(), value.as_str());
    json!(in alloc; {
        "at": at,
        "editor": editor,
        "kind": "option",
        "name": name,
        "seq": seq,
        "value": value
    })
}

fn profile_value(alloc: Global, profile: u8, stamp: Stamp<'_>) -> Result<Json, AllocError>
    ensures { IfOk result (λ v.
        view v ≡ profile_data profile stamp.entry.token.now stamp.entry.at) }
{
    let (at, editor, seq) = (stamp.at, stamp.token.editor.as_str(), stamp.token.seq);
    let profile = u64::from(profile);
    json!(in alloc; {
        "at": at,
        "editor": editor,
        "kind": "profile",
        "profile": profile,
        "seq": seq
    })
}

fn insert_value(alloc: Global, draft: &Draft, stamp: Stamp<'_>) -> Result<Json, AllocError>
    ensures { IfOk result (λ v.
        view v ≡ insert_data draft.now stamp.entry.token.now stamp.entry.at) }
{
    let (at, editor, seq) = (stamp.at, stamp.token.editor.as_str(), stamp.token.seq);
    let (content, title) = (draft.content.as_str(), draft.title.as_str());
    let (date, status) = (draft.date.seconds(), draft.status.word());
    json!(in alloc; {
        "at": at,
        "content": content,
        "date": date,
        "editor": editor,
        "kind": "insert",
        "seq": seq,
        "status": status,
        "title": title
    })
}

fn update_value(alloc: Global, id: u64, draft: &Draft, stamp: Stamp<'_>) -> Result<Json, AllocError>
    ensures { IfOk result (λ v.
        view v ≡ update_data id draft.now stamp.entry.token.now stamp.entry.at) }
{
    let (at, editor, seq) = (stamp.at, stamp.token.editor.as_str(), stamp.token.seq);
    let (content, title) = (draft.content.as_str(), draft.title.as_str());
    let (date, status) = (draft.date.seconds(), draft.status.word());
    json!(in alloc; {
        "at": at,
        "content": content,
        "date": date,
        "editor": editor,
        "id": id,
        "kind": "update",
        "seq": seq,
        "status": status,
        "title": title
    })
}

fn command_value(alloc: Global, command: &Command, stamp: Stamp<'_>) -> Result<Json, AllocError>
    ensures { IfOk result (λ v.
        view v ≡ command_data command.now stamp.entry.token.now stamp.entry.at) }
{
    match command {
        Command::Insert(draft) => insert_value(alloc, draft, stamp),
        Command::Update { id, draft } => update_value(alloc, *id, draft, stamp),
        Command::Trash { id } => post_value(alloc, "trash", *id, stamp),
        Command::Untrash { id } => post_value(alloc, "untrash", *id, stamp),
        Command::Delete { id } => post_value(alloc, "delete", *id, stamp),
        Command::SetOption { name, value } => option_value(alloc, name, value, stamp),
        Command::Activate { plugin } => plugin_value(alloc, "activate", plugin, stamp),
        Command::Deactivate { plugin } => plugin_value(alloc, "deactivate", plugin, stamp),
        Command::Tick => bare_value(alloc, "tick", stamp),
        Command::Profile(profile) => profile_value(alloc, *profile, stamp),
    }
}

fn moment_value(alloc: Global, at: Moment) -> Result<Json, AllocError>
    ensures { IfOk result (λ v. view v ≡ moment_data at) }
{
    let at = at.seconds();
    json!(in alloc; {"at": at})
}

/// What was applied, as an entry of a log.
pub(crate) fn entry_value(alloc: Global, value: &Value) -> Result<Json, AllocError>
    ensures { IfOk result (λ v. view v ≡ entry_data value.now) }
{
    match value {
        Value::Noop { at } => moment_value(alloc, *at),
        Value::Cmd(Stamped { token, at, command }) => {
            let stamp = Stamp {
                token,
                at: at.seconds(),
            };
            command_value(alloc, command, stamp)
        }
    }
}
