//! Pieces of the log of a node.

ghost use Rattle.std.specs.Prelude.{◌≡◌, Err, IfErr, IfOk, None, Some, map};
ghost use Rattle.serde_json.specs.Read.{read};
ghost use Rattle.serde_json.specs.View.{view};
ghost use Rattle.press_client.specs.Logging.{AreEntries, AreFields, HasToken, IsEntry, IsPiece, IsToken, number_at};
ghost use Rattle.press_client.specs.declared.log.LogFault.TheVariants.{NoLog, NoMemory};

use crate::entry::LogEntry;
use crate::site_files::moment_front;
use press_site::Token;
use press_text::{Name, NameFault, Text};
use serde_json::Value;
use std::alloc::{AllocError, Global};
use thiserror::Error;

/// Why there is no log.
#[derive(Clone, Copy, Debug, PartialEq, Eq, Error)]
pub enum LogFault {
    #[error("no memory")]
    NoMemory,
    /// There was no reply.
    #[error("the node is away")]
    Away,
    /// The reply is none of a log.
    #[error("no log")]
    NoLog,
}

impl From<AllocError> for LogFault {
    ghost from_gives = { λ _ e. e ≡ NoMemory };

    fn from(_e: AllocError) -> LogFault {
        LogFault::NoMemory
    }
}

/// How many values a node has applied, and entries behind so many as were asked for.
#[derive(Debug, Drop)]
pub struct Piece {
    pub applied: u64,
    pub entries: Vec<LogEntry>,
}

fn number(value: &Value, key: &str) -> Result<u64, LogFault>
    ensures number { IfOk result (λ n. number_at key.now (view value.now) ≡ Some n) }
    ensures none { IfErr result (λ fault. (fault ≡ NoLog)
        × (number_at key.now (view value.now) ≡ None)) }
{
    match value.get(key).and_then(Value::as_u64) {
        Some(n) => Ok(n),
        None => Err(LogFault::NoLog),
    }
}

fn token_in(alloc: Global, value: &Value) -> Result<Token, LogFault>
    ensures token { IfOk result (λ token. IsToken token (view value.now)) }
    ensures memory { result ≡ Err LogFault.NoMemory → HasToken (view value.now) }
{
    let Some(editor) = value.get("editor").and_then(Value::as_str) else {
        return Err(LogFault::NoLog);
    };
    let seq = number(value, "seq")?;
    match Name::new(alloc, editor) {
        Ok(editor) => Ok(Token { editor, seq }),
        Err(NameFault::NoMemory) => Err(LogFault::NoMemory),
        Err(NameFault::BadName | NameFault::TooLong) => Err(LogFault::NoLog),
    }
}

// What is behind the moment, which is the first of an object's fields in the order of their keys.
fn fields_in(alloc: Global, value: &Value, at: u64) -> Result<Text, LogFault>
    ensures { IfOk result (λ fields. AreFields at fields (view value.now)) }
{
    let text = value.to_string(alloc)?;
    let front = moment_front(alloc, at)?;
    match text.strip_prefix(front.as_str()) {
        Some(fields) => Ok(Text::from_str(alloc, fields)?),
        None => Err(LogFault::NoLog),
    }
}

fn entry_in(alloc: Global, value: &Value) -> Result<LogEntry, LogFault>
    ensures { IfOk result (λ entry. IsEntry entry (view value.now)) }
{
    let at = number(value, "at")?;
    match value.get("kind") {
        None => Ok(LogEntry::Filler { at }),
        Some(_) => {
            let token = token_in(alloc, value)?;
            let fields = fields_in(alloc, value, at)?;
            Ok(LogEntry::Command { token, at, fields })
        }
    }
}

fn entries_in(alloc: Global, values: &[Value]) -> Result<Vec<LogEntry>, LogFault>
    ensures { IfOk result (λ entries. AreEntries entries.items (map view values.now)) }
{
    let mut entries = Vec::new(alloc);
    for value in values {
        match entries.push(entry_in(alloc, value)?) {
            Ok(()) => {}
            Err(_) => return Err(LogFault::NoMemory),
        }
    }
    Ok(entries)
}

fn value_in(alloc: Global, text: &str) -> Result<Value, LogFault>
    ensures { IfOk result (λ v. read text.now ≡ Some (view v)) }
{
    match Value::from_str(alloc, text) {
        Ok(value) => Ok(value),
        Err(e) if e.is_memory() => Err(LogFault::NoMemory),
        Err(_) => Err(LogFault::NoLog),
    }
}

/// The piece of a log that a text gives.
pub(crate) fn piece_in(alloc: Global, text: &str) -> Result<Piece, LogFault>
    ensures { IfOk result (λ piece. IsPiece piece text.now) }
{
    let value = value_in(alloc, text)?;
    let applied = number(&value, "applied")?;
    let Some(commands) = value.get("commands").and_then(Value::as_array) else {
        return Err(LogFault::NoLog);
    };
    let entries = entries_in(alloc, commands)?;
    Ok(Piece { applied, entries })
}
