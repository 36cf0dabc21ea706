//! Forms by their numbers.

use press_apply::{Command, Stamped, Value};
use press_posts::{Draft, Status};
use press_simulation::digest_of;
use press_site::Token;
use press_text::{Moment, Name, Text};
use press_wire::encode_cmd;
use std::alloc::{AllocError, Global};

/// The token of a number. None without memory.
pub fn token(alloc: Global, number: u64) -> Option<Token> {
    Some(Token {
        editor: Name::new(alloc, "bob").ok()?,
        seq: number,
    })
}

fn title(alloc: Global, number: u64) -> Result<Text, AllocError> {
    let text = format!(in alloc; "post {number}")?;
    Text::from_str(alloc, text.as_str())
}

// A post whose title has the number. None without memory.
fn draft(alloc: Global, number: u64) -> Option<Draft> {
    Some(Draft {
        title: title(alloc, number).ok()?,
        content: Text::from_str(alloc, "some content").ok()?,
        status: Status::Publish,
        date: Moment::zero(),
    })
}

/// The insert of a post whose title has the number. None without memory.
pub fn form(alloc: Global, number: u64) -> Option<Stamped> {
    let draft = draft(alloc, number)?;
    Some(Stamped {
        token: token(alloc, number)?,
        at: Moment::zero(),
        command: Command::Insert(draft),
    })
}

/// The digest of a value's spelling.
pub fn digest_of_value(alloc: Global, value: &Value) -> u64 {
    match encode_cmd(alloc, value) {
        Ok(bytes) => digest_of(&bytes),
        Err(_) => 0,
    }
}

/// The digest of the form of a number.
pub fn digest_of_form(alloc: Global, number: u64) -> u64 {
    match form(alloc, number) {
        Some(form) => digest_of_value(alloc, &Value::Cmd(form)),
        None => 0,
    }
}
