use press_apply::{Command, Stamped};
use press_posts::{Draft, Status};
use press_site::Token;
use press_text::{Moment, Name, Text};
use std::alloc::Global;

/// Bob's token of that number.
pub fn token(alloc: Global, seq: u32) -> anyhow::Result<Token> {
    Ok(Token {
        editor: Name::new(alloc, "bob")?,
        seq: u64::from(seq),
    })
}

/// The insert of a small post, as bob's command of that number.
pub fn post(alloc: Global, seq: u32) -> anyhow::Result<Stamped> {
    let at = Moment::zero();
    Ok(Stamped {
        token: token(alloc, seq)?,
        at,
        command: Command::Insert(Draft {
            title: Text::from_str(alloc, "a title")?,
            content: Text::from_str(alloc, "some content")?,
            status: Status::Publish,
            date: at,
        }),
    })
}
