use press_apply::{Command, Stamped, Value, apply};
use press_callbacks::Kit;
use press_posts::{Draft, Status};
use press_site::{Site, Token};
use press_text::{Moment, Name, Text};
use std::alloc::Global;

/// The insert of a small post, as bob's command of that number.
pub fn post(alloc: Global, seq: u32) -> anyhow::Result<Stamped> {
    let at = Moment::zero();
    Ok(Stamped {
        token: Token {
            editor: Name::new(alloc, "bob")?,
            seq: u64::from(seq),
        },
        at,
        command: Command::Insert(Draft {
            title: Text::from_str(alloc, "a title")?,
            content: Text::from_str(alloc, "some content")?,
            status: Status::Publish,
            date: at,
        }),
    })
}

/// Applies this many of them to a site, without a node.
pub fn apply_posts(alloc: Global, count: u32) -> anyhow::Result<Vec<u8>> {
    let kit = Kit::build(alloc, Vec::new(alloc), Vec::new(alloc))?;
    let mut site = Site::new(alloc);
    for seq in 0..count {
        let value = Value::Cmd(post(alloc, seq)?);
        apply(alloc, &mut site, &kit, &value)?;
    }
    Ok(format!(in alloc; "applies={count}: k={count}\n")?.into_bytes())
}
