use press_apply::{Command, Stamped, Value, apply};
use press_callbacks::Kit;
use press_posts::{Draft, Status};
use press_site::{Effect, Outcome, Site, Token};
use press_text::{Moment, Name, Text};
use std::alloc::Global;
use std::test::Fail;

// A site with as many posts as there may be.
fn full(alloc: Global) -> Result<Site, Fail> {
    let mut site = Site::new(alloc);
    for _ in 0..10_000 {
        site.effect(Effect::Insert(Draft {
            title: Text::new(alloc),
            content: Text::new(alloc),
            status: Status::Publish,
            date: Moment::zero(),
        }))?;
    }
    Ok(site)
}

/// A command of ann's at the first moment.
pub fn command_value(alloc: Global, seq: u64, command: Command) -> Result<Value, Fail> {
    let editor = Name::new(alloc, "ann")?;
    Ok(Value::Cmd(Stamped {
        token: Token { editor, seq },
        at: Moment::zero(),
        command,
    }))
}

// Also where the id has five digits.
#[test]
fn the_last_post_is_moved(rt: HostRuntime) -> Result<(), Fail> {
    let alloc = rt.alloc();
    let kit = Kit::build(alloc, Vec::new(alloc), Vec::new(alloc))?;
    let mut site = full(alloc)?;
    let id = 10_000;
    let trash = command_value(alloc, 1, Command::Trash { id })?;
    assert_eq!(rt; apply(alloc, &mut site, &kit, &trash)?, Outcome::Done(id));
    let untrash = command_value(alloc, 2, Command::Untrash { id })?;
    assert_eq!(rt; apply(alloc, &mut site, &kit, &untrash)?, Outcome::Done(id));
    let again = command_value(alloc, 3, Command::Trash { id })?;
    assert_eq!(rt; apply(alloc, &mut site, &kit, &again)?, Outcome::Done(id));
    let delete = command_value(alloc, 4, Command::Delete { id })?;
    assert_eq!(rt; apply(alloc, &mut site, &kit, &delete)?, Outcome::Done(id));
    Ok(())
}
