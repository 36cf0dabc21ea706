//! The forms that bring commands to a server.

use press_apply::{Command, Stamped};
use press_forms::form_of;
use press_posts::{Draft, Status};
use press_site::Token;
use press_text::{Moment, Name, Text};
use std::test::Fail;

// A post of the longest content has one.
#[test]
fn the_longest_post_has_a_form(rt: HostRuntime) -> Result<(), Fail> {
    let alloc = rt.alloc();
    let mut content = Text::new(alloc);
    for _ in 0..65_536 {
        content.push_str("a")?;
    }
    let meant = format!(in alloc;
        "editor=ann&seq=1&at=0&kind=insert&title=&content={}&status=publish&date=0",
        content.as_str()
    )?;
    let stamped = Stamped {
        token: Token {
            editor: Name::new(alloc, "ann")?,
            seq: 1,
        },
        at: Moment::zero(),
        command: Command::Insert(Draft {
            title: Text::new(alloc),
            content,
            status: Status::Publish,
            date: Moment::zero(),
        }),
    };
    assert_eq!(rt; form_of(alloc, &stamped)?.as_str(), meant.as_str());
    Ok(())
}
