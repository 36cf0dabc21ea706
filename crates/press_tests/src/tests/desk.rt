//! What editors see of a site.

use press_callbacks::Kit;
use press_events::Event;
use press_page::{Applied, ContentKind, Desk, Reply, Target, page, show_desk};
use press_posts::{Draft, Move, Status};
use press_site::{Effect, Site};
use press_text::{Every, HookName, Moment, Name, OptName, Text};
use std::alloc::{AllocError, Global};
use std::test::Fail;

fn insert(alloc: Global, title: &str, status: Status) -> Result<Effect, AllocError> {
    Ok(Effect::Insert(Draft {
        title: Text::from_str(alloc, title)?,
        content: Text::from_str(alloc, "a&b")?,
        status,
        date: Moment::zero(),
    }))
}

// A published post, a draft above it, one in the trash above both, and one of each other thing.
fn full(alloc: Global) -> Result<Site, Fail> {
    let mut site = Site::new(alloc);
    site.effect(insert(alloc, "one", Status::Publish)?)?;
    site.effect(insert(alloc, "two", Status::Draft)?)?;
    site.effect(insert(alloc, "three", Status::Publish)?)?;
    let (id, to) = (3, Move::Trash);
    site.effect(Effect::Move { id, to })?;
    site.effect(Effect::Schedule(Event {
        time: Moment::zero(),
        hook: HookName::new(alloc, "h")?,
        arg: Text::from_str(alloc, "x")?,
        every: Every::Hourly,
    }))?;
    site.effect(Effect::SetOption {
        name: OptName::new(alloc, "o")?,
        value: Text::from_str(alloc, "v")?,
    })?;
    site.effect(Effect::Activate {
        plugin: Name::new(alloc, "p")?,
    })?;
    Ok(site)
}

// What is shown of a site behind seven commands, over a kit of nothing.
fn see_of(alloc: Global, site: &Site, asked: Desk) -> Result<Reply, Fail> {
    let kit = Kit::build(alloc, Vec::new(alloc), Vec::new(alloc))?;
    let applied = Applied {
        count: 7,
        site,
        kit: &kit,
    };
    Ok(show_desk(alloc, applied, asked)?)
}

fn see(alloc: Global, asked: Desk) -> Result<Reply, Fail> {
    let site = full(alloc)?;
    see_of(alloc, &site, asked)
}

#[test]
fn posts_are_seen_as_they_are_kept(rt: HostRuntime) -> Result<(), Fail> {
    let alloc = rt.alloc();
    let one = r#"{"content":"a&b","date":0,"id":1,"status":"publish","title":"one"}"#;
    let two = r#"{"content":"a&b","date":0,"id":2,"status":"draft","title":"two"}"#;
    let three = r#"{"content":"a&b","date":0,"id":3,"status":"trash","title":"three"}"#;
    let reply = see(alloc, Desk::Post(2))?;
    assert!(rt; reply.status == 200 && reply.kind == ContentKind::Json);
    assert_eq!(rt; reply.body.as_str(), two);
    let (before, count) = (u64::MAX, 2);
    let reply = see(alloc, Desk::Posts { before, count })?;
    let meant = format!(in alloc; "{{\"posts\":[{three},{two}]}}")?;
    assert_eq!(rt; reply.body.as_str(), meant.as_str());
    let (before, count) = (3, 100);
    let reply = see(alloc, Desk::Posts { before, count })?;
    let meant = format!(in alloc; "{{\"posts\":[{two},{one}]}}")?;
    assert_eq!(rt; reply.body.as_str(), meant.as_str());
    assert!(rt; see(alloc, Desk::Post(4))?.status == 404);
    Ok(())
}

#[test]
fn the_site_is_seen(rt: HostRuntime) -> Result<(), Fail> {
    let alloc = rt.alloc();
    let reply = see(alloc, Desk::Site)?;
    let meant =
        r#"{"active":["p"],"applied":7,"counts":{"draft":1,"future":0,"pending":0,"private":0,"publish":1,"trash":1},"events":[{"arg":"x","every":"hourly","hook":"h","time":0}],"moment":0,"options":[{"name":"o","value":"v"}],"plugins":[],"profile":1}"#;
    assert_eq!(rt; reply.body.as_str(), meant);
    Ok(())
}

// As many options as a site may have are seen, each of them.
#[test]
fn all_options_of_a_site_are_seen(rt: HostRuntime) -> Result<(), Fail> {
    let alloc = rt.alloc();
    let mut site = Site::new(alloc);
    let mut meant = Text::from_str(
        alloc,
        r#"{"active":[],"applied":7,"counts":{"draft":0,"future":0,"pending":0,"private":0,"publish":0,"trash":0},"events":[],"moment":0,"options":["#,
    )?;
    for n in 1000u32..2024 {
        let name = format!(in alloc; "o{n}")?;
        let value = Text::from_str(alloc, "v")?;
        if n > 1000 {
            meant.push_str(",")?;
        }
        let option = format!(in alloc; "{{\"name\":\"{name}\",\"value\":\"v\"}}")?;
        meant.push_str(option.as_str())?;
        let name = OptName::new(alloc, name.as_str())?;
        site.effect(Effect::SetOption { name, value })?;
    }
    meant.push_str(r#"],"plugins":[],"profile":1}"#)?;
    let reply = see_of(alloc, &site, Desk::Site)?;
    assert_eq!(rt; reply.body.as_str(), meant.as_str());
    Ok(())
}

// A preview of a published post is its page, and a draft has one too.
#[test]
fn a_preview_is_the_page(rt: HostRuntime) -> Result<(), Fail> {
    let alloc = rt.alloc();
    let site = full(alloc)?;
    let kit = Kit::build(alloc, Vec::new(alloc), Vec::new(alloc))?;
    let shown = page(alloc, &site, &kit, &Target::Post(1))?;
    assert_eq!(rt;
        see(alloc, Desk::Preview(1))?.body.as_str(),
        shown.body.as_str()
    );
    assert!(rt; page(alloc, &site, &kit, &Target::Post(2))?.status == 404);
    assert!(rt; see(alloc, Desk::Preview(2))?.status == 200);
    assert!(rt; see(alloc, Desk::Preview(4))?.status == 404);
    Ok(())
}
