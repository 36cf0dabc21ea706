use press_events::Event;
use press_posts::{Draft, Move, Status};
use press_site::{Effect, Site, SiteFault};
use press_text::{Every, HookName, Moment, Name, NameFault, OptName, Text};
use std::alloc::{AllocError, Global};
use std::test::Fail;

fn publish(alloc: Global) -> Result<Effect, AllocError> {
    Ok(Effect::Insert(Draft {
        title: Text::from_str(alloc, "x")?,
        content: Text::from_str(alloc, "y")?,
        status: Status::Publish,
        date: Moment::zero(),
    }))
}

// An event that is done once, at the first moment.
fn event(alloc: Global, hook: &str) -> Result<Event, NameFault> {
    Ok(Event {
        time: Moment::zero(),
        hook: HookName::new(alloc, hook)?,
        arg: Text::new(alloc),
        every: Every::Once,
    })
}

fn option(alloc: Global, name: &str, value: &str) -> Result<Effect, NameFault> {
    Ok(Effect::SetOption {
        name: OptName::new(alloc, name)?,
        value: Text::from_str(alloc, value)?,
    })
}

fn activation(alloc: Global, plugin: &str) -> Result<Effect, NameFault> {
    Ok(Effect::Activate {
        plugin: Name::new(alloc, plugin)?,
    })
}

// A site with something of each kind: a post, one in the trash, an event, an option and an active
// plugin.
fn full(alloc: Global) -> Result<Site, Fail> {
    let mut site = Site::new(alloc);
    site.effect(publish(alloc)?)?;
    site.effect(publish(alloc)?)?;
    let (id, to) = (2, Move::Trash);
    site.effect(Effect::Move { id, to })?;
    site.effect(Effect::Schedule(event(alloc, "h")?))?;
    site.effect(option(alloc, "o", "v")?)?;
    site.effect(activation(alloc, "a")?)?;
    Ok(site)
}

// A change of each kind, and an option set twice.
fn changes(alloc: Global) -> Result<Vec<Effect>, Fail> {
    let (id, to) = (1, Move::Trash);
    Ok(vec![in alloc;
        publish(alloc)?,
        Effect::Edit {
            id,
            draft: Draft {
                title: Text::from_str(alloc, "z")?,
                content: Text::new(alloc),
                status: Status::Draft,
                date: Moment::zero(),
            },
        },
        Effect::Move { id, to },
        Effect::Delete { id: 2 },
        option(alloc, "o", "w")?,
        option(alloc, "p", "v")?,
        option(alloc, "o", "x")?,
        Effect::Schedule(event(alloc, "i")?),
        Effect::Take(event(alloc, "h")?),
        activation(alloc, "b")?,
        Effect::Deactivate {
            plugin: Name::new(alloc, "a")?
        },
        Effect::Profile(2),
    ]?)
}

fn show(alloc: Global, site: &Site) -> Result<String, AllocError> {
    format!(in alloc; "{site:?}")
}

// The site after changes, as it stood and as it stands.
fn change(alloc: Global, site: Site, effects: Vec<Effect>) -> Result<(Site, String), SiteFault> {
    let mut open = site.begin();
    for effect in effects {
        open.effect(effect)?;
    }
    let stands = show(alloc, open.site())?;
    Ok((open.back(), stands))
}

#[test]
fn a_site_goes_back_from_each_change(rt: HostRuntime) -> Result<(), Fail> {
    let alloc = rt.alloc();
    let site = full(alloc)?;
    let before = show(alloc, &site.copy()?)?;
    for effect in changes(alloc)? {
        let (back, stood) = change(alloc, site.copy()?, vec![in alloc; effect]?)?;
        assert_ne!(rt; stood.as_str(), before.as_str());
        assert_eq!(rt; show(alloc, &back)?.as_str(), before.as_str());
    }
    Ok(())
}

#[test]
fn a_site_goes_back_from_all_changes(rt: HostRuntime) -> Result<(), Fail> {
    let alloc = rt.alloc();
    let site = full(alloc)?;
    let before = show(alloc, &site.copy()?)?;
    let (back, _) = change(alloc, site, changes(alloc)?)?;
    assert_eq!(rt; show(alloc, &back)?.as_str(), before.as_str());
    Ok(())
}
