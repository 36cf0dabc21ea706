//! What editors see of a site: its posts as they are kept, the page that one would have, and the
//! site itself.

ghost use Rattle.std.specs.Prelude.{◌≡◌, ◌≤◌, ◌∷◌, [], IfOk, Some, codes, length, map, option_map, take};
ghost use Rattle.serde_json.specs.Data.{array, member, no_members, number, object, string, unsigned};
ghost use Rattle.serde_json.specs.View.{items_of, view};
ghost use Rattle.press_callbacks.specs.Kits.{kit_view};
ghost use Rattle.press_page.specs.Json.{json_reply};
ghost use Rattle.press_page.specs.Desk.{count_of, counts_data, has_status, desk_of, event_data, every_word, kept_data, kept_reply};
ghost use Rattle.press_page.specs.Desk.{posts_below, option_data, posts_data, posts_down, site_data};

use crate::json::{json_reply, status_reply};
use crate::pages::{fixed_reply, page_with};
use crate::reply::Reply;
use press_callbacks::{Kit, Plugin};
use press_events::Event;
use press_posts::Post;
use press_site::{SetOption, Site};
use press_text::{Every, Name};
use serde_json::{Value, json};
use std::alloc::{AllocError, Global};

/// The most posts of one list.
pub const MOST_POSTS: u64 = 100;

/// What an editor asks of a site.
#[derive(Clone, Copy, Debug)]
pub enum Desk {
    /// The posts with ids below this one as they are kept, whatever their status, the greatest id
    /// first; so many, and 100 at most.
    Posts { before: u64, count: u64 },
    /// The post with that id as it is kept.
    Post(u64),
    /// The page that the post with that id would have if it were published now.
    Preview(u64),
    /// The site: its moment, options, plugins, events, and how many posts of which status it has.
    Site,
}

/// What so many commands made: a site, and the kit that shows it.
#[derive(Clone, Copy)]
pub struct Applied<'a> {
    pub count: u64,
    pub site: &'a Site,
    pub kit: &'a Kit,
}

/// The reply to an editor. The status is 404 for a post that doesn't exist; a limit that a page
/// meets gives 500.
pub fn show_desk(alloc: Global, applied: Applied<'_>, asked: Desk) -> Result<Reply, AllocError>
    ensures { IfOk result (λ r. r ≡ desk_of (kit_view applied.entry.kit.now)
        applied.entry.site.now applied.entry.count asked) }
{
    let Applied { count, site, kit } = applied;
    match asked {
        Desk::Posts { before, count } => posts(alloc, site, before, count),
        Desk::Post(id) => post(alloc, site.post(id)),
        Desk::Preview(id) => preview(alloc, site, kit, id),
        Desk::Site => overview(alloc, site, kit, count),
    }
}

fn post(alloc: Global, post: Option<&Post>) -> Result<Reply, AllocError>
    ensures { IfOk result (λ r. r ≡ kept_reply (option_map (λ p. p.now) post.entry)) }
{
    match post {
        Some(post) => {
            let value = kept_value(alloc, post)?;
            json_reply(alloc, 200, &value)
        }
        None => status_reply(alloc, 404),
    }
}

fn preview(alloc: Global, site: &Site, kit: &Kit, id: u64) -> Result<Reply, AllocError>
    ensures { IfOk result (λ r. r ≡ desk_of (kit_view kit.now) site.now 0 (Desk.Preview id)) }
{
    if site.post(id).is_none() {
        return fixed_reply(alloc, 404, "404 Not Found");
    }
    page_with(alloc, site, kit, &[id])
}

// A post as it is kept.
fn kept_value(alloc: Global, post: &Post) -> Result<Value, AllocError>
    ensures { IfOk result (λ v. view v ≡ kept_data post.now) }
{
    let (content, title) = (post.content.as_str(), post.title.as_str());
    let (date, id, status) = (post.date.seconds(), post.id, post.status.word());
    json!(in alloc; {
        "content": content,
        "date": date,
        "id": id,
        "status": status,
        "title": title
    })
}

// The first posts with ids up to this one, the greatest id first.
#[tactic(auto, using(crate::proofs::Desks::at_end, crate::proofs::Desks::all_told))]
fn kept_values(alloc: Global, site: &Site, from: u64, count: u64) -> Result<Vec<Value>, AllocError>
    ensures { IfOk result (λ vs.
        map view vs.items ≡ map kept_data (take count (posts_down site.now.posts from))) }
{
    let mut values = Vec::new(alloc);
    for down in 0..from {
        if values.len() as u64 >= count {
            break;
        }
        if let Some(post) = site.post(from - down) {
            values.push(kept_value(alloc, post)?)?;
        }
    }
    Ok(values)
}

fn posts_value(alloc: Global, site: &Site, before: u64, count: u64) -> Result<Value, AllocError>
    ensures { IfOk result (λ v. view v ≡ posts_data (posts_below site.now.posts before count)) }
{
    let from = before.saturating_sub(1).min(site.last_id());
    let posts = Value::Array(kept_values(alloc, site, from, count.min(MOST_POSTS))?);
    json!(in alloc; {"posts": posts})
}

#[tactic(auto, using(crate::proofs::Desks::no_float_posts))]
fn posts(alloc: Global, site: &Site, before: u64, count: u64) -> Result<Reply, AllocError>
    ensures { IfOk result (λ r.
        r ≡ json_reply 200 (posts_data (posts_below site.now.posts before count))) }
{
    let value = posts_value(alloc, site, before, count)?;
    json_reply(alloc, 200, &value)
}

// Whether there is a post, and its status has that word.
fn has_status(post: Option<&Post>, word: &str) -> bool
    ensures { result ≡ has_status word.now (option_map (λ p. p.now) post.entry) }
{
    match post {
        Some(post) => post.status.word() == word,
        None => false,
    }
}

// How many posts have the status of that word.
#[tactic(auto, using(crate::proofs::Desks::one_counted))]
fn count_of(site: &Site, word: &str) -> u64
    ensures { result ≡ count_of site.now.posts word.now }
{
    let mut count: u64 = 0;
    for place in 0..site.last_id() {
        count = count.saturating_add(u64::from(has_status(site.post(place + 1), word)));
    }
    count
}

fn counts_value(alloc: Global, site: &Site) -> Result<Value, AllocError>
    ensures { IfOk result (λ v. view v ≡ counts_data site.now.posts) }
{
    let (draft, future) = (count_of(site, "draft"), count_of(site, "future"));
    let (pending, private) = (count_of(site, "pending"), count_of(site, "private"));
    let (publish, trash) = (count_of(site, "publish"), count_of(site, "trash"));
    json!(in alloc; {
        "draft": draft,
        "future": future,
        "pending": pending,
        "private": private,
        "publish": publish,
        "trash": trash
    })
}

fn word_of(every: Every) -> &'static str
    ensures { result.now ≡ every_word every }
{
    match every {
        Every::Once => "once",
        Every::Hourly => "hourly",
        Every::TwiceDaily => "twicedaily",
        Every::Daily => "daily",
    }
}

fn event_value(alloc: Global, event: &Event) -> Result<Value, AllocError>
    ensures { IfOk result (λ v. view v ≡ event_data event.now) }
{
    let (arg, every, hook) = (
        event.arg.as_str(),
        word_of(event.every),
        event.hook.as_str(),
    );
    let time = event.time.seconds();
    json!(in alloc; {"arg": arg, "every": every, "hook": hook, "time": time})
}

fn event_values(alloc: Global, events: &[Event]) -> Result<Value, AllocError>
    ensures { IfOk result (λ v. view v ≡ array (items_of (map event_data events.now))) }
{
    let mut values = Vec::new(alloc);
    for event in events {
        values.push(event_value(alloc, event)?)?;
    }
    Ok(Value::Array(values))
}

fn option_value(alloc: Global, option: &SetOption) -> Result<Value, AllocError>
    ensures { IfOk result (λ v. view v ≡ option_data (option.now.name, option.now.value)) }
{
    let (name, value) = (option.name.as_str(), option.value.as_str());
    json!(in alloc; {"name": name, "value": value})
}

fn option_values(alloc: Global, options: &[SetOption]) -> Result<Value, AllocError>
    ensures { IfOk result (λ v. view v ≡ array (items_of
        (map (λ o. option_data (o.name, o.value)) options.now))) }
{
    let mut values = Vec::new(alloc);
    for option in options {
        values.push(option_value(alloc, option)?)?;
    }
    Ok(Value::Array(values))
}

fn name_value(alloc: Global, name: &str) -> Result<Value, AllocError>
    ensures { IfOk result (λ v. view v ≡ string name.now) }
{
    json!(in alloc; name)
}

fn active_values(alloc: Global, names: &[Name]) -> Result<Value, AllocError>
    ensures { IfOk result (λ v. view v ≡ array (items_of (map string names.now))) }
{
    let mut values = Vec::new(alloc);
    for name in names {
        values.push(name_value(alloc, name.as_str())?)?;
    }
    Ok(Value::Array(values))
}

fn plugin_values(alloc: Global, plugins: &[Plugin]) -> Result<Value, AllocError>
    ensures { IfOk result (λ v. view v ≡ array (items_of (map (λ p. string p.name) plugins.now))) }
{
    let mut values = Vec::new(alloc);
    for plugin in plugins {
        values.push(name_value(alloc, plugin.name.as_str())?)?;
    }
    Ok(Value::Array(values))
}

// The values of a site that are no numbers.
#[derive(Drop)]
struct Lists {
    active: Value,
    counts: Value,
    events: Value,
    options: Value,
    plugins: Value,
}

#[tactic(auto, using(crate::proofs::Desks::options_told))]
fn lists_of(alloc: Global, site: &Site, kit: &Kit) -> Result<Lists, AllocError>
    ensures active { IfOk result (λ l. view l.active
        ≡ array (items_of (map string site.now.active))) }
    ensures counts { IfOk result (λ l. view l.counts ≡ counts_data site.now.posts) }
    ensures events { IfOk result (λ l. view l.events
        ≡ array (items_of (map event_data site.now.events))) }
    ensures options { IfOk result (λ l. view l.options
        ≡ array (items_of (map option_data site.now.options))) }
    ensures plugins { IfOk result (λ l. view l.plugins
        ≡ array (items_of (map (λ p. string p.name) (kit_view kit.now).plugins))) }
{
    let options = site.options()?;
    Ok(Lists {
        active: active_values(alloc, site.active())?,
        counts: counts_value(alloc, site)?,
        events: event_values(alloc, site.all_events())?,
        options: option_values(alloc, options.as_slice())?,
        plugins: plugin_values(alloc, kit.plugins())?,
    })
}

fn site_object(alloc: Global, lists: Lists, site: &Site, applied: u64) -> Result<Value, AllocError>
    ensures { IfOk result (λ v. view v ≡ object (member (codes "active") (view lists.active)
        (member (codes "applied") (number (unsigned applied))
        (member (codes "counts") (view lists.counts)
        (member (codes "events") (view lists.events)
        (member (codes "moment") (number (unsigned site.now.moment))
        (member (codes "options") (view lists.options)
        (member (codes "plugins") (view lists.plugins)
        (member (codes "profile") (number (unsigned site.now.profile)) no_members))))))))) }
{
    let Lists {
        active,
        counts,
        events,
        options,
        plugins,
    } = lists;
    let (moment, profile) = (site.now().seconds(), u64::from(site.profile()));
    json!(in alloc; {
        "active": active,
        "applied": applied,
        "counts": counts,
        "events": events,
        "moment": moment,
        "options": options,
        "plugins": plugins,
        "profile": profile
    })
}

fn site_value(alloc: Global, site: &Site, kit: &Kit, applied: u64) -> Result<Value, AllocError>
    ensures { IfOk result (λ v. view v ≡ site_data (kit_view kit.now) site.now applied) }
{
    let lists = lists_of(alloc, site, kit)?;
    site_object(alloc, lists, site, applied)
}

fn overview(alloc: Global, site: &Site, kit: &Kit, applied: u64) -> Result<Reply, AllocError>
    ensures { IfOk result (λ r. r ≡ desk_of (kit_view kit.now) site.now applied Desk.Site) }
{
    let value = site_value(alloc, site, kit, applied)?;
    json_reply(alloc, 200, &value)
}
