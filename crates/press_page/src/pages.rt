//! The reply to what is asked of a site.

ghost use Rattle.std.specs.Prelude.{◌≡◌, ◌∷◌, [], IfOk, codes, option_map, string_bytes, take};
ghost use Rattle.press_callbacks.specs.Kits.{kit_view};
ghost use Rattle.press_posts.specs.Published.{published};
ghost use Rattle.press_page.specs.Page.{Shows, page_of, page_with, public_post, site_name, whole_page};
ghost use Rattle.press_page.specs.Rendering.{TellsLimits, meaning_in, state_in};
ghost use Rattle.press_page.specs.Template.{fixed_body};

use crate::rendering::{Rendering, but_at_limit};
use crate::reply::{ContentKind, Reply, Target};
use crate::{json, template};
use press_callbacks::Kit;
use press_posts::Post;
use press_run::RunFault;
use press_site::Site;
use press_text::{NameFault, OptName, Text, esc_html};
use std::alloc::{AllocError, Global};

// How many posts a front page lists.
const MOST_LISTED: usize = 10;

/// The reply to a request. Pages and posts in JSON come from a fresh boot each, and the site is
/// only read. The status is 404 for a post that doesn't exist or isn't published, and for a token
/// without an outcome; a limit gives 500.
pub fn page(alloc: Global, site: &Site, kit: &Kit, target: &Target) -> Result<Reply, AllocError>
    ensures { IfOk result (λ r. r ≡ page_of (kit_view kit.now) site.now target.now) }
{
    match target {
        Target::Front => front(alloc, site, kit),
        Target::Post(id) => post(alloc, site, kit, *id),
        Target::Json(id) => json::post_reply(alloc, site, kit, public_post(site.post(*id))),
        Target::Result(token) => json::result_reply(alloc, site.result_of(token)),
    }
}

fn front(alloc: Global, site: &Site, kit: &Kit) -> Result<Reply, AllocError>
    ensures { IfOk result (λ r.
        r ≡ page_with (kit_view kit.now) site.now (take 10 (published site.now.posts))) }
{
    let ids = site.newest(MOST_LISTED)?;
    page_with(alloc, site, kit, ids.as_slice())
}

fn post(alloc: Global, site: &Site, kit: &Kit, id: u64) -> Result<Reply, AllocError>
    ensures { IfOk result (λ r. r ≡ page_of (kit_view kit.now) site.now (Target.Post id)) }
{
    if public_post(site.post(id)).is_none() {
        return fixed_reply(alloc, 404, "404 Not Found");
    }
    page_with(alloc, site, kit, &[id])
}

// A post that exists and is published.
fn public_post<'a>(post: Option<&'a Post>) -> Option<&'a Post>
    ensures { option_map (λ p. p.now) result ≡ public_post (option_map (λ p. p.now) post.entry) }
{
    match post {
        Some(post) if post.status.is_publish() => Some(post),
        _ => None,
    }
}

pub(crate) fn fixed_reply(alloc: Global, status: u16, line: &str) -> Result<Reply, AllocError>
    ensures { IfOk result (λ r.
        r ≡ record { status = status; kind = ContentKind.Html; body = fixed_body line.now }) }
{
    Ok(Reply {
        status,
        kind: ContentKind::Html,
        body: template::fixed_body(alloc, line)?,
    })
}

// The page of the posts of these ids.
pub(crate) fn page_with(
    alloc: Global,
    site: &Site,
    kit: &Kit,
    ids: &[u64],
) -> Result<Reply, AllocError>
    ensures { IfOk result (λ r. r ≡ page_with (kit_view kit.now) site.now ids.now) }
{
    let mut rendering = Rendering::new(alloc, kit, site)?;
    match but_at_limit(body_of(alloc, kit, &mut rendering, ids))? {
        Some(body) => Ok(Reply {
            status: 200,
            kind: ContentKind::Html,
            body,
        }),
        None => fixed_reply(alloc, 500, "500 Internal Server Error"),
    }
}

// What that page shows.
fn body_of(
    alloc: Global,
    kit: &Kit,
    rendering: &mut Rendering<'_>,
    ids: &[u64],
) -> Result<Text, RunFault>
    ensures shows { Shows
        (whole_page (meaning_in kit.now) (site_name rendering.old.machine.site.0.now)
        rendering.old.machine.site.0.now.posts ids.now (state_in rendering.old)) result }
    ensures limits { TellsLimits result rendering.old rendering.new }
{
    let name = site_name(alloc, rendering.site())?;
    rendering.whole_page(kit, name.as_str(), ids)?;
    let body = Text::from_string(rendering.take_text())?;
    Ok(body)
}

// The name of the site, as it is put into a page.
fn site_name(alloc: Global, site: &Site) -> Result<String, AllocError>
    ensures { IfOk result (λ t. string_bytes t ≡ site_name site.now) }
{
    let name = blogname(alloc)?;
    esc_html(alloc, site.option(&name).unwrap_or("Press"))
}

fn blogname(alloc: Global) -> Result<OptName, AllocError>
    ensures { IfOk result (λ n. n ≡ codes "blogname") }
{
    match OptName::new(alloc, "blogname") {
        Ok(name) => Ok(name),
        Err(NameFault::NoMemory) => Err(AllocError),
        Err(NameFault::BadName) | Err(NameFault::TooLong) => unreachable!(),
    }
}
