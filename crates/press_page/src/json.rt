//! Replies in JSON.

ghost use Rattle.std.specs.Prelude.{◌≡◌, IfOk, None, false, option_map, Some};
ghost use Rattle.serde_json.specs.View.{view};
ghost use Rattle.serde_json.specs.Written.{compact_text, has_float};
ghost use Rattle.press_callbacks.specs.Kits.{kit_view};
ghost use Rattle.press_run.specs.Outcome.{Refuses};
ghost use Rattle.press_text.specs.Gives.{Gives};
ghost use Rattle.press_page.specs.Json.{json_reply, outcome_data, post_body, post_data, post_reply};
ghost use Rattle.press_page.specs.Json.{result_reply, status_data, status_reply};
ghost use Rattle.press_page.specs.Rendering.{TellsLimits, meaning_in, state_in};

use crate::filtered::Filtered;
use crate::rendering::{Rendering, but_at_limit};
use crate::reply::{ContentKind, Reply};
use press_callbacks::Kit;
use press_posts::Post;
use press_run::RunFault;
use press_site::{Outcome, Site};
use press_text::Text;
use serde_json::{Value, json};
use std::alloc::{AllocError, Global};

/// A post with its title and content by their filters, from a fresh boot; 404 where there is none,
/// and 500 at a limit.
pub fn post_reply(
    alloc: Global,
    site: &Site,
    kit: &Kit,
    post: Option<&Post>,
) -> Result<Reply, AllocError>
    ensures { IfOk result (λ r.
        r ≡ post_reply (kit_view kit.now) site.now (option_map (λ p. p.now) post.entry)) }
{
    match post {
        Some(post) => show_post(alloc, site, kit, post),
        None => status_reply(alloc, 404),
    }
}

fn show_post(alloc: Global, site: &Site, kit: &Kit, post: &Post) -> Result<Reply, AllocError>
    ensures { IfOk result (λ r. r ≡ post_reply (kit_view kit.now) site.now (Some post.now)) }
{
    let mut rendering = Rendering::new(alloc, kit, site)?;
    match but_at_limit(post_body(alloc, kit, &mut rendering, post))? {
        Some(body) => Ok(Reply {
            status: 200,
            kind: ContentKind::Json,
            body,
        }),
        None => status_reply(alloc, 500),
    }
}

#[tactic(auto, unfolding(crate::specs::Json::post_body))]
fn post_body(
    alloc: Global,
    kit: &Kit,
    rendering: &mut Rendering<'_>,
    post: &Post,
) -> Result<Text, RunFault>
    ensures gives { Gives Refuses Some result
        (post_body (meaning_in kit.now) post.now (state_in rendering.old)) }
    ensures limits { TellsLimits result rendering.old rendering.new }
{
    let texts = rendering.filter_post(kit, post)?;
    let value = post_value(alloc, post, &texts)?;
    let body = text_of(alloc, &value)?;
    rendering.within(body)
}

fn post_value(alloc: Global, post: &Post, texts: &Filtered) -> Result<Value, AllocError>
    ensures { IfOk result (λ v. view v ≡ post_data post.now texts.now) }
{
    let (content, title) = (texts.content.as_str(), texts.title.as_str());
    let (date, id, status) = (post.date.seconds(), post.id, post.status.word());
    json!(in alloc; {
        "content": {"rendered": content},
        "date": date,
        "id": id,
        "status": status,
        "title": {"rendered": title}
    })
}

/// The outcome of a command; 404 where there is none.
pub fn result_reply(alloc: Global, outcome: Option<Outcome>) -> Result<Reply, AllocError>
    ensures { IfOk result (λ r. r ≡ result_reply outcome) }
{
    let Some(outcome) = outcome else {
        return status_reply(alloc, 404);
    };
    let value = outcome_value(alloc, outcome)?;
    json_reply(alloc, 200, &value)
}

fn outcome_value(alloc: Global, outcome: Outcome) -> Result<Value, AllocError>
    ensures { IfOk result (λ v. view v ≡ outcome_data outcome) }
{
    match outcome {
        Outcome::Done(id) => json!(in alloc; {"done": id}),
        Outcome::Refused(fault) => {
            let fault = u64::from(fault);
            json!(in alloc; {"refused": fault})
        }
    }
}

// A status alone.
pub(crate) fn status_reply(alloc: Global, status: u16) -> Result<Reply, AllocError>
    ensures { IfOk result (λ r. r ≡ status_reply status) }
{
    let value = status_value(alloc, status)?;
    json_reply(alloc, status, &value)
}

fn status_value(alloc: Global, status: u16) -> Result<Value, AllocError>
    ensures { IfOk result (λ v. view v ≡ status_data status) }
{
    let status = u64::from(status);
    json!(in alloc; {"code": status})
}

pub fn json_reply(alloc: Global, status: u16, value: &Value) -> Result<Reply, AllocError>
    requires { has_float (view value.now) ≡ false }
    ensures { IfOk result (λ r. r ≡ json_reply status (view value.now)) }
{
    Ok(Reply {
        status,
        kind: ContentKind::Json,
        body: text_of(alloc, value)?,
    })
}

// The value's text: compact, with sorted keys.
fn text_of(alloc: Global, value: &Value) -> Result<Text, AllocError>
    requires { has_float (view value.now) ≡ false }
    ensures { IfOk result (λ t. t ≡ compact_text (view value.now)) }
{
    let text = value.to_string(alloc)?;
    Text::from_string(text)
}
