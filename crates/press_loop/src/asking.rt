//! The requests by which the steps of a schedule come over a connection.

ghost use Rattle.std.specs.Prelude.{◌≡◌, IfOk, codes, option_map, string_bytes, vec_items};
ghost use Rattle.press_forms.specs.Forms.{form_of};
ghost use Rattle.press_world.specs.Models.{model};
ghost use Rattle.press_loop.specs.Requests.{command_bytes, get_bytes, head_of_post, is_node, message_bytes, path_of, post_bytes, request_of};

use press_apply::Stamped;
use press_forms::form_of;
use press_http::LONGEST_FORM;
use press_page::Target;
use press_wire::{Message, WireFault, encode_msg};
use press_world::{Step, World};
use std::alloc::{AllocError, Global};

const FORM: &str = "application/x-www-form-urlencoded";

const BYTES: &str = "application/octet-stream";

#[tactic(auto, unfolding(crate::specs::Requests::head_of_post))]
fn head_of_post(alloc: Global, path: &str, kind: &str, count: usize) -> Result<String, AllocError>
    ensures { IfOk result (λ head. string_bytes head ≡ head_of_post path.now kind.now count) }
{
    format!(in alloc;
        "POST {path} HTTP/1.1\r\nHost: 127.0.0.1\r\nContent-Type: {kind}\r\nContent-Length: {count}\r\n\r\n"
    )
}

fn post(alloc: Global, path: &str, kind: &str, body: &[u8]) -> Result<Vec<u8>, AllocError>
    ensures { IfOk result (λ bytes. bytes.items ≡ post_bytes path.now kind.now body.now) }
{
    let head = head_of_post(alloc, path, kind, body.len())?;
    let mut request = head.into_bytes();
    request.extend_from_slice(body)?;
    Ok(request)
}

fn path_of(alloc: Global, target: &Target) -> Result<String, AllocError>
    ensures { IfOk result (λ path. string_bytes path ≡ path_of target.now) }
{
    match target {
        Target::Front => String::from_str(alloc, "/"),
        Target::Post(id) => format!(in alloc; "/?p={id}"),
        Target::Json(id) => format!(in alloc; "/wp-json/wp/v2/posts/{id}"),
        Target::Result(token) => {
            let editor = token.editor.as_str();
            let seq = token.seq;
            format!(in alloc; "/result/{editor}/{seq}")
        }
    }
}

#[tactic(auto, unfolding(crate::specs::Requests::get_bytes))]
fn head_of_get(alloc: Global, path: &str) -> Result<String, AllocError>
    ensures { IfOk result (λ head. string_bytes head ≡ get_bytes path.now) }
{
    format!(in alloc; "GET {path} HTTP/1.1\r\nHost: 127.0.0.1\r\n\r\n")
}

fn get(alloc: Global, target: &Target) -> Result<Vec<u8>, AllocError>
    ensures { IfOk result (λ bytes. bytes.items ≡ get_bytes (path_of target.now)) }
{
    let path = path_of(alloc, target)?;
    Ok(head_of_get(alloc, &path)?.into_bytes())
}

// None if the form is too long for a body.
fn command_request(alloc: Global, stamped: &Stamped) -> Result<Option<Vec<u8>>, AllocError>
    ensures { IfOk result (λ request. option_map vec_items request
        ≡ command_bytes (form_of stamped.now)) }
{
    let form = form_of(alloc, stamped)?;
    if form.len() as u64 > LONGEST_FORM {
        return Ok(None);
    }
    Ok(Some(post(alloc, "/command", FORM, form.as_bytes())?))
}

// None if no bytes spell the message.
fn message_request(alloc: Global, message: &Message) -> Result<Option<Vec<u8>>, AllocError>
    ensures { IfOk result (λ request. option_map vec_items request ≡ message_bytes message.now) }
{
    match encode_msg(alloc, message) {
        Ok(bytes) => Ok(Some(post(alloc, "/peer", BYTES, &bytes)?)),
        Err(WireFault::TooLong) => Ok(None),
        Err(_) => Err(AllocError),
    }
}

/// The bytes of the request by which a step comes to a node. None for a step that comes without a
/// connection: a wake, a restart, one that names no node or no message, and a command whose form is
/// longer than a body may be.
pub fn request_of(
    alloc: Global,
    nodes: usize,
    step: &Step,
    world: &World,
) -> Result<Option<Vec<u8>>, AllocError>
    ensures { IfOk result (λ request. option_map vec_items request
        ≡ request_of nodes (model world.now) step.now) }
{
    match step {
        Step::Submit { node, command, .. } if is_node(nodes, *node) => {
            command_request(alloc, command)
        }
        Step::Get { node, target } if is_node(nodes, *node) => Ok(Some(get(alloc, target)?)),
        Step::Deliver { message, .. } => match world.sent(*message) {
            Some(message) => message_request(alloc, message),
            None => Ok(None),
        },
        Step::Submit { .. } | Step::Get { .. } | Step::Wake { .. } | Step::Restart { .. } => {
            Ok(None)
        }
    }
}

fn is_node(nodes: usize, number: u64) -> bool
    ensures { result ≡ is_node nodes number }
{
    1 <= number && number <= nodes as u64
}
