//! What a command is refused for before anything runs.

ghost use Rattle.std.specs.Prelude.{◌≡◌, option_map};
ghost use Rattle.press_site.specs.Plugins.{is_active};
ghost use Rattle.press_apply.specs.Apply.{wanted_fault, update_fault, move_fault, delete_fault};

use press_posts::{Move, Post, Status};
use press_site::SiteFault;
use press_text::Name;

/// Nothing is put into the trash by an insert.
pub fn wanted_fault(status: Status) -> Option<SiteFault>
    ensures { result ≡ wanted_fault status }
{
    if status.is_trash() {
        Some(SiteFault::IsTrashed)
    } else {
        None
    }
}

pub fn update_fault(status: Status, post: Option<&Post>) -> Option<SiteFault>
    ensures { result ≡ update_fault status (option_map (λ p. p.now) post.entry) }
{
    match post {
        None => Some(SiteFault::NoSuchPost),
        Some(post) => {
            if post.status.is_trash() || status.is_trash() {
                Some(SiteFault::IsTrashed)
            } else {
                None
            }
        }
    }
}

pub fn move_fault(to: Move, post: Option<&Post>) -> Option<SiteFault>
    ensures { result ≡ move_fault to (option_map (λ p. p.now) post.entry) }
{
    match post {
        None => Some(SiteFault::NoSuchPost),
        Some(post) => match post.status_after_move(to) {
            Ok(_) => None,
            Err(fault) => Some(SiteFault::from(fault)),
        },
    }
}

pub fn delete_fault(post: Option<&Post>) -> Option<SiteFault>
    ensures { result ≡ delete_fault (option_map (λ p. p.now) post.entry) }
{
    match post {
        None => Some(SiteFault::NoSuchPost),
        Some(post) => {
            if post.status.is_trash() {
                None
            } else {
                Some(SiteFault::NotTrashed)
            }
        }
    }
}

/// Whether a plugin is among the active ones.
pub fn is_active(active: &[Name], plugin: &Name) -> bool
    ensures { result ≡ is_active plugin.now active.now }
{
    active.iter().any(|name| plugin.is(name))
}
