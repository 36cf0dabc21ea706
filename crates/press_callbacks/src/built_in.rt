//! The callbacks that every machine has.

ghost use Rattle.std.specs.Prelude.{◌≡◌, bytes_eq};
ghost use Rattle.press_callbacks.specs.BuiltIns.{do_shortcode as named_do_shortcode, check_and_publish_future_post as named_check_and_publish, is_built_in};

use press_text::CallbackId;

/// The name of the built-in callback that answers the shortcode scan of its first argument
/// (`do_shortcode`).
pub fn do_shortcode() -> CallbackId
    ensures { result ≡ named_do_shortcode }
{
    match CallbackId::new("do_shortcode") {
        Ok(id) => id,
        Err(_) => unreachable!(),
    }
}

/// The name of the built-in callback that publishes the post whose id is its first argument, if it
/// is future and due, and answers that argument (`check_and_publish_future_post`).
pub fn check_and_publish_future_post() -> CallbackId
    ensures { result ≡ named_check_and_publish }
{
    match CallbackId::new("check_and_publish_future_post") {
        Ok(id) => id,
        Err(_) => unreachable!(),
    }
}

/// Whether a name is that of the built-in `do_shortcode`.
pub fn is_do_shortcode(name: &[u8]) -> bool
    ensures { result ≡ bytes_eq name.now named_do_shortcode }
{
    is_same(name, b"do_shortcode".as_slice())
}

/// Whether a name is that of a built-in callback.
pub fn is_built_in(name: &[u8]) -> bool
    ensures { result ≡ is_built_in name.now }
{
    is_do_shortcode(name) || is_same(name, b"check_and_publish_future_post".as_slice())
}

// The lengths are compared first, since nearly every name has another one.
#[tactic(auto, using(crate::proofs::Others::of_another_length))]
fn is_same(name: &[u8], own: &[u8]) -> bool
    ensures { result ≡ bytes_eq name.now own.now }
{
    if name.len() != own.len() {
        return false;
    }
    name == own
}
