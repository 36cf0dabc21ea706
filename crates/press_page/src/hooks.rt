//! The hooks that a page runs, with their arguments.

ghost use Rattle.std.specs.Prelude.{◌≡◌, ◌∷◌, [], IfOk, None, decimal};
ghost use Rattle.press_text.specs.Names.{name_fault};
ghost use Rattle.press_run.specs.Boot.{bare};

use press_posts::{Fire, Post};
use press_text::{Items, Text, Texts};
use std::alloc::{AllocError, Global};

/// One action, without arguments.
pub fn action_without_args(alloc: Global, hook: &str) -> Result<Items<Fire>, AllocError>
    requires { name_fault 64 hook.now ≡ None }
    ensures { IfOk result (λ fs. fs ≡ bare hook.now ∷ []) }
{
    let fire = Fire::bare(alloc, hook)?;
    Ok(Items::from_vec(vec![in alloc; fire]?))
}

/// The arguments of `the_title`: the title, and the id in decimal.
pub fn title_args(alloc: Global, post: &Post) -> Result<Texts, AllocError>
    ensures { IfOk result (λ ts. ts ≡ post.now.title ∷ decimal post.now.id ∷ []) }
{
    let title = post.title.copy(alloc)?;
    let id = decimal(alloc, post.id)?;
    Texts::from_vec(vec![in alloc; title, id]?)
}

/// The argument of `the_content`.
pub fn content_args(alloc: Global, post: &Post) -> Result<Texts, AllocError>
    ensures { IfOk result (λ ts. ts ≡ post.now.content ∷ []) }
{
    let content = post.content.copy(alloc)?;
    Ok(Texts::one(alloc, content))
}

fn decimal(alloc: Global, n: u64) -> Result<Text, AllocError>
    ensures { IfOk result (λ t. t ≡ decimal n) }
{
    let text = format!(in alloc; "{n}")?;
    Text::from_string(text)
}
