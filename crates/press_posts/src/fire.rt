//! The actions that a change of a post fires.

ghost use Rattle.std.specs.Prelude.{◌≡◌, ◌++◌, ◌∷◌, [], None, IfOk, codes, decimal, string_bytes};
ghost use Rattle.press_text.specs.Names.{name_fault};
ghost use Rattle.press_posts.specs.Transitions.{old_word, transition, general, transition_name, transition_fire, status_name, status_fire, save_fire, insert_fires, update_fires};

use crate::status::Status;
use press_text::{HookName, Items, Text, Texts};
use std::alloc::{AllocError, Global};

/// An action, and the arguments that its callbacks get.
#[derive(Debug)]
pub struct Fire {
    pub hook: HookName,
    pub args: Texts,
}

impl Drop for Fire {
    fn drop(self) {
        let Fire { hook: _, args: _ } = self;
    }
}

impl Fire {
    /// An action without arguments.
    pub fn bare(alloc: Global, hook: &str) -> Result<Fire, AllocError>
        requires { name_fault 64 hook.now ≡ None }
        ensures { IfOk result (λ f. f ≡ record { hook = hook.now; args = [] }) }
    {
        Ok(Fire {
            hook: HookName::from_valid(alloc, hook)?,
            args: Texts::new(alloc),
        })
    }
}

/// What a transition of a post fires; None for the status before the post was.
pub fn transition(
    alloc: Global,
    old: Option<Status>,
    new: Status,
    id: u64,
) -> Result<Vec<Fire>, AllocError>
    ensures { IfOk result (λ fs. fs.items ≡ transition old new id) }
{
    let general = general(alloc, old, new, id)?;
    let turned = transition_fire(alloc, old, new, id)?;
    let reached = status_fire(alloc, new, id)?;
    Ok(vec![in alloc; general, turned, reached]?)
}

/// What an insert fires.
pub fn insert_fires(alloc: Global, new: Status, id: u64) -> Result<Items<Fire>, AllocError>
    ensures { IfOk result (λ fs. fs ≡ insert_fires new id) }
{
    let mut fires = transition(alloc, None, new, id)?;
    fires.push(save_fire(alloc, id, "")?)?;
    Ok(Items::from_vec(fires))
}

/// What an update fires.
pub fn update_fires(
    alloc: Global,
    old: Status,
    new: Status,
    id: u64,
) -> Result<Items<Fire>, AllocError>
    ensures { IfOk result (λ fs. fs ≡ update_fires old new id) }
{
    let mut fires = transition(alloc, Some(old), new, id)?;
    fires.push(save_fire(alloc, id, "1")?)?;
    Ok(Items::from_vec(fires))
}

fn general(alloc: Global, old: Option<Status>, new: Status, id: u64) -> Result<Fire, AllocError>
    ensures { IfOk result (λ f. f ≡ general old new id) }
{
    let new = Text::from_str(alloc, new.word())?;
    let old = Text::from_str(alloc, old_word(old))?;
    let id = decimal(alloc, id)?;
    let args = Texts::from_vec(vec![in alloc; new, old, id]?)?;
    Ok(Fire {
        hook: HookName::from_valid(alloc, "transition_post_status")?,
        args,
    })
}

fn transition_fire(
    alloc: Global,
    old: Option<Status>,
    new: Status,
    id: u64,
) -> Result<Fire, AllocError>
    ensures { IfOk result (λ f. f ≡ transition_fire old new id) }
{
    let name = transition_name(alloc, old_word(old), new.word())?;
    of_id(alloc, name.as_str(), id)
}

fn transition_name(alloc: Global, old: &str, new: &str) -> Result<String, AllocError>
    ensures { IfOk result (λ t. string_bytes t ≡ transition_name old.now new.now) }
{
    format!(in alloc; "{old}_to_{new}")
}

fn status_fire(alloc: Global, new: Status, id: u64) -> Result<Fire, AllocError>
    ensures { IfOk result (λ f. f ≡ status_fire new id) }
{
    let name = status_name(alloc, new.word())?;
    of_id(alloc, name.as_str(), id)
}

fn status_name(alloc: Global, new: &str) -> Result<String, AllocError>
    ensures { IfOk result (λ t. string_bytes t ≡ status_name new.now) }
{
    format!(in alloc; "{new}_post")
}

fn save_fire(alloc: Global, id: u64, update: &str) -> Result<Fire, AllocError>
    ensures { IfOk result (λ f. f ≡ save_fire id update.now) }
{
    let update = Text::from_str(alloc, update)?;
    let id = decimal(alloc, id)?;
    let args = Texts::from_vec(vec![in alloc; id, update]?)?;
    Ok(Fire {
        hook: HookName::from_valid(alloc, "save_post")?,
        args,
    })
}

// An action with a post's id alone.
fn of_id(alloc: Global, name: &str, id: u64) -> Result<Fire, AllocError>
    requires { name_fault 64 name.now ≡ None }
    ensures { IfOk result (λ f. f ≡ record { hook = name.now; args = decimal id ∷ [] }) }
{
    let id = decimal(alloc, id)?;
    let args = Texts::from_vec(vec![in alloc; id]?)?;
    Ok(Fire {
        hook: HookName::from_valid(alloc, name)?,
        args,
    })
}

fn old_word(old: Option<Status>) -> &'static str
    ensures { result.now ≡ old_word old }
{
    match old {
        None => "new",
        Some(status) => status.word(),
    }
}

fn decimal(alloc: Global, n: u64) -> Result<Text, AllocError>
    ensures { IfOk result (λ t. t ≡ decimal n) }
{
    let text = format!(in alloc; "{n}")?;
    Text::from_str(alloc, text.as_str())
}
