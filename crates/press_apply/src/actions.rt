//! The actions that a command starts.

ghost use Rattle.std.specs.Prelude.{◌≡◌, ◌∷◌, [], None, IfOk, decimal};
ghost use Rattle.press_text.specs.Names.{name_fault};
ghost use Rattle.press_apply.specs.Apply.{about, event_fires};

use press_events::Event;
use press_posts::Fire;
use press_text::{HookName, Items, Text, Texts};
use std::alloc::{AllocError, Global};

/// An action with a post's id.
pub fn about(alloc: Global, hook: &str, id: u64) -> Result<Items<Fire>, AllocError>
    requires { name_fault 64 hook.now ≡ None }
    ensures { IfOk result (λ fs. fs ≡ about hook.now id) }
{
    let id = decimal(alloc, id)?;
    let fire = Fire {
        hook: HookName::from_valid(alloc, hook)?,
        args: Texts::one(alloc, id),
    };
    Ok(Items::from_vec(vec![in alloc; fire]?))
}

/// An event that was taken is done with its argument.
pub fn event_fires(alloc: Global, taken: bool, event: &Event) -> Result<Items<Fire>, AllocError>
    ensures { IfOk result (λ fs. fs ≡ event_fires taken event.now) }
{
    if !taken {
        return Ok(Items::new(alloc));
    }
    let arg = event.arg.copy(alloc)?;
    let fire = Fire {
        hook: event.hook.copy(alloc)?,
        args: Texts::one(alloc, arg),
    };
    Ok(Items::from_vec(vec![in alloc; fire]?))
}

fn decimal(alloc: Global, n: u64) -> Result<Text, AllocError>
    ensures { IfOk result (λ t. t ≡ decimal n) }
{
    let text = format!(in alloc; "{n}")?;
    Text::from_string(text)
}
