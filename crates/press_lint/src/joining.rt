//! Kits of several files, one behind the other.

ghost use Rattle.std.specs.Prelude.{◌≡◌, ◌++◌, IfOk};
ghost use Rattle.press_lint.specs.Joints.{join, no_parts};

use press_kit::KitParts;
use press_text::Items;
use std::alloc::{AllocError, Global};

fn behind<T: Drop>(items: Items<T>, more: Items<T>) -> Result<Items<T>, AllocError>
    ensures { IfOk result (λ all. all ≡ items ++ more) }
{
    let mut all = items.into_vec();
    let mut more = more.into_vec();
    all.append(&mut more)?;
    Ok(Items::from_vec(all))
}

/// The callbacks and plugins of no file.
pub fn no_parts(alloc: Global) -> KitParts
    ensures { result ≡ no_parts }
{
    KitParts {
        callbacks: Items::new(alloc),
        plugins: Items::new(alloc),
    }
}

/// The callbacks and plugins of a file, with those of another one behind them.
pub fn join(parts: KitParts, other: KitParts) -> Result<KitParts, AllocError>
    ensures { IfOk result (λ kit. kit ≡ join parts other) }
{
    Ok(KitParts {
        callbacks: behind(parts.callbacks, other.callbacks)?,
        plugins: behind(parts.plugins, other.plugins)?,
    })
}
