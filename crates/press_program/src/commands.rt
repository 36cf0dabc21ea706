//! The commands of a file, applied to a site.

ghost use Rattle.std.specs.Prelude.{◌≡◌, map, IfOk};
ghost use Rattle.press_callbacks.specs.Kits.{kit_view};
ghost use Rattle.press_apply.specs.Apply.{fold_values};
ghost use Rattle.press_apply.specs.declared.value.Value.TheVariants.{Cmd};

use press_apply::{Stamped, Value, apply};
use press_callbacks::Kit;
use press_site::Site;
use press_text::Items;
use std::alloc::{AllocError, Global};

/// Applies the commands in their order.
pub fn apply_all(
    alloc: Global,
    site: &mut Site,
    kit: &Kit,
    commands: Items<Stamped>,
) -> Result<(), AllocError>
    ensures { IfOk result (λ _. site.new
        ≡ fold_values (kit_view kit.now) site.old (map (λ c. Cmd c) commands)) }
{
    for stamped in commands.into_vec() {
        apply(alloc, site, kit, &Value::Cmd(stamped))?;
    }
    Ok(())
}
