//! Commands, applied before the plays.

ghost use Rattle.std.specs.Prelude.{◌≡◌, IfOk, OnOk, string_bytes};
ghost use Rattle.press_callbacks.specs.Kits.{kit_view};
ghost use Rattle.press_apply.specs.Apply.{applied};
ghost use Rattle.press_apply.specs.declared.value.Value.TheVariants.{Cmd};
ghost use Rattle.press_page.specs.Json.{outcome_data};
ghost use Rattle.press_play.specs.Commands.{outcome_lines, site_after};
ghost use Rattle.press_play.specs.Lines.{line};

use crate::line::outcome_line;
use press_apply::{Stamped, Value, apply};
use press_callbacks::Kit;
use press_site::Site;
use press_text::Items;
use std::alloc::{AllocError, Global};

// One command; its line.
fn command(
    alloc: Global,
    kit: &Kit,
    site: &mut Site,
    stamped: Stamped,
) -> Result<String, AllocError>
    ensures after { OnOk result
        (site.new ≡ (applied (kit_view kit.now) site.old (Cmd stamped)).0) }
    ensures told { IfOk result (λ t. string_bytes t
        ≡ line (outcome_data (applied (kit_view kit.now) site.old (Cmd stamped)).1)) }
{
    let value = Value::Cmd(stamped);
    let outcome = apply(alloc, site, kit, &value)?;
    outcome_line(alloc, outcome)
}

/// Applies the commands in turn; the lines of what became of them.
pub fn commands_on(
    alloc: Global,
    kit: &Kit,
    site: &mut Site,
    commands: Items<Stamped>,
) -> Result<String, AllocError>
    ensures after { OnOk result (site.new ≡ site_after (kit_view kit.now) commands site.old) }
    ensures told { IfOk result (λ t.
        string_bytes t ≡ outcome_lines (kit_view kit.now) commands site.old) }
{
    let mut lines = String::new(alloc);
    for stamped in commands.into_vec() {
        let line = command(alloc, kit, site, stamped)?;
        lines.push_str(line.as_str())?;
    }
    Ok(lines)
}
