//! Pages, shown before the plays.

ghost use Rattle.std.specs.Prelude.{◌≡◌, IfOk, string_bytes};
ghost use Rattle.press_callbacks.specs.Kits.{kit_view};
ghost use Rattle.press_page.specs.Page.{page_of};
ghost use Rattle.press_play.specs.Lines.{line};
ghost use Rattle.press_play.specs.Pages.{page_lines, reply_data};

use crate::line::reply_line;
use press_callbacks::Kit;
use press_page::{Target, page};
use press_site::Site;
use press_text::Items;
use std::alloc::{AllocError, Global};

// One page; its line.
fn show(alloc: Global, kit: &Kit, site: &Site, target: Target) -> Result<String, AllocError>
    ensures { IfOk result (λ t.
        string_bytes t ≡ line (reply_data (page_of (kit_view kit.now) site.now target))) }
{
    let reply = page(alloc, site, kit, &target)?;
    reply_line(alloc, &reply)
}

/// The lines of the replies to these targets, in turn.
pub fn pages_on(
    alloc: Global,
    kit: &Kit,
    site: &Site,
    targets: Items<Target>,
) -> Result<String, AllocError>
    ensures { IfOk result (λ t. string_bytes t ≡ page_lines (kit_view kit.now) site.now targets) }
{
    let mut lines = String::new(alloc);
    for target in targets.into_vec() {
        let line = show(alloc, kit, site, target)?;
        lines.push_str(line.as_str())?;
    }
    Ok(lines)
}
