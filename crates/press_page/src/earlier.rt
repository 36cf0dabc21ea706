//! What was before sites had a profile.

ghost use Rattle.std.specs.Prelude.{◌≡◌};
ghost use Rattle.press_callbacks.specs.Kits.{KitView};
ghost use Rattle.press_site.specs.SiteView.{SiteView};
ghost use Rattle.press_page.specs.Earlier as earlier;
ghost use Rattle.press_page.specs.Page.{page_of};
ghost use Rattle.press_page.specs.declared.reply.Target.{Target};

use press_run::{changes_keep_profile, runs_as_before};

/// What is asked of a site in profile 1 is replied to as it was before sites had a profile.
pub fn pages_as_before()
    ensures { (kit : KitView) (site : SiteView) (target : Target) → site.profile ≡ 1
        → page_of kit site target ≡ earlier.page_of kit site target }
{
    runs_as_before();
    changes_keep_profile();
}
