//! What was before sites had a profile.

ghost use Rattle.std.specs.Prelude.{◌≡◌, List};
ghost use Rattle.press_callbacks.specs.Kits.{KitView};
ghost use Rattle.press_apply.specs.Apply.{site_after};
ghost use Rattle.press_apply.specs.Earlier as earlier_values;
ghost use Rattle.press_apply.specs.Earlier.{HasNoSwitch};
ghost use Rattle.press_apply.specs.declared.value.Value.{Value};
ghost use Rattle.press_page.specs.Earlier as earlier_pages;
ghost use Rattle.press_page.specs.Page.{page_of};
ghost use Rattle.press_page.specs.declared.reply.Target.{Target};

use press_apply::folds_as_before;
use press_page::pages_as_before;

/// What is asked after values of which none switches the profile is replied to as it was before
/// sites had a profile.
pub fn shows_as_before()
    ensures { (kit : KitView) (values : List Value) (target : Target) → HasNoSwitch values
        → page_of kit (site_after kit values) target
        ≡ earlier_pages.page_of kit (earlier_values.site_after kit values) target }
{
    folds_as_before();
    pages_as_before();
}
