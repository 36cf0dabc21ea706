//! What was before sites had a profile.

ghost use Rattle.std.specs.Prelude.{◌≡◌, List};
ghost use Rattle.press_callbacks.specs.Kits.{KitView};
ghost use Rattle.press_apply.specs.Apply.{site_after};
ghost use Rattle.press_apply.specs.Earlier as earlier;
ghost use Rattle.press_apply.specs.Earlier.{HasNoSwitch};
ghost use Rattle.press_apply.specs.declared.value.Value.{Value};

use press_run::{changes_keep_profile, runs_as_before};

/// Values of which none switches the profile make the site that they made before sites had a
/// profile, and leave it in profile 1.
pub fn folds_as_before()
    ensures same { (kit : KitView) (values : List Value) → HasNoSwitch values
        → site_after kit values ≡ earlier.site_after kit values }
    ensures profile { (kit : KitView) (values : List Value) → HasNoSwitch values
        → (site_after kit values).profile ≡ 1 }
{
    runs_as_before();
    changes_keep_profile();
}
