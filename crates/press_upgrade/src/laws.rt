//! What stays the same where one kit extends another.

ghost use Rattle.std.specs.Prelude.{◌≡◌, ◌≢◌, ℕ, ◌++◌, IfSome, List, [], ◌∷◌, None, false};
ghost use Rattle.press_callbacks.specs.Kits.{KitView, Scripts, kit_fault, view_of};
ghost use Rattle.press_callbacks.specs.declared.plugin.Plugin.{Plugin};
ghost use Rattle.press_run.specs.Links.{Changes};
ghost use Rattle.press_run.specs.Outcome.{job_meaning};
ghost use Rattle.press_run.specs.Run.{State};
ghost use Rattle.press_run.specs.declared.job.Job.{Job};
ghost use Rattle.press_apply.specs.Apply.{applied, site_after};
ghost use Rattle.press_apply.specs.declared.value.Value.{Value};
ghost use Rattle.press_page.specs.Desk.{desk_of};
ghost use Rattle.press_page.specs.Page.{page_of};
ghost use Rattle.press_page.specs.declared.desk.Desk.{Desk};
ghost use Rattle.press_page.specs.declared.desk.Desk.TheVariants as desk;
ghost use Rattle.press_page.specs.declared.reply.Target.{Target};
ghost use Rattle.press_upgrade.specs.Extends.{Extends, IsWhole, KnowsTables, ask_new};

/// Where one kit extends another, each run of hooks comes to the same over both, as long as the
/// callbacks in the tables are of the old one; and then they are still.
pub fn runs_over_extension()
    ensures same { (old new : KitView) (changes : Changes) (job : Job) (s : State)
        → IsWhole old → Extends old new → KnowsTables old s
        → job_meaning changes new.scripts job s ≡ job_meaning changes old.scripts job s }
    ensures known { (old new : KitView) (changes : Changes) (job : Job) (s : State)
        → IsWhole old → Extends old new → KnowsTables old s
        → IfSome (job_meaning changes new.scripts job s) (λ a. KnowsTables old a.state) }
{}

/// Where one kit extends another, values of which none is a command that names a plugin of the new
/// one alone make the same site over both, with all that became of the commands; and each value
/// behind others gives the same outcome.
pub fn values_over_extension()
    ensures sites { (old new : KitView) (values : List Value)
        → IsWhole old → Extends old new → ask_new old new values ≡ false
        → site_after new values ≡ site_after old values }
    ensures outcomes { (old new : KitView) (values : List Value) (v : Value)
        → IsWhole old → Extends old new → ask_new old new (values ++ v ∷ []) ≡ false
        → applied new (site_after new values) v ≡ applied old (site_after old values) v }
{}

/// Behind such values each page is the same over both kits, and so is all that editors see but for
/// the list of the plugins that there are.
pub fn pages_over_extension()
    ensures pages { (old new : KitView) (values : List Value) (target : Target)
        → IsWhole old → Extends old new → ask_new old new values ≡ false
        → page_of new (site_after new values) target
        ≡ page_of old (site_after old values) target }
    ensures desk { (old new : KitView) (values : List Value) (count : ℕ) (asked : Desk)
        → IsWhole old → Extends old new → ask_new old new values ≡ false → asked ≢ desk.Site
        → desk_of new (site_after new values) count asked
        ≡ desk_of old (site_after old values) count asked }
{}

/// Callbacks and plugins in which `Kit::build` finds no fault make a whole kit, in whatever order
/// they are given; and kits made of such extend one another where these do.
pub fn built_kits_are_whole()
    ensures whole { (scripts : Scripts) (plugins : List Plugin) → kit_fault scripts plugins ≡ None
        → IsWhole (view_of scripts plugins) }
    ensures extends { (old new : KitView) → IsWhole new → Extends old new
        → Extends (view_of old.scripts old.plugins) (view_of new.scripts new.plugins) }
{}
