//! What was before sites had a profile.

ghost use Rattle.std.specs.Prelude.{◌≡◌, IfSome};
ghost use Rattle.press_callbacks.specs.Kits.{Scripts};
ghost use Rattle.press_site.specs.Effects.{effect_on};
ghost use Rattle.press_run.specs.Earlier as earlier;
ghost use Rattle.press_run.specs.Earlier.{KeepsProfile};
ghost use Rattle.press_run.specs.Links.{Changes, read_only};
ghost use Rattle.press_run.specs.Outcome.{job_meaning};
ghost use Rattle.press_run.specs.Run.{State};
ghost use Rattle.press_run.specs.declared.job.Job.{Job};

/// In profile 1 a job comes to what it came to before sites had a profile, and leaves the profile
/// as it is.
pub fn runs_as_before()
    ensures same { (changes : Changes) (scripts : Scripts) (job : Job) (s : State)
        → KeepsProfile changes → s.site.profile ≡ 1
        → job_meaning changes scripts job s ≡ earlier.job_meaning changes scripts job s }
    ensures profile { (changes : Changes) (scripts : Scripts) (job : Job) (s : State)
        → KeepsProfile changes → s.site.profile ≡ 1
        → IfSome (job_meaning changes scripts job s) (λ a. a.state.site.profile ≡ 1) }
{}

/// Changes of a site, and of one that is only read, leave its profile as it is, but for a switch of
/// it.
pub fn changes_keep_profile()
    ensures effects { KeepsProfile effect_on }
    ensures reads { KeepsProfile read_only }
{}
