ghost use Rattle.std.specs.Prelude.{◌≡◌, ◌||◌, ℕ, List, bytes_eq, is_some};
ghost use Rattle.std.specs.List.{list_any};
ghost use Rattle.press_kit.specs.declared.play_file.Play.{Play as Played};
ghost use Rattle.press_lint.specs.Accepts.{count_of, most_accepted};
ghost use Rattle.press_lint.specs.NameSets.{holds};
ghost use Rattle.press_lint.specs.Runs.{is_run_by};
ghost use Rattle.press_lint.specs.Spots.{has_spot, is_put_at};

use crate::accepted::Accepted;
use crate::name_set::NameSet;
use crate::spots::Spots;
use press_kit::{KitParts, Play};
use press_text::CallbackId;

/// A kit and plays beside the set of the hooks that they run, the arguments that its callbacks get,
/// and where it puts them.
pub struct Run<'k> {
    pub kit: &'k KitParts,
    pub plays: &'k [Play],
    pub hooks: NameSet<'k>,
    pub accepted: Accepted<'k>,
    pub spots: Spots,
    ghost run: { (q : List ℕ) → holds hooks q
        ≡ (is_run_by kit.now.callbacks q
        || list_any (λ (p : Played). bytes_eq p.hook q) plays.now) },
    ghost given: { (q : List ℕ) → count_of accepted q ≡ most_accepted kit.now q },
    ghost put: { (q : List ℕ) → has_spot spots q ≡ is_put_at kit.now q },
}

impl Drop for Run<'_> {
    fn drop(self) {
        let Run {
            kit: _,
            plays: _,
            hooks: _,
            accepted: _,
            spots: _,
        } = self;
    }
}

impl Run<'_> {
    /// Whether a script of the kit or a play runs the hook of that name.
    pub fn has(&self, hook: &[u8]) -> bool
        ensures { result ≡ (is_run_by self.now.kit.now.callbacks hook.now || list_any
            (λ (p : Played). bytes_eq p.hook hook.now) self.now.plays.now) }
    {
        self.hooks.has(hook)
    }

    /// The most arguments that the callback of that name gets, where one is put somewhere.
    pub fn most(&self, id: &CallbackId) -> Option<u32>
        ensures { result ≡ most_accepted self.now.kit.now id.now }
    {
        self.accepted.most(id.as_bytes())
    }

    /// Whether something puts the callback of that name anywhere.
    pub fn is_put(&self, name: &[u8]) -> bool
        ensures { result ≡ is_some (most_accepted self.now.kit.now name.now) }
    {
        self.accepted.most(name).is_some()
    }

    /// Whether something puts a callback at that spot.
    pub fn has_spot(&self, spot: &str) -> bool
        ensures { result ≡ is_put_at self.now.kit.now spot.now }
    {
        self.spots.has(spot)
    }
}
