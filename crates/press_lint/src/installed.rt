ghost use Rattle.std.specs.Prelude.{◌≡◌, ℕ, List};
ghost use Rattle.press_callbacks.specs.Kits.{is_named as named_among};
ghost use Rattle.press_callbacks.specs.declared.plugin.Plugin.{Plugin as OnePlugin};
ghost use Rattle.press_lint.specs.NameSets.{holds};

use crate::name_set::NameSet;
use press_kit::KitParts;

/// A kit beside the set of its plugins' names.
pub struct Installed<'k> {
    pub kit: &'k KitParts,
    pub names: NameSet<'k>,
    ghost named: { (q : List ℕ) → holds names q
        ≡ named_among (λ (p : OnePlugin). p.name) kit.now.plugins q },
}

impl Drop for Installed<'_> {
    fn drop(self) {
        let Installed { kit: _, names: _ } = self;
    }
}

impl Installed<'_> {
    /// Whether a plugin has that name.
    pub fn has(&self, name: &[u8]) -> bool
        ensures { result ≡ named_among (λ (p : OnePlugin).
            p.name) self.now.kit.now.plugins name.now }
    {
        self.names.has(name)
    }
}
