ghost use Rattle.std.specs.Prelude.{◌≡◌, ℕ, List};
ghost use Rattle.press_callbacks.specs.Kits.{is_named as named_among};
ghost use Rattle.press_kit.specs.declared.kit_parts.Scripted.{Scripted as Told};
ghost use Rattle.press_lint.specs.NameSets.{holds};

use crate::name_set::NameSet;
use press_kit::Scripted;

/// Callbacks beside the set of their names.
pub struct Known<'k> {
    callbacks: &'k [Scripted],
    names: NameSet<'k>,
    ghost named: { (q : List ℕ) → holds names q
        ≡ named_among (λ (c : Told). c.id) callbacks.now q },
}

impl Drop for Known<'_> {
    fn drop(self) {
        let Known {
            callbacks: _,
            names: _,
        } = self;
    }
}

impl<'k> Known<'k> {
    pub fn new(callbacks: &'k [Scripted], names: NameSet<'k>) -> Known<'k>
        requires { (q : List ℕ) → holds names q
            ≡ named_among (λ (c : Told). c.id) callbacks.now q }
        ensures { result.callbacks.now ≡ callbacks.now }
    {
        Known { callbacks, names }
    }

    pub fn callbacks(&self) -> &'k [Scripted]
        ensures { result.now ≡ self.now.callbacks.now }
    {
        self.callbacks
    }

    /// Whether a callback has that name.
    pub fn has(&self, name: &[u8]) -> bool
        ensures { result ≡ named_among (λ (c : Told). c.id) self.now.callbacks.now name.now }
    {
        self.names.has(name)
    }
}
