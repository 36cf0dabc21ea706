use std::alloc::{AllocError, Global};
use std::collections::BTreeSet;

/// Names that are kept elsewhere, each of which is found by binary search.
pub struct NameSet<'n> {
    names: BTreeSet<&'n [u8]>,
}

impl Drop for NameSet<'_> {
    fn drop(self) {
        let NameSet { names: _ } = self;
    }
}

impl<'n> NameSet<'n> {
    ghost use Rattle.std.specs.Prelude.{◌≡◌, ◌||◌, ℕ, List, false, not, bytes_eq, IfOk, OnOk};
    ghost use Rattle.press_lint.specs.NameSets.{holds};

    pub fn new(alloc: Global) -> NameSet<'n>
        ensures { (q : List ℕ) → holds result q ≡ false }
    {
        NameSet {
            names: BTreeSet::new(alloc),
        }
    }

    /// Puts a name into the set; returns whether it is new there.
    pub fn insert(&mut self, name: &'n [u8]) -> Result<bool, AllocError>
        ensures added { IfOk result (λ added. added ≡ not (holds self.old name.now)) }
        ensures holds { OnOk result ((q : List ℕ) → holds self.new q
            ≡ (bytes_eq name.now q || holds self.old q)) }
    {
        Ok(self.names.insert(name)?)
    }

    pub fn has(&self, name: &[u8]) -> bool
        ensures { result ≡ holds self.now name.now }
    {
        self.names.contains(name)
    }
}
