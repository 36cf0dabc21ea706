ghost use Rattle.std.specs.Prelude.{◌≡◌, IfOk, bytes_eq};
ghost use Rattle.press_text.specs.Names.{NameGives, IsName};

use crate::class::{MOST_NAME, fault_of};
use crate::name_fault::NameFault;
use std::alloc::{AllocError, Global};
use std::marker::Model;

/// The name of an option: 1 to 32 bytes of `[A-Za-z0-9_-]` (Options API).
#[derive(Debug)]
pub struct OptName {
    inside: String,
}

impl Drop for OptName {
    fn drop(self) {
        let OptName { inside: _ } = self;
    }
}

impl Model for OptName {
    ghost use Rattle.std.specs.Prelude.{ℕ, List, string_bytes};
    ghost use Rattle.press_text.specs.Names.{IsName};

    ghost Value = { List ℕ };

    ghost view = { λ n. string_bytes n.inside };

    ghost invariant = { λ n. IsName 32 (string_bytes n.inside) };
}

impl OptName {
    /// Refuses by BadName (empty), then TooLong (over 32 bytes), then BadName (a byte outside the
    /// class).
    pub fn new(alloc: Global, text: &str) -> Result<OptName, NameFault>
        ensures { NameGives 32 result text.now }
    {
        if let Some(fault) = fault_of(MOST_NAME, text.as_bytes()) {
            return Err(fault);
        }
        let inside = String::from_str(alloc, text)?;
        Ok(OptName { inside })
    }

    /// The name's bytes, which are ASCII.
    pub fn as_str(&self) -> &str
        ensures value { result.now ≡ self.now }
        ensures class { IsName 32 result.now }
    {
        self.inside.as_str()
    }

    /// A copy of the name.
    pub fn copy(&self, alloc: Global) -> Result<OptName, AllocError>
        ensures { IfOk result (λ n. n ≡ self.now) }
    {
        let inside = String::from_str(alloc, self.inside.as_str())?;
        Ok(OptName { inside })
    }

    /// Whether the two names are the same, byte by byte.
    pub fn is(&self, other: &OptName) -> bool
        ensures { result ≡ bytes_eq self.now other.now }
    {
        self.inside.as_str() == other.inside.as_str()
    }
}
