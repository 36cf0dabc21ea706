ghost use Rattle.std.specs.Prelude.{◌≡◌, IfOk, bytes_eq};
ghost use Rattle.press_text.specs.Names.{NameGives, IsName};

use crate::class::{MOST_NAME, fault_of};
use crate::name_fault::NameFault;
use std::alloc::{AllocError, Global};
use std::marker::Model;

/// The name of a plugin or an editor: 1 to 32 bytes of `[A-Za-z0-9_-]`.
#[derive(Debug)]
pub struct Name {
    inside: String,
}

impl Drop for Name {
    fn drop(self) {
        let Name { inside: _ } = self;
    }
}

impl Model for Name {
    ghost use Rattle.std.specs.Prelude.{ℕ, List, string_bytes};
    ghost use Rattle.press_text.specs.Names.{IsName};

    ghost Value = { List ℕ };

    ghost view = { λ n. string_bytes n.inside };

    ghost invariant = { λ n. IsName 32 (string_bytes n.inside) };
}

impl Clone for Name {
    ghost is_clone = { λ n m. m ≡ n };

    fn clone(&self) -> Result<Name, AllocError> {
        let inside = self.inside.clone()?;
        Ok(Name { inside })
    }
}

impl Name {
    /// Refuses by BadName (empty), then TooLong (over 32 bytes), then BadName (a byte outside the
    /// class).
    pub fn new(alloc: Global, text: &str) -> Result<Name, NameFault>
        ensures { NameGives 32 result text.now }
    {
        if let Some(fault) = fault_of(MOST_NAME, text.as_bytes()) {
            return Err(fault);
        }
        let inside = String::from_str(alloc, text)?;
        Ok(Name { inside })
    }

    /// The name's bytes, which are ASCII.
    pub fn as_str(&self) -> &str
        ensures value { result.now ≡ self.now }
        ensures class { IsName 32 result.now }
    {
        self.inside.as_str()
    }

    /// A copy of the name.
    pub fn copy(&self, alloc: Global) -> Result<Name, AllocError>
        ensures { IfOk result (λ n. n ≡ self.now) }
    {
        let inside = String::from_str(alloc, self.inside.as_str())?;
        Ok(Name { inside })
    }

    /// Whether the two names are the same, byte by byte.
    pub fn is(&self, other: &Name) -> bool
        ensures { result ≡ bytes_eq self.now other.now }
    {
        self.inside.as_str() == other.inside.as_str()
    }
}
