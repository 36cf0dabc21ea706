ghost use Rattle.std.specs.Prelude.{◌≡◌, None, IfOk, bytes_eq};
ghost use Rattle.press_text.specs.Names.{NameGives, IsName, name_fault};

use crate::class::fault_of;
use crate::name_fault::NameFault;
use crate::text::Text;
use std::alloc::{AllocError, Global};
use std::marker::Model;

/// The name of an action or a filter: 1 to 64 bytes of `[A-Za-z0-9_-]` (Plugin Handbook, Hooks).
#[derive(Debug)]
pub struct HookName {
    inside: Text,
}

impl Drop for HookName {
    fn drop(self) {
        let HookName { inside: _ } = self;
    }
}

impl Model for HookName {
    ghost use Rattle.std.specs.Prelude.{ℕ, List};
    ghost use Rattle.press_text.specs.Names.{IsName};

    ghost Value = { List ℕ };

    ghost view = { λ n. n.inside };

    ghost invariant = { λ n. IsName 64 n.inside };
}

impl HookName {
    /// Refuses by BadName (empty), then TooLong (over 64 bytes), then BadName (a byte outside the
    /// class).
    pub fn new(alloc: Global, text: &str) -> Result<HookName, NameFault>
        ensures { NameGives 64 result text.now }
    {
        if let Some(fault) = fault_of(64, text.as_bytes()) {
            return Err(fault);
        }
        let inside = Text::from_str(alloc, text)?;
        Ok(HookName { inside })
    }

    /// A name that is known to be in its class, as one in the program's text.
    pub fn from_valid(alloc: Global, text: &str) -> Result<HookName, AllocError>
        requires { name_fault 64 text.now ≡ None }
        ensures { IfOk result (λ n. n ≡ text.now) }
    {
        let inside = Text::from_str(alloc, text)?;
        Ok(HookName { inside })
    }

    /// The name's bytes, which are ASCII.
    pub fn as_str(&self) -> &str
        ensures value { result.now ≡ self.now }
        ensures class { IsName 64 result.now }
    {
        self.inside.as_str()
    }

    /// A copy of the name, which takes no memory.
    pub fn copy(&self, alloc: Global) -> Result<HookName, AllocError>
        ensures { IfOk result (λ n. n ≡ self.now) }
    {
        let inside = self.inside.copy(alloc)?;
        Ok(HookName { inside })
    }

    /// Whether the two names are the same, byte by byte.
    pub fn is(&self, other: &HookName) -> bool
        ensures { result ≡ bytes_eq self.now other.now }
    {
        self.inside.as_str() == other.inside.as_str()
    }
}
