ghost use Rattle.std.specs.Prelude.{◌≡◌};
ghost use Rattle.std.specs.Cmp.{partial_equiv_from_equiv};
ghost use Rattle.press_scan.specs.Attributes.{has_name, has_place, is_key};
ghost use Rattle.press_scan.specs.Keys.{writes, key_equiv, writes_alike};

use press_text::{Copied, Text};
use std::alloc::{AllocError, Global};
use std::hash::{Hash, Hasher};

/// What an attribute goes by: its name, or its number among the values without a name.
#[derive(Debug, Drop)]
pub enum AttKey {
    Name(Text),
    Place(u32),
}

impl AttKey {
    /// Whether the two keys are the same, byte by byte. A name of digits is no number.
    pub fn is(&self, other: &AttKey) -> bool
        ensures { result ≡ is_key self.now other.now }
    {
        match other {
            AttKey::Name(name) => self.is_name(name.as_str()),
            AttKey::Place(place) => self.is_place(*place),
        }
    }

    pub fn is_name(&self, name: &str) -> bool
        ensures { result ≡ has_name self.now name.now }
    {
        match self {
            AttKey::Name(known) => known.as_str() == name,
            AttKey::Place(_) => false,
        }
    }

    fn is_place(&self, place: u32) -> bool
        ensures { result ≡ has_place self.now place }
    {
        match self {
            AttKey::Name(_) => false,
            AttKey::Place(known) => *known == place,
        }
    }
}

impl Copied for AttKey {
    fn copy_in(&self, alloc: Global) -> Result<AttKey, AllocError> {
        match self {
            AttKey::Name(name) => Ok(AttKey::Name(name.copy(alloc)?)),
            AttKey::Place(place) => Ok(AttKey::Place(*place)),
        }
    }
}

impl PartialEq for AttKey {
    ghost eq = { is_key };

    ghost laws = { partial_equiv_from_equiv key_equiv };

    fn eq(&self, other: &AttKey) -> bool {
        self.is(other)
    }
}

impl Eq for AttKey {
    ghost laws = { key_equiv };
}

impl Hash for AttKey {
    ghost hash_input = { writes };

    ghost respects_eq = { writes_alike };

    fn hash<H: Hasher>(&self, state: &mut H) {
        match self {
            AttKey::Name(name) => {
                state.write_u8(0);
                name.as_str().hash(state);
            }
            AttKey::Place(place) => {
                state.write_u8(1);
                state.write_u32(*place);
            }
        }
    }
}
