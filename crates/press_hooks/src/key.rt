ghost use Rattle.std.specs.Prelude.{◌≡◌, bytes_eq};
ghost use Rattle.std.specs.Cmp.{partial_equiv_from_equiv};
ghost use Rattle.std.specs.Cmp.Lexicographic.{nat_list_eq_equiv};
ghost use Rattle.press_hooks.specs.Keys.{writes, writes_alike};

use press_text::CallbackId;
use std::hash::{Hash, Hasher};
use std::marker::Model;

/// A callback as the key of a map.
#[derive(Clone, Copy, Debug)]
pub struct Key {
    callback: CallbackId,
}

impl Model for Key {
    ghost use Rattle.std.specs.Prelude.{ℕ, List};

    ghost Value = { List ℕ };

    ghost view = { λ k. k.callback };

    ghost inverse = { λ n. record { callback = n } };
}

impl Key {
    pub fn of(callback: CallbackId) -> Key
        ensures { result ≡ callback }
    {
        Key { callback }
    }

    pub fn callback(&self) -> CallbackId
        ensures { result ≡ self.now }
    {
        self.callback
    }
}

impl PartialEq for Key {
    ghost eq = { bytes_eq };

    ghost laws = { partial_equiv_from_equiv nat_list_eq_equiv };

    fn eq(&self, other: &Key) -> bool {
        self.callback.as_bytes() == other.callback.as_bytes()
    }
}

impl Eq for Key {
    ghost laws = { nat_list_eq_equiv };
}

impl Hash for Key {
    ghost hash_input = { writes };

    ghost respects_eq = { writes_alike };

    fn hash<H: Hasher>(&self, state: &mut H) {
        state.write_u64(self.callback.word(0));
        state.write_u64(self.callback.word(1));
        state.write_u64(self.callback.word(2));
        state.write_u64(self.callback.word(3));
    }
}
