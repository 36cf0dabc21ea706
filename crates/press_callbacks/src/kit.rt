ghost use Rattle.std.specs.Prelude.{◌≡◌, true, false};
ghost use Rattle.press_callbacks.specs.Order.{in_order, has_two};

use crate::hints::Hints;
use crate::plugin::Plugin;
use crate::stored::Stored;

/// The callbacks and plugins of a program, in the order of their names.
pub struct Kit {
    pub(crate) callbacks: Vec<Stored>,
    pub(crate) plugins: Vec<Plugin>,
    pub(crate) hints: Hints,
    ghost callbacks_in_order: { in_order (λ c. c.id) callbacks.items ≡ true },
    ghost callbacks_apart: { has_two (λ c. c.id) callbacks.items ≡ false },
    ghost plugins_in_order: { in_order (λ p. p.name) plugins.items ≡ true },
}

impl Drop for Kit {
    fn drop(self) {
        let Kit {
            callbacks: _,
            plugins: _,
            hints: _,
        } = self;
    }
}
