ghost use Rattle.std.specs.Prelude.{◌≡◌};

use press_callbacks::Script;
use press_text::CallbackId;

/// A callback whose closure plays its script: its name, the script, and a copy of the script for
/// the closure.
#[derive(Drop)]
pub struct Scripted {
    pub id: CallbackId,
    pub script: Script,
    pub own: Script,
    ghost same: { own ≡ script },
}
