ghost use Rattle.std.specs.Prelude.{◌≡◌, ◌≢◌, ℕ, List, Ok, Err, option_map};
ghost use Rattle.std.specs.Cow.{cow_str_bytes};
ghost use Rattle.press_text.specs.Gives.{Gives};
ghost use Rattle.press_fields.specs.Fields.{Fields, Refuses};

use crate::fault::FieldFault;
use std::borrow::CowStr;

/// Fields that are looked up by their names.
pub trait Lookup {
    ghost seen: { Self → Fields };

    // What stands under that name is found without memory.
    ghost lends: { Self → List ℕ → Type 0 };

    /// The text of that name, if there is such a field. BadField where it has no text.
    fn text(&self, name: &str) -> Result<Option<CowStr<'_>>, FieldFault>
        ensures gives { Gives Refuses (λ found. Ok (option_map cow_str_bytes found)) result
            ((seen self.now).text name.now) }
        ensures memory { lends self.now name.now → result ≢ Err FieldFault.NoMemory };

    /// The number of that name, if there is such a field. BadField where it has no whole number
    /// below 2^64.
    fn number(&self, name: &str) -> Result<Option<u64>, FieldFault>
        ensures gives { Gives Refuses Ok result ((seen self.now).number name.now) }
        ensures memory { lends self.now name.now → result ≢ Err FieldFault.NoMemory };
}
