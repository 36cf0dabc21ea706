//! The class of names: letters, digits, `_` and `-`.

ghost use Rattle.std.specs.Prelude.{◌≡◌, ◌≢◌, IfSome};
ghost use Rattle.std.specs.List.{list_all};
ghost use Rattle.press_text.specs.Names.{is_name_byte as name_byte, name_fault};
ghost use Rattle.press_text.specs.declared.name_fault.NameFault.TheVariants.{NoMemory};

use crate::name_fault::NameFault;

/// The most bytes of the name of a shortcode, an option, a plugin, an editor or a callback.
pub const MOST_NAME: usize = 32;

fn is_name_byte(b: u8) -> bool
    ensures { result ≡ name_byte b }
{
    b.is_ascii_alphanumeric() || b == b'_' || b == b'-'
}

fn all_name_bytes(bytes: &[u8]) -> bool
    ensures { result ≡ list_all name_byte bytes.now }
{
    bytes.iter().all(|b| is_name_byte(*b))
}

/// The fault of a text that is to be a name of at most `most` bytes.
pub fn fault_of(most: usize, bytes: &[u8]) -> Option<NameFault>
    ensures fault { result ≡ name_fault most bytes.now }
    ensures own { IfSome result (λ f. f ≢ NoMemory) }
{
    if bytes.is_empty() {
        return Some(NameFault::BadName);
    }
    if bytes.len() > most {
        return Some(NameFault::TooLong);
    }
    if !all_name_bytes(bytes) {
        return Some(NameFault::BadName);
    }
    None
}
