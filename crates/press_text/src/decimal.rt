ghost use Rattle.std.specs.Prelude.{◌≡◌};
ghost use Rattle.std.specs.List.{list_all};
ghost use Rattle.std.specs.Char.{is_ascii_digit};
ghost use Rattle.press_text.specs.Decimals.{decimal_in};

fn all_digits(bytes: &[u8]) -> bool
    ensures { result ≡ list_all is_ascii_digit bytes.now }
{
    bytes.iter().all(|b| b.is_ascii_digit())
}

/// The number that 1 to 20 decimal digits spell, where it is below 2^64. Leading zeros count as
/// digits; no sign, no space.
pub fn dec_u64(text: &str) -> Option<u64>
    ensures { result ≡ decimal_in text.now }
{
    if text.len() > 20 || !all_digits(text.as_bytes()) {
        return None;
    }
    text.parse::<u64>().ok()
}
