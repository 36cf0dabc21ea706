ghost use Rattle.std.specs.Prelude.{◌≡◌, ◌++◌, OnOk, IfOk, string_bytes};
ghost use Rattle.std.specs.Char.{encode_utf8};
ghost use Rattle.press_text.specs.Escapes.{escaped_byte, escaped_text};

use std::alloc::{AllocError, Global};

/// A byte as `esc_html` writes it.
pub fn escape_of(byte: &u8) -> &[u8]
    ensures { result.now ≡ escaped_byte byte.now }
{
    match *byte {
        b'&' => b"&amp;",
        b'<' => b"&lt;",
        b'>' => b"&gt;",
        b'"' => b"&quot;",
        b'\'' => b"&#039;",
        _ => std::slice::from_ref(byte),
    }
}

fn push_escaped(out: &mut String, c: char) -> Result<(), AllocError>
    ensures { OnOk result (string_bytes out.new
        ≡ string_bytes out.old ++ escaped_text (encode_utf8 c)) }
{
    match c {
        '&' => out.push_str("&amp;"),
        '<' => out.push_str("&lt;"),
        '>' => out.push_str("&gt;"),
        '"' => out.push_str("&quot;"),
        '\'' => out.push_str("&#039;"),
        _ => out.push(c),
    }
}

/// The text with `&`, `<`, `>`, `"` and `'` written as entities, always: `&amp;` becomes
/// `&amp;amp;` (Plugin Handbook, Escaping Data).
pub fn esc_html(alloc: Global, text: &str) -> Result<String, AllocError>
    ensures { IfOk result (λ t. string_bytes t ≡ escaped_text text.now) }
{
    let mut out = String::new(alloc);
    for c in text.chars() {
        push_escaped(&mut out, c)?;
    }
    Ok(out)
}
