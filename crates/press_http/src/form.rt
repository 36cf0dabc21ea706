//! The fields of a web form, and the command that they give.

ghost use Rattle.std.specs.Prelude.{◌≡◌, IfOk, Ok, Err, None, option_map, codes};
ghost use Rattle.std.specs.Cow.{cow_str_bytes};
ghost use Rattle.press_text.specs.Gives.{Gives};
ghost use Rattle.press_http.specs.Forms as spec;
ghost use Rattle.press_http.specs.Meanings.{Refuses};

use crate::fault::HttpFault;
use press_apply::Stamped;
use press_fields::{FieldFault, Lookup, read_command};
use press_text::dec_u64;
use std::alloc::{AllocError, Global};
use std::borrow::CowStr;

/// The value of the first field of that name.
#[tactic(auto, unfolding(crate::specs::Forms::first_value))]
pub fn first_value<'f>(
    alloc: Global,
    form: &'f [u8],
    name: &str,
) -> Result<Option<CowStr<'f>>, AllocError>
    ensures value { IfOk result (λ found. option_map cow_str_bytes found
        ≡ spec.first_value name.now form.now) }
    ensures memory { spec.LacksPlainly name.now form.now → result ≡ Ok None }
{
    let mut pairs = form_urlencoded::raw_pairs(form);
    while let Some((key, value)) = pairs.next() {
        let key = form_urlencoded::decode(alloc, key)?;
        if key.as_str() == name {
            return Ok(Some(form_urlencoded::decode(alloc, value)?));
        }
    }
    Ok(None)
}

// A form, whose fields are looked up by their names.
#[derive(Drop)]
struct Form<'f> {
    alloc: Global,
    bytes: &'f [u8],
}

impl<'f> Lookup for Form<'f> {
    ghost seen = { λ form. spec.fields_of form.bytes.now };

    ghost lends = { λ form name. spec.LacksPlainly name form.bytes.now };

    fn text(&self, name: &str) -> Result<Option<CowStr<'_>>, FieldFault> {
        Ok(first_value(self.alloc, self.bytes, name)?)
    }

    fn number(&self, name: &str) -> Result<Option<u64>, FieldFault> {
        match first_value(self.alloc, self.bytes, name)? {
            None => Ok(None),
            Some(text) => match dec_u64(text.as_str()) {
                Some(number) => Ok(Some(number)),
                None => Err(FieldFault::BadField),
            },
        }
    }
}

/// The command that a form gives, with its token and its moment. BadForm where a field is missing
/// or out of its range; what a site refuses of a command is not looked at here. Memory is first
/// taken for a name with `+` or `%`, or for the editor.
#[tactic(auto, unfolding(crate::specs::Forms::command_in))]
pub fn form_command(alloc: Global, form: &[u8]) -> Result<Stamped, HttpFault>
    ensures value { Gives Refuses Ok result (spec.command_in form.now) }
    ensures memory { spec.LacksPlainly (codes "editor") form.now → result ≡ Err HttpFault.BadForm }
{
    match read_command(alloc, &Form { alloc, bytes: form }) {
        Ok(command) => Ok(command),
        Err(FieldFault::NoMemory) => Err(HttpFault::NoMemory),
        Err(FieldFault::BadField) => Err(HttpFault::BadForm),
    }
}
