//! Why a command was refused that came as a form: a line for whoever runs the server, since the
//! reply doesn't say it.

ghost use Rattle.std.specs.Prelude.{◌≡◌, IfOk, IfSome, string_bytes};
ghost use Rattle.press_http.specs.Forms.{fields_of};
ghost use Rattle.press_http.specs.Routes.{asked_by_request};
ghost use Rattle.press_operator.specs.Screening.{ahead_of};
ghost use Rattle.press_operator.specs.Reasons.{IsLineAbout, IsOfField, IsReason, line_of};

use crate::operator_options::OperatorOptions;
use press_fields::{FieldFault, Lookup, read_command};
use press_http::{Asked, HttpFault, Request, first_value, read_request, route};
use press_text::{Text, dec_u64};
use std::alloc::{AllocError, Global};
use std::borrow::CowStr;
use std::cell::Cell;

/// The status of the reply to a form that was refused.
pub const REFUSED: u16 = 400;

/// Why a form was refused.
#[derive(Drop)]
pub enum Reason {
    /// It has no field of that name.
    Missing(Text),
    /// What it has under that name is nothing that stands there.
    Unfit(Text),
    /// Its time is more seconds ahead than that.
    Ahead(u64),
}

impl Reason {
    /// What is said of it.
    fn line(&self, alloc: Global) -> Result<String, AllocError>
        ensures { IfOk result (λ line. string_bytes line ≡ line_of self.now) }
    {
        match self {
            Reason::Missing(field) => missing_line(alloc, field.as_str()),
            Reason::Unfit(field) => unfit_line(alloc, field.as_str()),
            Reason::Ahead(limit) => ahead_line(alloc, *limit),
        }
    }
}

#[tactic(auto, unfolding(crate::specs::Reasons::line_of))]
fn missing_line(alloc: Global, field: &str) -> Result<String, AllocError>
    ensures { IfOk result (λ line. string_bytes line ≡ line_of (Reason.Missing field.now)) }
{
    format!(in alloc; "press: POST /command 400: {field} is missing\n")
}

#[tactic(auto, unfolding(crate::specs::Reasons::line_of))]
fn unfit_line(alloc: Global, field: &str) -> Result<String, AllocError>
    ensures { IfOk result (λ line. string_bytes line ≡ line_of (Reason.Unfit field.now)) }
{
    format!(in alloc; "press: POST /command 400: {field} does not fit\n")
}

#[tactic(auto, unfolding(crate::specs::Reasons::line_of))]
fn ahead_line(alloc: Global, limit: u64) -> Result<String, AllocError>
    ensures { IfOk result (λ line. string_bytes line ≡ line_of (Reason.Ahead limit)) }
{
    format!(in alloc; "press: POST /command 400: at is more than {limit} seconds ahead\n")
}

// A form that notes which of its fields was looked up last. Without memory for a name it notes
// none.
#[derive(Drop)]
struct Form<'f> {
    alloc: Global,
    bytes: &'f [u8],
    last: Cell<Option<Text>>,
}

impl Form<'_> {
    fn note(&self, name: &str) {
        self.last.set(Text::from_str(self.alloc, name).ok());
    }
}

impl<'f> Lookup for Form<'f> {
    ghost seen = { λ form. fields_of form.bytes.now };

    ghost lends = { λ form name. ⊥ };

    fn text(&self, name: &str) -> Result<Option<CowStr<'_>>, FieldFault> {
        self.note(name);
        Ok(first_value(self.alloc, self.bytes, name)?)
    }

    fn number(&self, name: &str) -> Result<Option<u64>, FieldFault> {
        self.note(name);
        match first_value(self.alloc, self.bytes, name)? {
            None => Ok(None),
            Some(text) => match dec_u64(text.as_str()) {
                Some(number) => Ok(Some(number)),
                None => Err(FieldFault::BadField),
            },
        }
    }
}

// The name of the field behind which no more of a form was read: the one at fault, since a
// command's fields are read in order up to the first that is missing or unfit.
fn field_at_fault(alloc: Global, bytes: &[u8]) -> Option<Text> {
    let form = Form {
        alloc,
        bytes,
        last: Cell::new(None),
    };
    match read_command(alloc, &form) {
        Err(FieldFault::BadField) => form.last.take(),
        _ => None,
    }
}

fn reason_of_field(alloc: Global, form: &[u8], field: Text) -> Option<Reason>
    ensures { IfSome result (IsOfField form.now) }
{
    match first_value(alloc, form, field.as_str()) {
        Ok(None) => Some(Reason::Missing(field)),
        Ok(Some(_)) => Some(Reason::Unfit(field)),
        Err(AllocError) => None,
    }
}

// Why a form gives no command. None without memory.
fn reason_in(alloc: Global, form: &[u8]) -> Option<Reason>
    ensures { IfSome result (IsOfField form.now) }
{
    let field = field_at_fault(alloc, form)?;
    reason_of_field(alloc, form, field)
}

// Why the form that a request carries is refused at that time. None where it isn't, and without
// memory.
#[tactic(auto, using(crate::proofs::Blames::of_field))]
fn reason_of(
    alloc: Global,
    options: &OperatorOptions,
    now: u64,
    request: &Request,
) -> Option<Reason>
    ensures { IfSome result (IsReason (ahead_of options.now) now request.now.body
        (asked_by_request request.now.method request.now.target request.now.body)) }
{
    match route(alloc, request) {
        Ok(Asked::Command(stamped)) => match options.limit_behind(stamped.at.seconds(), now) {
            Some(limit) => Some(Reason::Ahead(limit)),
            None => None,
        },
        Err(HttpFault::BadForm) => reason_in(alloc, request.body.as_slice()),
        _ => None,
    }
}

/// The line about a form that was refused at that time. Without memory there is none.
pub fn line_about(
    alloc: Global,
    options: &OperatorOptions,
    now: u64,
    bytes: &[u8],
) -> Option<String>
    ensures { IfSome result (λ line. IsLineAbout (ahead_of options.now) now bytes.now
        (string_bytes line)) }
{
    let mut rest = bytes;
    let Ok(request) = read_request(alloc, &mut rest) else {
        return None;
    };
    let reason = reason_of(alloc, options, now, &request)?;
    reason.line(alloc).ok()
}
