//! The message about a mistake in the kit of several files: of which file it is, and where it is
//! there.

ghost use Rattle.std.specs.Prelude.{◌≡◌, IfOk, map, option_map, string_bytes};
ghost use Rattle.press_callbacks.specs.Kits.{is_named as named_among};
ghost use Rattle.press_lint.specs.Files as spec;
ghost use Rattle.press_lint.specs.Joints.{share_of};
ghost use Rattle.press_lint.specs.Told.{name_at as told_name};

use crate::joint::Share;
use crate::loads::plugin_past_limit;
use crate::mistake::{Mistake, Why};
use crate::mistakes::Titled;
use crate::told::name_at;
use crate::turning::{Side, front, side_of, turn_parts};
use press_kit::{KitParts, Place};
use std::alloc::{AllocError, Global};

fn is_named<T: Titled>(items: &[T], name: &str) -> bool
    ensures { result ≡ named_among T.title items.now name.now }
{
    items.iter().any(|item| item.title() == name.as_bytes())
}

// Whether the first share has a callback, or else a plugin, of that name.
fn has_name(at: Place, name: &str, share: &Share<'_>, parts: &KitParts) -> bool
    ensures { result ≡ spec.has_name at name.now (share_of share.now) parts.now }
{
    match at {
        Place::Callback(_) => { is_named(front(parts.callbacks.as_slice(), share.callbacks), name) }
        Place::Plugin(_) => is_named(front(parts.plugins.as_slice(), share.plugins), name),
        _ => false,
    }
}

// The first of these files that has it.
fn sharer<'f>(at: Place, name: &str, shares: &[Share<'f>], parts: KitParts) -> Option<&'f str>
    ensures { option_map (λ f. f.now) result
        ≡ spec.sharer at name.now (map share_of shares.now) parts }
{
    let mut parts = parts;
    for i in 0..shares.len() {
        if has_name(at, name, &shares[i], &parts) {
            return Some(shares[i].file);
        }
        parts = turn_parts(parts, &shares[i]);
    }
    None
}

fn tell_sharer(alloc: Global, file: Option<&str>) -> Result<String, AllocError>
    ensures { IfOk result (λ t. string_bytes t
        ≡ spec.tell_sharer (option_map (λ f. f.now) file.entry)) }
{
    match file {
        Some(file) => format!(in alloc; " ({file} has it too)"),
        None => Ok(String::new(alloc)),
    }
}

/// A message about a kit of several files, with the file that it is about.
#[derive(Debug, Drop)]
pub struct FileMessage<'f> {
    pub file: &'f str,
    pub text: String,
}

// The first share of a kit, with those behind it.
#[derive(Drop)]
struct First<'s, 'f> {
    share: &'s Share<'f>,
    behind: &'s [Share<'f>],
    parts: KitParts,
}

impl<'f> First<'_, 'f> {
    // Which other file has what is at a place by its name.
    fn tell_named(self, alloc: Global, at: Place) -> Result<String, AllocError>
        ensures { IfOk result (λ t. string_bytes t
            ≡ spec.tell_named at (told_name self.entry.parts at)
            (map share_of self.entry.behind.now)
            (spec.turn_parts (share_of self.entry.share.now) self.entry.parts)) }
    {
        let First {
            share,
            behind,
            parts,
        } = self;
        let name = match name_at(&parts, at) {
            Some(name) => String::from_str(alloc, name)?,
            None => return Ok(String::new(alloc)),
        };
        let rest = turn_parts(parts, share);
        tell_sharer(alloc, sharer(at, name.as_str(), behind, rest))
    }

    fn tell_also(self, alloc: Global, why: Why, at: Place) -> Result<String, AllocError>
        ensures { IfOk result (λ t. string_bytes t
            ≡ spec.tell_also why at (share_of self.entry.share.now)
            (map share_of self.entry.behind.now) self.entry.parts) }
    {
        match why {
            Why::SameName => self.tell_named(alloc, at),
            Why::BuiltInName | Why::Unknown(_) | Why::TooMany(_) => Ok(String::new(alloc)),
        }
    }

    // The message about a mistake that is at this place of the share.
    fn tell(
        self,
        alloc: Global,
        mistake: &Mistake,
        at: Place,
    ) -> Result<FileMessage<'f>, AllocError>
        ensures { IfOk result (λ m. spec.message_of m
            ≡ spec.tell_own mistake.now (share_of self.entry.share.now)
            (map share_of self.entry.behind.now) self.entry.parts at) }
    {
        let file = self.share.file;
        let mut text = tell_at(alloc, &self.parts, mistake, at)?;
        let also = self.tell_also(alloc, mistake.why, at)?;
        text.push_str(also.as_str())?;
        Ok(FileMessage { file, text })
    }
}

fn tell_at(
    alloc: Global,
    parts: &KitParts,
    mistake: &Mistake,
    at: Place,
) -> Result<String, AllocError>
    ensures { IfOk result (λ t. string_bytes t ≡ spec.tell_at parts.now mistake.now at) }
{
    let why = mistake.why;
    let at = match why {
        Why::TooMany(_) => mistake.at,
        Why::SameName | Why::BuiltInName | Why::Unknown(_) => at,
    };
    Mistake { at, why }.tell(alloc, parts)
}

// By what the file of a mistake is found.
fn sought_at(parts: &KitParts, mistake: &Mistake) -> Place
    ensures { result ≡ spec.sought_at parts.now mistake.now.why mistake.now.at }
{
    match mistake.why {
        Why::TooMany(sort) => Place::Plugin(plugin_past_limit(parts.plugins.as_slice(), sort)),
        Why::SameName | Why::BuiltInName | Why::Unknown(_) => mistake.at,
    }
}

fn side_before(behind: &[Share<'_>], share: &Share<'_>, at: Place) -> Side
    ensures { result ≡ spec.side_before (map share_of behind.now) (share_of share.now) at }
{
    if behind.is_empty() {
        Side::Own(at)
    } else {
        side_of(share, at)
    }
}

/// The message about a mistake in the kit of these shares.
pub fn message_about<'f>(
    alloc: Global,
    shares: &[Share<'f>],
    parts: KitParts,
    mistake: &Mistake,
) -> Result<FileMessage<'f>, AllocError>
    ensures { IfOk result (λ m. spec.message_of m ≡ spec.message_about
        (record { kit = parts; shares = map share_of shares.now }) mistake.now) }
{
    let mut at = sought_at(&parts, mistake);
    let mut parts = parts;
    for i in 0..shares.len() {
        let (share, behind) = (&shares[i], &shares[i + 1..]);
        match side_before(behind, share, at) {
            Side::Own(own) => {
                let first = First {
                    share,
                    behind,
                    parts,
                };
                return first.tell(alloc, mistake, own);
            }
            Side::Behind(rest) => {
                at = rest;
                parts = turn_parts(parts, share);
            }
        }
    }
    let text = tell_at(alloc, &parts, mistake, at)?;
    Ok(FileMessage { file: "", text })
}
