//! The next kit: one that extends the old one, and has what a new one has, under other names where
//! it differs.

ghost use Rattle.std.specs.Prelude.{◌≡◌, IfOk, IsTrue, Ok, string_bytes};
ghost use Rattle.press_kit.specs.KitFile.{kit_in};
ghost use Rattle.press_upgrade.specs.Differences.{kit_given};
ghost use Rattle.press_upgrade.specs.Extends.{IsWhole};
ghost use Rattle.press_upgrade.specs.Next.{IsExtension, IsNext};
ghost use Rattle.press_upgrade.specs.declared.next.NextFault.TheVariants.{NoMemory as Lacks};

use crate::extension::extends;
use crate::part::{Part, loss_of};
use crate::piece::{Piece, is_given};
use crate::version::Both;
use press_callbacks::Plugin;
use press_kit::{KitFileFault, KitParts, Listed, Place, Scripted, parse_file, read_kit_file};
use press_lint::{mistake_in, refusals_are_mistakes};
use serde_json::{Value, json};
use std::alloc::{AllocError, AllocFailed, Global};
use thiserror::Error;

/// The next kit, and which plugins its site deactivates and activates.
#[derive(Debug, Drop)]
pub struct NextKit {
    /// The kit file.
    pub text: String,
    /// The plugins of the old kit that the new one doesn't have as they are.
    pub deactivate: Vec<String>,
    /// The plugins of the next kit that the old one lacks.
    pub activate: Vec<String>,
}

/// Why there is no next kit.
#[derive(Clone, Copy, Debug, PartialEq, Eq, Error)]
pub enum NextFault {
    #[error("no memory")]
    NoMemory,
    #[error("the old file is bad at a place")]
    OldIsBad(Place),
    #[error("the new file is bad at a place")]
    NewIsBad(Place),
    #[error("no kit can be built of it")]
    IsNoKit,
}

impl From<AllocError> for NextFault {
    ghost from_gives = { λ _ e. e ≡ Lacks };

    fn from(_e: AllocError) -> NextFault {
        NextFault::NoMemory
    }
}

impl<T: Drop> From<AllocFailed<T>> for NextFault {
    ghost from_gives = { λ _ e. e ≡ Lacks };

    fn from(_e: AllocFailed<T>) -> NextFault {
        NextFault::NoMemory
    }
}

// A kit file as it is read, and its value.
#[derive(Drop)]
struct KitSource {
    parts: KitParts,
    value: Value,
}

fn list_in<'v>(value: &'v Value, key: &str) -> &'v [Value] {
    match value.get(key).and_then(Value::as_array) {
        Some(values) => values.as_slice(),
        None => &[],
    }
}

// The pieces of a list, each under the latest name that the old kit has for it.
fn pieces_of<'v, T: Part>(
    alloc: Global,
    values: &'v [Value],
    both: &Both<'_, T>,
) -> Result<Vec<Piece<'v>>, AllocError> {
    let mut pieces = Vec::new(alloc);
    for value in values {
        if let Some(name) = value.get("name").and_then(Value::as_str) {
            pieces.push(Piece {
                name,
                value,
                now: both.latest_name(alloc, name)?,
                is_made: false,
            })?;
        }
    }
    Ok(pieces)
}

// Whether the old kit has it as it is.
fn is_kept<T: Part + Listed + Drop>(
    alloc: Global,
    value: &Value,
    old: &[T],
) -> Result<bool, NextFault> {
    match T::read(alloc, Place::File, value) {
        Ok(part) => Ok(loss_of(&part, old).is_none()),
        Err(KitFileFault::NoMemory) => Err(NextFault::NoMemory),
        Err(KitFileFault::BadKitFile(_)) => Err(NextFault::IsNoKit),
    }
}

// What is to be made of these pieces gets a name of its own, with callbacks by the names that they
// have so far; whether one was added.
fn settle_once<T: Part + Listed + Drop>(
    alloc: Global,
    both: &Both<'_, T>,
    key: &str,
    pieces: &mut Vec<Piece<'_>>,
) -> Result<bool, NextFault> {
    let mut grows = false;
    for i in 0..pieces.len() {
        if pieces[i].is_made {
            continue;
        }
        let value = pieces[i].value_now(alloc, key, pieces.as_slice())?;
        if is_kept(alloc, &value, both.old)? {
            continue;
        }
        let name = both.free_name(alloc, pieces[i].name, pieces.as_slice())?;
        pieces[i].now = name.ok_or(NextFault::IsNoKit)?;
        pieces[i].is_made = true;
        grows = true;
    }
    Ok(grows)
}

// The callbacks: one that names a callback that gets another name is another itself.
fn callbacks_of<'v>(
    alloc: Global,
    values: &'v [Value],
    both: &Both<'_, Scripted>,
) -> Result<Vec<Piece<'v>>, NextFault> {
    let mut callbacks = pieces_of(alloc, values, both)?;
    for _ in 0..callbacks.len() {
        if !settle_once(alloc, both, "script", &mut callbacks)? {
            return Ok(callbacks);
        }
    }
    Ok(callbacks)
}

// The plugins, over the callbacks.
fn plugins_of<'v>(
    alloc: Global,
    values: &'v [Value],
    both: &Both<'_, Plugin>,
    callbacks: &[Piece<'_>],
) -> Result<Vec<Piece<'v>>, NextFault> {
    let mut plugins = pieces_of(alloc, values, both)?;
    for i in 0..plugins.len() {
        let value = plugins[i].value_now(alloc, "load", callbacks)?;
        if is_kept(alloc, &value, both.old)? {
            continue;
        }
        let name = both.free_name(alloc, plugins[i].name, plugins.as_slice())?;
        plugins[i].now = name.ok_or(NextFault::IsNoKit)?;
        plugins[i].is_made = true;
    }
    Ok(plugins)
}

// The values of the pieces that the old kit lacks.
fn values_made(
    alloc: Global,
    key: &str,
    pieces: &[Piece<'_>],
    callbacks: &[Piece<'_>],
) -> Result<Vec<Value>, AllocError> {
    let mut values = Vec::new(alloc);
    for piece in pieces {
        if piece.is_made {
            values.push(piece.value_now(alloc, key, callbacks)?)?;
        }
    }
    Ok(values)
}

// The values of the old list, and behind them those that are made.
fn list_behind(alloc: Global, old: &[Value], mut made: Vec<Value>) -> Result<Value, AllocError> {
    let mut values = Vec::new(alloc);
    for value in old {
        values.push(value.clone()?)?;
    }
    values.append(&mut made)?;
    Ok(Value::Array(values))
}

fn text_of(
    alloc: Global,
    old: &Value,
    callbacks: &[Piece<'_>],
    plugins: &[Piece<'_>],
) -> Result<String, AllocError> {
    let made = values_made(alloc, "script", callbacks, callbacks)?;
    let scripts = list_behind(alloc, list_in(old, "callbacks"), made)?;
    let made = values_made(alloc, "load", plugins, callbacks)?;
    let loads = list_behind(alloc, list_in(old, "plugins"), made)?;
    let kit = json!(in alloc; {"callbacks": scripts, "plugins": loads})?;
    kit.to_string_pretty(alloc)
}

// The plugins of the old kit that no piece stands for.
fn names_left(
    alloc: Global,
    old: &[Plugin],
    pieces: &[Piece<'_>],
) -> Result<Vec<String>, AllocError> {
    let mut names = Vec::new(alloc);
    for plugin in old {
        let name = plugin.name.as_str();
        if !is_given(pieces, name) {
            names.push(String::from_str(alloc, name)?)?;
        }
    }
    Ok(names)
}

fn names_made(alloc: Global, pieces: &[Piece<'_>]) -> Result<Vec<String>, AllocError> {
    let mut names = Vec::new(alloc);
    for piece in pieces {
        if piece.is_made {
            names.push(String::from_str(alloc, piece.now.as_str())?)?;
        }
    }
    Ok(names)
}

// What a text gives as a kit file.
fn read_next(alloc: Global, text: &str) -> Result<KitParts, NextFault>
    ensures { IfOk result (λ kit. kit_in text.now ≡ Ok kit) }
{
    match read_kit_file(alloc, text.as_bytes()) {
        Ok(kit) => Ok(kit),
        Err(KitFileFault::NoMemory) => Err(NextFault::NoMemory),
        Err(KitFileFault::BadKitFile(_)) => Err(NextFault::IsNoKit),
    }
}

// Whether a kit can be built of it.
#[tactic(auto, using(crate::proofs::Whole::whole_of))]
fn is_whole(alloc: Global, kit: &KitParts) -> Result<bool, AllocError>
    ensures { IfOk result (λ b. IsTrue b → IsWhole (kit_given kit.now)) }
{
    refusals_are_mistakes();
    match mistake_in(alloc, kit) {
        Ok(None) => Ok(true),
        Ok(Some(_)) => Ok(false),
        Err(e) => Err(e),
    }
}

// Whether a text is a kit file, of which a kit is built that extends this one.
fn check(alloc: Global, old: &KitParts, text: &str) -> Result<(), NextFault>
    ensures { IfOk result (λ _. IsExtension old.now text.now) }
{
    let next = read_next(alloc, text)?;
    if !is_whole(alloc, &next)? {
        return Err(NextFault::IsNoKit);
    }
    match extends(old, &next) {
        Ok(()) => Ok(()),
        Err(_) => Err(NextFault::IsNoKit),
    }
}

fn read_source(alloc: Global, bytes: &[u8]) -> Result<KitSource, KitFileFault>
    ensures { IfOk result (λ s. kit_in bytes.now ≡ Ok s.parts) }
{
    let parts = read_kit_file(alloc, bytes)?;
    let value = parse_file(alloc, bytes)?;
    Ok(KitSource { parts, value })
}

// The next kit before it is looked at.
fn draft(alloc: Global, old: &KitSource, new: &KitSource) -> Result<NextKit, NextFault> {
    let callbacks = callbacks_of(
        alloc,
        list_in(&new.value, "callbacks"),
        &Both {
            old: old.parts.callbacks.as_slice(),
            new: new.parts.callbacks.as_slice(),
        },
    )?;
    let plugins = plugins_of(
        alloc,
        list_in(&new.value, "plugins"),
        &Both {
            old: old.parts.plugins.as_slice(),
            new: new.parts.plugins.as_slice(),
        },
        &callbacks,
    )?;
    Ok(NextKit {
        text: text_of(alloc, &old.value, &callbacks, &plugins)?,
        deactivate: names_left(alloc, old.parts.plugins.as_slice(), &plugins)?,
        activate: names_made(alloc, &plugins)?,
    })
}

/// A kit file that extends the old one: all that the old one has, and behind it what of the new one
/// it lacks, under names with a number behind them where the old one has something else of the
/// name; what names another is changed with it.
pub fn next_kit(alloc: Global, old: &[u8], new: &[u8]) -> Result<NextKit, NextFault>
    ensures { IfOk result (λ n. IsNext old.now (string_bytes n.text)) }
{
    let old = match read_source(alloc, old) {
        Ok(old) => old,
        Err(KitFileFault::NoMemory) => return Err(NextFault::NoMemory),
        Err(KitFileFault::BadKitFile(at)) => return Err(NextFault::OldIsBad(at)),
    };
    let new = match read_source(alloc, new) {
        Ok(new) => new,
        Err(KitFileFault::NoMemory) => return Err(NextFault::NoMemory),
        Err(KitFileFault::BadKitFile(at)) => return Err(NextFault::NewIsBad(at)),
    };
    let next = draft(alloc, &old, &new)?;
    check(alloc, &old.parts, next.text.as_str())?;
    Ok(next)
}
