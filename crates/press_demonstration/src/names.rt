//! Names that are valid as they are written.

ghost use Rattle.std.specs.Prelude.{◌≡◌, IfOk, None, codes};
ghost use Rattle.press_text.specs.Names.{name_fault};
ghost use Rattle.press_demonstration.specs.Demonstration as spec;

use press_text::{CallbackId, HookName, Name, NameFault, OptName, Tag};
use std::alloc::{AllocError, Global};

pub fn tag_named(alloc: Global, name: &str) -> Result<Tag, AllocError>
    requires { name_fault 32 name.now ≡ None }
    ensures { IfOk result (λ t. t ≡ name.now) }
{
    match Tag::new(alloc, name) {
        Ok(tag) => Ok(tag),
        Err(NameFault::NoMemory) => Err(AllocError),
        Err(NameFault::BadName) | Err(NameFault::TooLong) => unreachable!(),
    }
}

pub fn the_title(alloc: Global) -> Result<HookName, AllocError>
    ensures { IfOk result (λ h. h ≡ spec.the_title) }
{
    HookName::from_valid(alloc, "the_title")
}

pub fn last_saved(alloc: Global) -> Result<OptName, AllocError>
    ensures { IfOk result (λ n. n ≡ codes "last_saved") }
{
    match OptName::new(alloc, "last_saved") {
        Ok(name) => Ok(name),
        Err(NameFault::NoMemory) => Err(AllocError),
        Err(NameFault::BadName) | Err(NameFault::TooLong) => unreachable!(),
    }
}

pub fn plugin_named(alloc: Global, name: &str) -> Result<Name, AllocError>
    requires { name_fault 32 name.now ≡ None }
    ensures { IfOk result (λ n. n ≡ name.now) }
{
    match Name::new(alloc, name) {
        Ok(name) => Ok(name),
        Err(NameFault::NoMemory) => Err(AllocError),
        Err(NameFault::BadName) | Err(NameFault::TooLong) => unreachable!(),
    }
}

pub fn callback_named(name: &str) -> CallbackId
    requires { name_fault 32 name.now ≡ None }
    ensures { result ≡ name.now }
{
    match CallbackId::new(name) {
        Ok(id) => id,
        Err(_) => unreachable!(),
    }
}
