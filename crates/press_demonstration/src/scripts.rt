//! The callbacks whose closures play their scripts.

ghost use Rattle.std.specs.Prelude.{◌≡◌, ◌∷◌, ◌++◌, [], IfOk, OnOk, None, codes};
ghost use Rattle.press_text.specs.Names.{name_fault};
ghost use Rattle.press_demonstration.specs.Demonstration as spec;

use crate::names::{callback_named, last_saved};
use crate::scripted::Scripted;
use press_callbacks::{Op, Part, Script, Source};
use press_scan::AttKey;
use press_text::{HookName, Items, Text};
use std::alloc::{AllocError, Global};

/// The callbacks whose closures play their scripts.
pub fn played_scripts(alloc: Global) -> Result<Vec<Scripted>, AllocError>
    ensures { IfOk result (λ v. spec.scripts_of v.items ≡ spec.play_scripts) }
{
    let mut scripts = Vec::new(alloc);
    push_letter(alloc, &mut scripts, "add_a", "a")?;
    push_letter(alloc, &mut scripts, "add_b", "b")?;
    push_letter(alloc, &mut scripts, "add_c", "c")?;
    push_letter(alloc, &mut scripts, "add_d", "d")?;
    push_letter(alloc, &mut scripts, "add_e", "e")?;
    push_letter(alloc, &mut scripts, "add_f", "f")?;
    push_greet(alloc, &mut scripts)?;
    push_box(alloc, &mut scripts)?;
    push_again(alloc, &mut scripts, "again", "the_title")?;
    push_again(alloc, &mut scripts, "again_save", "title_save_pre")?;
    push_note(alloc, &mut scripts)?;
    push_mark(alloc, &mut scripts)?;
    Ok(scripts)
}

fn push_greet(alloc: Global, scripts: &mut Vec<Scripted>) -> Result<(), AllocError>
    ensures { OnOk result (spec.scripts_of scripts.new.items ≡ spec.scripts_of scripts.old.items
        ++ (codes "greet", spec.greet_script) ∷ []) }
{
    let greet = greet(alloc)?;
    push_scripted(scripts, greet)
}

fn push_box(alloc: Global, scripts: &mut Vec<Scripted>) -> Result<(), AllocError>
    ensures { OnOk result (spec.scripts_of scripts.new.items ≡ spec.scripts_of scripts.old.items
        ++ (codes "box", spec.box_script) ∷ []) }
{
    let of_content = box_of_content(alloc)?;
    push_scripted(scripts, of_content)
}

fn push_again(
    alloc: Global,
    scripts: &mut Vec<Scripted>,
    name: &str,
    hook: &str,
) -> Result<(), AllocError>
    requires name { name_fault 32 name.now ≡ None }
    requires hook { name_fault 64 hook.now ≡ None }
    ensures { OnOk result (spec.scripts_of scripts.new.items ≡ spec.scripts_of scripts.old.items
        ++ (name.now, spec.filter_script hook.now) ∷ []) }
{
    let again = again(alloc, name, hook)?;
    push_scripted(scripts, again)
}

fn push_note(alloc: Global, scripts: &mut Vec<Scripted>) -> Result<(), AllocError>
    ensures { OnOk result (spec.scripts_of scripts.new.items ≡ spec.scripts_of scripts.old.items
        ++ (codes "note", spec.note_script) ∷ []) }
{
    let note = note(alloc)?;
    push_scripted(scripts, note)
}

fn push_mark(alloc: Global, scripts: &mut Vec<Scripted>) -> Result<(), AllocError>
    ensures { OnOk result (spec.scripts_of scripts.new.items ≡ spec.scripts_of scripts.old.items
        ++ (codes "mark", spec.mark_script) ∷ []) }
{
    let mark = mark(alloc)?;
    push_scripted(scripts, mark)
}

fn push_letter(
    alloc: Global,
    scripts: &mut Vec<Scripted>,
    name: &str,
    text: &str,
) -> Result<(), AllocError>
    requires { name_fault 32 name.now ≡ None }
    ensures { OnOk result (spec.scripts_of scripts.new.items ≡ spec.scripts_of scripts.old.items
        ++ (name.now, spec.append_script text.now) ∷ []) }
{
    let letter = letter(alloc, name, text)?;
    push_scripted(scripts, letter)
}

#[tactic(auto, using(crate::proofs::Pushes::one_more))]
fn push_scripted(scripts: &mut Vec<Scripted>, scripted: Scripted) -> Result<(), AllocError>
    ensures { OnOk result (spec.scripts_of scripts.new.items ≡ spec.scripts_of scripts.old.items
        ++ (scripted.id, scripted.script) ∷ []) }
{
    scripts.push(scripted)?;
    Ok(())
}

fn again(alloc: Global, name: &str, hook: &str) -> Result<Scripted, AllocError>
    requires name { name_fault 32 name.now ≡ None }
    requires hook { name_fault 64 hook.now ≡ None }
    ensures id { IfOk result (λ s. s.id ≡ name.now) }
    ensures script { IfOk result (λ s. s.script ≡ spec.filter_script hook.now) }
{
    let script = filter_script(alloc, hook)?;
    let own = filter_script(alloc, hook)?;
    Ok(Scripted {
        id: callback_named(name),
        script,
        own,
    })
}

// Runs a filter on its value, and returns the result.
fn filter_script(alloc: Global, hook: &str) -> Result<Script, AllocError>
    requires { name_fault 64 hook.now ≡ None }
    ensures { IfOk result (λ s. s ≡ spec.filter_script hook.now) }
{
    let apply = Op::Apply {
        hook: HookName::from_valid(alloc, hook)?,
        value: Items::from_vec(vec![in alloc; Part::Raw(Source::Value)]?),
        more: Items::new(alloc),
    };
    let answer = Op::Return(Items::from_vec(vec![in alloc; Part::Raw(Source::Last)]?));
    Ok(Items::from_vec(vec![in alloc; apply, answer]?))
}

fn note(alloc: Global) -> Result<Scripted, AllocError>
    ensures id { IfOk result (λ s. s.id ≡ codes "note") }
    ensures script { IfOk result (λ s. s.script ≡ spec.note_script) }
{
    let script = note_script(alloc)?;
    let own = note_script(alloc)?;
    Ok(Scripted {
        id: callback_named("note"),
        script,
        own,
    })
}

// Keeps its first argument as an option.
fn note_script(alloc: Global) -> Result<Script, AllocError>
    ensures { IfOk result (λ s. s ≡ spec.note_script) }
{
    let set = Op::SetOption {
        name: last_saved(alloc)?,
        value: Items::from_vec(vec![in alloc; Part::Raw(Source::Arg(0))]?),
    };
    Ok(Items::from_vec(vec![in alloc; set]?))
}

fn mark(alloc: Global) -> Result<Scripted, AllocError>
    ensures id { IfOk result (λ s. s.id ≡ codes "mark") }
    ensures script { IfOk result (λ s. s.script ≡ spec.mark_script) }
{
    let script = mark_script(alloc)?;
    let own = mark_script(alloc)?;
    Ok(Scripted {
        id: callback_named("mark"),
        script,
        own,
    })
}

// Puts its value into braces, with its second argument.
fn mark_script(alloc: Global) -> Result<Script, AllocError>
    ensures { IfOk result (λ s. s ≡ spec.mark_script) }
{
    let mut text = Vec::new(alloc);
    text.push(lit(alloc, "{")?)?;
    text.push(Part::Raw(Source::Value))?;
    text.push(lit(alloc, "|")?)?;
    text.push(Part::Raw(Source::Arg(1)))?;
    text.push(lit(alloc, "}")?)?;
    Ok(Items::from_vec(vec![in alloc; Op::Set(Items::from_vec(text))]?))
}

fn lit(alloc: Global, text: &str) -> Result<Part, AllocError>
    ensures { IfOk result (λ p. p ≡ Part.Lit text.now) }
{
    Ok(Part::Lit(Text::from_str(alloc, text)?))
}

fn greet(alloc: Global) -> Result<Scripted, AllocError>
    ensures id { IfOk result (λ s. s.id ≡ codes "greet") }
    ensures script { IfOk result (λ s. s.script ≡ spec.greet_script) }
{
    let script = greet_script(alloc)?;
    let own = greet_script(alloc)?;
    Ok(Scripted {
        id: callback_named("greet"),
        script,
        own,
    })
}

// Greets the one that the attribute `name` names.
fn greet_script(alloc: Global) -> Result<Script, AllocError>
    ensures { IfOk result (λ s. s ≡ spec.greet_script) }
{
    let hello = Part::Lit(Text::from_str(alloc, "Hello ")?);
    let name = Part::Raw(Source::Att(AttKey::Name(Text::from_str(alloc, "name")?)));
    let answer = Op::Return(Items::from_vec(vec![in alloc; hello, name]?));
    Ok(Items::from_vec(vec![in alloc; answer]?))
}

fn box_of_content(alloc: Global) -> Result<Scripted, AllocError>
    ensures id { IfOk result (λ s. s.id ≡ codes "box") }
    ensures script { IfOk result (λ s. s.script ≡ spec.box_script) }
{
    let script = box_script(alloc)?;
    let own = box_script(alloc)?;
    Ok(Scripted {
        id: callback_named("box"),
        script,
        own,
    })
}

// Runs the shortcodes of its content, in a box.
fn box_script(alloc: Global) -> Result<Script, AllocError>
    ensures { IfOk result (λ s. s ≡ spec.box_script) }
{
    let content = Op::Shortcodes(Items::from_vec(vec![in alloc; Part::Raw(Source::Content)]?));
    let begin = Part::Lit(Text::from_str(alloc, "<div>")?);
    let end = Part::Lit(Text::from_str(alloc, "</div>")?);
    let answer = Op::Return(Items::from_vec(vec![in alloc; begin, Part::Raw(Source::Last), end]?));
    Ok(Items::from_vec(vec![in alloc; content, answer]?))
}

fn letter(alloc: Global, name: &str, text: &str) -> Result<Scripted, AllocError>
    requires { name_fault 32 name.now ≡ None }
    ensures id { IfOk result (λ s. s.id ≡ name.now) }
    ensures script { IfOk result (λ s. s.script ≡ spec.append_script text.now) }
{
    let script = append_script(alloc, text)?;
    let own = append_script(alloc, text)?;
    Ok(Scripted {
        id: callback_named(name),
        script,
        own,
    })
}

// The script that appends a text to its value.
fn append_script(alloc: Global, text: &str) -> Result<Script, AllocError>
    ensures { IfOk result (λ s. s ≡ spec.append_script text.now) }
{
    let set = append(alloc, text)?;
    Ok(Items::from_vec(vec![in alloc; set]?))
}

pub fn append(alloc: Global, text: &str) -> Result<Op, AllocError>
    ensures { IfOk result (λ o. o ≡ spec.append text.now) }
{
    let lit = Text::from_str(alloc, text)?;
    let parts = vec![in alloc; Part::Raw(Source::Value), Part::Lit(lit)]?;
    Ok(Op::Set(Items::from_vec(parts)))
}
