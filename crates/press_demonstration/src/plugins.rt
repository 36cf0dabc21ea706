//! The plugins and what they load.

ghost use Rattle.std.specs.Prelude.{◌≡◌, ◌∷◌, ◌++◌, [], IfOk, OnOk, None};
ghost use Rattle.press_text.specs.Names.{name_fault};
ghost use Rattle.press_demonstration.specs.Demonstration as spec;

use crate::names::{callback_named, plugin_named, tag_named};
use press_callbacks::{Load, Plugin};
use press_text::{HookName, Items};
use std::alloc::{AllocError, Global};

/// The plugins `grow`, `letters`, `loop`, `marks`, `notes` and `tags`.
pub fn plugins(alloc: Global) -> Result<Vec<Plugin>, AllocError>
    ensures { IfOk result (λ v. v.items ≡ spec.plugins) }
{
    let mut plugins = Vec::new(alloc);
    push_grow(alloc, &mut plugins)?;
    push_letters(alloc, &mut plugins)?;
    push_loop(alloc, &mut plugins)?;
    push_marks(alloc, &mut plugins)?;
    push_notes(alloc, &mut plugins)?;
    push_tags(alloc, &mut plugins)?;
    Ok(plugins)
}

fn push_grow(alloc: Global, plugins: &mut Vec<Plugin>) -> Result<(), AllocError>
    ensures { OnOk result (plugins.new.items ≡ plugins.old.items ++ spec.grow_plugin ∷ []) }
{
    let load = vec![in alloc; on_title(alloc, 10, "grow")?]?;
    plugins.push(plugin(alloc, "grow", load)?)?;
    Ok(())
}

fn push_letters(alloc: Global, plugins: &mut Vec<Plugin>) -> Result<(), AllocError>
    ensures { OnOk result (plugins.new.items ≡ plugins.old.items ++ spec.letters_plugin ∷ []) }
{
    let load = letters_load(alloc)?;
    plugins.push(plugin(alloc, "letters", load)?)?;
    Ok(())
}

fn letters_load(alloc: Global) -> Result<Vec<Load>, AllocError>
    ensures { IfOk result (λ v. v.items ≡ spec.letters_load) }
{
    let mut load = Vec::new(alloc);
    push_on_title(alloc, &mut load, 10, "add_a")?;
    push_on_title(alloc, &mut load, 10, "add_b")?;
    push_on_title(alloc, &mut load, 5, "add_c")?;
    Ok(load)
}

fn push_on_title(
    alloc: Global,
    load: &mut Vec<Load>,
    priority: i64,
    callback: &str,
) -> Result<(), AllocError>
    requires { name_fault 32 callback.now ≡ None }
    ensures { OnOk result (load.new.items ≡ load.old.items
        ++ Load.Hook spec.the_title priority callback.now 1 ∷ []) }
{
    load.push(on_title(alloc, priority, callback)?)?;
    Ok(())
}

fn push_loop(alloc: Global, plugins: &mut Vec<Plugin>) -> Result<(), AllocError>
    ensures { OnOk result (plugins.new.items ≡ plugins.old.items ++ spec.loop_plugin ∷ []) }
{
    let load = vec![in alloc;
        on_title(alloc, 10, "again")?,
        on_hook(alloc, "title_save_pre", 10, "again_save")?,
    ]?;
    plugins.push(plugin(alloc, "loop", load)?)?;
    Ok(())
}

fn push_marks(alloc: Global, plugins: &mut Vec<Plugin>) -> Result<(), AllocError>
    ensures { OnOk result (plugins.new.items ≡ plugins.old.items ++ spec.marks_plugin ∷ []) }
{
    let load = vec![in alloc; on_shortcode_tag(alloc, "mark")?]?;
    plugins.push(plugin(alloc, "marks", load)?)?;
    Ok(())
}

fn push_notes(alloc: Global, plugins: &mut Vec<Plugin>) -> Result<(), AllocError>
    ensures { OnOk result (plugins.new.items ≡ plugins.old.items ++ spec.notes_plugin ∷ []) }
{
    let load = vec![in alloc; on_hook(alloc, "save_post", 10, "note")?]?;
    plugins.push(plugin(alloc, "notes", load)?)?;
    Ok(())
}

fn push_tags(alloc: Global, plugins: &mut Vec<Plugin>) -> Result<(), AllocError>
    ensures { OnOk result (plugins.new.items ≡ plugins.old.items ++ spec.tags_plugin ∷ []) }
{
    let load = vec![in alloc; tag_of(alloc, "greet")?, tag_of(alloc, "box")?]?;
    plugins.push(plugin(alloc, "tags", load)?)?;
    Ok(())
}

fn plugin(alloc: Global, name: &str, load: Vec<Load>) -> Result<Plugin, AllocError>
    requires { name_fault 32 name.now ≡ None }
    ensures { IfOk result (λ p. p ≡ record { name = name.now; load = load.items }) }
{
    Ok(Plugin {
        name: plugin_named(alloc, name)?,
        load: Items::from_vec(load),
    })
}

fn on_title(alloc: Global, priority: i64, callback: &str) -> Result<Load, AllocError>
    requires { name_fault 32 callback.now ≡ None }
    ensures { IfOk result (λ l. l ≡ Load.Hook spec.the_title priority callback.now 1) }
{
    on_hook(alloc, "the_title", priority, callback)
}

fn on_hook(alloc: Global, hook: &str, priority: i64, callback: &str) -> Result<Load, AllocError>
    requires hook { name_fault 64 hook.now ≡ None }
    requires callback { name_fault 32 callback.now ≡ None }
    ensures { IfOk result (λ l. l ≡ Load.Hook hook.now priority callback.now 1) }
{
    Ok(Load::Hook {
        hook: HookName::from_valid(alloc, hook)?,
        priority,
        callback: callback_named(callback),
        accepted: 1,
    })
}

// It accepts the answer of a shortcode and its tag.
fn on_shortcode_tag(alloc: Global, callback: &str) -> Result<Load, AllocError>
    requires { name_fault 32 callback.now ≡ None }
    ensures { IfOk result (λ l. l ≡ spec.on_shortcode_tag callback.now) }
{
    Ok(Load::Hook {
        hook: HookName::from_valid(alloc, "do_shortcode_tag")?,
        priority: 10,
        callback: callback_named(callback),
        accepted: 2,
    })
}

// A tag whose callback has the tag's name.
fn tag_of(alloc: Global, name: &str) -> Result<Load, AllocError>
    requires { name_fault 32 name.now ≡ None }
    ensures { IfOk result (λ l. l ≡ Load.Tag name.now name.now) }
{
    Ok(Load::Tag {
        tag: tag_named(alloc, name)?,
        callback: callback_named(name),
    })
}
