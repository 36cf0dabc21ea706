//! What pages alone run.

ghost use Rattle.std.specs.Prelude.{◌≡◌, ◌||◌, ℕ, List, IfOk, OnOk, bytes_eq};
ghost use Rattle.std.specs.List.{list_any};
ghost use Rattle.press_callbacks.specs.declared.plugin.Plugin.{Plugin as OnePlugin};
ghost use Rattle.press_kit.specs.declared.kit_parts.Scripted.{Scripted as Told};
ghost use Rattle.press_lint.specs.NameSets.{holds};
ghost use Rattle.press_lint.specs.Pages as spec;

use crate::hooks::is_among;
use crate::name_set::NameSet;
use crate::run::Run;
use press_callbacks::{Load, Op, Plugin};
use press_kit::Scripted;
use press_text::{CallbackId, HookName};
use std::alloc::{AllocError, Global};

const PAGES: [&str; 4] = ["wp_head", "the_title", "the_content", "wp_footer"];

fn is_page_hook(hook: &[u8]) -> bool
    ensures { result ≡ list_any (bytes_eq hook.now) spec.page_hooks }
{
    is_among(hook, &PAGES)
}

// Whether pages alone run the hook of that name.
fn is_of_pages(run: &Run<'_>, hook: &[u8]) -> bool
    ensures { result ≡ spec.is_of_pages run.now.kit.now run.now.plays.now hook.now }
{
    is_page_hook(hook) && !run.has(hook)
}

fn answers(op: &Op) -> bool
    ensures { result ≡ spec.answers op.now }
{
    matches!(op, Op::Shortcodes(_))
}

fn script_answers(script: &[Op]) -> bool
    ensures { result ≡ list_any spec.answers script.now }
{
    script.iter().any(|op| answers(op))
}

fn some_answer(callbacks: &[Scripted]) -> bool
    ensures { result ≡ spec.some_answer callbacks.now }
{
    callbacks
        .iter()
        .any(|c| script_answers(c.script.as_slice()))
}

fn are_tags_of_pages(run: &Run<'_>) -> bool
    ensures { result ≡ spec.are_tags_of_pages run.now.kit.now run.now.plays.now }
{
    is_of_pages(run, "the_content".as_bytes())
        && !some_answer(run.kit.callbacks.as_slice())
        && !run.is_put("do_shortcode".as_bytes())
}

fn put_on<'k>(
    strays: &mut NameSet<'k>,
    run: &Run<'k>,
    hook: &HookName,
    callback: &'k CallbackId,
) -> Result<(), AllocError>
    ensures { OnOk result ((q : List ℕ) → holds strays.new q
        ≡ (spec.strays_on run.now.kit.now run.now.plays.now q hook.now callback.now
        || holds strays.old q)) }
{
    if is_of_pages(run, hook.as_str().as_bytes()) {
        return Ok(());
    }
    strays.insert(callback.as_bytes())?;
    Ok(())
}

fn put_under<'k>(
    strays: &mut NameSet<'k>,
    run: &Run<'k>,
    tags: bool,
    callback: &'k CallbackId,
) -> Result<(), AllocError>
    ensures { OnOk result ((q : List ℕ) → holds strays.new q
        ≡ (spec.strays_under run.now.kit.now run.now.plays.now tags q callback.now
        || holds strays.old q)) }
{
    if tags {
        return Ok(());
    }
    strays.insert(callback.as_bytes())?;
    Ok(())
}

fn put_load<'k>(
    strays: &mut NameSet<'k>,
    run: &Run<'k>,
    tags: bool,
    load: &'k Load,
) -> Result<(), AllocError>
    ensures { OnOk result ((q : List ℕ) → holds strays.new q
        ≡ (spec.load_strays run.now.kit.now run.now.plays.now tags q load.now
        || holds strays.old q)) }
{
    match load {
        Load::Hook { hook, callback, .. } => put_on(strays, run, hook, callback),
        Load::Tag { callback, .. } => put_under(strays, run, tags, callback),
    }
}

fn put_step<'k>(
    strays: &mut NameSet<'k>,
    run: &Run<'k>,
    tags: bool,
    op: &'k Op,
) -> Result<(), AllocError>
    ensures { OnOk result ((q : List ℕ) → holds strays.new q
        ≡ (spec.step_strays run.now.kit.now run.now.plays.now tags q op.now
        || holds strays.old q)) }
{
    match op {
        Op::AddHook { hook, callback, .. } => put_on(strays, run, hook, callback),
        Op::AddTag { callback, .. } => put_under(strays, run, tags, callback),
        Op::Set(_) | Op::RemoveHook { .. } | Op::RemoveAll { .. } => Ok(()),
        Op::RemoveTag { .. } | Op::SkipIf { .. } | Op::Apply { .. } => Ok(()),
        Op::Do { .. } | Op::Shortcodes(_) | Op::Ask(_) => Ok(()),
        Op::SetOption { .. } | Op::Schedule { .. } | Op::Publish(_) => Ok(()),
        Op::Echo(_) | Op::Return(_) => Ok(()),
    }
}

#[tactic(auto, using(crate::proofs::Gathered::gathered))]
fn put_loads<'k>(
    strays: &mut NameSet<'k>,
    run: &Run<'k>,
    tags: bool,
    loads: &'k [Load],
) -> Result<(), AllocError>
    ensures { OnOk result ((q : List ℕ) → holds strays.new q
        ≡ (list_any (spec.load_strays run.now.kit.now run.now.plays.now tags q) loads.now
        || holds strays.old q)) }
{
    for load in loads {
        put_load(strays, run, tags, load)?;
    }
    Ok(())
}

#[tactic(auto, using(crate::proofs::Gathered::gathered))]
fn put_script<'k>(
    strays: &mut NameSet<'k>,
    run: &Run<'k>,
    tags: bool,
    script: &'k [Op],
) -> Result<(), AllocError>
    ensures { OnOk result ((q : List ℕ) → holds strays.new q
        ≡ (list_any (spec.step_strays run.now.kit.now run.now.plays.now tags q) script.now
        || holds strays.old q)) }
{
    for op in script {
        put_step(strays, run, tags, op)?;
    }
    Ok(())
}

#[tactic(auto, using(crate::proofs::Gathered::gathered))]
fn put_plugins<'k>(
    strays: &mut NameSet<'k>,
    run: &Run<'k>,
    tags: bool,
    plugins: &'k [Plugin],
) -> Result<(), AllocError>
    ensures { OnOk result ((q : List ℕ) → holds strays.new q
        ≡ (list_any (λ (p : OnePlugin). list_any
        (spec.load_strays run.now.kit.now run.now.plays.now tags q) p.load) plugins.now
        || holds strays.old q)) }
{
    for plugin in plugins {
        put_loads(strays, run, tags, plugin.load.as_slice())?;
    }
    Ok(())
}

#[tactic(auto, using(crate::proofs::Gathered::gathered))]
fn put_callbacks<'k>(
    strays: &mut NameSet<'k>,
    run: &Run<'k>,
    tags: bool,
    callbacks: &'k [Scripted],
) -> Result<(), AllocError>
    ensures { OnOk result ((q : List ℕ) → holds strays.new q
        ≡ (list_any (λ (c : Told). list_any
        (spec.step_strays run.now.kit.now run.now.plays.now tags q) c.script) callbacks.now
        || holds strays.old q)) }
{
    for callback in callbacks {
        put_script(strays, run, tags, callback.script.as_slice())?;
    }
    Ok(())
}

/// The callbacks that something puts elsewhere than on what pages alone run.
pub fn strays_in<'k>(alloc: Global, run: &Run<'k>) -> Result<NameSet<'k>, AllocError>
    ensures { IfOk result (λ strays. (q : List ℕ) → holds strays q
        ≡ spec.is_put_elsewhere run.now.kit.now run.now.plays.now q) }
{
    let tags = are_tags_of_pages(run);
    let mut strays = NameSet::new(alloc);
    put_plugins(&mut strays, run, tags, run.kit.plugins.as_slice())?;
    put_callbacks(&mut strays, run, tags, run.kit.callbacks.as_slice())?;
    Ok(strays)
}
