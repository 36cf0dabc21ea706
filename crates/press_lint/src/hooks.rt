//! Which hooks anything runs.

ghost use Rattle.std.specs.Prelude.{◌≡◌, ◌||◌, ℕ, List, IfOk, OnOk, bytes_eq, map, option_map};
ghost use Rattle.std.specs.List.{list_any};
ghost use Rattle.press_kit.specs.declared.play_file.Play.{Play as Played};
ghost use Rattle.press_lint.specs.NameSets.{holds};
ghost use Rattle.press_lint.specs.Runs.{is_run_by, runs};
ghost use Rattle.press_lint.specs.Slips as spec;

use crate::accepted::accepted_in;
use crate::name_set::NameSet;
use crate::run::Run;
use crate::spots::spots_in;
use press_callbacks::Op;
use press_kit::{KitParts, Play, Scripted};
use press_text::{HookName, MOST_NAME};
use std::alloc::{AllocError, Global};

const ENGINE: [&str; 19] = [
    "plugins_loaded",
    "init",
    "wp_loaded",
    "wp_head",
    "wp_footer",
    "the_title",
    "the_content",
    "title_save_pre",
    "content_save_pre",
    "transition_post_status",
    "save_post",
    "wp_trash_post",
    "trashed_post",
    "untrash_post",
    "untrashed_post",
    "before_delete_post",
    "deleted_post",
    "publish_future_post",
    "do_shortcode_tag",
];

const STATUSES: [&str; 6] = ["publish", "future", "draft", "pending", "private", "trash"];

fn is_text(bytes: &[u8], text: &str) -> bool
    ensures { result ≡ bytes_eq bytes.now text.now }
{
    bytes == text.as_bytes()
}

/// Whether a word is one of some texts.
pub fn is_among(word: &[u8], words: &[&str]) -> bool
    ensures { result ≡ list_any (bytes_eq word.now) (map (λ w. w.now) words.now) }
{
    words.iter().any(|w| is_text(word, w))
}

fn is_status(word: &[u8]) -> bool
    ensures { result ≡ spec.is_status word.now }
{
    is_among(word, &STATUSES)
}

// What follows a prefix.
fn behind<'h>(front: &str, whole: &'h [u8]) -> Option<&'h [u8]>
    ensures { option_map (λ rest. rest.now) result ≡ spec.behind front.now whole.now }
{
    whole.strip_prefix(front.as_bytes())
}

fn is_turn(hook: &[u8], old: &str) -> bool
    ensures { result ≡ spec.is_turn hook.now old.now }
{
    let Some(turn) = behind(old, hook) else {
        return false;
    };
    match behind("_to_", turn) {
        Some(new) => is_status(new),
        None => false,
    }
}

fn is_turn_of(hook: &[u8], words: &[&str]) -> bool
    ensures { result ≡ list_any (spec.is_turn hook.now) (map (λ w. w.now) words.now) }
{
    words.iter().any(|old| is_turn(hook, old))
}

fn is_transition(hook: &[u8]) -> bool
    ensures { result ≡ spec.is_transition hook.now }
{
    is_turn(hook, "new") || is_turn_of(hook, &STATUSES)
}

fn reaches(hook: &[u8], new: &str) -> bool
    ensures { result ≡ spec.reaches hook.now new.now }
{
    match behind(new, hook) {
        Some(rest) => is_text(rest, "_post"),
        None => false,
    }
}

fn reaches_one(hook: &[u8], words: &[&str]) -> bool
    ensures { result ≡ list_any (spec.reaches hook.now) (map (λ w. w.now) words.now) }
{
    words.iter().any(|new| reaches(hook, new))
}

fn is_reached(hook: &[u8]) -> bool
    ensures { result ≡ spec.is_reached hook.now }
{
    reaches_one(hook, &STATUSES)
}

// Whether what follows is as long as the name of an option; the bytes of a hook's name may all
// stand in one.
fn is_change(hook: &[u8], change: &str) -> bool
    ensures { result ≡ spec.is_change hook.now change.now }
{
    match behind(change, hook) {
        Some(name) => !name.is_empty() && name.len() <= MOST_NAME,
        None => false,
    }
}

fn is_of_option(hook: &[u8]) -> bool
    ensures { result ≡ spec.is_of_option hook.now }
{
    is_change(hook, "add_option_") || is_change(hook, "update_option_")
}

fn is_engines(hook: &[u8]) -> bool
    ensures { result ≡ spec.is_engines hook.now }
{
    is_among(hook, &ENGINE) || is_transition(hook) || is_reached(hook) || is_of_option(hook)
}

fn put<'k>(hooks: &mut NameSet<'k>, hook: &'k HookName) -> Result<(), AllocError>
    ensures { OnOk result ((q : List ℕ) → holds hooks.new q
        ≡ (bytes_eq hook.now q || holds hooks.old q)) }
{
    hooks.insert(hook.as_str().as_bytes())?;
    Ok(())
}

// The hook that a step runs, or has run later.
fn put_op<'k>(hooks: &mut NameSet<'k>, op: &'k Op) -> Result<(), AllocError>
    ensures { OnOk result ((q : List ℕ) → holds hooks.new q
        ≡ (runs q op.now || holds hooks.old q)) }
{
    match op {
        Op::Apply { hook, .. } => put(hooks, hook),
        Op::Do { hook, .. } => put(hooks, hook),
        Op::Schedule { hook, .. } => put(hooks, hook),
        Op::Set(_) | Op::AddHook { .. } | Op::RemoveHook { .. } | Op::RemoveAll { .. } => Ok(()),
        Op::AddTag { .. } | Op::RemoveTag { .. } | Op::SkipIf { .. } => Ok(()),
        Op::Shortcodes(_) | Op::Ask(_) | Op::SetOption { .. } => Ok(()),
        Op::Publish(_) | Op::Echo(_) | Op::Return(_) => Ok(()),
    }
}

#[tactic(auto, using(crate::proofs::Gathered::gathered))]
fn put_script<'k>(hooks: &mut NameSet<'k>, script: &'k [Op]) -> Result<(), AllocError>
    ensures { OnOk result ((q : List ℕ) → holds hooks.new q
        ≡ (list_any (runs q) script.now || holds hooks.old q)) }
{
    for op in script {
        put_op(hooks, op)?;
    }
    Ok(())
}

#[tactic(auto, using(crate::proofs::Gathered::gathered))]
fn put_scripts<'k>(hooks: &mut NameSet<'k>, callbacks: &'k [Scripted]) -> Result<(), AllocError>
    ensures { OnOk result ((q : List ℕ) → holds hooks.new q
        ≡ (is_run_by callbacks.now q || holds hooks.old q)) }
{
    for callback in callbacks {
        put_script(hooks, callback.script.as_slice())?;
    }
    Ok(())
}

#[tactic(auto, using(crate::proofs::Gathered::gathered))]
fn put_plays<'k>(hooks: &mut NameSet<'k>, plays: &'k [Play]) -> Result<(), AllocError>
    ensures { OnOk result ((q : List ℕ) → holds hooks.new q
        ≡ (list_any (λ (p : Played). bytes_eq p.hook q) plays.now || holds hooks.old q)) }
{
    for play in plays {
        put(hooks, &play.hook)?;
    }
    Ok(())
}

/// The hooks that the scripts of a kit and these plays run, the arguments that its callbacks get,
/// and where it puts them.
#[tactic(auto, using(crate::proofs::Gathered::alone))]
pub fn hooks_that_run<'k>(
    alloc: Global,
    kit: &'k KitParts,
    plays: &'k [Play],
) -> Result<Run<'k>, AllocError>
    ensures kit { IfOk result (λ run. run.kit.now ≡ kit.now) }
    ensures plays { IfOk result (λ run. run.plays.now ≡ plays.now) }
{
    let mut hooks = NameSet::new(alloc);
    put_plays(&mut hooks, plays)?;
    put_scripts(&mut hooks, kit.callbacks.as_slice())?;
    Ok(Run {
        kit,
        plays,
        hooks,
        accepted: accepted_in(alloc, kit)?,
        spots: spots_in(alloc, kit)?,
    })
}

/// Whether the engine, one of these scripts or one of these plays runs the hook.
#[tactic(auto, using(crate::proofs::Gathered::grouped))]
pub fn is_run(run: &Run<'_>, hook: &HookName) -> bool
    ensures { result ≡ spec.is_run run.now.kit.now.callbacks run.now.plays.now hook.now }
{
    let hook = hook.as_str().as_bytes();
    is_engines(hook) || run.has(hook)
}
