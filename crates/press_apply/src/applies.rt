//! One value applied to a site.

ghost use Rattle.std.specs.Prelude.{◌≡◌, ◌≢◌, ℕ, None, Ok, Err, MatchResult, false, max, IfOk, IfSome, OnErr, OnOk, is_some};
ghost use Rattle.press_callbacks.specs.Kits.{kit_view, plugin_of, plugins_in};
ghost use Rattle.press_site.specs.Effects.{effect_on};
ghost use Rattle.press_site.specs.Open.{site_at_start};
ghost use Rattle.press_site.specs.Outcomes.{outcome_of};
ghost use Rattle.press_apply.specs.Apply.{work_without_boot, applied, applied_where, at_moment, work_after_boot};
ghost use Rattle.press_apply.specs.Apply.{delete_work, does, insert_work, tick_work, trash_work, untrash_work};
ghost use Rattle.press_apply.specs.Apply.{update_work, with_kept, work_of};
ghost use Rattle.press_apply.specs.Works.{GrowsBehind, IsOutcome, Refuses, TakesMemory, TakesNone};
ghost use Rattle.press_apply.specs.Works.{TellsItsLimit, Works, meaning_in};

use crate::checks::is_active;
use crate::command::{Command, Stamped};
use crate::edit::{Edit, Setting};
use crate::fault::ApplyFault;
use crate::value::Value;
use crate::work::{Work, Worked};
use press_callbacks::Kit;
use press_posts::Draft;
use press_site::{Effect, OpenSite, Outcome, Site, SiteFault, Token};
use press_text::{Copied, Moment, Name};
use std::alloc::{AllocError, Global};
use std::mem;

/// Applies a value: its outcome, which the site keeps under the command's token. A known token
/// answers the outcome that it has and moves the moment alone, without memory. A refused command
/// leaves nothing else behind; after running out of memory the site is as it was. The command works
/// on the site itself, which goes back: it costs what it changes.
pub fn apply(
    alloc: Global,
    site: &mut Site,
    kit: &Kit,
    value: &Value,
) -> Result<Outcome, AllocError>
    ensures applied { IfOk result (λ outcome.
        (site.new, outcome) ≡ applied (kit_view kit.now) site.old value.now) }
    ensures known { TakesNone value.now site.old result }
    ensures err { OnErr result (site.new ≡ site.old) }
{
    match value {
        Value::Noop { at } => {
            site.set_now(later(site.now(), *at));
            Ok(Outcome::Done(0))
        }
        Value::Cmd(stamped) => apply_command(alloc, site, kit, stamped),
    }
}

fn later(a: Moment, b: Moment) -> Moment
    ensures { result ≡ max a b }
{
    if a.seconds() < b.seconds() { b } else { a }
}

fn apply_command(
    alloc: Global,
    site: &mut Site,
    kit: &Kit,
    stamped: &Stamped,
) -> Result<Outcome, AllocError>
    ensures applied { IfOk result (λ outcome.
        (site.new, outcome) ≡ applied_where (kit_view kit.now) (at_moment stamped.now.at site.old)
        stamped.now (outcome_of stamped.now.token site.old.outcomes)) }
    ensures known { IfSome (outcome_of stamped.now.token site.old.outcomes)
        (λ outcome. result ≡ Ok outcome) }
    ensures err { OnErr result (site.new ≡ site.old) }
{
    match site.result_of(&stamped.token) {
        Some(outcome) => Ok(answer_again(site, stamped.at, outcome)),
        None => apply_new(alloc, site, kit, stamped),
    }
}

// A token that is known keeps its outcome.
fn answer_again(site: &mut Site, at: Moment, outcome: Outcome) -> Outcome
    ensures outcome { result ≡ outcome }
    ensures moment { site.new ≡ at_moment at site.old }
{
    site.set_now(later(site.now(), at));
    outcome
}

// A command whose token isn't known. Its moment is set first, and taken back for want of memory.
fn apply_new(
    alloc: Global,
    site: &mut Site,
    kit: &Kit,
    stamped: &Stamped,
) -> Result<Outcome, AllocError>
    requires { outcome_of stamped.now.token site.old.outcomes ≡ None }
    ensures applied { IfOk result (λ outcome. (site.new, outcome)
        ≡ applied_where (kit_view kit.now) (at_moment stamped.now.at site.old) stamped.now None) }
    ensures err { OnErr result (site.new ≡ site.old) }
{
    let before = site.now();
    site.set_now(later(before, stamped.at));
    let own = mem::replace(site, Site::new(alloc));
    let (after, outcome) = try_command(alloc, kit, own, stamped);
    *site = after;
    match outcome {
        Ok(outcome) => Ok(outcome),
        Err(fault) => {
            site.set_now(before);
            Err(fault)
        }
    }
}

// The command on a site at its moment; after want of memory this is as it was.
fn try_command(
    alloc: Global,
    kit: &Kit,
    site: Site,
    stamped: &Stamped,
) -> (Site, Result<Outcome, AllocError>)
    requires { outcome_of stamped.now.token site.outcomes ≡ None }
    ensures applied { IfOk result.1 (λ outcome. (result.0, outcome)
        ≡ applied_where (kit_view kit.now) site stamped.now None) }
    ensures err { OnErr result.1 (result.0 ≡ site) }
{
    let Worked {
        site,
        id,
        met_limit: _,
    } = work(alloc, kit, site.begin(), &stamped.command);
    match outcome(id) {
        Ok(Outcome::Done(id)) => keep_done(alloc, site, &stamped.token, id),
        Ok(Outcome::Refused(fault)) => refusal(alloc, site.back(), &stamped.token, fault),
        Err(fault) => (site.back(), Err(fault)),
    }
}

// The outcome of a command's work, unless memory ran out.
fn outcome(id: Result<u64, ApplyFault>) -> Result<Outcome, AllocError>
    ensures { IsOutcome id result }
{
    match id {
        Ok(id) => Ok(Outcome::Done(id)),
        Err(ApplyFault::NoMemory) => Err(AllocError),
        Err(fault) => Ok(Outcome::Refused(fault.number())),
    }
}

// A command that is done leaves the site as it stands after its work.
fn keep_done(
    alloc: Global,
    site: OpenSite,
    token: &Token,
    id: u64,
) -> (Site, Result<Outcome, AllocError>)
    requires { outcome_of token.now site.site.outcomes ≡ None }
    ensures outcome { IfOk result.1 (λ outcome. outcome ≡ Outcome.Done id) }
    ensures site { OnOk result.1
        (result.0 ≡ with_kept token.now (Outcome.Done id) site.site site.site) }
    ensures err { OnErr result.1 (result.0 ≡ site_at_start site) }
{
    let outcome = Outcome::Done(id);
    let Ok(own) = token.copy_in(alloc) else {
        return (site.back(), Err(AllocError));
    };
    match site.settle_with(own, outcome) {
        Ok(site) => (site, Ok(outcome)),
        Err(site) => (site, Err(AllocError)),
    }
}

// A refused command leaves the site as it was before its work, but for the outcome under its token.
fn refusal(
    alloc: Global,
    mut site: Site,
    token: &Token,
    fault: u8,
) -> (Site, Result<Outcome, AllocError>)
    requires { outcome_of token.now site.outcomes ≡ None }
    ensures outcome { IfOk result.1 (λ outcome. outcome ≡ Outcome.Refused fault) }
    ensures site { OnOk result.1
        (result.0 ≡ with_kept token.now (Outcome.Refused fault) site site) }
    ensures err { OnErr result.1 (result.0 ≡ site) }
{
    let outcome = Outcome::Refused(fault);
    let kept = keep(alloc, &mut site, token, outcome);
    (site, kept)
}

fn keep(
    alloc: Global,
    site: &mut Site,
    token: &Token,
    outcome: Outcome,
) -> Result<Outcome, AllocError>
    requires { outcome_of token.now site.old.outcomes ≡ None }
    ensures outcome { IfOk result (λ o. o ≡ outcome) }
    ensures site { OnOk result (site.new ≡ with_kept token.now outcome site.old site.old) }
    ensures err { OnErr result (site.new ≡ site.old) }
{
    site.keep(token.copy_in(alloc)?, outcome)?;
    Ok(outcome)
}

// The work of a command.
fn work(alloc: Global, kit: &Kit, site: OpenSite, command: &Command) -> Worked
    ensures works { Works (work_of (kit_view kit.now) site.site command.now) site result }
    ensures limits { TellsItsLimit result }
    ensures memory { result.id ≡ Err ApplyFault.NoMemory →
        TakesMemory (kit_view kit.now) site.site command.now }
{
    match command {
        Command::Insert(draft) => insert(alloc, kit, site, draft),
        Command::Update { id, draft } => update(alloc, kit, site, Edit { id: *id, draft }),
        Command::Trash { id } => trash(alloc, kit, site, *id),
        Command::Untrash { id } => untrash(alloc, kit, site, *id),
        Command::Delete { id } => delete(alloc, kit, site, *id),
        Command::SetOption { name, value } => {
            set_option(alloc, kit, site, Setting { name, value })
        }
        Command::Activate { plugin } => activate(alloc, kit, site, plugin),
        Command::Deactivate { plugin } => deactivate(alloc, site, plugin),
        Command::Tick => tick(alloc, kit, site),
        Command::Profile(to) => switch_profile(site, *to),
    }
}

#[tactic(auto, using(crate::proofs::Refusals::boot_stopped, crate::proofs::Refusals::work_ended, crate::proofs::Refusals::tells_its_limit))]
fn insert(alloc: Global, kit: &Kit, site: OpenSite, draft: &Draft) -> Worked
    ensures works { Works (work_after_boot (kit_view kit.now) site.site
        (insert_work (meaning_in kit.now) draft.now)) site result }
    ensures limits { TellsItsLimit result }
{
    match Work::begin(alloc, kit, site) {
        Ok(mut work) => {
            let id = work.insert(kit, draft);
            work.end(id)
        }
        Err(stopped) => stopped,
    }
}

#[tactic(auto, using(crate::proofs::Refusals::boot_stopped, crate::proofs::Refusals::work_ended, crate::proofs::Refusals::tells_its_limit))]
fn update(alloc: Global, kit: &Kit, site: OpenSite, edit: Edit<'_>) -> Worked
    ensures works { Works (work_after_boot (kit_view kit.now) site.site
        (update_work (meaning_in kit.now) edit.entry.id edit.entry.draft.now)) site result }
    ensures limits { TellsItsLimit result }
{
    match Work::begin(alloc, kit, site) {
        Ok(mut work) => {
            let id = work.update(kit, edit);
            work.end(id)
        }
        Err(stopped) => stopped,
    }
}

#[tactic(auto, using(crate::proofs::Refusals::boot_stopped, crate::proofs::Refusals::work_ended, crate::proofs::Refusals::tells_its_limit))]
fn trash(alloc: Global, kit: &Kit, site: OpenSite, id: u64) -> Worked
    ensures works { Works (work_after_boot (kit_view kit.now) site.site
        (trash_work (meaning_in kit.now) id)) site result }
    ensures limits { TellsItsLimit result }
{
    match Work::begin(alloc, kit, site) {
        Ok(mut work) => {
            let id = work.trash(kit, id);
            work.end(id)
        }
        Err(stopped) => stopped,
    }
}

#[tactic(auto, using(crate::proofs::Refusals::boot_stopped, crate::proofs::Refusals::work_ended, crate::proofs::Refusals::tells_its_limit))]
fn untrash(alloc: Global, kit: &Kit, site: OpenSite, id: u64) -> Worked
    ensures works { Works (work_after_boot (kit_view kit.now) site.site
        (untrash_work (meaning_in kit.now) id)) site result }
    ensures limits { TellsItsLimit result }
{
    match Work::begin(alloc, kit, site) {
        Ok(mut work) => {
            let id = work.untrash(kit, id);
            work.end(id)
        }
        Err(stopped) => stopped,
    }
}

#[tactic(auto, using(crate::proofs::Refusals::boot_stopped, crate::proofs::Refusals::work_ended, crate::proofs::Refusals::tells_its_limit))]
fn delete(alloc: Global, kit: &Kit, site: OpenSite, id: u64) -> Worked
    ensures works { Works (work_after_boot (kit_view kit.now) site.site
        (delete_work (meaning_in kit.now) id)) site result }
    ensures limits { TellsItsLimit result }
{
    match Work::begin(alloc, kit, site) {
        Ok(mut work) => {
            let id = work.delete(kit, id);
            work.end(id)
        }
        Err(stopped) => stopped,
    }
}

#[tactic(auto, using(crate::proofs::Refusals::boot_stopped, crate::proofs::Refusals::work_ended, crate::proofs::Refusals::tells_its_limit))]
fn set_option(alloc: Global, kit: &Kit, site: OpenSite, setting: Setting<'_>) -> Worked
    ensures works { Works (work_after_boot (kit_view kit.now) site.site
        (does (meaning_in kit.now)
        (Effect.SetOption setting.entry.name.now setting.entry.value.now))) site result }
    ensures limits { TellsItsLimit result }
{
    match Work::begin(alloc, kit, site) {
        Ok(mut work) => {
            let id = work.set_option(kit, setting.name, setting.value);
            work.end(id)
        }
        Err(stopped) => stopped,
    }
}

#[tactic(auto, using(crate::proofs::Refusals::boot_stopped, crate::proofs::Refusals::work_ended, crate::proofs::Refusals::tells_its_limit))]
fn tick(alloc: Global, kit: &Kit, site: OpenSite) -> Worked
    ensures works { Works (work_after_boot (kit_view kit.now) site.site
        (tick_work (meaning_in kit.now))) site result }
    ensures limits { TellsItsLimit result }
{
    match Work::begin(alloc, kit, site) {
        Ok(mut work) => {
            let id = work.tick(kit);
            work.end(id)
        }
        Err(stopped) => stopped,
    }
}

fn activate(alloc: Global, kit: &Kit, site: OpenSite, plugin: &Name) -> Worked
    ensures works { Works (work_of (kit_view kit.now) site.site (Command.Activate plugin.now))
        site result }
    ensures limits { TellsItsLimit result }
    ensures memory { GrowsBehind result.id
        (work_of (kit_view kit.now) site.site (Command.Activate plugin.now)) }
{
    if !has_plugin(kit, plugin) {
        return without_run(site, Err(ApplyFault::NoSuchPlugin));
    }
    if is_active(site.site().active(), plugin) {
        return without_run(site, Err(ApplyFault::Site(SiteFault::AlreadyActive)));
    }
    match plugin.copy(alloc) {
        Ok(plugin) => work_without_boot(site, Effect::Activate { plugin }),
        Err(_) => without_run(site, Err(ApplyFault::NoMemory)),
    }
}

fn deactivate(alloc: Global, site: OpenSite, plugin: &Name) -> Worked
    ensures works { Works
        (work_without_boot (effect_on site.site (Effect.Deactivate plugin.now))) site result }
    ensures limits { TellsItsLimit result }
    ensures memory { GrowsBehind result.id
        (work_without_boot (effect_on site.site (Effect.Deactivate plugin.now))) }
{
    if !is_active(site.site().active(), plugin) {
        return without_run(site, Err(ApplyFault::Site(SiteFault::NotActive)));
    }
    match plugin.copy(alloc) {
        Ok(plugin) => work_without_boot(site, Effect::Deactivate { plugin }),
        Err(_) => without_run(site, Err(ApplyFault::NoMemory)),
    }
}

// Takes no memory.
fn switch_profile(site: OpenSite, to: u8) -> Worked
    ensures works { Works (work_without_boot (effect_on site.site (Effect.Profile to)))
        site result }
    ensures limits { TellsItsLimit result }
    ensures memory { result.id ≢ Err ApplyFault.NoMemory }
{
    work_without_boot(site, Effect::Profile(to))
}

fn has_plugin(kit: &Kit, plugin: &Name) -> bool
    ensures { result ≡ is_some (plugin_of plugin.now (plugins_in kit.now)) }
{
    kit.plugin(plugin).is_some()
}

// A change that boots nothing and runs no hook.
fn work_without_boot(mut site: OpenSite, effect: Effect) -> Worked
    ensures works { Works (work_without_boot (effect_on site.site effect)) site result }
    ensures limits { TellsItsLimit result }
    ensures memory { GrowsBehind result.id (work_without_boot (effect_on site.site effect)) }
    ensures profile { (to : ℕ) → effect ≡ Effect.Profile to → result.id ≢ Err ApplyFault.NoMemory }
{
    let id = change_site(&mut site, effect);
    without_run(site, id)
}

// Work that runs no hook, and so meets no limit.
fn without_run(site: OpenSite, id: Result<u64, ApplyFault>) -> Worked
    ensures { result ≡ record { site = site; id = id; met_limit = false } }
{
    Worked {
        site,
        id,
        met_limit: false,
    }
}

#[tactic(auto, using(crate::proofs::Refusals::without_boot_refused))]
fn change_site(site: &mut OpenSite, effect: Effect) -> Result<u64, ApplyFault>
    ensures does { MatchResult result
        (λ id. work_without_boot (effect_on site.old.site effect) ≡ Ok (site.new.site, id))
        (λ fault. Refuses fault (work_without_boot (effect_on site.old.site effect))) }
    ensures back { site_at_start site.new ≡ site_at_start site.old }
    ensures memory { GrowsBehind result (work_without_boot (effect_on site.old.site effect)) }
    ensures profile { (to : ℕ) → effect ≡ Effect.Profile to → result ≢ Err ApplyFault.NoMemory }
{
    let changed = site.effect(effect)?;
    Ok(changed.id)
}
