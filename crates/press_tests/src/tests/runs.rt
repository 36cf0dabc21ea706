use super::scripts::{appending, fails_once, plugin};
use press_callbacks::{BoxedTurns, CallIn, Kit, Stored, script_turn};
use press_run::{Job, Machine, RunFault};
use press_site::{Effect, Site};
use press_text::{CallbackId, HookName, Name, Text, Texts};
use std::alloc::Global;
use std::cell::Cell;
use std::test::Fail;

// The kit of the callback `add_q` and the plugin `one`, which puts it on the hook `h`.
fn kit_of(alloc: Global, stored: Stored) -> Result<Kit, Fail> {
    let callbacks = vec![in alloc; stored]?;
    let plugins = vec![in alloc; plugin(alloc, "add_q")?]?;
    Ok(Kit::build(alloc, callbacks, plugins)?)
}

// A site whose one active plugin is `one`.
fn site_of(alloc: Global) -> Result<Site, Fail> {
    let mut site = Site::new(alloc);
    let plugin = Name::new(alloc, "one")?;
    site.effect(Effect::Activate { plugin })?;
    Ok(site)
}

fn filter_of(alloc: Global, text: &str) -> Result<Job, Fail> {
    let text = Text::from_str(alloc, text)?;
    Ok(Job::Apply {
        hook: HookName::new(alloc, "h")?,
        args: Texts::one(alloc, text),
    })
}

// What the filter gives from a fresh boot.
fn run_filter(alloc: Global, kit: &Kit, site: Site, job: Job) -> Result<String, RunFault> {
    let mut machine = Machine::new(alloc, kit, site)?;
    machine.run(kit, job)
}

// The script has two turns, and its closure runs out of memory at its second call.
#[test]
fn a_closure_wants_memory(rt: HostRuntime) -> Result<(), Fail> {
    let alloc = rt.alloc();
    let script = appending(alloc, "q")?;
    let own = appending(alloc, "q")?;
    let calls = Cell::new(0u32);
    let call: BoxedTurns = Box::new(alloc, move |i: &CallIn| fails_once(alloc, &calls, &own, i))?;
    let kit = kit_of(alloc, Stored::new(CallbackId::new("add_q")?, script, call))?;
    let site = site_of(alloc)?;
    let text = run_filter(alloc, &kit, site, filter_of(alloc, "x")?);
    assert_eq!(rt; text.err(), Some(RunFault::NoMemory));
    Ok(())
}
