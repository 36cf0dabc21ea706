ghost use Rattle.std.specs.Prelude.{◌≡◌, IfOk, OnOk, IfSome, option_map};
ghost use Rattle.press_hooks.specs.NextEntry.{with_rows};
ghost use Rattle.press_callbacks.specs.Kits.{plugins_in};
ghost use Rattle.press_run.specs.Boot.{boot_actions, boot_with, fresh, load_all, load_one, loads_of, the_content, publish_future_post};
ghost use Rattle.press_run.specs.Outcome.{loaded_in, BootsWith};

use press_callbacks::{Kit, Load, Plugin, Tables, check_and_publish_future_post, do_shortcode};
use press_hooks::HookTable;
use press_posts::Fire;
use press_scan::TagTable;
use press_site::Site;
use press_text::{HookName, Items, Name};
use std::alloc::{AllocError, Global};

/// Fresh tables with the built-in callbacks on `the_content` and `publish_future_post` and the
/// loads of the site's active plugins, in the order of their names. A plugin that the kit lacks
/// loads nothing.
pub fn boot(alloc: Global, kit: &Kit, site: &Site) -> Result<Tables, AllocError>
    ensures { IfOk result (λ t. BootsWith (boot_with (plugins_in kit.now) site.now.active) t) }
{
    boot_with(alloc, kit, site.active())
}

/// The actions that follow a boot, before anything else is run.
pub fn boot_actions(alloc: Global) -> Result<Items<Fire>, AllocError>
    ensures { IfOk result (λ fs. fs ≡ boot_actions) }
{
    let loaded = Fire::bare(alloc, "plugins_loaded")?;
    let init = Fire::bare(alloc, "init")?;
    let ready = Fire::bare(alloc, "wp_loaded")?;
    Ok(Items::from_vec(vec![in alloc; loaded, init, ready]?))
}

// Fresh tables with the loads of these plugins.
fn boot_with(alloc: Global, kit: &Kit, active: &[Name]) -> Result<Tables, AllocError>
    ensures { IfOk result (λ t. BootsWith (boot_with (plugins_in kit.now) active.now) t) }
{
    let mut tables = fresh(alloc)?;
    for name in active {
        load_plugin(&mut tables, kit.plugin(name))?;
    }
    Ok(tables)
}

// The tables before any plugin.
fn fresh(alloc: Global) -> Result<Tables, AllocError>
    ensures { IfOk result (λ t. BootsWith fresh t) }
{
    let mut hooks = HookTable::new(alloc);
    hooks.add(&the_content(alloc)?, do_shortcode(), 11, 1)?;
    hooks.add(
        &publish_future_post(alloc)?,
        check_and_publish_future_post(),
        10,
        1,
    )?;
    let tags = TagTable::new(alloc);
    Ok(Tables { hooks, tags })
}

fn the_content(alloc: Global) -> Result<HookName, AllocError>
    ensures { IfOk result (λ h. h ≡ the_content) }
{
    HookName::from_valid(alloc, "the_content")
}

fn publish_future_post(alloc: Global) -> Result<HookName, AllocError>
    ensures { IfOk result (λ h. h ≡ publish_future_post) }
{
    HookName::from_valid(alloc, "publish_future_post")
}

fn load_plugin(tables: &mut Tables, plugin: Option<&Plugin>) -> Result<(), AllocError>
    ensures loads { OnOk result (loaded_in tables.new
        ≡ load_all (loads_of (option_map (λ p. p.now) plugin.entry)) (loaded_in tables.old)) }
    ensures runs { OnOk result (tables.new.hooks.open_runs ≡ tables.old.hooks.open_runs) }
{
    match plugin {
        None => Ok(()),
        Some(p) => load_all(tables, p.load.as_slice()),
    }
}

fn load_all(tables: &mut Tables, loads: &[Load]) -> Result<(), AllocError>
    ensures loads { OnOk result (loaded_in tables.new
        ≡ load_all loads.now (loaded_in tables.old)) }
    ensures runs { OnOk result (tables.new.hooks.open_runs ≡ tables.old.hooks.open_runs) }
{
    for load in loads {
        load_one(tables, load)?;
    }
    Ok(())
}

// A row or a tag past the last that its table takes is left out.
fn load_one(tables: &mut Tables, load: &Load) -> Result<(), AllocError>
    ensures loads { OnOk result (loaded_in tables.new
        ≡ load_one load.now (loaded_in tables.old)) }
    ensures runs { OnOk result (tables.new.hooks.open_runs ≡ tables.old.hooks.open_runs) }
{
    match load {
        Load::Hook {
            hook,
            priority,
            callback,
            accepted,
        } => {
            tables.hooks.add(hook, *callback, *priority, *accepted)?;
            Ok(())
        }
        Load::Tag { tag, callback } => {
            tables.tags.add(tag.as_str(), *callback)?;
            Ok(())
        }
    }
}
