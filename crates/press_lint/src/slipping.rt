//! What in a kit is surely not meant, a line for each.

ghost use Rattle.std.specs.Prelude.{ℕ, List, [], ◌≡◌, ◌++◌, IfOk, OnOk, option_map, string_bytes};
ghost use Rattle.press_lint.specs.Accepts.{most_accepted};
ghost use Rattle.press_lint.specs.Files as files;
ghost use Rattle.press_lint.specs.Joints.{share_of};
ghost use Rattle.press_lint.specs.NameSets.{holds};
ghost use Rattle.press_lint.specs.Pages.{is_put_elsewhere, runs_on_pages};
ghost use Rattle.press_lint.specs.Reads.{tell_unread as told_unread};
ghost use Rattle.press_lint.specs.Slips as spec;
ghost use Rattle.press_lint.specs.Spots.{is_put_at, spot as spot_text};

use crate::hooks::{hooks_that_run, is_run};
use crate::joint::Share;
use crate::name_set::NameSet;
use crate::pages::strays_in;
use crate::reads::{tell_unread, unread_source};
use crate::run::Run;
use crate::spots::spot;
use crate::told::{place_in, text_of};
use crate::turning::front as first_of;
use press_callbacks::{Load, Op, Plugin, Source};
use press_kit::{KitParts, Place, Play, Scripted};
use press_text::{CallbackId, HookName};
use std::alloc::{AllocError, Global};

// A kit that is looked through beside plays, with a prefix for each line, and the callbacks that
// are put elsewhere than on pages.
struct Look<'k> {
    alloc: Global,
    front: &'k str,
    run: Run<'k>,
    strays: NameSet<'k>,
    ghost apart: { (q : List ℕ) → holds strays q
        ≡ is_put_elsewhere run.kit.now run.plays.now q },
}

impl Drop for Look<'_> {
    fn drop(self) {
        let Look {
            alloc: _,
            front: _,
            run: _,
            strays: _,
        } = self;
    }
}

impl Look<'_> {
    fn slip(&self, at: Place, what: &str) -> Result<String, AllocError>
        ensures { IfOk result (λ t. string_bytes t
            ≡ spec.slip self.now.front.now self.now.run.kit.now at what.now) }
    {
        let front = self.front;
        let place = place_in(self.alloc, self.run.kit, at)?;
        format!(in self.alloc; "{front}{place}{what}\n")
    }

    fn unrun_slip(&self, at: Place, hook: &HookName) -> Result<String, AllocError>
        ensures { IfOk result (λ t. string_bytes t
            ≡ spec.slip self.now.front.now self.now.run.kit.now at (spec.tell_unrun hook.now)) }
    {
        let hook = hook.as_str();
        let what = format!(in self.alloc;
            "puts a callback on a hook that nothing runs: \"{hook}\""
        )?;
        self.slip(at, what.as_str())
    }

    fn hook_slip(&self, at: Place, hook: &HookName) -> Result<String, AllocError>
        ensures { IfOk result (λ t. string_bytes t
            ≡ spec.hook_slip self.now.front.now
            self.now.run.kit.now self.now.run.plays.now at hook.now) }
    {
        if is_run(&self.run, hook) {
            return Ok(String::new(self.alloc));
        }
        self.unrun_slip(at, hook)
    }

    fn tell_removal(&self, hook: &str, callback: &str, priority: i64) -> Result<String, AllocError>
        ensures { IfOk result (λ t. string_bytes t
            ≡ spec.tell_removal hook.now callback.now priority) }
    {
        format!(in self.alloc;
            "takes \"{callback}\" off \"{hook}\" at priority {priority}, where nothing puts it"
        )
    }

    fn removal_line(
        &self,
        at: Place,
        hook: &str,
        callback: &str,
        priority: i64,
    ) -> Result<String, AllocError>
        ensures { IfOk result (λ t. string_bytes t
            ≡ spec.slip self.now.front.now self.now.run.kit.now at
            (spec.tell_removal hook.now callback.now priority)) }
    {
        let what = self.tell_removal(hook, callback, priority)?;
        self.slip(at, what.as_str())
    }

    fn is_put(&self, hook: &str, callback: &str, priority: i64) -> Result<bool, AllocError>
        ensures { IfOk result (λ b. b
            ≡ is_put_at self.now.run.kit.now (spot_text hook.now callback.now priority)) }
    {
        let spot = spot(self.alloc, hook, callback, priority)?;
        Ok(self.run.has_spot(spot.as_str()))
    }

    fn removal_slip(
        &self,
        at: Place,
        hook: &HookName,
        callback: &CallbackId,
        priority: i64,
    ) -> Result<String, AllocError>
        ensures { IfOk result (λ t. string_bytes t
            ≡ spec.removal_slip self.now.front.now self.now.run.kit.now self.now.run.plays.now
            at hook.now callback.now priority) }
    {
        let (hook, callback) = (hook.as_str(), text_of(callback));
        if self.is_put(hook, callback, priority)? {
            return Ok(String::new(self.alloc));
        }
        self.removal_line(at, hook, callback, priority)
    }

    fn skip_slip(&self, at: Place, n: u16, behind: &[Op]) -> Result<String, AllocError>
        ensures { IfOk result (λ t. string_bytes t
            ≡ spec.skip_slip self.now.front.now
            self.now.run.kit.now self.now.run.plays.now at n behind.now) }
    {
        if behind.len() < n as usize {
            return self.slip(at, "skips past the end of its script");
        }
        if n == 0 {
            return self.slip(at, "skips nothing");
        }
        Ok(String::new(self.alloc))
    }

    fn op_slip(&self, at: Place, op: &Op, behind: &[Op]) -> Result<String, AllocError>
        ensures { IfOk result (λ t. string_bytes t
            ≡ spec.op_slip self.now.front.now
            self.now.run.kit.now self.now.run.plays.now
            at op.now behind.now) }
    {
        match op {
            Op::SkipIf { n, .. } => self.skip_slip(at, *n, behind),
            Op::AddHook { hook, .. } => self.hook_slip(at, hook),
            Op::RemoveHook {
                hook,
                callback,
                priority,
            } => self.removal_slip(at, hook, callback, *priority),
            _ => Ok(String::new(self.alloc)),
        }
    }

    fn source_slip(&self, at: Place, source: &Source) -> Result<String, AllocError>
        ensures { IfOk result (λ t. string_bytes t
            ≡ spec.slip self.now.front.now self.now.run.kit.now at (told_unread source.now)) }
    {
        let what = tell_unread(self.alloc, source)?;
        self.slip(at, what.as_str())
    }

    fn unread_slip(&self, at: Place, source: Option<&Source>) -> Result<String, AllocError>
        ensures { IfOk result (λ t. string_bytes t
            ≡ spec.unread_slip self.now.front.now self.now.run.kit.now self.now.run.plays.now at
            (option_map (λ s. s.now) source.entry)) }
    {
        match source {
            Some(source) => self.source_slip(at, source),
            None => Ok(String::new(self.alloc)),
        }
    }

    // All of a step, whose callback gets at most so many arguments.
    fn step_slips(
        &self,
        most: Option<u32>,
        at: Place,
        op: &Op,
        behind: &[Op],
    ) -> Result<String, AllocError>
        ensures { IfOk result (λ t. string_bytes t
            ≡ spec.step_slips self.now.front.now
            self.now.run.kit.now self.now.run.plays.now
            most at op.now behind.now) }
    {
        let mut lines = self.op_slip(at, op, behind)?;
        let reading = self.unread_slip(at, unread_source(most, op))?;
        lines.push_str(reading.as_str())?;
        Ok(lines)
    }

    fn load_slip(&self, at: Place, load: &Load) -> Result<String, AllocError>
        ensures { IfOk result (λ t. string_bytes t
            ≡ spec.load_slip self.now.front.now
            self.now.run.kit.now self.now.run.plays.now at load.now) }
    {
        match load {
            Load::Hook { hook, .. } => self.hook_slip(at, hook),
            Load::Tag { .. } => Ok(String::new(self.alloc)),
        }
    }

    fn push_ops(
        &self,
        out: &mut String,
        most: Option<u32>,
        callback: usize,
        script: &[Op],
    ) -> Result<(), AllocError>
        ensures { OnOk result (string_bytes out.new ≡ string_bytes out.old
            ++ spec.script_slips self.now.front.now
            self.now.run.kit.now self.now.run.plays.now most callback script.now) }
    {
        for op in 0..script.len() {
            let at = Place::Op { callback, op };
            let slip = self.step_slips(most, at, &script[op], &script[op + 1..])?;
            out.push_str(slip.as_str())?;
        }
        Ok(())
    }

    fn push_loads(&self, out: &mut String, plugin: usize, loads: &[Load]) -> Result<(), AllocError>
        ensures { OnOk result (string_bytes out.new ≡ string_bytes out.old
            ++ spec.loads_slips self.now.front.now
            self.now.run.kit.now self.now.run.plays.now plugin loads.now) }
    {
        for load in 0..loads.len() {
            let at = Place::Load { plugin, load };
            let slip = self.load_slip(at, &loads[load])?;
            out.push_str(slip.as_str())?;
        }
        Ok(())
    }

    fn change_slip(&self, at: Place, op: &Op) -> Result<String, AllocError>
        ensures { IfOk result (λ t. string_bytes t
            ≡ spec.change_slip self.now.front.now
            self.now.run.kit.now self.now.run.plays.now at op.now) }
    {
        match op {
            Op::SetOption { .. } | Op::Schedule { .. } | Op::Publish(_) => self.slip(
                at,
                "changes the site, and its callback runs on pages alone, where nothing changes",
            ),
            _ => Ok(String::new(self.alloc)),
        }
    }

    fn push_changes(
        &self,
        out: &mut String,
        callback: usize,
        script: &[Op],
    ) -> Result<(), AllocError>
        ensures { OnOk result (string_bytes out.new ≡ string_bytes out.old
            ++ spec.changes_slips self.now.front.now
            self.now.run.kit.now self.now.run.plays.now callback script.now) }
    {
        for op in 0..script.len() {
            let at = Place::Op { callback, op };
            let slip = self.change_slip(at, &script[op])?;
            out.push_str(slip.as_str())?;
        }
        Ok(())
    }

    // Whether pages alone run the callback of that name.
    fn runs_on_pages(&self, id: &CallbackId) -> bool
        ensures { result ≡ runs_on_pages self.now.run.kit.now self.now.run.plays.now id.now }
    {
        let name = id.as_bytes();
        self.run.is_put(name) && !self.strays.has(name)
    }

    fn push_page(&self, out: &mut String, n: usize, callback: &Scripted) -> Result<(), AllocError>
        ensures { OnOk result (string_bytes out.new ≡ string_bytes out.old
            ++ spec.page_slips self.now.front.now
            self.now.run.kit.now self.now.run.plays.now n callback.now) }
    {
        if !self.runs_on_pages(&callback.id) {
            return Ok(());
        }
        self.push_changes(out, n, callback.script.as_slice())
    }

    fn push_script(&self, out: &mut String, n: usize, callback: &Scripted) -> Result<(), AllocError>
        ensures { OnOk result (string_bytes out.new ≡ string_bytes out.old
            ++ spec.script_slips self.now.front.now self.now.run.kit.now self.now.run.plays.now
            (most_accepted self.now.run.kit.now callback.now.id) n callback.now.script) }
    {
        let most = self.run.most(&callback.id);
        self.push_ops(out, most, n, callback.script.as_slice())
    }

    fn push_callback(
        &self,
        out: &mut String,
        n: usize,
        callback: &Scripted,
    ) -> Result<(), AllocError>
        ensures { OnOk result (string_bytes out.new ≡ string_bytes out.old
            ++ spec.callback_slips self.now.front.now
            self.now.run.kit.now self.now.run.plays.now n callback.now []) }
    {
        self.push_script(out, n, callback)?;
        self.push_page(out, n, callback)
    }

    fn push_callbacks(&self, out: &mut String, callbacks: &[Scripted]) -> Result<(), AllocError>
        ensures { OnOk result (string_bytes out.new ≡ string_bytes out.old
            ++ spec.along (spec.callback_slips self.now.front.now
            self.now.run.kit.now self.now.run.plays.now) 0 callbacks.now) }
    {
        for n in 0..callbacks.len() {
            self.push_callback(out, n, &callbacks[n])?;
        }
        Ok(())
    }

    fn push_plugins(&self, out: &mut String, plugins: &[Plugin]) -> Result<(), AllocError>
        ensures { OnOk result (string_bytes out.new ≡ string_bytes out.old
            ++ spec.along (spec.plugin_slips self.now.front.now
            self.now.run.kit.now self.now.run.plays.now) 0 plugins.now) }
    {
        for n in 0..plugins.len() {
            self.push_loads(out, n, plugins[n].load.as_slice())?;
        }
        Ok(())
    }
}

/// The slips of a kit, a line for each after this prefix. What these plays run is run.
pub fn slips(
    alloc: Global,
    front: &str,
    kit: &KitParts,
    plays: &[Play],
) -> Result<String, AllocError>
    ensures { IfOk result (λ t. string_bytes t ≡ spec.slips front.now kit.now plays.now) }
{
    let run = hooks_that_run(alloc, kit, plays)?;
    let strays = strays_in(alloc, &run)?;
    let look = Look {
        alloc,
        front,
        run,
        strays,
    };
    let mut out = String::new(alloc);
    look.push_callbacks(&mut out, kit.callbacks.as_slice())?;
    look.push_plugins(&mut out, kit.plugins.as_slice())?;
    Ok(out)
}

/// The slips of a file whose callbacks and plugins are the first ones of a kit, likewise.
pub fn first_slips(
    alloc: Global,
    front: &str,
    kit: &KitParts,
    share: &Share<'_>,
) -> Result<String, AllocError>
    ensures { IfOk result (λ t. string_bytes t
        ≡ files.first_slips front.now (share_of share.now) kit.now) }
{
    let run = hooks_that_run(alloc, kit, &[])?;
    let strays = strays_in(alloc, &run)?;
    let look = Look {
        alloc,
        front,
        run,
        strays,
    };
    let mut out = String::new(alloc);
    look.push_callbacks(
        &mut out,
        first_of(kit.callbacks.as_slice(), share.callbacks),
    )?;
    look.push_plugins(&mut out, first_of(kit.plugins.as_slice(), share.plugins))?;
    Ok(out)
}
