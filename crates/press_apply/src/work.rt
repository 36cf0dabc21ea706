//! The work of a command, after a boot of its own.

ghost use Rattle.std.specs.Prelude.{◌≡◌, ◌≢◌, IfErr, IfOk, None, Ok, Err, codes, true};
ghost use Rattle.press_text.specs.Names.{name_fault};
ghost use Rattle.press_callbacks.specs.Kits.{kit_view, plugins_in};
ghost use Rattle.press_events.specs.DueEvents.{due};
ghost use Rattle.press_posts.specs.PostChange.{post_at};
ghost use Rattle.press_run.specs.Boot.{boot_actions};
ghost use Rattle.press_apply.specs.Apply.{change_between, boots, changes, delete_fault, delete_work, does};
ghost use Rattle.press_apply.specs.Apply.{filter_text, fires, move_fault, update_fault, wanted_fault};
ghost use Rattle.press_apply.specs.Apply.{insert_work, passes, prepare_draft, takes, takes_all, tick_work, trash_work};
ghost use Rattle.press_apply.specs.Apply.{untrash_work, update_work};
ghost use Rattle.press_apply.specs.Works.{Boots, GoesBack, GrowsBehind, Steps, TellsItsLimit, TellsLimits};
ghost use Rattle.press_apply.specs.Works.{end_work, is_limit, meaning_in, state_in};

use crate::actions::{about, event_fires};
use crate::checks::{delete_fault, move_fault, update_fault, wanted_fault};
use crate::edit::Edit;
use crate::fault::ApplyFault;
use press_callbacks::Kit;
use press_events::Event;
use press_posts::{Draft, Fire, Move};
use press_run::{Job, Machine, RunFault, boot, boot_actions};
use press_site::{Changed, Effect, OpenSite, SiteFault};
use press_text::{Copied, HookName, Items, OptName, Text, Texts};
use std::alloc::{AllocError, Global};

/// A command at work on an open site.
#[derive(Debug)]
pub struct Work {
    alloc: Global,
    pub machine: Machine<OpenSite>,
}

impl Drop for Work {
    fn drop(self) {
        let Work {
            alloc: _,
            machine: _,
        } = self;
    }
}

/// What a command's work came to.
pub struct Worked {
    pub site: OpenSite,
    /// The id of the post that it is about, or 0.
    pub id: Result<u64, ApplyFault>,
    /// Whether a run met a limit.
    pub met_limit: bool,
}

// The actions round a change of a post.
#[derive(Clone, Copy)]
struct Hooks<'a> {
    before: &'a str,
    after: &'a str,
}

fn passes(fault: Option<SiteFault>) -> Result<(), ApplyFault>
    ensures answer { passes fault ≡ result }
    ensures memory { result ≢ Err ApplyFault.NoMemory }
{
    match fault {
        None => Ok(()),
        Some(fault) => Err(ApplyFault::Site(fault)),
    }
}

impl Work {
    /// After a boot of the site and its three actions; a refusal hands the site back.
    pub fn begin(alloc: Global, kit: &Kit, site: OpenSite) -> Result<Work, Worked>
        ensures boots { Boots (boots (meaning_in kit.now) (kit_view kit.now) site.site) site
            result }
        ensures limit { IfOk result (λ work. work.machine.met_limit ≢ true) }
        ensures limits { IfErr result TellsItsLimit }
    {
        let tables = match boot(alloc, kit, site.site()) {
            Ok(tables) => tables,
            Err(_) => {
                let (id, met_limit) = (Err(ApplyFault::NoMemory), false);
                return Err(Worked {
                    site,
                    id,
                    met_limit,
                });
            }
        };
        let machine = Machine::over(alloc, tables, site);
        let mut work = Work { alloc, machine };
        match work.boot(kit) {
            Ok(()) => Ok(work),
            Err(fault) => Err(work.end(Err(fault))),
        }
    }

    fn boot(&mut self, kit: &Kit) -> Result<(), ApplyFault>
        ensures steps { Steps (λ s _. s) (fires (meaning_in kit.now) boot_actions
            (state_in self.old)) self.new result }
        ensures back { GoesBack self.old self.new }
        ensures limit { TellsLimits result self.old self.new }
    {
        let actions = boot_actions(self.alloc)?;
        self.fires(kit, actions)
    }

    fn fires(&mut self, kit: &Kit, actions: Items<Fire>) -> Result<(), ApplyFault>
        ensures steps { Steps (λ s _. s) (fires (meaning_in kit.now) actions (state_in self.old))
            self.new result }
        ensures back { GoesBack self.old self.new }
        ensures limit { self.new.machine.met_limit ≡ is_limit result }
    {
        match self.machine.run(kit, Job::Fires(actions)) {
            Ok(_) => Ok(()),
            Err(RunFault::Limit) => Err(ApplyFault::Limit),
            Err(RunFault::NoMemory) => Err(ApplyFault::NoMemory),
        }
    }

    // What a filter gives for a text.
    fn filter_text(&mut self, kit: &Kit, hook: &str, text: &Text) -> Result<Text, ApplyFault>
        requires { name_fault 64 hook.now ≡ None }
        ensures steps { Steps (λ s text. record { text = text; state = s })
            (filter_text (meaning_in kit.now) hook.now text.now (state_in self.old))
            self.new result }
        ensures back { GoesBack self.old self.new }
        ensures limit { TellsLimits result self.old self.new }
    {
        let hook = HookName::from_valid(self.alloc, hook)?;
        let text = text.copy(self.alloc)?;
        let args = Texts::one(self.alloc, text);
        match self.machine.run(kit, Job::Apply { hook, args }) {
            Ok(given) => Ok(Text::from_string(given)?),
            Err(RunFault::Limit) => Err(ApplyFault::Limit),
            Err(RunFault::NoMemory) => Err(ApplyFault::NoMemory),
        }
    }

    #[tactic(auto, using(crate::proofs::Refusals::site_refused))]
    fn change(&mut self, effect: Effect) -> Result<Changed, ApplyFault>
        ensures steps { Steps (λ s changed. (s, changed)) (changes effect (state_in self.old))
            self.new result }
        ensures back { GoesBack self.old self.new }
        ensures limit { self.new.machine.met_limit ≡ self.old.machine.met_limit }
        ensures memory { GrowsBehind result (changes effect (state_in self.old)) }
    {
        Ok(self.machine.site.effect(effect)?)
    }

    /// A change, and what it fires; the id of the post that it is about, or 0.
    #[tactic(auto, unfolding(crate::specs::Apply::does), using(crate::proofs::Refusals::handed_on))]
    pub fn does(&mut self, kit: &Kit, effect: Effect) -> Result<u64, ApplyFault>
        ensures steps { Steps (λ s id. (s, id))
            (does (meaning_in kit.now) effect (state_in self.old))
            self.new result }
        ensures back { GoesBack self.old self.new }
        ensures limit { TellsLimits result self.old self.new }
        ensures memory { GrowsBehind result (changes effect (state_in self.old)) }
    {
        let Changed { id, fires, .. } = self.change(effect)?;
        self.fires(kit, fires)?;
        Ok(id)
    }

    /// A new post, whose title is filtered before its content.
    #[tactic(auto, unfolding(crate::specs::Apply::insert_work), using(crate::proofs::Refusals::handed_on))]
    pub fn insert(&mut self, kit: &Kit, draft: &Draft) -> Result<u64, ApplyFault>
        ensures steps { Steps (λ s id. (s, id))
            (insert_work (meaning_in kit.now) draft.now (state_in self.old)) self.new result }
        ensures back { GoesBack self.old self.new }
        ensures limit { TellsLimits result self.old self.new }
        ensures memory { GrowsBehind result (passes (wanted_fault draft.now.status)) }
    {
        passes(wanted_fault(draft.status))?;
        let draft = self.prepare(kit, draft)?;
        Ok(self.does(kit, Effect::Insert(draft))?)
    }

    /// Another title, content, status and date for a post, filtered likewise.
    #[tactic(auto, unfolding(crate::specs::Apply::update_work), using(crate::proofs::Refusals::handed_on))]
    pub fn update(&mut self, kit: &Kit, edit: Edit<'_>) -> Result<u64, ApplyFault>
        ensures steps { Steps (λ s id. (s, id))
            (update_work (meaning_in kit.now) edit.entry.id edit.entry.draft.now
            (state_in self.old))
            self.new result }
        ensures back { GoesBack self.old self.new }
        ensures limit { TellsLimits result self.old self.new }
        ensures memory { GrowsBehind result (passes (update_fault edit.entry.draft.now.status
            (post_at self.old.machine.site.site.posts edit.entry.id))) }
    {
        let Edit { id, draft } = edit;
        passes(update_fault(draft.status, self.machine.site.site().post(id)))?;
        let draft = self.prepare(kit, draft)?;
        Ok(self.does(kit, Effect::Edit { id, draft })?)
    }

    // A draft whose title and content are filtered.
    #[tactic(auto, unfolding(crate::specs::Apply::prepare_draft), using(crate::proofs::Refusals::handed_on))]
    fn prepare(&mut self, kit: &Kit, draft: &Draft) -> Result<Draft, ApplyFault>
        ensures steps { Steps (λ s d. (s, d))
            (prepare_draft (meaning_in kit.now) draft.now (state_in self.old)) self.new result }
        ensures back { GoesBack self.old self.new }
        ensures limit { TellsLimits result self.old self.new }
    {
        Ok(Draft {
            title: self.filter_text(kit, "title_save_pre", &draft.title)?,
            content: self.filter_text(kit, "content_save_pre", &draft.content)?,
            status: draft.status,
            date: draft.date,
        })
    }

    // A change of a post between an action before it and one after its fires.
    #[tactic(auto, unfolding(crate::specs::Apply::change_between), using(crate::proofs::Refusals::handed_on))]
    fn change_between(
        &mut self,
        kit: &Kit,
        hooks: &Hooks<'_>,
        effect: Effect,
        id: u64,
    ) -> Result<u64, ApplyFault>
        requires begins { name_fault 64 hooks.now.before.now ≡ None }
        requires ends { name_fault 64 hooks.now.after.now ≡ None }
        ensures steps { Steps (λ s id. (s, id))
            (change_between (meaning_in kit.now) hooks.now.before.now effect hooks.now.after.now id
            (state_in self.old))
            self.new result }
        ensures back { GoesBack self.old self.new }
        ensures limit { TellsLimits result self.old self.new }
    {
        self.fires(kit, about(self.alloc, hooks.before, id)?)?;
        let done = self.does(kit, effect)?;
        self.fires(kit, about(self.alloc, hooks.after, id)?)?;
        Ok(done)
    }

    #[tactic(auto, unfolding(crate::specs::Apply::trash_work), using(crate::proofs::Refusals::handed_on))]
    pub fn trash(&mut self, kit: &Kit, id: u64) -> Result<u64, ApplyFault>
        ensures steps { Steps (λ s id. (s, id))
            (trash_work (meaning_in kit.now) id (state_in self.old))
            self.new result }
        ensures back { GoesBack self.old self.new }
        ensures limit { TellsLimits result self.old self.new }
        ensures memory { GrowsBehind result (passes (move_fault Move.Trash
            (post_at self.old.machine.site.site.posts id))) }
    {
        passes(move_fault(Move::Trash, self.machine.site.site().post(id)))?;
        let (before, after) = ("wp_trash_post", "trashed_post");
        let effect = Effect::Move {
            id,
            to: Move::Trash,
        };
        Ok(self.change_between(kit, &Hooks { before, after }, effect, id)?)
    }

    #[tactic(auto, unfolding(crate::specs::Apply::untrash_work), using(crate::proofs::Refusals::handed_on))]
    pub fn untrash(&mut self, kit: &Kit, id: u64) -> Result<u64, ApplyFault>
        ensures steps { Steps (λ s id. (s, id))
            (untrash_work (meaning_in kit.now) id (state_in self.old))
            self.new result }
        ensures back { GoesBack self.old self.new }
        ensures limit { TellsLimits result self.old self.new }
        ensures memory { GrowsBehind result (passes (move_fault Move.Untrash
            (post_at self.old.machine.site.site.posts id))) }
    {
        passes(move_fault(Move::Untrash, self.machine.site.site().post(id)))?;
        let (before, after) = ("untrash_post", "untrashed_post");
        let effect = Effect::Move {
            id,
            to: Move::Untrash,
        };
        Ok(self.change_between(kit, &Hooks { before, after }, effect, id)?)
    }

    #[tactic(auto, unfolding(crate::specs::Apply::delete_work), using(crate::proofs::Refusals::handed_on))]
    pub fn delete(&mut self, kit: &Kit, id: u64) -> Result<u64, ApplyFault>
        ensures steps { Steps (λ s id. (s, id))
            (delete_work (meaning_in kit.now) id (state_in self.old))
            self.new result }
        ensures back { GoesBack self.old self.new }
        ensures limit { TellsLimits result self.old self.new }
        ensures memory { GrowsBehind result (passes (delete_fault
            (post_at self.old.machine.site.site.posts id))) }
    {
        passes(delete_fault(self.machine.site.site().post(id)))?;
        let (before, after) = ("before_delete_post", "deleted_post");
        let effect = Effect::Delete { id };
        Ok(self.change_between(kit, &Hooks { before, after }, effect, id)?)
    }

    fn take_event(&mut self, event: &Event) -> Result<Changed, ApplyFault>
        ensures steps { Steps (λ s changed. (s, changed))
            (changes (Effect.Take event.now) (state_in self.old))
            self.new result }
        ensures back { GoesBack self.old self.new }
        ensures limit { self.new.machine.met_limit ≡ self.old.machine.met_limit }
    {
        let own = event.copy_in(self.alloc)?;
        Ok(self.change(Effect::Take(own))?)
    }

    // Takes an event and does it; one that was cancelled since isn't done.
    #[tactic(auto, unfolding(crate::specs::Apply::takes), using(crate::proofs::Refusals::handed_on))]
    fn take(&mut self, kit: &Kit, event: &Event) -> Result<(), ApplyFault>
        ensures steps { Steps (λ s _. s) (takes (meaning_in kit.now) event.now (state_in self.old))
            self.new result }
        ensures back { GoesBack self.old self.new }
        ensures limit { TellsLimits result self.old self.new }
    {
        let taken = self.take_event(event)?;
        let actions = event_fires(self.alloc, taken.did, event)?;
        self.fires(kit, actions)?;
        Ok(())
    }

    fn take_all(&mut self, kit: &Kit, events: &[Event]) -> Result<(), ApplyFault>
        ensures steps { Steps (λ s _. s)
            (takes_all (meaning_in kit.now) events.now (state_in self.old))
            self.new result }
        ensures back { GoesBack self.old self.new }
        ensures limit { TellsLimits result self.old self.new }
    {
        for event in events {
            self.take(kit, event)?;
        }
        Ok(())
    }

    pub fn set_option(&mut self, kit: &Kit, name: &OptName, value: &Text) -> Result<u64, ApplyFault>
        ensures steps { Steps (λ s id. (s, id))
            (does (meaning_in kit.now) (Effect.SetOption name.now value.now) (state_in self.old))
            self.new result }
        ensures back { GoesBack self.old self.new }
        ensures limit { TellsLimits result self.old self.new }
    {
        let (name, value) = (name.copy(self.alloc)?, value.copy(self.alloc)?);
        Ok(self.does(kit, Effect::SetOption { name, value })?)
    }

    /// The work at its end, with what it answered.
    pub fn end(self, id: Result<u64, ApplyFault>) -> Worked
        ensures { result ≡ end_work self id }
    {
        let Work { alloc: _, machine } = self;
        let met_limit = machine.met_limit;
        let (site, _) = machine.into_parts();
        Worked {
            site,
            id,
            met_limit,
        }
    }

    /// Takes what is due, which is listed once.
    pub fn tick(&mut self, kit: &Kit) -> Result<u64, ApplyFault>
        ensures steps { Steps (λ s id. (s, id)) (tick_work (meaning_in kit.now) (state_in self.old))
            self.new result }
        ensures back { GoesBack self.old self.new }
        ensures limit { TellsLimits result self.old self.new }
    {
        let due = self.machine.site.site().due()?;
        self.take_due(kit, due.as_slice())
    }

    #[tactic(auto, unfolding(crate::specs::Apply::tick_work), using(crate::proofs::Refusals::no_id_refused))]
    fn take_due(&mut self, kit: &Kit, events: &[Event]) -> Result<u64, ApplyFault>
        requires { events.now ≡ due self.old.machine.site.site.moment
            self.old.machine.site.site.events }
        ensures steps { Steps (λ s id. (s, id)) (tick_work (meaning_in kit.now) (state_in self.old))
            self.new result }
        ensures back { GoesBack self.old self.new }
        ensures limit { TellsLimits result self.old self.new }
    {
        self.take_all(kit, events)?;
        Ok(0)
    }
}
