//! A page that is being built.

ghost use Rattle.std.specs.Prelude.{◌≡◌, ◌≢◌, ◌∷◌, ◌++◌, [], Err, false, IfOk, IsErrOf, None, Some, codes, decimal, option_map, string_bytes};
ghost use Rattle.press_callbacks.specs.Kits.{kit_view};
ghost use Rattle.press_run.specs.Limits.{ShowsLimits};
ghost use Rattle.press_run.specs.Outcome.{Refuses, is_limit};
ghost use Rattle.press_run.specs.Run.{apply_hook, within};
ghost use Rattle.press_text.specs.Gives.{Gives};
ghost use Rattle.press_page.specs.Json.{filter_post, texts_of};
ghost use Rattle.press_page.specs.Page.{article, article_body, article_head, articles, page_closing, page_opening};
ghost use Rattle.press_page.specs.Page.{puts_filtered, whole_page};
ghost use Rattle.press_page.specs.Rendering.{ButAtLimit, TellsLimits, meaning_in, state_in};
ghost use Rattle.press_page.specs.Steps.{Answers, Steps, state_after_boot, fires, puts};

use crate::filtered::Filtered;
use crate::{hooks, template};
use press_callbacks::Kit;
use press_posts::{Fire, Post};
use press_run::{Job, MOST_BYTES, Machine, Out, Read, RunFault, boot_actions};
use press_site::Site;
use press_text::{HookName, Items, Text, Texts};
use std::alloc::{AllocError, Global};
use std::mem;

/// A page that is being built, from one boot of a site that is only read.
pub struct Rendering<'a> {
    alloc: Global,
    machine: Machine<Read<'a>>,
}

impl Drop for Rendering<'_> {
    fn drop(self) {
        let Rendering {
            alloc: _,
            machine: _,
        } = self;
    }
}

impl<'a> Rendering<'a> {
    /// Fresh tables, nothing counted and nothing written.
    pub fn new(alloc: Global, kit: &Kit, site: &'a Site) -> Result<Rendering<'a>, AllocError>
        ensures booted { IfOk result (λ r.
            state_in r ≡ state_after_boot (kit_view kit.now) site.now) }
        ensures site { IfOk result (λ r. r.machine.site.0.now ≡ site.now) }
        ensures limit { IfOk result (λ r. r.machine.met_limit ≡ false) }
    {
        let machine = Machine::new(alloc, kit, Read(site))?;
        Ok(Rendering { alloc, machine })
    }

    /// The boot's actions, then the page of the posts of these ids.
    #[tactic(auto, unfolding(crate::specs::Page::whole_page))]
    pub fn whole_page(&mut self, kit: &Kit, name: &str, ids: &[u64]) -> Result<(), RunFault>
        ensures steps { Steps (whole_page (meaning_in kit.now) name.now
            self.old.machine.site.0.now.posts ids.now (state_in self.old))
            (state_in self.new) result }
        ensures limits { TellsLimits result self.old self.new }
    {
        let site = self.machine.site.0;
        self.page_opening(kit, name)?;
        self.articles(kit, site, ids)?;
        self.page_closing(kit)
    }

    /// The site that is read.
    pub fn site(&self) -> &'a Site
        ensures { result.now ≡ self.now.machine.site.0.now }
    {
        self.machine.site.0
    }

    /// What was written, which is taken out.
    pub fn take_text(&mut self) -> String
        ensures text { string_bytes result ≡ self.old.machine.out }
        ensures limit { self.new.machine.met_limit ≡ self.old.machine.met_limit }
    {
        mem::replace(&mut self.machine.out, Out::new(self.alloc)).into_text()
    }

    /// The boot's actions, then the title and the content of a post, each by its filter.
    #[tactic(auto, unfolding(crate::specs::Json::filter_post))]
    pub fn filter_post(&mut self, kit: &Kit, post: &Post) -> Result<Filtered, RunFault>
        ensures gives { Gives Refuses Some result
            (filter_post (meaning_in kit.now) post.now (state_in self.old)) }
        ensures limits { TellsLimits result self.old self.new }
    {
        self.fires(kit, boot_actions(self.alloc)?)?;
        self.texts(kit, post)
    }

    #[tactic(auto, unfolding(crate::specs::Json::texts_of))]
    fn texts(&mut self, kit: &Kit, post: &Post) -> Result<Filtered, RunFault>
        ensures gives { Gives Refuses Some result
            (texts_of (meaning_in kit.now) post.now (state_in self.old)) }
        ensures limits { TellsLimits result self.old self.new }
    {
        let title = self.title_of(kit, post)?;
        let content = self.content_of(kit, post)?;
        Ok(Filtered { title, content })
    }

    fn title_of(&mut self, kit: &Kit, post: &Post) -> Result<Text, RunFault>
        ensures answers { Answers (apply_hook (meaning_in kit.now) (codes "the_title")
            (post.now.title ∷ decimal post.now.id ∷ []) (state_in self.old))
            (state_in self.new) result }
        ensures limits { TellsLimits result self.old self.new }
    {
        let hook = HookName::from_valid(self.alloc, "the_title")?;
        let args = hooks::title_args(self.alloc, post)?;
        self.apply_filter(kit, hook, args)
    }

    fn content_of(&mut self, kit: &Kit, post: &Post) -> Result<Text, RunFault>
        ensures answers { Answers (apply_hook (meaning_in kit.now) (codes "the_content")
            (post.now.content ∷ []) (state_in self.old)) (state_in self.new) result }
        ensures limits { TellsLimits result self.old self.new }
    {
        let hook = HookName::from_valid(self.alloc, "the_content")?;
        let args = hooks::content_args(self.alloc, post)?;
        self.apply_filter(kit, hook, args)
    }

    #[tactic(auto, unfolding(crate::specs::Page::page_opening))]
    fn page_opening(&mut self, kit: &Kit, name: &str) -> Result<(), RunFault>
        ensures steps { Steps (page_opening (meaning_in kit.now) name.now (state_in self.old))
            (state_in self.new) result }
        ensures limits { TellsLimits result self.old self.new }
    {
        self.fires(kit, boot_actions(self.alloc)?)?;
        let title = template::title_part(self.alloc, name)?;
        self.puts(title.as_str())?;
        self.fires(kit, hooks::action_without_args(self.alloc, "wp_head")?)?;
        let heading = template::heading_part(self.alloc, name)?;
        self.puts(heading.as_str())
    }

    fn articles(&mut self, kit: &Kit, site: &Site, ids: &[u64]) -> Result<(), RunFault>
        ensures steps { Steps
            (articles (meaning_in kit.now) site.now.posts ids.now (state_in self.old))
            (state_in self.new) result }
        ensures limits { TellsLimits result self.old self.new }
    {
        for id in ids {
            self.article(kit, site.post(*id))?;
        }
        Ok(())
    }

    #[tactic(auto, unfolding(crate::specs::Page::article))]
    fn article(&mut self, kit: &Kit, post: Option<&Post>) -> Result<(), RunFault>
        ensures steps { Steps
            (article (meaning_in kit.now) (option_map (λ p. p.now) post.entry) (state_in self.old))
            (state_in self.new) result }
        ensures limits { TellsLimits result self.old self.new }
    {
        let Some(post) = post else {
            return Ok(());
        };
        self.article_head(kit, post)?;
        self.article_body(kit, post)
    }

    #[tactic(auto, unfolding(crate::specs::Page::article_head))]
    fn article_head(&mut self, kit: &Kit, post: &Post) -> Result<(), RunFault>
        ensures steps { Steps (article_head (meaning_in kit.now) post.now (state_in self.old))
            (state_in self.new) result }
        ensures limits { TellsLimits result self.old self.new }
    {
        let begun = template::article_part(self.alloc, post.id)?;
        self.puts(begun.as_str())?;
        let hook = HookName::from_valid(self.alloc, "the_title")?;
        self.put_filtered(kit, hook, hooks::title_args(self.alloc, post)?)?;
        self.puts("</a></h2>\n")
    }

    #[tactic(auto, unfolding(crate::specs::Page::article_body))]
    fn article_body(&mut self, kit: &Kit, post: &Post) -> Result<(), RunFault>
        ensures steps { Steps (article_body (meaning_in kit.now) post.now (state_in self.old))
            (state_in self.new) result }
        ensures limits { TellsLimits result self.old self.new }
    {
        let hook = HookName::from_valid(self.alloc, "the_content")?;
        self.put_filtered(kit, hook, hooks::content_args(self.alloc, post)?)?;
        self.puts("\n</article>\n")
    }

    fn page_closing(&mut self, kit: &Kit) -> Result<(), RunFault>
        ensures steps { Steps (page_closing (meaning_in kit.now) (state_in self.old))
            (state_in self.new) result }
        ensures limits { TellsLimits result self.old self.new }
    {
        self.fires(kit, hooks::action_without_args(self.alloc, "wp_footer")?)?;
        self.puts("</body>\n</html>\n")
    }

    // Actions, one after the other.
    fn fires(&mut self, kit: &Kit, actions: Items<Fire>) -> Result<(), RunFault>
        ensures steps { Steps (fires (meaning_in kit.now) actions (state_in self.old))
            (state_in self.new) result }
        ensures limit { self.new.machine.met_limit ≡ is_limit result }
    {
        self.machine.run(kit, Job::Fires(actions))?;
        Ok(())
    }

    // A filter over its first argument, whose answer goes to the output.
    #[tactic(auto, unfolding(crate::specs::Page::puts_filtered))]
    fn put_filtered(&mut self, kit: &Kit, hook: HookName, args: Texts) -> Result<(), RunFault>
        ensures steps { Steps (puts_filtered (meaning_in kit.now) hook args (state_in self.old))
            (state_in self.new) result }
        ensures limit { is_limit result ≡ false → self.new.machine.met_limit ≡ false }
    {
        let text = self.machine.run(kit, Job::Apply { hook, args })?;
        self.puts(text.as_str())
    }

    // A filter over its first argument.
    fn apply_filter(&mut self, kit: &Kit, hook: HookName, args: Texts) -> Result<Text, RunFault>
        ensures answers { Answers (apply_hook (meaning_in kit.now) hook args (state_in self.old))
            (state_in self.new) result }
        ensures limit { self.new.machine.met_limit ≡ is_limit result }
    {
        let text = self.machine.run(kit, Job::Apply { hook, args })?;
        Ok(Text::from_string(text)?)
    }

    fn puts(&mut self, text: &str) -> Result<(), RunFault>
        ensures steps { Steps (puts text.now (state_in self.old)) (state_in self.new) result }
        ensures full { within (self.old.machine.out ++ text.now) ≡ None
            → IsErrOf result RunFault.Limit }
        ensures limits { ShowsLimits result self.old.machine self.new.machine }
    {
        self.machine.write(text)
    }

    /// A body, if it is within the bytes.
    pub fn within(&mut self, body: Text) -> Result<Text, RunFault>
        ensures body { Gives Refuses Some result (within body) }
        ensures full { within body ≡ None → IsErrOf result RunFault.Limit }
        ensures memory { result ≢ Err RunFault.NoMemory }
        ensures limits { ShowsLimits result self.old.machine self.new.machine }
    {
        if body.len() > MOST_BYTES {
            self.machine.met_limit = true;
            return Err(RunFault::Limit);
        }
        Ok(body)
    }
}

/// What is to be shown, or nothing at a limit.
pub fn but_at_limit(given: Result<Text, RunFault>) -> Result<Option<Text>, AllocError>
    ensures { ButAtLimit given result }
{
    match given {
        Ok(text) => Ok(Some(text)),
        Err(RunFault::Limit) => Ok(None),
        Err(RunFault::NoMemory) => Err(AllocError),
    }
}
