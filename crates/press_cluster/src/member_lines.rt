//! The members that count other members, or run another kit, or have applied other commands: each
//! has a line once it shows that.

ghost use Rattle.std.specs.Prelude.{◌≡◌, ◌&&◌, MatchOption, false, if◌then◌else◌, not, slice_get, slice_set};
ghost use Rattle.press_operator.specs.Counting.{one_more};

use press_acceptor::PromiseStore;
use press_member::Member;
use std::alloc::{AllocError, Global};

// What a member shows.
#[derive(Clone, Copy)]
enum News {
    Foreign,
    Differing,
}

impl News {
    fn is_shown<S: PromiseStore>(self, member: &Member<S>, place: usize) -> bool {
        match self {
            News::Foreign => member.is_foreign(place),
            News::Differing => member.is_differing(place),
        }
    }
}

/// Which members have had their line of one kind.
#[derive(Drop)]
pub struct MemberLines {
    named: Vec<bool>,
    // How many had a line.
    count: u64,
}

impl MemberLines {
    /// None of so many.
    pub fn new(alloc: Global, count: usize) -> Result<MemberLines, AllocError> {
        let mut named = Vec::new(alloc);
        for _ in 0..count {
            named.push(false)?;
        }
        Ok(MemberLines { named, count: 0 })
    }

    /// How often a member began to show that.
    pub fn count(&self) -> u64
        ensures { result ≡ self.now.count }
    {
        self.count
    }

    fn note(&mut self, is_news: bool)
        ensures counts { self.new.count ≡ (if is_news then one_more self.old.count
            else self.old.count) }
        ensures same { self.new.named ≡ self.old.named }
    {
        if is_news {
            self.count = self.count.saturating_add(1);
        }
    }

    // Whether the member at a place is to have its line: it shows that, and didn't before.
    fn is_news(&mut self, place: usize, is_shown: bool) -> bool
        ensures noted { self.new.named.items ≡ slice_set self.old.named.items place is_shown }
        ensures news { MatchOption (slice_get self.old.named.items place) (result ≡ false)
            (λ is_named. result ≡ (is_shown && not is_named)) }
    {
        match self.named.get_mut(place) {
            Some(is_named) => {
                let was_named = *is_named;
                *is_named = is_shown;
                is_shown && !was_named
            }
            None => false,
        }
    }

    // The place of the next that is to have its line.
    fn next<S: PromiseStore>(&mut self, member: &Member<S>, news: News) -> Option<usize> {
        for place in 0..self.named.len() {
            let is_news = self.is_news(place, news.is_shown(member, place));
            self.note(is_news);
            if is_news {
                return Some(place);
            }
        }
        None
    }

    /// The line of the next that is to have one since it isn't heard. Without memory it is lost.
    pub fn next_foreign<S: PromiseStore>(
        &mut self,
        alloc: Global,
        member: &Member<S>,
    ) -> Option<String> {
        let number = self.next(member, News::Foreign)?.saturating_add(1);
        let line = format!(in alloc; "member {number} has other peers or another kit: not heard\n");
        line.ok()
    }

    /// That of the next that is to have one since it has applied other commands. Without memory it
    /// is lost.
    pub fn next_differing<S: PromiseStore>(
        &mut self,
        alloc: Global,
        member: &Member<S>,
    ) -> Option<String> {
        let number = self.next(member, News::Differing)?.saturating_add(1);
        let line = format!(in alloc;
            "member {number} has applied other commands: compare \"digest\" of /ready here and there\n"
        );
        line.ok()
    }
}
