//! The same commands over two kits.

ghost use Rattle.std.specs.Prelude.{◌≡◌, ◌+◌, IfOk, length, string_bytes, take};
ghost use Rattle.press_acceptor.specs.Seen.{Looks};
ghost use Rattle.press_callbacks.specs.Kits.{kit_view};
ghost use Rattle.press_upgrade.specs.Differences.{kit_given};
ghost use Rattle.press_handover.specs.Comparing.{Adds, is_known, noted_at, noted_of, told_of, view_of_parts};
ghost use Rattle.press_handover.specs.Handovers as spec;
ghost use Rattle.press_handover.specs.Voted.{voted_values};

use crate::boxing::kit_of;
use crate::kept::KeptFault;
use crate::otherwise::Otherwise;
use crate::visiting::{Visitor, visit_all};
use press_acceptor::{PromiseStore, StoreFault};
use press_apply::{Value, apply};
use press_callbacks::{BoxedTurns, CallIn, Kit, Stored, script_turn};
use press_kit::KitParts;
use press_site::{Outcome, Site, Token};
use press_text::Copied;
use std::alloc::{AllocError, Global};

/// How many outcomes that come out otherwise are told.
const MOST_TOLD: usize = 20;

/// What came out otherwise: the first of it, and how much there is.
#[derive(Debug, Drop)]
pub struct Compared {
    pub first: Vec<Otherwise>,
    pub count: u64,
}

impl Compared {
    /// A line for each of the first, and one with their number.
    #[tactic(auto, using(crate::proofs::Telling::lines_on, crate::proofs::Telling::lines_end), unfolding(crate::specs::Handovers::count_line))]
    pub fn lines(&self, alloc: Global) -> Result<String, AllocError>
        ensures { IfOk result (λ t. string_bytes t ≡ spec.told_lines self.now) }
    {
        let mut text = String::new(alloc);
        for one in &self.first {
            text.push_str(&one.line(alloc)?)?;
        }
        let count = self.count;
        text.push_str(&format!(in alloc;
            "press: over the new kit {count} outcomes come out otherwise\n"
        )?)?;
        Ok(text)
    }
}

// Two sites of the same commands, over two kits.
struct Comparing<'k> {
    alloc: Global,
    old: &'k Kit,
    new: &'k Kit,
    before: Site,
    after: Site,
    compared: Compared,
}

impl Drop for Comparing<'_> {
    fn drop(self) {
        let Comparing {
            alloc: _,
            old: _,
            new: _,
            before: _,
            after: _,
            compared: _,
        } = self;
    }
}

// Whether its outcome is kept by now, so that it isn't applied.
fn is_known(site: &Site, value: &Value) -> bool
    ensures { result ≡ is_known site.now value.now }
{
    match value {
        Value::Noop { .. } => true,
        Value::Cmd(stamped) => site.result_of(&stamped.token).is_some(),
    }
}

fn is_same(before: Outcome, after: Outcome) -> bool
    ensures { result ≡ spec.same_outcome before after }
{
    before == after
}

impl Compared {
    // What a command came to at two sites, where its token is new.
    fn note(&mut self, value: &Value, before: Outcome, after: Outcome) -> Result<(), AllocError>
        ensures { IfOk result (λ _. Adds self.old (noted_at value.now before after) self.new) }
    {
        match value {
            Value::Noop { .. } => Ok(()),
            Value::Cmd(stamped) => self.note_command(&stamped.token, before, after),
        }
    }

    fn note_command(
        &mut self,
        token: &Token,
        before: Outcome,
        after: Outcome,
    ) -> Result<(), AllocError>
        ensures { IfOk result (λ _.
            Adds self.old (noted_of token.now before after) self.new) }
    {
        if is_same(before, after) {
            return Ok(());
        }
        self.count = self.count.saturating_add(1);
        if self.first.len() < MOST_TOLD {
            self.first.push(Otherwise {
                token: token.clone()?,
                before,
                after,
            })?;
        }
        Ok(())
    }
}

impl Visitor for Comparing<'_> {
    ghost use Rattle.press_handover.specs.Comparing.{Compares};

    ghost visits = { λ old value new. Compares old value new };

    fn visit(&mut self, value: &Value) -> Result<(), AllocError> {
        let known = is_known(&self.before, value);
        let before = apply(self.alloc, &mut self.before, self.old, value)?;
        let after = apply(self.alloc, &mut self.after, self.new, value)?;
        if known {
            return Ok(());
        }
        self.compared.note(value, before, after)?;
        Ok(())
    }
}

fn compare_kits<S: PromiseStore>(
    alloc: Global,
    store: &mut S,
    old: &Kit,
    new: &Kit,
) -> Result<Compared, StoreFault>
    ensures compared { (S.seen store.new).is_honest → IfOk result (λ compared. told_of compared
        (spec.all_otherwise (kit_view old.now) (kit_view new.now)
        (voted_values (S.seen store.old).kept))) }
    ensures looks { (S.seen store.new).is_honest → Looks (S.seen store.old) (S.seen store.new) }
{
    let mut comparing = Comparing {
        alloc,
        old,
        new,
        before: Site::new(alloc),
        after: Site::new(alloc),
        compared: Compared {
            first: Vec::new(alloc),
            count: 0,
        },
    };
    visit_all(alloc, store, &mut comparing)?;
    Ok(comparing.into_compared())
}

impl Comparing<'_> {
    fn into_compared(self) -> Compared
        ensures { result ≡ self.entry.compared }
    {
        let Comparing {
            alloc: _,
            old: _,
            new: _,
            before: _,
            after: _,
            compared,
        } = self;
        compared
    }
}

/// What comes out otherwise over the new kit, of the commands in a store. Callbacks and plugins of
/// which no kit can be built are damage.
pub fn compare<S: PromiseStore>(
    alloc: Global,
    store: &mut S,
    old: KitParts,
    new: KitParts,
) -> Result<Result<Compared, StoreFault>, KeptFault>
    requires always { Unit {0} }
    ensures compared { (S.seen store.new).is_honest → IfOk result (λ done. IfOk done (λ compared.
        told_of compared (spec.all_otherwise (view_of_parts old) (view_of_parts new)
        (voted_values (S.seen store.old).kept)))) }
    ensures looks { (S.seen store.new).is_honest → Looks (S.seen store.old) (S.seen store.new) }
{
    let Ok(before) = kit_of!(alloc, old) else {
        return Err(KeptFault::Damaged);
    };
    let Ok(after) = kit_of!(alloc, new) else {
        return Err(KeptFault::Damaged);
    };
    Ok(compare_kits(alloc, store, &before, &after))
}
