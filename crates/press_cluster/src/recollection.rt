//! What a member tells the others of its starts and theirs, and which of their batches it hears.

ghost use Rattle.std.specs.Prelude.{◌≡◌, is_some, option_and_then, option_map};
ghost use Rattle.press_cluster.specs.Recalling.{has_forgotten, hearing_by, recall_for, witness_after};

use press_starts::{Hearing, Mark, Recall, Sighting, Witness};
use press_store::Notes;
use press_wire::MemberId;
use std::alloc::{AllocError, Global};
use std::rc::Rc;

/// What a member knows of starts: nothing where its store keeps none.
#[derive(Drop)]
pub struct Recollection {
    witness: Option<Witness>,
    // Where the store finds what was heard, for its next save.
    notes: Rc<Notes>,
    // Whether there was a line about what is forgotten.
    is_told: bool,
}

impl Recollection {
    /// Of a member over a store, which finds there what is heard.
    pub fn new(witness: Option<Witness>, notes: Rc<Notes>) -> Recollection
        ensures { result.witness ≡ witness }
    {
        Recollection {
            witness,
            notes,
            is_told: false,
        }
    }

    /// Whether the store keeps starts.
    pub fn keeps_starts(&self) -> bool
        ensures { result ≡ is_some self.now.witness }
    {
        self.witness.is_some()
    }

    /// Whether another member heard of this one what the store lacks.
    pub fn has_forgotten(&self) -> bool
        ensures { result ≡ has_forgotten self.now.witness }
    {
        match &self.witness {
            Some(witness) => witness.reminder().is_some(),
            None => false,
        }
    }

    /// Who heard what the store lacks.
    pub fn reminder(&self) -> Option<Sighting> {
        self.witness.as_ref()?.reminder()
    }

    /// What goes to a member with a batch, where the store has made these saves.
    pub fn recall_to(&mut self, to: MemberId, mark: Option<Mark>) -> Option<Recall>
        ensures recall { result ≡ recall_for mark self.old.witness to }
        ensures forgot { has_forgotten self.new.witness ≡ has_forgotten self.old.witness }
    {
        match &mut self.witness {
            Some(witness) => {
                if let Some(mark) = mark {
                    witness.count_saves(mark.saves);
                }
                Some(witness.recall_to(to))
            }
            None => None,
        }
    }

    /// What becomes of a batch of a member. Its mark is noted where it is heard.
    pub fn hear(&mut self, from: MemberId, recall: Option<Recall>) -> Hearing
        ensures hearing { result ≡ hearing_by self.old.witness from recall }
        ensures after { self.new.witness ≡ witness_after self.old.witness from recall }
    {
        match (&mut self.witness, recall) {
            (Some(witness), Some(recall)) => {
                let hearing = witness.hear(from, &recall);
                if hearing == Hearing::Heard {
                    self.notes.note(Sighting {
                        member: from,
                        mark: recall.mark,
                    });
                }
                hearing
            }
            (None, None) => Hearing::Heard,
            _ => Hearing::Unanswered,
        }
    }

    /// The line about what is forgotten, once.
    pub fn next_line(&mut self, alloc: Global) -> Option<String>
        ensures { self.new.witness ≡ self.old.witness }
    {
        if self.is_told {
            return None;
        }
        let reminder = self.reminder()?;
        self.is_told = true;
        line_of(alloc, reminder).ok()
    }
}

fn line_of(alloc: Global, reminder: Sighting) -> Result<String, AllocError> {
    let member = reminder.member.number();
    let Mark { start, saves } = reminder.mark;
    format!(in alloc;
        "press: member {member} heard of {saves} saves of start {start} of this member, which its store lacks: it has forgotten what it said, and says nothing more\n"
    )
}
