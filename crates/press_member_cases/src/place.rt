//! A place among the members: a member that runs there, or what its disk kept.

use crate::forms::{digest_of_form, token};
use crate::outward::{answer_of, id_at, input_of, report_as_simulated, send};
use crate::shelf::{Opened, Opener, Shelf};
use crate::starts::{Register, recall_as_simulated, recall_of};
use crate::watched::{Left, Watched};
use press_batch::Digests;
use press_callbacks::Kit;
use press_member as member;
use press_member::{Beginning, Member};
use press_page::Target;
use press_simulation::{
    Actor, Answer, Begins, Condition, Hearing, Input, Lanes, Note, Recall, Report, Standing,
    digest_of,
};
use press_starts as starts;
use press_starts::Witness;
use press_store::Owner;
use press_wire::{MOST_MEMBERS, MemberId, Message};
use std::alloc::{AllocError, Global};

// A member that runs, and what it and its store know of starts.
pub struct Running<S: Shelf> {
    member: Member<Watched<S>>,
    witness: Witness,
    register: Register,
}

impl<S: Shelf> Drop for Running<S> {
    fn drop(self) {
        let Running {
            member: _,
            witness: _,
            register: _,
        } = self;
    }
}

impl<S: Shelf> Running<S> {
    fn into_member(self) -> Member<Watched<S>> {
        let Running {
            member,
            witness: _,
            register: _,
        } = self;
        member
    }

    // What happens to it, behind which what its store has of its saves goes out.
    fn act(&mut self, input: member::Input, out: &mut Lanes<Message>) -> Result<Answer, AllocError>
        requires always { Unit {0} }
    {
        let outputs = self.member.on(input)?;
        self.witness.count_saves(self.register.saves());
        let answer = answer_of(&outputs);
        send(outputs, out)?;
        Ok(answer)
    }

    // What it hears of another is kept with the next save.
    fn hear(&mut self, from: MemberId, recall: Recall) -> Hearing {
        let hearing = self.witness.hear(from, &recall_of(recall));
        self.register.hear(from, self.witness.known(from));
        match hearing {
            starts::Hearing::Heard => Hearing::All,
            starts::Hearing::Stale => Hearing::Letters,
            starts::Hearing::Unanswered | starts::Hearing::Forgotten => Hearing::Nothing,
        }
    }

    fn standing(&self) -> Standing {
        let member = &self.member;
        Standing {
            is_running: true,
            is_down: member.is_down(),
            has_forgotten: self.witness.reminder().is_some(),
            is_open: member.is_open(),
            is_waiting: member.node().is_waiting(),
            has_more: member.has_more(),
            applied: member.node().applied(),
            chosen: member.chosen_count(),
            saves: member.node().store().saves(),
        }
    }
}

/// A member that runs there, or what its disk kept.
pub struct Place<S: Shelf> {
    alloc: Global,
    place: usize,
    members: u8,
    run: Option<Running<S>>,
    left: Option<Left<S::Kept>>,
    copies: Vec<Left<S::Kept>>,
}

impl<S: Shelf> Drop for Place<S> {
    fn drop(self) {
        let Place {
            alloc: _,
            place: _,
            members: _,
            run: _,
            left: _,
            copies: _,
        } = self;
    }
}

/// What members of a cluster count and run.
pub fn digests_of(cluster: u64) -> Digests {
    Digests {
        peers: 11,
        kit: cluster,
    }
}

// A copy of what a disk kept. None without memory.
fn copy_of<S: Shelf>(alloc: Global, left: &Left<S::Kept>) -> Option<Left<S::Kept>> {
    Some(Left {
        kept: S::copy(alloc, &left.kept)?,
        perhaps: left.perhaps,
    })
}

impl<S: Shelf> Place<S> {
    // A member over an open store; what the disk kept is left where there is none.
    fn begin_member(
        &mut self,
        store: Watched<S>,
        beginning: Beginning,
    ) -> Option<Member<Watched<S>>>
        requires always { Unit {0} }
    {
        let alloc = self.alloc;
        let Ok(kit) = Kit::build(alloc, Vec::new(alloc), Vec::new(alloc)) else {
            self.left = Some(store.close());
            return None;
        };
        if beginning.members > MOST_MEMBERS || beginning.id.number() > beginning.members {
            return None;
        }
        match Member::start(alloc, kit, store, beginning) {
            Ok(member) => Some(member),
            Err(refused) => {
                self.left = Some(refused.store.close());
                None
            }
        }
    }

    // Whose files those of the member at a place are.
    fn owner_of(&self, place: usize) -> Option<Owner> {
        Some(Owner {
            number: id_at(place)?,
            members: self.members,
            peers: digests_of(0).peers,
        })
    }

    // The store of the member at a place, over what the disk there kept.
    fn open(&self, kept: S::Kept, begins: Begins) -> Result<Opened<S>, S::Kept> {
        let Some(owner) = self.owner_of(begins.number) else {
            return Err(kept);
        };
        let start = begins.start;
        S::open(self.alloc, kept, begins.disk, Opener { owner, start })
    }

    // What a member there begins with, whose store shows that so many slots are chosen.
    fn beginning(&self, begins: Begins, chosen: u64) -> Option<Beginning> {
        Some(Beginning {
            id: id_at(begins.number)?,
            members: self.members,
            tick: begins.tick,
            digests: digests_of(begins.cluster),
            chosen,
        })
    }

    // A member starts over an open store, on which a vote may be that was not told.
    fn begin(&mut self, opened: Opened<S>, perhaps: Option<Note>, begins: Begins) -> bool
        requires always { Unit {0} }
    {
        let (store, chosen, witness, register) = opened.into_parts();
        let mut store = Watched::new(self.alloc, store);
        if let Some(note) = perhaps {
            store.look_for(note);
        }
        let Some(beginning) = self.beginning(begins, chosen) else {
            self.left = Some(store.close());
            self.remember(perhaps);
            return false;
        };
        match self.begin_member(store, beginning) {
            Some(member) => {
                self.run = Some(Running {
                    member,
                    witness,
                    register,
                });
                true
            }
            None => {
                self.remember(perhaps);
                false
            }
        }
    }

    // Nobody was told of the vote that the disk may have.
    fn remember(&mut self, perhaps: Option<Note>) {
        if let Some(left) = self.left.take() {
            let (kept, _) = left.into_parts();
            self.left = Some(Left { kept, perhaps });
        }
    }
}

impl<S: Shelf> Actor for Place<S> {
    type Letter = Message;

    fn new(alloc: Global, place: usize, members: u8) -> Place<S> {
        Place {
            alloc,
            place,
            members,
            run: None,
            left: Some(Left {
                kept: S::empty(alloc),
                perhaps: None,
            }),
            copies: Vec::new(alloc),
        }
    }

    fn start(&mut self, begins: Begins) -> bool
        requires always { Unit {0} }
    {
        let Some(left) = self.left.take() else {
            return false;
        };
        let (kept, perhaps) = left.into_parts();
        match self.open(kept, begins) {
            Ok(opened) => self.begin(opened, perhaps, begins),
            Err(kept) => {
                self.left = Some(Left { kept, perhaps });
                false
            }
        }
    }

    fn stop(&mut self)
        requires always { Unit {0} }
    {
        if let Some(run) = self.run.take() {
            let (kit, store) = run.into_member().into_node().down();
            drop(kit);
            self.left = Some(store.close());
        }
    }

    fn on(&mut self, input: Input<Message>, out: &mut Lanes<Message>) -> Result<Answer, AllocError>
        requires always { Unit {0} }
    {
        let Some(input) = input_of(self.alloc, input) else {
            return Ok(Answer::Nothing);
        };
        match &mut self.run {
            Some(run) => run.act(input, out),
            None => {
                drop(input);
                Ok(Answer::Nothing)
            }
        }
    }

    fn recall(&mut self, to: usize) -> Option<Recall> {
        let run = self.run.as_mut()?;
        Some(recall_as_simulated(run.witness.recall_to(id_at(to)?)))
    }

    fn hear(&mut self, from: usize, recall: Option<Recall>) -> Hearing
        requires always { Unit {0} }
    {
        let (Some(run), Some(from), Some(recall)) = (&mut self.run, id_at(from), recall) else {
            return Hearing::Nothing;
        };
        run.hear(from, recall)
    }

    fn standing(&self) -> Standing {
        match &self.run {
            Some(run) => run.standing(),
            None => Standing::nobody(),
        }
    }

    fn report(&self) -> Report {
        match &self.run {
            Some(run) => report_as_simulated(run.member.report()),
            None => Report::nobody(),
        }
    }

    fn is_ready(&self) -> bool {
        match &self.run {
            Some(run) => run.member.is_ready(),
            None => false,
        }
    }

    fn page(&self) -> Option<u64> {
        let run = self.run.as_ref()?;
        let reply = run.member.node().get(&Target::Front).ok()?;
        Some(digest_of(reply.body.as_bytes()))
    }

    fn knows(&self, form: u64) -> bool {
        let (Some(run), Some(token)) = (&self.run, token(self.alloc, form)) else {
            return false;
        };
        match run.member.node().get(&Target::Result(token)) {
            Ok(reply) => reply.status == 200,
            Err(_) => false,
        }
    }

    fn value_of(&self, form: u64) -> u64 {
        digest_of_form(self.alloc, form)
    }

    fn notes(&self) -> &[Note] {
        match &self.run {
            Some(run) => run.member.node().store().notes(),
            None => &[],
        }
    }

    fn keep(&mut self) {
        let Some(left) = &self.left else {
            return;
        };
        if let Some(copy) = copy_of::<S>(self.alloc, left) {
            let _ = self.copies.push(copy);
        }
    }

    fn empty(&mut self) {
        self.left = Some(Left {
            kept: S::empty(self.alloc),
            perhaps: None,
        });
    }

    fn put_back(&mut self, copy: usize) {
        let Some(copy) = self.copies.get(copy) else {
            return;
        };
        if let Some(left) = copy_of::<S>(self.alloc, copy) {
            self.left = Some(left);
        }
    }

    fn votes(&mut self, last: u64) -> Option<Vec<Note>>
        requires always { Unit {0} }
    {
        self.stop();
        let (kept, _) = self.left.take()?.into_parts();
        let begins = Begins {
            disk: Condition::Sound,
            number: self.place,
            cluster: 0,
            tick: 0,
            start: u64::MAX,
        };
        match self.open(kept, begins) {
            Ok(opened) => {
                let (store, _, _, _) = opened.into_parts();
                Watched::new(self.alloc, store).votes(last)
            }
            Err(_) => None,
        }
    }

    fn copy(alloc: Global, letter: &Message) -> Result<Message, AllocError> {
        letter.copy(alloc)
    }
}
