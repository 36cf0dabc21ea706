//! A member: its node, and what it has beside it.

ghost use Rattle.std.specs.Prelude.{◌+◌, ◌-◌, ◌≡◌, ◌<◌, ◌≤◌, ◌^◌, false, Ok, None, Some, [], IfErr, IfOk, IfSome, IsTrue, MatchResult, OnOk, is_ok, length, max, slice_get, true, unwrap_or};
ghost use Rattle.press_node.specs.States.{applied_count, is_down};
ghost use Rattle.press_node.specs.Nodes.{kit_of, node_move, state_of, store_of};
ghost use Rattle.press_member.specs.Acts.{Acts, Shows, TakesMemory, TellsStop, chain_in, differing_in, first_view, has_more, is_open, node_in, stop_in, takes_commands, view_of};
ghost use Rattle.press_member.specs.Coming.{AreItsMoves};
ghost use Rattle.press_member.specs.Differing.{tip_in};
ghost use Rattle.press_member.specs.Following.{HasAll, IsDigested, KeepsDigests, joined};
ghost use Rattle.press_member.specs.Readiness.{is_ready, report_of};
ghost use Rattle.press_member.specs.Ready.{is_agreed};
ghost use Rattle.press_member.specs.Parts.{BringsEvent, IsDue, IsSame, Turns};
ghost use Rattle.press_member.specs.Played.{moment_of};
ghost use Rattle.press_member.specs.Shown.{Gets};
ghost use Rattle.press_member.specs.Starting.{IsItsStart};
ghost use Rattle.press_member.specs.Turns.{AreQuestions, IsVotedNext, MaySubmit, MayWake};
ghost use Rattle.press_callbacks.specs.Kits.{kit_view};
ghost use Rattle.press_member.specs.declared.input.Input.TheVariants as input;
ghost use Rattle.press_wire.specs.Ranges.{most_members};

use crate::beginning::Beginning;
use crate::input::Input;
use crate::member::Member;
use crate::output::{Answer, Outputs};
use crate::pace::{Due, Pace};
use crate::peers::{Peers, id_at};
use crate::player::Player;
use crate::signs::{command_of_vote, proposed_slot};
use press_acceptor::{PromiseStore, StoreFault};
use press_apply::Stamped;
use press_batch::Report;
use press_callbacks::Kit;
use press_chain::{Chain, Tip};
use press_node::{Event, Node, NodeFault, StartFault};
use press_page::{Reply, Target};
use press_wire::{MemberId, Message};
use std::alloc::{AllocError, Global};
use std::collections::VecDeque;

// A member that is so many slots behind what a majority says answers for the site as well as any.
const NEAR: u64 = 64;

fn copy_of(alloc: Global, reply: &Reply) -> Result<Reply, NodeFault>
    ensures same { IfOk result (λ copy. copy ≡ reply.now) }
    ensures fault { IfErr result (λ fault. fault ≡ NodeFault.NoMemory) }
{
    match reply.body.copy(alloc) {
        Ok(body) => Ok(Reply {
            status: reply.status,
            kind: reply.kind,
            body,
        }),
        Err(_) => Err(NodeFault::NoMemory),
    }
}

// What an input came to, where memory was wanting for the digests of what it may have had the node
// apply.
fn joined(
    done: Result<Outputs, AllocError>,
    followed: Result<(), AllocError>,
    may_play: bool,
) -> Result<Outputs, AllocError>
    ensures { result ≡ joined done followed may_play }
{
    match done {
        Err(fault) => Err(fault),
        Ok(outputs) => match followed {
            Ok(()) => Ok(outputs),
            Err(_) if !may_play => Ok(outputs),
            Err(fault) => Err(fault),
        },
    }
}

// What a report tells of the values that were applied.
fn tip_in(report: &Report) -> Tip
    ensures { result ≡ tip_in report.now }
{
    Tip {
        count: report.applied,
        digest: report.digest,
        block_digest: report.block_digest,
    }
}

impl<S: PromiseStore + Drop> Member<S> {
    /// A member that hasn't heard of any other yet.
    pub fn new(alloc: Global, node: Node<S>, beginning: Beginning) -> Result<Member<S>, AllocError>
        ensures begins { IfOk result (λ member. view_of member
            ≡ first_view beginning node (chain_in (view_of member))) }
        ensures digested { IfOk result
            (λ member. IsDigested (λ node. state_of node) (view_of member)) }
    {
        let Beginning {
            id,
            members,
            digests,
            ..
        } = beginning;
        let peers = Peers::new(alloc, id, members, digests)?;
        Ok(Member::begin(alloc, node, peers, beginning))
    }

    /// Starts one over its store, of which its node asks the last round. Of members of whom it may
    /// have left what the store shows that is a move.
    pub fn start(
        alloc: Global,
        kit: Kit,
        store: S,
        beginning: Beginning,
    ) -> Result<Member<S>, StartFault<S>>
        requires few { beginning.members ≤ most_members }
        requires member { beginning.id ≤ beginning.members }
        ensures begins { IfOk result
            (λ member. view_of member ≡ first_view beginning (node_in (view_of member))
            (chain_in (view_of member))) }
        ensures digested { IfOk result
            (λ member. IsDigested (λ node. state_of node) (view_of member)) }
        ensures kit { MatchResult result
            (λ member. kit_of (node_in (view_of member)) ≡ kit_view kit)
            (λ e. kit_view e.kit ≡ kit_view kit) }
        ensures starts { IfOk result (λ member. IsItsStart S.seen (λ node. store_of node)
            (λ node. state_of node) store (view_of member)) }
    {
        let Beginning {
            id,
            members,
            digests,
            ..
        } = beginning;
        match Peers::new(alloc, id, members, digests) {
            Err(_) => Err(StartFault {
                fault: StoreFault::NoMemory,
                kit,
                store,
            }),
            Ok(peers) => match Node::start(alloc, id, members, kit, store) {
                Ok(node) => Ok(Member::begin(alloc, node, peers, beginning)),
                Err(fault) => Err(fault),
            },
        }
    }
}

impl<S> Member<S> {
    // One that hasn't heard of any of these.
    fn begin(alloc: Global, node: Node<S>, peers: Peers, beginning: Beginning) -> Member<S>
        ensures begins { view_of result ≡ record {
          id = beginning.id;
          members = length peers.all.items;
          digests = peers.digests;
          node = node;
          own = [];
          stop = None;
          is_open = false;
          chain = chain_in (view_of result);
          differing = peers.differing.items;
        } }
        ensures digested { IsDigested (λ node. state_of node) (view_of result) }
    {
        let Beginning {
            id,
            tick,
            chosen,
            ..
        } = beginning;
        let mut pace = Pace::new(peers.place(), peers.count(), u64::from(tick));
        pace.prove(chosen);
        let player = Player {
            alloc,
            id,
            node,
            stopped_by: None,
            own: VecDeque::new(alloc),
            pace,
        };
        Member {
            alloc,
            player,
            peers,
            time: 0,
            chain: Chain::new(alloc),
            front: None,
        }
    }
}

impl<S: PromiseStore> Member<S> {
    /// Its node.
    pub fn node(&self) -> &Node<S>
        ensures { result.now ≡ node_in (view_of self.now) }
    {
        &self.player.node
    }

    /// Whether a fault has stopped its node: it does nothing more.
    pub fn is_down(&self) -> bool
        ensures { result ≡ is_down (state_of (node_in (view_of self.now))) }
    {
        self.player.node.is_down()
    }

    /// What stopped its node; None as long as it is up.
    pub fn stopped_by(&self) -> Option<StoreFault>
        ensures { result ≡ stop_in (view_of self.now) }
    {
        self.player.stopped_by
    }

    /// Ends it, and returns its node.
    pub fn into_node(self) -> Node<S>
        ensures { result ≡ node_in (view_of self) }
    {
        let Member { player, .. } = self;
        player.into_node()
    }

    /// Whether it shows pages: it has once applied what was known to be chosen.
    pub fn is_open(&self) -> bool
        ensures { result ≡ is_open (view_of self.now) }
    {
        self.player.pace.is_open()
    }

    /// Whether it has something to do that waits for nothing else: it has sent messages to itself.
    pub fn has_more(&self) -> bool
        ensures { result ≡ has_more (view_of self.now) }
    {
        !self.player.own.is_empty()
    }

    /// How many slots are chosen, as far as it knows by votes and by what a majority says.
    pub fn chosen_count(&self) -> u64
        ensures { result ≡ max self.now.player.pace.newest self.now.player.pace.applied }
    {
        self.player.pace.chosen_count()
    }

    /// How far it is, as it says to others.
    pub fn report(&self) -> Report
        ensures { result ≡ report_of self.now }
    {
        let Tip {
            count,
            digest,
            block_digest,
        } = self.chain.tip();
        Report {
            applied: count,
            chosen: self.chosen_count(),
            digests: self.peers.digests(),
            digest,
            block_digest,
        }
    }

    /// Whether those that have applied the same as this member, as far as it knows, are a majority,
    /// itself among them.
    pub fn is_agreed(&self) -> bool
        ensures { result ≡ is_agreed (view_of self.now).members ((view_of self.now).id - 1)
            (differing_in (view_of self.now)) }
    {
        self.peers.is_agreed(self.player.id)
    }

    /// Whether it takes commands.
    pub fn takes_commands(&self) -> bool
        ensures { result ≡ takes_commands (view_of self.now) }
    {
        self.is_open() && self.is_agreed()
    }

    /// Whether it answers for the site as well as any: it is open and up, has applied what a
    /// majority has as far as it knows, hears a majority, and is at most 64 slots behind what a
    /// majority says is chosen.
    pub fn is_ready(&self) -> bool
        ensures { result ≡ is_ready self.now }
    {
        let applied = self.player.node.applied();
        let borne_out = self.peers.borne_out(self.chosen_count(), self.time);
        self.is_open()
            && !self.player.node.is_down()
            && self.is_agreed()
            && self.peers.is_majority_near(self.time)
            && borne_out <= applied.saturating_add(NEAR)
    }

    /// Whether the member at a place, from 0, was heard lately, or is this one.
    pub fn is_near(&self, place: usize) -> bool {
        self.peers.is_near(place, self.time)
    }

    /// Whether the member at a place, from 0, counts other members or runs another kit, by its last
    /// report.
    pub fn is_foreign(&self, place: usize) -> bool {
        self.peers.is_foreign(place)
    }

    /// Whether the member at a place, from 0, has applied other values than this one, by the last of
    /// its reports that could be compared.
    pub fn is_differing(&self, place: usize) -> bool
        ensures { result ≡ unwrap_or (slice_get (differing_in (view_of self.now)) place) false }
    {
        self.peers.is_differing(place)
    }

    /// What happens to it, and what that brings. Without memory for a message that is lost, as one
    /// may be on its way, with what else the input would have brought.
    ///
    /// Of members among whom it is one, over a store that keeps its word, that is a list of moves.
    pub fn on(&mut self, input: Input) -> Result<Outputs, AllocError>
        requires always { Unit {0} }
        ensures acts { Acts (λ a b. node_move S.seen a b) input (view_of self.old)
            (view_of self.new) result }
        ensures stops { TellsStop (λ node. (S.seen (store_of node)).is_honest)
            (λ node. state_of node) (view_of self.old) (view_of self.new) }
        ensures moves { AreItsMoves S.seen (λ node. store_of node) (λ node. state_of node) input
            (view_of self.old) (view_of self.new) result }
        ensures digested { KeepsDigests (λ node. (S.seen (store_of node)).is_honest)
            (λ node. state_of node) (view_of self.old) (view_of self.new) }
        ensures follows { OnOk result
            (TakesMemory (view_of self.old) input →
            HasAll (λ node. state_of node) (view_of self.new)) }
    {
        let may_play = self.may_play(&input);
        let result = self.act(input);
        let followed = self.chain.follow(self.player.node.values());
        joined(result, followed, may_play)
    }
}

// What each input does.
impl<S: PromiseStore> Member<S> {
    // Whether the input may have its node play something.
    fn may_play(&self, input: &Input) -> bool
        ensures plays { result ≡ true → TakesMemory (view_of self.now) input.now }
        ensures rests { result ≡ false → TakesMemory (view_of self.now) input.now → ⊥ }
    {
        match input {
            Input::Command(_) => self.takes_commands(),
            Input::Message(_) | Input::HearOwn | Input::Time(_) => true,
            Input::Page(_) | Input::Report { .. } | Input::Ended { .. } => false,
        }
    }

    fn act(&mut self, input: Input) -> Result<Outputs, AllocError>
        requires always { Unit {0} }
        ensures { Acts (λ a b. node_move S.seen a b) input (view_of self.old)
            (view_of self.new) result }
    {
        match input {
            Input::Command(command) => self.on_command(command),
            Input::Page(target) => Ok(self.on_page(&target)),
            Input::Message(message) => self.on_message(message),
            Input::Report { from, report } => Ok(self.on_report(from, report)),
            Input::Ended {
                to,
                asked,
                is_taken,
            } => Ok(self.on_end(to, asked, is_taken)),
            Input::HearOwn => self.on_own(),
            Input::Time(now) => self.on_time(now),
        }
    }

    // An event that an input brings, and what follows it.
    fn bring(&mut self, event: Event, out: &mut Vec<Message>) -> Result<Answer, AllocError>
        requires always { Unit {0} }
        ensures same { IsSame (λ a b. node_move S.seen a b) (view_of self.old) (view_of self.new) }
        ensures brings { BringsEvent (λ a b. node_move S.seen a b) (view_of self.old)
            (view_of self.new) event out.old.items out.new.items result }
    {
        let is_command = matches!(event, Event::Submit(_));
        self.front = None;
        let played = self.player.play(event, out)?;
        self.player
            .pace
            .note_command(is_command && played.is_done());
        self.player.follow(out)?;
        Ok(played.answer())
    }

    fn on_command(&mut self, command: Stamped) -> Result<Outputs, AllocError>
        requires always { Unit {0} }
        ensures acts { Acts (λ a b. node_move S.seen a b) (input.Command command)
            (view_of self.old) (view_of self.new) result }
    {
        if !self.takes_commands() {
            return Ok(Outputs::only(self.alloc, Answer::NotYet));
        }
        let mut messages = Vec::new(self.alloc);
        let answer = self.bring(Event::Submit(command), &mut messages)?;
        self.peers.begin_all(&messages);
        Ok(Outputs::with(self.alloc, answer, messages))
    }

    // The slot behind those that it has applied.
    fn next_slot(&self) -> u64
        ensures { result < 2 ^ 32 → result ≡ applied_count (state_of self.now.player.node) + 1 }
    {
        self.player.node.applied().saturating_add(1)
    }

    // Whether a message is one of a member to this one.
    fn is_for_it(&self, message: &Message) -> bool
        ensures { result ≡ true → message.now.to ≡ self.now.player.id }
    {
        message.to == self.player.id && self.peers.counts(message.from)
    }

    // The slot for which somebody proposes, by a message of a member to this one.
    fn proposed_slot(&self, message: &Message) -> Option<u64> {
        if self.is_for_it(message) {
            proposed_slot(message)
        } else {
            None
        }
    }

    // The command of the vote that a message tells of, where nobody proposes any more for its slot,
    // which is the next.
    fn stuck_command(&self, message: &Message) -> Option<Stamped>
        ensures { IfSome result (λ command. IsVotedNext self.now.player.id
            (applied_count (state_of self.now.player.node) + 1) message.now command) }
    {
        let next = self.next_slot();
        let is_next = u64::from(message.slot.number()) == next;
        if is_next && self.is_for_it(message) && self.player.pace.is_stuck(next) {
            command_of_vote(self.alloc, message)
        } else {
            None
        }
    }

    // Submits what is voted for in the next slot, unless it has been applied by now, or this member
    // proposes anyway. It is applied once, whether or not it is chosen there.
    fn submit_stuck(
        &mut self,
        command: Option<Stamped>,
        out: &mut Vec<Message>,
    ) -> Result<(), AllocError>
        requires always { Unit {0} }
        ensures same { IsSame (λ a b. node_move S.seen a b) (view_of self.old) (view_of self.new) }
        ensures turned { Turns (λ a b. node_move S.seen a b) (view_of self.old) (view_of self.new)
            (MaySubmit (λ it. command ≡ Some it)) out.old.items out.new.items
            (IsTrue (is_ok result)) }
    {
        let Some(command) = command else {
            return Ok(());
        };
        let next = self.next_slot();
        if self.player.node.is_waiting() || !self.player.pace.is_stuck(next) {
            return Ok(());
        }
        self.bring(Event::Submit(command), out)?;
        Ok(())
    }

    fn on_message(&mut self, message: Message) -> Result<Outputs, AllocError>
        requires always { Unit {0} }
        ensures acts { Acts (λ a b. node_move S.seen a b) (input.Message message)
            (view_of self.old) (view_of self.new) result }
    {
        let from = message.from;
        let to = message.to;
        let proposed = self.proposed_slot(&message);
        let stuck = self.stuck_command(&message);
        let mut messages = Vec::new(self.alloc);
        let answer = self.bring(Event::Deliver(message), &mut messages)?;
        self.peers.hear(from, to, self.time);
        self.player.pace.hear_of(proposed, answer.is_taken());
        self.submit_stuck(stuck, &mut messages)?;
        self.peers.begin_all(&messages);
        Ok(Outputs::with(self.alloc, answer, messages))
    }

    // The front page, which is kept as long as the node doesn't change.
    fn show_front(&mut self) -> Result<Reply, NodeFault>
        ensures same { view_of self.new ≡ view_of self.old }
        ensures shows { Gets (kit_of self.old.player.node) (state_of self.old.player.node).up
            Target.Front result }
    {
        if let Some(reply) = &self.front {
            return copy_of(self.alloc, reply);
        }
        let reply = self.player.node.get(&Target::Front)?;
        self.front = copy_of(self.alloc, &reply).ok();
        Ok(reply)
    }

    fn get(&mut self, target: &Target) -> Result<Reply, NodeFault>
        ensures same { view_of self.new ≡ view_of self.old }
        ensures shows { Gets (kit_of self.old.player.node) (state_of self.old.player.node).up
            target.now result }
    {
        match target {
            Target::Front => self.show_front(),
            _ => self.player.node.get(target),
        }
    }

    fn answer_to(&mut self, target: &Target) -> Answer
        ensures same { view_of self.new ≡ view_of self.old }
        ensures shows { Shows self.old.player.pace.is_open (kit_of self.old.player.node)
            (state_of self.old.player.node).up target.now result }
    {
        if !self.is_open() {
            return Answer::NotYet;
        }
        match self.get(target) {
            Ok(reply) => Answer::Page(reply),
            Err(fault) => Answer::Refused(fault),
        }
    }

    fn on_page(&mut self, target: &Target) -> Outputs
        ensures acts { Acts (λ a b. node_move S.seen a b) (input.Page target.now)
            (view_of self.old) (view_of self.new) (Ok result) }
    {
        let answer = self.answer_to(target);
        Outputs::only(self.alloc, answer)
    }

    fn on_report(&mut self, from: MemberId, report: Report) -> Outputs
        ensures acts { Acts (λ a b. node_move S.seen a b) (input.Report from report)
            (view_of self.old) (view_of self.new) (Ok result) }
    {
        if !self.peers.take_report(from, report, self.time) {
            return Outputs::only(self.alloc, Answer::Foreign);
        }
        let tip = tip_in(&report);
        self.peers.note_comparison(from, self.chain.compare(&tip));
        self.note_reports();
        Outputs::only(self.alloc, Answer::Taken)
    }

    // What others say of how far they are.
    fn note_reports(&mut self)
        ensures same { IsSame (λ a b. node_move S.seen a b) (view_of self.old) (view_of self.new) }
        ensures moment { moment_of self.new.player ≡ moment_of self.old.player }
        ensures time { self.new.time ≡ self.old.time }
    {
        let borne_out = self
            .peers
            .borne_out(self.player.pace.chosen_count(), self.time);
        let claim = self.peers.claim(self.time);
        let is_known = self.peers.has_told(self.time);
        self.player.pace.hear_reports(borne_out, claim, is_known);
    }

    fn on_end(&mut self, to: MemberId, asked: u32, is_taken: bool) -> Outputs
        ensures acts { Acts (λ a b. node_move S.seen a b) (input.Ended to asked is_taken)
            (view_of self.old) (view_of self.new) (Ok result) }
    {
        self.peers.end_asking(to, asked, is_taken, self.time);
        Outputs::only(self.alloc, Answer::Nothing)
    }

    fn on_own(&mut self) -> Result<Outputs, AllocError>
        requires always { Unit {0} }
        ensures acts { Acts (λ a b. node_move S.seen a b) input.HearOwn
            (view_of self.old) (view_of self.new) result }
    {
        let mut messages = Vec::new(self.alloc);
        self.front = None;
        self.player.hear_own(&mut messages)?;
        self.player.follow(&mut messages)?;
        self.peers.begin_all(&messages);
        Ok(Outputs::with(self.alloc, Answer::Nothing, messages))
    }

    // Asks the member at a place for the slots that are not applied, unless it is busy.
    fn ask_one(&mut self, place: usize, end: u64, out: &mut Vec<Message>) -> Result<(), AllocError>
        requires { place < length self.now.peers.all.items }
        ensures same { IsSame (λ a b. node_move S.seen a b) (view_of self.old) (view_of self.new) }
        ensures turned { Turns (λ a b. node_move S.seen a b) (view_of self.old) (view_of self.new)
            AreQuestions out.old.items out.new.items (IsTrue (is_ok result)) }
        ensures time { self.new.time ≡ self.old.time }
    {
        let Some(to) = id_at(place) else {
            return Ok(());
        };
        if self.peers.is_busy(place) {
            return Ok(());
        }
        let next = self.next_slot();
        self.player.ask_from(to, next, end, out)
    }

    // Asks each member for the slots that are not applied, up to the one after this: a vote there
    // is the gap that has this one proposed again, where too few members voted.
    fn ask(&mut self, last: u64, out: &mut Vec<Message>) -> Result<(), AllocError>
        ensures same { IsSame (λ a b. node_move S.seen a b) (view_of self.old) (view_of self.new) }
        ensures turned { Turns (λ a b. node_move S.seen a b) (view_of self.old) (view_of self.new)
            AreQuestions out.old.items out.new.items (IsTrue (is_ok result)) }
        ensures time { self.new.time ≡ self.old.time }
    {
        let end = last.saturating_add(2);
        for place in 0..self.peers.count() {
            self.ask_one(place, end, out)?;
        }
        Ok(())
    }

    // Asks the others how far they are, and wakes this node, where nobody proposes.
    fn look(
        &mut self,
        messages: &mut Vec<Message>,
        looks: &mut Vec<MemberId>,
    ) -> Result<(), AllocError>
        requires always { Unit {0} }
        ensures same { IsSame (λ a b. node_move S.seen a b) (view_of self.old) (view_of self.new) }
        ensures turned { Turns (λ a b. node_move S.seen a b) (view_of self.old) (view_of self.new)
            MayWake messages.old.items messages.new.items (IsTrue (is_ok result)) }
        ensures time { self.new.time ≡ self.old.time }
    {
        self.peers.look(looks)?;
        self.note_reports();
        if self.player.pace.is_busy() {
            return Ok(());
        }
        self.front = None;
        self.player.wake(messages)
    }

    fn do_due(
        &mut self,
        due: Due,
        messages: &mut Vec<Message>,
        looks: &mut Vec<MemberId>,
    ) -> Result<(), AllocError>
        requires always { Unit {0} }
        ensures same { IsSame (λ a b. node_move S.seen a b) (view_of self.old) (view_of self.new) }
        ensures turned { Turns (λ a b. node_move S.seen a b) (view_of self.old) (view_of self.new)
            IsDue messages.old.items messages.new.items (IsTrue (is_ok result)) }
        ensures time { self.new.time ≡ self.old.time }
    {
        match due {
            Due::Nothing => Ok(()),
            Due::Wake => {
                self.front = None;
                self.player.wake(messages)
            }
            Due::Look => self.look(messages, looks),
            Due::Ask(last) => self.ask(last, messages),
        }
    }

    // What is due. A member that is down does nothing more.
    fn on_time(&mut self, now: u64) -> Result<Outputs, AllocError>
        requires always { Unit {0} }
        ensures acts { Acts (λ a b. node_move S.seen a b) (input.Time now)
            (view_of self.old) (view_of self.new) result }
        ensures time { self.new.time ≡ now }
    {
        self.time = now;
        if self.player.node.is_down() {
            return Ok(Outputs::only(self.alloc, Answer::Nothing));
        }
        let mut messages = Vec::new(self.alloc);
        let mut looks = Vec::new(self.alloc);
        let due = self.player.pace.pass(now);
        self.do_due(due, &mut messages, &mut looks)?;
        self.peers.begin_all(&messages);
        Ok(Outputs {
            answer: Answer::Nothing,
            messages,
            looks,
        })
    }
}
