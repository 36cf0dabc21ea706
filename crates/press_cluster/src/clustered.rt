//! A member of a cluster behind a server: what comes over sockets is given to it, and what it sends
//! goes out.

ghost use Rattle.std.specs.Prelude.{◌≡◌, ◌≢◌, ◌<◌, ℕ, ◌⊎◌, ◌&&◌, ◌||◌, ◌++◌, ◌-◌, IfOk, IfSome, IsSome, IsTrue, List, MatchBool, MatchOption, None, OnOk, Some, false, length, not, if◌then◌else◌};
ghost use Rattle.std.specs.List.{list_any};
ghost use Rattle.press_batch.specs.Carried.{carried_by};
ghost use Rattle.press_batch.specs.Spelling.{head_alone};
ghost use Rattle.press_member.specs.Acts.{has_more, node_in, stop_in, takes_commands, view_of};
ghost use Rattle.press_member.specs.Readiness.{report_of};
ghost use Rattle.press_member.specs.declared.input.Input.TheVariants as input;
ghost use Rattle.press_net.specs.Addresses.{first_at};
ghost use Rattle.press_net.specs.Answering.{credit};
ghost use Rattle.press_node.specs.Nodes.{store_of};
ghost use Rattle.press_cluster.specs.Going.{AreKept, Carries, GoIn, GoOut, HasEnded, HasSameWays, fresh_of, is_ready, owed_at, waiting_at};
ghost use Rattle.press_cluster.specs.Living.{Compares, HearsOnly, IsToldOfEnd, MemberLives, MemberTakes, TakesAll, inputs_in, inputs_of, letters};
ghost use Rattle.press_cluster.specs.Members.{LosesAddress, is_other_at};
ghost use Rattle.press_cluster.specs.Recalling.{has_forgotten, head_for, hearing_by, witness_after};
ghost use Rattle.press_operator.specs.Screening.{is_ahead};
ghost use Rattle.press_operator.specs.declared.paths.Own.{Own};
ghost use Rattle.press_starts.specs.Hearings.{IsUnheard};
ghost use Rattle.press_starts.specs.declared.hearing.Hearing.TheVariants.{Heard};
ghost use Rattle.press_wire.specs.Ranges.{member_id_of};

use crate::carrying::{batch_by, body_in, request_of, tell_batch};
use crate::lanes::{Lanes, Parcel, Sender};
use crate::member_lines::MemberLines;
use crate::peers::{Peers, member_at, place_of};
use crate::recollection::Recollection;
use crate::replies::tell_answer;
use press_acceptor::{PromiseStore, StoreFault};
use press_batch::{Batch, BatchFault, Head, Report, decode_batch};
use press_http::{Asked, DeskRequest, HttpFault, Routes, read_request};
use press_member::{Answer, Input, Member, Outputs};
use press_net::{Answers, Errand, Outgoing, Time, Traffic, method_and_target_of};
use press_node::{NodeFault, queued_reply, taken_reply};
use press_operator::{
    Agreement, Among, Counts, Metrics, OperatorOptions, Own, Paths, REFUSED, Standing, line_about,
    refuse, refuse_by, refuse_for_now, refuse_form, refuse_path, refuse_without_memory,
    show_forgotten, show_metrics, show_ready, tell_desk,
};
use press_starts::{Hearing, Mark, Recall, Starts};
use press_wire::{MemberId, Message};
use std::alloc::{AllocError, Global};
use std::net::{IpAddr, Ipv4Addr, SocketAddr};

/// What a member has beside it: the addresses of all, and what its operator asked for.
#[derive(Drop)]
pub struct Party<'s> {
    pub peers: Peers,
    pub options: &'s OperatorOptions,
    /// Whether it stays where its node has stopped.
    pub stays: bool,
    pub recollection: Recollection,
}

/// A member of a cluster behind sockets.
pub struct Clustered<'s, S: PromiseStore> {
    alloc: Global,
    member: Member<S>,
    peers: Peers,
    options: &'s OperatorOptions,
    paths: Paths,
    routes: Routes,
    lanes: Lanes,
    foreign: MemberLines,
    differing: MemberLines,
    counts: Counts,
    traffic: Traffic,
    time: Time,
    stays: bool,
    recollection: Recollection,
    // About the last request that was refused, until it is taken.
    line: Option<String>,
}

impl<S: PromiseStore + Drop> Drop for Clustered<'_, S> {
    fn drop(self) {
        let Clustered {
            alloc: _,
            member: _,
            peers: _,
            options: _,
            paths: _,
            routes: _,
            lanes: _,
            foreign: _,
            differing: _,
            counts: _,
            traffic: _,
            time: _,
            stays: _,
            recollection: _,
            line: _,
        } = self;
    }
}

impl<'s, S: PromiseStore + Drop> Clustered<'s, S> {
    /// A member for which nothing waits yet.
    pub fn new(
        alloc: Global,
        member: Member<S>,
        party: Party<'s>,
    ) -> Result<Clustered<'s, S>, AllocError>
        ensures { IfOk result (λ clustered. clustered.peers ≡ party.entry.peers) }
    {
        let Party {
            peers,
            options,
            stays,
            recollection,
        } = party;
        let traffic = Traffic {
            connections: 0,
            lost: 0,
        };
        let time = Time {
            millis: 0,
            seconds: 0,
        };
        let paths = Paths::new(alloc)?;
        let routes = Routes::new(alloc)?;
        let lanes = Lanes::new(alloc, peers.count())?;
        let foreign = MemberLines::new(alloc, peers.count())?;
        let differing = MemberLines::new(alloc, peers.count())?;
        Ok(Clustered {
            alloc,
            member,
            peers,
            options,
            paths,
            routes,
            lanes,
            foreign,
            differing,
            counts: Counts::new(),
            traffic,
            time,
            stays,
            recollection,
            line: None,
        })
    }
}

impl<S: PromiseStore + Starts> Clustered<'_, S> {
    /// Why its server ends before its time: its node has stopped, and it isn't to stay.
    pub fn stop(&self) -> Option<StoreFault>
        ensures { result ≡ (if self.now.stays then None else stop_in (view_of self.now.member)) }
    {
        if self.stays {
            return None;
        }
        self.member.stopped_by()
    }

    /// Whether another member heard of this one what its store lacks: it says nothing more.
    pub fn has_forgotten(&self) -> bool
        ensures { result ≡ has_forgotten self.now.recollection.witness }
    {
        self.recollection.has_forgotten()
    }

    /// Whether its server ends because it has forgotten.
    pub fn ends_forgotten(&self) -> bool
        ensures { result ≡ (has_forgotten self.now.recollection.witness && not self.now.stays) }
    {
        self.has_forgotten() && !self.stays
    }

    // What happens to the member: what it sends waits to go out, and what it answers is returned.
    fn play(&mut self, input: Input) -> Result<Answer, AllocError>
        requires always { Unit {0} }
        ensures lives { MemberLives S.seen self.old.member self.new.member }
        ensures takes { MemberTakes S.seen input self.old.member self.new.member }
        ensures compares { IfOk result (λ answer. Compares (view_of self.old.member) input answer) }
        ensures ways { HasSameWays self.new.lanes self.old.lanes }
        ensures peers { self.new.peers ≡ self.old.peers }
        ensures recalls { self.new.recollection ≡ self.old.recollection }
    {
        let Outputs {
            answer,
            messages,
            looks,
        } = self.member.on(input)?;
        for message in messages {
            self.lanes.put(message, self.time.millis);
        }
        for to in looks {
            self.lanes.look(to);
        }
        Ok(answer)
    }

    // What nobody waits for. Without memory it is lost, as a message may be. A member that has
    // forgotten takes nothing.
    #[tactic(auto, using(crate::specs::Living::none_comes))]
    fn note(&mut self, input: Input)
        requires always { Unit {0} }
        ensures lives { MemberLives S.seen self.old.member self.new.member }
        ensures takes { has_forgotten self.old.recollection.witness ≡ false →
            MemberTakes S.seen input self.old.member self.new.member }
        ensures forgotten { IsTrue (has_forgotten self.old.recollection.witness) →
            self.new.member ≡ self.old.member }
        ensures ways { HasSameWays self.new.lanes self.old.lanes }
        ensures peers { self.new.peers ≡ self.old.peers }
        ensures recalls { self.new.recollection ≡ self.old.recollection }
    {
        if self.has_forgotten() {
            return;
        }
        let _ = self.play(input);
    }

    // What came of a request: it is counted, and a form that was refused gets a line.
    fn note_reply(&mut self, replied: &Result<u16, HttpFault>, request: &[u8])
        ensures { self.new.member ≡ self.old.member }
    {
        self.counts.note(replied);
        if !matches!(replied, Ok(REFUSED)) {
            return;
        }
        if let Some(line) = line_about(self.alloc, self.options, self.time.seconds, request) {
            self.line = Some(line);
        }
    }

    // A command that is too far ahead is refused, where the member takes any.
    fn is_refused(&self, at: u64) -> bool
        ensures { result ≡ (takes_commands (view_of self.now.member)
            && is_ahead self.now.options.now.ahead at self.now.time.seconds) }
    {
        self.member.takes_commands() && self.options.is_ahead(at, self.time.seconds)
    }

    // A single message comes from an address: it is heard where its sender has that, and the store
    // keeps no starts. Else it may be of a start that hasn't answered.
    #[tactic(auto, using(crate::specs::Living::none_comes))]
    fn hear_one(
        &mut self,
        from: IpAddr,
        message: Message,
        told: &mut Vec<u8>,
    ) -> Result<u16, HttpFault>
        requires always { Unit {0} }
        ensures lives { MemberLives S.seen self.old.member self.new.member }
        ensures stranger { is_other_at self.old.peers message.from from ≡ false →
            self.new.member ≡ self.old.member }
        ensures starts { IsSome self.old.recollection.witness →
            self.new.member ≡ self.old.member }
    {
        if self.recollection.keeps_starts() {
            return refuse_path(told);
        }
        if !self.peers.is_other_at(message.from, from) {
            return refuse_path(told);
        }
        let answer = self.play(Input::Message(message))?;
        tell_answer(self.alloc, &taken_reply(self.alloc), &answer, told)
    }

    // What a request that is one of a site's, or a member's message, is answered.
    #[tactic(auto, using(crate::specs::Living::none_comes))]
    fn ask(&mut self, from: IpAddr, asked: Asked, told: &mut Vec<u8>) -> Result<u16, HttpFault>
        requires always { Unit {0} }
        ensures { MemberLives S.seen self.old.member self.new.member }
    {
        match asked {
            Asked::Peer(message) => self.hear_one(from, message, told),
            Asked::Command(stamped) => {
                if self.is_refused(stamped.at.seconds()) {
                    return refuse_form(told);
                }
                let answer = self.play(Input::Command(stamped))?;
                tell_answer(self.alloc, &queued_reply(self.alloc), &answer, told)
            }
            Asked::Page(target) => {
                let answer = self.play(Input::Page(target))?;
                tell_answer(self.alloc, &taken_reply(self.alloc), &answer, told)
            }
        }
    }

    // How far a member is, as it says; whether it counts the same members and runs the same kit.
    fn hear_report(&mut self, from: MemberId, report: Report) -> Result<bool, AllocError>
        requires always { Unit {0} }
        ensures lives { MemberLives S.seen self.old.member self.new.member }
        ensures same { IfOk result (λ is_same. MatchBool is_same
            (report.digests ≡ (view_of self.old.member).digests)
            (report.digests ≢ (view_of self.old.member).digests)) }
        ensures takes { MemberTakes S.seen (input.Report from report) self.old.member
            self.new.member }
        ensures ways { HasSameWays self.new.lanes self.old.lanes }
        ensures peers { self.new.peers ≡ self.old.peers }
        ensures recalls { self.new.recollection ≡ self.old.recollection }
    {
        let answer = self.play(Input::Report { from, report })?;
        Ok(!matches!(answer, Answer::Foreign))
    }

    // The messages of a member that are in its name.
    fn hear_messages(&mut self, from: MemberId, messages: Vec<Message>) -> Result<(), AllocError>
        requires always { Unit {0} }
        ensures lives { MemberLives S.seen self.old.member self.new.member }
        ensures only { HearsOnly S.seen from self.old.member self.new.member }
        ensures all { OnOk result (TakesAll S.seen (letters from messages.items) self.old.member
            self.new.member) }
        ensures ways { HasSameWays self.new.lanes self.old.lanes }
        ensures peers { self.new.peers ≡ self.old.peers }
        ensures recalls { self.new.recollection ≡ self.old.recollection }
    {
        for message in messages {
            if message.from == from {
                self.play(Input::Message(message))?;
            }
        }
        Ok(())
    }

    // What a batch brings, all of which is heard.
    fn hear_all(&mut self, head: Head, messages: Vec<Message>) -> Result<bool, AllocError>
        requires always { Unit {0} }
        ensures lives { MemberLives S.seen self.old.member self.new.member }
        ensures only { HearsOnly S.seen head.from self.old.member self.new.member }
        ensures same { IfOk result (λ is_heard. MatchBool is_heard
            (head.report.digests ≡ (view_of self.old.member).digests)
            (head.report.digests ≢ (view_of self.old.member).digests)) }
        ensures all { IfOk result (λ is_heard. IsTrue is_heard →
            TakesAll S.seen (inputs_of head messages.items) self.old.member self.new.member) }
        ensures ways { HasSameWays self.new.lanes self.old.lanes }
        ensures peers { self.new.peers ≡ self.old.peers }
        ensures recalls { self.new.recollection ≡ self.old.recollection }
    {
        if !self.hear_report(head.from, head.report)? {
            return Ok(false);
        }
        self.hear_messages(head.from, messages)?;
        Ok(true)
    }

    // Whether it counts the same members, and runs the same kit.
    fn is_like(&self, report: &Report) -> bool
        ensures { MatchBool result
            (report.now.digests ≡ (view_of self.now.member).digests)
            (report.now.digests ≢ (view_of self.now.member).digests) }
    {
        report.digests == self.member.report().digests
    }

    // The batch of a member that counts the same members and runs the same kit, whether all of it
    // is heard: as what it recalls says. Of a stale one the messages are heard.
    fn hear_recall(&mut self, head: Head, messages: Vec<Message>) -> Result<bool, AllocError>
        requires always { Unit {0} }
        ensures lives { MemberLives S.seen self.old.member self.new.member }
        ensures only { HearsOnly S.seen head.from self.old.member self.new.member }
        ensures recalls { self.new.recollection.witness ≡ witness_after
            self.old.recollection.witness head.from head.recall }
        ensures unheard { IsUnheard (hearing_by self.old.recollection.witness head.from
            head.recall) → self.new.member ≡ self.old.member }
        ensures heard { IfOk result (λ is_heard. MatchBool is_heard
            ((hearing_by self.old.recollection.witness head.from head.recall ≡ Heard)
            × (head.report.digests ≡ (view_of self.old.member).digests)
            × TakesAll S.seen (inputs_of head messages.items) self.old.member self.new.member)
            ((hearing_by self.old.recollection.witness head.from head.recall ≢ Heard)
            ⊎ (head.report.digests ≢ (view_of self.old.member).digests))) }
        ensures ways { HasSameWays self.new.lanes self.old.lanes }
        ensures peers { self.new.peers ≡ self.old.peers }
    {
        match self.recollection.hear(head.from, head.recall) {
            Hearing::Heard => self.hear_all(head, messages),
            Hearing::Stale => {
                self.hear_messages(head.from, messages)?;
                Ok(false)
            }
            Hearing::Unanswered | Hearing::Forgotten => Ok(false),
        }
    }

    // The batch of a member, whether all of it is heard. That of one that counts other members or
    // runs another kit is noted as such.
    #[tactic(auto, using(crate::specs::Living::none_comes))]
    fn hear(&mut self, head: Head, messages: Vec<Message>) -> Result<bool, AllocError>
        requires always { Unit {0} }
        ensures lives { MemberLives S.seen self.old.member self.new.member }
        ensures forgotten { IsTrue (has_forgotten self.old.recollection.witness) →
            (self.new.member ≡ self.old.member)
            × (self.new.recollection ≡ self.old.recollection) }
        ensures only { HearsOnly S.seen head.from self.old.member self.new.member }
        ensures unheard { IsUnheard (hearing_by self.old.recollection.witness head.from
            head.recall) →
            head.report.digests ≡ (view_of self.old.member).digests →
            self.new.member ≡ self.old.member }
        ensures heard { IfOk result (λ is_heard. MatchBool is_heard
            ((hearing_by self.old.recollection.witness head.from head.recall ≡ Heard)
            × (head.report.digests ≡ (view_of self.old.member).digests)
            × TakesAll S.seen (inputs_of head messages.items) self.old.member self.new.member)
            ((hearing_by self.old.recollection.witness head.from head.recall ≢ Heard)
            ⊎ (head.report.digests ≢ (view_of self.old.member).digests))) }
        ensures ways { HasSameWays self.new.lanes self.old.lanes }
        ensures peers { self.new.peers ≡ self.old.peers }
    {
        if self.has_forgotten() {
            return Ok(false);
        }
        if self.is_like(&head.report) {
            return self.hear_recall(head, messages);
        }
        self.hear_report(head.from, head.report)?;
        Ok(false)
    }

    // What the store has saved since the start.
    fn mark(&self) -> Option<Mark>
        ensures { result ≡ S.marked (store_of (node_in (view_of self.now.member))) }
    {
        self.member.node().store().mark()
    }

    // What a batch to a member is written with, which recalls this.
    fn sender(&self, recall: Option<Recall>) -> Sender
        ensures head { result.head ≡ record {
          from = self.now.peers.own;
          report = report_of self.now.member;
          recall = recall;
        } }
        ensures now { result.now ≡ self.now.time.millis }
    {
        let head = Head {
            from: self.peers.own(),
            report: self.member.report(),
            recall,
        };
        Sender {
            alloc: self.alloc,
            head,
            now: self.time.millis,
        }
    }

    // What waits for a member goes out with the reply to its batch.
    fn tell_back(&mut self, to: MemberId, told: &mut Vec<u8>) -> Result<u16, HttpFault>
        ensures member { self.new.member ≡ self.old.member }
        ensures forgot { has_forgotten self.new.recollection.witness
            ≡ has_forgotten self.old.recollection.witness }
        ensures carries { IfOk result (λ _. (reply : List ℕ)
            × (told.new.items ≡ told.old.items ++ reply)
            × Carries (fresh_of self.old.time.millis (waiting_at self.old.lanes (to - 1)))
            (waiting_at self.new.lanes (to - 1)) (head_for self.old.peers.own
            (report_of self.old.member) (S.marked (store_of (node_in (view_of self.old.member))))
            self.old.recollection.witness to) reply) }
    {
        let mark = self.mark();
        let recall = self.recollection.recall_to(to, mark);
        let sender = self.sender(recall);
        match self.lanes.pack_reply(place_of(to), sender) {
            Some(batch) => tell_batch(self.alloc, &batch.into_bytes(), told),
            None => Err(HttpFault::NoMemory),
        }
    }

    // What waits for a member goes out with the reply, unless this one has forgotten.
    fn answer_batch(&mut self, to: MemberId, told: &mut Vec<u8>) -> Result<u16, HttpFault>
        ensures member { self.new.member ≡ self.old.member }
        ensures forgotten { IsTrue (has_forgotten self.old.recollection.witness) →
            IfOk result (λ status. status ≡ 503) }
    {
        if self.has_forgotten() {
            return refuse_for_now(told);
        }
        self.tell_back(to, told)
    }

    // What may be a batch comes from an address.
    #[tactic(auto, using(crate::specs::Living::none_comes))]
    fn take(&mut self, from: IpAddr, body: &[u8], told: &mut Vec<u8>) -> Result<u16, HttpFault>
        requires always { Unit {0} }
        ensures lives { MemberLives S.seen self.old.member self.new.member }
        ensures stranger { ((other : ℕ) → is_other_at self.old.peers other from ≡ false) →
            self.new.member ≡ self.old.member }
        ensures forgotten { IsTrue (has_forgotten self.old.recollection.witness) →
            (self.new.member ≡ self.old.member) × IfOk result (λ status. status ≡ 503) }
    {
        if self.has_forgotten() {
            return refuse_for_now(told);
        }
        let Batch { head, messages } = match decode_batch(self.alloc, body) {
            Ok(batch) => batch,
            Err(BatchFault::NoMemory) => return Err(HttpFault::NoMemory),
            Err(_) => return refuse(HttpFault::BadPeer, told),
        };
        if !self.peers.is_other_at(head.from, from) {
            return refuse_path(told);
        }
        if self.member.node().is_down() {
            return refuse_by(NodeFault::Down, told);
        }
        let to = head.from;
        self.hear(head, messages)?;
        self.answer_batch(to, told)
    }

    fn show_ready(&self, told: &mut Vec<u8>) -> Result<u16, HttpFault> {
        let mut near = Vec::new(self.alloc);
        let mut foreign = Vec::new(self.alloc);
        let mut differing = Vec::new(self.alloc);
        for place in 0..self.peers.count() {
            let number = place.saturating_add(1);
            if self.member.is_near(place) {
                near.push(number)?;
            }
            if self.member.is_foreign(place) {
                foreign.push(number)?;
            }
            if self.member.is_differing(place) {
                differing.push(number)?;
            }
        }
        let Report {
            applied,
            chosen,
            digest,
            ..
        } = self.member.report();
        let standing = Standing {
            is_ready: self.member.is_ready(),
            applied,
            chosen,
            near: &near,
            foreign: &foreign,
            agreement: Some(Agreement {
                digest: &digest,
                differing: &differing,
            }),
        };
        show_ready(self.alloc, standing, told)
    }

    // Whether none that was compared has applied other commands.
    fn is_unanimous(&self) -> bool {
        for place in 0..self.peers.count() {
            if self.member.is_differing(place) {
                return false;
            }
        }
        true
    }

    fn show_metrics(&self, told: &mut Vec<u8>) -> Result<u16, HttpFault> {
        let node = self.member.node();
        let among = Among {
            chosen: self.member.chosen_count(),
            foreign: self.foreign.count(),
            is_unanimous: Some(self.is_unanimous()),
        };
        let metrics = Metrics {
            applied: node.applied(),
            is_down: node.is_down(),
            has_forgotten: self.has_forgotten(),
            waiting: node.waiting_count() as u64,
            among,
            saves: self.options.saves(),
            traffic: self.traffic,
            counts: self.counts.all(),
        };
        show_metrics(self.alloc, &metrics, told)
    }

    // What editors see of the member, once it shows pages.
    fn show_desk(
        &self,
        asked: Result<DeskRequest, HttpFault>,
        told: &mut Vec<u8>,
    ) -> Result<u16, HttpFault> {
        if !self.member.is_open() {
            return refuse_for_now(told);
        }
        tell_desk(self.alloc, self.member.node(), asked, told)
    }

    // What is said where the member has forgotten: no page, and no command is taken.
    fn refuse_forgotten(&self, own: Option<Own>, told: &mut Vec<u8>) -> Result<u16, HttpFault>
        ensures { own ≢ Some Own.Metrics → IfOk result (λ status. status ≡ 503) }
    {
        match (own, self.recollection.reminder()) {
            (Some(Own::Metrics), _) if self.options.has_status() => self.show_metrics(told),
            (Some(Own::Ready), Some(reminder)) => show_forgotten(self.alloc, reminder, told),
            _ => refuse_for_now(told),
        }
    }

    // A path of a site, or one for single messages: the request is read whole first.
    #[tactic(auto, using(crate::specs::Living::none_comes))]
    fn reply_to_all_but_batches(
        &mut self,
        own: Option<Own>,
        from: IpAddr,
        request: &[u8],
        told: &mut Vec<u8>,
    ) -> Result<u16, HttpFault>
        requires always { Unit {0} }
        ensures lives { MemberLives S.seen self.old.member self.new.member }
        ensures forgotten { IsTrue (has_forgotten self.old.recollection.witness) →
            self.new.member ≡ self.old.member }
    {
        let mut rest = request;
        let request = match read_request(self.alloc, &mut rest) {
            Ok(request) => request,
            Err(fault) => return refuse(fault, told),
        };
        if self.has_forgotten() {
            return self.refuse_forgotten(own, told);
        }
        match own {
            Some(Own::Ready) => return self.show_ready(told),
            Some(Own::Metrics) if self.options.has_status() => return self.show_metrics(told),
            Some(Own::Editor) if self.options.has_editor() => {
                return self.options.show_editor(self.alloc, told);
            }
            _ => {}
        }
        if let Some(asked) = self.options.desk_question(self.alloc, &request) {
            return self.show_desk(asked, told);
        }
        match self.routes.route(self.alloc, &request) {
            Ok(asked) => self.ask(from, asked, told),
            Err(fault) => refuse(fault, told),
        }
    }

    #[tactic(auto, using(crate::specs::Living::none_comes))]
    fn reply(&mut self, from: IpAddr, request: &[u8], told: &mut Vec<u8>) -> Result<u16, HttpFault>
        requires always { Unit {0} }
        ensures lives { MemberLives S.seen self.old.member self.new.member }
        ensures forgotten { IsTrue (has_forgotten self.old.recollection.witness) →
            self.new.member ≡ self.old.member }
    {
        let (method, target) = method_and_target_of(request);
        match self.paths.at(method, target) {
            Some(Own::Members) if !self.peers.has(from) => refuse_path(told),
            Some(Own::Members) => match body_in(request) {
                Ok(body) => self.take(from, body, told),
                Err(fault) => refuse(fault, told),
            },
            own => self.reply_to_all_but_batches(own, from, request, told),
        }
    }

    // The line of the next member that isn't heard, or has applied other commands.
    fn line_about_members(&mut self) -> Option<String>
        ensures { self.new.member ≡ self.old.member }
    {
        match self.foreign.next_foreign(self.alloc, &self.member) {
            Some(line) => Some(line),
            None => self.differing.next_differing(self.alloc, &self.member),
        }
    }

    // What waits for a member, behind a head. None without memory.
    fn parcel_to(&mut self, to: MemberId) -> Option<Parcel>
        ensures member { self.new.member ≡ self.old.member }
        ensures peers { self.new.peers ≡ self.old.peers }
        ensures goes { IfSome result (λ parcel. GoIn (waiting_at self.old.lanes (to - 1))
            (waiting_at self.new.lanes (to - 1)) (head_alone (head_for self.old.peers.own
            (report_of self.old.member) (S.marked (store_of (node_in (view_of self.old.member))))
            self.old.recollection.witness to)) parcel.batch) }
        ensures asks { MatchOption result
            (owed_at self.new.lanes (to - 1) ≡ owed_at self.old.lanes (to - 1))
            (λ parcel. GoOut parcel.asked (owed_at self.old.lanes (to - 1))
            (owed_at self.new.lanes (to - 1))) }
        ensures there { IfSome result (λ _. to - 1 < length self.new.lanes.all.items) }
    {
        let mark = self.mark();
        let recall = self.recollection.recall_to(to, mark);
        let sender = self.sender(recall);
        self.lanes.pack(place_of(to), sender)
    }

    // A batch for a member. None without memory.
    #[tactic(auto, using(crate::proofs::Owing::given_up))]
    fn outgoing_batch(&mut self, to: MemberId) -> Option<Outgoing>
        ensures member { self.new.member ≡ self.old.member }
        ensures carries { IfSome result (λ outgoing. Carries (waiting_at self.old.lanes (to - 1))
            (waiting_at self.new.lanes (to - 1)) (head_for self.old.peers.own
            (report_of self.old.member) (S.marked (store_of (node_in (view_of self.old.member))))
            self.old.recollection.witness to) outgoing.bytes.items) }
        ensures goes { IfSome result (λ outgoing. (outgoing.place ≡ to - 1)
            × (outgoing.errand.addr ≡ first_at self.old.peers.book (to - 1))) }
        ensures asks { MatchOption result
            (AreKept (owed_at self.old.lanes (to - 1)) (owed_at self.new.lanes (to - 1)))
            (λ outgoing. GoOut outgoing.errand.asked (owed_at self.old.lanes (to - 1))
            (owed_at self.new.lanes (to - 1))) }
    {
        let place = place_of(to);
        let addr = self.peers.addr(place);
        let Parcel { batch, asked } = self.parcel_to(to)?;
        match request_of(self.alloc, &batch.into_bytes()) {
            Some(bytes) => Some(Outgoing {
                place,
                bytes,
                errand: Errand { addr, asked },
            }),
            None => {
                self.lanes.give_up(place, asked);
                None
            }
        }
    }

    // What a member said back, if it did; whether it counts the same members, and runs the same
    // kit.
    #[tactic(auto, using(crate::specs::Living::none_comes))]
    fn hear_back(&mut self, said: Option<Batch>) -> bool
        requires always { Unit {0} }
        ensures lives { MemberLives S.seen self.old.member self.new.member }
        ensures forgotten { IsTrue (has_forgotten self.old.recollection.witness) →
            (self.new.member ≡ self.old.member)
            × (self.new.recollection ≡ self.old.recollection) }
        ensures heard { IsTrue result → MatchOption said ⊥ (λ batch.
            (batch.head.report.digests ≡ (view_of self.old.member).digests)
            × TakesAll S.seen (inputs_in (carried_by batch)) self.old.member self.new.member) }
        ensures ways { HasSameWays self.new.lanes self.old.lanes }
        ensures peers { self.new.peers ≡ self.old.peers }
    {
        match said {
            Some(Batch { head, messages }) => matches!(self.hear(head, messages), Ok(true)),
            None => false,
        }
    }
}

impl<S: PromiseStore + Starts> Answers for Clustered<'_, S> {
    ghost use Rattle.press_member.specs.Acts.{view_of};
    ghost use Rattle.press_cluster.specs.Going.{HasEnded};
    ghost use Rattle.press_cluster.specs.Members.{LosesAddress};
    ghost use Rattle.press_cluster.specs.Living.{IsToldOfEnd, MemberLives, more_come, none_comes};
    ghost use Rattle.press_cluster.specs.Recalling.{has_forgotten};
    ghost use Rattle.std.specs.Prelude.{◌≡◌, IsTrue, false};

    ghost answers = { λ _ _ _. Unit {0} };

    ghost hears = { λ old credit new. HasEnded credit.place new.lanes old.lanes
        × LosesAddress credit old.peers new.peers
        × (has_forgotten new.recollection.witness ≡ false →
        IsToldOfEnd S.seen credit old.member new.member)
        × (IsTrue (has_forgotten old.recollection.witness) → new.member ≡ old.member) };

    ghost becomes = { λ old new. MemberLives S.seen old.member new.member };

    fn addr(&self) -> SocketAddr {
        match self.peers.own_addr() {
            Some(addr) => addr,
            None => SocketAddr::new(IpAddr::V4(Ipv4Addr::new(127, 0, 0, 1)), 0),
        }
    }

    fn is_member(&self, from: IpAddr) -> bool {
        self.peers.has(from)
    }

    fn answer(&mut self, from: IpAddr, request: &[u8], told: &mut Vec<u8>) -> Result<u16, HttpFault>
        requires always { Unit {0} }
        ensures lives { MemberLives S.seen self.old.member self.new.member }
        ensures forgotten { IsTrue (has_forgotten self.old.recollection.witness) →
            self.new.member ≡ self.old.member }
    {
        let replied = match self.reply(from, request, told) {
            Err(HttpFault::NoMemory) => refuse_without_memory(told),
            replied => replied,
        };
        self.note_reply(&replied, request);
        replied
    }

    #[tactic(auto, using(crate::specs::Living::none_comes))]
    fn next_call(&mut self) -> Option<Outgoing> {
        if self.has_forgotten() {
            return None;
        }
        let place = self.lanes.ready(self.time.millis)?;
        self.outgoing_batch(member_at(place)?)
    }

    fn has_more(&self) -> bool
        ensures { result ≡ (not (has_forgotten self.now.recollection.witness)
            && (has_more (view_of self.now.member)
            || list_any (is_ready self.now.time.millis) self.now.lanes.all.items)) }
    {
        !self.has_forgotten() && (self.member.has_more() || self.lanes.is_ready(self.time.millis))
    }

    fn is_over(&self) -> bool {
        self.stop().is_some() || self.ends_forgotten()
    }

    fn go_on(&mut self)
        requires always { Unit {0} }
        ensures lives { MemberLives S.seen self.old.member self.new.member }
        ensures forgotten { IsTrue (has_forgotten self.old.recollection.witness) →
            self.new.member ≡ self.old.member }
    {
        self.note(Input::HearOwn);
    }

    #[tactic(auto, using(crate::specs::Living::none_comes))]
    fn end_call(&mut self, place: usize, errand: Errand, reply: &[u8])
        requires always { Unit {0} }
        ensures hears { HasEnded place self.new.lanes self.old.lanes
            × LosesAddress (credit place errand reply.now) self.old.peers self.new.peers
            × (has_forgotten self.new.recollection.witness ≡ false → IsToldOfEnd S.seen
            (credit place errand reply.now) self.old.member self.new.member)
            × (IsTrue (has_forgotten self.old.recollection.witness) →
            self.new.member ≡ self.old.member) }
        ensures becomes { MemberLives S.seen self.old.member self.new.member }
    {
        self.lanes.end(place);
        let Some(to) = member_at(place) else {
            return;
        };
        let said = batch_by(self.alloc, to, reply);
        if said.is_none() {
            self.peers.lose(place, errand.addr);
        }
        let is_taken = self.hear_back(said);
        self.note(Input::Ended {
            to,
            asked: errand.asked,
            is_taken,
        });
    }

    #[tactic(auto, using(crate::specs::Living::none_comes))]
    fn next_line(&mut self) -> Option<String> {
        if let Some(line) = self.recollection.next_line(self.alloc) {
            return Some(line);
        }
        match self.line.take() {
            Some(line) => Some(line),
            None => self.line_about_members(),
        }
    }

    #[tactic(auto, using(crate::specs::Living::none_comes))]
    fn look_up(&mut self, net: &HostRuntime)
        requires always { Unit {0} }
        ensures { MemberLives S.seen self.old.member self.new.member }
    {
        self.peers.look_up(net, self.time.millis);
    }

    fn pass(&mut self, time: Time)
        requires always { Unit {0} }
        ensures lives { MemberLives S.seen self.old.member self.new.member }
        ensures forgotten { IsTrue (has_forgotten self.old.recollection.witness) →
            self.new.member ≡ self.old.member }
    {
        self.time = time;
        self.note(Input::Time(time.millis));
    }

    #[tactic(auto, using(crate::specs::Living::none_comes))]
    fn see(&mut self, traffic: Traffic) {
        self.traffic = traffic;
    }

    ghost rests = { λ a. none_comes (view_of a.member) };

    ghost goes_on = { λ a b c. more_come (view_of a.member) (view_of b.member) (view_of c.member) };
}
