//! What comes to members.

use crate::actor::{Actor, Answer, Input, Report};
use crate::parcel::{Label, Parcel, Reply, Request};
use crate::recall::{Hearing, Told};
use crate::world::World;
use std::alloc::AllocError;

impl<A: Actor> World<A> {
    // A member hears letters; whether it takes all.
    fn hear_letters(&mut self, label: Label, letters: Vec<A::Letter>) -> Result<bool, AllocError>
        requires always { Unit {0} }
    {
        let mut is_taken = true;
        for letter in letters {
            self.heard.hear(label.to, label.from, self.now);
            let answer = self.on(label.to, Input::Letter(letter))?;
            is_taken &= answer == Answer::Taken;
        }
        Ok(is_taken)
    }

    // How far a member says it is, where it is asked.
    fn report_of(&self, place: usize, looks: u32) -> Option<Report> {
        if looks == 0 {
            return None;
        }
        let seat = self.seats.get(place)?;
        Some(seat.report())
    }

    // A member takes a request, unless it comes from another cluster.
    fn take_request(&mut self, request: Request<A::Letter>) -> Result<bool, AllocError>
        requires always { Unit {0} }
    {
        let label = request.label;
        let is_ours = self.cluster(label.to) == request.cluster;
        if !is_ours || self.be_told(label.to, label.from, request.told)? == Hearing::Nothing {
            return Ok(false);
        }
        self.hear_letters(label, request.into_letters())
    }

    // Whether a member answers others: it runs, and its store hasn't failed.
    fn answers(&self, place: usize) -> bool {
        let standing = self.standing(place);
        standing.is_running && !standing.is_down
    }

    // What a member tells another with a reply.
    fn tell(&mut self, from: usize, to: usize) -> Option<Told> {
        Some(self.seats.get_mut(from)?.tell(to))
    }

    // A request comes to a member that answers.
    fn answer(&mut self, request: Request<A::Letter>) -> Result<Reply, AllocError>
        requires always { Unit {0} }
    {
        let (label, looks) = (request.label, request.looks);
        let report = self.report_of(label.to, looks);
        let is_taken = self.take_request(request)?;
        if !self.answers(label.to) {
            return Ok(Reply::nothing(label));
        }
        Ok(Reply {
            label,
            is_taken,
            report,
            told: self.tell(label.to, label.from),
        })
    }

    // A request comes to a member.
    fn hear(&mut self, request: Request<A::Letter>) -> Result<(), AllocError>
        requires always { Unit {0} }
    {
        let (label, is_copy) = (request.label, request.is_copy);
        let reply = if self.answers(label.to) {
            self.answer(request)?
        } else {
            Reply::nothing(label)
        };
        if is_copy {
            return Ok(());
        }
        self.network.reply(self.now, reply)
    }

    // A member is told how far another is.
    fn hear_report(&mut self, label: Label, report: Report) -> Result<(), AllocError>
        requires always { Unit {0} }
    {
        let is_ours = self.cluster(label.from) == report.cluster;
        let input = Input::Report {
            from: label.to,
            report,
        };
        let answer = self.on(label.from, input)?;
        if is_ours {
            self.heard
                .be_told(label.from, label.to, report.chosen, self.now);
        } else {
            self.heard.lose(label.from, label.to);
        }
        let right = if is_ours {
            Answer::Taken
        } else {
            Answer::Foreign
        };
        if answer != right {
            self.complain(
                label.from,
                "takes a report of another cluster, or none of its own",
            )?;
        }
        Ok(())
    }

    // What a member hears of a reply.
    fn hear_told(&mut self, reply: Reply) -> Result<Hearing, AllocError>
        requires always { Unit {0} }
    {
        let label = reply.label;
        match reply.told {
            // Of another cluster a report is looked at, and nothing else.
            Some(told) if told.cluster != self.cluster(label.from) => Ok(Hearing::All),
            Some(told) => self.be_told(label.from, label.to, told),
            None => Ok(Hearing::Nothing),
        }
    }

    // A member learns that a request of it has ended, of whose reply it heard that.
    fn end_heard(&mut self, reply: Reply, hearing: Hearing) -> Result<(), AllocError>
        requires always { Unit {0} }
    {
        let label = reply.label;
        if let (Hearing::All, Some(report)) = (hearing, reply.report) {
            self.hear_report(label, report)?;
        }
        let is_taken = reply.is_taken && hearing != Hearing::Nothing;
        if is_taken {
            self.heard.hear(label.from, label.to, self.now);
        }
        let input = Input::Ended {
            to: label.to,
            asked: label.asked,
            is_taken,
        };
        self.on(label.from, input)?;
        Ok(())
    }

    // A request that a member sent has ended.
    fn end_request(&mut self, reply: Reply) -> Result<(), AllocError>
        requires always { Unit {0} }
    {
        let label = reply.label;
        if self.life(label.from) != label.life || !self.standing(label.from).is_running {
            return Ok(());
        }
        let hearing = self.hear_told(reply)?;
        self.end_heard(reply, hearing)
    }

    /// Something comes; what comes to a member that pauses waits.
    pub fn receive(&mut self, parcel: Parcel<A::Letter>) -> Result<(), AllocError>
        requires always { Unit {0} }
    {
        let wait = self.wait(parcel.to());
        if wait > 0 {
            return self.network.hold(self.now, wait, parcel);
        }
        match parcel {
            Parcel::Request(request) => self.hear(request),
            Parcel::Reply(reply) => self.end_request(reply),
        }
    }
}
