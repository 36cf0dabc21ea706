//! Commands that go to a member in their order, ahead of their outcomes, and to another where that
//! one is away.

ghost use Rattle.std.specs.Prelude.{◌≡◌, ◌<◌, ◌≤◌, IfOk, IfSome, Some, length, slice_get};
ghost use Rattle.press_client.specs.Course.{GoesOn, after_taken, after_told, course_of, after_ending, first_course, is_drained, next_by_taken, next_by_told, at_next_member};
ghost use Rattle.press_client.specs.Delivering.{Delivers};
ghost use Rattle.press_client.specs.Saying.{SaysNothing};

use crate::ending::Ending;
use crate::newsroom::{FormAnswer, Newsroom, OutcomeAnswer};
use press_apply::Stamped;
use std::alloc::{AllocError, Global};

// The most commands that a member has ahead of the oldest outcome: half of what its queue takes.
const AHEAD: usize = 128;

// After so many answers that there is no outcome yet, another member is asked.
const MOST_ANSWERS: u32 = 1_000;

// What comes next.
#[derive(Clone, Copy, PartialEq, Eq)]
enum Next {
    // The next command, or question.
    On,
    // A command has ended.
    Note,
    // The same question again, in a moment.
    Again,
    // Another member, or the same once it takes more.
    Later,
}

// How far the commands are.
struct Delivery<'a> {
    commands: &'a [Stamped],
    // How many members there are, and the place of the one that gets commands now.
    members: usize,
    place: usize,
    // What became of the first commands.
    endings: Vec<Ending>,
    // How many commands have ended, or are with that member.
    sent: usize,
    // Whether no more goes to that member before all that it has have ended.
    is_held: bool,
    // How often it has said that there is no outcome yet.
    waited: u32,
}

impl Drop for Delivery<'_> {
    fn drop(self) {
        let Delivery {
            commands: _,
            members: _,
            place: _,
            endings: _,
            sent: _,
            is_held: _,
            waited: _,
        } = self;
    }
}

impl<'a> Delivery<'a> {
    fn new(alloc: Global, commands: &'a [Stamped], members: usize) -> Delivery<'a>
        ensures { course_of result ≡ first_course commands.now members }
    {
        Delivery {
            commands,
            members,
            place: 0,
            endings: Vec::new(alloc),
            sent: 0,
            is_held: false,
            waited: 0,
        }
    }

    fn into_endings(self) -> Vec<Ending>
        ensures { result ≡ self.entry.endings }
    {
        let Delivery {
            commands: _,
            members: _,
            place: _,
            endings,
            sent: _,
            is_held: _,
            waited: _,
        } = self;
        endings
    }

    // Whether each has ended.
    fn is_over(&self) -> bool {
        self.commands.len() <= self.endings.len()
    }

    // Whether the member has none of them that hasn't ended.
    fn is_drained(&self) -> bool
        ensures { result ≡ is_drained (course_of self.now) }
    {
        self.sent <= self.endings.len()
    }

    // The command that is to go out next, if one may.
    fn next(&self) -> Option<&'a Stamped>
        ensures { IfSome result (λ command.
            slice_get self.now.commands.now self.now.sent ≡ Some command.now) }
    {
        let ahead = self.sent.saturating_sub(self.endings.len());
        if ahead >= AHEAD || (self.is_held && ahead > 0) {
            return None;
        }
        self.commands.get(self.sent)
    }

    // The oldest command that hasn't ended.
    fn oldest(&self) -> Option<&'a Stamped>
        ensures { IfSome result (λ command.
            slice_get self.now.commands.now (length self.now.endings.items) ≡ Some command.now) }
    {
        self.commands.get(self.endings.len())
    }

    // The next member gets all that hasn't ended anew.
    fn turn(&mut self)
        ensures { course_of self.new ≡ at_next_member (course_of self.old) }
    {
        let next = self.place.saturating_add(1);
        self.place = if next < self.members { next } else { 0 };
        self.sent = self.endings.len();
        self.is_held = false;
        self.waited = 0;
    }

    // The oldest command has ended.
    fn end(&mut self, ending: Ending) -> Result<(), AllocError>
        ensures { IfOk result (λ _. course_of self.new ≡ after_ending ending (course_of self.old)) }
    {
        self.endings.push(ending)?;
        self.sent = self.sent.max(self.endings.len());
        self.is_held = false;
        self.waited = 0;
        Ok(())
    }

    // The member takes no more now: it is asked again once all that it has have ended, and if it
    // has none the next one is.
    fn hold(&mut self) -> Next
        ensures course { course_of self.new ≡ after_taken FormAnswer.Busy (course_of self.old) }
        ensures next { result ≡ next_by_taken FormAnswer.Busy (course_of self.old) }
    {
        if self.is_drained() {
            self.turn();
            return Next::Later;
        }
        self.is_held = true;
        Next::On
    }

    // The member doesn't take the command, which has ended so only once those before it have ended;
    // then it is asked again.
    fn refuse(&mut self, status: u16) -> Result<Next, AllocError>
        ensures course { IfOk result (λ _.
            course_of self.new ≡ after_taken (FormAnswer.Refused status) (course_of self.old)) }
        ensures next { IfOk result (λ next.
            next ≡ next_by_taken (FormAnswer.Refused status) (course_of self.old)) }
    {
        if self.is_drained() {
            self.end(Ending::NotTaken(status))?;
            return Ok(Next::Note);
        }
        self.is_held = true;
        Ok(Next::On)
    }

    // What a member made of the next command.
    fn take(&mut self, taken: FormAnswer) -> Result<Next, AllocError>
        requires { self.old.sent < length self.old.commands.now }
        ensures course { IfOk result (λ _.
            course_of self.new ≡ after_taken taken (course_of self.old)) }
        ensures next { IfOk result (λ next. next ≡ next_by_taken taken (course_of self.old)) }
    {
        match taken {
            FormAnswer::Queued => {
                // There are more, so that it doesn't wrap.
                let _ = self.commands.len();
                self.sent += 1;
                Ok(Next::On)
            }
            FormAnswer::Busy => Ok(self.hold()),
            FormAnswer::Refused(status) => self.refuse(status),
            FormAnswer::Lost => {
                self.turn();
                Ok(Next::Later)
            }
        }
    }

    // There is no outcome of the oldest command yet.
    fn wait(&mut self) -> Next
        ensures course { course_of self.new ≡ after_told OutcomeAnswer.NotYet (course_of self.old) }
        ensures next { result ≡ next_by_told OutcomeAnswer.NotYet }
    {
        self.waited = self.waited.saturating_add(1);
        if self.waited > MOST_ANSWERS {
            self.turn();
        }
        Next::Again
    }

    // What a member says of the oldest command.
    fn hear(&mut self, told: OutcomeAnswer) -> Result<Next, AllocError>
        ensures course { IfOk result (λ _.
            course_of self.new ≡ after_told told (course_of self.old)) }
        ensures next { IfOk result (λ next. next ≡ next_by_told told) }
    {
        match told {
            OutcomeAnswer::Outcome(outcome) => {
                self.end(Ending::of(outcome))?;
                Ok(Next::Note)
            }
            OutcomeAnswer::NotYet => Ok(self.wait()),
            OutcomeAnswer::Lost => {
                self.turn();
                Ok(Next::Later)
            }
        }
    }

    // Tells what has ended, or rests; returns whether it is worth while to go on.
    fn follow<N: Newsroom>(&self, room: &mut N, next: Next) -> bool
        ensures { SaysNothing (N.said room.old) (N.said room.new) }
    {
        match next {
            Next::On => true,
            Next::Note => {
                room.note(self.endings.len());
                true
            }
            Next::Again => room.rest(true),
            Next::Later => room.rest(false),
        }
    }

    // Sends a command, which is next.
    #[tactic(auto, using(std::proofs::lemmas::Option::slice_get_within))]
    fn send<N: Newsroom>(&mut self, room: &mut N, command: &Stamped) -> Result<bool, AllocError>
        requires { slice_get self.old.commands.now self.old.sent ≡ Some command.now }
        ensures { IfOk result (λ _. GoesOn (N.said room.old) (N.said room.new)
            (course_of self.old) (course_of self.new)) }
    {
        let taken = room.submit(self.place, command)?;
        let next = self.take(taken)?;
        Ok(self.follow(room, next))
    }

    // Asks for the outcome of the oldest command.
    #[tactic(auto, using(crate::proofs::Standing::resting))]
    fn ask<N: Newsroom>(&mut self, room: &mut N) -> Result<bool, AllocError>
        ensures { IfOk result (λ _. GoesOn (N.said room.old) (N.said room.new)
            (course_of self.old) (course_of self.new)) }
    {
        let Some(oldest) = self.oldest() else {
            return Ok(self.follow(room, Next::On));
        };
        let told = room.outcome(self.place, &oldest.token)?;
        let next = self.hear(told)?;
        Ok(self.follow(room, next))
    }

    // One step; returns whether it is worth while to go on.
    fn step<N: Newsroom>(&mut self, room: &mut N) -> Result<bool, AllocError>
        ensures { IfOk result (λ _. GoesOn (N.said room.old) (N.said room.new)
            (course_of self.old) (course_of self.new)) }
    {
        match self.next() {
            Some(command) => self.send(room, command),
            None => self.ask(room),
        }
    }

    // Goes on as long as it is worth while.
    #[tactic(auto, using(crate::proofs::Standing::rests))]
    fn run<N: Newsroom>(&mut self, room: &mut N) -> Result<(), AllocError>
        ensures { IfOk result (λ _. GoesOn (N.said room.old) (N.said room.new)
            (course_of self.old) (course_of self.new)) }
    {
        for turn in 0..u64::MAX {
            if self.is_over() {
                return Ok(());
            }
            let goes_on = self.step(room)?;
            if !goes_on {
                return Ok(());
            }
        }
        Ok(())
    }
}

/// Sends commands to the members of a cluster, and returns what became of the first of them: of
/// all, or of as many as had ended when it was no longer worth while to go on.
///
/// All go to one member, in their order, up to 128 ahead of the oldest that hasn't ended. Behind a
/// loss, and where no outcome comes, the next member gets all that haven't ended, from the oldest
/// on.
pub fn deliver<N: Newsroom>(
    alloc: Global,
    room: &mut N,
    members: usize,
    commands: &[Stamped],
) -> Result<Vec<Ending>, AllocError>
    ensures count { IfOk result (λ endings. length endings.items ≤ length commands.now) }
    ensures delivers { IfOk result (λ endings.
        Delivers commands.now endings.items (N.said room.old) (N.said room.new)) }
{
    let mut delivery = Delivery::new(alloc, commands, members);
    delivery.run(room)?;
    Ok(delivery.into_endings())
}
