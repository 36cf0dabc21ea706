//! Commands that are sent to members which are away, full, or started anew at given calls.

ghost use Rattle.std.specs.Prelude.{None};

use press_apply::Stamped;
use press_client::{
    Ending, FormAnswer, Newsroom, OutcomeAnswer, deliver, report, taken_by, told_by,
};
use press_kit::read_site_file;
use press_site::{Outcome, Token};
use press_text::Items;
use std::alloc::{AllocError, Global};
use std::test::Fail;

// What happens to a member, from one call to another.
#[derive(Clone, Copy, PartialEq, Eq)]
enum Trouble {
    Away,
    Busy,
    // It is started anew at the first of these calls: what it had is gone.
    Forgets,
}

#[derive(Clone, Copy)]
struct Scene {
    from: u32,
    to: u32,
    place: usize,
    trouble: Trouble,
}

// Members that each propose the first of their queue, whenever they are asked for an outcome.
#[derive(Drop)]
struct Scripted<'a> {
    scenes: &'a [Scene],
    calls: u32,
    queues: Vec<Vec<u64>>,
    // By their numbers, in the order in which they are chosen.
    applied: Vec<u64>,
    told: usize,
    rests: u32,
}

// This number is never taken, and that one is refused when it is applied.
const TOO_LONG: u64 = 13;

const UNKNOWN: u64 = 17;

impl<'a> Scripted<'a> {
    fn new(alloc: Global, scenes: &'a [Scene]) -> Result<Scripted<'a>, Fail> {
        let mut queues = Vec::new(alloc);
        for _ in 0..3 {
            queues.push(Vec::new(alloc))?;
        }
        Ok(Scripted {
            scenes,
            calls: 0,
            queues,
            applied: Vec::new(alloc),
            told: 0,
            rests: 0,
        })
    }

    // The trouble of a member at this call.
    fn trouble(&mut self, place: usize) -> Option<Trouble> {
        self.calls = self.calls.saturating_add(1);
        let mut found = None;
        for scene in self.scenes {
            if scene.from <= self.calls && self.calls <= scene.to && scene.place == place {
                found = Some(scene.trouble);
            }
        }
        if found == Some(Trouble::Forgets) {
            if let Some(queue) = self.queues.get_mut(place) {
                queue.clear();
            }
        }
        found
    }

    // The first of a member's queue is chosen, unless it was before.
    fn apply(&mut self, place: usize) -> Result<(), AllocError> {
        let Some(queue) = self.queues.get_mut(place) else {
            return Ok(());
        };
        if queue.is_empty() {
            return Ok(());
        }
        let first = queue.remove(0);
        if !self.applied.contains(&first) {
            self.applied.push(first)?;
        }
        Ok(())
    }
}

impl Newsroom for Scripted<'_> {
    ghost said = { λ _. None };

    fn submit(&mut self, place: usize, command: &Stamped) -> Result<FormAnswer, AllocError> {
        match self.trouble(place) {
            Some(Trouble::Away) => return Ok(FormAnswer::Lost),
            Some(Trouble::Busy) => return Ok(FormAnswer::Busy),
            _ => {}
        }
        let seq = command.token.seq;
        if seq == TOO_LONG {
            return Ok(FormAnswer::Refused(413));
        }
        if let Some(queue) = self.queues.get_mut(place) {
            queue.push(seq)?;
        }
        Ok(FormAnswer::Queued)
    }

    fn outcome(&mut self, place: usize, token: &Token) -> Result<OutcomeAnswer, AllocError> {
        if self.trouble(place) == Some(Trouble::Away) {
            return Ok(OutcomeAnswer::Lost);
        }
        self.apply(place)?;
        if !self.applied.contains(&token.seq) {
            return Ok(OutcomeAnswer::NotYet);
        }
        if token.seq == UNKNOWN {
            return Ok(OutcomeAnswer::Outcome(Outcome::Refused(15)));
        }
        Ok(OutcomeAnswer::Outcome(Outcome::Done(token.seq)))
    }

    fn note(&mut self, told: usize) {
        self.told = told;
    }

    fn rest(&mut self, _answered: bool) -> bool {
        self.rests = self.rests.saturating_add(1);
        self.rests < 5_000
    }
}

// So many commands of one editor, with numbers from 1 on.
fn commands(alloc: Global, count: u64) -> Result<Items<Stamped>, Fail> {
    let mut file = String::from_str(alloc, "{\"commands\":[")?;
    for seq in 1..count {
        let one = format!(in alloc;
            "{{\"editor\":\"ann\",\"seq\":{seq},\"at\":1,\"kind\":\"tick\"}},"
        )?;
        file.push_str(&one)?;
    }
    let last = format!(in alloc;
        "{{\"editor\":\"ann\",\"seq\":{count},\"at\":1,\"kind\":\"tick\"}}]}}"
    )?;
    file.push_str(&last)?;
    Ok(read_site_file(alloc, file.as_bytes())?)
}

fn ending(seq: u64) -> Ending {
    match seq {
        TOO_LONG => Ending::NotTaken(413),
        UNKNOWN => Ending::Refused(15),
        _ => Ending::Done(seq),
    }
}

// Whether each has ended as it had to, and they were chosen in their order.
fn is_well(room: &Scripted<'_>, endings: &[Ending], count: u64) -> bool {
    let mut seq: u64 = 0;
    for found in endings {
        seq = seq.saturating_add(1);
        if *found != ending(seq) {
            return false;
        }
    }
    let mut last = 0;
    for applied in &room.applied {
        if *applied <= last {
            return false;
        }
        last = *applied;
    }
    seq == count && room.told as u64 == count
}

fn during(from: u32, to: u32, place: usize, trouble: Trouble) -> Scene {
    Scene {
        from,
        to,
        place,
        trouble,
    }
}

#[test]
fn each_has_its_outcome_in_its_turn(rt: HostRuntime) -> Result<(), Fail> {
    let alloc = rt.alloc();
    let count = 300;
    let commands = commands(alloc, count)?;
    let away = during(140, 400, 0, Trouble::Away);
    for scenes in [
        &[][..],
        &[during(1, u32::MAX, 0, Trouble::Away)][..],
        &[away, during(200, 250, 1, Trouble::Away)][..],
        &[away, during(401, 401, 0, Trouble::Forgets)][..],
        &[during(60, 61, 0, Trouble::Busy)][..],
        &[
            during(1, 9, 0, Trouble::Busy),
            during(1, 9, 1, Trouble::Away),
        ][..],
        &[
            during(200, 200, 0, Trouble::Away),
            during(201, 201, 0, Trouble::Forgets),
        ][..],
    ] {
        let mut room = Scripted::new(alloc, scenes)?;
        let endings = deliver(alloc, &mut room, 3, commands.as_slice())?;
        assert!(rt; is_well(&room, &endings, count), "at {}", scenes.len());
    }
    Ok(())
}

#[test]
fn where_all_are_away_it_ends(rt: HostRuntime) -> Result<(), Fail> {
    let alloc = rt.alloc();
    let commands = commands(alloc, 20)?;
    let scenes = [
        during(10, u32::MAX, 0, Trouble::Away),
        during(10, u32::MAX, 1, Trouble::Away),
        during(10, u32::MAX, 2, Trouble::Away),
    ];
    let mut room = Scripted::new(alloc, &scenes)?;
    let endings = deliver(alloc, &mut room, 3, commands.as_slice())?;
    assert!(rt; endings.is_empty());
    let told = report(alloc, commands.as_slice(), &endings)?;
    let meant = "0 done, 0 refused, 0 not taken, 20 left\n";
    assert_eq!(rt; told.as_str(), meant);
    Ok(())
}

#[test]
fn who_is_not_done_is_named(rt: HostRuntime) -> Result<(), Fail> {
    let alloc = rt.alloc();
    let commands = commands(alloc, 20)?;
    let mut room = Scripted::new(alloc, &[])?;
    let endings = deliver(alloc, &mut room, 3, commands.as_slice())?;
    let told = report(alloc, commands.as_slice(), &endings)?;
    let meant =
        "commands[12] ann/13 tick: status 413\ncommands[16] ann/17 tick: fault 15\n18 done, 1 refused, 1 not taken, 0 left\n";
    assert_eq!(rt; told.as_str(), meant);
    Ok(())
}

#[test]
fn replies_are_read(rt: HostRuntime) -> Result<(), Fail> {
    assert!(rt; taken_by(b"HTTP/1.1 202 Accepted\r\n\r\n{\"queued\":true}") == FormAnswer::Queued);
    assert!(rt; taken_by(b"HTTP/1.1 503 Service Unavailable\r\n\r\n") == FormAnswer::Busy);
    assert!(rt; taken_by(b"HTTP/1.1 413 Payload Too Large\r\n\r\n") == FormAnswer::Refused(413));
    for reply in [
        &b""[..],
        b"HTTP/1.1 20",
        b"HTTP/1.1 200 OK\r\n\r\n",
        b"HTTP/1.1 502 Bad Gateway\r\n",
    ] {
        assert!(rt; taken_by(reply) == FormAnswer::Lost);
    }
    let done = OutcomeAnswer::Outcome(Outcome::Done(7));
    assert!(rt; told_by(b"HTTP/1.1 200 OK\r\nContent-Length: 10\r\n\r\n{\"done\":7}") == done);
    let refused = OutcomeAnswer::Outcome(Outcome::Refused(20));
    assert!(rt; told_by(b"HTTP/1.1 200 OK\r\n\r\n{\"refused\":20}") == refused);
    assert!(rt; told_by(b"HTTP/1.1 404 Not Found\r\n\r\n{\"code\":404}") == OutcomeAnswer::NotYet);
    for reply in [
        &b""[..],
        b"HTTP/1.1 200 OK\r\n\r\n{\"done\":7",
        b"HTTP/1.1 200 OK\r\n\r\n{\"refused\":256}",
        b"HTTP/1.1 503 Service Unavailable\r\n\r\n",
    ] {
        assert!(rt; told_by(reply) == OutcomeAnswer::Lost);
    }
    Ok(())
}
