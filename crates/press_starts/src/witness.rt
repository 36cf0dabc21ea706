ghost use Rattle.std.specs.Prelude.{◌≡◌, ◌-◌, ◌<◌, ◌∷◌, None, replicate};
ghost use Rattle.press_starts.specs.Files.{has_made, lacks, running, with_saves};
ghost use Rattle.press_starts.specs.Peers.{stranger};
ghost use Rattle.press_starts.specs.Witnesses.{WitnessView, after_recall, hearing_of, next_number, peer_of, recall_of, reminder_by, with_sighting};

use crate::hearing::Hearing;
use crate::mark::{Mark, has_made};
use crate::peer::Peer;
use crate::recall::Recall;
use crate::sighting::Sighting;
use press_wire::MemberId;
use std::marker::Model;

const MEMBERS: usize = 7;

/// What a member's file has of its own starts, and what was heard of the others.
#[derive(Debug, Drop)]
pub struct Witness {
    // The start that runs.
    mark: Mark,
    // The starts before it.
    earlier: Vec<Mark>,
    // The number of the last recall.
    number: u64,
    // By the number of the member, less one.
    peers: [Peer; MEMBERS],
    // Who told what the file lacks.
    reminder: Option<Sighting>,
}

impl Model for Witness {
    ghost use Rattle.std.specs.Prelude.{◌∷◌, ◌≡◌, length};
    ghost use Rattle.press_starts.specs.Witnesses.{IsSound, WitnessView};

    ghost Value = { WitnessView };

    ghost view = { λ w. record {
      file = w.mark ∷ w.earlier.items;
      number = w.number;
      peers = w.peers;
      reminder = w.reminder;
    } };

    ghost invariant = { λ w. IsSound (record {
      file = w.mark ∷ w.earlier.items;
      number = w.number;
      peers = w.peers;
      reminder = w.reminder;
    }) };
}

// Where what is known of a member is kept.
fn place_of(member: MemberId) -> usize
    ensures place { result ≡ member - 1 }
    ensures within { result < 7 }
{
    usize::from(member.number() - 1)
}

// Who told what the file lacks.
fn reminder_by(hearing: Hearing, from: MemberId, recall: &Recall) -> Option<Sighting>
    ensures { result ≡ reminder_by hearing from recall.now }
{
    if hearing != Hearing::Forgotten {
        return None;
    }
    let mark = recall.heard?;
    Some(Sighting { member: from, mark })
}

impl Witness {
    /// The start that runs, and the earlier ones of the file. Nobody was heard yet.
    pub fn new(mark: Mark, earlier: Vec<Mark>) -> Witness
        ensures { result ≡ record {
          file = mark ∷ earlier.items;
          number = 0;
          peers = replicate 7 stranger;
          reminder = None;
        } }
    {
        Witness {
            mark,
            earlier,
            number: 0,
            peers: [Peer::STRANGER; MEMBERS],
            reminder: None,
        }
    }

    /// What the file has of another member: the last mark that was heard of it.
    pub fn remember(&mut self, sighting: Sighting)
        ensures { self.new ≡ with_sighting sighting self.old }
    {
        let peer = &mut self.peers[place_of(sighting.member)];
        peer.known = Some(sighting.mark);
        peer.number = 0;
    }

    /// The start that runs has made so many saves.
    pub fn count_saves(&mut self, saves: u64)
        ensures { self.new ≡ record self.old { file = with_saves saves self.old.file } }
    {
        self.mark.saves = self.mark.saves.max(saves);
    }

    /// What goes to a member with the next batch.
    pub fn recall_to(&mut self, to: MemberId) -> Recall
        ensures recall { result ≡ recall_of self.old to }
        ensures rises { self.new ≡ record self.old { number = next_number self.old.number } }
    {
        self.number = self.number.saturating_add(1);
        let peer = self.peers[place_of(to)];
        Recall {
            mark: self.mark,
            number: self.number,
            heard: peer.known,
            answered: peer.answer,
        }
    }

    // Whether the file lacks what was heard of this member.
    fn lacks(&self, heard: Option<Mark>) -> bool
        ensures { result ≡ lacks self.now.file heard }
    {
        match heard {
            Some(mark) => !self.has_made(mark),
            None => false,
        }
    }

    /// Whether the file has the mark.
    pub fn has_made(&self, mark: Mark) -> bool
        ensures { result ≡ has_made self.now.file mark }
    {
        self.mark.has_saves(mark) || has_made(&self.earlier, mark)
    }

    // What becomes of a batch.
    fn hearing(&self, from: MemberId, recall: &Recall) -> Hearing
        ensures { result ≡ hearing_of self.now from recall.now }
    {
        if self.reminder.is_some() || self.lacks(recall.heard) {
            return Hearing::Forgotten;
        }
        self.peers[place_of(from)].hearing(recall)
    }

    /// A batch comes from a member.
    pub fn hear(&mut self, from: MemberId, recall: &Recall) -> Hearing
        ensures hearing { result ≡ hearing_of self.old from recall.now }
        ensures after { self.new ≡ after_recall from recall.now self.old }
    {
        let hearing = self.hearing(from, recall);
        if self.reminder.is_some() {
            return hearing;
        }
        let place = place_of(from);
        self.peers[place] = self.peers[place].after(hearing, recall);
        self.reminder = reminder_by(hearing, from, recall);
        hearing
    }

    /// The start that runs, and its saves.
    pub fn mark(&self) -> Mark
        ensures { result ≡ running self.now.file }
    {
        self.mark
    }

    /// The last mark that was heard of a member: what the file is to keep of it.
    pub fn known(&self, member: MemberId) -> Option<Mark>
        ensures { result ≡ (peer_of self.now member).known }
    {
        self.peers[place_of(member)].known
    }

    /// Who told which mark that the file lacks, if anybody did: the member has forgotten.
    pub fn reminder(&self) -> Option<Sighting>
        ensures { result ≡ self.now.reminder }
    {
        self.reminder
    }
}
