//! What has to hold of all members: of each slot at most one value is chosen, as its votes and the
//! members' disks show, and pages are equal behind equal counts.

use crate::note::Note;
use std::alloc::{AllocError, Global};

// More complaints than these aren't kept.
const MOST_COMPLAINTS: usize = 8;

// Votes of one ballot.
#[derive(Clone, Copy, Drop)]
struct Cast {
    round: u64,
    node: u8,
    value: u64,
    voters: u8,
}

impl Cast {
    fn new(note: Note) -> Cast {
        Cast {
            round: note.round,
            node: note.node,
            value: note.value,
            voters: 0,
        }
    }

    fn is_for(&self, note: Note) -> bool {
        self.round == note.round && self.node == note.node
    }

    // Whether a note's ballot is this one, or behind it.
    fn is_up_to(&self, note: Note) -> bool {
        self.round < note.round || (self.round == note.round && self.node <= note.node)
    }

    fn has(&self, place: usize) -> bool {
        self.voters & bit_of(place) != 0
    }

    // Another votes; how many have.
    fn add(&mut self, place: usize) -> u32 {
        self.voters |= bit_of(place);
        self.voters.count_ones()
    }
}

#[derive(Drop)]
struct Slot {
    casts: Vec<Cast>,
    // By which votes it was chosen first.
    chosen: Option<Cast>,
}

// What came of a vote.
#[derive(Clone, Copy)]
struct Came {
    voters: u32,
    // Whether its ballot has another value too.
    is_other: bool,
}

impl Slot {
    fn new(alloc: Global) -> Slot {
        Slot {
            casts: Vec::new(alloc),
            chosen: None,
        }
    }

    // The place of the votes of a note's ballot, behind all others where there are none yet.
    fn place_of(&self, note: Note) -> usize {
        let mut place: usize = 0;
        for cast in self.casts.iter() {
            if cast.is_for(note) {
                return place;
            }
            place = place.saturating_add(1);
        }
        place
    }

    fn cast(&mut self, place: usize, note: Note) -> Result<Came, AllocError> {
        let at = self.place_of(note);
        if at >= self.casts.len() {
            self.casts.push(Cast::new(note))?;
        }
        match self.casts.get_mut(at) {
            Some(cast) => Ok(Came {
                is_other: cast.value != note.value,
                voters: cast.add(place),
            }),
            None => Ok(Came {
                is_other: false,
                voters: 0,
            }),
        }
    }

    // A note's value is chosen; whether another was.
    fn choose(&mut self, note: Note) -> bool {
        match self.chosen {
            Some(earlier) => earlier.value != note.value,
            None => {
                self.chosen = Some(Cast::new(note));
                false
            }
        }
    }

    fn is_chosen(&self, value: u64) -> bool {
        match self.chosen {
            Some(chosen) => chosen.value == value,
            None => false,
        }
    }

    // Whether a vote is for another value than the chosen one, and its ballot is no earlier than
    // that by which this was chosen.
    fn differs(&self, note: Note) -> bool {
        match self.chosen {
            Some(chosen) => chosen.is_up_to(note) && chosen.value != note.value,
            None => false,
        }
    }

    // Whether the member at a place has saved that vote, and none behind it.
    fn ends_with(&self, place: usize, note: Note) -> bool {
        let mut is_saved = false;
        for cast in self.casts.iter() {
            if cast.has(place) && !cast.is_up_to(note) {
                return false;
            }
            is_saved |= cast.has(place) && cast.is_for(note) && cast.value == note.value;
        }
        is_saved
    }

    // Whether the member at a place has saved a vote.
    fn has(&self, place: usize) -> bool {
        let mut has = false;
        for cast in self.casts.iter() {
            has |= cast.has(place);
        }
        has
    }
}

/// What members have voted for and shown, and what of it doesn't hold.
#[derive(Drop)]
pub struct Judge {
    alloc: Global,
    members: u32,
    slots: Vec<Slot>,
    // Of so many slots, the first ones, each is chosen.
    chosen: u64,
    pages: Vec<Option<u64>>,
    // Whether one was heard whose disk lacked some of its saves, so that nothing is promised.
    is_loose: bool,
    complaints: Vec<String>,
}

// The bit of a member.
fn bit_of(place: usize) -> u8 {
    1u8.checked_shl(place.min(7) as u32).unwrap_or(0)
}

impl Judge {
    /// A judge of so many members, of which none has saved anything.
    pub fn new(alloc: Global, members: u8) -> Judge {
        Judge {
            alloc,
            members: u32::from(members),
            slots: Vec::new(alloc),
            chosen: 0,
            pages: Vec::new(alloc),
            is_loose: false,
            complaints: Vec::new(alloc),
        }
    }

    /// One was heard whose disk lacked some of its saves: of what is chosen nothing is promised.
    pub fn loosen(&mut self) {
        self.is_loose = true;
    }

    /// Whether nothing is promised of what is chosen.
    pub fn is_loose(&self) -> bool {
        self.is_loose
    }

    /// Something doesn't hold, if it is promised.
    pub fn complain(&mut self, text: String) {
        if !self.is_loose {
            self.accuse(text);
        }
    }

    /// Something doesn't hold that is promised in any run.
    pub fn accuse(&mut self, text: String) {
        if self.complaints.len() < MOST_COMPLAINTS {
            let _ = self.complaints.push(text);
        }
    }

    /// What doesn't hold.
    pub fn complaints(&self) -> &[String] {
        self.complaints.as_slice()
    }

    /// Of so many slots, the first ones, each is chosen.
    pub fn chosen_count(&self) -> u64 {
        self.chosen
    }

    /// In how many slots the value is chosen.
    pub fn count_of(&self, value: u64) -> usize {
        let mut count: usize = 0;
        for slot in self.slots.iter() {
            count = count.saturating_add(usize::from(slot.is_chosen(value)));
        }
        count
    }

    // There is a place for that slot.
    fn make_room(&mut self, at: usize) -> Result<(), AllocError> {
        for _ in self.slots.len()..at.saturating_add(1) {
            self.slots.push(Slot::new(self.alloc))?;
        }
        Ok(())
    }

    // Counts the slots that are chosen, up to the first that isn't.
    fn go_on(&mut self) {
        for at in self.chosen as usize..self.slots.len() {
            match self.slots.get(at) {
                Some(slot) if slot.chosen.is_some() => self.chosen = self.chosen.saturating_add(1),
                _ => return,
            }
        }
    }

    fn choose(&mut self, at: usize, note: Note) -> Result<(), AllocError> {
        let is_other = match self.slots.get_mut(at) {
            Some(slot) => slot.choose(note),
            None => false,
        };
        if is_other {
            let number = note.slot;
            self.complain(format!(in self.alloc; "slot {number} is chosen two ways")?);
        }
        self.go_on();
        Ok(())
    }

    /// The member at a place has saved a vote.
    pub fn note(&mut self, place: usize, note: Note) -> Result<(), AllocError> {
        let at = (note.slot as usize).saturating_sub(1);
        self.make_room(at)?;
        let came = match self.slots.get_mut(at) {
            Some(slot) => slot.cast(place, note)?,
            None => return Ok(()),
        };
        if came.is_other {
            let number = note.slot;
            self.complain(format!(in self.alloc; "slot {number}: one ballot, two values")?);
        }
        if came.voters > self.members / 2 {
            self.choose(at, note)?;
        }
        Ok(())
    }

    /// How many slots members have voted for.
    pub fn slots(&self) -> u64 {
        self.slots.len() as u64
    }

    // In how many slots the member at a place has saved a vote.
    fn count_saved(&self, place: usize) -> usize {
        let mut count: usize = 0;
        for slot in self.slots.iter() {
            count = count.saturating_add(usize::from(slot.has(place)));
        }
        count
    }

    // Looks at a vote that the disk of the member at a place has.
    fn check_kept(&mut self, place: usize, note: Note) -> Result<(), AllocError> {
        let at = (note.slot as usize).saturating_sub(1);
        let (is_last, differs) = match self.slots.get(at) {
            Some(slot) => (slot.ends_with(place, note), slot.differs(note)),
            None => (false, false),
        };
        let (member, number) = (place.saturating_add(1), note.slot);
        if !is_last {
            self.complain(format!(in self.alloc;
                "slot {number}: the disk of member {member} has another vote than it saved last"
            )?);
        }
        if differs {
            self.complain(format!(in self.alloc;
                "slot {number}: member {member} voted for another value than was chosen"
            )?);
        }
        Ok(())
    }

    /// The disk of the member at a place has these votes, which have to be those that it saved
    /// last, and none behind the chosen ones for another value.
    pub fn check_disk(&mut self, place: usize, notes: &[Note]) -> Result<(), AllocError> {
        for note in notes.iter() {
            self.check_kept(place, *note)?;
        }
        let (saved, kept) = (self.count_saved(place), notes.len());
        if saved != kept {
            let member = place.saturating_add(1);
            self.complain(format!(in self.alloc;
                "the disk of member {member} has {kept} votes of {saved} that it saved"
            )?);
        }
        Ok(())
    }

    // The page is that behind so many slots; whether another was.
    fn keep(&mut self, at: usize, page: u64) -> Result<bool, AllocError> {
        for _ in self.pages.len()..at.saturating_add(1) {
            self.pages.push(None)?;
        }
        match self.pages.get_mut(at) {
            Some(known) => Ok(known.replace(page).is_some_and(|earlier| earlier != page)),
            None => Ok(false),
        }
    }

    /// The member at a place shows the page of that digest behind so many slots.
    pub fn see(&mut self, place: usize, applied: u64, page: u64) -> Result<(), AllocError> {
        let (member, chosen) = (place.saturating_add(1), self.chosen);
        if applied > chosen {
            let text = format!(in self.alloc;
                "member {member} applied {applied} of {chosen} chosen"
            )?;
            self.complain(text);
        }
        if self.keep(applied as usize, page)? {
            let text = format!(in self.alloc; "member {member} shows another page at k={applied}")?;
            self.complain(text);
        }
        Ok(())
    }
}
