//! What is counted.

/// How many of each there were.
#[derive(Clone, Copy)]
pub struct Tally {
    pub letters: u64,
    pub starts: u64,
    pub falls: u64,
    /// How often one was told that its disk lacks some of its saves.
    pub found: u64,
    /// The most questions that one member sent to another in one second.
    pub most_asked: u64,
    /// The most letters to others in one second of one member.
    pub most_sent: u64,
}

impl Tally {
    pub fn new() -> Tally {
        Tally {
            letters: 0,
            starts: 0,
            falls: 0,
            found: 0,
            most_asked: 0,
            most_sent: 0,
        }
    }

    /// A member sent so many letters in a second, and to each other so many questions.
    pub fn note_second(&mut self, letters: u64, asked: u64) {
        self.letters = self.letters.saturating_add(letters);
        self.most_sent = self.most_sent.max(letters);
        self.most_asked = self.most_asked.max(asked);
    }
}

/// What one member sent in the current second.
#[derive(Clone, Copy, Drop)]
pub struct Second {
    pub questions: u64,
    pub letters: u64,
    pub looks: u64,
    /// How many slots it had applied as the second began, and whether its store had failed.
    pub applied: u64,
    pub was_down: bool,
}

impl Second {
    /// A second that begins.
    pub fn new(applied: u64, was_down: bool) -> Second {
        Second {
            questions: 0,
            letters: 0,
            looks: 0,
            applied,
            was_down,
        }
    }

    /// A request goes out.
    pub fn count(&mut self, letters: u64, questions: u64, looks: u64) {
        self.letters = self.letters.saturating_add(letters);
        self.questions = self.questions.saturating_add(questions);
        self.looks = self.looks.saturating_add(looks);
    }
}
