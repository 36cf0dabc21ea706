/// The number after a name.
pub fn number_behind(name: &str, word: &str) -> Option<u32> {
    word.strip_prefix(name)?.parse().ok()
}

/// What happens to a node beside its connections.
#[derive(Clone, Copy, PartialEq, Eq)]
pub enum Turn {
    Wake,
    /// The oldest message that waits is delivered.
    Deliver,
    /// Messages are delivered until none waits.
    Settle,
    /// This many commands come.
    Fill(u32),
}

/// What is done to the nodes.
#[derive(Clone, Copy, PartialEq, Eq)]
pub enum Word<'w> {
    Turn(Turn),
    /// The node ends, and one starts over its store.
    Stop,
    /// This many commands come, each chosen before the next.
    Commands(u32),
    /// This many commands are applied to a site without a node.
    Applies(u32),
    /// The next file is served this many times.
    Serves(u32),
    /// Each front of a file is served, from none of its bytes to all but the last.
    Cuts(&'w str),
    /// A file is served, and each of its reads fails in turn.
    Reads(&'w str),
    /// A file is served, and each write of its reply fails in turn.
    Writes(&'w str),
    /// A file is served.
    File(&'w str),
}

impl<'w> Word<'w> {
    fn count_word(word: &'w str) -> Option<Word<'w>> {
        if let Some(count) = number_behind("fill=", word) {
            return Some(Word::Turn(Turn::Fill(count)));
        }
        if let Some(count) = number_behind("commands=", word) {
            return Some(Word::Commands(count));
        }
        if let Some(count) = number_behind("applies=", word) {
            return Some(Word::Applies(count));
        }
        if let Some(count) = number_behind("serves=", word) {
            return Some(Word::Serves(count));
        }
        None
    }

    fn name_word(word: &'w str) -> Option<Word<'w>> {
        if let Some(name) = word.strip_prefix("cuts=") {
            return Some(Word::Cuts(name));
        }
        if let Some(name) = word.strip_prefix("reads=") {
            return Some(Word::Reads(name));
        }
        let name = word.strip_prefix("writes=")?;
        Some(Word::Writes(name))
    }

    pub fn from_word(word: &'w str) -> Word<'w> {
        match word {
            "wake" => Word::Turn(Turn::Wake),
            "deliver" => Word::Turn(Turn::Deliver),
            "settle" => Word::Turn(Turn::Settle),
            "stop" => Word::Stop,
            _ => match Word::name_word(word) {
                Some(named) => named,
                None => Word::count_word(word).unwrap_or(Word::File(word)),
            },
        }
    }
}
