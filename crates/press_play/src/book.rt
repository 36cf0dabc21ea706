//! What the callbacks of a play asked, one turn after the other, and the lines about it.

use press_callbacks::{CallIn, Turn};
use press_run::MOST_BYTES;
use press_text::{CallbackId, Text};
use std::alloc::{AllocError, Global};
use std::str;

// Where 32 callbacks are open, more than this many are callbacks of scripts: few built-in ones are
// nested.
const FEW_OPEN: usize = 8;

// A callback that was called.
#[derive(Drop)]
struct Called {
    id: CallbackId,
    // How many callbacks of scripts were open round it.
    depth: usize,
    // The place of the step that it came to.
    step: usize,
    // The bytes of its answer, once it has answered.
    answer: Option<usize>,
}

// What the machine was asked last.
#[derive(Drop)]
struct LastQuestion {
    // The bytes of the longest text that was passed on.
    longest: usize,
    echoes: bool,
    returns: bool,
}

// Which limit a play met.
#[derive(Clone, Copy)]
enum Bound {
    Steps,
    Text,
    Output,
    Scan,
    Open,
    OpenOrScan,
}

/// The callbacks of one play, in the order in which they were called.
pub struct Book {
    alloc: Global,
    called: Vec<Called>,
    // The places of those that are open, the innermost last.
    open: Vec<usize>,
    last: Option<LastQuestion>,
    // The bytes of all texts that could come into a scan.
    bytes: usize,
}

impl Drop for Book {
    fn drop(self) {
        let Book {
            alloc: _,
            called: _,
            open: _,
            last: _,
            bytes: _,
        } = self;
    }
}

fn longest(texts: &[Text]) -> usize {
    let mut most = 0;
    for text in texts {
        most = most.max(text.len());
    }
    most
}

fn name_of(id: &CallbackId) -> &str {
    str::from_utf8(id.as_bytes()).unwrap_or("")
}

fn step_line(alloc: Global, id: &CallbackId, step: usize, why: &str) -> Result<String, AllocError> {
    let name = name_of(id);
    format!(in alloc; "callback \"{name}\": script[{step}]: {why}")
}

/// That a step of a callback would make a text which is too long.
pub fn long_text(alloc: Global, id: Option<CallbackId>, step: usize) -> Result<String, AllocError> {
    let why = Bound::Text.words();
    match id {
        None => String::from_str(alloc, why),
        Some(id) => step_line(alloc, &id, step, why),
    }
}

impl Called {
    fn tell(&self, alloc: Global) -> Result<String, AllocError> {
        let name = name_of(&self.id);
        match self.answer {
            Some(bytes) => format!(in alloc; "\"{name}\" answers (length {bytes})\n"),
            None => format!(in alloc; "\"{name}\" does not answer\n"),
        }
    }
}

impl LastQuestion {
    fn of(turn: &Turn) -> LastQuestion {
        let longest = match turn {
            Turn::Go(text) | Turn::Shortcodes(text) | Turn::Publish(text) => text.len(),
            Turn::Echo(text) | Turn::Return(text) => text.len(),
            Turn::SetOption { value, .. } => value.len(),
            Turn::Schedule { arg, .. } => arg.len(),
            Turn::Apply { texts, .. } | Turn::Do { texts, .. } => longest(texts.as_slice()),
            _ => 0,
        };
        LastQuestion {
            longest,
            echoes: matches!(turn, Turn::Echo(_)),
            returns: matches!(turn, Turn::Return(_)),
        }
    }
}

impl Bound {
    fn words(self) -> &'static str {
        match self {
            Bound::Steps => "10000 steps are taken",
            Bound::Text => "a text would pass 1048576 bytes",
            Bound::Output => "the output would pass 1048576 bytes",
            Bound::Scan => "a text with its shortcodes answered would pass 1048576 bytes",
            Bound::Open => "a 33rd callback would be open",
            Bound::OpenOrScan => "a 33rd callback would be open, or a text pass 1048576 bytes",
        }
    }

    // Whether what was asked last was done before the limit was met.
    fn is_behind(self) -> bool {
        matches!(self, Bound::Scan | Bound::Open | Bound::OpenOrScan)
    }
}

impl Book {
    /// An empty book of a play whose arguments have that many bytes.
    pub fn new(alloc: Global, bytes: usize) -> Book {
        Book {
            alloc,
            called: Vec::new(alloc),
            open: Vec::new(alloc),
            last: None,
            bytes,
        }
    }

    fn innermost(&mut self) -> Option<&mut Called> {
        self.called.get_mut(*self.open.last()?)
    }

    /// What was asked last was done: a callback that returned is closed.
    pub fn settle(&mut self) {
        let Some(asked) = self.last.take() else {
            return;
        };
        if !asked.returns {
            return;
        }
        if let Some(called) = self.innermost() {
            called.answer = Some(asked.longest);
        }
        self.open.pop();
    }

    /// What a callback asks for on a call.
    pub fn note(&mut self, id: CallbackId, call: &CallIn, turn: &Turn) -> Result<(), AllocError> {
        self.settle();
        if call.turn == 0 {
            let depth = self.open.len();
            self.open.push(self.called.len())?;
            self.called.push(Called {
                id,
                depth,
                step: 0,
                answer: None,
            })?;
        }
        if let Some(called) = self.innermost() {
            called.step = call.turn;
        }
        let asked = LastQuestion::of(turn);
        self.bytes = self.bytes.saturating_add(asked.longest);
        self.last = Some(asked);
        Ok(())
    }

    // Which limit was met, but that of a step's text. By built-in callbacks alone few are open, and
    // no scan is longer than all texts together.
    fn bound(&self, is_spent: bool) -> Bound {
        let echoes = match &self.last {
            None => false,
            Some(asked) => asked.echoes,
        };
        if is_spent {
            Bound::Steps
        } else if echoes {
            Bound::Output
        } else if self.bytes < MOST_BYTES / 2 {
            Bound::Open
        } else if self.open.len() <= FEW_OPEN {
            Bound::Scan
        } else {
            Bound::OpenOrScan
        }
    }

    /// Which limit ended the play, and at which callback; whether no step is left is known to the
    /// machine.
    pub fn limit(&mut self, is_spent: bool) -> Result<String, AllocError> {
        let alloc = self.alloc;
        let bound = self.bound(is_spent);
        let why = bound.words();
        if bound.is_behind() {
            self.settle();
        }
        self.last = None;
        match self.innermost() {
            None => String::from_str(alloc, why),
            Some(called) => { step_line(alloc, &called.id, called.step, why) }
        }
    }

    /// A line for each callback that was called, after a prefix, the inner ones further to the
    /// right.
    pub fn trace(&self, front: &str) -> Result<String, AllocError> {
        let alloc = self.alloc;
        let mut lines = String::new(alloc);
        for called in self.called.as_slice() {
            lines.push_str(front)?;
            for _round in 0..called.depth {
                lines.push_str("  ")?;
            }
            let line = called.tell(alloc)?;
            lines.push_str(line.as_str())?;
        }
        Ok(lines)
    }
}
