//! What the callbacks of plays do, as their closures note it: it is printed on standard error, and
//! nothing else depends on it.
//!
//! A play is watched where it asks to be traced. One that meets a limit is done a second time, and
//! then watched.

ghost use Rattle.std.specs.Prelude.{◌≡◌, IfOk};
ghost use Rattle.press_callbacks.specs.Turns.{turn_of};

use crate::book::{self, Book};
use press_callbacks::{CallIn, Script, Turn, script_turn};
use press_kit::Play;
use press_text::CallbackId;
use std::alloc::{AllocError, Global};
use std::cell::{Cell, RefCell};
use std::mem;
use std::rc::Rc;

// The plays of a file.
struct Plays {
    alloc: Global,
    file: String,
    // How many have ended.
    ended: usize,
    // The one that is watched; none while plays are done unwatched, or where memory was wanting.
    book: Option<Book>,
    // The lines.
    told: String,
}

impl Drop for Plays {
    fn drop(self) {
        let Plays {
            alloc: _,
            file: _,
            ended: _,
            book: _,
            told: _,
        } = self;
    }
}

impl Plays {
    fn begin(&mut self, play: &Play) {
        let mut bytes = 0usize;
        for arg in play.args.as_slice() {
            bytes = bytes.saturating_add(arg.len());
        }
        self.book = Some(Book::new(self.alloc, bytes));
    }

    fn note(&mut self, id: CallbackId, call: &CallIn, turn: &Turn) {
        let noted = match &mut self.book {
            None => Ok(()),
            Some(book) => book.note(id, call, turn),
        };
        if noted.is_err() {
            self.book = None;
        }
    }

    // The beginning of a line on the play.
    fn front(&self, what: &str) -> Result<String, AllocError> {
        let (file, n) = (self.file.as_str(), self.ended);
        format!(in self.alloc; "press_play: {what} in {file}: plays[{n}]: ")
    }

    fn limit(&mut self, is_spent: bool) -> Result<(), AllocError> {
        let Some(book) = &mut self.book else {
            return Ok(());
        };
        let why = book.limit(is_spent)?;
        self.tell_limit(why)
    }

    fn tell_limit(&mut self, why: String) -> Result<(), AllocError> {
        let mut line = self.front("limit")?;
        line.push_str(why.as_str())?;
        line.push_str("\n")?;
        self.told.push_str(line.as_str())
    }

    fn long_text(&mut self, id: Option<CallbackId>, step: usize) -> Result<(), AllocError> {
        let why = book::long_text(self.alloc, id, step)?;
        self.tell_limit(why)
    }

    fn trace(&mut self) -> Result<(), AllocError> {
        let front = self.front("trace")?;
        if let Some(book) = &mut self.book {
            book.settle();
            let lines = book.trace(front.as_str())?;
            self.told.push_str(lines.as_str())?;
        }
        Ok(())
    }

    fn end(&mut self) {
        self.book = None;
        self.ended = self.ended.saturating_add(1);
    }
}

/// Where the closures of a kit note what they ask. What can't be noted for lack of memory is left
/// out.
pub struct Journal {
    alloc: Global,
    // Whether a play is watched: a turn that nobody notes looks here alone.
    watches: Rc<Cell<bool>>,
    plays: Rc<RefCell<Plays>>,
}

impl Drop for Journal {
    fn drop(self) {
        let Journal {
            alloc: _,
            watches: _,
            plays: _,
        } = self;
    }
}

impl Journal {
    /// No play yet, of the file of that name.
    pub fn new(alloc: Global, name: &str) -> Result<Journal, AllocError> {
        let plays = Plays {
            alloc,
            file: String::from_str(alloc, name)?,
            ended: 0,
            book: None,
            told: String::new(alloc),
        };
        Ok(Journal {
            alloc,
            watches: Rc::new(alloc, Cell::new(false))?,
            plays: Rc::new(alloc, RefCell::new(plays))?,
        })
    }

    pub fn alloc(&self) -> Global {
        self.alloc
    }

    /// Leads to the same notes.
    pub fn copy(&self) -> Result<Journal, AllocError> {
        Ok(Journal {
            alloc: self.alloc,
            watches: self.watches.clone()?,
            plays: self.plays.clone()?,
        })
    }

    /// The turn of a callback's script on a call, which is noted where the play is watched.
    pub fn turn(&self, id: &CallbackId, script: &Script, call: &CallIn) -> Result<Turn, AllocError>
        ensures { IfOk result (λ t. t ≡ turn_of script.now call.now) }
    {
        let turned = script_turn(self.alloc, script, call);
        if self.watches.get() {
            if let Ok(turn) = &turned {
                self.note(id, call, turn);
            }
        }
        turned
    }

    // Out of line: what it needs room for is not cleared in a turn that nobody notes.
    #[inline(never)]
    fn note(&self, id: &CallbackId, call: &CallIn, turn: &Turn) {
        if let Ok(mut plays) = self.plays.try_borrow_mut() {
            plays.note(*id, call, turn);
        }
    }

    /// How many plays have ended.
    pub fn end_count(&self) -> usize {
        match self.plays.try_borrow() {
            Ok(plays) => plays.ended,
            Err(_) => 0,
        }
    }

    /// A play begins that is to be watched.
    pub fn begin(&self, play: &Play) {
        if let Ok(mut plays) = self.plays.try_borrow_mut() {
            plays.begin(play);
            self.watches.set(true);
        }
    }

    /// The plays that follow are not watched.
    pub fn rest(&self) {
        self.watches.set(false);
        if let Ok(mut plays) = self.plays.try_borrow_mut() {
            plays.book = None;
        }
    }

    /// The play met a limit; whether no step was left to it.
    pub fn limit(&self, is_spent: bool) {
        if let Ok(mut plays) = self.plays.try_borrow_mut() {
            let _ = plays.limit(is_spent);
        }
    }

    /// The play met a limit: this step of that callback would have made a text that is too long.
    pub fn long_text(&self, id: Option<CallbackId>, step: usize) {
        if let Ok(mut plays) = self.plays.try_borrow_mut() {
            let _ = plays.long_text(id, step);
        }
    }

    /// The play is done: it is traced, if it asks for that.
    pub fn end(&self, play: &Play) {
        self.watches.set(false);
        if let Ok(mut plays) = self.plays.try_borrow_mut() {
            if play.trace {
                let _ = plays.trace();
            }
            plays.end();
        }
    }

    /// Takes the lines so far.
    pub fn take_lines(&self, alloc: Global) -> String {
        match self.plays.try_borrow_mut() {
            Ok(mut plays) => mem::replace(&mut plays.told, String::new(alloc)),
            Err(_) => String::new(alloc),
        }
    }
}
