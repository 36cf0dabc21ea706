ghost use Rattle.std.specs.Prelude.{◌≡◌, IfOk};
ghost use Rattle.press_run.specs.Frames.{begun_as_step, opened_as_moved, begun_as_opened};

use crate::frame::{Frame, OpenCallback};
use crate::held::Held;
use press_text::Text;
use std::alloc::{AllocError, Global};

/// How a hook treats its callbacks' answers.
#[derive(Clone, Copy, Debug, PartialEq, Eq)]
pub enum Kind {
    /// Each answer is the next callback's first argument.
    Filter,
    /// Answers are ignored.
    Action,
}

/// What something begins with: a frame, or its answer at once.
#[derive(Drop)]
pub enum Begun {
    Opens(Frame),
    Gives(Text),
}

/// What a callback comes to where it is called.
#[derive(Drop)]
pub enum Opened {
    /// It has answered.
    Gives(Text),
    /// It is built in, and this is its frame.
    Opens(Frame),
    /// It waits for this frame.
    Waits(Frame),
}

/// What a step of a frame leaves.
#[derive(Drop)]
pub enum Step {
    /// It goes on.
    Goes,
    /// It waits for this frame.
    Opens(Frame),
    /// It waits for this text.
    Takes(Text),
    /// It has answered.
    Gives(Text),
}

/// What the innermost frame comes to.
#[derive(Drop)]
pub enum Moved {
    By(Step),
    /// It waits for the first frame, a callback's, which waits for the second.
    Calls(Frame, Frame),
}

impl Begun {
    /// The step of the frame that waits for it.
    pub fn into_step(self) -> Step
        ensures { result ≡ begun_as_step self }
    {
        match self {
            Begun::Opens(frame) => Step::Opens(frame),
            Begun::Gives(text) => Step::Takes(text),
        }
    }

    /// What a built-in callback comes to that begins with it.
    pub fn into_opened(self) -> Opened
        ensures { result ≡ begun_as_opened self }
    {
        match self {
            Begun::Opens(frame) => Opened::Opens(frame),
            Begun::Gives(text) => Opened::Gives(text),
        }
    }
}

impl Opened {
    /// What the frame comes to that waits for the callback. Takes memory where the callback waits.
    pub fn into_moved(self, alloc: Global, callback: OpenCallback) -> Result<Moved, AllocError>
        ensures { IfOk result (λ m. m ≡ opened_as_moved callback self) }
    {
        match self {
            Opened::Gives(text) => Ok(Moved::By(Step::Takes(text))),
            Opened::Opens(inner) => Ok(Moved::By(Step::Opens(inner))),
            Opened::Waits(inner) => {
                let held = Held::new(alloc, callback)?;
                Ok(Moved::Calls(Frame::Callback(held), inner))
            }
        }
    }
}
