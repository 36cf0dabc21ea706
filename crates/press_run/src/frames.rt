ghost use Rattle.std.specs.Prelude.{◌≡◌, [], ◌∷◌, IfOk, OnErr, OnOk, MatchOption};
ghost use Rattle.press_run.specs.Waiting.{FirstHasManyAtts};

use crate::frame::Frame;
use crate::waiting::Waiting;
use std::alloc::{AllocError, Global};
use std::marker::Model;

/// The frames that wait, the innermost first.
pub struct Frames {
    frames: Vec<Waiting>,
}

impl Drop for Frames {
    fn drop(self) {
        let Frames { frames: _ } = self;
    }
}

impl Model for Frames {
    ghost use Rattle.std.specs.Prelude.{List, reverse};
    ghost use Rattle.press_run.specs.declared.frame.Frame.{Frame};

    ghost Value = { List Frame };

    ghost view = { λ f. reverse f.frames.items };
}

impl Frames {
    /// Takes no memory.
    pub fn new(alloc: Global) -> Frames
        ensures { result ≡ [] }
    {
        Frames {
            frames: Vec::new(alloc),
        }
    }

    pub fn push(&mut self, frame: Frame) -> Result<(), AllocError>
        ensures { OnOk result (self.new ≡ frame ∷ self.old) }
    {
        let alloc = *self.frames.allocator();
        self.frames.push(Waiting::new(alloc, frame))?;
        Ok(())
    }

    /// The innermost frame, where one waits. Takes memory for a callback with many attributes
    /// alone.
    pub fn pop(&mut self) -> Result<Option<Frame>, AllocError>
        ensures frame { IfOk result (λ o. MatchOption o ((self.old ≡ []) × (self.new ≡ []))
            (λ f. self.old ≡ f ∷ self.new)) }
        ensures memory { OnErr result (FirstHasManyAtts self.old) }
    {
        let alloc = *self.frames.allocator();
        match self.frames.pop() {
            Some(waiting) => Ok(Some(waiting.into_frame(alloc)?)),
            None => Ok(None),
        }
    }
}
