//! A frame while it waits. A page may have dozens of callbacks open one in another, each with half
//! a million attributes.

ghost use Rattle.std.specs.Prelude.{◌≡◌, ◌<◌, IfOk, OnErr, length};
ghost use Rattle.press_run.specs.Waiting.{HasManyAtts, with_atts};
ghost use Rattle.press_run.specs.declared.frame.Frame.TheVariants as frame;

use crate::frame::{Frame, OpenCallback};
use crate::held::Held;
use press_scan::FoldedAtts;
use std::alloc::{AllocError, Global};
use std::marker::Model;

/// A frame that waits, which contracts see as that frame. A callback that waits holds many
/// attributes as the text that they are of, so that only those which run have room for each
/// attribute.
pub struct Waiting {
    stowed: Stowed,
}

#[derive(Drop)]
pub enum Stowed {
    Whole(Frame),
    /// A callback with no attributes, and those that it has.
    Folded(Held<OpenCallback>, FoldedAtts),
}

impl Drop for Waiting {
    fn drop(self) {
        let Waiting { stowed: _ } = self;
    }
}

impl Model for Waiting {
    ghost use Rattle.press_run.specs.Waiting.{frame_of};
    ghost use Rattle.press_run.specs.declared.frame.Frame.{Frame};

    ghost Value = { Frame };

    ghost view = { λ w. frame_of w.stowed };
}

impl Waiting {
    /// Takes no memory.
    pub fn new(alloc: Global, frame: Frame) -> Waiting
        ensures { result ≡ frame }
    {
        match frame {
            Frame::Callback(callback) => Waiting::of_callback(alloc, callback),
            other => Waiting {
                stowed: Stowed::Whole(other),
            },
        }
    }

    fn of_callback(alloc: Global, callback: Held<OpenCallback>) -> Waiting
        ensures { result ≡ frame.Callback callback }
    {
        if callback.has_many_atts() {
            return Waiting::fold(alloc, callback);
        }
        Waiting {
            stowed: Stowed::Whole(Frame::Callback(callback)),
        }
    }

    // Few callbacks come here, so the others have no room for it.
    #[inline(never)]
    fn fold(alloc: Global, mut callback: Held<OpenCallback>) -> Waiting
        ensures { result ≡ frame.Callback callback }
    {
        let atts = callback.fold_atts(alloc);
        Waiting {
            stowed: Stowed::Folded(callback, atts),
        }
    }

    /// The frame, to go on. Takes memory for a callback with many attributes alone.
    pub fn into_frame(self, alloc: Global) -> Result<Frame, AllocError>
        ensures frame { IfOk result (λ f. f ≡ self) }
        ensures memory { OnErr result (HasManyAtts self) }
    {
        let Waiting { stowed } = self;
        match stowed {
            Stowed::Whole(frame) => Ok(frame),
            Stowed::Folded(callback, atts) => unfold(alloc, callback, atts),
        }
    }
}

// The callback with these attributes.
#[inline(never)]
fn unfold(
    alloc: Global,
    mut callback: Held<OpenCallback>,
    atts: FoldedAtts,
) -> Result<Frame, AllocError>
    ensures frame { IfOk result (λ f. f ≡ frame.Callback (with_atts callback atts)) }
    ensures memory { OnErr result (64 < length atts) }
{
    callback.unfold_atts(alloc, atts)?;
    Ok(Frame::Callback(callback))
}
