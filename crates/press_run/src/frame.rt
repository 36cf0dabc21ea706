//! What a run has open.

ghost use Rattle.std.specs.Prelude.{◌≡◌, ◌+◌, ◌*◌, ◌<◌, ◌≤◌, ◌^◌, [], None, IfOk, OnOk, OnErr, IsSome, length, option_map, slice_get};
ghost use Rattle.press_run.specs.Run.{next_args, hook_call, next_call};
ghost use Rattle.press_run.specs.Frames.{IsOfHook, PutsAnswer, TakesAnswer, scan_with_answer, frame_with_answer};
ghost use Rattle.press_run.specs.declared.frame.Filtering.TheVariants.{Came};
ghost use Rattle.press_run.specs.Waiting.{with_atts};

use crate::counts::MOST_TURNS;
use crate::held::Held;
use crate::step::{Kind, Step};
use crate::texts;
use press_callbacks::CallIn;
use press_hooks::RunId;
use press_posts::Fire;
use press_scan::{Atts, FoldedAtts, Scan};
use press_text::{Items, Text, Texts};
use std::alloc::{AllocError, Global};
use std::mem;

/// More than the turns of any run.
pub const FUEL: u32 = MOST_TURNS + 1;

/// A callback, before it is opened or before its next turn.
#[derive(Drop)]
pub struct OpenCallback {
    /// How many more callbacks may be open within it.
    pub room: u32,
    /// How many turns it may begin.
    pub left: u32,
    pub place: Option<usize>,
    pub call: CallIn,
}

/// A run of a hook, before its next entry.
#[derive(Drop)]
pub struct OpenHook {
    /// How many more callbacks may be open within it.
    pub room: u32,
    /// How many entries it may call.
    pub left: u32,
    pub kind: Kind,
    pub run: RunId,
    pub args: Texts,
}

/// Actions, how many of them are done, and the answer when all are.
pub struct OpenFires {
    /// How many more callbacks may be open within it.
    pub room: u32,
    pub done: usize,
    pub fires: Items<Fire>,
    pub gives: Text,
}

impl Drop for OpenFires {
    fn drop(self) {
        let OpenFires {
            room: _,
            done: _,
            fires: _,
            gives: _,
        } = self;
    }
}

/// What becomes of the answer that a scan waits for.
#[derive(Drop)]
pub enum Filtering {
    /// It is put in its place.
    Off,
    /// It goes through the filter first, with this tag.
    Comes(Text),
    /// It has come, and now goes through the filter.
    Came { answer: Text, tag: Text },
}

/// A text with shortcodes, before its next piece.
pub struct OpenScan {
    /// How many more callbacks may be open within it.
    pub room: u32,
    pub scan: Scan,
    pub filtering: Filtering,
}

impl Drop for OpenScan {
    fn drop(self) {
        let OpenScan {
            room: _,
            scan: _,
            filtering: _,
        } = self;
    }
}

/// What a run has open, while it goes on or waits for an answer.
#[derive(Drop)]
pub enum Frame {
    Callback(Held<OpenCallback>),
    Hook(Held<OpenHook>),
    Fires(Held<OpenFires>),
    Scan(Held<OpenScan>),
}

impl OpenCallback {
    /// A callback on this call, before it is opened.
    pub fn on(call: CallIn) -> OpenCallback
        ensures { result.call ≡ call }
    {
        OpenCallback {
            room: 0,
            left: 0,
            place: None,
            call,
        }
    }

    /// One that is called for entry after entry of a hook. Takes no memory.
    pub fn of_hook(alloc: Global) -> OpenCallback
        ensures { IsOfHook result }
    {
        OpenCallback::on(CallIn {
            args: Texts::new(alloc),
            atts: Atts::from_vec(Vec::new(alloc)),
            content: Text::new(alloc),
            tag: Text::new(alloc),
            value: Text::new(alloc),
            last: Text::new(alloc),
            turn: 0,
        })
    }

    /// Is on the call of a hook's callback with these arguments.
    pub fn begin(&mut self, alloc: Global, args: Texts) -> Result<(), AllocError>
        requires { IsOfHook self.old }
        ensures call { OnOk result (self.new.call ≡ hook_call args) }
        ensures hook { IsOfHook self.new }
    {
        self.call.value = texts::first_text(alloc, &args)?;
        self.call.args = args;
        self.call.last = Text::new(alloc);
        self.call.turn = 0;
        Ok(())
    }

    /// Lets its arguments go, so that who else holds their list may change it in place. Its value
    /// and its last answer stay until the next callback begins.
    pub fn end(&mut self, alloc: Global)
        requires { IsOfHook self.old }
        ensures hook { IsOfHook self.new }
        ensures args { self.new.call.args ≡ [] }
    {
        self.call.args = Texts::new(alloc);
    }

    /// Goes on to the next turn with its value and its last answer, `skipped` ops further.
    pub fn further(&mut self, skipped: u16) -> Step
        requires { self.old.call.turn < 2 ^ 40 }
        ensures step { result ≡ Step.Goes }
        ensures next { self.new ≡ record self.old {
          call = next_call self.old.call self.old.call.value self.old.call.last skipped;
        } }
    {
        self.call.turn += 1 + skipped as usize;
        Step::Goes
    }

    pub fn with_value(&mut self, value: Text) -> Step
        requires { self.old.call.turn < 2 ^ 40 }
        ensures step { result ≡ Step.Goes }
        ensures next { self.new ≡ record self.old {
          call = next_call self.old.call value self.old.call.last 0;
        } }
    {
        self.call.value = value;
        self.further(0)
    }

    pub fn with_last(&mut self, last: Text) -> Step
        requires { self.old.call.turn < 2 ^ 40 }
        ensures step { result ≡ Step.Goes }
        ensures next { self.new ≡ record self.old {
          call = next_call self.old.call self.old.call.value last 0;
        } }
    {
        self.call.last = last;
        self.further(0)
    }

    /// Its attributes, folded. It has none from then on.
    pub fn fold_atts(&mut self, alloc: Global) -> FoldedAtts
        ensures atts { result ≡ self.old.call.atts }
        ensures rest { self.new ≡ with_atts self.old [] }
    {
        let none = Atts::from_vec(Vec::new(alloc));
        mem::replace(&mut self.call.atts, none).fold()
    }

    /// Gives it these attributes.
    pub fn unfold_atts(&mut self, alloc: Global, atts: FoldedAtts) -> Result<(), AllocError>
        ensures atts { OnOk result (self.new ≡ with_atts self.old atts) }
        ensures memory { OnErr result (64 < length atts) }
    {
        self.call.atts = atts.unfold(alloc)?;
        Ok(())
    }
}

impl OpenHook {
    /// The arguments of the next callback, after one has answered.
    pub fn take(&mut self, text: Text) -> Result<(), AllocError>
        ensures { OnOk result (self.new ≡ record self.old {
          args = next_args self.old.kind text self.old.args;
        }) }
    {
        texts::hand_on(self.kind, &mut self.args, text)
    }
}

impl OpenFires {
    /// The actions from the first on.
    pub fn new(room: u32, fires: Items<Fire>, gives: Text) -> OpenFires
        ensures begins { result ≡ record { room = room; done = 0; fires = fires; gives = gives } }
        ensures few { length fires < 2 ^ 64 }
    {
        let _count = fires.as_slice().len();
        OpenFires {
            room,
            done: 0,
            fires,
            gives,
        }
    }

    /// The next action, if one is left.
    pub fn next(&self) -> Option<&Fire>
        ensures fire { option_map (λ f. f.now) result ≡ slice_get self.now.fires self.now.done }
        ensures few { IsSome result → self.now.done + 1 < 2 ^ 64 }
    {
        self.fires.as_slice().get(self.done)
    }
}

impl OpenScan {
    /// Takes the answer that the scan waits for: that of a shortcode's callback, or the filter's.
    pub fn take(&mut self, text: Text) -> Result<(), AllocError>
        requires { IsSome self.old.scan.waiting }
        ensures taken { OnOk result (self.new ≡ scan_with_answer self.old.filtering self.old text) }
        ensures memory { OnErr result (PutsAnswer self.old.filtering) }
    {
        match mem::replace(&mut self.filtering, Filtering::Off) {
            Filtering::Comes(tag) => {
                self.filtering = Filtering::Came { answer: text, tag };
                Ok(())
            }
            Filtering::Off | Filtering::Came { .. } => self.scan.put(text.as_str()),
        }
    }

    /// The output of a scan that is at its end.
    pub fn finish(&mut self, alloc: Global) -> Result<Text, AllocError>
        requires end { self.old.scan.at ≡ length self.old.scan.text }
        requires waiting { self.old.scan.waiting ≡ None }
        ensures { IfOk result (λ t. t ≡ self.old.scan.output) }
    {
        let empty = Scan::new(alloc, String::new(alloc));
        let scan = mem::replace(&mut self.scan, empty);
        Text::from_string(scan.finish())
    }
}

impl Frame {
    /// Takes the answer that it waits for.
    pub fn take(&mut self, text: Text) -> Result<(), AllocError>
        requires { TakesAnswer self.old }
        ensures { OnOk result (self.new ≡ frame_with_answer self.old text) }
    {
        match self {
            Frame::Callback(callback) => {
                callback.with_last(text);
                Ok(())
            }
            Frame::Hook(run) => run.take(text),
            Frame::Fires(_) => Ok(()),
            Frame::Scan(scan) => scan.take(text),
        }
    }
}
