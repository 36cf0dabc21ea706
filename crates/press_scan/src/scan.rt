//! A text, taken step by step.
//!
//! With the same tags at each step a scan reads each byte a bounded number of times for each tag,
//! also where brackets and closing tags are missing: where no `]` is ahead no later place has a
//! shortcode, so the rest is taken at once; a name that has no closing tag is remembered with the
//! place from which it has none, and looked for no more. A step that stops in front of a shortcode
//! keeps it: it is the next one's, if its name is registered still. Where the tags change between
//! steps, each name that is new can cost one more search to the end of the text.

ghost use Rattle.std.specs.Prelude.{IsSome, IfSome, IfNone, ◌≡◌, ◌+◌, ◌-◌, ◌<◌, ◌≤◌, ◌++◌, ◌∷◌, ◌⊎◌, [], IsTrue, length, IfOk, OnOk, OnErr, IfErr, MatchResult, string_bytes, slice_range, Some, None, true, false, Option};
ghost use Rattle.std.specs.Str.{IsCharBoundary};
ghost use Rattle.press_scan.specs.Places.{At, IsFirst, NoneFrom, NoneBetween};
ghost use Rattle.press_scan.specs.Openings.{IsMade, IsOpening, IsNamed, HasEdges};
ghost use Rattle.press_scan.specs.Shortcodes.{IsNext, HasShortcode};
ghost use Rattle.press_scan.specs.Scans.{Progress, StepGives, PutGives, before, behind};
ghost use Rattle.press_scan.specs.Tags.{names_of};

use crate::missing::{Missing, shortcode_of};
use crate::next::{Opening, next_opening};
use crate::scan_step::ScanStep;
use crate::shortcode::Shortcode;
use crate::tag_table::TagTable;
use press_text::make_room;
use std::alloc::{AllocError, Global};
use std::marker::Model;

/// A scan of a text: the place up to which it is done, the output so far, and the shortcode whose
/// answer is awaited.
#[derive(Debug)]
pub struct Scan {
    text: String,
    at: usize,
    output: String,
    waiting: Option<Shortcode>,
    missing: Vec<Missing>,
    // What was found last: a shortcode of the text wherever its name is a tag.
    found: Option<Shortcode>,
    alloc: Global,
}

impl Drop for Scan {
    fn drop(self) {
        let Scan {
            text: _,
            at: _,
            output: _,
            waiting: _,
            missing: _,
            found: _,
            alloc: _,
        } = self;
    }
}

impl Model for Scan {
    ghost use Rattle.std.specs.Prelude.{◌≡◌, ◌≤◌, Some, string_bytes};
    ghost use Rattle.std.specs.Str.{IsCharBoundary};
    ghost use Rattle.press_scan.specs.declared.shortcode.Shortcode.{Shortcode};
    ghost use Rattle.press_scan.specs.Scans.{Progress};
    ghost use Rattle.press_scan.specs.Missing.{AreMissing};
    ghost use Rattle.press_scan.specs.Openings.{IsNamed};

    ghost Value = { Progress };

    ghost view = { λ s. record {
      text = string_bytes s.text;
      at = s.at;
      output = string_bytes s.output;
      waiting = s.waiting;
    } };

    ghost invariant = { λ s. IsCharBoundary (string_bytes s.text) s.at
        × AreMissing (string_bytes s.text) s.missing.items
        × ((w : Shortcode) → s.waiting ≡ Some w → IsCharBoundary (string_bytes s.text) w.end)
        × ((f : Shortcode) → s.found ≡ Some f → IsNamed (string_bytes s.text) f) };
}

// Adds a part of a text.
fn push_part(out: &mut String, text: &str, from: usize, to: usize) -> Result<(), AllocError>
    requires order { from ≤ to }
    requires from { IsCharBoundary text.now from }
    requires to { IsCharBoundary text.now to }
    ensures ok { OnOk result (string_bytes out.new ≡ string_bytes out.old
        ++ slice_range text.now from to) }
    ensures err { OnErr result (string_bytes out.new ≡ string_bytes out.old) }
{
    let part = &text[from..to];
    make_room(out, part.len())?;
    out.push_str(part)
}

fn front_bracket(shortcode: Shortcode) -> &'static str
    ensures { result.now ≡ before shortcode }
{
    if shortcode.lead { "[" } else { "" }
}

fn back_bracket(shortcode: Shortcode) -> &'static str
    ensures { result.now ≡ behind shortcode }
{
    if shortcode.tail { "]" } else { "" }
}

// An answer with the brackets that its shortcode leaves.
fn in_brackets(alloc: Global, shortcode: Shortcode, answer: &str) -> Result<String, AllocError>
    ensures { IfOk result (λ t. string_bytes t ≡ before shortcode
        ++ (answer.now ++ behind shortcode)) }
{
    let front = front_bracket(shortcode);
    let back = back_bracket(shortcode);
    format!(in alloc; "{front}{answer}{back}")
}

// Adds an answer. An empty one without brackets takes no memory. With brackets it is made first, so
// that after running out of memory nothing has changed.
fn push_answer(
    out: &mut String,
    alloc: Global,
    shortcode: Shortcode,
    answer: &str,
) -> Result<(), AllocError>
    ensures ok { OnOk result (string_bytes out.new ≡ string_bytes out.old
        ++ (before shortcode ++ (answer.now ++ behind shortcode))) }
    ensures err { OnErr result (string_bytes out.new ≡ string_bytes out.old) }
    ensures memory { OnErr result (0 < length (before shortcode
        ++ (answer.now ++ behind shortcode))) }
{
    if shortcode.lead || shortcode.tail {
        let piece = in_brackets(alloc, shortcode, answer)?;
        make_room(out, piece.len())?;
        return out.push_str(piece.as_str());
    }
    make_room(out, answer.len())?;
    out.push_str(answer)
}

// What the next shortcode is, without work.
fn stands(text: &str, tags: &TagTable, from: usize, shortcode: Shortcode)
    requires next { IsNext text.now (names_of tags.now) from shortcode }
    ensures edges { HasEdges text.now shortcode }
    ensures named { IsNamed text.now shortcode }
{}

// Whether a shortcode of the text is one under these tags.
fn is_registered(text: &str, tags: &TagTable, shortcode: Shortcode) -> bool
    requires { IsNamed text.now shortcode }
    ensures next { IsTrue result → IsNext text.now (names_of tags.now) shortcode.start shortcode }
    ensures edges { HasEdges text.now shortcode }
{
    tags.has(&text.as_bytes()[shortcode.tag.start..shortcode.tag.end])
}

// A text begins with a character.
fn begins_well(text: &str)
    ensures { IsCharBoundary text.now 0 }
{}

impl Scan {
    fn place(&self) -> usize
        ensures value { result ≡ self.now.at }
        ensures within { result ≤ length self.now.text }
    {
        self.at
    }

    fn end(&self) -> usize
        ensures { result ≡ length self.now.text }
    {
        self.text.len()
    }

    fn opening(&self, tags: &TagTable) -> Option<Opening>
        ensures none { IfNone result (NoneFrom (HasShortcode self.now.text (names_of tags.now))
            self.now.at) }
        ensures some { IfSome result (λ o. IsOpening self.now.text (names_of tags.now) self.now.at
            o × (o.head.tag.end ≤ length self.now.text) × (o.close < length self.now.text)) }
    {
        next_opening(self.text.as_bytes(), self.at, tags)
    }

    // The shortcode at the place, where it was found before and its name is registered.
    fn found_here(&self, tags: &TagTable) -> Option<Shortcode>
        ensures { IfSome result (λ s. (s.start ≡ self.now.at)
            × IsNext self.now.text (names_of tags.now) self.now.at s
            × HasEdges self.now.text s) }
    {
        match self.found {
            Some(shortcode) => {
                if shortcode.start == self.at
                    && is_registered(self.text.as_str(), tags, shortcode)
                {
                    Some(shortcode)
                } else {
                    None
                }
            }
            None => None,
        }
    }

    // The text up to a place, unchanged.
    fn take_front(&mut self, to: usize) -> Result<(), AllocError>
        requires order { self.old.at ≤ to }
        requires to { IsCharBoundary self.old.text to }
        requires waiting { self.old.waiting ≡ None }
        ensures ok { OnOk result (self.new ≡ record self.old {
          at = to;
          output = self.old.output
              ++ slice_range self.old.text self.old.at to;
        }) }
        ensures err { OnErr result (self.new ≡ self.old) }
    {
        push_part(&mut self.output, self.text.as_str(), self.at, to)?;
        self.at = to;
        Ok(())
    }

    // The text of an escape without its first and last byte.
    fn take_escape(&mut self, escape: Shortcode) -> Result<(), AllocError>
        requires order { escape.start + 2 ≤ escape.end }
        requires from { IsCharBoundary self.old.text (escape.start + 1) }
        requires to { IsCharBoundary self.old.text (escape.end - 1) }
        requires end { IsCharBoundary self.old.text escape.end }
        requires waiting { self.old.waiting ≡ None }
        ensures ok { OnOk result (self.new ≡ record self.old {
          at = escape.end;
          output = self.old.output ++ slice_range self.old.text (escape.start + 1) (escape.end
              - 1);
        }) }
        ensures err { OnErr result (self.new ≡ self.old) }
    {
        push_part(
            &mut self.output,
            self.text.as_str(),
            escape.start + 1,
            escape.end - 1,
        )?;
        self.at = escape.end;
        Ok(())
    }

    /// A scan at the start of a text, which takes no memory.
    pub fn new(alloc: Global, text: String) -> Scan
        ensures { result ≡ record {
          text = string_bytes text;
          at = 0;
          output = [];
          waiting = None;
        } }
    {
        begins_well(text.as_str());
        Scan {
            text,
            at: 0,
            output: String::new(alloc),
            waiting: None,
            missing: Vec::new(alloc),
            found: None,
            alloc,
        }
    }

    /// The text that is scanned.
    pub fn text(&self) -> &str
        ensures { result.now ≡ self.now.text }
    {
        self.text.as_str()
    }

    /// How many bytes the output has so far.
    pub fn len(&self) -> usize
        ensures { result ≡ length self.now.output }
    {
        self.output.len()
    }

    /// Takes the front up to the next shortcode, an escape, or the shortcode itself, under the tags
    /// that are registered now. A Text takes in at least one byte. If memory runs out, nothing has
    /// changed; at the end of the text none is taken. No answer may be awaited: `put` comes first.
    pub fn step(&mut self, tags: &TagTable) -> Result<ScanStep, AllocError>
        requires { self.old.waiting ≡ None }
        ensures steps { StepGives result (names_of tags.now) self.old self.new }
        ensures memory { OnErr result (self.old.at < length self.old.text) }
    {
        let end = self.end();
        if self.place() == end {
            return Ok(ScanStep::End);
        }
        if let Some(shortcode) = self.found_here(tags) {
            return self.take(tags, shortcode);
        }
        let opening = match self.opening(tags) {
            Some(opening) => opening,
            None => {
                self.take_front(end)?;
                return Ok(ScanStep::Text);
            }
        };
        let shortcode = self.shortcode_of(tags, opening)?;
        if self.place() < shortcode.start {
            self.take_front(shortcode.start)?;
            return Ok(ScanStep::Text);
        }
        self.take(tags, shortcode)
    }

    // The shortcode that an opening makes; the scan is as it was.
    fn shortcode_of(&mut self, tags: &TagTable, opening: Opening) -> Result<Shortcode, AllocError>
        requires opening { IsOpening self.old.text (names_of tags.now) self.old.at opening }
        requires within { (opening.head.tag.end ≤ length self.old.text)
            × (opening.close < length self.old.text) }
        ensures same { self.new ≡ self.old }
        ensures next { IfOk result (λ s. IsNext self.old.text (names_of tags.now) self.old.at s) }
        ensures edges { IfOk result (λ s. HasEdges self.old.text s) }
    {
        let shortcode = shortcode_of(self.text.as_bytes(), &mut self.missing, opening)?;
        stands(self.text.as_str(), tags, self.at, shortcode);
        self.found = Some(shortcode);
        Ok(shortcode)
    }

    // The shortcode at the place.
    fn take(&mut self, tags: &TagTable, shortcode: Shortcode) -> Result<ScanStep, AllocError>
        requires next { IsNext self.old.text (names_of tags.now) self.old.at shortcode }
        requires edges { HasEdges self.old.text shortcode }
        requires here { shortcode.start ≡ self.old.at }
        requires waiting { self.old.waiting ≡ None }
        ensures { StepGives result (names_of tags.now) self.old self.new }
    {
        if shortcode.is_escape() {
            self.take_escape(shortcode)?;
            Ok(ScanStep::Text)
        } else {
            self.waiting = Some(shortcode);
            Ok(ScanStep::Call(shortcode))
        }
    }

    /// Puts the answer to the call in its place, which is not scanned again. If memory runs out,
    /// nothing has changed. An empty answer without brackets takes none.
    pub fn put(&mut self, answer: &str) -> Result<(), AllocError>
        requires { IsSome self.old.waiting }
        ensures puts { PutGives result answer.now self.old self.new }
        ensures memory { OnErr result (IfSome self.old.waiting (λ s. 0 < length (before s
            ++ (answer.now ++ behind s)))) }
    {
        match self.waiting {
            Some(shortcode) => {
                push_answer(&mut self.output, self.alloc, shortcode, answer)?;
                self.at = shortcode.end;
                self.waiting = None;
                Ok(())
            }
            None => unreachable!(),
        }
    }

    /// The output.
    pub fn finish(self) -> String
        requires { (self.at ≡ length self.text) × (self.waiting ≡ None) }
        ensures { string_bytes result ≡ self.output }
    {
        let Scan {
            output,
            text: _,
            at: _,
            waiting: _,
            missing: _,
            found: _,
            alloc: _,
        } = self;
        output
    }
}
