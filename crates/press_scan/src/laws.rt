//! Laws over the definitions.

ghost use Rattle.std.specs.Prelude.{◌≡◌, ◌↔◌, ◌<◌, ◌≤◌, ℕ, List, length, Option, Some, None};
ghost use Rattle.press_scan.specs.Places.{NoneFrom};
ghost use Rattle.press_scan.specs.Shortcodes.{IsShortcode, HasShortcode, IsNext};
ghost use Rattle.press_scan.specs.Attributes.{IsAttributes};
ghost use Rattle.press_scan.specs.FirstShortcode.{shortcode_from};
ghost use Rattle.press_scan.specs.AttributesOf.{attributes_of};
ghost use Rattle.press_scan.specs.declared.shortcode.Shortcode.{Shortcode};
ghost use Rattle.press_scan.specs.Parts.{HasParts};
ghost use Rattle.press_scan.specs.Tags.{names_of};
ghost use Rattle.press_scan.specs.declared.att.Att.{Att};

use crate::shortcode::Shortcode;
use crate::tag_table::TagTable;

/// A text and a place have at most one reading.
#[tactic(auto, using(crate::proofs::OneReading::one_reading))]
pub fn one_reading()
    ensures { (text : List ℕ) (tags : List (List ℕ)) (place : ℕ) (s t : Shortcode)
        → IsShortcode text tags place s → IsShortcode text tags place t → s ≡ t }
{}

/// A shortcode ends after its place, and within its text.
pub fn ends_within()
    ensures { (text : List ℕ) (tags : List (List ℕ)) (place : ℕ) (s : Shortcode)
        → IsShortcode text tags place s → (place < s.end) × (s.end ≤ length text) }
{}

/// The first shortcode as it is computed is the first by the relation; none is computed exactly
/// where no place has one.
pub fn computes_first()
    ensures some { (text : List ℕ) (tags : List (List ℕ)) (from : ℕ) (s : Shortcode)
        → (shortcode_from text tags from ≡ Some s) ↔ IsNext text tags from s }
    ensures none { (text : List ℕ) (tags : List (List ℕ)) (from : ℕ)
        → (shortcode_from text tags from ≡ None) ↔ NoneFrom (HasShortcode text tags) from }
{}

/// The attributes of a text are those that are computed, and what is computed is its attributes.
pub fn computes_attributes()
    ensures { (text : List ℕ) (atts : List Att) → IsAttributes text atts
        ↔ (atts ≡ attributes_of text) }
{}

/// A shortcode, its name, its attribute text and its content are cut between characters, so each is
/// a text.
pub fn has_parts(text: &str, tags: &TagTable, shortcode: Shortcode)
    requires { IsShortcode text.now (names_of tags.now) shortcode.start shortcode }
    ensures { HasParts text.now shortcode }
{}
