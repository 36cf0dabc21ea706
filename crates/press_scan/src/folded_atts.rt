//! Attributes that nobody reads for a while. A callback that waits holds them so, since many may
//! wait, one in another.

ghost use Rattle.std.specs.Prelude.{◌≡◌, ◌<◌, ◌^◌, IfOk, OnErr, length};
ghost use Rattle.press_scan.specs.AttributesOf.{attributes_of};
ghost use Rattle.press_scan.specs.Kept.{AreManyOf};

use crate::atts::Atts;
use crate::gathering::attributes;
use press_text::Text;
use std::alloc::{AllocError, Global};
use std::marker::Model;

/// Attributes that are folded, which contracts see as those attributes: many as the text that they
/// are of, others as they are.
pub struct FoldedAtts {
    folded: Folded,
}

#[derive(Drop)]
pub enum Folded {
    AsTheyAre(Atts),
    OfText(Box<Text>),
}

impl Drop for FoldedAtts {
    fn drop(self) {
        let FoldedAtts { folded: _ } = self;
    }
}

impl Model for FoldedAtts {
    ghost use Rattle.std.specs.Prelude.{List};
    ghost use Rattle.press_scan.specs.declared.att.Att.{Att};

    ghost Value = { List Att };

    ghost use Rattle.press_scan.specs.Folded.{folded_atts, IsFolded};

    ghost view = { λ f. folded_atts f.folded };

    ghost invariant = { λ f. IsFolded f.folded };
}

impl FoldedAtts {
    pub(crate) fn as_they_are(atts: Atts) -> FoldedAtts
        ensures { result ≡ atts }
    {
        FoldedAtts {
            folded: Folded::AsTheyAre(atts),
        }
    }

    pub(crate) fn of_text(text: Box<Text>) -> FoldedAtts
        requires { AreManyOf text.value (attributes_of text.value) }
        ensures { result ≡ attributes_of text.value }
    {
        FoldedAtts {
            folded: Folded::OfText(text),
        }
    }

    /// The attributes, to be read again. Takes memory for those alone that became a text, which are
    /// more than 64; the text is split anew.
    pub fn unfold(self, alloc: Global) -> Result<Atts, AllocError>
        ensures value { IfOk result (λ atts. atts ≡ self) }
        ensures memory { OnErr result (64 < length self) }
    {
        let FoldedAtts { folded } = self;
        match folded {
            Folded::AsTheyAre(atts) => Ok(atts),
            Folded::OfText(text) => attributes(alloc, text.as_str()),
        }
    }
}
