//! Fields that have to be there, or have a value where they are left out.

ghost use Rattle.std.specs.Prelude.{◌≢◌, Ok, Err, codes};
ghost use Rattle.std.specs.Cow.{cow_str_bytes};
ghost use Rattle.press_text.specs.Gives.{Gives};
ghost use Rattle.press_fields.specs.Commands.{date_at, kind_at, profile_at, status_at};
ghost use Rattle.press_fields.specs.Fields as spec;
ghost use Rattle.press_fields.specs.Memory.{GrowsBehind, GrowsPast};

use crate::fault::FieldFault;
use crate::lookup::Lookup;
use press_apply::CommandKind;
use press_posts::Status;
use press_text::{Moment, Name, NameFault, OptName, Text};
use std::alloc::Global;
use std::borrow::CowStr;

/// Reads fields. What can't be read is bad.
#[derive(Clone, Copy)]
pub struct Reader<'f, F> {
    pub alloc: Global,
    pub fields: &'f F,
}

impl<'f, F: Lookup> Reader<'f, F> {
    fn word(&self, name: &str) -> Result<CowStr<'f>, FieldFault>
        ensures gives { Gives spec.Refuses (λ word. Ok (cow_str_bytes word)) result
            (spec.text_at name.now (F.seen self.now.fields.now)) }
        ensures memory { F.lends self.now.fields.now name.now → result ≢ Err FieldFault.NoMemory }
    {
        match self.fields.text(name)? {
            Some(word) => Ok(word),
            None => Err(FieldFault::BadField),
        }
    }

    /// Beside looking it up, takes memory past 22 bytes alone.
    pub fn text(&self, name: &str) -> Result<Text, FieldFault>
        ensures gives { Gives spec.Refuses Ok result
            (spec.text_at name.now (F.seen self.now.fields.now)) }
        ensures memory { F.lends self.now.fields.now name.now → GrowsBehind result
            (spec.text_at name.now (F.seen self.now.fields.now)) }
        ensures long { F.lends self.now.fields.now name.now → GrowsPast 22 result
            (spec.text_at name.now (F.seen self.now.fields.now)) }
    {
        let word = self.word(name)?;
        Ok(Text::from_str(self.alloc, word.as_str())?)
    }

    /// The name of an editor or a plugin.
    pub fn name(&self, name: &str) -> Result<Name, FieldFault>
        ensures gives { Gives spec.Refuses Ok result
            (spec.name_at name.now (F.seen self.now.fields.now)) }
        ensures memory { F.lends self.now.fields.now name.now → GrowsBehind result
            (spec.name_at name.now (F.seen self.now.fields.now)) }
    {
        let word = self.word(name)?;
        match Name::new(self.alloc, word.as_str()) {
            Ok(name) => Ok(name),
            Err(NameFault::NoMemory) => Err(FieldFault::NoMemory),
            Err(NameFault::BadName | NameFault::TooLong) => Err(FieldFault::BadField),
        }
    }

    /// The name of an option.
    pub fn option(&self, name: &str) -> Result<OptName, FieldFault>
        ensures gives { Gives spec.Refuses Ok result
            (spec.name_at name.now (F.seen self.now.fields.now)) }
        ensures memory { F.lends self.now.fields.now name.now → GrowsBehind result
            (spec.name_at name.now (F.seen self.now.fields.now)) }
    {
        let word = self.word(name)?;
        match OptName::new(self.alloc, word.as_str()) {
            Ok(name) => Ok(name),
            Err(NameFault::NoMemory) => Err(FieldFault::NoMemory),
            Err(NameFault::BadName | NameFault::TooLong) => Err(FieldFault::BadField),
        }
    }

    pub fn number(&self, name: &str) -> Result<u64, FieldFault>
        ensures gives { Gives spec.Refuses Ok result
            (spec.number_at name.now (F.seen self.now.fields.now)) }
        ensures memory { F.lends self.now.fields.now name.now → result ≢ Err FieldFault.NoMemory }
    {
        match self.fields.number(name)? {
            Some(number) => Ok(number),
            None => Err(FieldFault::BadField),
        }
    }

    pub fn moment(&self, name: &str) -> Result<Moment, FieldFault>
        ensures gives { Gives spec.Refuses Ok result
            (spec.moment_at name.now (F.seen self.now.fields.now)) }
        ensures memory { F.lends self.now.fields.now name.now → result ≢ Err FieldFault.NoMemory }
    {
        let seconds = self.number(name)?;
        Moment::new(seconds).ok_or(FieldFault::BadField)
    }

    /// Draft, where none is given.
    pub fn status(&self) -> Result<Status, FieldFault>
        ensures gives { Gives spec.Refuses Ok result (status_at (F.seen self.now.fields.now)) }
        ensures memory { F.lends self.now.fields.now (codes "status")
            → result ≢ Err FieldFault.NoMemory }
    {
        match self.fields.text("status")? {
            None => Ok(Status::Draft),
            Some(word) => Status::from_word(word.as_str()).ok_or(FieldFault::BadField),
        }
    }

    /// The command's own moment, where none is given.
    pub fn date(&self, now: Moment) -> Result<Moment, FieldFault>
        ensures gives { Gives spec.Refuses Ok result (date_at now (F.seen self.now.fields.now)) }
        ensures memory { F.lends self.now.fields.now (codes "date")
            → result ≢ Err FieldFault.NoMemory }
    {
        match self.fields.number("date")? {
            None => Ok(now),
            Some(seconds) => Moment::new(seconds).ok_or(FieldFault::BadField),
        }
    }

    /// A profile: a number below 256.
    pub fn profile(&self) -> Result<u8, FieldFault>
        ensures gives { Gives spec.Refuses Ok result (profile_at (F.seen self.now.fields.now)) }
        ensures memory { F.lends self.now.fields.now (codes "profile")
            → result ≢ Err FieldFault.NoMemory }
    {
        let number = self.number("profile")?;
        u8::try_from(number).ok().ok_or(FieldFault::BadField)
    }

    pub fn kind(&self) -> Result<CommandKind, FieldFault>
        ensures gives { Gives spec.Refuses Ok result (kind_at (F.seen self.now.fields.now)) }
        ensures memory { F.lends self.now.fields.now (codes "kind")
            → result ≢ Err FieldFault.NoMemory }
    {
        let word = self.word("kind")?;
        CommandKind::from_word(word.as_str()).ok_or(FieldFault::BadField)
    }
}
