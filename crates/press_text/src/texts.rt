ghost use Rattle.std.specs.Prelude.{◌≡◌, ◌≢◌, [], ◌∷◌, length, IfOk, OnOk, OnErr};
ghost use Rattle.press_text.specs.Lists.{with_first};

use crate::copied::copy_all;
use crate::text::Text;
use std::alloc::{AllocError, Global};
use std::marker::Model;
use std::rc::Rc;
use std::slice;

#[derive(Debug, Drop)]
enum Inside {
    None,
    One(Text),
    Shared(Rc<Vec<Text>>),
}

/// A list of texts, which contracts see as that list.
///
/// One text lies in the value itself; a longer list is shared by its copies, so that a copy takes
/// no memory at any length.
#[derive(Debug)]
pub struct Texts {
    inside: Inside,
    alloc: Global,
}

impl Drop for Texts {
    fn drop(self) {
        let Texts {
            inside: _,
            alloc: _,
        } = self;
    }
}

impl Model for Texts {
    ghost use Rattle.std.specs.Prelude.{ℕ, List};
    ghost use Rattle.press_text.specs.Lists.{texts_in};

    ghost Value = { List (List ℕ) };

    ghost view = { λ t. texts_in t.inside };
}

impl Texts {
    /// The empty list, which takes no memory.
    pub fn new(alloc: Global) -> Texts
        ensures { result ≡ [] }
    {
        Texts {
            inside: Inside::None,
            alloc,
        }
    }

    /// The list of one text, which takes no memory.
    pub fn one(alloc: Global, text: Text) -> Texts
        ensures { result ≡ text ∷ [] }
    {
        Texts {
            inside: Inside::One(text),
            alloc,
        }
    }

    /// Takes memory for the counts of holders alone, and for a list of one text none.
    pub fn from_vec(mut texts: Vec<Text>) -> Result<Texts, AllocError>
        ensures value { IfOk result (λ t. t ≡ texts.items) }
        ensures memory { OnErr result (length texts.items ≢ 1) }
    {
        let alloc = *texts.allocator();
        if texts.len() == 1 {
            if let Some(text) = texts.pop() {
                return Ok(Texts::one(alloc, text));
            }
        }
        let inside = Inside::Shared(Rc::new(alloc, texts)?);
        Ok(Texts { inside, alloc })
    }

    pub fn as_slice(&self) -> &[Text]
        ensures { result.now ≡ self.now }
    {
        match &self.inside {
            Inside::None => &[],
            Inside::One(text) => slice::from_ref(text),
            Inside::Shared(rc) => rc.as_ref().as_slice(),
        }
    }

    /// A copy of the list, which takes no memory.
    pub fn copy(&self) -> Result<Texts, AllocError>
        ensures { IfOk result (λ t. t ≡ self.now) }
    {
        let inside = match &self.inside {
            Inside::None => Inside::None,
            Inside::One(text) => Inside::One(text.copy(self.alloc)?),
            Inside::Shared(rc) => Inside::Shared(rc.clone()?),
        };
        Ok(Texts {
            inside,
            alloc: self.alloc,
        })
    }

    /// Puts another text first. A list that nobody else holds is written in place; other holders
    /// keep theirs.
    pub fn set_first(&mut self, first: Text) -> Result<(), AllocError>
        ensures { OnOk result (self.new ≡ with_first first self.old) }
    {
        match &mut self.inside {
            Inside::None => {
                self.inside = Inside::One(first);
                Ok(())
            }
            Inside::One(text) => {
                *text = first;
                Ok(())
            }
            Inside::Shared(_) => self.set_first_shared(first),
        }
    }

    // The same of a list that may be shared. Out of line, since most lists have one text.
    #[inline(never)]
    fn set_first_shared(&mut self, first: Text) -> Result<(), AllocError>
        ensures { OnOk result (self.new ≡ with_first first self.old) }
    {
        if let Inside::Shared(rc) = &mut self.inside {
            if let Some(own) = Rc::get_mut(rc) {
                return put_first(own, first);
            }
        }
        let mut own = copy_all(self.alloc, self.as_slice())?;
        put_first(&mut own, first)?;
        *self = Texts::from_vec(own)?;
        Ok(())
    }
}

fn put_first(texts: &mut Vec<Text>, first: Text) -> Result<(), AllocError>
    ensures { OnOk result (texts.new.items ≡ with_first first texts.old.items) }
{
    if texts.is_empty() {
        texts.push(first)?;
    } else {
        texts[0] = first;
    }
    Ok(())
}
