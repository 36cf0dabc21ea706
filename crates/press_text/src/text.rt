ghost use Rattle.std.specs.Prelude.{◌≡◌, ◌<◌, ◌≤◌, [], ◌+◌, ◌++◌, ◌==◌, length, string_bytes, OnOk, OnErr, IfOk};
ghost use Rattle.press_text.specs.Texts.{AppendsIfRoom, append_where, bytes_in, bytes_of};

use crate::growth::make_room;
use crate::short::{MOST, MOST_HERE, Short};
use std::alloc::{AllocError, Global};
use std::fmt::{Debug, Formatter, Write};
use std::marker::Model;
use std::rc::Rc;
use std::{fmt, mem};

#[derive(Drop)]
enum Held {
    Inline(Short<MOST>),
    Shared(Rc<Long>),
}

// A text past 22 bytes: in the block of its holders' count, or in a block of its own.
#[derive(Drop)]
enum Long {
    Here(Short<MOST_HERE>),
    Apart(String),
}

impl Long {
    fn as_str(&self) -> &str
        ensures { result.now ≡ bytes_in self.now }
    {
        match self {
            Long::Here(short) => short.as_str(),
            Long::Apart(string) => string.as_str(),
        }
    }

    // Appends, unless a text that lies here would grow past its block.
    fn push(&mut self, more: &str) -> Result<bool, AllocError>
        ensures { AppendsIfRoom result (bytes_in self.old) (bytes_in self.new) more.now }
    {
        match self {
            Long::Here(short) => Ok(push_short(short, more)),
            Long::Apart(string) => {
                make_room(string, more.len())?;
                string.push_str(more)?;
                Ok(true)
            }
        }
    }
}

impl Held {
    // Appends, unless the bytes have another holder or no room.
    fn push(&mut self, more: &str) -> Result<bool, AllocError>
        ensures { AppendsIfRoom result (bytes_of self.old) (bytes_of self.new) more.now }
    {
        match self {
            Held::Inline(short) => Ok(push_short(short, more)),
            Held::Shared(rc) => match Rc::get_mut(rc) {
                Some(own) => own.push(more),
                None => Ok(false),
            },
        }
    }
}

// Appends where there is room.
fn push_short<const N: usize>(short: &mut Short<N>, more: &str) -> bool
    requires { N < 256 }
    ensures { short.new ≡ append_where result short.old more.now }
{
    let fits = more.len() <= N - short.as_str().len();
    if fits {
        short.push(more);
    }
    fits
}

/// A text, which contracts see as its bytes.
///
/// Up to 22 bytes lie in the value itself; a longer text is shared by its copies, so that a copy
/// takes no memory at any length. A longer text takes one block, in which up to 111 bytes lie
/// beside the count of their holders. It takes a second one past that, and where it was made of a
/// String. An append to a text that is shared makes a text of its own.
pub struct Text {
    inside: Held,
    alloc: Global,
}

// Written out, so that a function that lets a text go calls this, and doesn't take the text apart
// itself.
impl Drop for Text {
    fn drop(self) {
        let Text {
            inside: _,
            alloc: _,
        } = self;
    }
}

impl Model for Text {
    ghost use Rattle.std.specs.Prelude.{ℕ, List};
    ghost use Rattle.press_text.specs.Texts.{bytes_of};

    ghost Value = { List ℕ };

    ghost view = { λ t. bytes_of t.inside };
}

impl Clone for Text {
    ghost is_clone = { λ t u. u ≡ t };

    fn clone(&self) -> Result<Text, AllocError> {
        self.copy(self.alloc)
    }
}

impl Debug for Text {
    fn fmt<W: Write>(&self, f: &mut Formatter<W>) -> fmt::Result {
        Debug::fmt(self.as_str(), f)
    }
}

impl Text {
    /// The empty text, which takes no memory.
    pub fn new(alloc: Global) -> Text
        ensures { result ≡ [] }
    {
        Text {
            inside: Held::Inline(Short::empty()),
            alloc,
        }
    }

    /// Takes memory past 22 bytes alone, and for no byte of the text.
    pub fn from_string(text: String) -> Result<Text, AllocError>
        ensures value { IfOk result (λ t. t ≡ string_bytes text) }
        ensures memory { OnErr result (22 < length (string_bytes text)) }
    {
        let alloc = *text.allocator();
        let inside = if text.len() <= MOST {
            Held::Inline(Short::from_str(text.as_str()))
        } else {
            Held::Shared(Rc::new(alloc, Long::Apart(text))?)
        };
        Ok(Text { inside, alloc })
    }

    /// Takes memory past 22 bytes alone.
    pub fn from_str(alloc: Global, text: &str) -> Result<Text, AllocError>
        ensures value { IfOk result (λ t. t ≡ text.now) }
        ensures memory { OnErr result (22 < length text.now) }
    {
        let inside = if text.len() <= MOST {
            Held::Inline(Short::from_str(text))
        } else {
            long_of(alloc, text, "")?
        };
        Ok(Text { inside, alloc })
    }

    /// Takes no memory where a text past 111 bytes has no other holder.
    pub fn into_string(self) -> Result<String, AllocError>
        ensures { IfOk result (λ s. string_bytes s ≡ self) }
    {
        let Text { inside, alloc } = self;
        match inside {
            Held::Inline(short) => String::from_str(alloc, short.as_str()),
            Held::Shared(mut rc) => {
                if let Some(Long::Apart(own)) = Rc::get_mut(&mut rc) {
                    return Ok(mem::replace(own, String::new(alloc)));
                }
                String::from_str(alloc, rc.as_ref().as_str())
            }
        }
    }

    /// One text behind another, made at once. Takes memory past 22 bytes alone.
    pub fn join(alloc: Global, first: &str, more: &str) -> Result<Text, AllocError>
        ensures value { IfOk result (λ t. t ≡ first.now ++ more.now) }
        ensures memory { OnErr result (22 < length first.now + length more.now) }
    {
        let inside = if first.len() <= MOST && more.len() <= MOST - first.len() {
            let mut short = Short::from_str(first);
            short.push(more);
            Held::Inline(short)
        } else {
            long_of(alloc, first, more)?
        };
        Ok(Text { inside, alloc })
    }

    pub fn as_str(&self) -> &str
        ensures { result.now ≡ self.now }
    {
        match &self.inside {
            Held::Inline(short) => short.as_str(),
            Held::Shared(rc) => rc.as_ref().as_str(),
        }
    }

    pub fn as_bytes(&self) -> &[u8]
        ensures { result.now ≡ self.now }
    {
        self.as_str().as_bytes()
    }

    /// How many bytes the text has.
    pub fn len(&self) -> usize
        ensures { result ≡ length self.now }
    {
        self.as_str().len()
    }

    pub fn is_empty(&self) -> bool
        ensures { result ≡ (length self.now == 0) }
    {
        self.len() == 0
    }

    /// Appends; if memory runs out the text stays as it was. To append nothing takes none.
    pub fn push_str(&mut self, more: &str) -> Result<(), AllocError>
        ensures ok { OnOk result (self.new ≡ self.old ++ more.now) }
        ensures err { OnErr result (self.new ≡ self.old) }
        ensures memory { OnErr result (0 < length more.now) }
    {
        if more.is_empty() {
            return Ok(());
        }
        if self.inside.push(more)? {
            return Ok(());
        }
        let inside = long_of(self.alloc, self.as_str(), more)?;
        self.inside = inside;
        Ok(())
    }

    /// Appends; an empty text then shares what the other holds. If memory runs out the text stays
    /// as it was. To append nothing takes none.
    pub fn push(&mut self, more: &Text) -> Result<(), AllocError>
        ensures ok { OnOk result (self.new ≡ self.old ++ more.now) }
        ensures err { OnErr result (self.new ≡ self.old) }
        ensures memory { OnErr result (0 < length more.now) }
    {
        if !self.is_empty() || more.is_empty() {
            return self.push_str(more.as_str());
        }
        *self = more.copy(self.alloc)?;
        Ok(())
    }

    /// A copy of the text, which takes no memory.
    pub fn copy(&self, alloc: Global) -> Result<Text, AllocError>
        ensures { IfOk result (λ t. t ≡ self.now) }
    {
        let inside = match &self.inside {
            Held::Inline(short) => Held::Inline(short.copy()),
            Held::Shared(rc) => Held::Shared(rc.clone()?),
        };
        Ok(Text { inside, alloc })
    }
}

// One text behind another, in the block of its count where that has room for both.
fn long_of(alloc: Global, first: &str, more: &str) -> Result<Held, AllocError>
    ensures { IfOk result (λ h. bytes_of h ≡ first.now ++ more.now) }
{
    if more.len() <= MOST_HERE && first.len() <= MOST_HERE - more.len() {
        let mut here = Short::from_str(first);
        here.push(more);
        return Ok(Held::Shared(Rc::new(alloc, Long::Here(here))?));
    }
    let mut apart = String::with_capacity(alloc, first.len() + more.len())?;
    apart.push_str(first)?;
    apart.push_str(more)?;
    Ok(Held::Shared(Rc::new(alloc, Long::Apart(apart))?))
}
