ghost use Rattle.std.specs.Prelude.{◌≡◌, ◌<◌, IsTrue, ◌↔◌, Contains, [], false, true, IsOk, IfOk, OnOk, OnErr, length, map};
ghost use Rattle.std.specs.List.{list_any};
ghost use Rattle.press_text.specs.Names.{is_name};
ghost use Rattle.press_scan.specs.Tags.{is_tag, answered_by, add_tag, adds_tag, remove_tag, callback_of, names_of};

use crate::places::all_name_bytes;
use crate::tag_row::TagRow;
use press_text::{CallbackId, MOST_NAME, Text, copy_all};
use std::alloc::{AllocError, Global};
use std::marker::Model;

// How many tags a table holds at most.
const MOST_TAGS: usize = 128;

/// The registered tags in the order in which they were added, each with its callback
/// (`$shortcode_tags`). A name is 1 to 32 bytes of `[A-Za-z0-9_-]` in either case; there are at
/// most 128.
#[derive(Debug)]
pub struct TagTable {
    alloc: Global,
    rows: Vec<TagRow>,
}

impl Drop for TagTable {
    fn drop(self) {
        let TagTable { alloc: _, rows: _ } = self;
    }
}

impl Model for TagTable {
    ghost use Rattle.std.specs.Prelude.{List};
    ghost use Rattle.press_scan.specs.declared.tag_row.TagRow.{TagRow};

    ghost Value = { List TagRow };

    ghost view = { λ t. t.rows.items };
}

impl TagTable {
    /// A table without tags, which takes no memory until one is added.
    pub fn new(alloc: Global) -> TagTable
        ensures { result ≡ [] }
    {
        TagTable {
            alloc,
            rows: Vec::new(alloc),
        }
    }

    /// A copy of the table. Without a tag this takes no memory.
    pub fn copy(&self) -> Result<TagTable, AllocError>
        ensures same { IfOk result (λ t. t ≡ self.now) }
        ensures memory { OnErr result (0 < length self.now) }
    {
        if self.rows.is_empty() {
            return Ok(TagTable::new(self.alloc));
        }
        let rows = copy_all(self.alloc, self.rows.as_slice())?;
        Ok(TagTable {
            alloc: self.alloc,
            rows,
        })
    }

    /// Adds a tag; one that is registered gets the new callback and keeps its place, without memory
    /// (`add_shortcode`). False, and no change, where a new tag would be the 129th or is no name of
    /// a tag; that takes no memory.
    pub fn add(&mut self, tag: &str, callback: CallbackId) -> Result<bool, AllocError>
        ensures answer { IfOk result (λ b. b ≡ adds_tag tag.now self.old) }
        ensures tags { IfOk result (λ b. self.new ≡ add_tag tag.now callback self.old) }
        ensures refused { OnErr result (self.new ≡ self.old) }
        ensures full { adds_tag tag.now self.old ≡ false → IsOk result }
        ensures kept { list_any (is_tag tag.now) self.old ≡ true → IsOk result }
    {
        add_row(self.alloc, &mut self.rows, tag, callback)
    }

    /// Removes a tag; returns whether it was registered (`remove_shortcode`).
    pub fn remove(&mut self, tag: &str) -> bool
        ensures answer { result ≡ list_any (is_tag tag.now) self.old }
        ensures tags { self.new ≡ remove_tag tag.now self.old }
    {
        let stood = has_row(&self.rows, tag.as_bytes());
        remove_row(&mut self.rows, tag.as_bytes());
        stood
    }

    /// The callback of a tag.
    pub fn get(&self, tag: &str) -> Option<CallbackId>
        ensures { result ≡ callback_of tag.now self.now }
    {
        callback_of(&self.rows, tag.as_bytes())
    }

    /// Whether a tag is registered.
    pub fn has(&self, name: &[u8]) -> bool
        ensures { IsTrue result ↔ Contains (names_of self.now) name.now }
    {
        has_name(&self.rows, name)
    }
}

fn has_name(rows: &[TagRow], name: &[u8]) -> bool
    ensures { IsTrue result ↔ Contains (names_of rows.now) name.now }
{
    has_row(rows, name)
}

fn has_row(rows: &[TagRow], name: &[u8]) -> bool
    ensures { result ≡ list_any (is_tag name.now) rows.now }
{
    rows.iter().any(|r| r.is(name))
}

fn answer_row(rows: &mut [TagRow], name: &[u8], callback: CallbackId)
    ensures { rows.new ≡ map (answered_by name.now callback) rows.old }
{
    for r in rows.iter_mut() {
        r.answer_by(name, callback);
    }
}

fn remove_row(rows: &mut Vec<TagRow>, name: &[u8])
    ensures { rows.new.items ≡ remove_tag name.now rows.old.items }
{
    rows.retain(|r| !r.is(name));
}

fn callback_of(rows: &[TagRow], name: &[u8]) -> Option<CallbackId>
    ensures { result ≡ callback_of name.now rows.now }
{
    for r in rows {
        if r.is(name) {
            return Some(r.callback);
        }
    }
    None
}

fn is_tag_name(name: &[u8]) -> bool
    ensures { result ≡ is_name 32 name.now }
{
    0 < name.len() && name.len() <= MOST_NAME && all_name_bytes(name)
}

// Gives a registered tag its callback, or adds a new one if there is room.
fn add_row(
    alloc: Global,
    rows: &mut Vec<TagRow>,
    tag: &str,
    callback: CallbackId,
) -> Result<bool, AllocError>
    ensures answer { IfOk result (λ b. b ≡ adds_tag tag.now rows.old.items) }
    ensures tags { OnOk result (rows.new.items ≡ add_tag tag.now callback rows.old.items) }
    ensures refused { OnErr result (rows.new.items ≡ rows.old.items) }
    ensures full { adds_tag tag.now rows.old.items ≡ false → IsOk result }
    ensures kept { list_any (is_tag tag.now) rows.old.items ≡ true → IsOk result }
{
    if has_row(rows, tag.as_bytes()) {
        answer_row(rows, tag.as_bytes(), callback);
        return Ok(true);
    }
    if rows.len() >= MOST_TAGS || !is_tag_name(tag.as_bytes()) {
        return Ok(false);
    }
    let name = Text::from_str(alloc, tag)?;
    rows.push(TagRow { name, callback })?;
    Ok(true)
}
