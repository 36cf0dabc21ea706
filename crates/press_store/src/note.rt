//! What a file notes beside its saves.

ghost use Rattle.std.specs.Prelude.{◌≡◌, pos};
ghost use Rattle.sqlite.specs.Value.{owned};
ghost use Rattle.sqlite.specs.declared.types.Value.TheVariants.{Int, Text};
ghost use Rattle.press_store.specs.Noted.{id_of, name_of};

use crate::marking::name_value;
use sqlite::types::ValueRef;

/// As many bytes as a value of a database has at most, by the public limits of SQLite.
pub const MOST_NOTE: usize = 1_000_000_000;

/// What a file notes beside its saves.
#[derive(Debug, Clone, Copy, PartialEq, Eq)]
pub enum Note {
    Kit,
    Parts,
    Peers,
    Alone,
}

// Its id, and its name for whoever reads the file by other means.
fn row_of(which: Note) -> (u8, &'static [u8])
    ensures id { result.0 ≡ id_of which }
    ensures name { result.1.now ≡ name_of which }
{
    match which {
        Note::Kit => (1, b"kit"),
        Note::Parts => (2, b"parts"),
        Note::Peers => (3, b"peers"),
        Note::Alone => (4, b"alone"),
    }
}

pub fn id_value<'a>(which: Note) -> ValueRef<'a>
    ensures { owned result ≡ Int (pos (id_of which)) }
{
    let (id, _) = row_of(which);
    ValueRef::Int(i64::from(id))
}

pub fn noted_name<'a>(which: Note) -> ValueRef<'a>
    ensures { owned result ≡ Text (name_of which) }
{
    let (_, name) = row_of(which);
    name_value(name)
}
