//! Whether a schema is that of a store.

ghost use Rattle.std.specs.Prelude.{◌≡◌, [], ◌∷◌, codes, IsTrue};
ghost use Rattle.press_store.specs.Tables.{column_of, promise_columns, block_columns, vote_columns};
ghost use Rattle.press_store.specs.Tables.{start_columns, mark_columns, note_columns};
ghost use Rattle.press_store.specs.Tables.{promise, block_on, vote_on, meta_on, meta_key_on};
ghost use Rattle.press_store.specs.Tables.{start_on, mark_on, note_on, IsBareTable, IsKeyed};
ghost use Rattle.press_store.specs.Tables.{Fresh, Moved, FreshStarts, MovedStarts, schema_of};
ghost use Rattle.press_store.specs.Tables.{no_schema, old_schema};
ghost use Rattle.press_store.specs.Adopted.{has_table, is_half, IsOurs};

use sqlite_schema::schema::{Column, Index, Kind, Schema, Table};
use sqlite_value::keys::Collation;
use sqlite_value::value::{Bytes, Value};

fn is_named(name: &Bytes, wanted: &[u8]) -> bool
    ensures tells { IsTrue result → name.now ≡ wanted.now }
    ensures same { name.now ≡ wanted.now → IsTrue result }
{
    name.as_slice() == wanted
}

fn is_column(column: &Column, name: &[u8], kind: Kind, not_null: bool) -> bool
    ensures tells { IsTrue result → column.now ≡ column_of name.now kind not_null }
    ensures same { column.now ≡ column_of name.now kind not_null → IsTrue result }
{
    is_named(&column.name, name)
        && column.kind == kind
        && column.is_strict
        && column.not_null == not_null
        && matches!(column.default, Value::Null)
        && matches!(column.collation, Collation::Binary)
}

fn is_old_table(columns: &[Column]) -> bool
    ensures tells { IsTrue result → columns.now ≡ promise_columns }
    ensures same { columns.now ≡ promise_columns → IsTrue result }
{
    match columns {
        [slot, round, node, vround, vnode, value] => {
            is_column(slot, b"slot", Kind::Integer, false)
                && is_column(round, b"round", Kind::Integer, false)
                && is_column(node, b"node", Kind::Integer, false)
                && is_column(vround, b"vround", Kind::Integer, false)
                && is_column(vnode, b"vnode", Kind::Integer, false)
                && is_column(value, b"value", Kind::Blob, false)
        }
        _ => false,
    }
}

fn is_block_table(columns: &[Column]) -> bool
    ensures tells { IsTrue result → columns.now ≡ block_columns }
    ensures same { columns.now ≡ block_columns → IsTrue result }
{
    match columns {
        [first, round, node] => {
            is_column(first, b"first", Kind::Integer, false)
                && is_column(round, b"round", Kind::Integer, true)
                && is_column(node, b"node", Kind::Integer, true)
        }
        _ => false,
    }
}

fn is_vote_table(columns: &[Column]) -> bool
    ensures tells { IsTrue result → columns.now ≡ vote_columns }
    ensures same { columns.now ≡ vote_columns → IsTrue result }
{
    match columns {
        [slot, round, node, value] => {
            is_column(slot, b"slot", Kind::Integer, false)
                && is_column(round, b"round", Kind::Integer, true)
                && is_column(node, b"node", Kind::Integer, true)
                && is_column(value, b"value", Kind::Blob, true)
        }
        _ => false,
    }
}

fn is_meta_table(columns: &[Column]) -> bool
    ensures tells { IsTrue result → columns.now ≡ (meta_on 0).columns }
    ensures same { columns.now ≡ (meta_on 0).columns → IsTrue result }
{
    match columns {
        [name, n] => {
            is_column(name, b"name", Kind::Text, true) && is_column(n, b"n", Kind::Integer, true)
        }
        _ => false,
    }
}

fn is_start_table(columns: &[Column]) -> bool
    ensures tells { IsTrue result → columns.now ≡ start_columns }
    ensures same { columns.now ≡ start_columns → IsTrue result }
{
    match columns {
        [name, saves] => {
            is_column(name, b"name", Kind::Integer, false)
                && is_column(saves, b"saves", Kind::Integer, true)
        }
        _ => false,
    }
}

fn is_mark_table(columns: &[Column]) -> bool
    ensures tells { IsTrue result → columns.now ≡ mark_columns }
    ensures same { columns.now ≡ mark_columns → IsTrue result }
{
    match columns {
        [member, start, saves] => {
            is_column(member, b"member", Kind::Integer, false)
                && is_column(start, b"start", Kind::Integer, true)
                && is_column(saves, b"saves", Kind::Integer, true)
        }
        _ => false,
    }
}

fn is_note_table(columns: &[Column]) -> bool
    ensures tells { IsTrue result → columns.now ≡ note_columns }
    ensures same { columns.now ≡ note_columns → IsTrue result }
{
    match columns {
        [id, name, value] => {
            is_column(id, b"id", Kind::Integer, false)
                && is_column(name, b"name", Kind::Text, true)
                && is_column(value, b"value", Kind::Blob, true)
        }
        _ => false,
    }
}

// Whether the table has nothing but its columns and keys.
fn is_bare(table: &Table) -> bool
    ensures tells { IsTrue result → IsBareTable table.now }
    ensures same { IsBareTable table.now → IsTrue result }
{
    table.checks.roots.is_empty()
        && table.references.is_empty()
        && table.computed.is_empty()
        && table.stamps.places.is_empty()
        && table.stamps.terms.roots.is_empty()
        && table.stamps.formats.is_empty()
        && !table.is_counted
}

// Whether its first column is its key, and it has no other.
fn is_keyed(table: &Table) -> bool
    ensures tells { IsTrue result → IsKeyed table.now }
    ensures same { IsKeyed table.now → IsTrue result }
{
    matches!(table.key, Some(0))
        && matches!(table.primary.as_slice(), [0])
        && table.uniques.is_empty()
        && table.orders.is_empty()
        && is_bare(table)
}

fn is_promise(table: &Table) -> bool
    ensures tells { IsTrue result → table.now ≡ promise }
    ensures same { table.now ≡ promise → IsTrue result }
{
    is_named(&table.name, b"promise")
        && table.tree == 0
        && is_old_table(table.columns.as_slice())
        && is_keyed(table)
}

fn is_block(table: &Table, tree: u32) -> bool
    ensures tells { IsTrue result → table.now ≡ block_on tree }
    ensures same { table.now ≡ block_on tree → IsTrue result }
{
    is_named(&table.name, b"block")
        && table.tree == tree
        && is_block_table(table.columns.as_slice())
        && is_keyed(table)
}

fn is_vote(table: &Table, tree: u32) -> bool
    ensures tells { IsTrue result → table.now ≡ vote_on tree }
    ensures same { table.now ≡ vote_on tree → IsTrue result }
{
    is_named(&table.name, b"vote")
        && table.tree == tree
        && is_vote_table(table.columns.as_slice())
        && is_keyed(table)
}

fn is_first_place(places: &[usize]) -> bool
    ensures tells { IsTrue result → places.now ≡ 1 ∷ [] }
    ensures same { places.now ≡ 1 ∷ [] → IsTrue result }
{
    matches!(places, [1])
}

fn is_meta(table: &Table, tree: u32) -> bool
    ensures tells { IsTrue result → table.now ≡ meta_on tree }
    ensures same { table.now ≡ meta_on tree → IsTrue result }
{
    let [unique] = table.uniques.as_slice() else {
        return false;
    };
    let [order] = table.orders.as_slice() else {
        return false;
    };
    is_named(&table.name, b"meta")
        && table.tree == tree
        && is_meta_table(table.columns.as_slice())
        && table.key.is_none()
        && is_first_place(table.primary.as_slice())
        && is_first_place(unique.as_slice())
        && order.digits == 0
        && is_bare(table)
}

fn is_meta_key(index: &Index, tree: u32, table: u32) -> bool
    ensures tells { IsTrue result → index.now ≡ meta_key_on tree table }
    ensures same { index.now ≡ meta_key_on tree table → IsTrue result }
{
    is_named(&index.name, b"sqlite_autoindex_meta_1")
        && index.tree == tree
        && index.table == table
        && is_first_place(index.columns.as_slice())
        && index.order.digits == 0
        && index.is_unique
}

fn is_start(table: &Table, tree: u32) -> bool
    ensures tells { IsTrue result → table.now ≡ start_on tree }
    ensures same { table.now ≡ start_on tree → IsTrue result }
{
    is_named(&table.name, b"start")
        && table.tree == tree
        && is_start_table(table.columns.as_slice())
        && is_keyed(table)
}

fn is_mark(table: &Table, tree: u32) -> bool
    ensures tells { IsTrue result → table.now ≡ mark_on tree }
    ensures same { table.now ≡ mark_on tree → IsTrue result }
{
    is_named(&table.name, b"mark")
        && table.tree == tree
        && is_mark_table(table.columns.as_slice())
        && is_keyed(table)
}

fn is_note(table: &Table, tree: u32) -> bool
    ensures tells { IsTrue result → table.now ≡ note_on tree }
    ensures same { table.now ≡ note_on tree → IsTrue result }
{
    is_named(&table.name, b"note")
        && table.tree == tree
        && is_note_table(table.columns.as_slice())
        && is_keyed(table)
}

// Whether the tables are those of a new store, with nothing else.
fn is_fresh(schema: &Schema) -> bool
    ensures tells { IsTrue result → schema.now ≡ schema_of Fresh }
    ensures same { schema.now ≡ schema_of Fresh → IsTrue result }
{
    match (schema.tables.as_slice(), schema.indexes.as_slice()) {
        ([block, vote, meta], [key]) => {
            is_block(block, 0)
                && is_vote(vote, 1)
                && is_meta(meta, 2)
                && is_meta_key(key, 3, 2)
                && schema.views.is_empty()
        }
        _ => false,
    }
}

// The same behind the table of version 1.
fn is_moved(schema: &Schema) -> bool
    ensures tells { IsTrue result → schema.now ≡ schema_of Moved }
    ensures same { schema.now ≡ schema_of Moved → IsTrue result }
{
    match (schema.tables.as_slice(), schema.indexes.as_slice()) {
        ([promise, meta, block, vote], [key]) => {
            is_promise(promise)
                && is_meta(meta, 1)
                && is_block(block, 3)
                && is_vote(vote, 4)
                && is_meta_key(key, 2, 1)
                && schema.views.is_empty()
        }
        _ => false,
    }
}

// The tables of a new store, with those of starts behind them.
fn is_fresh_starts(schema: &Schema) -> bool
    ensures tells { IsTrue result → schema.now ≡ schema_of FreshStarts }
    ensures same { schema.now ≡ schema_of FreshStarts → IsTrue result }
{
    match (schema.tables.as_slice(), schema.indexes.as_slice()) {
        ([block, vote, meta, start, mark, note], [key]) => {
            is_block(block, 0)
                && is_vote(vote, 1)
                && is_meta(meta, 2)
                && is_start(start, 4)
                && is_mark(mark, 5)
                && is_note(note, 6)
                && is_meta_key(key, 3, 2)
                && schema.views.is_empty()
        }
        _ => false,
    }
}

// The same behind the table of version 1.
fn is_moved_starts(schema: &Schema) -> bool
    ensures tells { IsTrue result → schema.now ≡ schema_of MovedStarts }
    ensures same { schema.now ≡ schema_of MovedStarts → IsTrue result }
{
    match (schema.tables.as_slice(), schema.indexes.as_slice()) {
        ([promise, meta, block, vote, start, mark, note], [key]) => {
            is_promise(promise)
                && is_meta(meta, 1)
                && is_block(block, 3)
                && is_vote(vote, 4)
                && is_start(start, 5)
                && is_mark(mark, 6)
                && is_note(note, 7)
                && is_meta_key(key, 2, 1)
                && schema.views.is_empty()
        }
        _ => false,
    }
}

// Without the tables of starts.
fn is_plain(schema: &Schema) -> bool
    ensures tells { IsTrue result → IsOurs schema.now }
    ensures fresh { schema.now ≡ schema_of Fresh → IsTrue result }
    ensures moved { schema.now ≡ schema_of Moved → IsTrue result }
{
    is_fresh(schema) || is_moved(schema)
}

// With them.
fn is_counted(schema: &Schema) -> bool
    ensures tells { IsTrue result → IsOurs schema.now }
    ensures fresh { schema.now ≡ schema_of FreshStarts → IsTrue result }
    ensures moved { schema.now ≡ schema_of MovedStarts → IsTrue result }
{
    is_fresh_starts(schema) || is_moved_starts(schema)
}

/// Whether the tables are those of a store, with nothing else.
pub fn is_ours(schema: &Schema) -> bool
    ensures tells { IsTrue result → IsOurs schema.now }
    ensures same { IsOurs schema.now → IsTrue result }
{
    is_plain(schema) || is_counted(schema)
}

/// Whether the tables are those of version 1, with nothing else.
pub fn is_old(schema: &Schema) -> bool
    ensures tells { IsTrue result → schema.now ≡ old_schema }
    ensures same { schema.now ≡ old_schema → IsTrue result }
{
    match (schema.tables.as_slice(), schema.indexes.as_slice()) {
        ([promise, meta], [key]) => {
            is_promise(promise)
                && is_meta(meta, 1)
                && is_meta_key(key, 2, 1)
                && schema.views.is_empty()
        }
        _ => false,
    }
}

fn has_table(schema: &Schema, name: &[u8]) -> bool
    ensures { result ≡ has_table schema.now name.now }
{
    schema.table_named(name).is_some()
}

/// Whether some of the tables of a version are there without the others.
#[tactic(auto, unfolding(crate::specs::Adopted::is_half))]
pub fn is_half(schema: &Schema) -> bool
    ensures { result ≡ is_half schema.now }
{
    let has_block = has_table(schema, b"block");
    let has_vote = has_table(schema, b"vote");
    let has_meta = has_table(schema, b"meta");
    let has_old = has_table(schema, b"promise");
    let has_any = has_block || has_vote || has_meta || has_old;
    let has_all = has_block && has_vote && has_meta;
    let is_unmoved = has_old && has_meta && !(has_block || has_vote);
    has_any && !(has_all || is_unmoved)
}

/// Whether the tables of starts are there.
pub fn has_starts(schema: &Schema) -> bool
    ensures { result ≡ has_table schema.now (codes "start") }
{
    has_table(schema, b"start")
}

/// Whether there is a table of blocks.
pub fn has_block(schema: &Schema) -> bool {
    has_table(schema, b"block")
}

/// Whether the table of version 1 is there.
pub fn has_old(schema: &Schema) -> bool
    ensures { result ≡ has_table schema.now (codes "promise") }
{
    has_table(schema, b"promise")
}

/// Whether the schema is empty.
pub fn is_empty(schema: &Schema) -> bool
    ensures tells { IsTrue result → schema.now ≡ no_schema }
    ensures same { schema.now ≡ no_schema → IsTrue result }
{
    schema.tables.is_empty() && schema.indexes.is_empty() && schema.views.is_empty()
}
