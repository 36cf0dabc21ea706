//! The store of promises and votes on a SQL database: three tables, and one statement on them for
//! each save, or one transaction.
#![tactic(auto)]

mod adopt;
mod begin;
mod block;
mod clearing;
mod count;
mod counting;
mod fault;
mod last;
mod load;
mod make;
mod marking;
mod meta;
mod migrate;
mod moving;
mod note;
mod notes;
mod noting;
mod ours;
mod owner;
mod rows;
mod save_vote;
mod sql_store;
mod starts;
mod statement;
mod tying;
mod version_1_rows;
mod vote;

pub use note::{MOST_NOTE, Note};
pub use notes::Notes;
pub use owner::{Owner, Tie};
pub use sql_store::SqlStore;
