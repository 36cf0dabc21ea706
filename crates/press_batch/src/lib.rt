//! The bytes of what members of a cluster send each other in one request: how far the sender is,
//! what it recalls of both their starts, and messages.
//!
//! Each batch has one spelling, and no other bytes are read.
#![tactic(auto)]

mod batch;
mod batch_writer;
mod decode;
mod encode;
mod fault;
mod head;
mod laws;
mod pieces;
mod reader;
mod report;

pub use batch::Batch;
pub use batch_writer::BatchWriter;
pub use decode::{decode_batch, decode_head};
pub use encode::{encode_batch, encode_head};
pub use fault::BatchFault;
pub use head::Head;
pub use laws::{
    a_batch_reads_back, a_head_reads_back, a_last_message_is_spelled_last,
    batches_have_one_spelling, heads_have_one_spelling, what_is_refused_is_too_long,
};
pub use pieces::MOST_BATCH_BYTES;
pub use report::{Digests, Report};
