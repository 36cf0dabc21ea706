//! Commands and messages as bytes, and the types of messages: nodes, slots, ballots, votes.
//!
//! Each value and each message has one spelling, and no other bytes are read.
#![tactic(auto)]

mod ballot;
mod decode;
mod encode;
mod fault;
mod held;
mod kind;
mod laws;
mod member_id;
mod message;
mod read_message;
mod read_value;
mod reader;
mod round;
mod slot;
mod status;
mod vote;
mod votes;
mod write_message;
mod write_value;
mod writer;

pub use ballot::Ballot;
pub use decode::{decode_cmd, decode_msg};
pub use encode::{encode_cmd, encode_msg, is_command_too_long};
pub use fault::WireFault;
pub use laws::{
    messages_have_one_spelling, messages_read_back, values_have_one_spelling, values_read_back,
};
pub use member_id::{MOST_MEMBERS, MemberId};
pub use message::{Body, Message};
pub use round::{GREATEST_ROUND, Round};
pub use slot::{BLOCK_SLOTS, LAST_SLOT, Slot, is_first};
pub use vote::Vote;
pub use votes::{SlotVote, Votes};
