//! What a member answers, as bytes.

use press_http::HttpFault;
use press_member::Answer;
use press_operator::{refuse, refuse_by, refuse_for_now, tell_reply};
use press_page::Reply;
use std::alloc::Global;

/// What a member answers, with the reply for what it has taken.
pub fn tell_answer(
    alloc: Global,
    taken: &Reply,
    answer: &Answer,
    told: &mut Vec<u8>,
) -> Result<u16, HttpFault> {
    match answer {
        Answer::Taken => tell_reply(alloc, taken, told),
        Answer::Page(reply) => tell_reply(alloc, reply, told),
        Answer::NotYet => refuse_for_now(told),
        Answer::Nothing | Answer::Foreign => refuse(HttpFault::NotFound, told),
        Answer::Refused(fault) => refuse_by(*fault, told),
    }
}
