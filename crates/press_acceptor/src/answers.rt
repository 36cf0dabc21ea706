//! The acceptor's part of a node's event: the messages that answer one message.

ghost use Rattle.std.specs.Prelude.{◌≡◌, ◌≤◌, IfOk, OnErr};
ghost use Rattle.press_wire.specs.Ranges.{most_members};
ghost use Rattle.press_wire.specs.declared.vote.Vote.{Vote};
ghost use Rattle.press_acceptor.specs.Answers.{acceptor_answer, said_out, query_out};
ghost use Rattle.press_acceptor.specs.Messages as model;
ghost use Rattle.press_acceptor.specs.Plans.{answer_calls, answer_plan};
ghost use Rattle.press_acceptor.specs.Seen.{fault_in};
ghost use Rattle.press_acceptor.specs.Turned.{Says, Turned, store_move};
ghost use Rattle.press_acceptor.specs.declared.said.Said.TheVariants as says;

use crate::acceptor::Acceptor;
use crate::fault::StoreFault;
use crate::messages::{Heading, to_all, to_one};
use crate::said::Said;
use crate::store::PromiseStore;
use press_wire::{Ballot, Body, MemberId, Message, Slot};
use std::alloc::{AllocError, Global};

// Which node is asked, among so many members, about which slot, and by whom.
#[derive(Clone, Copy)]
struct Question {
    members: u8,
    id: MemberId,
    slot: Slot,
    asker: MemberId,
}

impl Question {
    fn about(self, slot: Slot) -> Question
        ensures { result
            ≡ record { members = self.members; id = self.id; slot = slot; asker = self.asker } }
    {
        Question {
            members: self.members,
            id: self.id,
            slot,
            asker: self.asker,
        }
    }

    // What is answered to who asked.
    fn reply(self, body: Body) -> Message
        ensures { result ≡ model.message_to self.id self.slot body self.asker }
    {
        Message {
            from: self.id,
            to: self.asker,
            slot: self.slot,
            body,
        }
    }
}

impl Acceptor {
    /// Answers a prepare request, an accept request or a query to the node `id`; other messages get
    /// no answer.
    ///
    /// What the messages say was saved before they are given. A fault leaves the store as it was
    /// before or after the save.
    pub fn answer<S: PromiseStore>(
        alloc: Global,
        store: &mut S,
        members: u8,
        id: MemberId,
        message: &Message,
    ) -> Result<Vec<Message>, StoreFault>
        requires { members ≤ most_members }
        ensures out { Says (answer_calls message.now.slot message.now.body) (λ out. out.items)
            (λ kept. (acceptor_answer members id kept message.now).out)
            (store_move S.seen store.old store.new) result }
        ensures turned { Turned (answer_plan members id message.now)
            (store_move S.seen store.old store.new) (fault_in result) }
    {
        let (asker, slot) = (message.from, message.slot);
        let asked = Question {
            members,
            id,
            slot,
            asker,
        };
        match &message.body {
            Body::Prepare { round } => {
                let ballot = Ballot {
                    round: *round,
                    node: asker,
                };
                let first = slot.first();
                let said = Acceptor::on_prepare(store, first, ballot)?;
                Ok(request_messages(alloc, asked.about(first), ballot, said)?)
            }
            Body::Accept { round, value } => {
                let ballot = Ballot {
                    round: *round,
                    node: asker,
                };
                let said = Acceptor::on_accept(alloc, store, slot, ballot, value)?;
                Ok(request_messages(alloc, asked, ballot, said)?)
            }
            Body::Query => {
                let said = Acceptor::on_query(store, slot)?;
                Ok(query_messages(alloc, asked, said)?)
            }
            Body::Promise { .. } | Body::Nack { .. } | Body::Accepted { .. } => Ok(Vec::new(alloc)),
        }
    }
}

// What is said to a prepare or accept request in the ballot.
fn request_messages(
    alloc: Global,
    asked: Question,
    ballot: Ballot,
    said: Said,
) -> Result<Vec<Message>, AllocError>
    requires { asked.members ≤ most_members }
    ensures { IfOk result (λ out. out.items
        ≡ said_out asked.members asked.id asked.slot ballot asked.asker said) }
{
    match said {
        Said::Promise(votes) => to_one(alloc, asked.reply(Body::Promise { ballot, votes })),
        Said::Nack(promised) => {
            let refused = ballot;
            to_one(alloc, asked.reply(Body::Nack { refused, promised }))
        }
        Said::Accepted(vote) => {
            let heading = Heading {
                from: asked.id,
                slot: asked.slot,
            };
            to_all(alloc, asked.members, heading, &Body::Accepted { vote })
        }
        Said::Nothing => Ok(Vec::new(alloc)),
    }
}

// What is said to a query.
fn query_messages(alloc: Global, asked: Question, said: Said) -> Result<Vec<Message>, AllocError>
    ensures out { IfOk result (λ out. out.items ≡ query_out asked.id asked.slot asked.asker said) }
    ensures memory { OnErr result ((vote : Vote) × (said ≡ says.Accepted vote)) }
{
    match said {
        Said::Accepted(vote) => to_one(alloc, asked.reply(Body::Accepted { vote })),
        Said::Promise(_) | Said::Nack(_) | Said::Nothing => Ok(Vec::new(alloc)),
    }
}
