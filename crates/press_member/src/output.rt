ghost use Rattle.std.specs.Prelude.{◌≡◌, []};

use press_node::NodeFault;
use press_page::Reply;
use press_wire::{MemberId, Message};
use std::alloc::Global;

/// What is said to whoever brought an input.
#[derive(Debug, Drop)]
pub enum Answer {
    /// Nobody waits for one.
    Nothing,
    /// The command waits to be chosen, the message was delivered, or the report is kept.
    Taken,
    /// The node refuses it.
    Refused(NodeFault),
    /// The member isn't ready yet.
    NotYet,
    /// It comes from a member that counts other members, or runs another kit.
    Foreign,
    Page(Reply),
}

impl Answer {
    /// Whether it was taken.
    pub fn is_taken(&self) -> bool {
        matches!(self, Answer::Taken)
    }
}

/// What an input brings.
#[derive(Debug, Drop)]
pub struct Outputs {
    pub answer: Answer,
    /// What goes to other members, in the order in which it was sent.
    pub messages: Vec<Message>,
    /// Who is asked how far it is.
    pub looks: Vec<MemberId>,
}

impl Outputs {
    /// An answer, and nothing else.
    pub(crate) fn only(alloc: Global, answer: Answer) -> Outputs
        ensures answer { result.answer ≡ answer }
        ensures messages { result.messages.items ≡ [] }
    {
        Outputs {
            answer,
            messages: Vec::new(alloc),
            looks: Vec::new(alloc),
        }
    }

    /// An answer, and messages.
    pub(crate) fn with(alloc: Global, answer: Answer, messages: Vec<Message>) -> Outputs
        ensures answer { result.answer ≡ answer }
        ensures messages { result.messages ≡ messages }
    {
        Outputs {
            answer,
            messages,
            looks: Vec::new(alloc),
        }
    }
}
