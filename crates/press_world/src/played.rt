ghost use Rattle.std.specs.Prelude.{◌≡◌, Some};

use press_page::Reply;

/// The result of a step that was played.
#[derive(Debug)]
pub struct Played {
    /// The number of the node whose step it was.
    pub node: u64,
    /// The number of the first message that was sent; 0 where none was.
    pub first: u64,
    /// How many messages were sent.
    pub count: u64,
    /// Whether a stop cut it.
    pub stopped: bool,
    /// How many slots the node has applied since its start; 0 where it is down.
    pub applied: u64,
    /// The reply to a request for a page.
    pub reply: Option<Reply>,
}

impl Drop for Played {
    fn drop(self) {
        let Played {
            node: _,
            first: _,
            count: _,
            stopped: _,
            applied: _,
            reply: _,
        } = self;
    }
}

impl Played {
    /// The same with a reply.
    pub(crate) fn with_reply(self, reply: Reply) -> Played
        ensures { result ≡ record {
          node = self.node;
          first = self.first;
          count = self.count;
          stopped = self.stopped;
          applied = self.applied;
          reply = Some reply;
        } }
    {
        let Played {
            node,
            first,
            count,
            stopped,
            applied,
            reply: _,
        } = self;
        Played {
            node,
            first,
            count,
            stopped,
            applied,
            reply: Some(reply),
        }
    }
}
