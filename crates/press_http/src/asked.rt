use press_apply::Stamped;
use press_page::Target;
use press_wire::Message;

/// What a request asks for.
#[derive(Debug, Drop)]
pub enum Asked {
    /// A page of the site, or a reply in JSON.
    Page(Target),
    /// That a command be queued.
    Command(Stamped),
    /// That a message of a peer be delivered.
    Peer(Message),
}
