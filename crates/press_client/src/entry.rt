use press_site::Token;
use press_text::Text;

/// What a node has applied, as its log tells it.
#[derive(Debug, Drop)]
pub enum LogEntry {
    /// A command: who gave it, its moment, and the text of its fields behind that of the moment, up
    /// to the end of its object.
    Command { token: Token, at: u64, fields: Text },
    /// A value without a command, which fills a slot.
    Filler { at: u64 },
}
