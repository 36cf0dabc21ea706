use press_site::Token;
use press_text::Text;

/// What a request asks of a site.
#[derive(Debug, Drop)]
pub enum Target {
    /// The newest published posts, ten at most.
    Front,
    /// The published post with that id.
    Post(u64),
    /// That post in JSON.
    Json(u64),
    /// The outcome of the command with that token, in JSON.
    Result(Token),
}

/// What a reply's body is.
#[derive(Clone, Copy, Debug, PartialEq, Eq)]
pub enum ContentKind {
    /// `text/html; charset=UTF-8`.
    Html,
    /// `application/json; charset=UTF-8`.
    Json,
    /// `text/plain; charset=UTF-8`.
    Text,
}

/// A status of HTTP with its body.
#[derive(Debug, Drop)]
pub struct Reply {
    pub status: u16,
    pub kind: ContentKind,
    pub body: Text,
}
