/// A server's place: by itself, or in a cluster.
#[derive(Clone, Copy, Debug)]
pub enum Role<'a> {
    /// A node by itself, which listens at a port of 127.0.0.1.
    Alone {
        port: u16,
    },
    /// The member of that number among those whose addresses the text names, with commas between;
    /// it listens at its own.
    Member {
        id: u8,
        peers: &'a str,
        /// Milliseconds after which it asks the others for what it may have missed.
        tick: u32,
    },
    /// The member of that number among those is new: its store is made, and nothing is served.
    NewMember {
        id: u8,
        peers: &'a str,
    },
}

/// What a server is to do.
#[derive(Clone, Copy, Debug)]
pub struct Setup<'a> {
    pub place: Role<'a>,
    /// How many connections are served; without it, as many as come until it is ended.
    pub turns: Option<u32>,
    /// The file of its store, which is in memory without one; a member has to have one.
    pub store: Option<&'a str>,
    /// The file of the page for editors.
    pub editor: Option<&'a str>,
    /// How many seconds a command may be ahead of the machine's clock.
    pub ahead: Option<u32>,
    /// Whether a member whose store has failed stays, and answers 503; another ends.
    pub stay: bool,
    /// Whether it tells whoever asks how it stands.
    pub status: bool,
    /// The digest of the bytes of its kit file; None for the demonstration kit.
    pub kit: Option<u64>,
}
