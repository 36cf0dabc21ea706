use press_page::Target;

/// What is asked of a file.
#[derive(Debug, Drop)]
pub enum Task {
    /// A page of the site that its commands make.
    Page(Target),
    /// The transcript of its schedule.
    Replay,
    /// The same, of steps that come over sockets of the loopback.
    Loop,
}
