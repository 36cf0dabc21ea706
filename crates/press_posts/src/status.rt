ghost use Rattle.std.specs.Prelude.{◌≡◌};
ghost use Rattle.press_posts.specs.Transitions.{status_named, status_word};
ghost use Rattle.press_posts.specs.PostChange.{settle_status, is_trash, is_future, is_publish};

use press_text::Moment;

/// What a post is, to editors and readers (Post Status Transitions).
#[derive(Clone, Copy, Debug, PartialEq, Eq)]
pub enum Status {
    Publish,
    Future,
    Draft,
    Pending,
    Private,
    Trash,
}

impl Status {
    /// The status of that word.
    pub fn from_word(word: &str) -> Option<Status>
        ensures { result ≡ status_named word.now }
    {
        if word == "publish" {
            Some(Status::Publish)
        } else if word == "future" {
            Some(Status::Future)
        } else if word == "draft" {
            Some(Status::Draft)
        } else if word == "pending" {
            Some(Status::Pending)
        } else if word == "private" {
            Some(Status::Private)
        } else if word == "trash" {
            Some(Status::Trash)
        } else {
            None
        }
    }

    /// The word for it in the names of hooks.
    pub fn word(self) -> &'static str
        ensures { result.now ≡ status_word self }
    {
        match self {
            Status::Publish => "publish",
            Status::Future => "future",
            Status::Draft => "draft",
            Status::Pending => "pending",
            Status::Private => "private",
            Status::Trash => "trash",
        }
    }

    /// The status that a post of that date gets when this one is asked for.
    pub fn settle(self, date: Moment, now: Moment) -> Status
        ensures { result ≡ settle_status self date now }
    {
        match self {
            Status::Publish | Status::Future => {
                if now.seconds() < date.seconds() {
                    Status::Future
                } else {
                    Status::Publish
                }
            }
            other => other,
        }
    }

    pub fn is_trash(self) -> bool
        ensures { result ≡ is_trash self }
    {
        matches!(self, Status::Trash)
    }

    pub fn is_future(self) -> bool
        ensures { result ≡ is_future self }
    {
        matches!(self, Status::Future)
    }

    pub fn is_publish(self) -> bool
        ensures { result ≡ is_publish self }
    {
        matches!(self, Status::Publish)
    }
}
