ghost use Rattle.std.specs.Prelude.{◌≡◌, Some};
ghost use Rattle.press_posts.specs.Kept.{keeps_order};
ghost use Rattle.press_posts.specs.PostChange.{is_due, edit_fault, status_after_move};
ghost use Rattle.press_posts.specs.Published.{dated_of};

use crate::draft::Draft;
use crate::fault::PostFault;
use crate::posts::Dated;
use crate::status::Status;
use press_text::{Copied, Moment, Text};
use std::alloc::{AllocError, Global};

/// A post as it is now, without its history.
#[derive(Debug)]
pub struct Post {
    pub id: u64,
    pub title: Text,
    pub content: Text,
    pub status: Status,
    pub date: Moment,
}

impl Drop for Post {
    fn drop(self) {
        let Post {
            id: _,
            title: _,
            content: _,
            status: _,
            date: _,
        } = self;
    }
}

/// A change of a post's status alone.
#[derive(Clone, Copy, Debug)]
pub enum Move {
    Trash,
    /// Out of the trash, to draft.
    Untrash,
    /// Where the post is future and its date isn't after this moment.
    PublishDue(Moment),
}

impl Post {
    /// Its position among the published posts, if it is one.
    pub(crate) fn to_dated(&self) -> Option<Dated>
        ensures { result ≡ dated_of (Some self.now) }
    {
        self.status.is_publish().then_some(Dated {
            date: self.date,
            id: self.id,
        })
    }

    /// Whether another in place of it stands among the published posts where it does.
    pub(crate) fn keeps_order(&self, other: &Post) -> bool
        ensures { result ≡ keeps_order (Some self.now) other.now }
    {
        self.status.is_publish()
            && other.status.is_publish()
            && self.date.seconds() == other.date.seconds()
            && self.id == other.id
    }

    /// Whether it is to be published at that moment.
    pub fn is_due(&self, now: Moment) -> bool
        ensures { result ≡ is_due now self.now }
    {
        self.status.is_future() && self.date.seconds() <= now.seconds()
    }

    /// Why an edit of it is refused, if it is.
    pub fn edit_fault(&self, draft: &Draft) -> Option<PostFault>
        ensures { result ≡ edit_fault draft.now self.now }
    {
        if self.status.is_trash() || draft.status.is_trash() {
            return Some(PostFault::IsTrashed);
        }
        if draft.is_too_long() {
            return Some(PostFault::TooLong);
        }
        None
    }

    /// The status that a move gives it; None where the move leaves it as it is.
    pub fn status_after_move(&self, to: Move) -> Result<Option<Status>, PostFault>
        ensures { result ≡ status_after_move to self.now }
    {
        let trashed = self.status.is_trash();
        match to {
            Move::Untrash if trashed => Ok(Some(Status::Draft)),
            Move::Untrash => Err(PostFault::NotTrashed),
            Move::Trash | Move::PublishDue(_) if trashed => Err(PostFault::IsTrashed),
            Move::Trash => Ok(Some(Status::Trash)),
            Move::PublishDue(now) if self.is_due(now) => Ok(Some(Status::Publish)),
            Move::PublishDue(_) => Ok(None),
        }
    }
}

impl Copied for Post {
    fn copy_in(&self, alloc: Global) -> Result<Post, AllocError> {
        Ok(Post {
            id: self.id,
            title: self.title.copy(alloc)?,
            content: self.content.copy(alloc)?,
            status: self.status,
            date: self.date,
        })
    }
}
