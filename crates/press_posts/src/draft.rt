ghost use Rattle.std.specs.Prelude.{◌≡◌, IfOk};
ghost use Rattle.press_posts.specs.PostChange.{is_too_long, post_of};

use crate::post::Post;
use crate::status::Status;
use press_text::{Moment, Text};
use std::alloc::{AllocError, Global};

const MOST_TITLE: usize = 1024;

const MOST_CONTENT: usize = 65_536;

/// What a post is to be (the fields of `wp_insert_post`).
#[derive(Debug)]
pub struct Draft {
    pub title: Text,
    pub content: Text,
    pub status: Status,
    pub date: Moment,
}

impl Drop for Draft {
    fn drop(self) {
        let Draft {
            title: _,
            content: _,
            status: _,
            date: _,
        } = self;
    }
}

impl Draft {
    /// A copy of it.
    pub fn copy(&self, alloc: Global) -> Result<Draft, AllocError>
        ensures { IfOk result (λ d. d ≡ self.now) }
    {
        Ok(Draft {
            title: self.title.copy(alloc)?,
            content: self.content.copy(alloc)?,
            status: self.status,
            date: self.date,
        })
    }

    /// The post of that id that it gives at a moment.
    pub fn post(self, id: u64, now: Moment) -> Post
        ensures { result ≡ post_of id self now }
    {
        let Draft {
            title,
            content,
            status,
            date,
        } = self;
        Post {
            id,
            title,
            content,
            status: status.settle(date, now),
            date,
        }
    }

    /// Whether its title or its content is longer than a post may have it.
    pub fn is_too_long(&self) -> bool
        ensures { result ≡ is_too_long self.now }
    {
        self.title.len() > MOST_TITLE || self.content.len() > MOST_CONTENT
    }
}
