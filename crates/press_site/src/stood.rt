ghost use Rattle.std.specs.Prelude.{◌≡◌, Some, None};
ghost use Rattle.press_site.specs.Back.{MayPostGoBack, option_back, post_back};

use crate::changed::Changed;
use crate::content::Content;
use crate::options::Options;
use crate::plugins::Plugins;
use press_events::Shift;
use press_posts::Post;
use press_text::{OptName, Text};

/// What stood before one change: a post at its id's place, or None before it was inserted; an
/// option's value, or None before it was added.
#[derive(Debug, Drop)]
pub enum Stood {
    OfPost { id: u64, post: Option<Post> },
    OfOption { name: OptName, value: Option<Text> },
}

impl Stood {
    /// Puts it back. Takes no memory.
    pub fn put_back(self, content: &mut Content, options: &mut Options)
        requires { MayPostGoBack self content.old.posts }
        ensures posts { content.new ≡ record content.old
            { posts = post_back self content.old.posts } }
        ensures options { options.new ≡ option_back self options.old }
    {
        match self {
            Stood::OfPost { id, post } => content.restore(id, post),
            Stood::OfOption { name, value } => options.restore(&name, value),
        }
    }
}

/// What a change is taken back with: what stood at the place of one, the way back of the events,
/// and the active plugins and the profile that stood.
#[derive(Debug, Drop)]
pub struct Undone {
    pub stood: Option<Stood>,
    pub shift: Option<Shift>,
    pub active: Option<Plugins>,
    pub profile: Option<u8>,
}

impl Undone {
    /// Of a post or an option, and the events beside it.
    pub fn of(stood: Stood, shift: Option<Shift>) -> Undone
        ensures { result ≡ record
            { stood = Some stood; shift = shift; active = None; profile = None } }
    {
        Undone {
            stood: Some(stood),
            shift,
            active: None,
            profile: None,
        }
    }

    /// Of events alone.
    pub fn of_events(shift: Option<Shift>) -> Undone
        ensures { result ≡ record
            { stood = None; shift = shift; active = None; profile = None } }
    {
        Undone {
            stood: None,
            shift,
            active: None,
            profile: None,
        }
    }

    /// Of active plugins.
    pub fn of_active(active: Plugins) -> Undone
        ensures { result ≡ record
            { stood = None; shift = None; active = Some active; profile = None } }
    {
        Undone {
            stood: None,
            shift: None,
            active: Some(active),
            profile: None,
        }
    }

    /// Of the profile.
    pub fn of_profile(profile: u8) -> Undone
        ensures { result ≡ record
            { stood = None; shift = None; active = None; profile = Some profile } }
    {
        Undone {
            stood: None,
            shift: None,
            active: None,
            profile: Some(profile),
        }
    }
}

/// A change that is done.
#[derive(Debug, Drop)]
pub struct Done {
    pub changed: Changed,
    pub undone: Undone,
}
