ghost use Rattle.std.specs.Prelude.{◌≡◌, IfOk, string_bytes};
ghost use Rattle.press_kit.specs.Places.{item_of, place_text};

use std::alloc::{AllocError, Global};

/// Where a file is bad. Lists are counted from 0.
#[derive(Clone, Copy, Debug, PartialEq, Eq)]
pub enum Place {
    /// The file as a whole: too long, no JSON, or no object of its keys.
    File,
    Callbacks,
    Callback(usize),
    /// A step of a callback's script.
    Op { callback: usize, op: usize },
    Plugins,
    Plugin(usize),
    Load { plugin: usize, load: usize },
    Active,
    ActiveName(usize),
    Commands,
    Command(usize),
    Pages,
    Page(usize),
    Plays,
    Play(usize),
    Steps,
    /// A step of a schedule.
    Step(usize),
}

impl Place {
    /// The place of an item of the list at this place.
    pub(crate) fn item(self, n: usize) -> Place
        ensures { result ≡ item_of self n }
    {
        match self {
            Place::File => Place::File,
            Place::Callbacks => Place::Callback(n),
            Place::Callback(callback) => Place::Op { callback, op: n },
            Place::Op { callback, op } => Place::Op { callback, op },
            Place::Plugins => Place::Plugin(n),
            Place::Plugin(plugin) => Place::Load { plugin, load: n },
            Place::Load { plugin, load } => Place::Load { plugin, load },
            Place::Active => Place::ActiveName(n),
            Place::ActiveName(name) => Place::ActiveName(name),
            Place::Commands => Place::Command(n),
            Place::Command(command) => Place::Command(command),
            Place::Pages => Place::Page(n),
            Place::Page(page) => Place::Page(page),
            Place::Plays => Place::Play(n),
            Place::Play(play) => Place::Play(play),
            Place::Steps => Place::Step(n),
            Place::Step(step) => Place::Step(step),
        }
    }

    /// The place as the file's author sees it: `callbacks[1].script[2]`.
    pub fn text(self, alloc: Global) -> Result<String, AllocError>
        ensures { IfOk result (λ t. string_bytes t ≡ place_text self) }
    {
        match self {
            Place::File => String::from_str(alloc, "file"),
            Place::Callbacks => String::from_str(alloc, "callbacks"),
            Place::Callback(n) => format!(in alloc; "callbacks[{n}]"),
            Place::Op { callback, op } => format!(in alloc; "callbacks[{callback}].script[{op}]"),
            Place::Plugins => String::from_str(alloc, "plugins"),
            Place::Plugin(n) => format!(in alloc; "plugins[{n}]"),
            Place::Load { plugin, load } => format!(in alloc; "plugins[{plugin}].load[{load}]"),
            Place::Active => String::from_str(alloc, "active"),
            Place::ActiveName(n) => format!(in alloc; "active[{n}]"),
            Place::Commands => String::from_str(alloc, "commands"),
            Place::Command(n) => format!(in alloc; "commands[{n}]"),
            Place::Pages => String::from_str(alloc, "pages"),
            Place::Page(n) => format!(in alloc; "pages[{n}]"),
            Place::Plays => String::from_str(alloc, "plays"),
            Place::Play(n) => format!(in alloc; "plays[{n}]"),
            Place::Steps => String::from_str(alloc, "steps"),
            Place::Step(n) => format!(in alloc; "steps[{n}]"),
        }
    }
}
