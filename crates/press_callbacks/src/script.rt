use press_scan::{AttKey, Atts};
use press_text::{CallbackId, Every, HookName, Items, OptName, Text, Texts};

/// What a part of a text is read from. A missing argument or attribute is the empty text.
#[derive(Debug, Drop)]
pub enum Source {
    /// The argument at a place, counted from 0.
    Arg(usize),
    /// The attribute of that key.
    Att(AttKey),
    /// The text between the shortcode and its closing tag.
    Content,
    /// The name of the shortcode.
    Tag,
    /// The value so far.
    Value,
    /// The last answer of the machine.
    Last,
}

/// A piece of a text that a script makes.
#[derive(Debug, Drop)]
pub enum Part {
    /// This very text.
    Lit(Text),
    /// What is read there, as it is.
    Raw(Source),
    /// What is read there, with `&`, `<`, `>`, `"` and `'` written as entities (`esc_html`,
    /// `esc_attr`).
    Escaped(Source),
}

/// A text, as the concatenation of its parts.
pub type Parts = Items<Part>;

/// What a callback may ask of the machine.
#[derive(Debug, Drop)]
pub enum Ask {
    /// How often the action was started, in decimal (`did_action`).
    Did(HookName),
    /// `1` while the hook is running, else empty (`doing_filter`).
    Doing(HookName),
    /// The least priority of the callback on the hook in decimal, or empty (`has_filter`).
    Has(HookName, CallbackId),
    /// The option's value, or empty (`get_option`).
    Option(OptName),
    /// `1` where the tag is registered, else empty (`shortcode_exists`).
    Tag(Text),
}

/// One step of a script.
#[derive(Debug, Drop)]
pub enum Op {
    /// The text is the value from now on.
    Set(Parts),
    /// Puts a callback on a hook (`add_filter`).
    AddHook {
        hook: HookName,
        callback: CallbackId,
        priority: i64,
        accepted: u32,
    },
    /// Takes a callback of that priority off a hook (`remove_filter`).
    RemoveHook {
        hook: HookName,
        callback: CallbackId,
        priority: i64,
    },
    /// Takes all callbacks of a priority off a hook, or all there are (`remove_all_filters`).
    RemoveAll {
        hook: HookName,
        priority: Option<i64>,
    },
    /// Puts a tag into the table of shortcodes; one that is no name of a tag is not added
    /// (`add_shortcode`).
    AddTag {
        tag: Text,
        callback: CallbackId,
    },
    /// Takes a tag out (`remove_shortcode`).
    RemoveTag {
        tag: Text,
    },
    /// Goes on n ops further where the two texts are equal.
    SkipIf {
        left: Parts,
        right: Parts,
        n: u16,
    },
    /// Runs a filter on a value and further arguments (`apply_filters`).
    Apply {
        hook: HookName,
        value: Parts,
        more: Items<Parts>,
    },
    /// Runs an action on arguments (`do_action`).
    Do {
        hook: HookName,
        args: Items<Parts>,
    },
    /// Has the shortcodes of a text answered (`do_shortcode`).
    Shortcodes(Parts),
    /// Asks the machine.
    Ask(Ask),
    /// Sets an option (`update_option`).
    SetOption {
        name: OptName,
        value: Parts,
    },
    /// Schedules an event that many seconds from now (`wp_schedule_single_event`,
    /// `wp_schedule_event`).
    Schedule {
        after: u64,
        every: Every,
        hook: HookName,
        arg: Parts,
    },
    /// Publishes the post with that id in decimal, if it is future and due
    /// (`check_and_publish_future_post`).
    Publish(Parts),
    /// Writes a text to the page.
    Echo(Parts),
    /// Ends the callback with this text.
    Return(Parts),
}

/// The steps of a callback, in order; past the last it returns its value.
pub type Script = Items<Op>;

/// What a callback sees at one turn: at its start `value` is the first argument and `last` is
/// empty. A callback of a hook has no attributes and empty `content` and `tag`; one of a shortcode
/// has no arguments.
#[derive(Debug, Drop)]
pub struct CallIn {
    pub args: Texts,
    pub atts: Atts,
    pub content: Text,
    pub tag: Text,
    pub value: Text,
    pub last: Text,
    pub turn: usize,
}

/// What a callback asks for at one turn.
#[derive(Debug, Drop)]
pub enum Turn {
    Go(Text),
    AddHook {
        hook: HookName,
        callback: CallbackId,
        priority: i64,
        accepted: u32,
    },
    RemoveHook {
        hook: HookName,
        callback: CallbackId,
        priority: i64,
    },
    RemoveAll {
        hook: HookName,
        priority: Option<i64>,
    },
    AddTag {
        tag: Text,
        callback: CallbackId,
    },
    RemoveTag {
        tag: Text,
    },
    Skip(u16),
    Apply {
        hook: HookName,
        texts: Texts,
    },
    Do {
        hook: HookName,
        texts: Texts,
    },
    Shortcodes(Text),
    Ask(Ask),
    SetOption {
        name: OptName,
        value: Text,
    },
    Schedule {
        after: u64,
        every: Every,
        hook: HookName,
        arg: Text,
    },
    Publish(Text),
    Echo(Text),
    Return(Text),
}
