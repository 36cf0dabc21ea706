ghost use Rattle.std.specs.Prelude.{◌≡◌, map};
ghost use Rattle.press_kit.specs.Ops.{change_named, edit_named, kind_of, question_named, turn_named};

/// What a step of a script does.
#[derive(Clone, Copy, Debug, PartialEq, Eq)]
pub(crate) enum OpKind {
    Set,
    AddHook,
    RemoveHook,
    RemoveAll,
    AddTag,
    RemoveTag,
    SkipIf,
    Apply,
    Do,
    Shortcodes,
    Did,
    Doing,
    HasHook,
    HasTag,
    ReadOption,
    SetOption,
    Schedule,
    Publish,
    Echo,
    Return,
}

impl OpKind {
    /// The kind of that name.
    pub fn from_name(name: &str) -> Option<OpKind>
        ensures { result ≡ kind_of name.now }
    {
        OpKind::edit_named(name).or(OpKind::question_named(name).or(OpKind::change_named(name).or(
            OpKind::turn_named(name),
        )))
    }

    fn edit_named(name: &str) -> Option<OpKind>
        ensures { result ≡ edit_named name.now }
    {
        if name == "add_hook" {
            Some(OpKind::AddHook)
        } else if name == "remove_hook" {
            Some(OpKind::RemoveHook)
        } else if name == "remove_all" {
            Some(OpKind::RemoveAll)
        } else if name == "add_tag" {
            Some(OpKind::AddTag)
        } else if name == "remove_tag" {
            Some(OpKind::RemoveTag)
        } else {
            None
        }
    }

    fn question_named(name: &str) -> Option<OpKind>
        ensures { result ≡ question_named name.now }
    {
        if name == "did" {
            Some(OpKind::Did)
        } else if name == "doing" {
            Some(OpKind::Doing)
        } else if name == "has_hook" {
            Some(OpKind::HasHook)
        } else if name == "has_tag" {
            Some(OpKind::HasTag)
        } else if name == "option" {
            Some(OpKind::ReadOption)
        } else {
            None
        }
    }

    fn change_named(name: &str) -> Option<OpKind>
        ensures { result ≡ change_named name.now }
    {
        if name == "set_option" {
            Some(OpKind::SetOption)
        } else if name == "schedule" {
            Some(OpKind::Schedule)
        } else if name == "publish" {
            Some(OpKind::Publish)
        } else {
            None
        }
    }

    fn turn_named(name: &str) -> Option<OpKind>
        ensures { result ≡ turn_named name.now }
    {
        if name == "set" {
            Some(OpKind::Set)
        } else if name == "skip_if" {
            Some(OpKind::SkipIf)
        } else if name == "apply" {
            Some(OpKind::Apply)
        } else if name == "do" {
            Some(OpKind::Do)
        } else if name == "shortcodes" {
            Some(OpKind::Shortcodes)
        } else if name == "echo" {
            Some(OpKind::Echo)
        } else if name == "return" {
            Some(OpKind::Return)
        } else {
            None
        }
    }
}
