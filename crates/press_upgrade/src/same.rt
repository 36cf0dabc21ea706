//! Whether two things that a kit file gives are the same.

ghost use Rattle.std.specs.Prelude.{◌≡◌, ◌↔◌, IsTrue};

use press_callbacks::{Ask, Load, Op, Part, Plugin, Source};
use press_kit::Scripted;
use press_scan::AttKey;
use press_text::{CallbackId, Every, HookName, Items, Name, OptName, Tag, Text};

/// Values that can be compared.
pub trait Same {
    /// Whether contracts see one value.
    fn same(&self, other: &Self) -> bool
        ensures { IsTrue result ↔ (self.now ≡ other.now) };
}

impl Same for Text {
    fn same(&self, other: &Text) -> bool {
        same_bytes(self.as_bytes(), other.as_bytes())
    }
}

impl Same for Name {
    fn same(&self, other: &Name) -> bool {
        self.is(other)
    }
}

impl Same for HookName {
    fn same(&self, other: &HookName) -> bool {
        self.is(other)
    }
}

impl Same for OptName {
    fn same(&self, other: &OptName) -> bool {
        self.is(other)
    }
}

impl Same for Every {
    fn same(&self, other: &Every) -> bool {
        *self == *other
    }
}

impl Same for Tag {
    fn same(&self, other: &Tag) -> bool {
        self.is(other)
    }
}

impl Same for AttKey {
    fn same(&self, other: &AttKey) -> bool {
        match self {
            AttKey::Name(a) => match other {
                AttKey::Name(b) => a.same(b),
                _ => false,
            },
            AttKey::Place(m) => match other {
                AttKey::Place(n) => *m == *n,
                _ => false,
            },
        }
    }
}

impl Same for CallbackId {
    fn same(&self, other: &CallbackId) -> bool {
        self.is(*other)
    }
}

impl<T: Same> Same for Items<T> {
    fn same(&self, other: &Items<T>) -> bool {
        same_items(self.as_slice(), other.as_slice())
    }
}

impl Same for Source {
    fn same(&self, other: &Source) -> bool {
        match self {
            Source::Arg(m) => match other {
                Source::Arg(n) => *m == *n,
                _ => false,
            },
            Source::Att(a) => match other {
                Source::Att(b) => a.same(b),
                _ => false,
            },
            Source::Content => match other {
                Source::Content => true,
                _ => false,
            },
            Source::Tag => match other {
                Source::Tag => true,
                _ => false,
            },
            Source::Value => match other {
                Source::Value => true,
                _ => false,
            },
            Source::Last => match other {
                Source::Last => true,
                _ => false,
            },
        }
    }
}

impl Same for Part {
    fn same(&self, other: &Part) -> bool {
        match self {
            Part::Lit(a) => match other {
                Part::Lit(b) => a.same(b),
                _ => false,
            },
            Part::Raw(a) => match other {
                Part::Raw(b) => a.same(b),
                _ => false,
            },
            Part::Escaped(a) => match other {
                Part::Escaped(b) => a.same(b),
                _ => false,
            },
        }
    }
}

impl Same for Ask {
    fn same(&self, other: &Ask) -> bool {
        match self {
            Ask::Did(a) => match other {
                Ask::Did(b) => a.same(b),
                _ => false,
            },
            Ask::Doing(a) => match other {
                Ask::Doing(b) => a.same(b),
                _ => false,
            },
            Ask::Has(a, c) => match other {
                Ask::Has(b, d) => a.same(b) && c.same(d),
                _ => false,
            },
            Ask::Option(a) => match other {
                Ask::Option(b) => a.same(b),
                _ => false,
            },
            Ask::Tag(a) => match other {
                Ask::Tag(b) => a.same(b),
                _ => false,
            },
        }
    }
}

impl Same for Op {
    fn same(&self, other: &Op) -> bool {
        match self {
            Op::Set(a) => match other {
                Op::Set(b) => a.same(b),
                _ => false,
            },
            Op::AddHook {
                hook,
                callback,
                priority,
                accepted,
            } => match other {
                Op::AddHook {
                    hook: h,
                    callback: c,
                    priority: p,
                    accepted: a,
                } => hook.same(h) && callback.same(c) && *priority == *p && *accepted == *a,
                _ => false,
            },
            Op::RemoveHook {
                hook,
                callback,
                priority,
            } => match other {
                Op::RemoveHook {
                    hook: h,
                    callback: c,
                    priority: p,
                } => hook.same(h) && callback.same(c) && *priority == *p,
                _ => false,
            },
            Op::RemoveAll { hook, priority } => match other {
                Op::RemoveAll {
                    hook: h,
                    priority: p,
                } => hook.same(h) && same_priority(*priority, *p),
                _ => false,
            },
            Op::AddTag { tag, callback } => match other {
                Op::AddTag {
                    tag: t,
                    callback: c,
                } => tag.same(t) && callback.same(c),
                _ => false,
            },
            Op::RemoveTag { tag } => match other {
                Op::RemoveTag { tag: t } => tag.same(t),
                _ => false,
            },
            Op::SkipIf { left, right, n } => match other {
                Op::SkipIf {
                    left: l,
                    right: r,
                    n: m,
                } => left.same(l) && right.same(r) && *n == *m,
                _ => false,
            },
            Op::Apply { hook, value, more } => match other {
                Op::Apply {
                    hook: h,
                    value: v,
                    more: m,
                } => hook.same(h) && value.same(v) && more.same(m),
                _ => false,
            },
            Op::Do { hook, args } => match other {
                Op::Do { hook: h, args: a } => hook.same(h) && args.same(a),
                _ => false,
            },
            Op::Shortcodes(a) => match other {
                Op::Shortcodes(b) => a.same(b),
                _ => false,
            },
            Op::Ask(a) => match other {
                Op::Ask(b) => a.same(b),
                _ => false,
            },
            Op::SetOption { name, value } => match other {
                Op::SetOption { name: n, value: v } => name.same(n) && value.same(v),
                _ => false,
            },
            Op::Schedule {
                after,
                every,
                hook,
                arg,
            } => match other {
                Op::Schedule {
                    after: n,
                    every: e,
                    hook: h,
                    arg: a,
                } => *after == *n && every.same(e) && hook.same(h) && arg.same(a),
                _ => false,
            },
            Op::Publish(a) => match other {
                Op::Publish(b) => a.same(b),
                _ => false,
            },
            Op::Echo(a) => match other {
                Op::Echo(b) => a.same(b),
                _ => false,
            },
            Op::Return(a) => match other {
                Op::Return(b) => a.same(b),
                _ => false,
            },
        }
    }
}

impl Same for Load {
    fn same(&self, other: &Load) -> bool {
        match self {
            Load::Hook {
                hook,
                priority,
                callback,
                accepted,
            } => match other {
                Load::Hook {
                    hook: h,
                    priority: p,
                    callback: c,
                    accepted: a,
                } => hook.same(h) && *priority == *p && callback.same(c) && *accepted == *a,
                _ => false,
            },
            Load::Tag { tag, callback } => match other {
                Load::Tag {
                    tag: t,
                    callback: c,
                } => tag.same(t) && callback.same(c),
                _ => false,
            },
        }
    }
}

impl Same for Plugin {
    fn same(&self, other: &Plugin) -> bool {
        self.name.same(&other.name) && self.load.same(&other.load)
    }
}

impl Same for Scripted {
    fn same(&self, other: &Scripted) -> bool {
        self.id.same(&other.id) && self.script.same(&other.script)
    }
}

fn same_priority(a: Option<i64>, b: Option<i64>) -> bool
    ensures { IsTrue result ↔ (a ≡ b) }
{
    match a {
        None => match b {
            None => true,
            Some(_) => false,
        },
        Some(p) => match b {
            None => false,
            Some(q) => p == q,
        },
    }
}

fn same_bytes(a: &[u8], b: &[u8]) -> bool
    ensures { IsTrue result ↔ (a.now ≡ b.now) }
{
    a == b
}

fn same_items<T: Same>(a: &[T], b: &[T]) -> bool
    ensures { IsTrue result ↔ (a.now ≡ b.now) }
{
    if a.len() != b.len() {
        return false;
    }
    for i in 0..a.len() {
        if !a[i].same(&b[i]) {
            return false;
        }
    }
    true
}
