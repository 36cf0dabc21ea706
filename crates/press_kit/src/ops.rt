//! The steps of scripts.

ghost use Rattle.std.specs.Prelude.{◌≡◌, ◌≢◌, Err, option_map, option_and_then, codes, map};
ghost use Rattle.serde_json.specs.Find.{get, as_str};
ghost use Rattle.serde_json.specs.View.{view};
ghost use Rattle.press_text.specs.Gives.{Gives};
ghost use Rattle.press_kit.specs.Refusals.{Refuses};
ghost use Rattle.press_kit.specs.Ops.{kind_of, keys_of};
ghost use Rattle.press_kit.specs.Fields.{only};
ghost use Rattle.press_kit.specs.KitFile as spec;

use crate::fault::KitFileFault;
use crate::fields::Fields;
use crate::listed::Listed;
use crate::op_kind::OpKind;
use crate::place::Place;
use press_callbacks::{Ask, Op};
use press_text::Every;
use serde_json::Value;
use std::alloc::Global;

// The most arguments that a step hands to a hook's callbacks, the text that a filter runs on among
// them.
const MOST_ARGS: usize = 3;

fn every_named(word: &str) -> Option<Every>
    ensures { result ≡ spec.every_of word.now }
{
    if word == "once" {
        Some(Every::Once)
    } else if word == "hourly" {
        Some(Every::Hourly)
    } else if word == "twicedaily" {
        Some(Every::TwiceDaily)
    } else if word == "daily" {
        Some(Every::Daily)
    } else {
        None
    }
}

// How often an event comes again.
fn every(value: &Value) -> Option<Every>
    ensures { result ≡ spec.every_in (view value.now) }
{
    match value.as_str() {
        None => None,
        Some(word) => every_named(word),
    }
}

impl<'v> Fields<'v> {
    // The priority that is given, or all of them.
    fn any_priority(&self) -> Result<Option<i64>, KitFileFault>
        ensures gives { Gives Refuses Ok result (spec.any_priority_at self.now.at
            (view self.now.value.now)) }
        ensures memory { result ≢ Err KitFileFault.NoMemory }
    {
        match self.value.get("priority") {
            None => Ok(None),
            Some(told) => Ok(Some(told.as_i64().ok_or(self.at)?)),
        }
    }

    // How many steps are passed over.
    fn skip(&self) -> Result<u16, KitFileFault>
        ensures gives { Gives Refuses Ok result
            (spec.skip_at self.now.at (view self.now.value.now)) }
        ensures memory { result ≢ Err KitFileFault.NoMemory }
    {
        let told = self
            .value
            .get("skip")
            .and_then(Value::as_u64)
            .ok_or(self.at)?;
        match u16::try_from(told) {
            Ok(n) => Ok(n),
            Err(_) => Err(KitFileFault::BadKitFile(self.at)),
        }
    }

    // Once, where none is given.
    fn every(&self) -> Result<Every, KitFileFault>
        ensures gives { Gives Refuses Ok result
            (spec.every_at self.now.at (view self.now.value.now)) }
        ensures memory { result ≢ Err KitFileFault.NoMemory }
    {
        match self.value.get("every") {
            None => Ok(Every::Once),
            Some(told) => Ok(every(told).ok_or(self.at)?),
        }
    }

    #[tactic(auto, unfolding(crate::specs::KitFile::schedule_op))]
    fn schedule(&self) -> Result<Op, KitFileFault>
        ensures { Gives Refuses Ok result (spec.schedule_op self.now.at (view self.now.value.now)) }
    {
        Ok(Op::Schedule {
            after: self.number("after")?,
            every: self.every()?,
            hook: self.hook("hook")?,
            arg: self.parts("arg")?,
        })
    }

    #[tactic(auto, unfolding(crate::specs::KitFile::set_option_op))]
    fn set_option(&self) -> Result<Op, KitFileFault>
        ensures { Gives Refuses Ok result
            (spec.set_option_op self.now.at (view self.now.value.now)) }
    {
        Ok(Op::SetOption {
            name: self.option("name")?,
            value: self.parts("value")?,
        })
    }

    #[tactic(auto, unfolding(crate::specs::KitFile::add_hook_op))]
    fn add_hook(&self) -> Result<Op, KitFileFault>
        ensures { Gives Refuses Ok result (spec.add_hook_op self.now.at (view self.now.value.now)) }
    {
        Ok(Op::AddHook {
            hook: self.hook("hook")?,
            callback: self.callback("callback")?,
            priority: self.priority()?,
            accepted: self.accepted_count()?,
        })
    }

    #[tactic(auto, unfolding(crate::specs::KitFile::remove_hook_op))]
    fn remove_hook(&self) -> Result<Op, KitFileFault>
        ensures { Gives Refuses Ok result (spec.remove_hook_op self.now.at
            (view self.now.value.now)) }
    {
        Ok(Op::RemoveHook {
            hook: self.hook("hook")?,
            callback: self.callback("callback")?,
            priority: self.priority()?,
        })
    }

    #[tactic(auto, unfolding(crate::specs::KitFile::remove_all_op))]
    fn remove_all(&self) -> Result<Op, KitFileFault>
        ensures { Gives Refuses Ok result (spec.remove_all_op self.now.at
            (view self.now.value.now)) }
    {
        Ok(Op::RemoveAll {
            hook: self.hook("hook")?,
            priority: self.any_priority()?,
        })
    }

    #[tactic(auto, unfolding(crate::specs::KitFile::add_tag_op))]
    fn add_tag(&self) -> Result<Op, KitFileFault>
        ensures { Gives Refuses Ok result (spec.add_tag_op self.now.at (view self.now.value.now)) }
    {
        Ok(Op::AddTag {
            tag: self.text("tag")?,
            callback: self.callback("callback")?,
        })
    }

    #[tactic(auto, unfolding(crate::specs::KitFile::skip_op))]
    fn skip_if(&self) -> Result<Op, KitFileFault>
        ensures { Gives Refuses Ok result (spec.skip_op self.now.at (view self.now.value.now)) }
    {
        Ok(Op::SkipIf {
            left: self.parts("left")?,
            right: self.parts("right")?,
            n: self.skip()?,
        })
    }

    #[tactic(auto, unfolding(crate::specs::KitFile::apply_op))]
    fn apply(&self) -> Result<Op, KitFileFault>
        ensures { Gives Refuses Ok result (spec.apply_op self.now.at (view self.now.value.now)) }
    {
        Ok(Op::Apply {
            hook: self.hook("hook")?,
            value: self.parts("value")?,
            more: self.texts("more", MOST_ARGS - 1)?,
        })
    }

    #[tactic(auto, unfolding(crate::specs::KitFile::do_op))]
    fn start(&self) -> Result<Op, KitFileFault>
        ensures { Gives Refuses Ok result (spec.do_op self.now.at (view self.now.value.now)) }
    {
        Ok(Op::Do {
            hook: self.hook("hook")?,
            args: self.texts("args", MOST_ARGS)?,
        })
    }

    #[tactic(auto, unfolding(crate::specs::KitFile::has_hook_op))]
    fn has_hook(&self) -> Result<Op, KitFileFault>
        ensures { Gives Refuses Ok result (spec.has_hook_op self.now.at (view self.now.value.now)) }
    {
        let hook = self.hook("hook")?;
        let callback = self.callback("callback")?;
        Ok(Op::Ask(Ask::Has(hook, callback)))
    }

    #[tactic(auto, unfolding(crate::specs::KitFile::op_by))]
    fn op(&self, kind: OpKind) -> Result<Op, KitFileFault>
        ensures { Gives Refuses Ok result (spec.op_by kind self.now.at (view self.now.value.now)) }
    {
        match kind {
            OpKind::Set => Ok(Op::Set(self.parts("text")?)),
            OpKind::AddHook => self.add_hook(),
            OpKind::RemoveHook => self.remove_hook(),
            OpKind::RemoveAll => self.remove_all(),
            OpKind::AddTag => self.add_tag(),
            OpKind::RemoveTag => Ok(Op::RemoveTag {
                tag: self.text("tag")?,
            }),
            OpKind::SkipIf => self.skip_if(),
            OpKind::Apply => self.apply(),
            OpKind::Do => self.start(),
            OpKind::Shortcodes => Ok(Op::Shortcodes(self.parts("text")?)),
            OpKind::Did => Ok(Op::Ask(Ask::Did(self.hook("hook")?))),
            OpKind::Doing => Ok(Op::Ask(Ask::Doing(self.hook("hook")?))),
            OpKind::HasHook => self.has_hook(),
            OpKind::HasTag => Ok(Op::Ask(Ask::Tag(self.text("tag")?))),
            OpKind::ReadOption => Ok(Op::Ask(Ask::Option(self.option("name")?))),
            OpKind::SetOption => self.set_option(),
            OpKind::Schedule => self.schedule(),
            OpKind::Publish => Ok(Op::Publish(self.parts("post")?)),
            OpKind::Echo => Ok(Op::Echo(self.parts("text")?)),
            OpKind::Return => Ok(Op::Return(self.parts("text")?)),
        }
    }

    fn kind(&self) -> Option<OpKind>
        ensures { result ≡ option_and_then kind_of
            (option_and_then as_str (get (codes "op") (view self.now.value.now))) }
    {
        match self.value.get("op").and_then(Value::as_str) {
            None => None,
            Some(name) => OpKind::from_name(name),
        }
    }

    fn has_keys_of(&self, kind: OpKind) -> Result<(), KitFileFault>
        ensures gives { Gives Refuses (λ _. Ok (view self.now.value.now)) result
            (only self.now.at (keys_of kind) (view self.now.value.now)) }
        ensures memory { result ≢ Err KitFileFault.NoMemory }
    {
        match kind {
            OpKind::AddHook => {
                self.has_only(&["op", "hook", "callback", "priority", "accepted"])
            }
            OpKind::RemoveHook => self.has_only(&["op", "hook", "callback", "priority"]),
            OpKind::RemoveAll => self.has_only(&["op", "hook", "priority"]),
            OpKind::AddTag => self.has_only(&["op", "tag", "callback"]),
            OpKind::RemoveTag | OpKind::HasTag => self.has_only(&["op", "tag"]),
            OpKind::SkipIf => self.has_only(&["op", "left", "right", "skip"]),
            OpKind::Apply => self.has_only(&["op", "hook", "value", "more"]),
            OpKind::Do => self.has_only(&["op", "hook", "args"]),
            OpKind::Did | OpKind::Doing => self.has_only(&["op", "hook"]),
            OpKind::HasHook => self.has_only(&["op", "hook", "callback"]),
            OpKind::ReadOption => self.has_only(&["op", "name"]),
            OpKind::SetOption => self.has_only(&["op", "name", "value"]),
            OpKind::Schedule => self.has_only(&["op", "after", "every", "hook", "arg"]),
            OpKind::Publish => self.has_only(&["op", "post"]),
            OpKind::Set | OpKind::Shortcodes | OpKind::Echo | OpKind::Return => {
                self.has_only(&["op", "text"])
            }
        }
    }
}

impl Listed for Op {
    ghost read = { spec.op_of };

    #[tactic(auto, unfolding(crate::specs::KitFile::op_of))]
    fn read(alloc: Global, at: Place, value: &Value) -> Result<Op, KitFileFault> {
        let fields = Fields { alloc, at, value };
        let kind = fields.kind().ok_or(at)?;
        fields.has_keys_of(kind)?;
        fields.op(kind)
    }
}
