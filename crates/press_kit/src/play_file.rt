ghost use Rattle.std.specs.Prelude.{◌≡◌, ◌≢◌, ◌<◌, Err, length, option_and_then, codes, map, IsErrOf};
ghost use Rattle.serde_json.specs.View.{view};
ghost use Rattle.press_text.specs.Gives.{Gives};
ghost use Rattle.press_kit.specs.Refusals.{Refuses};
ghost use Rattle.press_kit.specs.KitFile.{file_limit};
ghost use Rattle.press_kit.specs.declared.place.Place.TheVariants as place;
ghost use Rattle.press_kit.specs.Fields.{only, number_in};
ghost use Rattle.press_kit.specs.Memory.{GrowsBehind, few_at, hook_of_play};
ghost use Rattle.press_kit.specs.PlayFile as spec;

use crate::fault::KitFileFault;
use crate::fields::{Fields, list, number32};
use crate::json::parse_file;
use crate::kit_parts::{KitParts, kit};
use crate::listed::{Listed, each};
use crate::place::Place;
use crate::site_file::commands;
use press_apply::Stamped;
use press_page::Target;
use press_text::{HookName, Items, Name, NameFault, Text, Texts};
use serde_json::Value;
use std::alloc::Global;

/// What a play does with its hook.
#[derive(Clone, Copy, Debug, PartialEq, Eq)]
pub enum PlayKind {
    /// Runs it as a filter (`apply_filters`).
    Apply,
    /// Runs it as an action (`do_action`).
    Do,
}

/// One thing to be played.
#[derive(Debug, Drop)]
pub struct Play {
    pub kind: PlayKind,
    pub hook: HookName,
    pub args: Texts,
    /// How often it is done, at least once.
    pub times: u32,
    /// Whether the callbacks that it runs are traced.
    pub trace: bool,
}

/// A kit, the plugins that are active or the commands that make the site, the pages that are shown
/// of it, and what is to be played on it in turn.
#[derive(Debug, Drop)]
pub struct PlayFile {
    pub kit: KitParts,
    pub active: Items<Name>,
    pub commands: Items<Stamped>,
    pub pages: Items<Target>,
    pub plays: Items<Play>,
}

impl Listed for Text {
    ghost read = { spec.text_in };

    fn read(alloc: Global, at: Place, value: &Value) -> Result<Text, KitFileFault> {
        let text = value.as_str().ok_or(at)?;
        Ok(Text::from_str(alloc, text)?)
    }
}

impl Listed for Name {
    ghost read = { spec.active_of };

    fn read(alloc: Global, at: Place, value: &Value) -> Result<Name, KitFileFault> {
        let text = value.as_str().ok_or(at)?;
        match Name::new(alloc, text) {
            Ok(name) => Ok(name),
            Err(NameFault::NoMemory) => Err(KitFileFault::NoMemory),
            Err(NameFault::BadName | NameFault::TooLong) => Err(KitFileFault::BadKitFile(at)),
        }
    }
}

impl Listed for Target {
    ghost read = { spec.target_of };

    fn read(alloc: Global, at: Place, value: &Value) -> Result<Target, KitFileFault> {
        let text = value.as_str().ok_or(at)?;
        let target = Target::from_text(alloc, text)?;
        Ok(target.ok_or(at)?)
    }
}

// A count from 1 to 2^32 - 1.
fn count(value: &Value) -> Option<u32>
    ensures { result ≡ option_and_then spec.times_in (number_in (view value.now)) }
{
    number32(value).filter(|n| *n > 0)
}

impl<'v> Fields<'v> {
    fn args(&self) -> Result<Texts, KitFileFault>
        ensures { Gives Refuses Ok result (spec.args_at self.now.at (view self.now.value.now)) }
    {
        match self.value.get("args") {
            None => Ok(Texts::new(self.alloc)),
            Some(told) => {
                let values = list(told).ok_or(self.at)?;
                let texts = each(self.alloc, self.at, values)?;
                Ok(Texts::from_vec(texts.into_vec())?)
            }
        }
    }

    fn times(&self) -> Result<u32, KitFileFault>
        ensures gives { Gives Refuses Ok result
            (spec.times_at self.now.at (view self.now.value.now)) }
        ensures memory { result ≢ Err KitFileFault.NoMemory }
    {
        match self.value.get("times") {
            None => Ok(1),
            Some(told) => Ok(count(told).ok_or(self.at)?),
        }
    }

    fn trace(&self) -> Result<bool, KitFileFault>
        ensures gives { Gives Refuses Ok result
            (spec.trace_at self.now.at (view self.now.value.now)) }
        ensures memory { result ≢ Err KitFileFault.NoMemory }
    {
        match self.value.get("trace") {
            None => Ok(false),
            Some(told) => Ok(told.as_bool().ok_or(self.at)?),
        }
    }

    fn has_play_keys(&self, kind: PlayKind) -> Result<(), KitFileFault>
        ensures gives { Gives Refuses (λ _. Ok (view self.now.value.now)) result
            (only self.now.at (spec.keys_of kind) (view self.now.value.now)) }
        ensures memory { result ≢ Err KitFileFault.NoMemory }
    {
        match kind {
            PlayKind::Apply => self.has_only(&["apply", "args", "times", "trace"]),
            PlayKind::Do => self.has_only(&["do", "args", "times", "trace"]),
        }
    }

    #[tactic(auto, unfolding(crate::specs::PlayFile::play_by, crate::specs::Memory::hook_of_play))]
    fn play(&self, kind: PlayKind) -> Result<Play, KitFileFault>
        ensures gives { Gives Refuses Ok result (spec.play_by kind self.now.at
            (view self.now.value.now)) }
        ensures memory { GrowsBehind result
            (hook_of_play kind self.now.at (view self.now.value.now)) }
    {
        self.has_play_keys(kind)?;
        let hook = self.hook(kind.key())?;
        Ok(Play {
            kind,
            hook,
            args: self.args()?,
            times: self.times()?,
            trace: self.trace()?,
        })
    }
}

impl PlayKind {
    // The key of the hook.
    fn key(self) -> &'static str
        ensures { result.now ≡ spec.hook_key self }
    {
        match self {
            PlayKind::Apply => "apply",
            PlayKind::Do => "do",
        }
    }
}

impl Listed for Play {
    ghost read = { spec.play_of };

    fn read(alloc: Global, at: Place, value: &Value) -> Result<Play, KitFileFault> {
        let fields = Fields { alloc, at, value };
        let kind = if value.get("apply").is_some() {
            PlayKind::Apply
        } else {
            PlayKind::Do
        };
        fields.play(kind)
    }
}

// Whether there are commands in place of the active plugins.
fn has_commands(value: &Value) -> bool
    ensures { result ≡ spec.has_commands (view value.now) }
{
    value.get("commands").is_some()
}

fn has_file_keys(fields: &Fields<'_>, commanded: bool) -> Result<(), KitFileFault>
    ensures gives { Gives Refuses (λ _. Ok (view fields.now.value.now)) result
        (only fields.now.at (spec.file_keys commanded) (view fields.now.value.now)) }
    ensures memory { result ≢ Err KitFileFault.NoMemory }
{
    if commanded {
        fields.has_only(&["kit", "commands", "pages", "plays", "shows"])
    } else {
        fields.has_only(&["kit", "active", "pages", "plays", "shows"])
    }
}

#[tactic(auto, unfolding(crate::specs::PlayFile::active_where))]
fn active(alloc: Global, value: &Value, commanded: bool) -> Result<Items<Name>, KitFileFault>
    ensures { Gives Refuses Ok result (spec.active_where commanded (view value.now)) }
{
    if commanded {
        return Ok(Items::new(alloc));
    }
    let at = Place::Active;
    each(alloc, at, Fields { alloc, at, value }.list("active")?)
}

fn commands_if(
    alloc: Global,
    value: &Value,
    commanded: bool,
) -> Result<Items<Stamped>, KitFileFault>
    ensures gives { Gives Refuses Ok result (spec.commands_where commanded (view value.now)) }
    ensures memory { GrowsBehind result (few_at (view value.now)) }
{
    if commanded {
        commands(alloc, value)
    } else {
        Ok(Items::new(alloc))
    }
}

fn pages(alloc: Global, value: &Value) -> Result<Items<Target>, KitFileFault>
    ensures { Gives Refuses Ok result (spec.pages_of (view value.now)) }
{
    match value.get("pages") {
        None => Ok(Items::new(alloc)),
        Some(told) => {
            let values = list(told).ok_or(Place::Pages)?;
            each(alloc, Place::Pages, values)
        }
    }
}

#[tactic(auto, unfolding(crate::specs::PlayFile::plays_of))]
fn plays(alloc: Global, value: &Value) -> Result<Items<Play>, KitFileFault>
    ensures { Gives Refuses Ok result (spec.plays_of (view value.now)) }
{
    let at = Place::Plays;
    each(alloc, at, Fields { alloc, at, value }.list("plays")?)
}

#[tactic(auto, unfolding(crate::specs::PlayFile::play_file_of))]
fn play_file(alloc: Global, value: &Value) -> Result<PlayFile, KitFileFault>
    ensures { Gives Refuses Ok result (spec.play_file_of (view value.now)) }
{
    let at = Place::File;
    let commanded = has_commands(value);
    has_file_keys(&Fields { alloc, at, value }, commanded)?;
    let kit = kit(alloc, value.get("kit").ok_or(at)?)?;
    let active = active(alloc, value, commanded)?;
    let commands = commands_if(alloc, value, commanded)?;
    Ok(PlayFile {
        kit,
        active,
        commands,
        pages: pages(alloc, value)?,
        plays: plays(alloc, value)?,
    })
}

/// The kit, the active plugins or the commands, the pages and the plays that the bytes of a play
/// file give.
///
/// The key `shows` is for whoever reads the file. A file has at most 4,194,304 bytes.
#[tactic(auto, unfolding(crate::specs::PlayFile::play_file_in))]
pub fn read_play_file(alloc: Global, bytes: &[u8]) -> Result<PlayFile, KitFileFault>
    ensures gives { Gives Refuses Ok result (spec.play_file_in bytes.now) }
    ensures long { file_limit < length bytes.now
        → IsErrOf result (KitFileFault.BadKitFile place.File) }
{
    let value = parse_file(alloc, bytes)?;
    play_file(alloc, &value)
}
