//! The log of a member, as site files.

ghost use Rattle.std.specs.Prelude.{◌≡◌, IfOk, List, MatchResult, string_bytes};
ghost use Rattle.std.specs.Io.KnownBytes.{Appends};
ghost use Rattle.press_client.specs.declared.entry.LogEntry.{LogEntry};
ghost use Rattle.press_text.specs.Streams.{AppendsFront};
ghost use Rattle.press_program.specs.Exports as spec;
ghost use Rattle.press_program.specs.Endings.{Exports};
ghost use Rattle.press_program.specs.Words.{export_of};
ghost use Rattle.press_program.specs.declared.exporting.Unmade.TheVariants.{NoMemory};

use crate::telling::{fail, refuse, tell};
use crate::wanted::Exporting;
use press_client::{Limits, LogFault, MembersFault, SiteFile, Sockets, export};
use press_kit::{COMMAND_LIMIT, FILE_LIMIT};
use press_text::write_once;
use press_world::ReplayFault;
use std::alloc::{AllocError, Global};
use std::fs::File;
use std::io;
use std::io::Write;

// As much as a site file takes.
const LIMITS: Limits = Limits {
    bytes: FILE_LIMIT,
    commands: COMMAND_LIMIT,
};

/// Why site files were not made, or not told.
#[derive(Clone, Copy, Debug, PartialEq, Eq)]
pub(crate) enum Unmade {
    NoMemory,
    Away,
    NoLog,
    /// There is a file of the name of that one.
    Exists(usize),
    Unwritten(usize),
    Unprinted,
}

impl From<AllocError> for Unmade {
    ghost from_gives = { λ _ e. e ≡ NoMemory };

    fn from(_e: AllocError) -> Unmade {
        Unmade::NoMemory
    }
}

impl From<LogFault> for Unmade {
    fn from(fault: LogFault) -> Unmade {
        match fault {
            LogFault::NoMemory => Unmade::NoMemory,
            LogFault::Away => Unmade::Away,
            LogFault::NoLog => Unmade::NoLog,
        }
    }
}

impl Unmade {
    fn fault(self) -> ReplayFault
        ensures { result ≡ spec.fault_of self }
    {
        match self {
            Unmade::NoMemory => ReplayFault::NoMemory,
            Unmade::Away | Unmade::NoLog => ReplayFault::ReadFault,
            Unmade::Exists(_) | Unmade::Unwritten(_) | Unmade::Unprinted => ReplayFault::WriteFault,
        }
    }

    // What is said of its subject.
    fn words(self) -> &'static str
        ensures { result.now ≡ spec.words_of self }
    {
        match self {
            Unmade::NoMemory => "",
            Unmade::Away => " is away",
            Unmade::NoLog => " shows no log, as one does that is served with --editor",
            Unmade::Exists(_) => " is there already",
            Unmade::Unwritten(_) | Unmade::Unprinted => " cannot be written",
        }
    }
}

#[tactic(auto, unfolding(crate::specs::Exports::numbered_name))]
fn numbered_name(alloc: Global, file: &str, number: usize) -> Result<String, AllocError>
    ensures { IfOk result (λ t. string_bytes t ≡ spec.numbered_name file.now number) }
{
    format!(in alloc; "{file}.{number}")
}

// The name of the file at a place, from 0.
fn name_of(alloc: Global, file: &str, place: usize) -> Result<String, AllocError>
    ensures { IfOk result (λ t. string_bytes t ≡ spec.name_of file.now place) }
{
    if place == 0 {
        return String::from_str(alloc, file);
    }
    match place.checked_add(1) {
        Some(number) => numbered_name(alloc, file, number),
        None => Err(AllocError),
    }
}

#[tactic(auto, unfolding(crate::specs::Exports::line))]
fn line(alloc: Global, name: &str, commands: usize) -> Result<String, AllocError>
    ensures { IfOk result (λ t. string_bytes t ≡ spec.line name.now commands) }
{
    format!(in alloc; "{name}: {commands} commands\n")
}

#[tactic(auto, unfolding(crate::specs::Exports::reason_line))]
fn reason_line(alloc: Global, subject: &str, words: &str) -> Result<String, AllocError>
    ensures { IfOk result (λ t. string_bytes t ≡ spec.reason_line subject.now words.now) }
{
    format!(in alloc; "press: {subject}{words}\n")
}

// A line for each file.
#[tactic(auto, using(crate::proofs::Exports::lines_on, crate::proofs::Exports::lines_end))]
fn lines_of_files(alloc: Global, file: &str, files: &[SiteFile]) -> Result<String, AllocError>
    ensures { IfOk result (λ t. string_bytes t ≡ spec.lines_from file.now 0 files.now) }
{
    let mut text = String::new(alloc);
    for place in 0..files.len() {
        let Some(made) = files.get(place) else {
            return Ok(text);
        };
        let name = name_of(alloc, file, place)?;
        let more = line(alloc, &name, made.commands)?;
        text.push_str(&more)?;
    }
    Ok(text)
}

// A file that wasn't there before.
fn create(rt: &HostRuntime, name: &str, place: usize) -> Result<File, Unmade> {
    match File::create_new(rt, name) {
        Ok(file) => Ok(file),
        Err(e) if e.kind() == io::ErrorKind::AlreadyExists => Err(Unmade::Exists(place)),
        Err(e) if e.kind() == io::ErrorKind::OutOfMemory => Err(Unmade::NoMemory),
        Err(_) => Err(Unmade::Unwritten(place)),
    }
}

impl Exporting<'_> {
    fn write(&self, rt: &HostRuntime, place: usize, text: &[u8]) -> Result<(), Unmade> {
        let name = name_of(rt.alloc(), self.file, place)?;
        let mut file = create(rt, &name, place)?;
        if write_once(&mut file, text).is_err() || file.sync_all().is_err() {
            return Err(Unmade::Unwritten(place));
        }
        Ok(())
    }

    fn write_all(&self, rt: &HostRuntime, files: &[SiteFile]) -> Result<(), Unmade> {
        for place in 0..files.len() {
            self.write(rt, place, files[place].text.as_bytes())?;
        }
        Ok(())
    }

    // Makes the files; returns a line for each.
    fn make_files(&self, members: &mut Sockets<'_>) -> Result<String, Unmade>
        ensures { IfOk result (λ t. (entries : List LogEntry)
            × (string_bytes t ≡ spec.lines_of (export_of self.now) entries)) }
    {
        let rt = members.runtime();
        let files = export(rt.alloc(), members, LIMITS)?;
        self.write_all(rt, &files)?;
        let text = lines_of_files(rt.alloc(), self.file, &files)?;
        Ok(text)
    }

    // Makes the files, and prints a line for each.
    fn make<W: Write>(&self, members: &mut Sockets<'_>, writer: &mut W) -> Result<(), Unmade>
        ensures { (entries : List LogEntry) × MatchResult result
            (λ _. Appends (W.contents writer.old) (W.contents writer.new)
            (spec.lines_of (export_of self.now) entries))
            (λ _. AppendsFront (W.contents writer.old) (W.contents writer.new)
            (spec.lines_of (export_of self.now) entries)) }
    {
        match self.make_files(members) {
            Ok(text) => match write_once(writer, text.as_bytes()) {
                Ok(()) => Ok(()),
                Err(_) => Err(Unmade::Unprinted),
            },
            Err(why) => Err(why),
        }
    }

    fn subject(&self, alloc: Global, why: Unmade) -> Result<String, AllocError>
        ensures { IfOk result (λ t. string_bytes t ≡ spec.subject_of (export_of self.now) why) }
    {
        match why {
            Unmade::NoMemory => String::from_str(alloc, "out of memory"),
            Unmade::Away | Unmade::NoLog => String::from_str(alloc, self.member),
            Unmade::Exists(place) | Unmade::Unwritten(place) => name_of(alloc, self.file, place),
            Unmade::Unprinted => String::from_str(alloc, "the names of the files"),
        }
    }

    fn reason(&self, alloc: Global, why: Unmade) -> Result<String, AllocError>
        ensures { IfOk result (λ t. string_bytes t ≡ spec.reason_of (export_of self.now) why) }
    {
        let subject = self.subject(alloc, why)?;
        reason_line(alloc, &subject, why.words())
    }

    // Tells the reason, where there is memory for it.
    #[tactic(auto, using(crate::proofs::Ends::nothing))]
    fn tell<E: Write>(&self, alloc: Global, why: Unmade, error: &mut E)
        ensures { AppendsFront (E.contents error.old) (E.contents error.new)
            (spec.reason_of (export_of self.now) why) }
    {
        if let Ok(reason) = self.reason(alloc, why) {
            tell(error, reason.as_bytes());
        }
    }

    // Makes the files of the log of the one member that there is.
    #[tactic(auto, using(crate::proofs::Exports::are_made, crate::proofs::Exports::is_told))]
    fn run<W: Write, E: Write>(
        &self,
        members: &mut Sockets<'_>,
        writer: &mut W,
        error: &mut E,
    ) -> u8
        ensures { Exports (export_of self.now) result (W.contents writer.old)
            (W.contents writer.new) (E.contents error.old) (E.contents error.new) }
    {
        match self.make(members, writer) {
            Ok(()) => 0,
            Err(why) => {
                let status = fail(why.fault(), error);
                self.tell(members.runtime().alloc(), why, error);
                status
            }
        }
    }

    /// Writes what the member has applied as site files, none of which may be there before, and
    /// prints a line for each.
    #[tactic(auto, using(crate::proofs::Exports::usage, crate::proofs::Exports::no_room))]
    pub fn export<W: Write, E: Write>(&self, rt: &HostRuntime, writer: &mut W, error: &mut E) -> u8
        ensures { Exports (export_of self.now) result (W.contents writer.old)
            (W.contents writer.new) (E.contents error.old) (E.contents error.new) }
    {
        match Sockets::new(rt, self.member) {
            Ok(mut members) if members.count() == 1 => self.run(&mut members, writer, error),
            Ok(_) | Err(MembersFault::Unknown) => refuse(error),
            Err(MembersFault::NoMemory) => fail(ReplayFault::NoMemory, error),
        }
    }
}
