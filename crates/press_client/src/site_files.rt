//! Site files that are written entry by entry.

ghost use Rattle.std.specs.Prelude.{◌≡◌, ◌<◌, ◌^◌, ◌+◌, IfOk, string_bytes, true};
ghost use Rattle.press_client.specs.Exporting as spec;
ghost use Rattle.press_client.specs.Exporting.{writing_of};

use crate::entry::LogEntry;
use press_site::Token;
use press_text::Text;
use std::alloc::{AllocError, Global};
use std::mem;

// What a site file begins and ends with, and what is between its commands.
const FRONT: &str = "{\"commands\":[\n";

const END: &str = "\n]}\n";

const BETWEEN: &str = ",\n";

// The bytes around a command, at most.
const AROUND: usize = 6;

/// The most that a site file has.
#[derive(Clone, Copy, Debug, PartialEq, Eq)]
pub struct Limits {
    pub bytes: usize,
    pub commands: usize,
}

/// The text of a site file, and how many commands it has.
#[derive(Debug)]
pub struct SiteFile {
    pub text: Text,
    pub commands: usize,
}

impl Drop for SiteFile {
    fn drop(self) {
        let SiteFile {
            text: _,
            commands: _,
        } = self;
    }
}

/// What a command begins with, by its moment.
#[tactic(auto, unfolding(crate::specs::Exporting::moment_front))]
pub(crate) fn moment_front(alloc: Global, at: u64) -> Result<String, AllocError>
    ensures { IfOk result (λ t. string_bytes t ≡ spec.moment_front at) }
{
    format!(in alloc; "{{\"at\":{at},")
}

fn command_text(alloc: Global, at: u64, fields: &str) -> Result<String, AllocError>
    ensures { IfOk result (λ t. string_bytes t ≡ spec.command_text at fields.now) }
{
    let mut text = moment_front(alloc, at)?;
    text.push_str(fields)?;
    Ok(text)
}

#[tactic(auto, unfolding(crate::specs::Exporting::tick_fields))]
fn tick_fields(alloc: Global, editor: &str, seq: u64) -> Result<String, AllocError>
    ensures { IfOk result (λ t. string_bytes t ≡ spec.tick_fields editor.now seq) }
{
    format!(in alloc; "\"editor\":\"{editor}\",\"kind\":\"tick\",\"seq\":{seq}}}")
}

// A tick under a token.
fn tick_text(alloc: Global, at: u64, token: &Token) -> Result<String, AllocError>
    ensures { IfOk result (λ t. string_bytes t
        ≡ spec.command_text at (spec.tick_fields token.now.editor token.now.seq)) }
{
    let fields = tick_fields(alloc, token.editor.as_str(), token.seq)?;
    command_text(alloc, at, &fields)
}

// A file that ends here.
fn close_file(mut text: String, commands: usize) -> Result<SiteFile, AllocError>
    ensures { IfOk result (λ file. file ≡ spec.closed_file (string_bytes text) commands) }
{
    text.push_str(END)?;
    Ok(SiteFile {
        text: Text::from_string(text)?,
        commands,
    })
}

fn between(commands: usize) -> &'static str
    ensures { result.now ≡ spec.between commands }
{
    if commands == 0 { "" } else { BETWEEN }
}

/// Site files that are written entry by entry, each as long as the limits leave it.
pub struct SiteFiles {
    alloc: Global,
    limits: Limits,
    done: Vec<SiteFile>,
    // The next file as far as it is, and how many commands it has.
    text: String,
    commands: usize,
    // The latest moment so far, and the token of the command before.
    latest: u64,
    last: Option<Token>,
}

impl Drop for SiteFiles {
    fn drop(self) {
        let SiteFiles {
            alloc: _,
            limits: _,
            done: _,
            text: _,
            commands: _,
            latest: _,
            last: _,
        } = self;
    }
}

impl SiteFiles {
    pub fn new(alloc: Global, limits: Limits) -> Result<SiteFiles, AllocError>
        ensures begun { IfOk result (λ files. writing_of files ≡ spec.first_file) }
        ensures limits { IfOk result (λ files. files.limits ≡ limits) }
    {
        Ok(SiteFiles {
            alloc,
            limits,
            done: Vec::new(alloc),
            text: String::from_str(alloc, FRONT)?,
            commands: 0,
            latest: 0,
            last: None,
        })
    }

    // Whether a command of that length goes to the next file.
    fn fits(&self, count: usize) -> bool
        ensures fits { result ≡ spec.fits self.now.limits count (writing_of self.now) }
        ensures few { result ≡ true → self.now.commands + 1 < 2 ^ 64 }
    {
        let left = self.limits.bytes.saturating_sub(self.text.len());
        let room = left.saturating_sub(AROUND);
        self.commands == 0 || (self.commands < self.limits.commands && count < room)
    }

    // The next file is whole.
    fn turn(&mut self) -> Result<(), AllocError>
        ensures turned { IfOk result (λ _. writing_of self.new
            ≡ spec.next_file (writing_of self.old)) }
        ensures limits { self.new.limits ≡ self.old.limits }
    {
        let front = String::from_str(self.alloc, FRONT)?;
        let text = mem::replace(&mut self.text, front);
        let file = close_file(text, self.commands)?;
        self.done.push(file)?;
        self.commands = 0;
        Ok(())
    }

    // A command more in the next file.
    fn add(&mut self, text: &str) -> Result<(), AllocError>
        requires { self.old.commands + 1 < 2 ^ 64 }
        ensures added { IfOk result (λ _.
            writing_of self.new ≡ spec.with_text text.now (writing_of self.old)) }
        ensures limits { self.new.limits ≡ self.old.limits }
    {
        self.text.push_str(between(self.commands))?;
        self.text.push_str(text)?;
        self.commands += 1;
        Ok(())
    }

    fn write(&mut self, text: &str) -> Result<(), AllocError>
        ensures written { IfOk result (λ _. writing_of self.new
            ≡ spec.with_command self.old.limits text.now (writing_of self.old)) }
        ensures limits { self.new.limits ≡ self.old.limits }
    {
        if self.fits(text.len()) {
            self.add(text)
        } else {
            self.turn()?;
            self.add(text)
        }
    }

    // A command of that moment: the first one has the moments of the fillers before it.
    fn put_command(&mut self, token: Token, at: u64, fields: &str) -> Result<(), AllocError>
        ensures put { IfOk result (λ _. writing_of self.new
            ≡ spec.put_command self.old.limits token at fields.now (writing_of self.old)) }
        ensures limits { self.new.limits ≡ self.old.limits }
    {
        let moment = match self.last {
            None => at.max(self.latest),
            Some(_) => at,
        };
        let text = command_text(self.alloc, moment, fields)?;
        self.write(&text)?;
        self.latest = self.latest.max(at);
        self.last = Some(token);
        Ok(())
    }

    // A filler moves the site's moment alone, and so does a command under a token that is known.
    fn put_filler(&mut self, at: u64) -> Result<(), AllocError>
        ensures put { IfOk result (λ _. writing_of self.new
            ≡ spec.put_filler self.old.limits at (writing_of self.old)) }
        ensures limits { self.new.limits ≡ self.old.limits }
    {
        if at <= self.latest {
            return Ok(());
        }
        if let Some(token) = &self.last {
            let text = tick_text(self.alloc, at, token)?;
            self.write(&text)?;
        }
        self.latest = at;
        Ok(())
    }

    /// One entry more. Without memory for it they are of no use any more.
    pub fn put(&mut self, entry: LogEntry) -> Result<(), AllocError>
        ensures put { IfOk result (λ _. writing_of self.new
            ≡ spec.with_entry self.old.limits entry (writing_of self.old)) }
        ensures limits { self.new.limits ≡ self.old.limits }
    {
        match entry {
            LogEntry::Command { token, at, fields } => self.put_command(token, at, fields.as_str()),
            LogEntry::Filler { at } => self.put_filler(at),
        }
    }

    /// The files, one at least.
    pub fn into_files(self) -> Result<Vec<SiteFile>, AllocError>
        ensures { IfOk result (λ files. files.items ≡ spec.files_in (writing_of self)) }
    {
        let SiteFiles {
            alloc: _,
            limits: _,
            mut done,
            text,
            commands,
            latest: _,
            last: _,
        } = self;
        let file = close_file(text, commands)?;
        done.push(file)?;
        Ok(done)
    }
}
