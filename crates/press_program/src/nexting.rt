//! The next kit of two kit files, printed.

ghost use Rattle.std.specs.Prelude.{◌≡◌, ◌⊎◌, ◌∷◌, IfErr, IfOk, List, [], map, string_bytes, ℕ};
ghost use Rattle.press_lint.specs.Files.{GivesSlips};
ghost use Rattle.press_lint.specs.Joints.{File as FileRead, files_of, read_together};
ghost use Rattle.press_program.specs.KitFiles.{AreNamed, MeetsFault, slip_front};
ghost use Rattle.press_program.specs.Nexts as spec;
ghost use Rattle.press_program.specs.Words.{next_of};
ghost use Rattle.press_text.specs.Streams.{AppendsFront};
ghost use Rattle.press_upgrade.specs.Next.{IsNext};

use crate::kitting::{ReadKits, Unusable, read_kits};
use crate::telling::{fail, refuse_kit, tell};
use crate::wanted::Nexting;
use press_lint::NamedFile;
use press_text::write_once;
use press_upgrade::{NextFault, NextKit, next_kit};
use press_world::ReplayFault;
use std::alloc::{AllocError, Global};
use std::io::Write;
use std::rt::Files;

#[tactic(auto, unfolding(crate::specs::Nexts::task_line))]
fn task_line(alloc: Global, task: &str, name: &str) -> Result<String, AllocError>
    ensures { IfOk result (λ t. string_bytes t ≡ spec.task_line task.now name.now) }
{
    format!(in alloc; "press: {task} {name}\n")
}

// A line for each of these plugins.
#[tactic(auto, using(crate::proofs::Nexts::lines_on, crate::proofs::Nexts::lines_end))]
fn task_lines(alloc: Global, task: &str, names: &[String]) -> Result<String, AllocError>
    ensures { IfOk result (λ t. string_bytes t ≡ spec.task_lines task.now names.now) }
{
    let mut text = String::new(alloc);
    for place in 0..names.len() {
        let Some(name) = names.get(place) else {
            return Ok(text);
        };
        let more = task_line(alloc, task, name.as_str())?;
        text.push_str(&more)?;
    }
    Ok(text)
}

// Which plugins go, and which come.
fn tasks_of(alloc: Global, next: &NextKit) -> Result<String, AllocError>
    ensures { IfOk result (λ t. string_bytes t ≡ spec.tasks_of next.now) }
{
    let mut text = task_lines(alloc, "deactivate", &next.deactivate)?;
    let more = task_lines(alloc, "activate", &next.activate)?;
    text.push_str(&more)?;
    Ok(text)
}

// A next kit as it is printed, and what is told of plugins.
#[derive(Drop)]
struct Told {
    kit: String,
    tasks: String,
}

fn told_of(alloc: Global, next: &NextKit) -> Result<Told, AllocError>
    ensures kit { IfOk result (λ t. string_bytes t.kit ≡ spec.kit_text next.now) }
    ensures tasks { IfOk result (λ t. string_bytes t.tasks ≡ spec.tasks_of next.now) }
{
    let tasks = tasks_of(alloc, next)?;
    let mut kit = String::from_str(alloc, &next.text)?;
    kit.push_str("\n")?;
    Ok(Told { kit, tasks })
}

impl Told {
    // Prints the kit, and then tells what is told of plugins.
    #[tactic(auto, using(crate::proofs::Nexts::is_printed, crate::proofs::Nexts::is_cut))]
    fn print<W: Write, E: Write>(&self, writer: &mut W, error: &mut E) -> u8
        ensures { (next : NextKit) → string_bytes self.now.kit ≡ spec.kit_text next
            → string_bytes self.now.tasks ≡ spec.tasks_of next
            → spec.Prints next result (W.contents writer.old) (W.contents writer.new)
            (E.contents error.old) (E.contents error.new) }
    {
        match write_once(writer, self.kit.as_bytes()) {
            Ok(()) => {
                tell(error, self.tasks.as_bytes());
                0
            }
            Err(_) => fail(ReplayFault::WriteFault, error),
        }
    }
}

fn print_next<W: Write, E: Write>(
    alloc: Global,
    next: &NextKit,
    writer: &mut W,
    error: &mut E,
) -> u8
    ensures { spec.Prints next.now result (W.contents writer.old) (W.contents writer.new)
        (E.contents error.old) (E.contents error.new)
        ⊎ spec.TellsNone result (W.contents writer.old) (W.contents writer.new)
        (E.contents error.old) (E.contents error.new) }
{
    match told_of(alloc, next) {
        Ok(told) => told.print(writer, error),
        Err(_) => fail(ReplayFault::NoMemory, error),
    }
}

// Tells that there is no next kit.
fn refuse_next<E: Write>(error: &mut E) -> u8
    ensures status { result ≡ 2 }
    ensures told { AppendsFront (E.contents error.old) (E.contents error.new) spec.no_kit_line }
{
    tell(error, b"press: no kit can have all of both files\n");
    2
}

// The bytes of two kit files.
#[derive(Clone, Copy)]
struct Pair<'b> {
    old: &'b [u8],
    new: &'b [u8],
}

impl Pair<'_> {
    // Prints their next kit.
    #[tactic(auto, using(crate::proofs::Nexts::of_next))]
    fn print<W: Write, E: Write>(&self, alloc: Global, writer: &mut W, error: &mut E) -> u8
        ensures { spec.NextsOf self.now.old.now result (W.contents writer.old)
            (W.contents writer.new) (E.contents error.old) (E.contents error.new) }
    {
        match next_kit(alloc, self.old, self.new) {
            Ok(next) => print_next(alloc, &next, writer, error),
            Err(NextFault::NoMemory) => fail(ReplayFault::NoMemory, error),
            Err(_) => refuse_next(error),
        }
    }
}

// A kit file by its name, and no other.
fn read_one<'f, Rt: AllocGlobal + Files>(
    rt: &Rt,
    name: &'f str,
) -> Result<ReadKits<'f>, Unusable<'f>>
    ensures names { IfOk result (λ read. AreNamed (name.now ∷ []) (files_of read.files.items)) }
    ensures slips { IfOk result (λ read. GivesSlips slip_front
        (read_together (files_of read.files.items)) (string_bytes read.slips)) }
    ensures fault { IfErr result (λ u. MeetsFault (name.now ∷ []) u.file.now u.fault) }
{
    read_kits(rt, &[name])
}

// The bytes of a file that is the only one.
fn only<'b>(files: &'b [NamedFile<'_>]) -> &'b [u8]
    requires one { (name : List ℕ) × AreNamed (name ∷ []) (files_of files.now) }
    ensures { (name : List ℕ) → AreNamed (name ∷ []) (files_of files.now)
        → (file : FileRead) × (files_of files.now ≡ file ∷ []) × (file.bytes ≡ result.now) }
{
    &files[0].bytes
}

impl Nexting<'_> {
    // Prints the next kit of these bytes and the new file.
    #[tactic(auto, using(crate::proofs::Nexts::is_read, crate::proofs::Nexts::is_unusable))]
    fn print_behind<W: Write, E: Write>(
        &self,
        rt: &HostRuntime,
        old: &[u8],
        writer: &mut W,
        error: &mut E,
    ) -> u8
        ensures { spec.OverFile (next_of self.now).1
            (λ new later. spec.NextsOf old.now result (W.contents writer.old)
            (W.contents writer.new) later (E.contents error.new)) result
            (W.contents writer.old) (W.contents writer.new)
            (E.contents error.old) (E.contents error.new) }
    {
        match read_one(rt, self.new) {
            Ok(ReadKits { files, slips }) => {
                tell(error, slips.as_bytes());
                let pair = Pair {
                    old,
                    new: only(&files),
                };
                pair.print(rt.alloc(), writer, error)
            }
            Err(Unusable { file, fault }) => refuse_kit(rt.alloc(), file, &fault, error),
        }
    }

    /// Prints the next kit of the two files, and tells which plugins of the old one go and which of
    /// the next one come.
    #[tactic(auto, using(crate::proofs::Nexts::is_read, crate::proofs::Nexts::is_unusable))]
    pub fn print<W: Write, E: Write>(&self, rt: &HostRuntime, writer: &mut W, error: &mut E) -> u8
        ensures { spec.Nexts (next_of self.now) result (W.contents writer.old)
            (W.contents writer.new) (E.contents error.old) (E.contents error.new) }
    {
        match read_one(rt, self.old) {
            Ok(ReadKits { files, slips }) => {
                tell(error, slips.as_bytes());
                self.print_behind(rt, only(&files), writer, error)
            }
            Err(Unusable { file, fault }) => refuse_kit(rt.alloc(), file, &fault, error),
        }
    }
}
