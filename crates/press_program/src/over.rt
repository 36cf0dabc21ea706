//! What is to be done, over a kit.

ghost use Rattle.std.specs.Prelude.{◌≡◌, ◌+◌, None, false, IfOk, IfErr};
ghost use Rattle.std.specs.Io.KnownBytes.{Keeps};
ghost use Rattle.press_kit.specs.KitFile.{file_limit};
ghost use Rattle.press_lint.specs.Joints.{files_of, read_together};
ghost use Rattle.press_text.specs.Streams.{TakesAtMost};
ghost use Rattle.press_program.specs.Endings as spec;
ghost use Rattle.press_program.specs.Endings.{known_of, EndsTask, Shows};
ghost use Rattle.press_program.specs.KitFiles.{view_of_source, view_where};
ghost use Rattle.press_program.specs.Words.{is_input, wanted_of};
ghost use Rattle.press_demonstration.specs.Demonstration.{demonstration};

use crate::ending::{Ending, run_task};
use crate::kitting::KitSource;
use crate::task::Task;
use crate::telling::finish;
use crate::wanted::Wanted;
use crate::{demonstration_kit, filed_kit};
use press_callbacks::{BoxedTurns, CallIn, Kit, Stored, script_turn};
use press_demonstration::{grow, grow_turn, parts};
use press_lint::{Joint, NamedFile, read_files};
use press_text::Copied;
use press_wire::MOST_MEMBERS;
use press_world::ReplayFault;
use std::io::{Read, Write};
use std::net::Net;
use std::rt::Files;
use std::{fs, io};

// How many kits are made for it.
fn kits_for(task: &Task) -> usize
    ensures { result ≡ spec.kits_for task.now }
{
    match task {
        Task::Page(_) => 1,
        Task::Replay | Task::Loop => MOST_MEMBERS as usize,
    }
}

/// A program that runs over a kit.
#[derive(Drop)]
pub(crate) struct Over<'r, 'f, Rt> {
    pub rt: &'r Rt,
    pub kit: &'r KitSource<'f>,
}

impl<Rt: AllocGlobal + Net> Over<'_, '_, Rt> {
    // The end for what is asked of a file, over demonstration kits.
    fn run_over_demonstration<R: Read, W: Write>(
        &self,
        task: &Task,
        reader: &mut R,
        writer: &mut W,
    ) -> Result<Ending, ReplayFault>
        ensures took { TakesAtMost (R.remaining reader.old)
            (R.remaining reader.new) (file_limit + 1) }
        ensures ends { IfOk result (λ end. EndsTask demonstration task.now (R.remaining reader.old)
            (W.contents writer.old) (W.contents writer.new) end) }
        ensures err { IfErr result (λ e. (e ≡ ReplayFault.NoMemory)
            × (W.contents writer.new ≡ W.contents writer.old)) }
    {
        let alloc = self.rt.alloc();
        let mut kits: Vec<Kit> = Vec::new(alloc);
        for _i in 0..kits_for(task) {
            match demonstration_kit!(alloc) {
                Ok(kit) => kits.push(kit)?,
                Err(_) => return Err(ReplayFault::NoMemory),
            }
        }
        Ok(run_task(self.rt, kits, task, reader, writer))
    }

    // The same over kits of these kit files.
    fn run_over_files<R: Read, W: Write>(
        &self,
        files: &[NamedFile<'_>],
        task: &Task,
        reader: &mut R,
        writer: &mut W,
    ) -> Result<Ending, ReplayFault>
        ensures took { TakesAtMost (R.remaining reader.old)
            (R.remaining reader.new) (file_limit + 1) }
        ensures ends { IfOk result (λ end. EndsTask
            (view_where (read_together (files_of files.now))) task.now
            (R.remaining reader.old) (W.contents writer.old) (W.contents writer.new) end) }
        ensures err { IfErr result (λ e. (e ≡ ReplayFault.NoMemory)
            × (W.contents writer.new ≡ W.contents writer.old)) }
    {
        let alloc = self.rt.alloc();
        let mut kits: Vec<Kit> = Vec::new(alloc);
        for _i in 0..kits_for(task) {
            let Ok(Joint { parts, shares: _ }) = read_files(alloc, files) else {
                return Err(ReplayFault::NoMemory);
            };
            match filed_kit!(alloc, parts) {
                Ok(kit) => kits.push(kit)?,
                Err(_) => return Err(ReplayFault::NoMemory),
            }
        }
        Ok(run_task(self.rt, kits, task, reader, writer))
    }

    fn try_run<R: Read, W: Write>(
        &self,
        task: &Task,
        reader: &mut R,
        writer: &mut W,
    ) -> Result<Ending, ReplayFault>
        ensures took { TakesAtMost (R.remaining reader.old)
            (R.remaining reader.new) (file_limit + 1) }
        ensures ends { IfOk result (λ end. EndsTask (view_of_source self.now.kit.now) task.now
            (R.remaining reader.old) (W.contents writer.old) (W.contents writer.new) end) }
        ensures err { IfErr result (λ e. (e ≡ ReplayFault.NoMemory)
            × (W.contents writer.new ≡ W.contents writer.old)) }
    {
        match self.kit {
            KitSource::Demonstration => self.run_over_demonstration(task, reader, writer),
            KitSource::OfFiles(files) => self.run_over_files(files, task, reader, writer),
        }
    }

    // The end of a run on the file that a reader has left.
    #[tactic(auto, using(crate::proofs::Ends::out_of_memory))]
    fn run_reader<R: Read, W: Write>(&self, task: &Task, reader: &mut R, writer: &mut W) -> Ending
        ensures took { TakesAtMost (R.remaining reader.old)
            (R.remaining reader.new) (file_limit + 1) }
        ensures ends { EndsTask (view_of_source self.now.kit.now) task.now (R.remaining reader.old)
            (W.contents writer.old) (W.contents writer.new) result }
    {
        match self.try_run(task, reader, writer) {
            Ok(end) => end,
            Err(fault) => Ending::Fault(fault),
        }
    }
}

impl<Rt: AllocGlobal + Files + Net> Over<'_, '_, Rt> {
    // The end of a run on a file by its name. One that can't be opened counts as one that can't be
    // read.
    fn run_named<W: Write>(&self, wanted: &Wanted<'_>, writer: &mut W) -> Ending
        ensures { EndsTask (view_of_source self.now.kit.now) wanted.now.task None
            (W.contents writer.old) (W.contents writer.new) result }
    {
        match fs::open(self.rt, wanted.file) {
            Ok(mut file) => self.run_reader(&wanted.task, &mut file, writer),
            Err(e) if e.kind() == io::ErrorKind::OutOfMemory => {
                Ending::Fault(ReplayFault::NoMemory)
            }
            Err(_) => Ending::Fault(ReplayFault::ReadFault),
        }
    }

    fn run_input<R: Read, W: Write>(
        &self,
        wanted: &Wanted<'_>,
        reader: &mut R,
        writer: &mut W,
    ) -> Ending
        ensures took { TakesAtMost (R.remaining reader.old)
            (R.remaining reader.new) (file_limit + 1) }
        ensures stays { is_input wanted.now.file.now ≡ false →
            Keeps (R.remaining reader.old) (R.remaining reader.new) }
        ensures ends { EndsTask (view_of_source self.now.kit.now) wanted.now.task
            (known_of wanted.now.file.now (R.remaining reader.old))
            (W.contents writer.old) (W.contents writer.new) result }
    {
        if wanted.file == "-" {
            self.run_reader(&wanted.task, reader, writer)
        } else {
            self.run_named(wanted, writer)
        }
    }

    /// Prints what is asked of a file.
    pub fn show<R: Read, W: Write, E: Write>(
        &self,
        wanted: &Wanted<'_>,
        reader: &mut R,
        writer: &mut W,
        error: &mut E,
    ) -> u8
        ensures took { TakesAtMost (R.remaining reader.old)
            (R.remaining reader.new) (file_limit + 1) }
        ensures stays { is_input wanted.now.file.now ≡ false →
            Keeps (R.remaining reader.old) (R.remaining reader.new) }
        ensures shows { Shows (view_of_source self.now.kit.now) (wanted_of wanted.now)
            (R.remaining reader.old) result (W.contents writer.old) (W.contents writer.new)
            (E.contents error.old) (E.contents error.new) }
    {
        let end = self.run_input(wanted, reader, writer);
        finish(end, writer, error)
    }
}
