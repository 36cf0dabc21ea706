//! The page of the site that the commands of several files make.

ghost use Rattle.std.specs.Prelude.{◌≡◌, ◌+◌, IfOk, Ok, false, length};
ghost use Rattle.std.specs.Io.KnownBytes.{Keeps};
ghost use Rattle.press_demonstration.specs.Demonstration.{demonstration};
ghost use Rattle.press_kit.specs.KitFile.{file_limit};
ghost use Rattle.press_lint.specs.Joints.{files_of, read_together};
ghost use Rattle.press_text.specs.Streams.{TakesAtMost};
ghost use Rattle.press_program.specs.Endings.{ending_of, known_of, page_ending, EndsBehind, ReadsBehind, ShowsFiles};
ghost use Rattle.press_program.specs.KitFiles.{view_of_source, view_where};
ghost use Rattle.press_program.specs.Words.{is_input, several_of};

use crate::ending::{Ending, page_after};
use crate::kitting::KitSource;
use crate::over::Over;
use crate::sites::{read_all_named, site_of};
use crate::telling::finish;
use crate::wanted::SeveralFiles;
use crate::{demonstration_kit, filed_kit};
use press_apply::Stamped;
use press_callbacks::{BoxedTurns, CallIn, Kit, Stored, script_turn};
use press_demonstration::{grow, grow_turn, parts};
use press_lint::{Joint, NamedFile, read_files};
use press_page::Target;
use press_text::{Copied, Items};
use press_world::ReplayFault;
use std::alloc::AllocError;
use std::io::{Read, Write};
use std::rt::Files;

impl SeveralFiles<'_> {
    // The commands of all of them, in their order.
    fn commands<Rt: AllocGlobal + Files, R: Read>(
        &self,
        rt: &Rt,
        reader: &mut R,
    ) -> Result<Items<Stamped>, ReplayFault>
        ensures took { TakesAtMost (R.remaining reader.old)
            (R.remaining reader.new) (file_limit + 1) }
        ensures stays { is_input self.now.file.now ≡ false →
            Keeps (R.remaining reader.old) (R.remaining reader.new) }
        ensures gives { ReadsBehind (known_of self.now.file.now (R.remaining reader.old))
            (length (several_of self.now).further) result }
    {
        let first = site_of(rt, self.file, reader)?;
        let further = read_all_named(rt, &self.further)?;
        let mut commands = first.into_vec();
        let mut more = further.into_vec();
        commands.append(&mut more)?;
        Ok(Items::from_vec(commands))
    }
}

impl<Rt: AllocGlobal> Over<'_, '_, Rt> {
    // The page of the site that commands make over the demonstration kit.
    fn demonstrated_page(
        &self,
        target: &Target,
        commands: Items<Stamped>,
    ) -> Result<Ending, AllocError>
        ensures { IfOk result (λ end. end ≡ page_ending demonstration target.now (Ok commands)) }
    {
        let alloc = self.rt.alloc();
        match demonstration_kit!(alloc) {
            Ok(kit) => page_after(alloc, &kit, target, commands),
            Err(_) => Err(AllocError),
        }
    }

    // The same over the kit of these kit files.
    fn filed_page(
        &self,
        files: &[NamedFile<'_>],
        target: &Target,
        commands: Items<Stamped>,
    ) -> Result<Ending, AllocError>
        ensures { IfOk result (λ end. end ≡ page_ending
            (view_where (read_together (files_of files.now))) target.now (Ok commands)) }
    {
        let alloc = self.rt.alloc();
        let Ok(Joint { parts, shares: _ }) = read_files(alloc, files) else {
            return Err(AllocError);
        };
        match filed_kit!(alloc, parts) {
            Ok(kit) => page_after(alloc, &kit, target, commands),
            Err(_) => Err(AllocError),
        }
    }

    // The page of the site that commands make over the kit of the run.
    fn page_of(&self, target: &Target, commands: Items<Stamped>) -> Result<Ending, AllocError>
        ensures { IfOk result (λ end. end ≡ page_ending (view_of_source self.now.kit.now)
            target.now (Ok commands)) }
    {
        match self.kit {
            KitSource::Demonstration => self.demonstrated_page(target, commands),
            KitSource::OfFiles(files) => self.filed_page(files, target, commands),
        }
    }
}

impl<Rt: AllocGlobal + Files> Over<'_, '_, Rt> {
    // The end for what is asked of several files.
    fn end_of_several<R: Read>(
        &self,
        files: &SeveralFiles<'_>,
        reader: &mut R,
    ) -> Result<Ending, ReplayFault>
        ensures took { TakesAtMost (R.remaining reader.old)
            (R.remaining reader.new) (file_limit + 1) }
        ensures stays { is_input files.now.file.now ≡ false →
            Keeps (R.remaining reader.old) (R.remaining reader.new) }
        ensures ends { EndsBehind (view_of_source self.now.kit.now) files.now.target
            (known_of files.now.file.now (R.remaining reader.old))
            (length (several_of files.now).further) (ending_of result) }
    {
        let commands = files.commands(self.rt, reader)?;
        Ok(self.page_of(&files.target, commands)?)
    }

    /// Prints what is asked of several files.
    pub fn show_several<R: Read, W: Write, E: Write>(
        &self,
        files: &SeveralFiles<'_>,
        reader: &mut R,
        writer: &mut W,
        error: &mut E,
    ) -> u8
        ensures took { TakesAtMost (R.remaining reader.old)
            (R.remaining reader.new) (file_limit + 1) }
        ensures stays { is_input files.now.file.now ≡ false →
            Keeps (R.remaining reader.old) (R.remaining reader.new) }
        ensures shows { ShowsFiles (view_of_source self.now.kit.now) (several_of files.now)
            (R.remaining reader.old) result (W.contents writer.old) (W.contents writer.new)
            (E.contents error.old) (E.contents error.new) }
    {
        let end = match self.end_of_several(files, reader) {
            Ok(end) => end,
            Err(fault) => Ending::Fault(fault),
        };
        finish(end, writer, error)
    }
}
