//! What is to be done over a kit, a server among it.

ghost use Rattle.std.specs.Prelude.{◌≡◌, ◌+◌, IfOk, OnErr, map};
ghost use Rattle.std.specs.Io.KnownBytes.{Keeps};
ghost use Rattle.press_demonstration.specs.Demonstration.{demonstration};
ghost use Rattle.press_kit.specs.KitFile.{file_limit};
ghost use Rattle.press_lint.specs.Joints.{File as FileRead, files_of, read_together};
ghost use Rattle.press_cluster.specs.Digests.{behind_files, digest_of_files};
ghost use Rattle.press_server.specs.Listening.{server_line, where_of};
ghost use Rattle.press_text.specs.Streams.{AppendsFront, TakesAtMost};
ghost use Rattle.press_program.specs.Endings.{Does, IsServed, Listens, ReadsFor};
ghost use Rattle.press_program.specs.KitFiles.{view_of_source, view_where};
ghost use Rattle.press_program.specs.Words.{job_of, server_of};

use crate::kitting::KitSource;
use crate::over::Over;
use crate::reasons::{reason_of, serve_line};
use crate::serves::Serves;
use crate::telling::tell;
use crate::wanted::Job;
use crate::{demonstration_kit, filed_kit};
use press_callbacks::{BoxedTurns, CallIn, Kit, Stored, script_turn};
use press_cluster::{behind_file, digest_of};
use press_demonstration::{grow, grow_turn, parts};
use press_lint::{Joint, NamedFile, read_files};
use press_server::{ServeFault, Setup};
use press_text::Copied;
use std::alloc::AllocError;
use std::io::{Read, Write};

// The digest of kit files with these behind them.
fn behind_kits(digest: u64, files: &[NamedFile<'_>]) -> u64
    ensures { result ≡ behind_files digest
        (map (λ (f : FileRead). f.bytes) (files_of files.now)) }
{
    let mut digest = digest;
    for file in files {
        digest = behind_file(digest, &file.bytes);
    }
    digest
}

// What members compare of these kit files.
fn digest_of_kits(files: &[NamedFile<'_>]) -> u64
    ensures { result ≡ digest_of_files
        (map (λ (f : FileRead). f.bytes) (files_of files.now)) }
{
    match files.split_first() {
        Some((first, rest)) => behind_kits(digest_of(&first.bytes), rest),
        None => digest_of(&[]),
    }
}

/// A program that runs over a kit, and whoever serves for it.
#[derive(Drop)]
pub(crate) struct Hosting<'r, 'f, S> {
    pub over: Over<'r, 'f, HostRuntime>,
    pub serves: &'r S,
}

impl<S: Serves> Hosting<'_, '_, S> {
    // A server over the demonstration kit; none where there is no memory for that.
    fn serve_demonstration<W: Write, E: Write>(
        &self,
        setup: &Setup<'_>,
        writer: &mut W,
        error: &mut E,
    ) -> Result<Result<(), ServeFault>, AllocError>
        ensures served { IfOk result (λ ended. S.served demonstration (server_of setup.now) ended) }
        ensures line { IfOk result (λ _. AppendsFront (W.contents writer.old)
            (W.contents writer.new) (server_line (where_of setup.now.place))) }
        ensures nobody { OnErr result (Keeps (W.contents writer.old) (W.contents writer.new)) }
    {
        let alloc = self.over.rt.alloc();
        match demonstration_kit!(alloc) {
            Ok(kit) => {
                let ended = self.serves.serve(kit, setup, writer, error);
                Ok(ended)
            }
            Err(_) => Err(AllocError),
        }
    }

    // The same over the kit of these kit files.
    fn serve_files<W: Write, E: Write>(
        &self,
        files: &[NamedFile<'_>],
        setup: &Setup<'_>,
        writer: &mut W,
        error: &mut E,
    ) -> Result<Result<(), ServeFault>, AllocError>
        ensures served { IfOk result (λ ended. S.served
            (view_where (read_together (files_of files.now))) (server_of setup.now) ended) }
        ensures line { IfOk result (λ _. AppendsFront (W.contents writer.old)
            (W.contents writer.new) (server_line (where_of setup.now.place))) }
        ensures nobody { OnErr result (Keeps (W.contents writer.old) (W.contents writer.new)) }
    {
        let alloc = self.over.rt.alloc();
        let Ok(Joint { parts, shares: _ }) = read_files(alloc, files) else {
            return Err(AllocError);
        };
        match filed_kit!(alloc, parts) {
            Ok(kit) => {
                let setup = Setup {
                    kit: Some(digest_of_kits(files)),
                    ..*setup
                };
                let ended = self.serves.serve(kit, &setup, writer, error);
                Ok(ended)
            }
            Err(_) => Err(AllocError),
        }
    }

    // A server over the kit of the run.
    fn host<W: Write, E: Write>(
        &self,
        setup: &Setup<'_>,
        writer: &mut W,
        error: &mut E,
    ) -> Result<(), ServeFault>
        ensures { IsServed S.served (view_of_source self.now.over.kit.now) (server_of setup.now)
            result (W.contents writer.old) (W.contents writer.new) }
    {
        match self.over.kit {
            KitSource::Demonstration => match self.serve_demonstration(setup, writer, error) {
                Ok(ended) => ended,
                Err(_) => Err(ServeFault::NoMemory),
            },
            KitSource::OfFiles(files) => match self.serve_files(files, setup, writer, error) {
                Ok(ended) => ended,
                Err(_) => Err(ServeFault::NoMemory),
            },
        }
    }

    fn tell_fault<E: Write>(&self, fault: ServeFault, setup: &Setup<'_>, error: &mut E) {
        let same = fault;
        tell(error, serve_line(same));
        if let Ok(Some(reason)) = reason_of(self.over.rt.alloc(), fault, setup) {
            tell(error, reason.as_bytes());
        }
    }

    // Runs a server, and reports its fault.
    fn serve<W: Write, E: Write>(&self, setup: &Setup<'_>, writer: &mut W, error: &mut E) -> u8
        ensures { Listens S.served (view_of_source self.now.over.kit.now) (server_of setup.now)
            result (W.contents writer.old) (W.contents writer.new) }
    {
        match self.host(setup, writer, error) {
            Ok(()) => 0,
            Err(fault) => {
                self.tell_fault(fault, setup, error);
                2
            }
        }
    }

    /// What is to be done, over this kit.
    pub fn run_job<R: Read, W: Write, E: Write>(
        &self,
        job: &Job<'_>,
        reader: &mut R,
        writer: &mut W,
        error: &mut E,
    ) -> u8
        ensures took { TakesAtMost (R.remaining reader.old)
            (R.remaining reader.new) (file_limit + 1) }
        ensures reads { ReadsFor (job_of job.now) (R.remaining reader.old)
            (R.remaining reader.new) }
        ensures does { Does S.served (view_of_source self.now.over.kit.now) (job_of job.now)
            (R.remaining reader.old) result (W.contents writer.old) (W.contents writer.new)
            (E.contents error.old) (E.contents error.new) }
    {
        match job {
            Job::OfFile(wanted) => self.over.show(wanted, reader, writer, error),
            Job::OfFiles(files) => self.over.show_several(files, reader, writer, error),
            Job::Serve(setup) => self.serve(setup, writer, error),
            Job::Send(mailing) => mailing.send(self.over.rt, reader, writer, error),
            Job::Export(exporting) => exporting.export(self.over.rt, writer, error),
            Job::Next(nexting) => nexting.print(self.over.rt, writer, error),
        }
    }
}
