//! One run of the program over any reader and writers.

ghost use Rattle.std.specs.Prelude.{◌+◌, map, option_map, string_bytes};
ghost use Rattle.press_kit.specs.KitFile.{file_limit};
ghost use Rattle.press_text.specs.Streams.{TakesAtMost};
ghost use Rattle.press_program.specs.Endings.{ReadsAsked, ReadsFor, RefusesWords, Runs, RunsOver, any_server};
ghost use Rattle.press_program.specs.Words.{arguments_by, arguments_of, job_of};

use crate::hosting::Hosting;
use crate::kitting::{KitSource, ReadKits, Unusable, read_kits};
use crate::over::Over;
use crate::serves::{Serves, Sockets};
use crate::telling::{fail, refuse, refuse_kit, tell};
use crate::wanted::Arguments;
use crate::words::read_words;
use press_world::ReplayFault;
use std::io::{Read, Write};

impl Arguments<'_> {
    // What is asked, over its kit.
    fn runs<S: Serves, R: Read, W: Write, E: Write>(
        &self,
        program: &Program<'_, S>,
        reader: &mut R,
        writer: &mut W,
        error: &mut E,
    ) -> u8
        ensures took { TakesAtMost (R.remaining reader.old)
            (R.remaining reader.new) (file_limit + 1) }
        ensures reads { ReadsFor (job_of self.now.job) (R.remaining reader.old)
            (R.remaining reader.new) }
        ensures runs { RunsOver S.served (map (λ kit. kit.now) self.now.kits.items)
            (job_of self.now.job) (R.remaining reader.old) result (W.contents writer.old)
            (W.contents writer.new) (E.contents error.old) (E.contents error.new) }
    {
        let Program { rt, serves } = *program;
        if self.kits.is_empty() {
            let kit = KitSource::Demonstration;
            let over = Over { rt, kit: &kit };
            return Hosting { over, serves }.run_job(&self.job, reader, writer, error);
        }
        match read_kits(rt, &self.kits) {
            Ok(ReadKits { files, slips }) => {
                tell(error, slips.as_bytes());
                let kit = KitSource::OfFiles(files);
                let over = Over { rt, kit: &kit };
                Hosting { over, serves }.run_job(&self.job, reader, writer, error)
            }
            Err(Unusable { file, fault }) => refuse_kit(rt.alloc(), file, &fault, error),
        }
    }
}

/// The program over whoever serves for it.
#[derive(Clone, Copy)]
pub struct Program<'r, S> {
    pub rt: &'r HostRuntime,
    pub serves: &'r S,
}

impl<S: Serves> Program<'_, S> {
    // What is asked for, if anything is. Refused arguments read nothing.
    fn answers<R: Read, W: Write, E: Write>(
        &self,
        asked: &Option<Arguments<'_>>,
        reader: &mut R,
        writer: &mut W,
        error: &mut E,
    ) -> u8
        ensures took { TakesAtMost (R.remaining reader.old)
            (R.remaining reader.new) (file_limit + 1) }
        ensures asked { ReadsAsked (option_map (λ a. arguments_of a) asked.now)
            (R.remaining reader.old) (R.remaining reader.new) }
        ensures runs { Runs S.served (option_map (λ a. arguments_of a) asked.now)
            (R.remaining reader.old) result (W.contents writer.old) (W.contents writer.new)
            (E.contents error.old) (E.contents error.new) }
        ensures refused { RefusesWords (option_map (λ a. arguments_of a) asked.now) result
            (R.remaining reader.old) (R.remaining reader.new)
            (W.contents writer.old) (W.contents writer.new)
            (E.contents error.old) (E.contents error.new) }
    {
        match asked {
            Some(asked) => asked.runs(self, reader, writer, error),
            None => refuse(error),
        }
    }

    /// One run, as `run` has it, with a server by whoever serves: over the kit of the run, and the
    /// place, the store, the page and the limits that the arguments name. Its status is 0 where it
    /// ended without a fault, and else 2.
    pub fn run<R: Read, W: Write, E: Write>(
        &self,
        words: &[String],
        reader: &mut R,
        writer: &mut W,
        error: &mut E,
    ) -> u8
        ensures read { TakesAtMost (R.remaining reader.old)
            (R.remaining reader.new) (file_limit + 1) }
        ensures asked { ReadsAsked (arguments_by (map string_bytes words.now))
            (R.remaining reader.old) (R.remaining reader.new) }
        ensures runs { Runs S.served (arguments_by (map string_bytes words.now))
            (R.remaining reader.old) result (W.contents writer.old) (W.contents writer.new)
            (E.contents error.old) (E.contents error.new) }
        ensures refused { RefusesWords (arguments_by (map string_bytes words.now)) result
            (R.remaining reader.old) (R.remaining reader.new)
            (W.contents writer.old) (W.contents writer.new)
            (E.contents error.old) (E.contents error.new) }
    {
        let Ok(asked) = read_words(self.rt.alloc(), words) else {
            return fail(ReplayFault::NoMemory, error);
        };
        self.answers(&asked, reader, writer, error)
    }
}

/// One run over an input and two outputs: `page FILE TARGET` prints the reply to what is asked
/// after the commands of a site file, which is the standard input for `-`; without arguments that
/// is `page - post:1`. With `--then FILE2`, which may be given more than once, the commands of
/// further files come behind those of FILE, in this order. The status is 0 for a reply of status
/// 200, and 1 for another. `replay FILE` prints the transcript of a schedule over at most seven
/// nodes, with status 0, and so does `loop FILE`, where each command, message and request for a
/// page comes over a socket of the loopback. `serve --port N [--store FILE]` serves a node of a
/// cluster of one at a port of 127.0.0.1, and `serve --id N --peers HOST:PORT,.. --store FILE
/// [--tick N]` one of a cluster of up to seven at its own address among these, over a store that is
/// there: with `--new` that is made, and nothing is served; with `--turns N` for N connections, and
/// then it ends with status 0; with `--editor FILE` that file is shown at
/// `/editor`, and with `--ahead N` no command is taken that is more than N seconds ahead of the
/// machine's clock. A member whose store fails ends with its fault, and with `--stay` answers 503.
/// With `--status` a server tells how it stands. `send FILE MEMBERS` sends the commands of a site
/// file to members, and prints what became of them; `export MEMBER [FILE]` makes site files of the
/// log of a member, of which the first is `site.json` where no FILE is named, and prints a line for
/// each. `kit --next OLD NEW` prints a kit file that extends OLD and has the plugins of NEW, and on
/// standard error which plugins to deactivate and to activate. With `--kit FILE` each of the others plays the callbacks and plugins of a kit file in
/// place of the demonstration kit, and with several of these those of all the files together; what
/// is wrong is reported with the file and the place in it, and what is surely a slip is a line
/// `press: warning in FILE: ..` before anything else. A fault is a line `press: fault N` on
/// standard error, and status 2; so is `press: usage` for any other arguments, and then nothing is
/// read.
///
/// A server runs over the sockets and files of the operating system (`Sockets`). Of it
/// `Program::run` says over what it is, with which line and which status: what goes over its
/// sockets is outside the clauses, since contracts see no bytes of a socket. `serve_turn` has the
/// contract of each of its connections.
pub fn run<R: Read, W: Write, E: Write>(
    rt: &HostRuntime,
    words: &[String],
    reader: &mut R,
    writer: &mut W,
    error: &mut E,
) -> u8
    ensures read { TakesAtMost (R.remaining reader.old) (R.remaining reader.new) (file_limit + 1) }
    ensures asked { ReadsAsked (arguments_by (map string_bytes words.now))
        (R.remaining reader.old) (R.remaining reader.new) }
    ensures runs { Runs any_server (arguments_by (map string_bytes words.now))
        (R.remaining reader.old) result (W.contents writer.old) (W.contents writer.new)
        (E.contents error.old) (E.contents error.new) }
    ensures refused { RefusesWords (arguments_by (map string_bytes words.now)) result
        (R.remaining reader.old) (R.remaining reader.new)
        (W.contents writer.old) (W.contents writer.new)
        (E.contents error.old) (E.contents error.new) }
{
    let serves = Sockets { rt };
    let program = Program {
        rt,
        serves: &serves,
    };
    program.run(words, reader, writer, error)
}
