//! Commands of a file that go to members.

ghost use Rattle.std.specs.Prelude.{ℕ, ◌≡◌, ◌+◌, Err, IfOk, List, MatchResult, Option, false, length};
ghost use Rattle.std.specs.Io.KnownBytes.{Appends, Keeps};
ghost use Rattle.press_client.specs.Reporting.{counts_of, report_of};
ghost use Rattle.press_kit.specs.KitFile.{file_limit};
ghost use Rattle.press_text.specs.Streams.{AppendsFront, TakesAtMost};
ghost use Rattle.press_program.specs.Endings.{IsMailStatus, IsSite, Mails, Reports, known_of, mail_status};
ghost use Rattle.press_program.specs.Words.{is_input};

use crate::sites::site_of;
use crate::telling::{fail, refuse};
use crate::wanted::Mailing;
use press_apply::Stamped;
use press_client::{Counts, Ending, MembersFault, Sockets, deliver, report};
use press_text::{Items, write_once};
use press_world::ReplayFault;
use std::alloc::Global;
use std::io::{Read, Write};

fn status_of(counts: Counts) -> u8
    ensures { result ≡ mail_status counts }
{
    if counts.are_done() { 0 } else { 1 }
}

// Prints what became of the commands. Where it isn't known of each, that counts as a failed read.
#[tactic(auto, using(crate::proofs::Ends::nothing, crate::proofs::Mails::whole_front))]
fn print<W: Write>(
    alloc: Global,
    commands: &[Stamped],
    endings: &[Ending],
    writer: &mut W,
) -> Result<u8, ReplayFault>
    ensures prints { MatchResult result
        (λ status. IsMailStatus (counts_of (length commands.now) endings.now) status
        × Appends (W.contents writer.old) (W.contents writer.new)
        (report_of commands.now endings.now))
        (λ _. AppendsFront (W.contents writer.old) (W.contents writer.new)
        (report_of commands.now endings.now)) }
    ensures left { result ≡ Err ReplayFault.ReadFault → Appends (W.contents writer.old)
        (W.contents writer.new) (report_of commands.now endings.now) }
{
    let text = report(alloc, commands, endings)?;
    write_once(writer, text.as_bytes())?;
    let counts = Counts::of(commands.len(), endings);
    if counts.left > 0 {
        return Err(ReplayFault::ReadFault);
    }
    Ok(status_of(counts))
}

impl Mailing<'_> {
    // Its commands.
    #[tactic(auto, using(crate::proofs::Mails::site_of))]
    fn commands<R: Read>(
        &self,
        rt: &HostRuntime,
        reader: &mut R,
    ) -> Result<Items<Stamped>, ReplayFault>
        ensures took { TakesAtMost (R.remaining reader.old)
            (R.remaining reader.new) (file_limit + 1) }
        ensures stays { is_input self.now.file.now ≡ false →
            Keeps (R.remaining reader.old) (R.remaining reader.new) }
        ensures site { IfOk result (λ commands.
            IsSite (known_of self.now.file.now (R.remaining reader.old)) commands) }
    {
        site_of(rt, self.file, reader)
    }

    // Sends commands, and prints what became of them.
    #[tactic(auto, using(crate::proofs::Mails::reports_of, crate::proofs::Mails::reports_nothing))]
    fn sends<W: Write>(
        &self,
        members: &mut Sockets<'_>,
        commands: &[Stamped],
        writer: &mut W,
    ) -> Result<u8, ReplayFault>
        ensures { (remaining : Option (List ℕ)) → IsSite remaining commands.now →
            Reports remaining (W.contents writer.old) (W.contents writer.new) result }
    {
        let alloc = members.runtime().alloc();
        let count = members.expect(commands.len());
        let endings = deliver(alloc, members, count, commands)?;
        print(alloc, commands, &endings, writer)
    }

    // Sends the commands of the file to these members.
    #[tactic(auto, using(crate::proofs::Mails::unread, crate::proofs::Mails::mailed, crate::proofs::Mails::broken))]
    fn send_to<R: Read, W: Write, E: Write>(
        &self,
        members: &mut Sockets<'_>,
        reader: &mut R,
        writer: &mut W,
        error: &mut E,
    ) -> u8
        ensures took { TakesAtMost (R.remaining reader.old)
            (R.remaining reader.new) (file_limit + 1) }
        ensures stays { is_input self.now.file.now ≡ false →
            Keeps (R.remaining reader.old) (R.remaining reader.new) }
        ensures mails { Mails (known_of self.now.file.now (R.remaining reader.old)) result
            (W.contents writer.old) (W.contents writer.new)
            (E.contents error.old) (E.contents error.new) }
    {
        let commands = match self.commands(members.runtime(), reader) {
            Ok(commands) => commands,
            Err(fault) => return fail(fault, error),
        };
        match self.sends(members, commands.as_slice(), writer) {
            Ok(status) => status,
            Err(fault) => fail(fault, error),
        }
    }

    /// Sends the commands of the file to the members, and prints what became of them.
    #[tactic(auto, using(crate::proofs::Mails::usage, crate::proofs::Mails::no_room))]
    pub fn send<R: Read, W: Write, E: Write>(
        &self,
        rt: &HostRuntime,
        reader: &mut R,
        writer: &mut W,
        error: &mut E,
    ) -> u8
        ensures took { TakesAtMost (R.remaining reader.old)
            (R.remaining reader.new) (file_limit + 1) }
        ensures stays { is_input self.now.file.now ≡ false →
            Keeps (R.remaining reader.old) (R.remaining reader.new) }
        ensures mails { Mails (known_of self.now.file.now (R.remaining reader.old)) result
            (W.contents writer.old) (W.contents writer.new)
            (E.contents error.old) (E.contents error.new) }
    {
        match Sockets::new(rt, self.members) {
            Ok(mut members) => self.send_to(&mut members, reader, writer, error),
            Err(MembersFault::Unknown) => refuse(error),
            Err(MembersFault::NoMemory) => fail(ReplayFault::NoMemory, error),
        }
    }
}
