//! How a run of the program ends.

ghost use Rattle.std.specs.Prelude.{◌≡◌, ◌≤◌, ◌+◌, IfOk, Ok, length};
ghost use Rattle.press_callbacks.specs.Kits.{KitView, kit_view};
ghost use Rattle.press_kit.specs.KitFile.{file_limit};
ghost use Rattle.press_text.specs.Streams.{TakesAtMost};
ghost use Rattle.press_world.specs.Starts.{AreKit, views_of};
ghost use Rattle.press_program.specs.Endings.{ending_of, kits_for, page_ending, ending_of_reply, EndsLoop, EndsOn, EndsReplay, EndsTask};
ghost use Rattle.press_wire.specs.Ranges.{most_members};

use crate::commands::apply_all;
use crate::task::Task;
use press_apply::Stamped;
use press_callbacks::Kit;
use press_loop::loop_over;
use press_page::{Reply, Target, page};
use press_site::Site;
use press_text::{Items, Text};
use press_world::{ReplayFault, read_site, replay};
use std::alloc::{AllocError, Global};
use std::io::{Read, Write};
use std::net::Net;

/// A body with the program's status, a transcript that is written already, or a fault.
#[derive(Debug, Drop)]
pub enum Ending {
    Printed { status: u8, body: Text },
    Replayed,
    Fault(ReplayFault),
}

fn ending_of_reply(reply: Reply) -> Ending
    ensures { result ≡ ending_of_reply reply }
{
    Ending::Printed {
        status: if reply.status == 200 { 0 } else { 1 },
        body: reply.body,
    }
}

/// The reply to what is asked, after the commands.
pub(crate) fn page_after(
    alloc: Global,
    kit: &Kit,
    target: &Target,
    commands: Items<Stamped>,
) -> Result<Ending, AllocError>
    ensures { IfOk result (λ end. end ≡ page_ending (kit_view kit.now) target.now (Ok commands)) }
{
    let mut site = Site::new(alloc);
    apply_all(alloc, &mut site, kit, commands)?;
    let reply = page(alloc, &site, kit, target)?;
    Ok(ending_of_reply(reply))
}

fn try_page<R: Read>(
    alloc: Global,
    kit: &Kit,
    target: &Target,
    reader: &mut R,
) -> Result<Ending, ReplayFault>
    ensures took { TakesAtMost (R.remaining reader.old) (R.remaining reader.new) (file_limit + 1) }
    ensures ends { EndsOn (kit_view kit.now) target.now (R.remaining reader.old)
        (ending_of result) }
{
    let commands = read_site(alloc, reader)?;
    Ok(page_after(alloc, kit, target, commands)?)
}

// The end of a run on the file that a reader has left, for what is asked of its site.
fn run_page<R: Read>(alloc: Global, kit: &Kit, target: &Target, reader: &mut R) -> Ending
    ensures took { TakesAtMost (R.remaining reader.old) (R.remaining reader.new) (file_limit + 1) }
    ensures ends { EndsOn (kit_view kit.now) target.now (R.remaining reader.old) result }
{
    match try_page(alloc, kit, target, reader) {
        Ok(end) => end,
        Err(fault) => Ending::Fault(fault),
    }
}

// The end of a replay of the schedule that a reader has left.
#[tactic(auto, unfolding(crate::specs::Endings::EndsReplay))]
fn run_replay<R: Read, W: Write>(
    alloc: Global,
    kits: Vec<Kit>,
    reader: &mut R,
    writer: &mut W,
) -> Ending
    requires few { length kits.items ≤ most_members }
    requires alike { (kit : KitView) × AreKit kit (views_of kits.items) }
    ensures took { TakesAtMost (R.remaining reader.old) (R.remaining reader.new) (file_limit + 1) }
    ensures ends { (kit : KitView) → AreKit kit (views_of kits.items) →
        EndsReplay kit (length kits.items) (R.remaining reader.old)
        (W.contents writer.old) (W.contents writer.new) result }
{
    match replay(alloc, kits, reader, writer) {
        Ok(()) => Ending::Replayed,
        Err(fault) => Ending::Fault(fault),
    }
}

// The same over sockets of the loopback.
#[tactic(auto, unfolding(crate::specs::Endings::EndsLoop))]
fn run_loop<Rt: AllocGlobal + Net, R: Read, W: Write>(
    rt: &Rt,
    kits: Vec<Kit>,
    reader: &mut R,
    writer: &mut W,
) -> Ending
    requires few { length kits.items ≤ most_members }
    requires alike { (kit : KitView) × AreKit kit (views_of kits.items) }
    ensures took { TakesAtMost (R.remaining reader.old) (R.remaining reader.new) (file_limit + 1) }
    ensures ends { (kit : KitView) → AreKit kit (views_of kits.items) →
        EndsLoop kit (length kits.items) (R.remaining reader.old)
        (W.contents writer.old) (W.contents writer.new) result }
{
    match loop_over(rt, kits, reader, writer) {
        Ok(()) => Ending::Replayed,
        Err(fault) => Ending::Fault(fault),
    }
}

/// The end of a run for a task, over kits that are alike and as many as it wants, on the file that
/// a reader has left.
pub fn run_task<Rt: AllocGlobal + Net, R: Read, W: Write>(
    rt: &Rt,
    kits: Vec<Kit>,
    task: &Task,
    reader: &mut R,
    writer: &mut W,
) -> Ending
    requires count { length kits.items ≡ kits_for task.now }
    requires alike { (kit : KitView) × AreKit kit (views_of kits.items) }
    ensures took { TakesAtMost (R.remaining reader.old) (R.remaining reader.new) (file_limit + 1) }
    ensures ends { (kit : KitView) → AreKit kit (views_of kits.items) →
        EndsTask kit task.now (R.remaining reader.old)
        (W.contents writer.old) (W.contents writer.new) result }
{
    match task {
        Task::Page(target) => run_page(rt.alloc(), &kits[0], target, reader),
        Task::Replay => run_replay(rt.alloc(), kits, reader, writer),
        Task::Loop => run_loop(rt, kits, reader, writer),
    }
}
