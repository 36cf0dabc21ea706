//! A schedule played over the loopback.

ghost use Rattle.std.specs.Prelude.{◌≡◌, ◌≢◌, ◌≤◌, ◌+◌, Err, false, true, IfErr, IfOk, OnOk, length};
ghost use Rattle.std.specs.IoError.{error_kind};
ghost use Rattle.press_callbacks.specs.Kits.{KitView};
ghost use Rattle.press_kit.specs.KitFile.{file_limit};
ghost use Rattle.press_text.specs.Streams.{TakesAtMost};
ghost use Rattle.press_world.specs.Models.{model, size, statics};
ghost use Rattle.press_world.specs.Replays.{line_of, lines, transcript, WritesLines};
ghost use Rattle.press_world.specs.ScheduleFile.{schedule_in};
ghost use Rattle.press_world.specs.Starts.{AreKit, views_of};
ghost use Rattle.press_world.specs.Stepped.{Steps};
ghost use Rattle.press_world.specs.Stored.{stored_step};
ghost use Rattle.press_world.specs.Whole.{HaveKit};
ghost use Rattle.press_loop.specs.Carrying.{Tells};
ghost use Rattle.press_loop.specs.Loops.{Loops};
ghost use Rattle.press_loop.specs.Responses.{status_to};
ghost use Rattle.press_wire.specs.Ranges.{most_members};

use crate::answering::{answer, step_from};
use crate::asking::request_of;
use crate::carrying::{Connection, Loopback};
use press_callbacks::Kit;
use press_node::NodeFault;
use press_world::{
    Played, ReplayFault, Step, World, WorldFault, read_schedule, write_end, write_step,
};
use std::alloc::Global;
use std::io;
use std::io::{ErrorKind, Read, Write};
use std::net::Net;

// A cluster to which commands, messages and requests for pages come over the loopback.
#[derive(Drop)]
struct Looped<'r, Rt: Net> {
    alloc: Global,
    loopback: Loopback<'r, Rt>,
    nodes: usize,
    world: World,
}

// A socket that can't be opened, or that fails, counts as a failed read.
fn fault_of(e: io::Error) -> ReplayFault
    ensures schedule { result ≢ ReplayFault.BadSchedule }
    ensures memory { error_kind e ≡ ErrorKind.OutOfMemory → result ≡ ReplayFault.NoMemory }
    ensures others { error_kind e ≢ ErrorKind.OutOfMemory → result ≡ ReplayFault.ReadFault }
{
    if e.kind() == ErrorKind::OutOfMemory {
        ReplayFault::NoMemory
    } else {
        ReplayFault::ReadFault
    }
}

fn is_wanting(played: &Result<Played, WorldFault>) -> bool
    ensures wanting { result ≡ true → played.now ≡ Err (WorldFault.Node NodeFault.NoMemory) }
    ensures other { result ≡ false → played.now ≢ Err (WorldFault.Node NodeFault.NoMemory) }
{
    match played {
        Err(WorldFault::Node(NodeFault::NoMemory)) => true,
        Ok(_) | Err(_) => false,
    }
}

impl<Rt: Net> Looped<'_, Rt> {
    // A step that comes over a connection, and the reply to it, of which its client has to receive
    // the status.
    fn play_over(
        &mut self,
        connection: &mut Connection<'_, Rt::Stream>,
        step: &Step,
    ) -> Result<Result<Played, WorldFault>, ReplayFault>
        requires always { Unit {0} }
        ensures statics { statics self.new.world ≡ statics self.old.world }
        ensures step { IfOk result (λ played. (kit : KitView) →
            HaveKit kit (statics self.old.world) → Steps kit (size self.old.world)
            (model self.old.world) step.now (model self.new.world) played) }
        ensures hears { IfOk result (λ played. Tells connection.new.client.front
            (status_to step.now played)) }
        ensures fault { IfErr result (λ e. e ≢ ReplayFault.BadSchedule) }
    {
        let came = step_from(self.alloc, connection, step, &self.world)?;
        let played = self.world.play(&came);
        let status = answer(self.alloc, connection, &came, &played)?;
        let heard = connection.status().map_err(fault_of)?;
        if heard == status {
            Ok(played)
        } else {
            Err(ReplayFault::ReadFault)
        }
    }

    // A step that comes by a request, and the reply to it.
    fn play_request(
        &mut self,
        request: &[u8],
        step: &Step,
    ) -> Result<Result<Played, WorldFault>, ReplayFault>
        requires always { Unit {0} }
        ensures statics { statics self.new.world ≡ statics self.old.world }
        ensures step { IfOk result (λ played. (kit : KitView) →
            HaveKit kit (statics self.old.world) → Steps kit (size self.old.world)
            (model self.old.world) step.now (model self.new.world) played) }
        ensures fault { IfErr result (λ e. e ≢ ReplayFault.BadSchedule) }
    {
        let mut connection = self.loopback.connect(request).map_err(fault_of)?;
        let played = self.play_over(&mut connection, step)?;
        connection.close().map_err(fault_of)?;
        Ok(played)
    }

    fn play(&mut self, step: &Step) -> Result<Result<Played, WorldFault>, ReplayFault>
        requires always { Unit {0} }
        ensures statics { statics self.new.world ≡ statics self.old.world }
        ensures step { IfOk result (λ played. (kit : KitView) →
            HaveKit kit (statics self.old.world) → Steps kit (size self.old.world)
            (model self.old.world) step.now (model self.new.world) played) }
        ensures fault { IfErr result (λ e. e ≢ ReplayFault.BadSchedule) }
    {
        match request_of(self.alloc, self.nodes, step, &self.world)? {
            Some(request) => self.play_request(&request, step),
            None => Ok(self.world.play(step)),
        }
    }

    // A step and its line. Out of memory within a step ends the transcript.
    fn play_one<W: Write>(
        &mut self,
        number: u64,
        step: &Step,
        writer: &mut W,
    ) -> Result<(), ReplayFault>
        requires always { Unit {0} }
        ensures statics { statics self.new.world ≡ statics self.old.world }
        ensures step { (kit : KitView) → HaveKit kit (statics self.old.world) →
            OnOk result (model self.new.world ≡
            stored_step (size self.old.world) (model self.old.world) step.now) }
        ensures line { (kit : KitView) → HaveKit kit (statics self.old.world) →
            WritesLines (line_of kit (size self.old.world) number (model self.old.world) step.now)
            (W.contents writer.old) (W.contents writer.new) result }
        ensures fault { IfErr result (λ e. e ≢ ReplayFault.BadSchedule) }
    {
        let played = self.play(step)?;
        if is_wanting(&played) {
            return Err(ReplayFault::NoMemory);
        }
        write_step(writer, &self.world, number, step, &played)
    }

    // The steps and their lines, and the last line.
    fn play_all<W: Write>(&mut self, steps: &[Step], writer: &mut W) -> Result<(), ReplayFault>
        requires always { Unit {0} }
        ensures lines { (kit : KitView) → HaveKit kit (statics self.old.world) →
            WritesLines (lines kit (size self.old.world) 1 (model self.old.world) steps.now)
            (W.contents writer.old) (W.contents writer.new) result }
        ensures fault { IfErr result (λ e. e ≢ ReplayFault.BadSchedule) }
    {
        let mut number = 1;
        for step in steps {
            self.play_one(number, step, writer)?;
            number += 1;
        }
        write_end(writer, &self.world)
    }
}

// The transcript of steps over new nodes.
fn loop_new<Rt: AllocGlobal + Net, W: Write>(
    rt: &Rt,
    kits: Vec<Kit>,
    steps: &[Step],
    writer: &mut W,
) -> Result<(), ReplayFault>
    requires some { 1 ≤ length kits.items }
    requires few { length kits.items ≤ most_members }
    requires alike { (kit : KitView) × AreKit kit (views_of kits.items) }
    ensures lines { (kit : KitView) → AreKit kit (views_of kits.items) →
        WritesLines (transcript kit (length kits.items, steps.now))
        (W.contents writer.old) (W.contents writer.new) result }
    ensures fault { IfErr result (λ e. e ≢ ReplayFault.BadSchedule) }
{
    let loopback = Loopback::bind(rt).map_err(fault_of)?;
    let nodes = kits.len();
    let world = World::new(rt.alloc(), kits)?;
    let mut looped = Looped {
        alloc: rt.alloc(),
        loopback,
        nodes,
        world,
    };
    looped.play_all(steps, writer)
}

/// Writes the transcript of the schedule that a reader has left, as `press_world::replay` does.
/// Each command, message and request for a page comes by a request of its own over a socket of the
/// loopback, whose other end the program holds too, and is answered there.
///
/// A socket that can't be opened, that fails, or that brings something else than what was sent ends
/// it with ReadFault; what was written before stays.
pub fn loop_over<Rt: AllocGlobal + Net, R: Read, W: Write>(
    rt: &Rt,
    kits: Vec<Kit>,
    reader: &mut R,
    writer: &mut W,
) -> Result<(), ReplayFault>
    requires few { length kits.items ≤ most_members }
    requires alike { (kit : KitView) × AreKit kit (views_of kits.items) }
    ensures took { TakesAtMost (R.remaining reader.old) (R.remaining reader.new) (file_limit + 1) }
    ensures loops { (kit : KitView) → AreKit kit (views_of kits.items) →
        Loops (schedule_in (length kits.items)) (transcript kit) (R.remaining reader.old)
        (W.contents writer.old) (W.contents writer.new) result }
{
    let (nodes, steps) = read_schedule(rt.alloc(), reader, kits.len())?;
    let mut kits = kits;
    kits.truncate(nodes);
    loop_new(rt, kits, steps.as_slice(), writer)
}
