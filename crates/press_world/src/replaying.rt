//! A schedule, played, with its transcript.

ghost use Rattle.std.specs.Prelude.{◌≡◌, ◌≢◌, ◌⊎◌, Err, false, true, ◌≤◌, ◌+◌, IfErr, IfOk, OnErr, OnOk, length, map};
ghost use Rattle.std.specs.Io.KnownBytes.{Appends};
ghost use Rattle.press_callbacks.specs.Kits.{KitView};
ghost use Rattle.press_kit.specs.KitFile.{file_limit};
ghost use Rattle.press_text.specs.Streams.{AppendsFront, TakesAtMost};
ghost use Rattle.press_world.specs.Models.{model, size, statics};
ghost use Rattle.press_world.specs.Replays.{
  line_of,
  lines,
  Replays,
  to_in,
  transcript,
  WritesLines,
};
ghost use Rattle.press_world.specs.ScheduleFile.{schedule_in};
ghost use Rattle.press_world.specs.Seats.{places_of};
ghost use Rattle.press_world.specs.Starts.{AreKit, views_of};
ghost use Rattle.press_world.specs.Stored.{new_stored, stored_step};
ghost use Rattle.press_world.specs.Telling.{applied_count_at};
ghost use Rattle.press_world.specs.Transcript.{end_line, step_line};
ghost use Rattle.press_world.specs.Whole.{HaveKit};
ghost use Rattle.press_wire.specs.Ranges.{most_members};

use crate::fault::WorldFault;
use crate::played::Played;
use crate::reading::read_schedule;
use crate::replay_fault::ReplayFault;
use crate::seat::Seat;
use crate::step::Step;
use crate::transcript::{StepLine, write_end_line};
use crate::world::World;
use press_callbacks::Kit;
use press_node::NodeFault;
use std::alloc::{AllocError, Global};
use std::io::{Read, Write};

impl World {
    // The node that a delivered message is to.
    fn receiver(&self, step: &Step) -> Option<u64>
        ensures { result ≡ to_in (model self.now) step.now }
    {
        match step {
            Step::Deliver { message, .. } => match self.sent(*message) {
                Some(message) => Some(message.to.number() as u64),
                None => None,
            },
            Step::Submit { .. } | Step::Wake { .. } | Step::Restart { .. } | Step::Get { .. } => {
                None
            }
        }
    }
}

// What each node has applied, where it is up.
fn counts(alloc: Global, seats: &[Seat]) -> Result<Vec<Option<u64>>, AllocError>
    ensures { IfOk result (λ counts. counts.items ≡ map applied_count_at (places_of seats.now)) }
{
    let mut counts = Vec::new(alloc);
    for seat in seats {
        counts.push(seat.applied_where_up())?;
    }
    Ok(counts)
}

/// Writes the line of a step that was played, with its number, over the world after it; below a
/// page's line the page.
pub fn write_step<W: Write>(
    writer: &mut W,
    world: &World,
    number: u64,
    step: &Step,
    played: &Result<Played, WorldFault>,
) -> Result<(), ReplayFault>
    ensures ok { OnOk result (Appends (W.contents writer.old) (W.contents writer.new)
        (step_line (to_in (model world.now) step.now) number step.now played.now)) }
    ensures err { OnErr result (AppendsFront (W.contents writer.old) (W.contents writer.new)
        (step_line (to_in (model world.now) step.now) number step.now played.now)) }
    ensures fault { IfErr result (λ e. (e ≡ ReplayFault.WriteFault)
        ⊎ (e ≡ ReplayFault.NoMemory)) }
{
    let to = world.receiver(step);
    let line = StepLine {
        to,
        number,
        step,
        played,
    };
    line.write(world.alloc, writer)
}

/// Writes the last line of a transcript: what each node has applied.
pub fn write_end<W: Write>(writer: &mut W, world: &World) -> Result<(), ReplayFault>
    ensures ok { OnOk result (Appends (W.contents writer.old) (W.contents writer.new)
        (end_line (map applied_count_at (model world.now).places))) }
    ensures err { OnErr result (AppendsFront (W.contents writer.old) (W.contents writer.new)
        (end_line (map applied_count_at (model world.now).places))) }
    ensures fault { IfErr result (λ e. (e ≡ ReplayFault.WriteFault)
        ⊎ (e ≡ ReplayFault.NoMemory)) }
{
    let counts = counts(world.alloc, &world.cluster.seats)?;
    write_end_line(world.alloc, writer, &counts)
}

fn is_wanting(played: &Result<Played, WorldFault>) -> bool
    ensures wanting { result ≡ true → played.now ≡ Err (WorldFault.Node NodeFault.NoMemory) }
    ensures other { result ≡ false → played.now ≢ Err (WorldFault.Node NodeFault.NoMemory) }
{
    match played {
        Err(WorldFault::Node(NodeFault::NoMemory)) => true,
        Ok(_) | Err(_) => false,
    }
}

// A step and its line. Out of memory within a step ends the transcript.
fn play_one<W: Write>(
    world: &mut World,
    number: u64,
    step: &Step,
    writer: &mut W,
) -> Result<(), ReplayFault>
    requires always { Unit {0} }
    ensures statics { statics world.new ≡ statics world.old }
    ensures step { (kit : KitView) → HaveKit kit (statics world.old) →
        OnOk result (model world.new ≡ stored_step (size world.old) (model world.old) step.now) }
    ensures line { (kit : KitView) → HaveKit kit (statics world.old) →
        WritesLines (line_of kit (size world.old) number (model world.old) step.now)
        (W.contents writer.old) (W.contents writer.new) result }
    ensures fault { IfErr result (λ e. (e ≡ ReplayFault.WriteFault)
        ⊎ (e ≡ ReplayFault.NoMemory)) }
{
    let played = world.play(step);
    if is_wanting(&played) {
        return Err(ReplayFault::NoMemory);
    }
    write_step(writer, world, number, step, &played)
}

// The steps and their lines, and the last line.
fn play_all<W: Write>(world: &mut World, steps: &[Step], writer: &mut W) -> Result<(), ReplayFault>
    requires always { Unit {0} }
    ensures lines { (kit : KitView) → HaveKit kit (statics world.old) →
        WritesLines (lines kit (size world.old) 1 (model world.old) steps.now)
        (W.contents writer.old) (W.contents writer.new) result }
    ensures fault { IfErr result (λ e. (e ≡ ReplayFault.WriteFault)
        ⊎ (e ≡ ReplayFault.NoMemory)) }
{
    let mut number = 1;
    for step in steps {
        play_one(world, number, step, writer)?;
        number += 1;
    }
    write_end(writer, world)
}

// The transcript of steps over new nodes.
fn play_new<W: Write>(
    alloc: Global,
    kits: Vec<Kit>,
    steps: &[Step],
    writer: &mut W,
) -> Result<(), ReplayFault>
    requires some { 1 ≤ length kits.items }
    requires few { length kits.items ≤ most_members }
    requires alike { (kit : KitView) × AreKit kit (views_of kits.items) }
    ensures lines { (kit : KitView) → AreKit kit (views_of kits.items) →
        WritesLines (transcript kit (length kits.items, steps.now))
        (W.contents writer.old) (W.contents writer.new) result }
    ensures fault { IfErr result (λ e. (e ≡ ReplayFault.WriteFault)
        ⊎ (e ≡ ReplayFault.NoMemory)) }
{
    let mut world = World::new(alloc, kits)?;
    play_all(&mut world, steps, writer)
}

/// Writes the transcript of the schedule that a reader has left, over as many new nodes as it asks
/// for, each with one of these kits.
///
/// A bad schedule, or one that couldn't be read, writes nothing; a failed write or out of memory
/// leaves a prefix of the transcript.
pub fn replay<R: Read, W: Write>(
    alloc: Global,
    kits: Vec<Kit>,
    reader: &mut R,
    writer: &mut W,
) -> Result<(), ReplayFault>
    requires few { length kits.items ≤ most_members }
    requires alike { (kit : KitView) × AreKit kit (views_of kits.items) }
    ensures took { TakesAtMost (R.remaining reader.old) (R.remaining reader.new) (file_limit + 1) }
    ensures replays { (kit : KitView) → AreKit kit (views_of kits.items) →
        Replays (schedule_in (length kits.items)) (transcript kit) (R.remaining reader.old)
        (W.contents writer.old) (W.contents writer.new) result }
{
    let (nodes, steps) = read_schedule(alloc, reader, kits.len())?;
    let mut kits = kits;
    kits.truncate(nodes);
    play_new(alloc, kits, steps.as_slice(), writer)
}
