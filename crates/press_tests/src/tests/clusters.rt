//! Three nodes whose closures run out of memory at each of their calls in turn.

ghost use Rattle.std.specs.Prelude.{◌≡◌, length};
ghost use Rattle.press_callbacks.specs.Kits.{KitView};
ghost use Rattle.press_world.specs.Starts.{AreKit, views_of};

use crate::tests::demonstration::DEMONSTRATION;
use press_callbacks::{BoxedTurns, CallIn, Kit, Stored};
use press_fakes::Fuse;
use press_kit::read_kit_file;
use press_node::NodeFault;
use press_page::Target;
use press_text::Copied;
use press_world::{Played, ReplayFault, Step, World, WorldFault, read_schedule, replay};
use std::alloc::{AllocError, Global};
use std::rc::Rc;
use std::test::Fail;

const NODES: usize = 3;

// How many messages three nodes send for the first command, and for each later one, for whose block
// the first node needs no promises any more.
const FIRST_MESSAGES: u32 = 18;

const MESSAGES: u32 = 12;

// How often each node wakes at the end.
const WAKES: u32 = 6;

// Of the row `three-nodes`, where no plugin is active.
const POST: &str =
    r#""editor":"ann","seq":1,"at":100,"kind":"insert","title":"x","content":"Hello","status":"publish""#;

const OUTCOME: &str = "{\"do\":\"get\",\"node\":3,\"target\":\"result:ann/1\"}\n]}\n";

// The plugins of titles, shortcodes and options, and a post whose title and content they are called
// for.
const COMMANDS: [&str; 5] = [
    r#""editor":"ann","seq":1,"at":10,"kind":"activate","plugin":"letters""#,
    r#""editor":"ann","seq":2,"at":10,"kind":"activate","plugin":"grow""#,
    r#""editor":"ann","seq":3,"at":10,"kind":"activate","plugin":"tags""#,
    r#""editor":"ann","seq":4,"at":10,"kind":"activate","plugin":"notes""#,
    r#""editor":"ann","seq":5,"at":10,"kind":"insert","title":"x","content":"[box]a [greet name=Bo] b[/box]","status":"publish""#,
];

const PAGES: &str = "{\"do\":\"get\",\"node\":1,\"target\":\"post:1\"},\n\
    {\"do\":\"get\",\"node\":2,\"target\":\"post:1\"},\n\
    {\"do\":\"get\",\"node\":3,\"target\":\"post:1\"}\n]}\n";

// A schedule in which the first node chooses the commands one after the other, and then the last
// steps.
fn schedule(alloc: Global, commands: &[&str], last: &str) -> Result<String, AllocError> {
    let mut steps = format!(in alloc; "{{\"nodes\":3,\"steps\":[\n")?;
    let (mut message, mut count) = (1u64, FIRST_MESSAGES);
    for command in commands {
        let submit = format!(in alloc; "{{\"do\":\"submit\",\"node\":1,{command}}},\n")?;
        steps.push_str(submit.as_str())?;
        steps.push_str("{\"do\":\"wake\",\"node\":1},\n")?;
        for _ in 0..count {
            let deliver = format!(in alloc; "{{\"do\":\"deliver\",\"message\":{message}}},\n")?;
            steps.push_str(deliver.as_str())?;
            message = message.saturating_add(1);
        }
        count = MESSAGES;
    }
    steps.push_str(last)?;
    Ok(steps)
}

fn front(node: u64) -> Step {
    Step::Get {
        node,
        target: Target::Front,
    }
}

// The node whose step it is.
fn node_of(world: &World, step: &Step) -> u64 {
    match step {
        Step::Submit { node, .. }
        | Step::Wake { node, .. }
        | Step::Restart { node }
        | Step::Get { node, .. } => *node,
        Step::Deliver { message, .. } => match world.sent(*message) {
            Some(message) => u64::from(message.to.number()),
            None => 0,
        },
    }
}

// A node that memory ran out on is down, applies nothing, and comes back.
fn restart(world: &mut World, fuse: &Fuse, node: u64) -> Result<(), Fail>
    requires always { Unit {0} }
{
    let is_blown = fuse.is_blown();
    fuse.set(0);
    let is_down = world.applied(node).is_none();
    let got = world.play(&front(node)).err();
    world.play(&Step::Restart { node })?;
    let is_back = world.applied(node) == Some(0);
    if is_blown && is_down && got == Some(WorldFault::Node(NodeFault::Down)) && is_back {
        Ok(())
    } else {
        Err(Fail::from("a node that doesn't come back"))
    }
}

// A page that memory ran out on leaves its node as it was.
fn show(world: &mut World, fuse: &Fuse, page: &Step, applied: Option<u64>) -> Result<(), Fail>
    requires always { Unit {0} }
{
    let node = node_of(world, page);
    let is_blown = fuse.is_blown();
    fuse.set(0);
    world.play(page)?;
    if is_blown && applied.is_some() && world.applied(node) == applied {
        Ok(())
    } else {
        Err(Fail::from("a page leaves another node"))
    }
}

// Plays a step; a node that memory runs out on is started again, and a page is shown again.
fn play(world: &mut World, fuse: &Fuse, step: &Step) -> Result<(), Fail>
    requires always { Unit {0} }
{
    let node = node_of(world, step);
    match (world.play(step).err(), step) {
        (Some(WorldFault::Node(NodeFault::NoMemory)), Step::Get { .. }) => {
            show(world, fuse, step, world.applied(node))
        }
        (Some(WorldFault::Node(NodeFault::NoMemory)), _) => restart(world, fuse, node),
        _ => Ok(()),
    }
}

// Delivers the messages from this number on, until none waits; the number after the last one.
fn deliver_from(world: &mut World, fuse: &Fuse, first: u64) -> Result<u64, Fail>
    requires always { Unit {0} }
{
    let mut message = first;
    for _ in 0..u64::MAX {
        if world.sent(message).is_none() {
            return Ok(message);
        }
        play(world, fuse, &Step::Deliver { message, cut: None })?;
        message = message.saturating_add(1);
    }
    Ok(message)
}

// All messages come once more, and each node wakes in turn, until all have applied the commands.
fn catch_up(world: &mut World, fuse: &Fuse) -> Result<(), Fail>
    requires always { Unit {0} }
{
    let mut message = deliver_from(world, fuse, 1)?;
    for _ in 0..WAKES {
        for node in 1..=3u64 {
            play(world, fuse, &Step::Wake { node, cut: None })?;
            message = deliver_from(world, fuse, message)?;
        }
    }
    Ok(())
}

// How many values each node has applied, and its front page.
fn pages(alloc: Global, world: &mut World) -> Result<Vec<u8>, Fail>
    requires always { Unit {0} }
{
    let mut pages = Vec::new(alloc);
    for node in 1..=3u64 {
        let played = world.play(&front(node))?;
        let k = played.applied;
        pages.extend_from_slice(format!(in alloc; "k={k}\n")?.as_bytes())?;
        if let Some(reply) = &played.reply {
            pages.extend_from_slice(reply.body.as_bytes())?;
        }
    }
    Ok(pages)
}

// What three nodes give.
#[derive(Drop)]
struct Told {
    bytes: Vec<u8>,
    calls: u64,
    fault: Option<ReplayFault>,
    is_refused: bool,
}

// What is done with a schedule.
#[derive(Clone, Copy)]
enum How {
    Replays,
    Restarts,
}

/// A schedule, over kits whose closures share a fuse.
#[derive(Drop)]
struct Cluster<'a> {
    alloc: Global,
    fuse: &'a Rc<Fuse>,
    schedule: &'a [u8],
}

impl Cluster<'_> {
    // The transcript, of which a front is written where memory runs out.
    fn transcript(&self, kits: Vec<Kit>) -> Told
        requires count { length kits.items ≡ 3 }
        requires alike { (kit : KitView) × AreKit kit (views_of kits.items) }
    {
        let mut bytes = Vec::new(self.alloc);
        let mut schedule = self.schedule;
        let fault = replay(self.alloc, kits, &mut schedule, &mut bytes).err();
        Told {
            bytes,
            calls: self.fuse.calls(),
            fault,
            is_refused: self.fuse.is_blown(),
        }
    }

    // The pages of the nodes once all have caught up.
    fn restart(&self, kits: Vec<Kit>) -> Result<Told, Fail>
        requires count { length kits.items ≡ 3 }
        requires alike { (kit : KitView) × AreKit kit (views_of kits.items) }
    {
        let mut schedule = self.schedule;
        let (_, steps) = read_schedule(self.alloc, &mut schedule, NODES)?;
        let mut world = World::new(self.alloc, kits)?;
        for step in steps.as_slice() {
            play(&mut world, self.fuse, step)?;
        }
        let calls = self.fuse.calls();
        let is_refused = self.fuse.is_off();
        self.fuse.set(0);
        catch_up(&mut world, self.fuse)?;
        Ok(Told {
            bytes: pages(self.alloc, &mut world)?,
            calls,
            fault: None,
            is_refused,
        })
    }

    // How many calls of closures it makes, where each of them can run out of memory.
    fn calls(&self, kit: &[u8], how: How) -> Result<u64, Fail> {
        let ample = told_at(kit, self, 0, how)?;
        if ample.fault.is_some() || ample.bytes.is_empty() {
            return Err(Fail::from("a fault with ample memory"));
        }
        for at in 1..=ample.calls {
            let told = told_at(kit, self, at, how)?;
            if !told.is_refused || !told.is_after(&ample, how) {
                return Err(Fail::from("a refused call gives something else"));
            }
        }
        Ok(ample.calls)
    }
}

impl Told {
    // Whether it is what a refusal leaves: a proper front of a transcript, or the same pages.
    fn is_after(&self, ample: &Told, how: How) -> bool {
        let (bytes, whole) = (self.bytes.as_slice(), ample.bytes.as_slice());
        match how {
            How::Replays => {
                self.fault == Some(ReplayFault::NoMemory)
                    && bytes.len() < whole.len()
                    && whole.starts_with(bytes)
            }
            How::Restarts => bytes == whole,
        }
    }
}

// What a schedule gives over kits of whose closures' calls the one of that number runs out of
// memory.
fn told_at(kit: &[u8], cluster: &Cluster<'_>, at: u64, how: How) -> Result<Told, Fail> {
    let alloc = cluster.alloc;
    let mut kits: Vec<Kit> = Vec::new(alloc);
    for _i in 0..NODES {
        let parts = read_kit_file(alloc, kit)?;
        let mut callbacks: Vec<Stored> = Vec::new(alloc);
        for scripted in parts.callbacks.into_vec() {
            let own = scripted.script.copy_in(alloc)?;
            let fuse = cluster.fuse.clone()?;
            let call: BoxedTurns = Box::new(
                alloc,
                move |input: &CallIn| fuse.turn(alloc, &own, input),
            )?;
            callbacks.push(Stored::new(scripted.id, scripted.script, call))?;
        }
        kits.push(Kit::build(alloc, callbacks, parts.plugins.into_vec())?)?;
    }
    cluster.fuse.set(at);
    match how {
        How::Replays => Ok(cluster.transcript(kits)),
        How::Restarts => cluster.restart(kits),
    }
}

// The row `three-nodes` calls no closure, since no plugin is active there.
#[test]
fn each_call_in_a_transcript_wants_memory(rt: HostRuntime) -> Result<(), Fail> {
    let alloc = rt.alloc();
    let fuse = Rc::new(alloc, Fuse::new())?;
    let kit = DEMONSTRATION.as_bytes();
    let row = schedule(alloc, &[POST], OUTCOME)?;
    let five = schedule(alloc, &COMMANDS, PAGES)?;
    let mut cluster = Cluster {
        alloc,
        fuse: &fuse,
        schedule: row.as_bytes(),
    };
    assert_eq!(rt; cluster.calls(kit, How::Replays)?, 0);
    cluster.schedule = five.as_bytes();
    assert_eq!(rt; cluster.calls(kit, How::Replays)?, 54);
    Ok(())
}

#[test]
fn each_call_in_a_cluster_wants_memory(rt: HostRuntime) -> Result<(), Fail> {
    let alloc = rt.alloc();
    let fuse = Rc::new(alloc, Fuse::new())?;
    let schedule = schedule(alloc, &COMMANDS, PAGES)?;
    let cluster = Cluster {
        alloc,
        fuse: &fuse,
        schedule: schedule.as_bytes(),
    };
    assert_eq!(rt; cluster.calls(DEMONSTRATION.as_bytes(), How::Restarts)?, 54);
    Ok(())
}
