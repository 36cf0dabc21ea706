//! A schedule over kits whose closures run out of memory at one of their calls.

ghost use Rattle.std.specs.Prelude.{◌≡◌, length};
ghost use Rattle.press_callbacks.specs.Kits.{KitView};
ghost use Rattle.press_world.specs.Starts.{AreKit, views_of};

use press_callbacks::Kit;
use press_fakes::Fuse;
use press_node::NodeFault;
use press_page::Target;
use press_world::{ReplayFault, Step, World, WorldFault, read_schedule, replay};
use std::alloc::Global;
use std::rc::Rc;

/// What a run gives with ample memory, how many calls of closures it makes, and for how many of
/// them it was refused as it should be.
#[derive(Drop)]
pub struct Tally {
    ample: Vec<u8>,
    pub calls: u64,
    pub refused: u64,
}

impl Tally {
    fn new(alloc: Global) -> Tally {
        Tally {
            ample: Vec::new(alloc),
            calls: 0,
            refused: 0,
        }
    }

    fn count(&mut self, at: u64, calls: u64, came: Vec<u8>) {
        if at == 0 {
            self.calls = calls;
            self.ample = came;
        }
    }

    fn refuse(&mut self, is_refused: bool) {
        if is_refused {
            self.refused = self.refused.saturating_add(1);
        }
    }
}

/// A schedule of three nodes, and what comes of it.
#[derive(Drop)]
pub struct Cluster<'a> {
    pub alloc: Global,
    pub fuse: Rc<Fuse>,
    schedule: &'a [u8],
    pub transcripts: Tally,
    pub restarts: Tally,
}

// The node whose step it was.
fn node_of(world: &World, step: &Step) -> u64 {
    match step {
        Step::Submit { node, .. }
        | Step::Wake { node, .. }
        | Step::Restart { node }
        | Step::Get { node, .. } => *node,
        Step::Deliver { message, .. } => match world.sent(*message) {
            Some(message) => u64::from(message.to.number()),
            None => 0,
        },
    }
}

fn is_wanting(fault: Option<WorldFault>) -> bool {
    fault == Some(WorldFault::Node(NodeFault::NoMemory))
}

fn front(node: u64) -> Step {
    Step::Get {
        node,
        target: Target::Front,
    }
}

// Whether the node is down, and is started again.
fn restarts(world: &mut World, node: u64) -> bool
    requires always { Unit {0} }
{
    let is_down = world.applied(node).is_none();
    let got = world.play(&front(node)).err();
    let again = world.play(&Step::Restart { node }).is_ok();
    is_down
        && got == Some(WorldFault::Node(NodeFault::Down))
        && again
        && world.applied(node) == Some(0)
}

// Delivers the messages from this number on, until none waits; the number after the last one.
fn deliver_from(world: &mut World, first: u64) -> u64
    requires always { Unit {0} }
{
    let mut message = first;
    for _ in 0..u64::MAX {
        if world.sent(message).is_none() {
            return message;
        }
        let _ = world.play(&Step::Deliver { message, cut: None });
        message = message.saturating_add(1);
    }
    message
}

// How many messages were sent, and one.
fn next_of(world: &World) -> u64 {
    let mut message = 1u64;
    for _ in 0..u64::MAX {
        if world.sent(message).is_none() {
            return message;
        }
        message = message.saturating_add(1);
    }
    message
}

// Whether a step that wanted memory left a node that is down and can be started again, or, where it
// asked for a page, one that shows it again.
fn comes_back(world: &mut World, step: &Step) -> bool
    requires always { Unit {0} }
{
    let node = node_of(world, step);
    match step {
        Step::Get { .. } => world.applied(node).is_some() && world.play(step).is_ok(),
        Step::Submit { .. } | Step::Wake { .. } | Step::Deliver { .. } | Step::Restart { .. } => {
            restarts(world, node)
        }
    }
}

// Each node wakes as often as that, and gets all messages.
const WAKES: u32 = 6;

fn catch_up(world: &mut World, nodes: u64)
    requires always { Unit {0} }
{
    deliver_from(world, 1);
    for _ in 0..WAKES {
        for node in 1..=nodes {
            let next = next_of(world);
            let _ = world.play(&Step::Wake { node, cut: None });
            deliver_from(world, next);
        }
    }
}

// The front pages of the nodes, each behind how many values it has applied.
fn pages(alloc: Global, world: &mut World, nodes: u64) -> anyhow::Result<Vec<u8>>
    requires always { Unit {0} }
{
    let mut pages = Vec::new(alloc);
    for node in 1..=nodes {
        if let Ok(played) = world.play(&front(node)) {
            let k = played.applied;
            pages.extend_from_slice(format!(in alloc; "k={k}\n")?.as_bytes())?;
            if let Some(reply) = &played.reply {
                pages.extend_from_slice(reply.body.as_bytes())?;
            }
        }
    }
    Ok(pages)
}

impl<'a> Cluster<'a> {
    pub fn new(alloc: Global, fuse: Rc<Fuse>, schedule: &'a [u8]) -> Cluster<'a> {
        Cluster {
            alloc,
            fuse,
            schedule,
            transcripts: Tally::new(alloc),
            restarts: Tally::new(alloc),
        }
    }

    /// The transcript of the schedule, of which a front is written where memory runs out.
    pub fn transcript(&mut self, kits: Vec<Kit>, at: u64)
        requires count { length kits.items ≡ 3 }
        requires alike { (kit : KitView) × AreKit kit (views_of kits.items) }
    {
        let mut written = Vec::new(self.alloc);
        let mut schedule = self.schedule;
        self.fuse.set(at);
        let fault = replay(self.alloc, kits, &mut schedule, &mut written).err();
        let ample = &self.transcripts.ample;
        let is_refused = fault == Some(ReplayFault::NoMemory)
            && self.fuse.is_blown()
            && written.len() < ample.len()
            && ample.starts_with(&written);
        self.transcripts.refuse(is_refused);
        self.transcripts.count(at, self.fuse.calls(), written);
    }

    /// The pages of the nodes once all have caught up; one that memory ran out on is started again
    /// at once.
    pub fn restart(&mut self, kits: Vec<Kit>, at: u64) -> anyhow::Result<()>
        requires count { length kits.items ≡ 3 }
        requires alike { (kit : KitView) × AreKit kit (views_of kits.items) }
    {
        let mut schedule = self.schedule;
        let (_, steps) = read_schedule(self.alloc, &mut schedule, kits.len())?;
        let nodes = kits.len() as u64;
        let mut world = World::new(self.alloc, kits)?;
        let mut is_back = false;
        self.fuse.set(at);
        for step in steps.as_slice() {
            if is_wanting(world.play(step).err()) {
                let is_blown = self.fuse.is_blown();
                self.fuse.set(0);
                is_back = is_blown && comes_back(&mut world, step);
            }
        }
        let calls = self.fuse.calls();
        self.fuse.set(0);
        catch_up(&mut world, nodes);
        let pages = pages(self.alloc, &mut world, nodes)?;
        let is_alike = pages.as_slice() == self.restarts.ample.as_slice();
        self.restarts.refuse(is_back && is_alike);
        self.restarts.count(at, calls, pages);
        Ok(())
    }
}
