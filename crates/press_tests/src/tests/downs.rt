//! A node whose closures run out of memory at one of their calls.

ghost use Rattle.std.specs.Prelude.{◌≡◌};

use crate::tests::mendable::{Mendable, mend, new_store};
use press_acceptor::StoreFault;
use press_apply::Stamped;
use press_callbacks::Kit;
use press_fakes::Fuse;
use press_node::{Event, Node, NodeFault, StartFault, serve_one};
use press_page::Target;
use press_site::Outcome;
use press_wire::{MemberId, Message};
use std::alloc::Global;
use std::collections::VecDeque;
use std::test::Fail;

const FRONT: &[u8] = b"GET / HTTP/1.1\r\nHost: a\r\n\r\n";

const REFUSED: &[u8] = b"HTTP/1.1 503 ";

// Plays an event, and delivers messages as long as any waits.
fn plays(alloc: Global, node: &mut Node<Mendable>, event: Event) -> Result<(), NodeFault>
    requires always { Unit {0} }
{
    let mut waiting: VecDeque<Message> = VecDeque::new(alloc);
    for message in node.on(event)? {
        if waiting.push_back(message).is_err() {
            return Err(NodeFault::NoMemory);
        }
    }
    for _ in 0..u64::MAX {
        let Some(message) = waiting.pop_front() else {
            return Ok(());
        };
        for message in node.on(Event::Deliver(message))? {
            if waiting.push_back(message).is_err() {
                return Err(NodeFault::NoMemory);
            }
        }
    }
    Ok(())
}

fn chooses(alloc: Global, node: &mut Node<Mendable>, command: &Stamped) -> Result<(), NodeFault>
    requires always { Unit {0} }
{
    let Ok(command) = command.copy(alloc) else {
        return Err(NodeFault::NoMemory);
    };
    plays(alloc, node, Event::Submit(command))?;
    plays(alloc, node, Event::Wake)
}

// The only member.
fn member() -> MemberId
    ensures { result ≡ 1 }
{
    let Some(member) = MemberId::new(1) else {
        unreachable!()
    };
    member
}

fn start(alloc: Global, kit: Kit, store: Mendable) -> Result<Node<Mendable>, Fail> {
    match Node::start(alloc, member(), 1, kit, store) {
        Ok(node) => Ok(node),
        Err(_) => Err(Fail::from("no start")),
    }
}

// Kit and store of a start that its shut store refuses.
fn refused_start(alloc: Global, kit: Kit, store: Mendable) -> Result<(Kit, Mendable), Fail> {
    match Node::start(alloc, member(), 1, kit, store) {
        Ok(_) => Err(Fail::from("a node over a shut store")),
        Err(StartFault { fault, kit, store }) => {
            if fault == StoreFault::Disk {
                Ok((kit, store))
            } else {
                Err(Fail::from("another fault"))
            }
        }
    }
}

// The reply to a request for the front page.
fn front(alloc: Global, node: &mut Node<Mendable>) -> Option<Vec<u8>>
    requires always { Unit {0} }
{
    let mut reply = Vec::new(alloc);
    let mut request = FRONT;
    match serve_one(node, &mut request, &mut reply) {
        Ok(_) => Some(reply),
        Err(_) => None,
    }
}

// Whether a form is taken: 202.
fn takes(alloc: Global, node: &mut Node<Mendable>, form: &[u8]) -> bool
    requires always { Unit {0} }
{
    let mut reply = Vec::new(alloc);
    let mut request = form;
    match serve_one(node, &mut request, &mut reply) {
        Ok(served) => served.status == 202,
        Err(_) => false,
    }
}

// Whether the node is down, counts no slot, and says so: 63, and 503 over HTTP.
fn is_down(alloc: Global, node: &mut Node<Mendable>) -> bool
    requires always { Unit {0} }
{
    let is_told = node.is_down()
        && node.applied() == 0
        && node.get(&Target::Front).err() == Some(NodeFault::Down)
        && node.on(Event::Wake).err() == Some(NodeFault::Down);
    match front(alloc, node) {
        Some(reply) => is_told && reply.starts_with(REFUSED),
        None => false,
    }
}

// What became of a node, and the kit that it had.
#[derive(Drop)]
struct Came {
    kit: Kit,
    is_refused: bool,
    page: Vec<u8>,
}

/// A new node that applies some commands, the last of them over closures of which one runs out of
/// memory.
#[derive(Clone, Copy, Drop)]
pub struct OnNode<'a> {
    pub alloc: Global,
    pub fuse: &'a Fuse,
    pub commands: &'a [Stamped],
    /// The form by which the second command comes, where there is one.
    pub form: Option<&'a [u8]>,
}

impl OnNode<'_> {
    // The commands before the last one, and the last.
    fn chooses_all(&self, node: &mut Node<Mendable>, at: u64) -> Result<(), NodeFault>
        requires always { Unit {0} }
    {
        self.fuse.set(0);
        for (place, command) in self.commands.iter().enumerate() {
            if place.saturating_add(1) == self.commands.len() {
                self.fuse.set(at);
            }
            match self.form {
                Some(form) if place == 1 => self.has_form_chosen(node, form)?,
                _ => chooses(self.alloc, node, command)?,
            }
        }
        Ok(())
    }

    // The form is taken, and its command chosen.
    fn has_form_chosen(&self, node: &mut Node<Mendable>, form: &[u8]) -> Result<(), NodeFault>
        requires always { Unit {0} }
    {
        if takes(self.alloc, node, form) {
            plays(self.alloc, node, Event::Wake)
        } else {
            Err(NodeFault::Full)
        }
    }

    // Whether the call of that number runs out of memory while the last command is applied, which
    // leaves the node down; none if it leaves anything else.
    fn is_refused_at(&self, node: &mut Node<Mendable>, at: u64) -> Option<bool>
        requires always { Unit {0} }
    {
        let fault = self.chooses_all(node, at).err();
        let is_blown = self.fuse.is_blown();
        self.fuse.set(0);
        match fault {
            None if !is_blown && !node.is_down() => Some(false),
            Some(NodeFault::NoMemory) if is_blown && is_down(self.alloc, node) => Some(true),
            _ => None,
        }
    }

    // Whether a call of a closure that runs out of memory while a page is made gives 503, and
    // leaves the page as it was.
    fn shows_again(&self, node: &mut Node<Mendable>, at: u64, ample: &[u8]) -> bool
        requires always { Unit {0} }
    {
        self.fuse.set(at);
        let refused = front(self.alloc, node);
        let is_blown = self.fuse.is_blown();
        self.fuse.set(0);
        match (refused, front(self.alloc, node)) {
            (Some(refused), Some(again)) => {
                is_blown && refused.starts_with(REFUSED) && again.as_slice() == ample
            }
            _ => false,
        }
    }

    // The front page of a node over what another one stored, where each of its calls can run out of
    // memory.
    fn page(&self, node: &mut Node<Mendable>) -> Option<Vec<u8>>
        requires always { Unit {0} }
    {
        for _ in self.commands {
            plays(self.alloc, node, Event::Wake).ok()?;
        }
        self.fuse.set(0);
        let ample = front(self.alloc, node)?;
        for at in 1..=self.fuse.calls() {
            if !self.shows_again(node, at, ample.as_slice()) {
                return None;
            }
        }
        if node.applied() == self.commands.len() as u64 {
            Some(ample)
        } else {
            None
        }
    }

    // A node of whose calls that one runs out of memory, and a node over its kit and its store,
    // which a start that is refused hands back.
    fn came_at(&self, kit: Kit, at: u64) -> Result<Came, Fail>
        requires always { Unit {0} }
    {
        let mut node = start(self.alloc, kit, new_store(self.alloc))?;
        let is_refused = self.is_refused_at(&mut node, at);
        let (kit, store) = node.down();
        let (kit, store) = refused_start(self.alloc, kit, store.shut())?;
        let mut again = start(self.alloc, kit, mend(store))?;
        let page = self.page(&mut again);
        let (kit, _) = again.down();
        match (is_refused, page) {
            (Some(is_refused), Some(page)) => Ok(Came {
                kit,
                is_refused,
                page,
            }),
            _ => Err(Fail::from("a node that doesn't come back")),
        }
    }

    // The kit, where each of the calls can run out of memory with the page as it is with ample
    // memory, and none after them.
    fn comes_back(&self, kit: Kit, calls: u64) -> Result<Kit, Fail>
        requires always { Unit {0} }
    {
        let ample = self.came_at(kit, 0)?;
        let mut kit = ample.kit;
        for at in 1..=calls.saturating_add(1) {
            let came = self.came_at(kit, at)?;
            if came.is_refused != (at <= calls) || came.page.as_slice() != ample.page.as_slice() {
                return Err(Fail::from("another page, or another call"));
            }
            kit = came.kit;
        }
        Ok(kit)
    }

    // The node has applied what its store has.
    fn catches_up(&self, node: &mut Node<Mendable>) -> Result<(), NodeFault>
        requires always { Unit {0} }
    {
        for _ in self.commands {
            plays(self.alloc, node, Event::Wake)?;
        }
        Ok(())
    }

    // How many calls of closures a start over this store makes, where each of them can run out of
    // memory: the node is down, and the next one starts over both.
    fn starts_again(&self, kit: Kit, store: Mendable) -> Result<u64, Fail>
        requires always { Unit {0} }
    {
        let (mut kit, mut store) = (kit, store);
        for at in 1..=u64::MAX {
            let mut node = start(self.alloc, kit, store)?;
            self.fuse.set(at);
            let fault = self.catches_up(&mut node).err();
            let is_blown = self.fuse.is_blown();
            self.fuse.set(0);
            if fault.is_none() && !is_blown && node.applied() == self.commands.len() as u64 {
                return Ok(at.saturating_sub(1));
            }
            if fault != Some(NodeFault::NoMemory) || !is_blown || !is_down(self.alloc, &mut node) {
                return Err(Fail::from("a start that leaves something else"));
            }
            (kit, store) = node.down();
        }
        Ok(0)
    }

    /// Each of the commands after those before it, which makes so many calls; and a start over what
    /// is stored of all.
    pub fn all_come_back(&self, kit: Kit, calls: &[(u64, Outcome)]) -> Result<(), Fail>
        requires always { Unit {0} }
    {
        let mut kit = kit;
        let mut all = 0u64;
        for (place, (calls, _)) in calls.iter().enumerate() {
            let Some(commands) = self.commands.get(..=place) else {
                return Err(Fail::from("fewer commands"));
            };
            let node = OnNode { commands, ..*self };
            kit = node.comes_back(kit, *calls)?;
            all = all.saturating_add(*calls);
        }
        let mut node = start(self.alloc, kit, new_store(self.alloc))?;
        self.chooses_all(&mut node, 0)?;
        let (kit, store) = node.down();
        if self.starts_again(kit, store)? == all {
            Ok(())
        } else {
            Err(Fail::from("a start makes other calls"))
        }
    }
}
