//! A node by itself behind a server: it has nobody to call.

ghost use Rattle.std.specs.Prelude.{◌≡◌, not};
ghost use Rattle.press_node.specs.Nodes.{state_of};
ghost use Rattle.press_node.specs.States.{is_down};
ghost use Rattle.press_server.specs.Turns.{NodeLives};

use crate::turn::serve_turn;
use press_acceptor::PromiseStore;
use press_http::{HttpFault, Request, read_request};
use press_net::{Answers, Errand, Outgoing, Time, Traffic, method_and_target_of};
use press_node::Node;
use press_operator::{
    Among, Counts, Metrics, OperatorOptions, Own, Paths, REFUSED, Sort, Standing, is_of_desk,
    line_about, refuse, refuse_form, refuse_path, refuse_without_memory, show_metrics, show_ready,
    tell_desk,
};
use std::alloc::{AllocError, Global};
use std::net::{IpAddr, SocketAddr};

/// A node by itself behind a server.
pub struct Alone<'s, S: PromiseStore> {
    alloc: Global,
    addr: SocketAddr,
    node: Node<S>,
    options: &'s OperatorOptions,
    paths: Paths,
    counts: Counts,
    traffic: Traffic,
    time: Time,
    // About the last request that was refused, until it is taken.
    line: Option<String>,
}

impl<S: PromiseStore + Drop> Drop for Alone<'_, S> {
    fn drop(self) {
        let Alone {
            alloc: _,
            addr: _,
            node: _,
            options: _,
            paths: _,
            counts: _,
            traffic: _,
            time: _,
            line: _,
        } = self;
    }
}

impl<'s, S: PromiseStore + Drop> Alone<'s, S> {
    /// The node at an address, with what its operator asked for.
    pub fn new(
        alloc: Global,
        addr: SocketAddr,
        node: Node<S>,
        options: &'s OperatorOptions,
    ) -> Result<Alone<'s, S>, AllocError> {
        let paths = Paths::new(alloc)?;
        let counts = Counts::new();
        let traffic = Traffic {
            connections: 0,
            lost: 0,
        };
        let time = Time {
            millis: 0,
            seconds: 0,
        };
        Ok(Alone {
            alloc,
            addr,
            node,
            options,
            paths,
            counts,
            traffic,
            time,
            line: None,
        })
    }
}

impl<S: PromiseStore> Alone<'_, S> {
    // It has caught up before it listens.
    fn is_ready(&self) -> bool
        ensures { result ≡ not (is_down (state_of self.now.node)) }
    {
        !self.node.is_down()
    }

    // Its own vote is a majority, so all that it knows to be chosen it has applied.
    fn show_ready(&self, told: &mut Vec<u8>) -> Result<u16, HttpFault> {
        let applied = self.node.applied();
        let standing = Standing {
            is_ready: self.is_ready(),
            applied,
            chosen: applied,
            near: &[1],
            foreign: &[],
            agreement: None,
        };
        show_ready(self.alloc, standing, told)
    }

    fn show_metrics(&self, told: &mut Vec<u8>) -> Result<u16, HttpFault> {
        let applied = self.node.applied();
        let among = Among {
            chosen: applied,
            foreign: 0,
            is_unanimous: None,
        };
        let metrics = Metrics {
            applied,
            is_down: self.node.is_down(),
            has_forgotten: false,
            waiting: self.node.waiting_count() as u64,
            among,
            saves: self.options.saves(),
            traffic: self.traffic,
            counts: self.counts.all(),
        };
        show_metrics(self.alloc, &metrics, told)
    }

    // One of its own paths, or of the desk.
    fn reply_to_path(
        &self,
        own: Option<Own>,
        request: &Request,
        told: &mut Vec<u8>,
    ) -> Result<u16, HttpFault> {
        match own {
            Some(Own::Ready) => self.show_ready(told),
            Some(Own::Metrics) => self.show_metrics(told),
            Some(Own::Editor) => self.options.show_editor(self.alloc, told),
            Some(Own::Members) | None => match self.options.desk_question(self.alloc, request) {
                Some(asked) => tell_desk(self.alloc, &self.node, asked, told),
                None => refuse_path(told),
            },
        }
    }

    // The request is read whole first.
    fn reply_itself(
        &self,
        own: Option<Own>,
        request: &[u8],
        told: &mut Vec<u8>,
    ) -> Result<u16, HttpFault> {
        let mut rest = request;
        match read_request(self.alloc, &mut rest) {
            Ok(request) => self.reply_to_path(own, &request, told),
            Err(fault) => refuse(fault, told),
        }
    }

    // A path of a site: a command that is too far ahead is refused.
    #[tactic(auto, using(crate::specs::Turns::stays))]
    fn reply_to_site(
        &mut self,
        method: &str,
        request: &[u8],
        told: &mut Vec<u8>,
    ) -> Result<u16, HttpFault>
        requires always { Unit {0} }
        ensures { NodeLives S.seen self.old.node self.new.node }
    {
        match self.options.sort_of(self.alloc, method, request)? {
            Sort::Command(at) if self.options.is_ahead(at, self.time.seconds) => refuse_form(told),
            _ => {
                let mut rest = request;
                serve_turn(self.alloc, &mut self.node, &mut rest, told)
            }
        }
    }

    // What came of a request: it is counted, and a form that was refused gets a line.
    fn note_reply(&mut self, replied: &Result<u16, HttpFault>, request: &[u8])
        ensures { self.new.node ≡ self.old.node }
    {
        self.counts.note(replied);
        if !matches!(replied, Ok(REFUSED)) {
            return;
        }
        if let Some(line) = line_about(self.alloc, self.options, self.time.seconds, request) {
            self.line = Some(line);
        }
    }

    #[tactic(auto, using(crate::specs::Turns::stays))]
    fn reply(&mut self, request: &[u8], told: &mut Vec<u8>) -> Result<u16, HttpFault>
        requires always { Unit {0} }
        ensures { NodeLives S.seen self.old.node self.new.node }
    {
        let (method, target) = method_and_target_of(request);
        match self.paths.at(method, target) {
            Some(own) if self.options.has(own) => self.reply_itself(Some(own), request, told),
            _ if self.options.has_editor() && is_of_desk(target) => {
                self.reply_itself(None, request, told)
            }
            _ => self.reply_to_site(method, request, told),
        }
    }
}

impl<S: PromiseStore> Answers for Alone<'_, S> {
    ghost use Rattle.press_server.specs.Turns.{NodeLives, joined_chain, stays};

    ghost answers = { λ _ _ _. Unit {0} };

    ghost hears = { λ _ _ _. Unit {0} };

    ghost becomes = { λ old new. NodeLives S.seen old.node new.node };

    fn addr(&self) -> SocketAddr {
        self.addr
    }

    fn is_member(&self, _from: IpAddr) -> bool {
        false
    }

    #[tactic(auto, using(crate::specs::Turns::stays))]
    fn answer(
        &mut self,
        _from: IpAddr,
        request: &[u8],
        told: &mut Vec<u8>,
    ) -> Result<u16, HttpFault>
        requires always { Unit {0} }
        ensures { NodeLives S.seen self.old.node self.new.node }
    {
        let replied = match self.reply(request, told) {
            Err(HttpFault::NoMemory) => refuse_without_memory(told),
            replied => replied,
        };
        self.note_reply(&replied, request);
        replied
    }

    #[tactic(auto, using(crate::specs::Turns::stays))]
    fn next_call(&mut self) -> Option<Outgoing> {
        None
    }

    fn has_more(&self) -> bool {
        false
    }

    fn is_over(&self) -> bool {
        false
    }

    #[tactic(auto, using(crate::specs::Turns::stays))]
    fn go_on(&mut self)
        requires always { Unit {0} }
        ensures { NodeLives S.seen self.old.node self.new.node }
    {}

    #[tactic(auto, using(crate::specs::Turns::stays))]
    fn end_call(&mut self, _place: usize, _errand: Errand, _reply: &[u8]) {}

    #[tactic(auto, using(crate::specs::Turns::stays))]
    fn next_line(&mut self) -> Option<String> {
        self.line.take()
    }

    #[tactic(auto, using(crate::specs::Turns::stays))]
    fn look_up(&mut self, _net: &HostRuntime)
        requires always { Unit {0} }
        ensures { NodeLives S.seen self.old.node self.new.node }
    {}

    #[tactic(auto, using(crate::specs::Turns::stays))]
    fn pass(&mut self, time: Time)
        requires always { Unit {0} }
        ensures { NodeLives S.seen self.old.node self.new.node }
    {
        self.time = time;
    }

    #[tactic(auto, using(crate::specs::Turns::stays))]
    fn see(&mut self, traffic: Traffic) {
        self.traffic = traffic;
    }

    ghost rests = { λ a. stays a.node };

    ghost goes_on = { λ a b c. joined_chain a.node b.node c.node };
}
