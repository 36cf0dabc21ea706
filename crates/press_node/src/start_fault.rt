use press_acceptor::StoreFault;
use press_callbacks::Kit;
use std::error::Error;
use std::fmt;

/// Why a node doesn't start: its store doesn't return the last round. It holds the kit and the
/// store.
#[derive(Drop)]
pub struct StartFault<S> {
    pub fault: StoreFault,
    pub kit: Kit,
    pub store: S,
}

impl<S> fmt::Display for StartFault<S> {
    fn fmt<W: fmt::Write>(&self, f: &mut fmt::Formatter<W>) -> fmt::Result {
        let fault = self.fault;
        write!(f, "the node does not start: {fault}")
    }
}

// A kit is closures, which have no text.
impl<S> fmt::Debug for StartFault<S> {
    fn fmt<W: fmt::Write>(&self, f: &mut fmt::Formatter<W>) -> fmt::Result {
        let fault = self.fault;
        write!(f, "StartFault({fault:?})")
    }
}

impl<S: Drop> Error for StartFault<S> {}
