use press_callbacks::Kit;
use press_wire::MemberId;
use std::alloc::Global;

// What stays as it is while a node runs: which member it is, of how many, and its kit.
#[derive(Clone, Copy)]
pub(crate) struct Fixed<'a> {
    pub(crate) alloc: Global,
    pub(crate) kit: &'a Kit,
    pub(crate) id: MemberId,
    pub(crate) members: u8,
}
