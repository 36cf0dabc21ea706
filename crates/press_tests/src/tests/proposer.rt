use crate::tests::synod::{node, round, tick};
use press_acceptor::{MemoryStore, PromiseStore};
use press_proposer::{Proposer, ProposerFault};
use std::test::Fail;

#[test]
fn the_257th_command_and_the_last_round(rt: HostRuntime) -> Result<(), Fail> {
    let alloc = rt.alloc();
    let mut proposer = Proposer::new(alloc, node(1)?, 3, 0);
    for seq in 0..256 {
        proposer.submit(tick(alloc, seq)?)?;
    }
    let refused = proposer.submit(tick(alloc, 256)?);
    assert!(rt; matches!(&refused, Err(ProposerFault::Full)));
    let mut store = MemoryStore::new(alloc);
    store.save_round(round(1 << 40)?)?;
    let refused = proposer.wake(&mut store, 0, false);
    assert!(rt; matches!(&refused, Err(ProposerFault::RoundsUsedUp)));
    Ok(())
}
