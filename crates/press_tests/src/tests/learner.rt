ghost use Rattle.std.specs.Prelude.{◌≡◌, ◌≤◌};

use crate::tests::synod::{ballot, noop, slot};
use press_learner::Learner;
use press_wire::{MemberId, Vote};
use std::test::Fail;

// The member's vote in the first node's ballot of the round.
fn votes(learner: &mut Learner, number: u8, round: u64) -> Result<(), Fail>
    requires { number ≤ learner.old.members }
    ensures { learner.new.members ≡ learner.old.members }
{
    let Some(member) = MemberId::new(number) else {
        return Err(Fail::from("no node"));
    };
    let vote = Vote {
        ballot: ballot(round, 1)?,
        value: noop(),
    };
    Ok(learner.on_vote(member, slot()?, vote)?)
}

// Two votes of four choose nothing, nor does a third one in another ballot.
#[test]
fn three_of_four_choose(rt: HostRuntime) -> Result<(), Fail> {
    let mut learner = Learner::new(rt.alloc(), 4);
    votes(&mut learner, 1, 1)?;
    votes(&mut learner, 2, 1)?;
    assert!(rt; learner.next_chosen().is_none());
    votes(&mut learner, 3, 2)?;
    assert!(rt; learner.next_chosen().is_none());
    votes(&mut learner, 4, 1)?;
    assert!(rt; !learner.has_gap());
    if learner.next_chosen().is_none() {
        return Err(Fail::from("three votes choose"));
    }
    learner.advance();
    assert_eq!(rt; learner.applied(), 1);
    assert!(rt; learner.next_chosen().is_none());
    Ok(())
}
