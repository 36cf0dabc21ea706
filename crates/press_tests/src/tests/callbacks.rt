use super::scripts::{answer_of_turn, appending, call_in, fails_once, goes_on};
use press_callbacks::{BoxedTurns, CallIn, Callback, Kit, Stored, script_turn};
use press_text::CallbackId;
use std::alloc::Global;
use std::cell::Cell;
use std::test::Fail;

// A callback answers what its closure does, also where the script has a turn.
#[test]
fn a_closure_in_no_box_is_called(rt: HostRuntime) -> Result<(), Fail> {
    let alloc = rt.alloc();
    let script = appending(alloc, "q")?;
    let own = appending(alloc, "q")?;
    let calls = Cell::new(0u32);
    let callback = Callback::new(
        CallbackId::new("add_q")?,
        script,
        move |i: &CallIn| fails_once(alloc, &calls, &own, i),
    );
    let call = call_in(alloc, 0)?;
    assert!(rt; goes_on(callback.turn(&call), "vq"));
    assert!(rt; callback.turn(&call).is_err());
    Ok(())
}

fn kit_of(alloc: Global, stored: Stored) -> Result<Kit, Fail> {
    let callbacks = vec![in alloc; stored]?;
    Ok(Kit::build(alloc, callbacks, Vec::new(alloc))?)
}

// Two kits of one script are the same, and one whose script appends another letter is not.
#[test]
fn kits_are_compared(rt: HostRuntime) -> Result<(), Fail> {
    let alloc = rt.alloc();
    let mut kits = Vec::new(alloc);
    for letter in ["a", "a", "b"] {
        let script = appending(alloc, letter)?;
        let own = appending(alloc, letter)?;
        let call: BoxedTurns = Box::new(alloc, move |i: &CallIn| script_turn(alloc, &own, i))?;
        kits.push(kit_of(alloc, Stored::new(CallbackId::new("add")?, script, call))?)?;
    }
    let [first, again, other] = kits.as_slice() else {
        return Err(Fail::from("three kits"));
    };
    assert!(rt; first.same(again));
    assert!(rt; !first.same(other));
    Ok(())
}

// A stored callback answers what its closure does, also where the script has a turn.
#[test]
fn plays_script_not_closure(rt: HostRuntime) -> Result<(), Fail> {
    let alloc = rt.alloc();
    let script = appending(alloc, "q")?;
    let own = appending(alloc, "q")?;
    let calls = Cell::new(0u32);
    let call: BoxedTurns = Box::new(alloc, move |i: &CallIn| fails_once(alloc, &calls, &own, i))?;
    let stored = Stored::new(CallbackId::new("add_q")?, script, call);
    assert!(rt; goes_on(answer_of_turn(alloc, &stored, 0), "vq"));
    assert!(rt; answer_of_turn(alloc, &stored, 0).is_err());
    assert!(rt; goes_on(answer_of_turn(alloc, &stored, 0), "vq"));
    Ok(())
}
