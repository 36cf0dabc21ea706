use press_text::{HookName, Moment, NameFault};
use std::test::Fail;

// The row `names-and-moments`: the empty text, 65 letters, a space, and a second past the last
// moment.
#[test]
fn names_and_moments(rt: HostRuntime) -> Result<(), Fail> {
    let alloc = rt.alloc();
    let long = "abcdefghijklmnopqrstuvwxyzabcdefghijklmnopqrstuvwxyzabcdefghijklm";
    assert_eq!(rt; long.len(), 65);
    for (text, fault) in [
        ("", NameFault::BadName),
        (long, NameFault::TooLong),
        ("a b", NameFault::BadName),
    ] {
        assert_eq!(rt; HookName::new(alloc, text).err(), Some(fault), "{text}");
    }
    assert!(rt; Moment::new(1_099_511_627_777).is_none());
    Ok(())
}
