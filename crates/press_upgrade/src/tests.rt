//! What no clause says: that a difference has its words where there is memory.

use crate::extends;
use press_kit::read_kit_file;
use std::alloc::Global;
use std::test::Fail;

const OLD: &str = r#"{"callbacks": [{"name": "loud", "script": [{"op": "return", "text": ["!"]}]}],
  "plugins": [{"name": "shout", "load": [{"hook": "init", "callback": "loud"}]}]}"#;

const OTHER_SCRIPT: &str = r#"{"callbacks": [{"name": "loud", "script": []}],
  "plugins": [{"name": "shout", "load": [{"hook": "init", "callback": "loud"}]}]}"#;

const OTHER_LOAD: &str =
    r#"{"callbacks": [{"name": "loud", "script": [{"op": "return", "text": ["!"]}]}],
  "plugins": [{"name": "shout", "load": []}]}"#;

const NO_PLUGIN: &str =
    r#"{"callbacks": [{"name": "loud", "script": [{"op": "return", "text": ["!"]}]}],
  "plugins": []}"#;

const NOTHING: &str = r#"{"callbacks": [], "plugins": []}"#;

// What is told of a kit file behind the old one.
fn words_of(alloc: Global, new: &str) -> Result<String, Fail> {
    let old = read_kit_file(alloc, OLD.as_bytes())?;
    let new = read_kit_file(alloc, new.as_bytes())?;
    match extends(&old, &new) {
        Ok(()) => Ok(String::new(alloc)),
        Err(difference) => Ok(difference.text(alloc)?),
    }
}

#[test]
fn what_differs_has_its_words(rt: HostRuntime) -> Result<(), Fail> {
    let alloc = rt.alloc();
    for (new, words) in [
        (OLD, ""),
        (OTHER_SCRIPT, "callback \"loud\" has another script"),
        (OTHER_LOAD, "plugin \"shout\" has another load"),
        (NO_PLUGIN, "plugin \"shout\" is gone"),
        (NOTHING, "callback \"loud\" is gone"),
    ] {
        assert_eq!(rt; words_of(alloc, new)?.as_str(), words);
    }
    Ok(())
}
