use super::moves::command_value;
use press_apply::{Command, apply};
use press_callbacks::{BoxedTurns, CallIn, Kit, Stored, script_turn};
use press_demonstration::{grow, grow_turn, parts};
use press_kit::read_kit_file;
use press_posts::{Draft, Status};
use press_site::{Outcome, Site};
use press_text::{Copied, Moment, Name, OptName, Text};
use std::alloc::Global;
use std::test::Fail;

/// The demonstration kit as a file.
pub const DEMONSTRATION: &str = r#"{"callbacks":[
{"name":"add_a","script":[{"op":"set","text":[{"from":"value"},"a"]}]},
{"name":"add_b","script":[{"op":"set","text":[{"from":"value"},"b"]}]},
{"name":"add_c","script":[{"op":"set","text":[{"from":"value"},"c"]}]},
{"name":"add_d","script":[{"op":"set","text":[{"from":"value"},"d"]}]},
{"name":"add_e","script":[{"op":"set","text":[{"from":"value"},"e"]}]},
{"name":"add_f","script":[{"op":"set","text":[{"from":"value"},"f"]}]},
{"name":"grow","script":[{"op":"add_hook","hook":"the_title","callback":"add_d"},
{"op":"add_hook","hook":"the_title","callback":"add_e","priority":11},{"op":"add_hook","hook":"the_title","callback":"add_f","priority":9},
{"op":"set","text":[{"from":"value"},"a"]}]},
{"name":"greet","script":[{"op":"return","text":["Hello ",{"att":"name"}]}]},
{"name":"box","script":[{"op":"shortcodes","text":[{"from":"content"}]},{"op":"return","text":["<div>",{"from":"last"},"</div>"]}]},
{"name":"again","script":[{"op":"apply","hook":"the_title","value":[{"from":"value"}]},{"op":"return","text":[{"from":"last"}]}]},
{"name":"again_save","script":[{"op":"apply","hook":"title_save_pre","value":[{"from":"value"}]},{"op":"return","text":[{"from":"last"}]}]},
{"name":"note","script":[{"op":"set_option","name":"last_saved","value":[{"arg":0}]}]},
{"name":"mark","script":[{"op":"set","text":["{",{"from":"value"},"|",{"arg":1},"}"]}]}],
"plugins":[{"name":"grow","load":[{"hook":"the_title","callback":"grow"}]},
{"name":"letters","load":[{"hook":"the_title","callback":"add_a"},{"hook":"the_title","callback":"add_b"},{"hook":"the_title","callback":"add_c","priority":5}]},
{"name":"loop","load":[{"hook":"the_title","callback":"again"},{"hook":"title_save_pre","callback":"again_save"}]},
{"name":"marks","load":[{"hook":"do_shortcode_tag","callback":"mark","accepted":2}]},
{"name":"notes","load":[{"hook":"save_post","callback":"note"}]},
{"name":"tags","load":[{"tag":"greet","callback":"greet"},{"tag":"box","callback":"box"}]}]}"#;

// The plugin `notes` is activated, and a post inserted.
fn site_with_note(alloc: Global, kit: &Kit) -> Result<Site, Fail> {
    let mut site = Site::new(alloc);
    let activate = command_value(
        alloc,
        1,
        Command::Activate {
            plugin: Name::new(alloc, "notes")?,
        },
    )?;
    if apply(alloc, &mut site, kit, &activate)? != Outcome::Done(0) {
        return Err(Fail::from("no plugin"));
    }
    let insert = command_value(
        alloc,
        2,
        Command::Insert(Draft {
            title: Text::from_str(alloc, "x")?,
            content: Text::from_str(alloc, "Hello")?,
            status: Status::Publish,
            date: Moment::zero(),
        }),
    )?;
    if apply(alloc, &mut site, kit, &insert)? != Outcome::Done(1) {
        return Err(Fail::from("no post"));
    }
    Ok(site)
}

// The demonstration kit is the one of the file.
#[test]
fn the_demonstration_kit_of_a_file(rt: HostRuntime) -> Result<(), Fail> {
    let alloc = rt.alloc();
    let parts = parts(alloc)?;
    let mut callbacks = Vec::new(alloc);
    let call: BoxedTurns = Box::new(alloc, move |i: &CallIn| grow_turn(alloc, i))?;
    callbacks.push(Stored::new(grow(), parts.growing, call))?;
    for scripted in parts.played {
        let own = scripted.own;
        let call: BoxedTurns = Box::new(alloc, move |i: &CallIn| script_turn(alloc, &own, i))?;
        callbacks.push(Stored::new(scripted.id, scripted.script, call))?;
    }
    let kit = Kit::build(alloc, callbacks, parts.plugins)?;
    let file = read_kit_file(alloc, DEMONSTRATION.as_bytes())?;
    let mut callbacks = Vec::new(alloc);
    for scripted in file.callbacks.into_vec() {
        let own = scripted.script.copy_in(alloc)?;
        let call: BoxedTurns = Box::new(alloc, move |i: &CallIn| script_turn(alloc, &own, i))?;
        callbacks.push(Stored::new(scripted.id, scripted.script, call))?;
    }
    let of_file = Kit::build(alloc, callbacks, file.plugins.into_vec())?;
    assert!(rt; kit.same(&of_file));
    Ok(())
}

// Two demonstration kits are the same. With its plugin `notes` a site has the id of the post that
// was saved last.
#[test]
fn the_demonstration_kit(rt: HostRuntime) -> Result<(), Fail> {
    let alloc = rt.alloc();
    let mut kits = Vec::new(alloc);
    for _ in 0..2 {
        let parts = parts(alloc)?;
        let mut callbacks = Vec::new(alloc);
        let call: BoxedTurns = Box::new(alloc, move |i: &CallIn| grow_turn(alloc, i))?;
        callbacks.push(Stored::new(grow(), parts.growing, call))?;
        for scripted in parts.played {
            let own = scripted.own;
            let call: BoxedTurns = Box::new(alloc, move |i: &CallIn| script_turn(alloc, &own, i))?;
            callbacks.push(Stored::new(scripted.id, scripted.script, call))?;
        }
        kits.push(Kit::build(alloc, callbacks, parts.plugins)?)?;
    }
    let [kit, again] = kits.as_slice() else {
        return Err(Fail::from("two kits"));
    };
    assert!(rt; kit.same(again));
    let site = site_with_note(alloc, kit)?;
    let saved = OptName::new(alloc, "last_saved")?;
    assert!(rt; site.option(&saved) == Some("1"));
    Ok(())
}

// A list of a kit file has as many items as its file has room for.
#[test]
fn a_list_of_65537_parts_is_read(rt: HostRuntime) -> Result<(), Fail> {
    let alloc = rt.alloc();
    let mut file = Text::from_str(
        alloc,
        r#"{"plugins":[],"callbacks":[{"name":"a","script":[{"op":"set","text":[""#,
    )?;
    for _ in 0..65_536u32 {
        file.push_str("b\",\"")?;
    }
    file.push_str("b\"]}]}]}")?;
    let kit = read_kit_file(alloc, file.as_bytes())?;
    assert_eq!(rt; kit.callbacks.as_slice().len(), 1);
    Ok(())
}
