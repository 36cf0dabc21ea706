//! Closures that run out of memory at each of their calls in turn: in each kind of command, in
//! pages, in runs, and on a node.

use crate::tests::demonstration::DEMONSTRATION;
use crate::tests::downs::OnNode;
use press_apply::{Stamped, Value, apply};
use press_callbacks::{BoxedTurns, CallIn, Kit, Stored};
use press_fakes::Fuse;
use press_kit::{KitParts, Play, PlayFile, read_kit_file, read_play_file};
use press_page::{Target, page};
use press_run::{Job, Machine, RunFault};
use press_site::{Outcome, Site};
use press_text::Copied;
use std::alloc::{AllocError, Global};
use std::rc::Rc;
use std::test::Fail;

// Each kind of command, done and refused, over a callback that keeps what it was called with, and
// one that calls itself without end. Then pages with a shortcode, a running hook that grows, and a
// shortcode within another one's content and within an attribute.
const KIT: &str = r#"{"callbacks":[
{"name":"keep","script":[{"op":"set_option","name":"kept","value":[{"from":"value"},{"arg":0}]},{"op":"return","text":[{"from":"value"}]}]},
{"name":"greet","script":[{"op":"return","text":["Hello ",{"att":"name"}]}]},
{"name":"box","script":[{"op":"shortcodes","text":[{"from":"content"}]},{"op":"return","text":["<div>",{"from":"last"},"</div>"]}]},
{"name":"add_a","script":[{"op":"add_hook","hook":"h","callback":"add_d"},{"op":"add_hook","hook":"h","callback":"add_e","priority":11},
{"op":"add_hook","hook":"h","callback":"add_f","priority":9},{"op":"set","text":[{"from":"value"},"a"]}]},
{"name":"add_d","script":[{"op":"set","text":[{"from":"value"},"d"]}]},
{"name":"add_e","script":[{"op":"set","text":[{"from":"value"},"e"]}]},
{"name":"add_f","script":[{"op":"set","text":[{"from":"value"},"f"]}]},
{"name":"again","script":[{"op":"apply","hook":"again","value":[{"from":"value"}]}]}],
"plugins":[{"name":"keeps","load":[{"hook":"wp_loaded","callback":"keep"},{"hook":"title_save_pre","callback":"keep"},
{"hook":"transition_post_status","callback":"keep"},{"hook":"wp_trash_post","callback":"keep"},{"hook":"untrashed_post","callback":"keep"},
{"hook":"before_delete_post","callback":"keep"},{"hook":"update_option_blogname","callback":"keep"},{"hook":"h","callback":"add_a"},{"hook":"s","callback":"do_shortcode"},
{"hook":"the_content","callback":"do_shortcode"},{"tag":"greet","callback":"greet"},{"tag":"box","callback":"box"}]},
{"name":"endless","load":[{"hook":"again","callback":"again"},{"hook":"add_option_never","callback":"again"},
{"hook":"publish_future_post","callback":"again","priority":9}]},
{"name":"idle","load":[]}]}"#;

const FILE: &str = r#"{"kit":{"callbacks":[],"plugins":[]},
"commands":[{"editor":"ann","seq":1,"at":10,"kind":"activate","plugin":"keeps"},
{"editor":"ann","seq":2,"at":10,"kind":"insert","title":"x","content":"[greet name=Bo]","status":"publish"},
{"editor":"ann","seq":3,"at":10,"kind":"update","id":1,"title":"z","content":"[greet name=Al] [greet]","status":"publish"},
{"editor":"ann","seq":4,"at":10,"kind":"update","id":9,"title":"z","content":"Hi","status":"publish"},
{"editor":"ann","seq":5,"at":10,"kind":"insert","title":"y","content":"Hello","status":"draft"},
{"editor":"ann","seq":6,"at":10,"kind":"trash","id":2},
{"editor":"ann","seq":7,"at":10,"kind":"trash","id":2},
{"editor":"ann","seq":8,"at":10,"kind":"untrash","id":2},
{"editor":"ann","seq":9,"at":10,"kind":"untrash","id":2},
{"editor":"ann","seq":10,"at":10,"kind":"trash","id":2},
{"editor":"ann","seq":11,"at":10,"kind":"delete","id":2},
{"editor":"ann","seq":12,"at":10,"kind":"delete","id":2},
{"editor":"ann","seq":13,"at":10,"kind":"option","name":"blogname","value":"A"},
{"editor":"ann","seq":14,"at":10,"kind":"option","name":"blogname","value":"A & B"},
{"editor":"ann","seq":15,"at":10,"kind":"activate","plugin":"idle"},
{"editor":"ann","seq":16,"at":10,"kind":"activate","plugin":"idle"},
{"editor":"ann","seq":17,"at":10,"kind":"deactivate","plugin":"idle"},
{"editor":"ann","seq":18,"at":10,"kind":"deactivate","plugin":"idle"},
{"editor":"ann","seq":19,"at":10,"kind":"insert","title":"f","content":"Hello","status":"future","date":50},
{"editor":"ann","seq":20,"at":10,"kind":"insert","title":"g","content":"Hello","status":"future","date":51},
{"editor":"ann","seq":21,"at":60,"kind":"tick"},
{"editor":"ann","seq":22,"at":60,"kind":"tick"},
{"editor":"ann","seq":23,"at":60,"kind":"profile","profile":1},
{"editor":"ann","seq":24,"at":60,"kind":"profile","profile":2},
{"editor":"ann","seq":25,"at":60,"kind":"insert","title":"y","content":"Hello","status":"trash"},
{"editor":"ann","seq":26,"at":60,"kind":"insert","title":"h","content":"Hello","status":"future","date":70},
{"editor":"ann","seq":27,"at":60,"kind":"activate","plugin":"endless"},
{"editor":"ann","seq":28,"at":60,"kind":"option","name":"never","value":"1"},
{"editor":"ann","seq":29,"at":80,"kind":"tick"}],
"pages":["front","post:1","json:1"],
"plays":[{"apply":"h","args":["x"]},{"apply":"h","args":["x"]},{"apply":"s","args":["[box]a [greet name=Bo] b[/box]"]},
{"apply":"s","args":["[greet name=\"[box]\"]"]}]}"#;

// How often each of the commands calls the closures, and what becomes of it.
const COMMANDS: [(u64, Outcome); 29] = [
    (0, Outcome::Done(0)),
    (6, Outcome::Done(1)),
    (6, Outcome::Done(1)),
    (2, Outcome::Refused(10)),
    (6, Outcome::Done(2)),
    (6, Outcome::Done(2)),
    (2, Outcome::Refused(12)),
    (6, Outcome::Done(2)),
    (2, Outcome::Refused(11)),
    (6, Outcome::Done(2)),
    (4, Outcome::Done(2)),
    (2, Outcome::Refused(10)),
    (2, Outcome::Done(0)),
    (4, Outcome::Done(0)),
    (0, Outcome::Done(0)),
    (0, Outcome::Refused(16)),
    (0, Outcome::Done(0)),
    (0, Outcome::Refused(17)),
    (6, Outcome::Done(3)),
    (6, Outcome::Done(4)),
    (6, Outcome::Done(0)),
    (2, Outcome::Done(0)),
    (0, Outcome::Refused(19)),
    (0, Outcome::Done(0)),
    (2, Outcome::Refused(12)),
    (6, Outcome::Done(5)),
    (0, Outcome::Done(0)),
    (34, Outcome::Refused(20)),
    (34, Outcome::Refused(20)),
];

// The form of the second of them.
const FORM: &[u8] = b"POST /command HTTP/1.1\r\nHost: a\r\nContent-Length: 87\r\n\r\n\
    editor=ann&seq=2&at=10&kind=insert&title=x&content=%5Bgreet+name%3DBo%5D&status=publish";

// A boot with all plugins of the demonstration kit but `loop`: the titles of `grow` and `letters`,
// the shortcodes of `tags` with their `marks`, the option of `notes`.
const ALL: &str = r#"{"kit":{"callbacks":[],"plugins":[]},
"commands":[{"editor":"ann","seq":1,"at":10,"kind":"activate","plugin":"letters"},
{"editor":"ann","seq":2,"at":10,"kind":"activate","plugin":"grow"},
{"editor":"ann","seq":3,"at":10,"kind":"activate","plugin":"tags"},
{"editor":"ann","seq":4,"at":10,"kind":"activate","plugin":"notes"},
{"editor":"ann","seq":5,"at":10,"kind":"insert","title":"x","content":"[box]a [greet name=Bo] b[/box] [greet name=\"[box]\"]","status":"publish"},
{"editor":"ann","seq":6,"at":10,"kind":"update","id":1,"title":"y","content":"[box]a [greet name=Bo] b[/box]","status":"publish"},
{"editor":"ann","seq":7,"at":10,"kind":"insert","title":"f","content":"Hello","status":"future","date":50},
{"editor":"ann","seq":8,"at":60,"kind":"tick"},
{"editor":"ann","seq":9,"at":60,"kind":"activate","plugin":"marks"},
{"editor":"ann","seq":10,"at":60,"kind":"profile","profile":2}],
"pages":["front","post:1","json:1"],
"plays":[{"apply":"the_title","args":["x"]},{"apply":"the_title","args":["x"]}]}"#;

const WITH_ALL: [(u64, Outcome); 10] = [
    (0, Outcome::Done(0)),
    (0, Outcome::Done(0)),
    (0, Outcome::Done(0)),
    (0, Outcome::Done(0)),
    (2, Outcome::Done(1)),
    (2, Outcome::Done(1)),
    (2, Outcome::Done(2)),
    (0, Outcome::Done(0)),
    (0, Outcome::Done(0)),
    (0, Outcome::Done(0)),
];

// An insert that the limit refuses, and a page likewise.
const LOOP: &str = r#"{"kit":{"callbacks":[],"plugins":[]},
"commands":[{"editor":"ann","seq":1,"at":10,"kind":"insert","title":"x","content":"Hello","status":"publish"},
{"editor":"ann","seq":2,"at":10,"kind":"activate","plugin":"loop"},
{"editor":"ann","seq":3,"at":10,"kind":"insert","title":"y","content":"Hello","status":"publish"}],
"pages":["post:1"],
"plays":[]}"#;

const WITH_LOOP: [(u64, Outcome); 3] = [
    (0, Outcome::Done(1)),
    (0, Outcome::Done(0)),
    (32, Outcome::Refused(20)),
];

// A boot with all plugins, and an insert that the limit refuses.
const EACH: &str = r#"{"kit":{"callbacks":[],"plugins":[]},
"commands":[{"editor":"ann","seq":1,"at":10,"kind":"activate","plugin":"letters"},
{"editor":"ann","seq":2,"at":10,"kind":"activate","plugin":"grow"},
{"editor":"ann","seq":3,"at":10,"kind":"activate","plugin":"tags"},
{"editor":"ann","seq":4,"at":10,"kind":"activate","plugin":"notes"},
{"editor":"ann","seq":5,"at":10,"kind":"activate","plugin":"marks"},
{"editor":"ann","seq":6,"at":10,"kind":"activate","plugin":"loop"},
{"editor":"ann","seq":7,"at":10,"kind":"insert","title":"y","content":"Hello","status":"publish"}],
"pages":["front"],
"plays":[]}"#;

const WITH_EACH: [(u64, Outcome); 7] = [
    (0, Outcome::Done(0)),
    (0, Outcome::Done(0)),
    (0, Outcome::Done(0)),
    (0, Outcome::Done(0)),
    (0, Outcome::Done(0)),
    (0, Outcome::Done(0)),
    (32, Outcome::Refused(20)),
];

fn is_same(alloc: Global, one: &Site, other: &Site) -> Result<bool, AllocError> {
    let (one, other) = (
        format!(in alloc; "{one:?}")?,
        format!(in alloc; "{other:?}")?,
    );
    Ok(one.as_str() == other.as_str())
}

// A kit over closures of which one runs out of memory.
#[derive(Drop)]
struct Wants<'a> {
    alloc: Global,
    kit: &'a Kit,
    fuse: &'a Fuse,
}

impl Wants<'_> {
    // How many calls of closures a command makes, where each of them can run out of memory with the
    // site as it was, and what becomes of it; the site has it applied.
    fn calls_of(&self, site: &mut Site, value: &Value) -> Result<(u64, Outcome), Fail> {
        let before = site.copy()?;
        self.fuse.set(0);
        let outcome = apply(self.alloc, site, self.kit, value)?;
        let calls = self.fuse.calls();
        for at in 1..=calls {
            let mut again = before.copy()?;
            self.fuse.set(at);
            let is_refused = apply(self.alloc, &mut again, self.kit, value).is_err();
            if !is_refused || !self.fuse.is_blown() || !is_same(self.alloc, &before, &again)? {
                return Err(Fail::from("a refused call leaves something else"));
            }
        }
        Ok((calls, outcome))
    }

    // The same of each of the commands.
    fn calls_of_all(
        &self,
        site: &mut Site,
        commands: &[Stamped],
    ) -> Result<Vec<(u64, Outcome)>, Fail> {
        let mut calls = Vec::new(self.alloc);
        for stamped in commands {
            let value = Value::Cmd(stamped.copy(self.alloc)?);
            calls.push(self.calls_of(site, &value)?)?;
        }
        Ok(calls)
    }

    // How many calls of closures a page makes, where each of them can run out of memory.
    fn calls_for(&self, site: &Site, target: &Target) -> Result<u64, Fail> {
        self.fuse.set(0);
        page(self.alloc, site, self.kit, target)?;
        let calls = self.fuse.calls();
        for at in 1..=calls {
            self.fuse.set(at);
            let is_page = page(self.alloc, site, self.kit, target).is_ok();
            if is_page || !self.fuse.is_blown() {
                return Err(Fail::from("a refused call leaves a page"));
            }
        }
        Ok(calls)
    }

    // How many each of the pages makes.
    fn calls_for_all(&self, site: &Site, targets: &[Target]) -> Result<Vec<u64>, Fail> {
        let mut calls = Vec::new(self.alloc);
        for target in targets {
            calls.push(self.calls_for(site, target)?)?;
        }
        Ok(calls)
    }

    // How many calls of closures a run makes, where each of them can run out of memory; the machine
    // has done it, and its answer is a line more.
    fn calls_in(
        &self,
        machine: &mut Machine<Site>,
        play: &Play,
        answers: &mut String,
    ) -> Result<u64, Fail> {
        let before = machine.copy(self.alloc)?;
        self.fuse.set(0);
        let answer = machine.run(self.kit, job_of(self.alloc, play)?)?;
        answers.push_str(answer.as_str())?;
        answers.push_str("\n")?;
        let calls = self.fuse.calls();
        for at in 1..=calls {
            let mut again = before.copy(self.alloc)?;
            self.fuse.set(at);
            let fault = again.run(self.kit, job_of(self.alloc, play)?).err();
            if fault != Some(RunFault::NoMemory) || !self.fuse.is_blown() {
                return Err(Fail::from("a refused call gives something else"));
            }
        }
        Ok(calls)
    }

    // How many each of a play file's commands, pages and plays makes.
    fn counts(&self, file: &PlayFile) -> Result<Counts, Fail> {
        let mut site = Site::new(self.alloc);
        let commands = self.calls_of_all(&mut site, file.commands.as_slice())?;
        let pages = self.calls_for_all(&site, file.pages.as_slice())?;
        let mut answers = String::new(self.alloc);
        let plays = self.calls_in_all(site, file.plays.as_slice(), &mut answers)?;
        Ok(Counts {
            commands,
            pages,
            plays,
            answers,
        })
    }

    // How many each of the runs makes, from a boot on.
    fn calls_in_all(
        &self,
        site: Site,
        plays: &[Play],
        answers: &mut String,
    ) -> Result<Vec<u64>, Fail> {
        let mut machine = Machine::new(self.alloc, self.kit, site)?;
        let mut calls = Vec::new(self.alloc);
        for play in plays {
            calls.push(self.calls_in(&mut machine, play, answers)?)?;
        }
        Ok(calls)
    }
}

fn job_of(alloc: Global, play: &Play) -> Result<Job, AllocError> {
    Ok(Job::Apply {
        hook: play.hook.copy(alloc)?,
        args: play.args.copy()?,
    })
}

// How often each of a play file's commands, pages and plays calls the closures, what becomes of the
// commands, and a line of each play's answer.
#[derive(Drop)]
struct Counts {
    commands: Vec<(u64, Outcome)>,
    pages: Vec<u64>,
    plays: Vec<u64>,
    answers: String,
}

// The counts of a play file over this kit, on one site and on nodes, which get the second command
// by the form, where there is one.
fn counts_of(
    alloc: Global,
    kit: KitParts,
    file: PlayFile,
    form: Option<&[u8]>,
) -> Result<Counts, Fail> {
    let KitParts {
        callbacks: scripts,
        plugins,
    } = kit;
    let fuse = Rc::new(alloc, Fuse::new())?;
    let mut callbacks: Vec<Stored> = Vec::new(alloc);
    for scripted in scripts.into_vec() {
        let own = scripted.script.copy_in(alloc)?;
        let fuse = fuse.clone()?;
        let call: BoxedTurns = Box::new(
            alloc,
            move |input: &CallIn| fuse.turn(alloc, &own, input),
        )?;
        callbacks.push(Stored::new(scripted.id, scripted.script, call))?;
    }
    let kit = Kit::build(alloc, callbacks, plugins.into_vec())?;
    let wants = Wants {
        alloc,
        kit: &kit,
        fuse: &fuse,
    };
    let counts = wants.counts(&file)?;
    let node = OnNode {
        alloc,
        fuse: &fuse,
        commands: file.commands.as_slice(),
        form,
    };
    node.all_come_back(kit, counts.commands.as_slice())?;
    Ok(counts)
}

#[test]
fn each_call_of_a_closure_wants_memory(rt: HostRuntime) -> Result<(), Fail> {
    let alloc = rt.alloc();
    let file = read_play_file(alloc, FILE.as_bytes())?;
    let kit = read_kit_file(alloc, KIT.as_bytes())?;
    let Counts {
        commands,
        pages,
        plays,
        answers,
    } = counts_of(alloc, kit, file, Some(FORM))?;
    assert_eq!(rt; commands.as_slice(), COMMANDS.as_slice());
    assert_eq!(rt; pages.as_slice(), [4, 4, 4].as_slice());
    assert_eq!(rt; plays.as_slice(), [7, 11, 3, 1].as_slice());
    assert_eq!(rt;
        answers.as_str(),
        "xae\nxfade\n<div>a Hello Bo b</div>\nHello \"]\n"
    );
    Ok(())
}

#[test]
fn each_call_with_all_plugins_wants_memory(rt: HostRuntime) -> Result<(), Fail> {
    let alloc = rt.alloc();
    let file = read_play_file(alloc, ALL.as_bytes())?;
    let kit = read_kit_file(alloc, DEMONSTRATION.as_bytes())?;
    let Counts {
        commands,
        pages,
        plays,
        answers,
    } = counts_of(alloc, kit, file, None)?;
    assert_eq!(rt; commands.as_slice(), WITH_ALL.as_slice());
    assert_eq!(rt; pages.as_slice(), [37, 20, 20].as_slice());
    assert_eq!(rt; plays.as_slice(), [13, 17].as_slice());
    assert_eq!(rt; answers.as_str(), "xcaabe\nxcfaabde\n");
    Ok(())
}

#[test]
fn each_call_of_an_endless_loop_wants_memory(rt: HostRuntime) -> Result<(), Fail> {
    let alloc = rt.alloc();
    let file = read_play_file(alloc, LOOP.as_bytes())?;
    let kit = read_kit_file(alloc, DEMONSTRATION.as_bytes())?;
    let Counts {
        commands,
        pages,
        ..
    } = counts_of(alloc, kit, file, None)?;
    assert_eq!(rt; commands.as_slice(), WITH_LOOP.as_slice());
    assert_eq!(rt; pages.as_slice(), [32].as_slice());
    let file = read_play_file(alloc, EACH.as_bytes())?;
    let kit = read_kit_file(alloc, DEMONSTRATION.as_bytes())?;
    let each = counts_of(alloc, kit, file, None)?;
    assert_eq!(rt; each.commands.as_slice(), WITH_EACH.as_slice());
    assert_eq!(rt; each.pages.as_slice(), [0].as_slice());
    Ok(())
}
