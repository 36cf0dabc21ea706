//! A play file over closures that run out of memory.

use crate::wants::Wants;
use press_callbacks::{BoxedTurns, CallIn, Kit, Stored};
use press_fakes::Fuse;
use press_kit::{KitParts, PlayFile, read_play_file};
use press_site::Site;
use press_text::Copied;
use std::fs;
use std::io::Write;
use std::rc::Rc;

/// Applies the commands of a play file, shows its pages and does its plays, on one site. Closures
/// run out of memory at each of their calls in turn.
pub fn play_wants(rt: &HostRuntime, name: &str) -> anyhow::Result<()> {
    let alloc = rt.alloc();
    let bytes = fs::read(rt, name)?;
    let PlayFile {
        kit: parts,
        commands,
        pages,
        plays,
        ..
    } = read_play_file(alloc, &bytes)?;
    let KitParts {
        callbacks: scripts,
        plugins,
    } = parts;
    let fuse = Rc::new(alloc, Fuse::new())?;
    let mut callbacks: Vec<Stored> = Vec::new(alloc);
    for scripted in scripts.into_vec() {
        let own = scripted.script.copy_in(alloc)?;
        let fuse = fuse.clone()?;
        let call: BoxedTurns = Box::new(
            alloc,
            move |input: &CallIn| fuse.turn(alloc, &own, input),
        )?;
        callbacks.push(Stored::new(scripted.id, scripted.script, call))?;
    }
    let kit = Kit::build(alloc, callbacks, plugins.into_vec())?;
    let mut site = Site::new(alloc);
    let mut wants = Wants {
        alloc,
        kit: &kit,
        fuse: &fuse,
        said: String::new(alloc),
    };
    wants.commands(&mut site, commands.as_slice())?;
    wants.pages(&site, pages.as_slice())?;
    wants.plays(site, plays.as_slice())?;
    rt.stdout().write_all(wants.said.as_bytes())?;
    Ok(())
}
