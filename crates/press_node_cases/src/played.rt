//! A scene, played.

use crate::schedules::{fail_replay, play_cluster, replay_file, replay_long, replay_numbers};
use crate::seats::Seats;
use crate::wanting::play_wants;
use crate::word::Word;
use crate::words::{Scene, Start};
use press_callbacks::{BoxedTurns, CallIn, Kit, Stored, script_turn};
use press_kit::{KitParts, read_kit_file};
use press_text::Copied;
use std::fs;
use std::io::Write;

const SIZES: [usize; 3] = [1, 7, 4096];

const EMPTY_KIT: &[u8] = b"{\"callbacks\":[],\"plugins\":[]}";

fn kit_file(rt: &HostRuntime, start: Start<'_>) -> anyhow::Result<Vec<u8>> {
    match start {
        Start::Kit(name) => Ok(fs::read(rt, name)?),
        _ => {
            let mut file = Vec::new(rt.alloc());
            file.extend_from_slice(EMPTY_KIT)?;
            Ok(file)
        }
    }
}

// The bytes of the file that an argument names.
fn request(rt: &HostRuntime, word: Word<'_>) -> anyhow::Result<Vec<u8>> {
    match word {
        Word::File(name) | Word::Cuts(name) | Word::Reads(name) | Word::Writes(name) => Ok(fs::read(
            rt, name,
        )?),
        _ => Ok(Vec::new(rt.alloc())),
    }
}

/// Plays a schedule, or the arguments on three new nodes.
pub fn play(rt: &HostRuntime, scene: &Scene<'_>) -> anyhow::Result<()> {
    match scene.start {
        Start::Replay(name) => replay_file(rt, name),
        Start::Long(count, name) => replay_long(rt, count, name),
        Start::Numbers(name) => replay_numbers(rt, name),
        Start::Fails(name) => fail_replay(rt, name),
        Start::Wants(name) => play_wants(rt, name),
        Start::WantsIn(name) => play_cluster(rt, name, scene.words.as_slice()),
        Start::New | Start::Kit(_) | Start::FailsBefore(_) | Start::FailsAfter(_) => {
            play_words(rt, scene)
        }
    }
}

// Starts three nodes and plays the arguments on them. The kit's closures are boxed here, and nodes
// stay here: a function can't return a box.
fn play_words(rt: &HostRuntime, scene: &Scene<'_>) -> anyhow::Result<()> {
    let alloc = rt.alloc();
    let file = kit_file(rt, scene.start)?;
    let mut seats = Seats::new(alloc);
    for size in SIZES {
        let KitParts {
            callbacks: parts,
            plugins,
        } = read_kit_file(alloc, &file)?;
        let mut callbacks: Vec<Stored> = Vec::new(alloc);
        for scripted in parts.into_vec() {
            let own = scripted.script.copy_in(alloc)?;
            let call: BoxedTurns = Box::new(
                alloc,
                move |input: &CallIn| script_turn(alloc, &own, input),
            )?;
            callbacks.push(Stored::new(scripted.id, scripted.script, call))?;
        }
        let kit = Kit::build(alloc, callbacks, plugins.into_vec())?;
        seats.start(kit, scene.start.plan(), size)?;
    }
    for word in scene.words.iter() {
        let request = request(rt, *word)?;
        let said = seats.play(*word, &request)?;
        rt.stdout().write_all(&said)?;
    }
    Ok(())
}
