//! Plays a node by itself over memory: `press_node_cases WORD ..`. `new`, `kit=FILE`,
//! `fails-before=N` and `fails-after=N` begin with new nodes; `replay=FILE` plays the schedule of a
//! cluster, `long=N:FILE` the one that a file's lines make where the second stands N times, and
//! `numbers=FILE` those that its lines are with each of some numbers; any other FILE is a
//! connection that is served, and `cuts=FILE` a connection for each byte at which it may be cut;
//! `reads=FILE` and `writes=FILE` are connections of which each read, or each write, fails in turn;
//! `wants=FILE` and `wants-in=KIT FILE ..` run a play file, and schedules, over closures that run
//! out of memory at each of their calls in turn, and `replay-fails=FILE` a schedule over reads and
//! writes that fail likewise; `wake`, `deliver`, `settle`, `stop` and `fill=N` are what happens
//! beside connections; `commands=N`, `applies=N` and, before a FILE, `serves=N` are for whoever
//! measures it.
//!
//! Functions here that change a node and play an event on it carry `requires always { Unit {0} }`,
//! which always holds: `docs/DECISIONS.md` says why the checker wants it.
#![tactic(auto)]

mod cluster;
mod failing;
mod faults;
mod lines;
mod piece_reader;
mod played;
mod posts;
mod runs;
mod schedules;
mod seat;
mod seats;
mod store;
mod wanting;
mod wants;
mod word;
mod words;

use crate::played::play;
use crate::words::{Scene, Start};
use std::{env, io};

fn words_of(rt: &HostRuntime) -> io::Result<Vec<String>> {
    let mut words = Vec::new(rt.alloc());
    for word in env::args(rt)?.skip(1) {
        words.push(word)?;
    }
    Ok(words)
}

fn main(rt: HostRuntime) -> anyhow::Result<()> {
    let words = words_of(&rt)?;
    let mut scene = Scene::new(rt.alloc(), Start::New);
    for word in words.iter() {
        match Start::from_word(word.as_str()) {
            None => scene.push(word.as_str())?,
            Some(start) => {
                play(&rt, &scene)?;
                println!(rt; "{word}")?;
                scene = Scene::new(rt.alloc(), start);
            }
        }
    }
    play(&rt, &scene)
}
