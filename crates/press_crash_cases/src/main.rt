//! Plays stores on a SQL database: `press_crash_cases WORD ..`. A word that begins with `store`
//! begins a scene: the words after it ask a new store over two files in memory, `sql=TEXT` before a store
//! is made. One that ends with `-file` too names a file, in which such texts are run, and which a
//! store then opens. A word that begins with `stops` has what the words after it do stopped at
//! each call of one of the two files, and prints what is kept after each of them. `saves=N` saves
//! in a file, for whoever measures it.
//!
//! Functions here that play an event on a node carry `requires always { Unit {0} }`, which always
//! holds: `docs/DECISIONS.md` says why the checker wants it.
#![tactic(auto)]

mod asks;
mod command;
mod kept;
mod lines;
mod note_asks;
mod numbered;
mod posts;
mod start_asks;
mod stops;
mod stores;
mod words;

use crate::stops::play_stops;
use crate::stores::{play_file, play_store, save_in_file};
use crate::words::{Scene, Start};
use std::{env, io};

fn words_of(rt: &HostRuntime) -> io::Result<Vec<String>> {
    let mut words = Vec::new(rt.alloc());
    for word in env::args(rt)?.skip(1) {
        words.push(word)?;
    }
    Ok(words)
}

fn play(rt: &HostRuntime, scene: &Scene<'_>) -> anyhow::Result<()> {
    match scene.start {
        Start::Store => play_store(rt, &scene.sessions),
        Start::File => play_file(rt, scene.name, &scene.sessions),
        Start::Stops => play_stops(rt, &scene.sessions),
        Start::Saves(count) => save_in_file(rt, "saves.db", count),
    }
}

fn main(rt: HostRuntime) -> anyhow::Result<()> {
    let words = words_of(&rt)?;
    let mut scene = Scene::new(rt.alloc(), "", Start::Store)?;
    for word in words.iter() {
        match Start::from_word(word.as_str()) {
            None => scene.push(rt.alloc(), word.as_str())?,
            Some(start) => {
                play(&rt, &scene)?;
                println!(rt; "{word}")?;
                scene = Scene::new(rt.alloc(), word.as_str(), start)?;
            }
        }
    }
    play(&rt, &scene)
}
