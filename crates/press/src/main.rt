//! The program: `press page FILE TARGET` prints a page of the site that the commands of a file
//! make, `press replay FILE` the transcript of a schedule, which `press loop FILE` carries over
//! sockets; `press serve` serves a node, by itself or as a member of a cluster. Each of them takes
//! `--kit FILE`, once for each kit file.
#![tactic(auto)]

#[cfg(test)]
mod tests;

use press_program::{fail, refuse, run};
use press_world::ReplayFault;
use std::process::ExitCode;
use std::rt::{Stderr, Stdin, Stdout};
use std::{env, io};

// The arguments after the program's name.
fn words_of(rt: &HostRuntime) -> io::Result<Vec<String>> {
    let mut words = Vec::new(rt.alloc());
    for word in env::args(rt)?.skip(1) {
        words.push(word)?;
    }
    Ok(words)
}

// One run over the standard streams. Their types keep output and errors apart.
fn run_on(
    rt: &HostRuntime,
    words: &[String],
    input: &mut Stdin,
    output: &mut Stdout,
    error: &mut Stderr,
) -> u8 {
    run::<Stdin, Stdout, Stderr>(rt, words, input, output, error)
}

fn main(rt: HostRuntime) -> ExitCode {
    let mut error = rt.stderr();
    let status = match words_of(&rt) {
        Ok(words) => run_on(&rt, &words, &mut rt.stdin(), &mut rt.stdout(), &mut error),
        Err(e) if e.kind() == io::ErrorKind::OutOfMemory => {
            fail(ReplayFault::NoMemory, &mut error)
        }
        Err(_) => refuse(&mut error),
    };
    ExitCode::from(status)
}
