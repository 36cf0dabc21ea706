//! Checks kit files: `press_lint_cases NAME ..` prints for each file NAME, which ends in `.json`, the
//! number of its fault with the message to its author, or 0 and a line for each slip in it. For
//! each other NAME, a folder, it prints the next kit of `old.json` by `new.json` in it, behind a
//! line for each plugin that is deactivated and activated.
#![tactic(auto)]

use press_lint::{LintFault, lint};
use press_upgrade::{NextFault, NextKit, next_kit};
use std::alloc::AllocError;
use std::{env, fs};

fn show(rt: &HostRuntime, name: &str) -> anyhow::Result<()> {
    let bytes = fs::read(rt, name)?;
    match lint(rt.alloc(), "> ", &bytes) {
        Ok(linted) => print!(rt; "{name}: 0\n{}", linted.slips)?,
        Err(LintFault::Refused { number, text }) => println!(rt; "{name}: {number} {text}")?,
        Err(LintFault::NoMemory) => return Err(AllocError.into()),
    }
    Ok(())
}

fn print_next(rt: &HostRuntime, name: &str, next: &NextKit) -> anyhow::Result<()> {
    println!(rt; "{name}:")?;
    for plugin in &next.deactivate {
        println!(rt; "deactivate {plugin}")?;
    }
    for plugin in &next.activate {
        println!(rt; "activate {plugin}")?;
    }
    println!(rt; "{}", next.text)?;
    Ok(())
}

fn show_next(rt: &HostRuntime, name: &str) -> anyhow::Result<()> {
    let alloc = rt.alloc();
    let old = fs::read(rt, &format!(in alloc; "{name}/old.json")?)?;
    let new = fs::read(rt, &format!(in alloc; "{name}/new.json")?)?;
    match next_kit(alloc, &old, &new) {
        Ok(next) => print_next(rt, name, &next)?,
        Err(NextFault::NoMemory) => return Err(AllocError.into()),
        Err(why) => println!(rt; "{name}: {why}")?,
    }
    Ok(())
}

fn main(rt: HostRuntime) -> anyhow::Result<()> {
    for name in env::args(&rt)?.skip(1) {
        if name.as_str().ends_with(".json") {
            show(&rt, name.as_str())?;
        } else {
            show_next(&rt, name.as_str())?;
        }
    }
    Ok(())
}
