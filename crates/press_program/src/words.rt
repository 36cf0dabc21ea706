//! The arguments of the program, by `clap`.

ghost use Rattle.std.specs.Prelude.{◌≡◌, ◌≢◌, ◌≤◌, IfOk, IfSome, None, codes, false, map, option_and_then, option_map, string_bytes};
ghost use Rattle.clap.specs.Words.{FailsBy, app_of, fault_of, first_of, found_of, rows_of, subcommand_of, subcommand_rows_of};
ghost use Rattle.clap.specs.declared.builder.command.Command.TheViews.{out-Command};
ghost use Rattle.clap.specs.Values.{kind_of};
ghost use Rattle.press_program.specs.Words as spec;
ghost use Rattle.press_wire.specs.Ranges.{most_members};

use crate::task::Task;
use crate::wanted::{Arguments, Exporting, Job, Mailing, Nexting, SeveralFiles, Wanted};
use clap::error::ErrorKind;
use clap::{Arg, ArgAction, ArgMatches, Command, Error};
use press_page::Target;
use press_server::{Role, Setup};
use press_text::dec_u64;
use press_wire::MOST_MEMBERS;
use std::alloc::{AllocError, Global};

// The first file of an export, where no name is given.
const SITE_NAME: &str = "site.json";

// An option for names of files, after the other arguments of a command.
fn with_names<'a>(
    alloc: Global,
    command: Command<'a>,
    id: &'a str,
) -> Result<Command<'a>, AllocError>
    requires local { (out-Command command).has_globals ≡ false }
    ensures app { IfOk result (λ c. app_of c
        ≡ spec.with_names (app_of command.entry) id.now) }
    ensures local { IfOk result (λ c. (out-Command c).has_globals ≡ false) }
{
    let names = Arg::new(alloc, id).long(id);
    let with = command.arg(names.action(ArgAction::Append))?;
    Ok(with)
}

// The option for kit files.
fn with_kit<'a>(alloc: Global, command: Command<'a>) -> Result<Command<'a>, AllocError>
    requires local { (out-Command command).has_globals ≡ false }
    ensures app { IfOk result (λ c. app_of c ≡ spec.with_kit (app_of command.entry)) }
    ensures local { IfOk result (λ c. (out-Command c).has_globals ≡ false) }
{
    with_names(alloc, command, "kit")
}

fn page_words<'a>(alloc: Global) -> Result<Command<'a>, AllocError>
    ensures app { IfOk result (λ c. app_of c ≡ spec.page_words) }
    ensures local { IfOk result (λ c. (out-Command c).has_globals ≡ false) }
{
    let file = Arg::new(alloc, "FILE").required(true);
    let target = Arg::new(alloc, "TARGET").required(true);
    let page = Command::new(alloc, "page")
        .disable_help_flag(true)
        .arg(file)?
        .arg(target)?;
    let several = with_names(alloc, page, "then")?;
    let whole = with_kit(alloc, several)?;
    Ok(whole)
}

// A command with a file as its only argument.
fn file_words<'a>(alloc: Global, name: &'a str) -> Result<Command<'a>, AllocError>
    ensures app { IfOk result (λ c. app_of c ≡ spec.file_words name.now) }
    ensures local { IfOk result (λ c. (out-Command c).has_globals ≡ false) }
{
    let file = Arg::new(alloc, "FILE").required(true);
    let named = Command::new(alloc, name).disable_help_flag(true).arg(file)?;
    let whole = with_kit(alloc, named)?;
    Ok(whole)
}

// The options of a server's place.
fn place_words<'a>(alloc: Global) -> Result<Command<'a>, AllocError>
    ensures app { IfOk result (λ c. app_of c ≡ spec.place_words) }
    ensures local { IfOk result (λ c. (out-Command c).has_globals ≡ false) }
{
    let bare = Command::new(alloc, "serve").disable_help_flag(true);
    let one = bare.arg(Arg::new(alloc, "port").long("port"))?;
    let two = one.arg(Arg::new(alloc, "id").long("id"))?;
    let three = two.arg(Arg::new(alloc, "peers").long("peers"))?;
    let serve = three.arg(Arg::new(alloc, "tick").long("tick"))?;
    Ok(serve)
}

// The options of a server that have a value.
fn valued_words<'a>(alloc: Global) -> Result<Command<'a>, AllocError>
    ensures app { IfOk result (λ c. app_of c ≡ spec.valued_words) }
    ensures local { IfOk result (λ c. (out-Command c).has_globals ≡ false) }
{
    let place = place_words(alloc)?;
    let one = place.arg(Arg::new(alloc, "store").long("store"))?;
    let two = one.arg(Arg::new(alloc, "turns").long("turns"))?;
    let three = two.arg(Arg::new(alloc, "editor").long("editor"))?;
    let serve = three.arg(Arg::new(alloc, "ahead").long("ahead"))?;
    Ok(serve)
}

// The options of a server.
fn server_words<'a>(alloc: Global) -> Result<Command<'a>, AllocError>
    ensures app { IfOk result (λ c. app_of c ≡ spec.server_words) }
    ensures local { IfOk result (λ c. (out-Command c).has_globals ≡ false) }
{
    let valued = valued_words(alloc)?;
    let stay = Arg::new(alloc, "stay").long("stay");
    let one = valued.arg(stay.action(ArgAction::SetTrue))?;
    let status = Arg::new(alloc, "status").long("status");
    let two = one.arg(status.action(ArgAction::SetTrue))?;
    let new = Arg::new(alloc, "new").long("new");
    let serve = two.arg(new.action(ArgAction::SetTrue))?;
    Ok(serve)
}

fn serve_words<'a>(alloc: Global) -> Result<Command<'a>, AllocError>
    ensures app { IfOk result (λ c. app_of c ≡ spec.serve_words) }
    ensures local { IfOk result (λ c. (out-Command c).has_globals ≡ false) }
{
    let server = server_words(alloc)?;
    let whole = with_kit(alloc, server)?;
    Ok(whole)
}

fn send_words<'a>(alloc: Global) -> Result<Command<'a>, AllocError>
    ensures app { IfOk result (λ c. app_of c ≡ spec.send_words) }
    ensures local { IfOk result (λ c. (out-Command c).has_globals ≡ false) }
{
    let file = Arg::new(alloc, "FILE").required(true);
    let members = Arg::new(alloc, "MEMBERS").required(true);
    let send = Command::new(alloc, "send")
        .disable_help_flag(true)
        .arg(file)?
        .arg(members)?;
    Ok(send)
}

fn export_words<'a>(alloc: Global) -> Result<Command<'a>, AllocError>
    ensures app { IfOk result (λ c. app_of c ≡ spec.export_words) }
    ensures local { IfOk result (λ c. (out-Command c).has_globals ≡ false) }
{
    let member = Arg::new(alloc, "MEMBER").required(true);
    let file = Arg::new(alloc, "FILE");
    let export = Command::new(alloc, "export")
        .disable_help_flag(true)
        .arg(member)?
        .arg(file)?;
    Ok(export)
}

fn kit_words<'a>(alloc: Global) -> Result<Command<'a>, AllocError>
    ensures app { IfOk result (λ c. app_of c ≡ spec.kit_words) }
    ensures local { IfOk result (λ c. (out-Command c).has_globals ≡ false) }
{
    let old = Arg::new(alloc, "next").long("next");
    let new = Arg::new(alloc, "NEW").required(true);
    let kit = Command::new(alloc, "kit")
        .disable_help_flag(true)
        .arg(old)?
        .arg(new)?;
    Ok(kit)
}

// The program without its commands.
fn bare_words<'a>(alloc: Global) -> Command<'a>
    ensures { app_of result ≡ spec.bare_app }
{
    Command::new(alloc, "press")
        .no_binary_name(true)
        .disable_help_flag(true)
        .disable_help_subcommand(true)
        .subcommand_required(true)
}

// What the arguments ask for, as `clap` reads them.
fn parse<'a>(alloc: Global, words: &'a [String]) -> Result<ArgMatches<'a>, Error>
    ensures kinds { FailsBy (fault_of spec.program (map string_bytes words.entry.now)) result }
    ensures matches { IfOk result (λ m. subcommand_rows_of m
        ≡ subcommand_of spec.program (map string_bytes words.entry.now)) }
{
    let bare = bare_words(alloc);
    let page = page_words(alloc)?;
    let one = bare.subcommand(page)?;
    let replay = file_words(alloc, "replay")?;
    let two = one.subcommand(replay)?;
    let looped = file_words(alloc, "loop")?;
    let three = two.subcommand(looped)?;
    let serve = serve_words(alloc)?;
    let four = three.subcommand(serve)?;
    let send = send_words(alloc)?;
    let five = four.subcommand(send)?;
    let export = export_words(alloc)?;
    let six = five.subcommand(export)?;
    let kit = kit_words(alloc)?;
    let program = six.subcommand(kit)?;
    program.try_get_matches_from(words)
}

// The names that stand behind an option, in their order.
#[tactic(auto, using(crate::proofs::FirstValue::all_are))]
fn names_in<'a>(
    alloc: Global,
    inside: &ArgMatches<'a>,
    id: &str,
) -> Result<Vec<&'a str>, AllocError>
    ensures { IfOk result (λ names. map (λ name. name.now) names.items
        ≡ spec.names_in id.now (rows_of (found_of inside.now))) }
{
    match inside.get_strs(id) {
        Some(names) => Vec::from_slice(alloc, names),
        None => Ok(Vec::new(alloc)),
    }
}

// A page of a file's site, or of that of several.
#[tactic(auto, using(crate::proofs::Behind::job_alone, crate::proofs::Behind::job_behind))]
fn page_job<'a>(file: &'a str, further: Vec<&'a str>, target: Target) -> Job<'a>
    ensures { spec.job_of result
        ≡ spec.page_job file.now (map (λ name. name.now) further.entry.items) target }
{
    if further.is_empty() {
        return Job::OfFile(Wanted {
            file,
            task: Task::Page(target),
        });
    }
    Job::OfFiles(SeveralFiles {
        file,
        further,
        target,
    })
}

#[tactic(auto, using(crate::proofs::FirstValue::first_is))]
fn page_in<'a>(alloc: Global, inside: &ArgMatches<'a>) -> Result<Option<Job<'a>>, AllocError>
    ensures { IfOk result (λ j. option_map (λ j. spec.job_of j) j
        ≡ spec.page_in (rows_of (found_of inside.now))) }
{
    let (Some(file), Some(text)) = (inside.get_str("FILE"), inside.get_str("TARGET")) else {
        return Ok(None);
    };
    let further = names_in(alloc, inside, "then")?;
    match Target::from_text(alloc, text)? {
        Some(target) => Ok(Some(page_job(file, further, target))),
        None => Ok(None),
    }
}

#[tactic(auto, using(crate::proofs::FirstValue::first_is))]
fn file_in<'a>(inside: &ArgMatches<'a>, task: Task) -> Option<Wanted<'a>>
    ensures { option_map (λ w. spec.wanted_of w) result
        ≡ spec.file_in task (rows_of (found_of inside.now)) }
{
    let file = inside.get_str("FILE")?;
    Some(Wanted { file, task })
}

// The number that digits alone spell, from a least to a most.
fn number_in(text: &str, least: u32, most: u32) -> Option<u32>
    ensures value { result ≡ spec.number_in least most text.now }
    ensures most { IfSome result (λ n. n ≤ most) }
{
    match dec_u64(text) {
        Some(n) if u64::from(least) <= n && n <= u64::from(most) => Some(n as u32),
        _ => None,
    }
}

fn port_in(text: &str) -> Option<u16>
    ensures { result ≡ spec.number_in 1 65535 text.now }
{
    match number_in(text, 1, 65_535) {
        Some(n) => Some(n as u16),
        None => None,
    }
}

fn perhaps_number(text: Option<&str>, least: u32, most: u32) -> Option<Option<u32>>
    ensures { result ≡ spec.perhaps_number least most (option_map (λ t. t.now) text.entry) }
{
    match text {
        None => Some(None),
        Some(text) => Some(Some(number_in(text, least, most)?)),
    }
}

fn tick_in(text: Option<&str>) -> Option<u32>
    ensures { result ≡ spec.tick_in (option_map (λ t. t.now) text.entry) }
{
    match text {
        None => Some(300),
        Some(text) => number_in(text, 10, 60_000),
    }
}

fn id_in(text: &str) -> Option<u8>
    ensures { result ≡ spec.number_in 1 most_members text.now }
{
    match number_in(text, 1, MOST_MEMBERS as u32) {
        Some(n) => Some(n as u8),
        None => None,
    }
}

// Whether a word was given that has no value.
fn is_set(text: Option<&str>) -> bool
    ensures { result ≡ spec.is_set (option_map (λ t. t.now) text.entry) }
{
    match text {
        Some(text) => text == "true",
        None => false,
    }
}

#[tactic(auto, using(crate::proofs::FirstValue::first_is))]
fn alone_in<'a>(inside: &ArgMatches<'a>, port: &str) -> Option<Role<'a>>
    ensures { option_map (λ p. spec.place_of p) result
        ≡ spec.alone_by port.now (rows_of (found_of inside.now)) }
{
    let (false, None, None, None) = (
        is_set(inside.get_str("new")),
        inside.get_str("id"),
        inside.get_str("peers"),
        inside.get_str("tick"),
    ) else {
        return None;
    };
    let port = port_in(port)?;
    Some(Role::Alone { port })
}

#[tactic(auto, using(crate::proofs::FirstValue::first_is))]
fn member_in<'a>(inside: &ArgMatches<'a>) -> Option<Role<'a>>
    ensures { option_map (λ p. spec.place_of p) result
        ≡ spec.member_by (rows_of (found_of inside.now)) }
{
    let id = id_in(inside.get_str("id")?)?;
    let peers = inside.get_str("peers")?;
    let _store = inside.get_str("store")?;
    let tick = tick_in(inside.get_str("tick"))?;
    if is_set(inside.get_str("new")) {
        return Some(Role::NewMember { id, peers });
    }
    Some(Role::Member { id, peers, tick })
}

#[tactic(auto, using(crate::proofs::FirstValue::first_is))]
fn place_in<'a>(inside: &ArgMatches<'a>) -> Option<Role<'a>>
    ensures { option_map (λ p. spec.place_of p) result
        ≡ spec.place_by (first_of (codes "port") (rows_of (found_of inside.now)))
        (rows_of (found_of inside.now)) }
{
    match inside.get_str("port") {
        Some(port) => alone_in(inside, port),
        None => member_in(inside),
    }
}

#[tactic(auto, using(crate::proofs::FirstValue::first_is))]
fn server_in<'a>(inside: &ArgMatches<'a>) -> Option<Setup<'a>>
    ensures { option_map (λ s. spec.server_of s) result
        ≡ spec.server_in (rows_of (found_of inside.now)) }
{
    let place = place_in(inside)?;
    let turns = perhaps_number(inside.get_str("turns"), 0, 1_000_000)?;
    let ahead = perhaps_number(inside.get_str("ahead"), 0, u32::MAX)?;
    Some(Setup {
        place,
        turns,
        store: inside.get_str("store"),
        editor: inside.get_str("editor"),
        ahead,
        stay: is_set(inside.get_str("stay")),
        status: is_set(inside.get_str("status")),
        kit: None,
    })
}

#[tactic(auto, using(crate::proofs::FirstValue::first_is))]
fn mailing_in<'a>(inside: &ArgMatches<'a>) -> Option<Mailing<'a>>
    ensures { option_map (λ m. spec.mailing_of m) result
        ≡ spec.mailing_in (rows_of (found_of inside.now)) }
{
    let file = inside.get_str("FILE")?;
    let members = inside.get_str("MEMBERS")?;
    Some(Mailing { file, members })
}

#[tactic(auto, using(crate::proofs::FirstValue::first_is))]
fn export_in<'a>(inside: &ArgMatches<'a>) -> Option<Exporting<'a>>
    ensures { option_map (λ e. spec.export_of e) result
        ≡ spec.export_in (rows_of (found_of inside.now)) }
{
    let member = inside.get_str("MEMBER")?;
    let file = inside.get_str("FILE").unwrap_or(SITE_NAME);
    Some(Exporting { member, file })
}

#[tactic(auto, using(crate::proofs::FirstValue::first_is))]
fn next_in<'a>(inside: &ArgMatches<'a>) -> Option<Nexting<'a>>
    ensures { option_map (λ n. spec.next_of n) result
        ≡ spec.next_in (rows_of (found_of inside.now)) }
{
    let old = inside.get_str("next")?;
    let new = inside.get_str("NEW")?;
    Some(Nexting { old, new })
}

fn job_in<'a>(
    alloc: Global,
    name: &str,
    inside: &ArgMatches<'a>,
) -> Result<Option<Job<'a>>, AllocError>
    ensures { IfOk result (λ j. option_map (λ j. spec.job_of j) j
        ≡ spec.job_in name.now (rows_of (found_of inside.now))) }
{
    if name == "page" {
        page_in(alloc, inside)
    } else if name == "replay" {
        Ok(file_in(inside, Task::Replay).map(Job::OfFile))
    } else if name == "loop" {
        Ok(file_in(inside, Task::Loop).map(Job::OfFile))
    } else if name == "serve" {
        Ok(server_in(inside).map(Job::Serve))
    } else if name == "send" {
        Ok(mailing_in(inside).map(Job::Send))
    } else if name == "export" {
        Ok(export_in(inside).map(Job::Export))
    } else if name == "kit" {
        Ok(next_in(inside).map(Job::Next))
    } else {
        Ok(None)
    }
}

fn asked_in<'a>(
    alloc: Global,
    name: &str,
    inside: &ArgMatches<'a>,
) -> Result<Option<Arguments<'a>>, AllocError>
    ensures { IfOk result (λ a. option_map (λ a. spec.arguments_of a) a
        ≡ spec.arguments_in name.now (rows_of (found_of inside.now))) }
{
    match job_in(alloc, name, inside)? {
        Some(job) => {
            let kits = names_in(alloc, inside, "kit")?;
            Ok(Some(Arguments { kits, job }))
        }
        None => Ok(None),
    }
}

// What `clap` has found.
fn found_in<'a>(
    alloc: Global,
    matches: &ArgMatches<'a>,
) -> Result<Option<Arguments<'a>>, AllocError>
    ensures { IfOk result (λ a. option_map (λ a. spec.arguments_of a) a
        ≡ option_and_then (λ p. spec.arguments_in p.0 p.1) (subcommand_rows_of matches.now)) }
{
    match matches.subcommand() {
        Some((name, inside)) => asked_in(alloc, name, inside),
        None => Ok(None),
    }
}

// None for wrong arguments; out of memory stays an error.
fn no_arguments<'a>(e: Error) -> Result<Option<Arguments<'a>>, AllocError>
    ensures { IfOk result (λ a. (a ≡ None) × (kind_of e ≢ ErrorKind.OutOfMemory)) }
{
    if e.kind() == ErrorKind::OutOfMemory {
        Err(AllocError)
    } else {
        Ok(None)
    }
}

/// What the arguments after the program's name ask for, or nothing where they are refused.
pub fn read_words<'a>(
    alloc: Global,
    words: &'a [String],
) -> Result<Option<Arguments<'a>>, AllocError>
    ensures { IfOk result (λ a. option_map (λ a. spec.arguments_of a) a
        ≡ spec.arguments_by (map string_bytes words.entry.now)) }
{
    if words.is_empty() {
        return Ok(Some(Arguments {
            kits: Vec::new(alloc),
            job: Job::OfFile(Wanted {
                file: "-",
                task: Task::Page(Target::Post(1)),
            }),
        }));
    }
    match parse(alloc, words) {
        Ok(matches) => found_in(alloc, &matches),
        Err(e) => no_arguments(e),
    }
}
