//! What a fault of a server is, in words.

ghost use Rattle.std.specs.Prelude.{◌≡◌, IfOk, Some, codes, option_map, string_bytes, unwrap_or};
ghost use Rattle.press_server.specs.Listening.{where_of};
ghost use Rattle.press_server.specs.Listening.Where.{alone_at, member_of, new_member_of};
ghost use Rattle.press_program.specs.Reasons.{foreign_lines, line_around, members_store, name_of, of_place, of_store, other_count, other_list, other_number, peers_of, phrase_of, place_name, plain, reason_of, serve_line, store_name, unlike_line, view_of};
ghost use Rattle.press_program.specs.Words.{server_of};

use press_server::{Foreign, Role, ServeFault, Setup};
use press_store::Owner;
use std::alloc::{AllocError, Global};

/// The line of a fault.
pub(crate) fn serve_line(fault: ServeFault) -> &'static [u8]
    ensures { result.now ≡ serve_line fault }
{
    match fault {
        ServeFault::BadPeers => b"press: usage\n",
        ServeFault::NoMemory => b"press: fault 0\n",
        ServeFault::NoConnections
        | ServeFault::Taken
        | ServeFault::NotAllowed
        | ServeFault::NotHere
        | ServeFault::NotFound
        | ServeFault::FewFiles
        | ServeFault::NoStore
        | ServeFault::StoreThere
        | ServeFault::ReadFault => b"press: fault 40\n",
        ServeFault::WriteFault => b"press: fault 42\n",
        ServeFault::Foreign(_) => b"press: the store is another member's\n",
        ServeFault::Forgotten => b"press: the store has forgotten\n",
        ServeFault::Disk => b"press: fault 50\n",
        ServeFault::Damaged
        | ServeFault::StoreTaken
        | ServeFault::NoFolder
        | ServeFault::StoreShut => b"press: fault 51\n",
    }
}

/// What a fault is of.
#[derive(Clone, Copy, Debug, PartialEq, Eq)]
enum Subject {
    Nothing,
    /// Where the server listens.
    ItsPlace,
    /// The file of its store.
    ItsStore,
    /// The file of its page for editors.
    ItsPage,
}

// The words before the name of the subject, and those behind it.
#[derive(Clone, Copy)]
struct Phrase {
    before: &'static str,
    subject: Subject,
    behind: &'static str,
}

impl Phrase {
    fn plain(words: &'static str) -> Phrase
        ensures { view_of result ≡ plain words.now }
    {
        Phrase {
            before: words,
            subject: Subject::Nothing,
            behind: "",
        }
    }

    fn of_place(behind: &'static str) -> Phrase
        ensures { view_of result ≡ of_place behind.now }
    {
        Phrase {
            before: "",
            subject: Subject::ItsPlace,
            behind,
        }
    }

    fn of_store(behind: &'static str) -> Phrase
        ensures { view_of result ≡ of_store behind.now }
    {
        Phrase {
            before: "the store ",
            subject: Subject::ItsStore,
            behind,
        }
    }
}

// In words, but for what its line says already.
fn phrase_of(fault: ServeFault) -> Option<Phrase>
    ensures { option_map (λ p. view_of p) result ≡ phrase_of fault }
{
    let phrase = match fault {
        ServeFault::BadPeers | ServeFault::Foreign(_) => return None,
        ServeFault::NoMemory => Phrase::plain("out of memory"),
        ServeFault::NoConnections => Phrase::plain("no connection can be opened"),
        ServeFault::Taken => Phrase::of_place(" is taken"),
        ServeFault::NotAllowed => Phrase::of_place(" may not be opened by this user"),
        ServeFault::NotHere => Phrase::of_place(" is none of this machine"),
        ServeFault::NotFound => Phrase::of_place(" is not found"),
        ServeFault::FewFiles => Phrase::plain("too few files may be open"),
        ServeFault::ReadFault => Phrase {
            before: "the page for editors ",
            subject: Subject::ItsPage,
            behind: " cannot be read",
        },
        ServeFault::WriteFault => Phrase::plain("the line that it listens cannot be written"),
        ServeFault::NoStore => {
            Phrase::of_store(" is not there, or empty: --new makes that of a new member")
        }
        ServeFault::StoreThere => Phrase::of_store(" is there already, and is left as it is"),
        ServeFault::Forgotten => {
            Phrase::of_store(" lacks what another member heard of this one")
        }
        ServeFault::Disk => Phrase::of_store(" cannot be read or written"),
        ServeFault::Damaged => Phrase::of_store(" is damaged, or is no store"),
        ServeFault::StoreTaken => Phrase::of_store(" is open in another process"),
        ServeFault::NoFolder => Phrase {
            before: "the folder of the store ",
            subject: Subject::ItsStore,
            behind: " does not exist",
        },
        ServeFault::StoreShut => Phrase::of_store(" cannot be opened"),
    };
    Some(phrase)
}

#[tactic(auto, unfolding(crate::specs::Reasons::place_name))]
fn port_name(alloc: Global, port: u16) -> Result<String, AllocError>
    ensures { IfOk result (λ t. string_bytes t ≡ place_name (alone_at port)) }
{
    format!(in alloc; "port {port}")
}

#[tactic(auto, unfolding(crate::specs::Reasons::place_name))]
fn member_name(alloc: Global, id: u8, peers: &str) -> Result<String, AllocError>
    ensures { IfOk result (λ t. string_bytes t ≡ place_name (member_of id peers.now)) }
{
    format!(in alloc; "the address of member {id} of {peers}")
}

#[tactic(auto, unfolding(crate::specs::Reasons::place_name))]
fn new_member_name(alloc: Global, id: u8, peers: &str) -> Result<String, AllocError>
    ensures { IfOk result (λ t. string_bytes t ≡ place_name (new_member_of id peers.now)) }
{
    format!(in alloc; "the address of member {id} of {peers}")
}

fn place_name(alloc: Global, place: &Role<'_>) -> Result<String, AllocError>
    ensures { IfOk result (λ t. string_bytes t ≡ place_name (where_of place.now)) }
{
    match place {
        Role::Alone { port } => port_name(alloc, *port),
        Role::Member { id, peers, .. } => member_name(alloc, *id, peers),
        Role::NewMember { id, peers } => new_member_name(alloc, *id, peers),
    }
}

fn file_name(alloc: Global, file: Option<&str>) -> Result<String, AllocError>
    ensures { IfOk result (λ t. string_bytes t
        ≡ unwrap_or (option_map (λ file. file.now) file.entry) (codes "")) }
{
    match file {
        Some(file) => String::from_str(alloc, file),
        None => Ok(String::new(alloc)),
    }
}

// The name of a subject.
fn name_of(alloc: Global, subject: Subject, setup: &Setup<'_>) -> Result<String, AllocError>
    ensures { IfOk result (λ t. string_bytes t ≡ name_of subject (server_of setup.now)) }
{
    match subject {
        Subject::Nothing => Ok(String::new(alloc)),
        Subject::ItsPlace => place_name(alloc, &setup.place),
        Subject::ItsStore => file_name(alloc, setup.store),
        Subject::ItsPage => file_name(alloc, setup.editor),
    }
}

#[tactic(auto, unfolding(crate::specs::Reasons::line_around))]
fn line_around(alloc: Global, before: &str, name: &str, behind: &str) -> Result<String, AllocError>
    ensures { IfOk result (λ t. string_bytes t
        ≡ line_around before.now name.now behind.now) }
{
    format!(in alloc; "press: {before}{name}{behind}\n")
}

// The text that lists the members.
fn peers_of<'a>(place: &Role<'a>) -> &'a str
    ensures { result.now ≡ peers_of (where_of place.now) }
{
    match place {
        Role::Alone { .. } => "",
        Role::Member { peers, .. } | Role::NewMember { peers, .. } => peers,
    }
}

#[tactic(auto, unfolding(crate::specs::Reasons::other_number))]
fn other_number(alloc: Global, there: u8, here: u8) -> Result<String, AllocError>
    ensures { IfOk result (λ t. string_bytes t ≡ other_number there here) }
{
    format!(in alloc; " is that of member {there}, not {here}")
}

#[tactic(auto, unfolding(crate::specs::Reasons::other_count))]
fn other_count(alloc: Global, there: u8, here: u8) -> Result<String, AllocError>
    ensures { IfOk result (λ t. string_bytes t ≡ other_count there here) }
{
    format!(in alloc; " is that of one of {there} members, not {here}")
}

#[tactic(auto, unfolding(crate::specs::Reasons::members_store))]
fn members_store(alloc: Global, number: u8, members: u8) -> Result<String, AllocError>
    ensures { IfOk result (λ t. string_bytes t ≡ members_store number members) }
{
    format!(in alloc; " is that of member {number} of {members}")
}

#[tactic(auto, unfolding(crate::specs::Reasons::other_list))]
fn other_list(alloc: Global, peers: &str) -> Result<String, AllocError>
    ensures { IfOk result (λ t. string_bytes t ≡ other_list peers.now) }
{
    format!(in alloc; " has another list of peers than {peers}")
}

// A line about the store of that name, where two numbers differ.
fn unlike_line(
    alloc: Global,
    file: &str,
    numbers: (u64, u64),
    behind: &str,
) -> Result<String, AllocError>
    ensures { IfOk result (λ t. string_bytes t
        ≡ unlike_line file.now numbers.0 numbers.1 behind.now) }
{
    let (there, here) = numbers;
    if there == here {
        return Ok(String::new(alloc));
    }
    line_around(alloc, "the store ", file, behind)
}

// A line for each that differs of a file that is another member's.
fn unlike_lines(
    alloc: Global,
    setup: &Setup<'_>,
    owner: Owner,
    asked: Owner,
) -> Result<String, AllocError>
    ensures { IfOk result (λ t. string_bytes t ≡ foreign_lines (store_name (server_of setup.now))
        (peers_of (where_of setup.now.place)) owner (Some asked)) }
{
    let file = setup.store.unwrap_or("");
    let (there, here) = (owner.number.number(), asked.number.number());
    let number = other_number(alloc, there, here)?;
    let number = unlike_line(alloc, file, (u64::from(there), u64::from(here)), &number)?;
    let (there, here) = (owner.members, asked.members);
    let count = other_count(alloc, there, here)?;
    let count = unlike_line(alloc, file, (u64::from(there), u64::from(here)), &count)?;
    let list = other_list(alloc, peers_of(&setup.place))?;
    let list = unlike_line(alloc, file, (owner.peers, asked.peers), &list)?;
    format!(in alloc; "{number}{count}{list}")
}

fn foreign_lines(alloc: Global, foreign: Foreign, setup: &Setup<'_>) -> Result<String, AllocError>
    ensures { IfOk result (λ t. string_bytes t ≡ foreign_lines (store_name (server_of setup.now))
        (peers_of (where_of setup.now.place)) foreign.owner foreign.asked) }
{
    let Foreign { owner, asked } = foreign;
    match asked {
        None => {
            let whose = members_store(alloc, owner.number.number(), owner.members)?;
            line_around(alloc, "the store ", setup.store.unwrap_or(""), &whose)
        }
        Some(asked) => unlike_lines(alloc, setup, owner, asked),
    }
}

/// The line, or lines, that say in words what a fault is of, where that of the fault doesn't.
pub(crate) fn reason_of(
    alloc: Global,
    fault: ServeFault,
    setup: &Setup<'_>,
) -> Result<Option<String>, AllocError>
    ensures { IfOk result (λ t. option_map (λ t. string_bytes t) t
        ≡ reason_of fault (server_of setup.now)) }
{
    if let ServeFault::Foreign(foreign) = fault {
        return Ok(Some(foreign_lines(alloc, foreign, setup)?));
    }
    let Some(phrase) = phrase_of(fault) else {
        return Ok(None);
    };
    let name = name_of(alloc, phrase.subject, setup)?;
    let line = line_around(alloc, phrase.before, name.as_str(), phrase.behind)?;
    Ok(Some(line))
}
