use crate::tests::fakes::{Client, Flush, Mirror, Narrow, without_marks};
use crate::tests::fixtures::{holds, run_words, words_of};
use press_program::run;
use std::fs;
use std::fs::File;
use std::net::{SocketAddr, TcpListener};
use std::test::Fail;

const FRONT: &[u8] = b"GET / HTTP/1.1\r\nHost: a\r\n\r\n";

const READY: &[u8] = b"GET /ready HTTP/1.1\r\nHost: a\r\n\r\n";

const METRICS: &[u8] = b"GET /metrics HTTP/1.1\r\nHost: a\r\n\r\n";

// A command that does what is due.
const TICK: &[u8] =
    b"POST /command HTTP/1.1\r\nHost: a\r\nContent-Length: 33\r\n\r\neditor=ann&seq=1&at=100&kind=tick";

// What a server without a kit file says.
const KIT: &str = "press: it plays the demonstration kit (no --kit)\n";

// A question for the vote of slot 1, from member 2 to member 1.
const QUESTION: &[u8] =
    b"POST /peer HTTP/1.1\r\nHost: a\r\nContent-Length: 7\r\n\r\n\x06\x02\x01\x00\x00\x00\x01";

// What member 1 is asked behind the first time: whether it is ready, a command, and whether it is
// ready still.
const REQUESTS: [&[u8]; 7] = [READY, TICK, READY, READY, READY, READY, READY];

// How a prepare of member 1 to member 2 for slot 1 begins, and the promise that answers it.
const PREPARE: &[u8] = b"\x01\x01\x02\x00\x00\x00\x01";

const PROMISE: &[u8] = b"\x02\x02\x01\x00\x00\x00\x01";

// A port of that address at which nothing listens.
fn free_addr(rt: &HostRuntime, ip: &str) -> Result<SocketAddr, Fail> {
    let listener = TcpListener::bind(rt, (ip, 0))?;
    Ok(listener.local_addr()?)
}

// What a server replied to a request, and what it wrote on standard error.
#[derive(Drop)]
struct Served {
    reply: Vec<u8>,
    told: Vec<u8>,
}

// What comes of a client's request to a server for these words.
fn ask_as(rt: &HostRuntime, words: &[&str], client: Client<'_>) -> Result<Served, Fail> {
    let words = words_of(rt, words)?;
    let mut input: &[u8] = b"";
    let mut out = Narrow::with_flush(rt.alloc(), Flush::Asks(client));
    let mut told: Vec<u8> = Vec::new(rt.alloc());
    if run(rt, &words, &mut input, &mut out, &mut told) != 0 {
        return Err(Fail::from("no server"));
    }
    let mut reply = Vec::new(rt.alloc());
    out.reply(&mut reply)?;
    Ok(Served { reply, told })
}

// What comes of a request to a server for these words.
fn ask(rt: &HostRuntime, words: &[&str], addr: SocketAddr, request: &[u8]) -> Result<Served, Fail> {
    ask_as(rt, words, Client::new(rt, addr, request))
}

// The request that brings a form.
fn post(rt: &HostRuntime, form: &str) -> Result<String, Fail> {
    let request = format!(in rt.alloc();
        "POST /command HTTP/1.1\r\nHost: a\r\nContent-Length: {}\r\n\r\n{form}",
        form.len()
    )?;
    Ok(request)
}

fn reply_to(
    rt: &HostRuntime,
    words: &[&str],
    addr: SocketAddr,
    request: &[u8],
) -> Result<Vec<u8>, Fail> {
    let Served { reply, .. } = ask(rt, words, addr, request)?;
    Ok(reply)
}

// Whether a server for these words refuses a form, with a line behind that of the request which
// says why.
fn refuses(
    rt: &HostRuntime,
    words: &[&str],
    addr: SocketAddr,
    (form, why): (&str, &str),
) -> Result<bool, Fail> {
    let request = post(rt, form)?;
    let line = format!(in rt.alloc(); " press: POST /command 400: {why}\n")?;
    let Served { reply, told } = ask(rt, words, addr, request.as_bytes())?;
    Ok(reply.starts_with(b"HTTP/1.1 400 ") && told.ends_with(line.as_bytes()))
}

// The store of a member of these is made.
fn make(rt: &HostRuntime, number: &str, peers: &str, file: &str) -> Result<(), Fail> {
    let words = [
        "serve", "--id", number, "--peers", peers, "--store", file, "--new",
    ];
    let line = format!(in rt.alloc(); "made the store of member {number} of {peers}\n")?;
    if !run_words(rt, &words)?.left(0, &line, "") {
        return Err(Fail::from("no store"));
    }
    Ok(())
}

// The file of a store and its log go.
fn remove(rt: &HostRuntime, file: &str) -> Result<(), Fail> {
    let log = format!(in rt.alloc(); "{file}-wal")?;
    fs::remove_file(rt, file)?;
    let _ = fs::remove_file(rt, &log);
    Ok(())
}

// What the first of these members, which is new, replies where these words stand behind the others.
fn replied_by_member(
    rt: &HostRuntime,
    addr: SocketAddr,
    peers: &str,
    more: &[&str],
    request: &[u8],
) -> Result<Vec<u8>, Fail> {
    let mut words: Vec<&str> = Vec::new(rt.alloc());
    words.extend_from_slice(&[
        "serve", "--id", "1", "--peers", peers, "--store", "member", "--turns", "1",
    ])?;
    words.extend_from_slice(more)?;
    make(rt, "1", peers, "member")?;
    let reply = reply_to(rt, &words, addr, request)?;
    remove(rt, "member")?;
    Ok(reply)
}

#[test]
fn a_failed_flush_is_told(rt: HostRuntime) -> Result<(), Fail> {
    let addr = free_addr(&rt, "127.0.0.1")?;
    let port = format!(in rt.alloc(); "{}", addr.port())?;
    let words = words_of(&rt, &["serve", "--port", &port, "--turns", "0"])?;
    let mut input: &[u8] = b"";
    let mut out = Narrow::with_flush(rt.alloc(), Flush::Fails);
    let mut told: Vec<u8> = Vec::new(rt.alloc());
    assert_eq!(rt; run(&rt, &words, &mut input, &mut out, &mut told), 2);
    let words = format!(in rt.alloc();
        "{KIT}press: fault 42\npress: the line that it listens cannot be written\n"
    )?;
    assert_eq!(rt; told.as_slice(), words.as_bytes());
    Ok(())
}

#[test]
fn a_long_request_is_read_to_its_end(rt: HostRuntime) -> Result<(), Fail> {
    let addr = free_addr(&rt, "127.0.0.1")?;
    let port = format!(in rt.alloc(); "{}", addr.port())?;
    let mut request = String::from_str(
        rt.alloc(),
        "POST /command HTTP/1.1\r\nHost: a\r\nContent-Length: 9067\r\n\r\neditor=ann&seq=1&at=100&kind=insert&title=x&status=publish&content=",
    )?;
    for _ in 0..900 {
        request.push_str("0123456789")?;
    }
    let words = ["serve", "--port", &port, "--turns", "1"];
    let client = Client::staying(&rt, addr, request.as_bytes());
    let Served { reply, .. } = ask_as(&rt, &words, client)?;
    assert!(rt; reply.starts_with(b"HTTP/1.1 202 "));
    Ok(())
}

// Who leaves without a word has had a turn: of one turn none is left for who comes next.
#[test]
fn who_is_closed_without_a_reply_has_had_a_turn(rt: HostRuntime) -> Result<(), Fail> {
    let addr = free_addr(&rt, "127.0.0.1")?;
    let port = format!(in rt.alloc(); "{}", addr.port())?;
    let words = words_of(&rt, &["serve", "--port", &port, "--turns", "1"])?;
    let client = Client::behind(&rt, addr, b"", FRONT);
    let mut input: &[u8] = b"";
    let mut out = Narrow::with_flush(rt.alloc(), Flush::Asks(client));
    let mut told: Vec<u8> = Vec::new(rt.alloc());
    assert_eq!(rt; run(&rt, &words, &mut input, &mut out, &mut told), 0);
    assert!(rt; holds(&told, b"127.0.0.1 closed: "));
    let mut reply = Vec::new(rt.alloc());
    // Its connection is closed, or reset.
    let _ = out.reply(&mut reply);
    assert!(rt; reply.is_empty());
    Ok(())
}

// A batch of member 2 that counts no members, runs no kit and recalls nothing.
fn foreign_batch(rt: &HostRuntime) -> Result<Vec<u8>, Fail> {
    let mut request: Vec<u8> = Vec::new(rt.alloc());
    request.extend_from_slice(
        b"POST /members HTTP/1.1\r\nHost: a\r\nContent-Length: 99\r\n\r\n\x02\x02",
    )?;
    for _ in 0..97 {
        request.push(0)?;
    }
    Ok(request)
}

// A client of this machine has the address 127.0.0.1. The other member, in whose name it asks, is
// at that of the server. A single message, which says nothing of a start, is none for a member.
#[test]
fn what_a_stranger_brings_is_not_taken(rt: HostRuntime) -> Result<(), Fail> {
    let batch = foreign_batch(&rt)?;
    for (ip, request, status) in [
        ("127.0.0.1", batch.as_slice(), "HTTP/1.1 200 "),
        ("127.0.0.2", batch.as_slice(), "HTTP/1.1 404 "),
        ("127.0.0.1", QUESTION, "HTTP/1.1 404 "),
    ] {
        let addr = free_addr(&rt, ip)?;
        let peers = format!(in rt.alloc(); "{addr},{ip}:1")?;
        let reply = replied_by_member(&rt, addr, &peers, &[], request)?;
        assert!(rt; reply.starts_with(status.as_bytes()), "at {ip}");
    }
    Ok(())
}

// Member 2 says that it counts other members.
#[test]
fn a_member_of_another_cluster_has_a_line(rt: HostRuntime) -> Result<(), Fail> {
    let addr = free_addr(&rt, "127.0.0.1")?;
    let peers = format!(in rt.alloc(); "{addr},127.0.0.1:1")?;
    let request = foreign_batch(&rt)?;
    let words = [
        "serve", "--id", "1", "--peers", &peers, "--store", "member", "--turns", "1",
    ];
    make(&rt, "1", &peers, "member")?;
    let Served { told, .. } = ask(&rt, &words, addr, &request)?;
    remove(&rt, "member")?;
    assert!(rt;
        holds(
            &told,
            b"member 2 has other peers or another kit: not heard\n"
        )
    );
    Ok(())
}

// What is told of the store of member 1 of 2 where it is asked for in another's name.
fn foreign(rt: &HostRuntime, lines: &[&str]) -> Result<String, Fail> {
    let mut told = String::from_str(rt.alloc(), "press: the store is another member's\n")?;
    for line in lines {
        let line = format!(in rt.alloc(); "press: the store tied {line}\n")?;
        told.push_str(&line)?;
    }
    Ok(told)
}

// Whether a server in this place is refused the store, which is told of it in these lines.
fn is_refused(rt: &HostRuntime, place: &[&str], lines: &[&str]) -> Result<bool, Fail> {
    let mut words: Vec<&str> = Vec::new(rt.alloc());
    words.extend_from_slice(&["serve", "--store", "tied", "--turns", "0"])?;
    words.extend_from_slice(place)?;
    let told = foreign(rt, lines)?;
    Ok(run_words(rt, &words)?.left(2, "", &told))
}

// A line says what differs, the number of the member, how many there are, or the list of them; and
// whose it is where a node by itself asks for it.
#[test]
fn a_store_of_another_is_not_served(rt: HostRuntime) -> Result<(), Fail> {
    let (addr, other) = (free_addr(&rt, "127.0.0.1")?, free_addr(&rt, "127.0.0.1")?);
    let peers = format!(in rt.alloc(); "{addr},{other}")?;
    let fewer = format!(in rt.alloc(); "{addr}")?;
    let list = format!(in rt.alloc(); "has another list of peers than {fewer}")?;
    let port = format!(in rt.alloc(); "{}", addr.port())?;
    make(&rt, "1", &peers, "tied")?;
    let place = ["--id", "2", "--peers", &peers];
    assert!(rt; is_refused(&rt, &place, &["is that of member 1, not 2"])?);
    let place = ["--id", "1", "--peers", &fewer];
    let lines = ["is that of one of 2 members, not 1", &list];
    assert!(rt; is_refused(&rt, &place, &lines)?);
    let lines = ["is that of member 1 of 2"];
    assert!(rt; is_refused(&rt, &["--port", &port], &lines)?);
    remove(&rt, "tied")?;
    Ok(())
}

// What a member says that has no store, or a log of one alone.
const NO_STORE: &str =
    "press: fault 40\npress: the store lost is not there, or empty: --new makes that of a new member\n";

#[test]
fn a_member_makes_no_store_without_being_told(rt: HostRuntime) -> Result<(), Fail> {
    let addr = free_addr(&rt, "127.0.0.1")?;
    let peers = format!(in rt.alloc(); "{addr}")?;
    let words = [
        "serve", "--id", "1", "--peers", &peers, "--store", "lost", "--turns", "0",
    ];
    assert!(rt; run_words(&rt, &words)?.left(2, "", NO_STORE));
    assert!(rt; File::open(&rt, "lost").is_err());
    fs::write(&rt, "lost-wal", b"x")?;
    assert!(rt; run_words(&rt, &words)?.left(2, "", NO_STORE));
    assert!(rt; File::open(&rt, "lost").is_err());
    fs::remove_file(&rt, "lost-wal")?;
    make(&rt, "1", &peers, "lost")?;
    let line = format!(in rt.alloc(); "listening as 1 of {peers}\n")?;
    assert!(rt; run_words(&rt, &words)?.left(0, &line, KIT));
    remove(&rt, "lost")?;
    Ok(())
}

// It is left as it is, and so is the log of one that is gone.
#[test]
fn no_store_is_made_where_something_is(rt: HostRuntime) -> Result<(), Fail> {
    let addr = free_addr(&rt, "127.0.0.1")?;
    let peers = format!(in rt.alloc(); "{addr}")?;
    let words = [
        "serve", "--id", "1", "--peers", &peers, "--store", "there", "--new",
    ];
    let told = "press: fault 40\npress: the store there is there already, and is left as it is\n";
    for (file, left) in [("there", "there-wal"), ("there-wal", "there")] {
        fs::write(&rt, file, b"x")?;
        assert!(rt; run_words(&rt, &words)?.left(2, "", told), "at {file}");
        assert_eq!(rt; fs::read(&rt, file)?.as_slice(), b"x".as_slice());
        assert!(rt; File::open(&rt, left).is_err());
        fs::remove_file(&rt, file)?;
    }
    Ok(())
}

// An address that is none of this machine, and one that is taken, at a start and where a store is to
// be made.
#[test]
fn where_it_cannot_listen_there_is_no_new_store(rt: HostRuntime) -> Result<(), Fail> {
    let listener = TcpListener::bind(&rt, ("127.0.0.1", 0))?;
    let taken = format!(in rt.alloc(); "{}", listener.local_addr()?)?;
    for (peers, why) in [
        ("192.0.2.1:7000", "is none of this machine"),
        (taken.as_str(), "is taken"),
    ] {
        let words = [
            "serve", "--id", "1", "--peers", peers, "--store", "none", "--new",
        ];
        let told = format!(in rt.alloc();
            "press: fault 40\npress: the address of member 1 of {peers} {why}\n"
        )?;
        assert!(rt; run_words(&rt, &words)?.left(2, "", &told), "at {why}");
        assert!(rt; File::open(&rt, "none").is_err());
        fs::write(&rt, "none", b"x")?;
        assert!(rt; run_words(&rt, &words[..7])?.left(2, "", &told), "at {why}");
        assert_eq!(rt; fs::read(&rt, "none")?.as_slice(), b"x".as_slice());
        fs::remove_file(&rt, "none")?;
    }
    drop(listener);
    Ok(())
}

// What the first of these members is asked, behind whose address those of the others stand, and the
// status of its reply.
const ALONE: [(&str, &[u8], &str); 6] = [
    ("", FRONT, "HTTP/1.1 200 "),
    ("", READY, "HTTP/1.1 200 "),
    ("", TICK, "HTTP/1.1 202 "),
    (",127.0.0.2:1", FRONT, "HTTP/1.1 503 "),
    (",127.0.0.2:1", READY, "HTTP/1.1 503 "),
    (",127.0.0.2:1", TICK, "HTTP/1.1 503 "),
];

// The other member is at an address where nothing listens. The reply to a command that is refused
// for now is held before it goes out.
#[test]
fn one_of_two_members_alone_is_not_ready(rt: HostRuntime) -> Result<(), Fail> {
    for (others, request, status) in ALONE {
        let addr = free_addr(&rt, "127.0.0.1")?;
        let peers = format!(in rt.alloc(); "{addr}{others}")?;
        let reply = replied_by_member(&rt, addr, &peers, &[], request)?;
        assert!(rt; reply.starts_with(status.as_bytes()), "at {peers}");
    }
    Ok(())
}

// A node by itself has these paths only where it is asked to.
#[test]
fn a_server_tells_how_it_stands_where_it_is_to(rt: HostRuntime) -> Result<(), Fail> {
    for request in [READY, METRICS] {
        let addr = free_addr(&rt, "127.0.0.1")?;
        let port = format!(in rt.alloc(); "{}", addr.port())?;
        let words = ["serve", "--port", &port, "--turns", "1", "--status"];
        for (words, status) in [
            (&words[..], "HTTP/1.1 200 "),
            (&words[..5], "HTTP/1.1 404 "),
        ] {
            let reply = reply_to(&rt, words, addr, request)?;
            assert!(rt; reply.starts_with(status.as_bytes()), "at {}", words.len());
        }
    }
    Ok(())
}

// A command, and how many slots are chosen where its store is opened again.
#[test]
fn metrics_of_a_node_by_itself_count_what_is_chosen(rt: HostRuntime) -> Result<(), Fail> {
    for (request, part) in [
        (METRICS, "\npress_chosen_slots 0\n"),
        (TICK, "{\"queued\":true}"),
        (METRICS, "\npress_chosen_slots 1\n"),
    ] {
        let addr = free_addr(&rt, "127.0.0.1")?;
        let port = format!(in rt.alloc(); "{}", addr.port())?;
        let words = [
            "serve", "--port", &port, "--turns", "1", "--status", "--store", "kept",
        ];
        let reply = reply_to(&rt, &words, addr, request)?;
        assert!(rt; holds(&reply, part.as_bytes()), "no {part}");
    }
    fs::remove_file(&rt, "kept")?;
    fs::remove_file(&rt, "kept-wal")?;
    Ok(())
}

// What editors may ask of an empty site, and what is replied.
const DESK: [(&[u8], &[u8]); 4] = [
    (
        b"GET /desk/posts HTTP/1.1\r\nHost: a\r\n\r\n",
        b"HTTP/1.1 200 OK\r\nContent-Type: application/json; charset=UTF-8\r\nContent-Length: 12\r\nConnection: close\r\n\r\n{\"posts\":[]}",
    ),
    (
        b"GET /desk/log?from=0 HTTP/1.1\r\nHost: a\r\n\r\n",
        b"HTTP/1.1 200 OK\r\nContent-Type: application/json; charset=UTF-8\r\nContent-Length: 27\r\nConnection: close\r\n\r\n{\"applied\":0,\"commands\":[]}",
    ),
    (
        b"GET /desk/log?from=18446744073709551615 HTTP/1.1\r\nHost: a\r\n\r\n",
        b"HTTP/1.1 200 OK\r\nContent-Type: application/json; charset=UTF-8\r\nContent-Length: 27\r\nConnection: close\r\n\r\n{\"applied\":0,\"commands\":[]}",
    ),
    (
        b"POST /desk/posts HTTP/1.1\r\nHost: a\r\nContent-Length: 0\r\n\r\n",
        b"HTTP/1.1 405 Method Not Allowed\r\n",
    ),
];

// Without a page for editors there is no path of theirs.
#[test]
fn editors_are_answered_where_there_is_a_page_for_them(rt: HostRuntime) -> Result<(), Fail> {
    fs::write(&rt, "editor.html", b"<p>")?;
    let addr = free_addr(&rt, "127.0.0.1")?;
    let port = format!(in rt.alloc(); "{}", addr.port())?;
    let words = [
        "serve",
        "--port",
        &port,
        "--turns",
        "1",
        "--editor",
        "editor.html",
    ];
    for (request, reply) in DESK {
        let told = reply_to(&rt, &words, addr, request)?;
        assert!(rt; told.starts_with(reply), "at {}", reply.len());
    }
    let told = reply_to(&rt, &words[..5], addr, DESK[0].0)?;
    assert!(rt; told.starts_with(b"HTTP/1.1 404 "));
    fs::remove_file(&rt, "editor.html")?;
    Ok(())
}

// A form that is refused, and the line that says why.
const REFUSALS: [(&str, &str); 3] = [
    ("editor=ann&at=100&kind=tick", "seq is missing"),
    (
        "editor=ann&seq=1&at=100&kind=insert&title=x&content=y&status=gone",
        "status does not fit",
    ),
    (
        "editor=ann&seq=1&at=253402300799&kind=tick",
        "at is more than 60 seconds ahead",
    ),
];

#[test]
fn a_node_by_itself_tells_why_a_form_is_refused(rt: HostRuntime) -> Result<(), Fail> {
    for (form, why) in REFUSALS {
        let addr = free_addr(&rt, "127.0.0.1")?;
        let port = format!(in rt.alloc(); "{}", addr.port())?;
        let words = ["serve", "--port", &port, "--turns", "1", "--ahead", "60"];
        assert!(rt; refuses(&rt, &words, addr, (form, why))?, "at {why}");
    }
    Ok(())
}

// Of two that are refused before a line goes out the line is about the later one.
#[test]
fn the_form_that_was_refused_last_has_the_line(rt: HostRuntime) -> Result<(), Fail> {
    let addr = free_addr(&rt, "127.0.0.1")?;
    let port = format!(in rt.alloc(); "{}", addr.port())?;
    let first = post(&rt, REFUSALS[0].0)?;
    let last = post(&rt, REFUSALS[2].0)?;
    let client = Client::behind(&rt, addr, first.as_bytes(), last.as_bytes());
    let words = ["serve", "--port", &port, "--turns", "2", "--ahead", "60"];
    let Served { told, .. } = ask_as(&rt, &words, client)?;
    assert!(rt; holds(&told, REFUSALS[2].1.as_bytes()));
    assert!(rt; !holds(&told, REFUSALS[0].1.as_bytes()));
    Ok(())
}

#[test]
fn editors_are_answered_by_a_member(rt: HostRuntime) -> Result<(), Fail> {
    fs::write(&rt, "editor.html", b"<p>")?;
    for (request, reply) in [DESK[0], DESK[1]] {
        let addr = free_addr(&rt, "127.0.0.1")?;
        let peers = format!(in rt.alloc(); "{addr}")?;
        let told = replied_by_member(&rt, addr, &peers, &["--editor", "editor.html"], request)?;
        assert!(rt; told.starts_with(reply), "at {}", reply.len());
    }
    fs::remove_file(&rt, "editor.html")?;
    Ok(())
}

#[test]
fn a_member_tells_why_a_form_is_refused(rt: HostRuntime) -> Result<(), Fail> {
    for (form, why) in [REFUSALS[0], REFUSALS[2]] {
        let addr = free_addr(&rt, "127.0.0.1")?;
        let peers = format!(in rt.alloc(); "{addr}")?;
        let words = [
            "serve", "--id", "1", "--peers", &peers, "--store", "member", "--turns", "1",
            "--ahead", "60",
        ];
        make(&rt, "1", &peers, "member")?;
        let refuses = refuses(&rt, &words, addr, (form, why))?;
        remove(&rt, "member")?;
        assert!(rt; refuses, "at {why}");
    }
    Ok(())
}

// Over memory, over a new store, and over the store that this one left.
#[test]
fn a_server_without_turns_ends(rt: HostRuntime) -> Result<(), Fail> {
    let addr = free_addr(&rt, "127.0.0.1")?;
    let port = format!(in rt.alloc(); "{}", addr.port())?;
    let line = format!(in rt.alloc(); "listening on {addr}\n")?;
    let words = ["serve", "--port", &port, "--turns", "0", "--store", "kept"];
    for words in [&words[..5], &words[..], &words[..]] {
        let outcome = run_words(&rt, words)?;
        assert!(rt; outcome.left(0, &line, KIT), "at {}", words.len());
    }
    fs::remove_file(&rt, "kept")?;
    fs::remove_file(&rt, "kept-wal")?;
    Ok(())
}

// What comes of the first command of member 1 of two, once it has heard from the other.
fn first_command<'a>(
    rt: &'a HostRuntime,
    addr: SocketAddr,
    other: SocketAddr,
) -> Result<Mirror<'a>, Fail> {
    let peers = format!(in rt.alloc(); "{addr},{other}")?;
    let words = words_of(
        rt,
        &[
            "serve", "--id", "1", "--peers", &peers, "--store", "member", "--turns", "8",
        ],
    )?;
    make(rt, "1", &peers, "member")?;
    let listener = TcpListener::bind(rt, other)?;
    let mut mirror = Mirror::new(rt, listener, addr, &REQUESTS)?;
    let client = Client::new(rt, addr, READY);
    let mut input: &[u8] = b"";
    let mut out = Narrow::with_flush(rt.alloc(), Flush::Asks(client));
    if run(rt, &words, &mut input, &mut out, &mut mirror) != 0 {
        return Err(Fail::from("no server"));
    }
    remove(rt, "member")?;
    Ok(mirror)
}

// Member 1 is ready once it hears member 2, and asks it for a promise; member 2 promises in its
// reply.
#[test]
fn members_hear_each_other(rt: HostRuntime) -> Result<(), Fail> {
    let addr = free_addr(&rt, "127.0.0.1")?;
    let other = free_addr(&rt, "127.0.0.1")?;
    let Mirror { lines, brought, .. } = first_command(&rt, addr, other)?;
    for part in [
        " GET /ready 503 ",
        " GET /ready 200 ",
        " POST /command 202 ",
    ] {
        assert!(rt; holds(&lines, part.as_bytes()), "no {part}");
    }
    assert!(rt; brought.starts_with(b"POST /members "));
    assert!(rt; holds(&brought, PREPARE));
    let peers = format!(in rt.alloc(); "{addr},{other}")?;
    let words = [
        "serve", "--id", "2", "--peers", &peers, "--store", "member", "--turns", "1",
    ];
    make(&rt, "2", &peers, "member")?;
    let reply = reply_to(&rt, &words, other, &without_marks(rt.alloc(), &brought)?)?;
    remove(&rt, "member")?;
    assert!(rt; reply.starts_with(b"HTTP/1.1 200 "));
    assert!(rt; holds(&reply, PROMISE));
    Ok(())
}
