use crate::tests::fixtures::{FAILED, LETTERS, LOOPING, run_words, run_words_over};
use std::fs;
use std::fs::File;
use std::test::Fail;

// The commands of the stored run, one in each of two files.
const FRONT: &[u8] =
    b"{\"commands\":[{\"editor\":\"ann\",\"seq\":1,\"at\":10,\"kind\":\"activate\",\"plugin\":\"letters\"}]}";

const BEHIND: &[u8] =
    b"{\"commands\":[{\"editor\":\"ann\",\"seq\":2,\"at\":10,\"kind\":\"insert\",\"title\":\"x\",\"content\":\"Hello\",\"status\":\"publish\",\"date\":10}]}";

// Two new titles of its post, in one file with its commands and in two files of their own.
const RETITLED: &[u8] =
    b"{\"commands\":[{\"editor\":\"ann\",\"seq\":1,\"at\":10,\"kind\":\"activate\",\"plugin\":\"letters\"},{\"editor\":\"ann\",\"seq\":2,\"at\":10,\"kind\":\"insert\",\"title\":\"x\",\"content\":\"Hello\",\"status\":\"publish\",\"date\":10},{\"editor\":\"ann\",\"seq\":3,\"at\":10,\"kind\":\"update\",\"id\":1,\"title\":\"y\",\"content\":\"Hello\",\"status\":\"publish\",\"date\":10},{\"editor\":\"ann\",\"seq\":4,\"at\":10,\"kind\":\"update\",\"id\":1,\"title\":\"z\",\"content\":\"Hello\",\"status\":\"publish\",\"date\":10}]}";

const TITLE_Y: &[u8] =
    b"{\"commands\":[{\"editor\":\"ann\",\"seq\":3,\"at\":10,\"kind\":\"update\",\"id\":1,\"title\":\"y\",\"content\":\"Hello\",\"status\":\"publish\",\"date\":10}]}";

const TITLE_Z: &[u8] =
    b"{\"commands\":[{\"editor\":\"ann\",\"seq\":4,\"at\":10,\"kind\":\"update\",\"id\":1,\"title\":\"z\",\"content\":\"Hello\",\"status\":\"publish\",\"date\":10}]}";

#[test]
fn words_ask_for_replies(rt: HostRuntime) -> Result<(), Fail> {
    for (file, target, status, body) in [
        (LETTERS, "result:ann/2", 0, "{\"done\":1}"),
        (LOOPING, "result:ann/2", 0, "{\"done\":0}"),
        (LOOPING, "post:1", 1, FAILED),
        (LOOPING, "result:ann/3", 0, "{\"refused\":20}"),
    ] {
        let reply = run_words_over(&rt, &["page", "-", target], file)?;
        assert!(rt; reply.left(status, body, ""), "at {target}");
    }
    let missing = run_words(&rt, &["page", "--", "-", "json:2"])?;
    assert!(rt; missing.left(1, "{\"code\":404}", ""));
    let nowhere = run_words(&rt, &["page", "nowhere.json", "json:2"])?;
    assert!(rt; nowhere.left(2, "", "press: fault 40\n"));
    Ok(())
}

#[test]
fn files_behind_another_make_one_site_with_it(rt: HostRuntime) -> Result<(), Fail> {
    fs::write(&rt, "behind.json", BEHIND)?;
    let whole = run_words(&rt, &["page", "-", "post:1"])?;
    let words = ["page", "-", "post:1", "--then", "behind.json"];
    let parted = run_words_over(&rt, &words, FRONT)?;
    assert_eq!(rt; parted.status, 0);
    assert_eq!(rt; parted.out.as_slice(), whole.out.as_slice());
    Ok(())
}

#[test]
fn further_files_are_read_in_their_order(rt: HostRuntime) -> Result<(), Fail> {
    fs::write(&rt, "y.json", TITLE_Y)?;
    fs::write(&rt, "z.json", TITLE_Z)?;
    let whole = run_words_over(&rt, &["page", "-", "post:1"], RETITLED)?;
    let first_y = [
        "page", "-", "post:1", "--then", "y.json", "--then", "z.json",
    ];
    let in_order = run_words(&rt, &first_y)?;
    assert_eq!(rt; in_order.status, 0);
    assert_eq!(rt; in_order.out.as_slice(), whole.out.as_slice());
    let first_z = [
        "page", "-", "post:1", "--then", "z.json", "--then", "y.json",
    ];
    let turned = run_words(&rt, &first_z)?;
    assert!(rt; turned.out.as_slice() != whole.out.as_slice());
    Ok(())
}

// The first that is bad is told, with nothing of the site.
#[test]
fn a_bad_file_behind_another_is_told(rt: HostRuntime) -> Result<(), Fail> {
    fs::write(&rt, "bad.json", b"{}")?;
    for (then, told) in [
        ("bad.json", "press: fault 72\n"),
        ("no/such/file", "press: fault 40\n"),
    ] {
        let words = ["page", "-", "post:1", "--then", then];
        assert!(rt; run_words(&rt, &words)?.left(2, "", told), "at {then}");
    }
    Ok(())
}

#[test]
fn a_file_that_is_not_there_cannot_be_read(rt: HostRuntime) -> Result<(), Fail> {
    let unknown = run_words(&rt, &["page", "no/such/file", "front"])?;
    assert!(rt; unknown.left(2, "", "press: fault 40\n"));
    assert_eq!(rt; unknown.rest, LETTERS.len());
    Ok(())
}

// A kit file that does not exist, before anything else is opened.
#[test]
fn a_kit_file_is_opened_first(rt: HostRuntime) -> Result<(), Fail> {
    for words in [
        &["page", "-", "post:1", "--kit", "no/such"][..],
        &["replay", "--kit=no/such", "no/file"][..],
        &["loop", "--kit", "no/such", "-"][..],
        &[
            "serve", "--port", "8080", "--store", "none/f", "--kit", "no/such",
        ][..],
    ] {
        let unknown = run_words(&rt, words)?;
        assert!(rt; unknown.left(2, "", "press: fault 40 in no/such\n"));
        assert_eq!(rt; unknown.rest, LETTERS.len());
    }
    Ok(())
}

#[test]
fn other_words_are_refused(rt: HostRuntime) -> Result<(), Fail> {
    assert!(rt; run_words(&rt, &["--help"])?.is_refused());
    assert!(rt; run_words(&rt, &["help"])?.is_refused());
    assert!(rt; run_words(&rt, &["page", "-"])?.is_refused());
    assert!(rt; run_words(&rt, &["page", "-", "post:x"])?.is_refused());
    assert!(rt; run_words(&rt, &["page", "-", "front", "front"])?.is_refused());
    assert!(rt; run_words(&rt, &["page", "-x", "front"])?.is_refused());
    Ok(())
}

// Where the store can't be opened, as in a folder that does not exist, nothing is served.
#[test]
fn words_ask_for_a_server(rt: HostRuntime) -> Result<(), Fail> {
    let outcome = run_words(
        &rt,
        &[
            "serve", "--port", "8080", "--turns", "0", "--store", "none/f",
        ],
    )?;
    let told = "press: fault 51\npress: the folder of the store none/f does not exist\n";
    assert!(rt; outcome.left(2, "", told));
    assert_eq!(rt; outcome.rest, LETTERS.len());
    Ok(())
}

#[test]
fn other_words_of_a_server_are_refused(rt: HostRuntime) -> Result<(), Fail> {
    for (port, turns) in [
        ("0", "1"),
        ("65536", "1"),
        ("8080", "1000001"),
        ("+8080", "1"),
        ("8080", "x"),
    ] {
        let outcome = run_words(&rt, &["serve", "--port", port, "--turns", turns])?;
        assert!(rt; outcome.is_refused(), "at {port} {turns}");
    }
    assert!(rt; run_words(&rt, &["serve", "--turns", "1"])?.is_refused());
    Ok(())
}

// Options of a node by itself beside those of a member, a member without one of its options, and
// one whose addresses are none.
#[test]
fn words_of_a_server_that_do_not_fit_are_refused(rt: HostRuntime) -> Result<(), Fail> {
    let peers = "127.0.0.1:1,127.0.0.1:2";
    for words in [
        &["serve", "--port", "8080", "--id", "1"][..],
        &["serve", "--port", "8080", "--peers", peers][..],
        &["serve", "--port", "8080", "--tick", "300"][..],
        &["serve", "--port", "8080", "--store", "f", "--new"][..],
        &["serve", "--id", "1", "--peers", peers, "--new"][..],
        &["serve", "--id", "1", "--peers", peers][..],
        &["serve", "--id", "1", "--store", "f"][..],
        &["serve", "--peers", peers, "--store", "f"][..],
        &["serve", "--id", "8", "--peers", peers, "--store", "f"][..],
        &["serve", "--id", "3", "--peers", peers, "--store", "f"][..],
        &["serve", "--id", "1", "--peers", "here", "--store", "f"][..],
    ] {
        assert!(rt; run_words(&rt, words)?.is_refused());
    }
    assert!(rt; File::open(&rt, "f").is_err());
    Ok(())
}

// The page for editors is read before the store is opened.
#[test]
fn a_page_that_is_not_there_leaves_no_store(rt: HostRuntime) -> Result<(), Fail> {
    for words in [
        &[
            "serve", "--port", "8080", "--store", "f", "--editor", "no/such",
        ][..],
        &[
            "serve",
            "--id",
            "1",
            "--peers",
            "127.0.0.1:1",
            "--store",
            "f",
            "--editor",
            "no/such",
        ][..],
    ] {
        let unread = run_words(&rt, words)?;
        let told = "press: fault 40\npress: the page for editors no/such cannot be read\n";
        assert!(rt; unread.left(2, "", told));
    }
    assert!(rt; File::open(&rt, "f").is_err());
    Ok(())
}

// The members' addresses are read before the file, and the file before any of them is asked.
#[test]
fn words_ask_for_commands_to_be_sent(rt: HostRuntime) -> Result<(), Fail> {
    assert!(rt; run_words(&rt, &["send", "-"])?.is_refused());
    assert!(rt; run_words(&rt, &["send", "-", "here"])?.is_refused());
    assert!(rt; run_words(&rt, &["send", "-", "127.0.0.1:1", "--kit", "f"])?.is_refused());
    let unknown = run_words(&rt, &["send", "no/such/file", "127.0.0.1:1"])?;
    assert!(rt; unknown.left(2, "", "press: fault 40\n"));
    let words = ["send", "-", "127.0.0.1:1"];
    let bad = run_words_over(&rt, &words, b"{\"commands\":1}")?;
    assert!(rt; bad.left(2, "", "press: fault 72\n"));
    let none = run_words_over(&rt, &words, b"{\"commands\":[]}")?;
    assert!(rt; none.left(0, "0 done, 0 refused, 0 not taken, 0 left\n", ""));
    Ok(())
}

// Nothing listens at that port.
#[test]
fn words_ask_for_a_log_as_files(rt: HostRuntime) -> Result<(), Fail> {
    assert!(rt; run_words(&rt, &["export"])?.is_refused());
    assert!(rt; run_words(&rt, &["export", "here", "f"])?.is_refused());
    assert!(rt; run_words(&rt, &["export", "127.0.0.1:1,127.0.0.1:2", "f"])?.is_refused());
    let told = "press: fault 40\npress: 127.0.0.1:1 is away\n";
    for words in [
        &["export", "127.0.0.1:1", "f"][..],
        &["export", "127.0.0.1:1"][..],
    ] {
        assert!(rt; run_words(&rt, words)?.left(2, "", told));
    }
    assert!(rt; File::open(&rt, "f").is_err());
    assert!(rt; File::open(&rt, "site.json").is_err());
    Ok(())
}

const NEXT: &str = r#"{
  "callbacks": [],
  "plugins": [
    {
      "load": [],
      "name": "tags"
    }
  ]
}
"#;

#[test]
fn a_next_kit_is_printed_and_its_plugins_told(rt: HostRuntime) -> Result<(), Fail> {
    let old = r#"{"callbacks":[],"plugins":[]}"#;
    fs::write(&rt, "old.json", old.as_bytes())?;
    let new = r#"{"callbacks":[],"plugins":[{"name":"tags","load":[]}]}"#;
    fs::write(&rt, "new.json", new.as_bytes())?;
    let next = run_words(&rt, &["kit", "--next", "old.json", "new.json"])?;
    assert!(rt; next.left(0, NEXT, "press: activate tags\n"));
    let bad = run_words(&rt, &["kit", "--next", "new.json", "no/such/file"])?;
    assert!(rt; bad.left(2, "", "press: fault 40 in no/such/file\n"));
    let words = run_words(&rt, &["kit", "new.json"])?;
    assert!(rt; words.is_refused());
    Ok(())
}
