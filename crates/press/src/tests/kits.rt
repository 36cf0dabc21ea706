use crate::tests::fixtures::{LETTERS, run_words};
use std::fs;
use std::test::Fail;

// A filter alone.
const LOUD: &str =
    "{\"callbacks\":[{\"name\":\"loud\",\"script\":[{\"op\":\"set\",\"text\":[{\"from\":\"value\"},\"!\"]}]}],\"plugins\":[]}";

// A plugin with a filter of its own, and one of another file; what that puts on a hook nothing
// runs.
const LETTER: &str =
    "{\"callbacks\":[{\"name\":\"add\",\"script\":[{\"op\":\"set\",\"text\":[{\"from\":\"value\"},\"a\"]},{\"op\":\"add_hook\",\"hook\":\"never\",\"callback\":\"add\"}]}],\"plugins\":[{\"name\":\"letters\",\"load\":[{\"hook\":\"the_title\",\"callback\":\"add\"},{\"hook\":\"the_title\",\"callback\":\"loud\"}]}]}";

// A plugin without a callback.
const OTHER: &str = "{\"callbacks\":[],\"plugins\":[{\"name\":\"other\",\"load\":[]}]}";

// Behind such a one a plugin of that name.
const AGAIN: &str =
    "{\"callbacks\":[],\"plugins\":[{\"name\":\"more\",\"load\":[]},{\"name\":\"letters\",\"load\":[]}]}";

const PAGE: &str =
    "<!DOCTYPE html>\n<html>\n<head>\n<title>Press</title>\n</head>\n<body>\n<h1>Press</h1>\n<article id=\"post-1\">\n<h2><a href=\"/?p=1\">xa!</a></h2>\nHello\n</article>\n</body>\n</html>\n";

fn write_kits(rt: &HostRuntime) -> Result<(), Fail> {
    for (name, kit) in [
        ("loud.json", LOUD),
        ("letter.json", LETTER),
        ("again.json", AGAIN),
        ("other.json", OTHER),
        ("bad.json", "{\"callbacks\":[{}],\"plugins\":[]}"),
    ] {
        fs::write(rt, name, kit.as_bytes())?;
    }
    Ok(())
}

#[test]
fn kit_files_make_one_kit(rt: HostRuntime) -> Result<(), Fail> {
    write_kits(&rt)?;
    let slip =
        "press: warning in letter.json: callbacks[0] \"add\": script[1] puts a callback on a hook that nothing runs: \"never\"\n";
    for words in [
        &[
            "page",
            "-",
            "post:1",
            "--kit",
            "loud.json",
            "--kit=letter.json",
        ][..],
        &[
            "page",
            "--kit",
            "letter.json",
            "-",
            "--kit",
            "loud.json",
            "post:1",
        ][..],
    ] {
        assert!(rt; run_words(&rt, words)?.left(0, PAGE, slip));
    }
    Ok(())
}

// Each is told with its file, and nothing of the input is read.
#[test]
fn mistakes_are_those_of_their_files(rt: HostRuntime) -> Result<(), Fail> {
    write_kits(&rt)?;
    for (kits, told) in [
        (
            ["loud.json", "letter.json", "again.json"],
            "press: fault 3 in letter.json: plugins[0] \"letters\": a later one has the same name (again.json has it too)\n",
        ),
        (
            ["again.json", "loud.json", "letter.json"],
            "press: fault 3 in again.json: plugins[1] \"letters\": a later one has the same name (letter.json has it too)\n",
        ),
        (
            ["loud.json", "again.json", "loud.json"],
            "press: fault 3 in loud.json: callbacks[0] \"loud\": a later one has the same name (loud.json has it too)\n",
        ),
        (
            ["loud.json", "bad.json", "no/such"],
            "press: fault 40 in no/such\n",
        ),
        (
            ["loud.json", "bad.json", "loud.json"],
            "press: fault 73 in bad.json: callbacks[0]: is bad: lacks \"name\"\n",
        ),
    ] {
        let [one, two, three] = kits;
        let words = [
            "replay", "no/file", "--kit", one, "--kit", two, "--kit", three,
        ];
        let refused = run_words(&rt, &words)?;
        assert!(rt; refused.left(2, "", told), "at {one} {two} {three}");
        assert_eq!(rt; refused.rest, LETTERS.len());
    }
    Ok(())
}

// A load names a callback that neither file has.
#[test]
fn an_unknown_callback_is_told_within_its_file(rt: HostRuntime) -> Result<(), Fail> {
    write_kits(&rt)?;
    let words = [
        "page",
        "-",
        "post:1",
        "--kit",
        "other.json",
        "--kit",
        "letter.json",
    ];
    let unknown =
        "press: fault 4 in letter.json: plugins[0] \"letters\": load[1] names a callback that is not in the kit: \"loud\"\n";
    assert!(rt; run_words(&rt, &words)?.left(2, "", unknown));
    Ok(())
}
