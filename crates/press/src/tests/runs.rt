use crate::tests::fakes::{Endless, Failing, Narrow};
use crate::tests::fixtures::{FAILED, LETTERS, ran};
use press_kit::FILE_LIMIT;
use press_program::run;
use std::alloc::Global;
use std::test::Fail;

const LETTERS_PAGE: &str =
    "<!DOCTYPE html>\n<html>\n<head>\n<title>Press</title>\n</head>\n<body>\n<h1>Press</h1>\n<article id=\"post-1\">\n<h2><a href=\"/?p=1\">xcab</a></h2>\nHello\n</article>\n</body>\n</html>\n";

const NOT_FOUND: &str =
    "<!DOCTYPE html>\n<html>\n<body>\n<h1>404 Not Found</h1>\n</body>\n</html>\n";

#[test]
fn runs_end(rt: HostRuntime) {
    assert!(rt; ran(&rt, LETTERS).left(0, LETTERS_PAGE, ""));
    assert!(rt; ran(&rt, b"{\"commands\":[]}").left(1, NOT_FOUND, ""));
    assert!(rt; ran(&rt, b"{}").left(2, "", "press: fault 72\n"));
}

// The file without its first command, with a plugin that the kit lacks in it, with `grow` in its
// place, and a content of nested tags.
#[test]
fn other_plugins_make_other_pages(rt: HostRuntime) -> Result<(), Fail> {
    for (plugin, title, content, shown) in [
        ("", "x", "Hello", "Hello"),
        ("none", "x", "Hello", "Hello"),
        ("grow", "xae", "Hello", "Hello"),
        (
            "tags",
            "x",
            "[box]a [greet name=Bo] b[/box]",
            "<div>a Hello Bo b</div>",
        ),
    ] {
        let file = file_of(rt.alloc(), plugin, content)?;
        let page = page_of(rt.alloc(), title, shown)?;
        assert!(rt;
            ran(&rt, file.as_bytes()).left(0, page.as_str(), ""),
            "at {plugin}"
        );
    }
    Ok(())
}

// The command that activates a plugin, where one is named.
fn activation(alloc: Global, plugin: &str) -> Result<String, Fail> {
    if plugin.is_empty() {
        return Ok(String::new(alloc));
    }
    Ok(format!(in alloc;
        "{{\"editor\":\"ann\",\"seq\":1,\"at\":10,\"kind\":\"activate\",\"plugin\":\"{plugin}\"}},"
    )?)
}

fn file_of(alloc: Global, plugin: &str, content: &str) -> Result<String, Fail> {
    let first = activation(alloc, plugin)?;
    Ok(format!(in alloc;
        "{{\"commands\":[{first}{{\"editor\":\"ann\",\"seq\":2,\"at\":10,\"kind\":\"insert\",\"title\":\"x\",\"content\":\"{content}\",\"status\":\"publish\",\"date\":10}}]}}"
    )?)
}

fn page_of(alloc: Global, title: &str, content: &str) -> Result<String, Fail> {
    Ok(format!(in alloc;
        "<!DOCTYPE html>\n<html>\n<head>\n<title>Press</title>\n</head>\n<body>\n<h1>Press</h1>\n<article id=\"post-1\">\n<h2><a href=\"/?p=1\">{title}</a></h2>\n{content}\n</article>\n</body>\n</html>\n"
    )?)
}

// 5,000 boxes play 10,000 turns, beside the one of `do_shortcode`.
#[test]
fn too_many_turns_fail(rt: HostRuntime) -> Result<(), Fail> {
    let mut file = String::from_str(
        rt.alloc(),
        r#"{"commands":[{"editor":"ann","seq":1,"at":10,"kind":"activate","plugin":"tags"},{"editor":"ann","seq":2,"at":10,"kind":"insert","title":"","content":""#,
    )?;
    for _ in 0..5000 {
        file.push_str("[box/]")?;
    }
    file.push_str(r#"","status":"publish"}]}"#)?;
    assert!(rt; ran(&rt, file.as_bytes()).left(1, FAILED, ""));
    Ok(())
}

// A reader without end is read one byte past the limit.
#[test]
fn reads_one_byte_past_the_limit(rt: HostRuntime) {
    let mut input = Endless { given: 0 };
    let mut out: Vec<u8> = Vec::new(rt.alloc());
    let mut told: Vec<u8> = Vec::new(rt.alloc());
    assert_eq!(rt; run(&rt, &[], &mut input, &mut out, &mut told), 2);
    assert_eq!(rt; told.as_slice(), b"press: fault 72\n".as_slice());
    assert_eq!(rt; input.given, FILE_LIMIT + 1);
}

// 28 reads give the 192 bytes, and the next one finds the end. None is tried again.
#[test]
fn a_failed_read_is_told(rt: HostRuntime) {
    for good in 0..29u32 {
        let mut input = Failing::new(LETTERS, good);
        let mut out: Vec<u8> = Vec::new(rt.alloc());
        let mut told: Vec<u8> = Vec::new(rt.alloc());
        assert_eq!(rt;
            run(&rt, &[], &mut input, &mut out, &mut told),
            2,
            "at {good}"
        );
        assert_eq!(rt; out.len(), 0, "at {good}");
        assert_eq!(rt;
            told.as_slice(),
            b"press: fault 40\n".as_slice(),
            "at {good}"
        );
        assert_eq!(rt; input.reads, good + 1);
    }
}

// 57 writes take the 170 bytes. None is tried again.
#[test]
fn a_failed_write_is_told(rt: HostRuntime) {
    for good in 0..57u32 {
        let mut input = LETTERS;
        let mut out = Narrow::new(rt.alloc(), good, good % 2 == 0);
        let mut told: Vec<u8> = Vec::new(rt.alloc());
        assert_eq!(rt;
            run(&rt, &[], &mut input, &mut out, &mut told),
            2,
            "at {good}"
        );
        assert!(rt;
            LETTERS_PAGE.as_bytes().starts_with(&out.taken),
            "at {good}"
        );
        assert_eq!(rt; out.writes, good + 1);
        assert_eq!(rt;
            told.as_slice(),
            b"press: fault 42\n".as_slice(),
            "at {good}"
        );
    }
}

// The line of a fault is not tried again either, and the status is the same.
#[test]
fn a_fault_that_cannot_be_told(rt: HostRuntime) {
    let mut input: &[u8] = b"{}";
    let mut out: Vec<u8> = Vec::new(rt.alloc());
    let mut told = Narrow::new(rt.alloc(), 2, true);
    assert_eq!(rt; run(&rt, &[], &mut input, &mut out, &mut told), 2);
    assert_eq!(rt; told.taken.as_slice(), b"press:".as_slice());
    assert_eq!(rt; told.writes, 3);
}
