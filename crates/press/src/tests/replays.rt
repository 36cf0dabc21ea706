use crate::tests::fixtures::run_words_over;
use std::alloc::Global;
use std::test::Fail;

pub const THREE_NODES: &str =
    r#"{"nodes":3,"steps":[{"do":"submit","node":1,"editor":"ann","seq":1,"at":100,"kind":"insert","title":"x","content":"Hello","status":"publish"},{"do":"wake","node":1},{"do":"deliver","message":1},{"do":"deliver","message":2},{"do":"deliver","message":3},{"do":"deliver","message":4},{"do":"deliver","message":5},{"do":"deliver","message":6},{"do":"deliver","message":7},{"do":"deliver","message":8},{"do":"deliver","message":9},{"do":"deliver","message":10},{"do":"deliver","message":11},{"do":"deliver","message":12},{"do":"deliver","message":13},{"do":"deliver","message":14},{"do":"deliver","message":15},{"do":"deliver","message":16},{"do":"deliver","message":17},{"do":"deliver","message":18},{"do":"get","node":3,"target":"result:ann/1"}]}"#;

const DELIVERED: &str =
    "1 submit 1 sent 0 k=0\n2 wake 1 sent 1-3 k=0\n3 deliver 1 node 1 sent 4-4 k=0\n4 deliver 2 node 2 sent 5-5 k=0\n5 deliver 3 node 3 sent 6-6 k=0\n6 deliver 4 node 1 sent 0 k=0\n7 deliver 5 node 1 sent 7-9 k=0\n8 deliver 6 node 1 sent 0 k=0\n9 deliver 7 node 1 sent 10-12 k=0\n10 deliver 8 node 2 sent 13-15 k=0\n11 deliver 9 node 3 sent 16-18 k=0\n12 deliver 10 node 1 sent 0 k=0\n13 deliver 11 node 2 sent 0 k=0\n14 deliver 12 node 3 sent 0 k=0\n15 deliver 13 node 1 sent 0 k=1\n16 deliver 14 node 2 sent 0 k=1\n17 deliver 15 node 3 sent 0 k=1\n18 deliver 16 node 1 sent 0 k=1\n19 deliver 17 node 2 sent 0 k=1\n20 deliver 18 node 3 sent 0 k=1\n21 get 3 result:ann/1 200 10 k=1\n{\"done\":1}\nend 1 1 1\n";

// One node with the plugin `grow`, whose page is asked for twice.
const GROWING: &str =
    r#"{"nodes":1,"steps":[{"do":"submit","node":1,"editor":"ann","seq":1,"at":10,"kind":"activate","plugin":"grow"},{"do":"submit","node":1,"editor":"ann","seq":2,"at":10,"kind":"insert","title":"x","content":"Hello","status":"publish"},{"do":"wake","node":1},{"do":"deliver","message":1},{"do":"deliver","message":2},{"do":"deliver","message":3},{"do":"deliver","message":4},{"do":"wake","node":1},{"do":"deliver","message":5},{"do":"deliver","message":6},{"do":"get","node":1,"target":"front"},{"do":"get","node":1,"target":"front"}]}"#;

const GROWN: &str =
    "1 submit 1 sent 0 k=0\n2 submit 1 sent 0 k=0\n3 wake 1 sent 1-1 k=0\n4 deliver 1 node 1 sent 2-2 k=0\n5 deliver 2 node 1 sent 3-3 k=0\n6 deliver 3 node 1 sent 4-4 k=0\n7 deliver 4 node 1 sent 0 k=1\n8 wake 1 sent 5-5 k=1\n9 deliver 5 node 1 sent 6-6 k=1\n10 deliver 6 node 1 sent 0 k=2\n11 get 1 front 200 169 k=2\n<!DOCTYPE html>\n<html>\n<head>\n<title>Press</title>\n</head>\n<body>\n<h1>Press</h1>\n<article id=\"post-1\">\n<h2><a href=\"/?p=1\">xae</a></h2>\nHello\n</article>\n</body>\n</html>\n\n12 get 1 front 200 169 k=2\n<!DOCTYPE html>\n<html>\n<head>\n<title>Press</title>\n</head>\n<body>\n<h1>Press</h1>\n<article id=\"post-1\">\n<h2><a href=\"/?p=1\">xae</a></h2>\nHello\n</article>\n</body>\n</html>\n\nend 2\n";

// A node stops as soon as it has saved its vote, and one after the first message that it sends.
pub const STOP_AFTER_SAVE: &str =
    r#"{"nodes":3,"steps":[{"do":"submit","node":1,"editor":"ann","seq":1,"at":100,"kind":"insert","title":"x","content":"Hello","status":"publish"},{"do":"wake","node":1},{"do":"deliver","message":1},{"do":"deliver","message":2},{"do":"deliver","message":4},{"do":"deliver","message":5},{"do":"deliver","message":6},{"do":"deliver","message":7,"cut":"save"},{"do":"restart","node":2},{"do":"wake","node":3},{"do":"deliver","message":12},{"do":"deliver","message":13},{"do":"deliver","message":15},{"do":"deliver","message":16},{"do":"get","node":3,"target":"post:1"},{"do":"get","node":3,"target":"result:ann/1"}]}"#;

const SAVED: &str =
    "1 submit 1 sent 0 k=0\n2 wake 1 sent 1-3 k=0\n3 deliver 1 node 1 sent 4-4 k=0\n4 deliver 2 node 2 sent 5-5 k=0\n5 deliver 4 node 1 sent 0 k=0\n6 deliver 5 node 1 sent 6-8 k=0\n7 deliver 6 node 1 sent 9-11 k=0\n8 deliver 7 node 2 sent 0 stop\n9 restart 2 sent 0 k=0\n10 wake 3 sent 12-14 k=0\n11 deliver 12 node 1 sent 15-15 k=0\n12 deliver 13 node 2 sent 16-16 k=0\n13 deliver 15 node 3 sent 0 k=0\n14 deliver 16 node 3 sent 0 k=1\n15 get 3 post:1 200 167 k=1\n<!DOCTYPE html>\n<html>\n<head>\n<title>Press</title>\n</head>\n<body>\n<h1>Press</h1>\n<article id=\"post-1\">\n<h2><a href=\"/?p=1\">x</a></h2>\nHello\n</article>\n</body>\n</html>\n\n16 get 3 result:ann/1 200 10 k=1\n{\"done\":1}\nend 0 0 1\n";

pub const STOP_AFTER_MESSAGE: &str =
    r#"{"nodes":3,"steps":[{"do":"submit","node":1,"editor":"ann","seq":1,"at":100,"kind":"insert","title":"x","content":"Hello","status":"publish"},{"do":"wake","node":1},{"do":"deliver","message":1},{"do":"deliver","message":2},{"do":"deliver","message":4},{"do":"deliver","message":5},{"do":"deliver","message":6},{"do":"deliver","message":7,"cut":1},{"do":"deliver","message":9},{"do":"deliver","message":12},{"do":"get","node":1,"target":"post:1"},{"do":"get","node":1,"target":"result:ann/1"},{"do":"get","node":2,"target":"front"},{"do":"restart","node":2},{"do":"get","node":2,"target":"front"}]}"#;

const SENT: &str =
    "1 submit 1 sent 0 k=0\n2 wake 1 sent 1-3 k=0\n3 deliver 1 node 1 sent 4-4 k=0\n4 deliver 2 node 2 sent 5-5 k=0\n5 deliver 4 node 1 sent 0 k=0\n6 deliver 5 node 1 sent 6-8 k=0\n7 deliver 6 node 1 sent 9-11 k=0\n8 deliver 7 node 2 sent 12-12 stop\n9 deliver 9 node 1 sent 0 k=0\n10 deliver 12 node 1 sent 0 k=1\n11 get 1 post:1 200 167 k=1\n<!DOCTYPE html>\n<html>\n<head>\n<title>Press</title>\n</head>\n<body>\n<h1>Press</h1>\n<article id=\"post-1\">\n<h2><a href=\"/?p=1\">x</a></h2>\nHello\n</article>\n</body>\n</html>\n\n12 get 1 result:ann/1 200 10 k=1\n{\"done\":1}\n13 get 2 front fault 63\n14 restart 2 sent 0 k=0\n15 get 2 front 200 97 k=0\n<!DOCTYPE html>\n<html>\n<head>\n<title>Press</title>\n</head>\n<body>\n<h1>Press</h1>\n</body>\n</html>\n\nend 1 0 0\n";

#[test]
fn schedules_are_replayed(rt: HostRuntime) -> Result<(), Fail> {
    for (file, status, out, told) in [
        (THREE_NODES, 0, DELIVERED, ""),
        (GROWING, 0, GROWN, ""),
        (
            r#"{"nodes":1,"steps":[{"node":1}]}"#,
            2,
            "",
            "press: fault 72\n",
        ),
    ] {
        let outcome = run_words_over(&rt, &["replay", "-"], file.as_bytes())?;
        assert!(rt; outcome.left(status, out, told), "at {file}");
    }
    Ok(())
}

// A step by which a node stops ends its connection without a reply: a client that received one
// would end the run.
#[test]
fn schedules_come_over_sockets(rt: HostRuntime) -> Result<(), Fail> {
    let long = long_form(rt.alloc())?;
    for (file, out) in [
        (THREE_NODES, DELIVERED),
        (STOP_AFTER_SAVE, SAVED),
        (STOP_AFTER_MESSAGE, SENT),
        (long.as_str(), "1 submit 1 fault 2\nend 0\n"),
    ] {
        let outcome = run_words_over(&rt, &["loop", "-"], file.as_bytes())?;
        assert!(rt; outcome.left(0, out, ""), "at {}", out.len());
    }
    Ok(())
}

/// A command whose form has 66,074 bytes, which no request may have: each `&` of its content takes
/// three.
pub fn long_form(alloc: Global) -> Result<String, Fail> {
    let mut file = String::from_str(
        alloc,
        r#"{"nodes":1,"steps":[{"do":"submit","node":1,"editor":"ann","seq":1,"at":100,"kind":"insert","title":"x","status":"draft","content":""#,
    )?;
    for _ in 0..22_000 {
        file.push_str("&")?;
    }
    file.push_str(r#""}]}"#)?;
    Ok(file)
}
