use press_program::run;
use std::test::Fail;

/// The site file that is the input of the stored run.
pub const LETTERS: &[u8] =
    b"{\"commands\":[{\"editor\":\"ann\",\"seq\":1,\"at\":10,\"kind\":\"activate\",\"plugin\":\"letters\"},{\"editor\":\"ann\",\"seq\":2,\"at\":10,\"kind\":\"insert\",\"title\":\"x\",\"content\":\"Hello\",\"status\":\"publish\",\"date\":10}]}";

/// A post, then the plugin `loop`, whose filters meet the limit, then another post.
pub const LOOPING: &[u8] =
    b"{\"commands\":[{\"editor\":\"ann\",\"seq\":1,\"at\":10,\"kind\":\"insert\",\"title\":\"x\",\"content\":\"Hello\",\"status\":\"publish\"},{\"editor\":\"ann\",\"seq\":2,\"at\":10,\"kind\":\"activate\",\"plugin\":\"loop\"},{\"editor\":\"ann\",\"seq\":3,\"at\":20,\"kind\":\"insert\",\"title\":\"y\",\"content\":\"\"}]}";

pub const FAILED: &str =
    "<!DOCTYPE html>\n<html>\n<body>\n<h1>500 Internal Server Error</h1>\n</body>\n</html>\n";

/// What a run left: its status, what it printed, what it reported of a fault, and how many bytes of
/// its input it read.
#[derive(Drop)]
pub struct EndedRun {
    pub status: u8,
    pub out: Vec<u8>,
    pub told: Vec<u8>,
    pub rest: usize,
}

fn run_to_end(rt: &HostRuntime, words: &[String], file: &[u8]) -> EndedRun {
    let mut input = file;
    let mut out: Vec<u8> = Vec::new(rt.alloc());
    let mut told: Vec<u8> = Vec::new(rt.alloc());
    let status = run(rt, words, &mut input, &mut out, &mut told);
    EndedRun {
        status,
        out,
        told,
        rest: input.len(),
    }
}

/// A run without arguments.
pub fn ran(rt: &HostRuntime, file: &[u8]) -> EndedRun {
    run_to_end(rt, &[], file)
}

/// A run for these arguments on the site of the stored run.
pub fn run_words(rt: &HostRuntime, words: &[&str]) -> Result<EndedRun, Fail> {
    run_words_over(rt, words, LETTERS)
}

/// A run for these arguments on this file.
pub fn run_words_over(rt: &HostRuntime, words: &[&str], file: &[u8]) -> Result<EndedRun, Fail> {
    let given = words_of(rt, words)?;
    Ok(run_to_end(rt, &given, file))
}

/// The arguments, as a program gets them.
pub fn words_of(rt: &HostRuntime, words: &[&str]) -> Result<Vec<String>, Fail> {
    let mut given = Vec::new(rt.alloc());
    for word in words {
        given.push(String::from_str(rt.alloc(), word)?)?;
    }
    Ok(given)
}

impl EndedRun {
    /// Whether it ended with this status, printed this text and reported this line.
    pub fn left(&self, status: u8, out: &str, told: &str) -> bool {
        self.status == status
            && self.out.as_slice() == out.as_bytes()
            && self.told.as_slice() == told.as_bytes()
    }

    /// Whether the usage was printed, and nothing read.
    pub fn is_refused(&self) -> bool {
        self.left(2, "", "press: usage\n") && self.rest == LETTERS.len()
    }
}

/// Whether these bytes hold those.
pub fn holds(bytes: &[u8], part: &[u8]) -> bool {
    for at in 0..bytes.len() {
        if bytes[at..].starts_with(part) {
            return true;
        }
    }
    false
}
