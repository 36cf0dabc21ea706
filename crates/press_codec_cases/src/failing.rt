use crate::piece_reader::{Failure, PieceReader, Taken};
use crate::requests::line;
use press_http::{write_fault, write_reply};
use press_page::{ContentKind, Reply};
use press_text::Text;

/// The outcome of a request, in pieces of 16 bytes, where each of its reads fails in turn, and the
/// one after the last. An outcome that is that of the read before gets no line.
pub fn show_failing_reads(rt: &HostRuntime, name: &str, bytes: &[u8]) -> anyhow::Result<()> {
    let mut before = String::new(rt.alloc());
    for call in 0..bytes.len() / 16 + 3 {
        let now = line(
            rt.alloc(),
            PieceReader::new(bytes, 16, Failure::AtCall(call)),
        )?;
        if now != before {
            println!(rt; "{name}, where read {call} fails: {now}")?;
            before = now;
        }
    }
    Ok(())
}

fn outcome(rt: &HostRuntime, call: usize, taken: usize, is_whole: bool) -> anyhow::Result<()> {
    if is_whole {
        println!(rt; "write {call} isn't made: {taken} bytes, whole")?;
    } else {
        println!(rt; "write {call} fails: {taken} bytes")?;
    }
    Ok(())
}

/// How much of a reply and of a fault is written, 16 bytes at a time, where each write fails in
/// turn, and the one after the last.
pub fn show_failing_writes(rt: &HostRuntime) -> anyhow::Result<()> {
    let body = Text::from_str(rt.alloc(), "{\"queued\":true}")?;
    let reply = Reply {
        status: 202,
        kind: ContentKind::Json,
        body,
    };
    for call in 0..9 {
        let mut writer = Taken::new(16, call);
        let is_whole = write_reply(rt.alloc(), &mut writer, &reply).is_ok();
        outcome(rt, call, writer.bytes, is_whole)?;
    }
    for call in 0..18 {
        let mut writer = Taken::new(16, call);
        let is_whole = write_fault(&mut writer, 404).is_ok();
        outcome(rt, call, writer.bytes, is_whole)?;
    }
    Ok(())
}
