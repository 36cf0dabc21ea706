use press_http::{HttpFault, write_fault, write_reply};
use press_page::{ContentKind, Reply};
use press_text::Text;

// A reply with its body.
fn show_reply(rt: &HostRuntime, status: u16, kind: ContentKind, body: &str) -> anyhow::Result<()> {
    let body = Text::from_str(rt.alloc(), body)?;
    let reply = Reply { status, kind, body };
    write_reply(rt.alloc(), &mut rt.stdout(), &reply)?;
    println!(rt; "|")?;
    Ok(())
}

// The reply to a fault.
fn show_fault(rt: &HostRuntime, fault: HttpFault) -> anyhow::Result<()> {
    if let Some(status) = fault.status() {
        write_fault(&mut rt.stdout(), status)?;
    }
    Ok(())
}

// A writer with room for 20 bytes.
fn show_short(rt: &HostRuntime) -> anyhow::Result<()> {
    let mut room = [0u8; 20];
    let mut writer: &mut [u8] = &mut room;
    if let Err(fault) = write_fault(&mut writer, 404) {
        println!(rt; "{fault}")?;
    }
    if let Ok(text) = std::str::from_utf8(&room) {
        println!(rt; "{text}|")?;
    }
    Ok(())
}

/// Prints replies, each byte as it goes over a connection.
pub fn show_replies(rt: &HostRuntime) -> anyhow::Result<()> {
    show_reply(rt, 202, ContentKind::Json, "{\"queued\":true}")?;
    show_reply(rt, 200, ContentKind::Text, "")?;
    show_reply(rt, 200, ContentKind::Html, "<p>é</p>\n")?;
    for fault in [
        HttpFault::BadForm,
        HttpFault::NotFound,
        HttpFault::NotAllowed,
        HttpFault::NoLength,
        HttpFault::TooBig,
        HttpFault::FieldsTooLarge,
        HttpFault::NotDone,
        HttpFault::NoMemory,
    ] {
        show_fault(rt, fault)?;
    }
    show_short(rt)
}
