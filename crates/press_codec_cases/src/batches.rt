use press_batch::{Batch, decode_batch, decode_head, encode_batch};
use std::alloc::Global;

// What the bytes spell as a batch, and whether it is spelt by them again; or the fault.
fn show_whole(rt: &HostRuntime, name: &str, bytes: &[u8]) -> anyhow::Result<()> {
    let alloc = rt.alloc();
    let batch = match decode_batch(alloc, bytes) {
        Ok(batch) => batch,
        Err(fault) => {
            println!(rt; "{name}: {fault}")?;
            return Ok(());
        }
    };
    let again = encode_batch(alloc, &batch)?;
    let is_alike = again.as_slice() == bytes;
    let Batch { head, messages } = batch;
    println!(rt;
        "{name}: {head:?}, messages: {}, spelt alike: {is_alike}",
        messages.len()
    )?;
    Ok(())
}

/// What the bytes spell as a batch, by how many messages it has, and whether it is spelt by them
/// again; then what they spell as a head alone; or the fault of each.
pub fn show_batch(rt: &HostRuntime, name: &str, bytes: &[u8]) -> anyhow::Result<()> {
    show_whole(rt, name, bytes)?;
    match decode_head(bytes) {
        Ok(head) => println!(rt; "{name}, as a head: {head:?}")?,
        Err(fault) => println!(rt; "{name}, as a head: {fault}")?,
    }
    Ok(())
}

/// Reads a batch, and spells it again.
pub fn spell_batch_again(alloc: Global, bytes: &[u8]) {
    if let Ok(batch) = decode_batch(alloc, bytes) {
        let _ = encode_batch(alloc, &batch);
    }
}
