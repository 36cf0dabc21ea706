use press_apply::Value;
use press_text::Copied;
use press_wire::{Message, WireFault, decode_cmd, decode_msg, encode_cmd, encode_msg};
use std::alloc::{AllocError, Global};
use std::fmt::Debug;

/// What has a spelling on the wire.
pub trait Spelled: Copied + Debug + Drop {
    fn read(alloc: Global, bytes: &[u8]) -> Result<Self, WireFault>
    where
        Self: Sized;

    fn spell(&self, alloc: Global) -> Result<Vec<u8>, WireFault>;
}

impl Spelled for Value {
    fn read(alloc: Global, bytes: &[u8]) -> Result<Value, WireFault> {
        decode_cmd(alloc, bytes)
    }

    fn spell(&self, alloc: Global) -> Result<Vec<u8>, WireFault> {
        encode_cmd(alloc, self)
    }
}

impl Spelled for Message {
    fn read(alloc: Global, bytes: &[u8]) -> Result<Message, WireFault> {
        decode_msg(alloc, bytes)
    }

    fn spell(&self, alloc: Global) -> Result<Vec<u8>, WireFault> {
        encode_msg(alloc, self)
    }
}

// The same answer to this many prefixes of the bytes in turn.
#[derive(Clone, Copy, Drop)]
struct Run {
    number: u8,
    count: usize,
}

// The number of the fault, or 255 if there is none.
fn number_of<T: Spelled>(alloc: Global, bytes: &[u8]) -> u8 {
    match T::read(alloc, bytes) {
        Ok(_) => 255,
        Err(fault) => fault.number(),
    }
}

// What each shorter prefix of the bytes is read as.
fn fronts<T: Spelled>(alloc: Global, bytes: &[u8]) -> Result<Vec<Run>, AllocError> {
    let mut runs: Vec<Run> = Vec::new(alloc);
    for n in 0..bytes.len() {
        let number = number_of::<T>(alloc, &bytes[..n]);
        match runs.last_mut() {
            Some(run) if run.number == number => run.count = run.count.saturating_add(1),
            _ => runs.push(Run { number, count: 1 })?,
        }
    }
    Ok(runs)
}

fn show_fronts<T: Spelled>(rt: &HostRuntime, name: &str, bytes: &[u8]) -> anyhow::Result<()> {
    for Run { number, count } in fronts::<T>(rt.alloc(), bytes)? {
        println!(rt; "{name}, {count} fronts: {number}")?;
    }
    let mut longer = Vec::new(rt.alloc());
    longer.extend_from_slice(bytes)?;
    longer.push(0)?;
    println!(rt;
        "{name}, a byte more: {}",
        number_of::<T>(rt.alloc(), &longer)
    )?;
    Ok(())
}

/// What the bytes spell, whether a copy of it is spelt by them again, and what prefixes of them and
/// one byte more give; or the fault.
pub fn show_spelled<T: Spelled>(rt: &HostRuntime, name: &str, bytes: &[u8]) -> anyhow::Result<()> {
    let alloc = rt.alloc();
    let value = match T::read(alloc, bytes) {
        Ok(value) => value.copy_in(alloc)?,
        Err(fault) => {
            println!(rt; "{name}: {} {fault}", fault.number())?;
            return Ok(());
        }
    };
    let again = value.spell(alloc)?;
    let same = again.as_slice() == bytes;
    println!(rt; "{name}: {value:?}, spelt alike: {same}")?;
    show_fronts::<T>(rt, name, bytes)
}
