//! Counts the calls of a stream of messages.

use jamdrosek::{Limits, Message, Mode, StreamFault, Tap, read_message};
use std::alloc::Global;
use std::fs::File;
use std::io::{BufReader, Read};

pub fn run(rt: &HostRuntime) -> anyhow::Result<()> {
    let alloc = rt.alloc();
    let stream = BufReader::new(alloc, File::open(rt, "count.bin")?)?;
    let calls = count_calls(alloc, stream)?;
    println!(rt; "{calls} calls")?;
    Ok(())
}

/// Reads the stream to its end, one message at a time.
fn count_calls<R: Read + Drop>(alloc: Global, stream: R) -> Result<u64, StreamFault> {
    let mut stream = Tap::new(stream);
    let mut calls = 0u64;
    for _ in 0..u64::MAX {
        match read_message(alloc, &mut stream, Mode::Plain, Limits::standard())? {
            Some(Message::Call(_)) => calls = calls.saturating_add(1),
            Some(_) => {}
            None => break,
        }
    }
    Ok(calls)
}
