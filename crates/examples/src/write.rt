//! Writes a Call to standard output, as one packed frame.

use anyhow::anyhow;
use jamdrosek::message::{Call, CapTable, Payload, SendResultsTo, Target};
use jamdrosek::tree::{Body, Tree, Whole};
use jamdrosek::{Limits, Message, Mode, Tap, write_message};
use std::alloc::Global;
use std::io;

pub fn run(rt: &HostRuntime) -> anyhow::Result<()> {
    let alloc = rt.alloc();
    let message = call(alloc, 5, 1)?;
    let mut out = Tap::new(io::writer(rt));
    let limits = Limits::standard();
    Ok(write_message(alloc, &mut out, &message, Mode::Packed, limits)?)
}

/// A call on import 1, whose params are a struct of one word.
fn call(alloc: Global, question_id: u32, number: u64) -> anyhow::Result<Message> {
    let params = Tree::Struct(Body {
        words: vec![in alloc; number]?,
        ptrs: Vec::new(alloc),
    });
    Ok(Message::Call(Call {
        question_id,
        interface_id: 0xe5a1_0000_0000_0002,
        method_id: 0,
        target: Target::ImportedCap(1),
        params: Payload {
            content: Whole::new(params).map_err(|_| anyhow!("no message can hold this"))?,
            cap_table: CapTable::new(Vec::new(alloc)),
        },
        send_results_to: SendResultsTo::Caller,
    }))
}
