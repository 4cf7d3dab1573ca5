//! Looks at each message of a stream in place: the first number that a Return has as its results.

use jamdrosek::message::ReturnedView;
use jamdrosek::{FrameReader, Limits, MessageIn, MessageView, view_of};
use std::fs;

pub fn run(rt: &HostRuntime) -> anyhow::Result<()> {
    let limits = Limits::standard();
    let bytes = fs::read(rt, "view.bin")?;
    let mut reader = FrameReader::plain(rt.alloc(), limits);
    for (_, segments) in &reader.feed(&bytes)? {
        let message = view_of(segments, limits)?;
        if let Some((question, number)) = answer(&message) {
            println!(rt; "question {question}: {number}")?;
        }
    }
    Ok(reader.finish()?)
}

/// The question that a Return answers, and the first word of its results. Nothing is copied.
fn answer(message: &MessageView<'_>) -> Option<(u32, u64)> {
    let MessageIn::Return(answer) = message else {
        return None;
    };
    let ReturnedView::Results(results) = &answer.returned else {
        return None;
    };
    Some((answer.answer_id, *results.content.words().first()?))
}
