//! What is said of questions, capabilities and times.

use crate::session::Ending;
use crate::side::Side;
use crate::traffic::{CapSource, Holding, Question, Traffic};
use cp_schema::{MethodNumber, NodeKind, Schema};
use std::alloc::AllocError;

/// Adds how a recording ended, and the lines of what is open then: of each end its questions, and the capabilities that it holds.
pub(crate) fn push_open(
    text: &mut String,
    traffic: &Traffic,
    schema: Option<&Schema>,
    ending: Ending,
    has_times: bool,
) -> Result<(), AllocError> {
    if has_times {
        push_time(text, ending.time())?;
        text.push(' ')?;
    }
    text.push_str(match ending {
        Ending::Connection(_) => "ended\n",
        Ending::Cut(_) => "cut off\n",
    })?;
    let until = if has_times { Some(ending.time()) } else { None };
    for side in [Side::Client, Side::Server] {
        let end = traffic.end(side);
        for (number, question) in end.questions.iter() {
            push_question(text, side, *number, question, until)?;
            push_method(text, schema, question.method)?;
            text.push('\n')?;
        }
        for (id, holding) in end.holdings.iter() {
            push_holding(text, side, *id, holding)?;
            push_method(text, schema, holding.source.method())?;
            text.push('\n')?;
        }
    }
    Ok(())
}

/// Adds a question that is open, or answered and not finished.
fn push_question(
    text: &mut String,
    side: Side,
    number: u32,
    question: &Question,
    until: Option<u64>,
) -> Result<(), AllocError> {
    let what = if question.is_answered {
        "unfinished"
    } else {
        "open"
    };
    write!(text, "{what} {} q={number}", side.arrow())?;
    match until {
        Some(end) if !question.is_answered => push_took(text, "for", question.time, end),
        _ => Ok(()),
    }
}

/// Adds a capability that is held.
fn push_holding(
    text: &mut String,
    side: Side,
    id: u32,
    holding: &Holding,
) -> Result<(), AllocError> {
    let (arrow, count) = (side.arrow(), holding.count);
    write!(text, "held {arrow} import:{id} count={count}")?;
    match holding.source {
        CapSource::Results(number, _) => write!(text, " of q={number}"),
        CapSource::Params(number, _) => write!(text, " in q={number}"),
        CapSource::Promise(number) => write!(text, " of p={number}"),
    }
}

/// Adds a time in milliseconds.
pub(crate) fn push_time(text: &mut String, time: u64) -> Result<(), AllocError> {
    write!(text, "{}.{:03}", time / 1_000, time % 1_000)
}

/// Adds how long something took, in milliseconds.
pub(crate) fn push_took(
    text: &mut String,
    word: &str,
    from: u64,
    to: u64,
) -> Result<(), AllocError> {
    write!(text, " {word}=")?;
    push_time(text, to.saturating_sub(from))
}

/// Adds the name of a method, if the schema has it.
pub(crate) fn push_method(
    text: &mut String,
    schema: Option<&Schema>,
    method: Option<MethodNumber>,
) -> Result<(), AllocError> {
    let (Some(schema), Some(method)) = (schema, method) else {
        return Ok(());
    };
    match name_of(schema, method) {
        Some((interface, name)) => write!(text, " {interface}.{name}"),
        None => Ok(()),
    }
}

/// The names of a method and of its interface, if the schema has it.
fn name_of(schema: &Schema, number: MethodNumber) -> Option<(&str, &str)> {
    let node = schema.find(number.interface)?;
    match &node.kind {
        NodeKind::Interface(of) => {
            let method = of.methods.get(number.method as usize)?;
            Some((node.name(), method.name.as_str()))
        }
        _ => None,
    }
}
