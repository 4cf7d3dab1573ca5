//! What calls came to, as an application names it.

use crate::line::push_exception;
use crate::notation::{separate, tree};
use cp_reading::View;
use cp_refs::{Cap, Caps, Outcome};
use cp_rpc::{Message, tree_of};
use cp_tree::Whole;
use cp_words::{Limits, Segments};
use cp_writing::write_root;
use std::alloc::{AllocError, Global};

/// Adds the line of what a question came to: `question:N results {T caps[..]}`, or what `push_outcome` adds after the number.
pub fn push_outcome_of(
    alloc: Global,
    line: &mut String,
    question: u32,
    outcome: &Outcome,
) -> Result<(), AllocError> {
    write!(line, "question:{question} ")?;
    if let Outcome::Results { .. } = outcome {
        line.push_str("results ")?;
    }
    push_outcome(alloc, line, outcome)?;
    line.push('\n')
}

/// Adds what a call came to: `{T caps[..]}`, `exception E` or `canceled`.
pub fn push_outcome(alloc: Global, line: &mut String, outcome: &Outcome) -> Result<(), AllocError> {
    match outcome {
        Outcome::Results { content, caps } => push_payload(alloc, line, content, caps),
        Outcome::Failed(exception) => {
            line.push_str("exception ")?;
            push_exception(line, exception)
        }
        Outcome::Canceled => line.push_str("canceled"),
    }
}

/// Adds a content and its capabilities: `{T caps[..]}`.
pub fn push_payload(
    alloc: Global,
    line: &mut String,
    content: &Whole,
    caps: &Caps,
) -> Result<(), AllocError> {
    line.push('{')?;
    whole(alloc, line, content)?;
    line.push_str(" caps[")?;
    for (i, it) in caps.caps().iter().enumerate() {
        separate(line, i)?;
        cap(line, it)?;
    }
    line.push_str("]}")
}

/// Adds a tree, by a message that holds it, so that trees have one notation.
fn whole(alloc: Global, line: &mut String, content: &Whole) -> Result<(), AllocError> {
    let Some(segments) = holder(alloc, content.copy(alloc)?) else {
        // What passes the limits counts as too large for the memory.
        return Err(AllocError);
    };
    match View::root(&segments, Limits::standard()) {
        Ok(root) => tree(line, &root.child(0)),
        Err(_) => Err(AllocError),
    }
}

/// A message whose first pointer is this tree. `None` where it can't be written.
fn holder(alloc: Global, content: Whole) -> Option<Segments> {
    let message = Message::Unimplemented(content);
    let root = tree_of(alloc, &message);
    drop(message);
    let Ok(root) = root else {
        return None;
    };
    let words = write_root(alloc, &root, Limits::standard());
    drop(root);
    match words {
        Ok(words) => Some(Segments::one(words)),
        Err(_) => None,
    }
}

/// Adds a capability: `none`, or its name, a colon, and what it names.
fn cap(line: &mut String, cap: &Cap) -> Result<(), AllocError> {
    match cap {
        Cap::None => line.push_str("none"),
        Cap::Object(id) => write!(line, "object:{id}"),
        Cap::Promise(id) => write!(line, "promise:{id}"),
        Cap::Import(id) => write!(line, "import:{id}"),
        Cap::Pipelined(question, path) => {
            write!(line, "question:{question}[")?;
            for (i, field) in path.fields().iter().enumerate() {
                separate(line, i)?;
                write!(line, "{field}")?;
            }
            line.push(']')
        }
        Cap::Broken(exception) => {
            line.push_str("broken:")?;
            push_exception(line, exception)
        }
    }
}
