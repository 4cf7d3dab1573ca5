//! A recording as a picture.

use crate::names::{push_method, push_open, push_time};
use crate::session::{Ending, Hears, Moment, SessionFault};
use crate::side::Side;
use crate::traffic::{Question, Traffic};
use cp_rpc::{MessageIn, MessageView, ReturnedView};
use cp_schema::{MethodNumber, Schema};
use std::alloc::{AllocError, Global};
use std::io::Write;

/// The height of a row, and of what stands above the first and below the last one.
const ROW: u64 = 24;

const HEAD: u64 = 48;

/// What stands before the first row, after the picture's size. A dash is as long as the head of an arrow, which so is drawn whole.
const STYLE: &str = "\
<style>\n\
text { font: 12px sans-serif; fill: #222; }\n\
path { stroke: #222; fill: none; }\n\
.time { text-anchor: end; fill: #777; }\n\
.label, .lane { text-anchor: middle; }\n\
.lane { font-weight: bold; }\n\
.return { stroke-dasharray: 18 4; }\n\
.other { stroke: #aaa; }\n\
.failed { stroke: #c60; stroke-dasharray: 18 4; }\n\
.slow { stroke: #d00; stroke-width: 3; }\n\
text.slow { fill: #d00; stroke: none; font-weight: bold; }\n\
</style>\n\
<rect width=\"100%\" height=\"100%\" fill=\"#fff\"/>\n\
<text class=\"lane\" x=\"180\" y=\"24\">client</text>\n\
<text class=\"lane\" x=\"620\" y=\"24\">server</text>\n";

/// Draws a recording as a sequence diagram: two lanes, and an arrow for each message, from the top on.
pub struct Picture<'a> {
    alloc: Global,
    schema: Option<&'a Schema>,
    /// How long an answer takes that is marked, in microseconds.
    slow: u64,
    traffic: Traffic,
    rows: u64,
    /// The arrows of all rows.
    arrows: String,
}

// Not derived: who lets one go calls this function, and need not prove the drop of what it holds.
impl<'a> Drop for Picture<'a> {
    fn drop(self) {
        let Picture {
            alloc: _,
            schema: _,
            slow: _,
            traffic: _,
            rows: _,
            arrows: _,
        } = self;
    }
}

impl<'a> Picture<'a> {
    /// A picture without arrows, by the names of a schema if there is one. Answers that take so many milliseconds are marked.
    pub fn new(alloc: Global, schema: Option<&'a Schema>, slow: u32) -> Picture<'a> {
        Picture {
            alloc,
            schema,
            slow: (slow as u64).saturating_mul(1_000),
            traffic: Traffic::new(alloc),
            rows: 0,
            arrows: String::new(alloc),
        }
    }

    /// Writes the picture of a recording that ends so, an SVG document.
    pub fn write<W: Write>(&mut self, ending: Ending, out: &mut W) -> Result<(), SessionFault> {
        let mut open = String::new(self.alloc);
        let made = push_open(&mut open, &self.traffic, self.schema, ending, true);
        let written = match made {
            Ok(()) => self.write_with(open.as_str(), out),
            Err(error) => Err(SessionFault::from(error)),
        };
        drop(open);
        written
    }

    /// Writes the picture, with the lines of what is open below it.
    fn write_with<W: Write>(&mut self, open: &str, out: &mut W) -> Result<(), SessionFault> {
        let end = HEAD.saturating_add(self.rows.saturating_mul(ROW));
        let mut line = end;
        for text in open.lines() {
            line = line.saturating_add(ROW);
            write!(self.arrows, "<text x=\"60\" y=\"{line}\">")?;
            push_escaped(&mut self.arrows, text)?;
            self.arrows.push_str("</text>\n")?;
        }
        let height = line.saturating_add(ROW);
        writeln!(
            out,
            "<svg xmlns=\"http://www.w3.org/2000/svg\" width=\"800\" height=\"{height}\" viewBox=\"0 0 800 {height}\">"
        )?;
        out.write_all(STYLE.as_bytes())?;
        writeln!(out, "<path d=\"M180,32 V{end} M620,32 V{end}\"/>")?;
        out.write_all(self.arrows.as_bytes())?;
        out.write_all(b"</svg>\n")?;
        Ok(out.flush()?)
    }

    /// Adds the arrow of a message in a row of its own.
    fn push_arrow(
        &mut self,
        moment: Moment,
        message: &MessageView,
        answered: Option<Question>,
    ) -> Result<(), AllocError> {
        self.rows = self.rows.saturating_add(1);
        let (row, text) = (
            HEAD.saturating_add(self.rows.saturating_mul(ROW)),
            &mut self.arrows,
        );
        write!(
            text,
            "<text class=\"time\" x=\"150\" y=\"{}\">",
            row.saturating_add(4)
        )?;
        push_time(text, moment.time)?;
        let slow = if is_slow(answered, moment.time, self.slow) {
            " slow"
        } else {
            ""
        };
        let path = match moment.side {
            Side::Client => "M180,Y H620 m-8,-4 l8,4 l-8,4",
            Side::Server => "M620,Y H180 m8,-4 l-8,4 l8,4",
        };
        let (from, rest) = path.split_once('Y').unwrap_or((path, ""));
        write!(
            text,
            "</text><path class=\"{}{slow}\" d=\"{from}{row}{rest}\"/>",
            kind_of(message)
        )?;
        write!(
            text,
            "<text class=\"label{slow}\" x=\"400\" y=\"{}\">",
            row.saturating_sub(4)
        )?;
        let mut label = String::new(self.alloc);
        let made = push_label(&mut label, self.schema, moment, message, answered);
        let pushed = push_escaped(&mut self.arrows, label.as_str());
        drop(label);
        made?;
        pushed?;
        self.arrows.push_str("</text>\n")
    }
}

impl<'a> Hears for Picture<'a> {
    fn hear(&mut self, moment: Moment, message: &MessageView) -> Result<(), SessionFault> {
        let answered = self.traffic.take(moment, message)?;
        Ok(self.push_arrow(moment, message, answered)?)
    }
}

/// Adds what stands above an arrow.
fn push_label(
    text: &mut String,
    schema: Option<&Schema>,
    moment: Moment,
    message: &MessageView,
    answered: Option<Question>,
) -> Result<(), AllocError> {
    match message {
        MessageIn::Bootstrap(bootstrap) => { write!(text, "q={} bootstrap", bootstrap.question_id) }
        MessageIn::Call(call) => {
            let (interface, method) = (call.interface_id, call.method_id);
            write!(text, "q={}", call.question_id)?;
            push_method(text, schema, Some(MethodNumber { interface, method }))
        }
        MessageIn::Return(returned) => {
            write!(text, "q={}", returned.answer_id)?;
            push_answer(text, schema, moment, answered)
        }
        MessageIn::Finish(finish) => write!(text, "finish q={}", finish.question_id),
        MessageIn::Resolve(resolve) => write!(text, "resolve p={}", resolve.promise_id),
        MessageIn::Release(release) => write!(text, "release id={}", release.id),
        MessageIn::Abort(_) => text.push_str("abort"),
        MessageIn::Disembargo(_) => text.push_str("disembargo"),
        MessageIn::Unimplemented(_) => text.push_str("unimplemented"),
        MessageIn::Other { which, .. } => write!(text, "other {}", which.number()),
    }
}

/// Adds which question was answered, and how long that took.
fn push_answer(
    text: &mut String,
    schema: Option<&Schema>,
    moment: Moment,
    answered: Option<Question>,
) -> Result<(), AllocError> {
    let Some(question) = answered else {
        return Ok(());
    };
    push_method(text, schema, question.method)?;
    text.push_str(" after ")?;
    push_time(text, moment.time.saturating_sub(question.time))?;
    text.push_str(" ms")
}

/// Whether an answer took so long.
fn is_slow(answered: Option<Question>, now: u64, slow: u64) -> bool {
    match answered {
        Some(question) => slow <= now.saturating_sub(question.time),
        None => false,
    }
}

/// The kind of a message's arrow.
fn kind_of(message: &MessageView) -> &'static str {
    match message {
        MessageIn::Bootstrap(_) | MessageIn::Call(_) => "call",
        MessageIn::Return(returned) => match &returned.returned {
            ReturnedView::Exception(_) | ReturnedView::Canceled => "failed",
            _ => "return",
        },
        MessageIn::Abort(_) => "failed",
        _ => "other",
    }
}

/// Adds a text, with the marks of XML written as entities.
fn push_escaped(text: &mut String, plain: &str) -> Result<(), AllocError> {
    for c in plain.chars() {
        match c {
            '&' => text.push_str("&amp;")?,
            '<' => text.push_str("&lt;")?,
            '>' => text.push_str("&gt;")?,
            c => text.push(c)?,
        }
    }
    Ok(())
}
