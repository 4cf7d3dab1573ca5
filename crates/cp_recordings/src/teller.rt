//! A recording as lines.

use crate::names::{push_method, push_open, push_time, push_took};
use crate::session::{Ending, Hears, Moment, SessionFault};
use crate::traffic::{Question, Traffic};
use cp_lines::push_line;
use cp_reading::View;
use cp_rpc::{MessageIn, MessageView, ReturnView, ReturnedView};
use cp_schema::{DecodeFault, MethodNumber, Schema, call_line, return_line};
use std::alloc::Global;
use std::io::Write;

/// Prints each message of a recording as a line, and then what is open at its end.
pub struct Teller<'a, W> {
    alloc: Global,
    out: &'a mut W,
    schema: Option<&'a Schema>,
    /// Whether times are printed.
    has_times: bool,
    traffic: Traffic,
}

// Not derived: who lets one go calls this function, and need not prove the drop of what it holds.
impl<'a, W> Drop for Teller<'a, W> {
    fn drop(self) {
        let Teller {
            alloc: _,
            out: _,
            schema: _,
            has_times: _,
            traffic: _,
        } = self;
    }
}

impl<'a, W: Write> Teller<'a, W> {
    /// Prints to a writer, by the names of a schema if there is one.
    pub fn new(
        alloc: Global,
        out: &'a mut W,
        schema: Option<&'a Schema>,
        has_times: bool,
    ) -> Teller<'a, W> {
        Teller {
            alloc,
            out,
            schema,
            has_times,
            traffic: Traffic::new(alloc),
        }
    }

    /// Prints what is open where the recording ends.
    pub fn end(&mut self, ending: Ending) -> Result<(), SessionFault> {
        let mut text = String::new(self.alloc);
        let done = push_open(
            &mut text,
            &self.traffic,
            self.schema,
            ending,
            self.has_times,
        );
        let written = self.out.write_all(text.as_bytes());
        drop(text);
        done?;
        written?;
        Ok(self.out.flush()?)
    }

    /// Adds the line of a message, without a line feed.
    fn push_message(
        &self,
        text: &mut String,
        message: &MessageView,
        answered: Option<Question>,
    ) -> Result<(), SessionFault> {
        let mut plain = String::new(self.alloc);
        push_line(self.alloc, &mut plain, message)?;
        let named = self.named(plain.as_str(), message, answered);
        let line = match named {
            Ok(Some(line)) => {
                drop(plain);
                line
            }
            Ok(None) => plain,
            Err(_) => {
                drop(plain);
                // Content that doesn't fit the schema is no fault here, so memory ran out.
                return Err(SessionFault::OutOfMemory);
            }
        };
        let pushed = text.push_str(line.as_str().trim_end_matches('\n'));
        drop(line);
        Ok(pushed?)
    }

    /// The line of a message whose line by numbers is `plain`, by the names of the schema.
    fn named(
        &self,
        plain: &str,
        message: &MessageView,
        answered: Option<Question>,
    ) -> Result<Option<String>, DecodeFault> {
        let Some(schema) = self.schema else {
            return Ok(None);
        };
        match message {
            MessageIn::Call(call) => {
                let (interface, method) = (call.interface_id, call.method_id);
                let number = MethodNumber { interface, method };
                let params = call.params.content.reborrow();
                call_line(self.alloc, schema, number, plain, params)
            }
            MessageIn::Return(returned) => self.returned(schema, plain, returned, answered),
            _ => Ok(None),
        }
    }

    /// The line of a Return with results whose line by numbers is `plain`, by the names of the schema.
    fn returned(
        &self,
        schema: &Schema,
        plain: &str,
        returned: &ReturnView<View<'_>>,
        answered: Option<Question>,
    ) -> Result<Option<String>, DecodeFault> {
        match (&returned.returned, method_of(answered)) {
            (ReturnedView::Results(payload), Some(method)) => {
                let results = payload.content.reborrow();
                return_line(self.alloc, schema, method, plain, results)
            }
            _ => Ok(None),
        }
    }

    /// Makes the line of a message.
    fn line(
        &self,
        text: &mut String,
        moment: Moment,
        message: &MessageView,
        answered: Option<Question>,
    ) -> Result<(), SessionFault> {
        if self.has_times {
            push_time(text, moment.time)?;
            text.push(' ')?;
        }
        write!(text, "{} ", moment.side.arrow())?;
        self.push_message(text, message, answered)?;
        if let Some(question) = answered {
            if !has_results(message) {
                push_method(text, self.schema, question.method)?;
            }
            if self.has_times {
                push_took(text, "took", question.time, moment.time)?;
            }
        }
        Ok(text.push('\n')?)
    }
}

impl<'a, W: Write> Hears for Teller<'a, W> {
    fn hear(&mut self, moment: Moment, message: &MessageView) -> Result<(), SessionFault> {
        let answered = self.traffic.take(moment, message)?;
        let mut text = String::new(self.alloc);
        let made = self.line(&mut text, moment, message, answered);
        let written = self.out.write_all(text.as_bytes());
        drop(text);
        made?;
        Ok(written?)
    }
}

/// The method that a Return answers.
fn method_of(answered: Option<Question>) -> Option<MethodNumber> {
    answered?.method
}

/// Whether a message is a Return with results, whose line has its method.
fn has_results(message: &MessageView) -> bool {
    match message {
        MessageIn::Return(returned) => matches!(&returned.returned, ReturnedView::Results(_)),
        _ => false,
    }
}
