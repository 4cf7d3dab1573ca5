//! The lines of the messages that go, and their recordings.

use crate::pair::arrow;
use crate::tape::Tape;
use cp_lines::push_line;
use cp_relay::{Cause, JudgedCall, Rules, Visitor};
use cp_rpc::MessageView;
use std::alloc::{AllocError, Global};
use std::io::{self, Write};

/// The direction of a message, and its connection's number, from 1 on.
#[derive(Clone, Copy)]
pub(crate) struct RelayedFrom {
    pub number: u64,
    pub comes_back: bool,
}

/// Prints each message that goes as a line, if it is to.
#[derive(Drop)]
pub(crate) struct Watch<'a, W> {
    alloc: Global,
    out: &'a mut W,
    shows: bool,
    /// Whether calls were printed that weren't put out.
    logs: bool,
    /// Whether connections are numbered.
    numbers: bool,
    line: String,
    /// The error of the writer, which fails no more.
    failed: Option<io::Error>,
    place: RelayedFrom,
    pub tape: Tape<'a>,
}

impl<'a, W: Write + Drop> Watch<'a, W> {
    pub(crate) fn new(
        alloc: Global,
        out: &'a mut W,
        shows: bool,
        numbers: bool,
        tape: Tape<'a>,
    ) -> Watch<'a, W> {
        Watch {
            alloc,
            out,
            shows,
            logs: false,
            numbers,
            line: String::new(alloc),
            failed: None,
            place: RelayedFrom {
                number: 0,
                comes_back: false,
            },
            tape,
        }
    }

    /// Whether connections are numbered.
    pub(crate) fn numbers(&self) -> bool {
        self.numbers
    }

    /// The next messages go there.
    pub(crate) fn turn_to(&mut self, place: RelayedFrom) {
        self.place = place;
    }

    /// Puts out what was printed, or gives the error of the writer.
    pub(crate) fn end_round(&mut self) -> io::Result<()> {
        if let Some(error) = self.failed.take() {
            return Err(error);
        }
        if self.shows || self.logs {
            self.out.flush()?;
        }
        Ok(())
    }

    /// Prints a call, by its name, with what became of it.
    pub(crate) fn log(&mut self, rules: &Rules, call: &JudgedCall) {
        if self.failed.is_none() {
            self.logs = true;
            if let Err(error) = self.log_line(rules, call) {
                self.failed = Some(error);
            }
        }
    }

    /// Prints the line of a call.
    fn log_line(&mut self, rules: &Rules, call: &JudgedCall) -> io::Result<()> {
        if self.numbers {
            write!(self.out, "{} ", self.place.number)?;
        }
        let (question, name) = (call.question, rules.name_of(call.method));
        let became = match call.cause {
            None => "goes",
            Some(Cause::NotAllowed { .. }) => "is not allowed",
            Some(Cause::TooMany) => "is one too many",
            Some(Cause::TooFast) => "is one too many in this second",
        };
        writeln!(self.out, "> call q={question} {name} {became}")
    }

    /// The message's line, with its place before it.
    fn make_line(&mut self, message: &MessageView) -> Result<(), AllocError> {
        let RelayedFrom { number, comes_back } = self.place;
        let line = &mut self.line;
        line.clear();
        if self.numbers {
            write!(line, "{number} ")?;
        }
        write!(line, "{} ", arrow(comes_back))?;
        push_line(self.alloc, line, message)
    }
}

impl<'a, W: Write + Drop> Visitor for Watch<'a, W> {
    fn visit(&mut self, message: &MessageView) -> Result<bool, AllocError> {
        if self.shows && self.failed.is_none() {
            self.make_line(message)?;
            if let Err(error) = self.out.write_all(self.line.as_bytes()) {
                self.failed = Some(error);
            }
        }
        // A line that can't be printed stops no message; the round ends with its error.
        Ok(true)
    }
}
