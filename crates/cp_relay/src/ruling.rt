//! What becomes of a message.

ghost use Rattle.std.specs.Prelude.{◌≡◌};
ghost use Rattle.cp_relay.specs.Guard.{breach_in};
ghost use Rattle.cp_relay.specs.Judged.{goes};

use cp_rpc::Message;
use std::fmt;

/// Why a question is refused.
#[derive(Clone, Copy, PartialEq, Eq, Debug)]
pub enum Cause {
    /// The rules don't allow a call of this method of this interface.
    NotAllowed { interface: u64, method: u16 },
    /// As many questions as may be are under way.
    TooMany,
    /// As many questions as may be came in this second.
    TooFast,
}

/// Why a connection is closed.
#[derive(Clone, Copy, PartialEq, Eq, Debug)]
pub enum Breach {
    /// A question is refused, and the rules are strict.
    Refused(Cause),
    /// Too many questions were refused and aren't finished.
    Unfinished,
    /// The number of a question is used again before its Finish.
    Reused(u32),
    /// A Disembargo goes to what was promised by a question that was refused.
    Disembargoed(u32),
    /// A question that was refused was answered by the callee.
    Answered(u32),
    /// A Return came to a question that isn't open. This and the next are told where a rule is on what calls gave.
    Unasked(u32),
    /// An end doesn't know a message of the other, which may have given it a reference.
    Unimplemented,
    /// More references were given than are kept of an end.
    Full,
}

/// What becomes of a message.
#[derive(Drop)]
pub enum Ruling {
    /// It goes as it came.
    Passes,
    /// This one goes in its place.
    Changes(Message),
    /// It doesn't go, and its sender gets this answer.
    Answers(Message),
    /// It doesn't go.
    Drops,
    /// It doesn't go, and nor does any later one.
    Closes(Breach),
}

impl Ruling {
    /// Whether a message goes, as it came or another in its place.
    pub(crate) fn goes(&self) -> bool
        ensures { result ≡ goes self.now }
    {
        match self {
            Ruling::Passes => true,
            Ruling::Changes(_) => true,
            Ruling::Answers(_) => false,
            Ruling::Drops => false,
            Ruling::Closes(_) => false,
        }
    }

    /// Why the connection is closed, if it is.
    pub(crate) fn breach(&self) -> Option<Breach>
        ensures { result ≡ breach_in self.now }
    {
        match self {
            Ruling::Passes => None,
            Ruling::Changes(_) => None,
            Ruling::Answers(_) => None,
            Ruling::Drops => None,
            Ruling::Closes(breach) => Some(*breach),
        }
    }
}

impl fmt::Display for Breach {
    fn fmt<W: fmt::Write>(&self, f: &mut fmt::Formatter<W>) -> fmt::Result {
        match self {
            Breach::Refused(cause) => cause.fmt(f),
            Breach::Unfinished => f.write_str("too many refused questions without a Finish"),
            Breach::Reused(question) => {
                write!(f, "question {question} is used again before its Finish")
            }
            Breach::Disembargoed(question) => {
                write!(f, "a Disembargo to question {question}, which was refused")
            }
            Breach::Answered(question) => {
                write!(f, "a Return to question {question}, which was refused")
            }
            Breach::Unasked(question) => {
                write!(f, "a Return to question {question}, which isn't open")
            }
            Breach::Unimplemented => f.write_str("an Unimplemented message"),
            Breach::Full => f.write_str("too many references"),
        }
    }
}

impl fmt::Display for Cause {
    fn fmt<W: fmt::Write>(&self, f: &mut fmt::Formatter<W>) -> fmt::Result {
        match self {
            Cause::NotAllowed { interface, method } => {
                write!(f, "not allowed: i={interface:016x} m={method}")
            }
            Cause::TooMany => f.write_str("too many calls"),
            Cause::TooFast => f.write_str("too many calls a second"),
        }
    }
}
