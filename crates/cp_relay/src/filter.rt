//! One direction of a guarded connection.

ghost use Rattle.std.specs.Prelude.{◌≡◌, [], false, IfErr, OnOk, OnErr, take};
ghost use Rattle.cp_relay.specs.Relay.{StandsFor, EndsWell, new_relay};
ghost use Rattle.cp_stream.specs.Write.{IsPut, IsUnwrittenFor};
ghost use Rattle.cp_relay.specs.Filter.{form_on, GuardsNext, GuardsNone, DoesFrom, IsSameFilter, Fails, FailsFor, IsUnputFor, IfGives, IfGivesNone, EndsBadly};

use crate::fault::RelayFault;
use crate::guard::Guard;
use crate::output::Output;
use crate::relay::Relay;
use crate::ruling::Ruling;
use cp_frame::Mode;
use cp_rpc::Message;
use cp_stream::{Refusal, put_message};
use cp_words::Limits;
use std::alloc::Global;
use std::fmt;

/// Why a filter lets nothing more through.
#[derive(Clone, Copy, Debug)]
pub enum FilterFault {
    /// A message is refused, or memory ran out for it; or the guard closes the connection, where the reason is `Forbidden`.
    Stopped(RelayFault),
    /// An answer, or a message that goes in another's place, can't be written.
    Unwritten(Refusal),
    /// A filter of the same guard has stopped before, this one or the other.
    Over,
}

/// One direction of a guarded connection. It is fed the bytes of a stream, in any pieces, and gives out the frames of the
/// messages that the guard lets go, in order, each once and whole; and answers to the others, which go back. Where it
/// stops, the guard's other filter stops too.
pub struct Filter {
    alloc: Global,
    pub(crate) relay: Relay,
    /// Words that are used again.
    words: Vec<u64>,
    /// The forms of frames that go on, and of those that go back.
    pub(crate) on: Mode,
    pub(crate) back: Mode,
    pub(crate) limits: Limits,
    /// Whether its messages come from the callee.
    pub(crate) comes_back: bool,
}

impl Drop for Filter {
    fn drop(self) {
        let Filter {
            alloc: _,
            relay: _,
            words: _,
            on: _,
            back: _,
            limits: _,
            comes_back: _,
        } = self;
    }
}

impl Filter {
    /// A filter of what comes from one end, in the form `from`, and goes to the other, in the form `to`. Where both are
    /// one, and messages aren't to be written anew, frames go out as they came.
    pub fn new(
        alloc: Global,
        from: Mode,
        output: Output,
        limits: Limits,
        comes_back: bool,
    ) -> Filter
        ensures comes_back { result.comes_back ≡ comes_back }
        ensures limits { result.limits ≡ limits }
        ensures on { result.on ≡ form_on from output }
        ensures back { result.back ≡ from }
        ensures relay { result.relay ≡ new_relay from output limits }
        ensures stands { StandsFor result.relay [] }
    {
        let on = match output {
            Output::AsRead => from,
            Output::Anew(mode) => mode,
        };
        Filter {
            alloc,
            relay: Relay::new(alloc, from, output, limits),
            words: Vec::new(alloc),
            on,
            back: from,
            limits,
            comes_back,
        }
    }

    /// Takes the next piece of the stream up to the end of a frame, and gives what follows it, which comes next. What goes
    /// out for the frame's message is put after what `out` holds, and an answer to it after what `answers` holds. `None`
    /// says that the piece was read to its end.
    ///
    /// # Errors
    ///
    /// Those of `Relay::next`, where `Forbidden` says that the guard closes the connection; and those of writing an
    /// answer or a changed message. Nothing is put out then, and each later call of either filter fails with `Over`.
    pub fn next<'a>(
        &mut self,
        guard: &mut Guard,
        piece: &'a [u8],
        out: &mut Vec<u8>,
        answers: &mut Vec<u8>,
    ) -> Result<Option<&'a [u8]>, FilterFault>
        ensures given { IfGives result (λ rest. GuardsNext guard.old guard.new self.old self.new piece.now rest.now out.old out.new answers.old answers.new) }
        ensures none { IfGivesNone result (GuardsNone guard.old guard.new self.old self.new piece.now out.old out.new answers.old answers.new) }
        ensures stopped { IfErr result (λ fault. Fails fault guard.old guard.new self.old self.new piece.now) }
        ensures goes_on { OnErr result (out.new.items ≡ out.old.items) }
        ensures goes_back { OnErr result (answers.new.items ≡ answers.old.items) }
    {
        if guard.closed {
            return Err(FilterFault::Over);
        }
        match self.pass(guard, piece, out, answers) {
            Ok(next) => Ok(next),
            Err(fault) => {
                guard.closed = true;
                Err(fault)
            }
        }
    }

    /// Ends the stream, as `Relay::finish` does.
    pub fn finish(&mut self) -> Result<(), RelayFault>
        ensures ok { OnOk result (EndsWell self.old.relay self.new.relay) }
        ensures stopped { IfErr result (λ fault. EndsBadly self.old.relay self.new.relay fault) }
        ensures same { self.new.comes_back ≡ self.old.comes_back }
    {
        self.relay.finish()
    }

    /// Takes the next piece of a stream that is open.
    fn pass<'a>(
        &mut self,
        guard: &mut Guard,
        piece: &'a [u8],
        out: &mut Vec<u8>,
        answers: &mut Vec<u8>,
    ) -> Result<Option<&'a [u8]>, FilterFault>
        requires { guard.old.closed ≡ false }
        ensures given { IfGives result (λ rest. GuardsNext guard.old guard.new self.old self.new piece.now rest.now out.old out.new answers.old answers.new) }
        ensures none { IfGivesNone result (GuardsNone guard.old guard.new self.old self.new piece.now out.old out.new answers.old answers.new) }
        ensures stopped { IfErr result (λ fault. FailsFor fault guard.old guard.new self.old self.new piece.now) }
        ensures goes_on { OnErr result (out.new.items ≡ out.old.items) }
        ensures goes_back { OnErr result (answers.new.items ≡ answers.old.items) }
    {
        guard.begin(self.comes_back);
        let start = out.len();
        let back = match self.relay.next(guard, piece, out) {
            Ok(Some(back)) => back,
            Ok(None) => return Ok(None),
            Err(fault) => return Err(FilterFault::Stopped(fault)),
        };
        let ruling = guard.take_ruling();
        match self.follow(ruling, start, out, answers) {
            Ok(()) => Ok(Some(back)),
            Err(refusal) => Err(FilterFault::Unwritten(refusal)),
        }
    }

    /// Does what was judged of the message whose frame stands in `out` from `start` on.
    fn follow(
        &mut self,
        ruling: Ruling,
        start: usize,
        out: &mut Vec<u8>,
        answers: &mut Vec<u8>,
    ) -> Result<(), Refusal>
        ensures followed { OnOk result (DoesFrom self.old ruling start out.old out.new answers.old answers.new) }
        ensures same { IsSameFilter self.old self.new }
        ensures relay { self.new.relay ≡ self.old.relay }
        ensures unput { IfErr result (IsUnputFor self.old.limits ruling) }
        ensures goes_on { OnErr result (out.new.items ≡ take start out.old.items) }
        ensures goes_back { OnErr result (answers.new.items ≡ answers.old.items) }
    {
        if !matches!(ruling, Ruling::Passes) {
            out.truncate(start);
        }
        let (on, back) = (self.on, self.back);
        match ruling {
            Ruling::Passes => Ok(()),
            Ruling::Changes(message) => self.put(out, on, message),
            Ruling::Answers(message) => self.put(answers, back, message),
            Ruling::Drops => Ok(()),
            // None comes here: the guard forbade its message, so the relay stopped.
            Ruling::Closes(_) => Ok(()),
        }
    }

    /// Puts a message's frame in this form after `out`.
    fn put(&mut self, out: &mut Vec<u8>, mode: Mode, message: Message) -> Result<(), Refusal>
        ensures put { OnOk result (IsPut mode self.old.limits self.old.limits.frame_words 1 message out.old.items out.new.items) }
        ensures same { IsSameFilter self.old self.new }
        ensures relay { self.new.relay ≡ self.old.relay }
        ensures unwritten { IfErr result (IsUnwrittenFor self.old.limits self.old.limits.frame_words 1 message) }
        ensures nothing { OnErr result (out.new.items ≡ out.old.items) }
    {
        let put = put_message(
            self.alloc,
            out,
            &mut self.words,
            &message,
            mode,
            self.limits,
        );
        drop(message);
        put
    }
}

impl fmt::Display for FilterFault {
    fn fmt<W: fmt::Write>(&self, f: &mut fmt::Formatter<W>) -> fmt::Result {
        match self {
            FilterFault::Stopped(fault) => fault.fmt(f),
            FilterFault::Unwritten(refusal) => write!(f, "not written: {refusal}"),
            FilterFault::Over => f.write_str("a filter of this connection has stopped"),
        }
    }
}
