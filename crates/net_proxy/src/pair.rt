//! A connection and the one that was made for it.

use crate::direction::{Direction, DirectionEnd, is_reset};
use crate::figures::{CallFigures, PairFigures};
use crate::gate::PairGuard;
use crate::plan::RelayPlan;
use crate::tape::{PairTape, Tape};
use crate::watch::{RelayedFrom, Watch};
use cp_commands::{ACCEPTED, BROKEN, REFUSED};
use cp_frame::FrameFault;
use cp_relay::RelayCause;
use cp_stream::Refusal;
use mio::event::Event;
use net_sockets::{NonblockingStream, Readiness, Watched};
use std::alloc::{AllocError, Global};
use std::fmt;
use std::io::{self, Write};

/// How a connection ended.
#[derive(Clone, Copy)]
pub(crate) struct PairEnd {
    pub end: DirectionEnd,
    /// Of the two directions it is the one that comes from the target.
    pub comes_back: bool,
}

impl PairEnd {
    /// The status that it leads to.
    pub(crate) fn status(&self) -> u8 {
        match self.end {
            DirectionEnd::Well | DirectionEnd::Reset => ACCEPTED,
            DirectionEnd::Refused(_)
            | DirectionEnd::Closed(..)
            | DirectionEnd::Unanswered(_)
            | DirectionEnd::Over => REFUSED,
            DirectionEnd::Unread(_) | DirectionEnd::Unwritten(_) => BROKEN,
        }
    }

    /// Whether the other direction's end is the one to be reported. A stream that couldn't be written to was reset: that
    /// it ends inside a message follows from it, since the failed write took the error that a read would have met.
    fn yields_to(&self, other: &PairEnd) -> bool {
        match self.end {
            DirectionEnd::Well | DirectionEnd::Reset => !other.is_unheard(),
            DirectionEnd::Refused(fault) => {
                fault.why == RelayCause::Refused(Refusal::Frame(FrameFault::Truncated))
                    && matches!(other.end, DirectionEnd::Unwritten(_))
            }
            // The other one's end is why.
            DirectionEnd::Over => true,
            // What the peer had sent was its last, so what it didn't read is nobody's loss.
            DirectionEnd::Unwritten(_) => self.is_unheard() && other.status() == ACCEPTED,
            DirectionEnd::Closed(..) | DirectionEnd::Unanswered(_) | DirectionEnd::Unread(_) => {
                false
            }
        }
    }

    /// Whether the target closed before it had read all.
    fn is_unheard(&self) -> bool {
        match self.end {
            DirectionEnd::Unwritten(error) => is_reset(&error),
            _ => false,
        }
    }

    /// Whether the other direction isn't waited for. Where the target has failed, what had come from it still goes out.
    fn ends_both(&self) -> bool {
        match self.end {
            DirectionEnd::Reset
            | DirectionEnd::Refused(_)
            | DirectionEnd::Closed(..)
            | DirectionEnd::Unanswered(_)
            | DirectionEnd::Unread(_) => true,
            // A server that aborts closes while its client may still be sending: what it sent goes out.
            DirectionEnd::Well | DirectionEnd::Over | DirectionEnd::Unwritten(_) => false,
        }
    }
}

impl fmt::Display for PairEnd {
    fn fmt<W: fmt::Write>(&self, f: &mut fmt::Formatter<W>) -> fmt::Result {
        match self.end {
            DirectionEnd::Well | DirectionEnd::Reset | DirectionEnd::Over => f.write_str("ended")?,
            DirectionEnd::Refused(fault) => write!(f, "{fault}")?,
            DirectionEnd::Closed(at, breach) => write!(f, "refused at byte {at}: {breach}")?,
            DirectionEnd::Unanswered(refusal) => write!(f, "not answered: {refusal}")?,
            DirectionEnd::Unread(error) | DirectionEnd::Unwritten(error) => write!(
                f,
                "device: {error}"
            )?,
        }
        write!(f, " ({})", arrow(self.comes_back))
    }
}

/// The mark of a direction: to the target, or back.
pub(crate) fn arrow(comes_back: bool) -> &'static str {
    if comes_back { "<" } else { ">" }
}

/// What is left to do for a connection.
#[derive(Clone, Copy)]
pub(crate) enum PairTurn {
    /// Something can be done at once.
    More,
    /// Nothing can be done before the next event.
    Waits,
    Ends(PairEnd),
}

/// A connection that was accepted, and the one to the target.
pub(crate) struct Pair<'r> {
    guard: Option<PairGuard<'r>>,
    /// Its recording, if it is recorded; while it has its turn, the watch has that.
    pub tape: Option<PairTape>,
    near: NonblockingStream,
    far: NonblockingStream,
    there: Direction,
    back: Direction,
    /// The target was told that there is no more.
    far_is_shut: bool,
    near_is_shut: bool,
    number: u64,
    /// It is in the queue of those that can go on.
    queued: bool,
}

// Not derived: who lets one go calls this function, and need not prove the drop of what it holds.
impl<'r> Drop for Pair<'r> {
    fn drop(self) {
        let Pair {
            guard: _,
            tape: _,
            near: _,
            far: _,
            there: _,
            back: _,
            far_is_shut: _,
            near_is_shut: _,
            number: _,
            queued: _,
        } = self;
    }
}

impl<'r> Pair<'r> {
    /// A pair of streams, of which nothing was read.
    pub(crate) fn new(
        alloc: Global,
        plan: &RelayPlan<'r>,
        near: NonblockingStream,
        far: NonblockingStream,
        number: u64,
    ) -> Result<Pair<'r>, AllocError> {
        match directions(alloc, plan) {
            Ok((there, back)) => Ok(Pair {
                guard: plan.guard(alloc),
                tape: None,
                near,
                far,
                there,
                back,
                far_is_shut: false,
                near_is_shut: false,
                number,
                queued: false,
            }),
            Err(error) => {
                drop(near);
                drop(far);
                Err(error)
            }
        }
    }

    /// Its number, from 1 on.
    pub(crate) fn number(&self) -> u64 {
        self.number
    }

    /// What went over it.
    pub(crate) fn figures(&self) -> PairFigures {
        PairFigures {
            there: self.there.taken,
            back: self.back.taken,
            calls: match &self.guard {
                Some(guard) => guard.calls,
                None => CallFigures::none(),
            },
        }
    }

    /// Has its streams watched, under this key: the near one is its first.
    pub(crate) fn watch(&mut self, readiness: &Readiness, key: usize) -> io::Result<()> {
        readiness.watch(&mut self.near, key, false)?;
        readiness.watch(&mut self.far, key, true)
    }

    /// Moves some pieces in each direction.
    pub(crate) fn turn<W: Write + Drop>(
        &mut self,
        watch: &mut Watch<W>,
        spare: &mut Vec<u8>,
    ) -> PairTurn {
        watch.tape.change(&mut self.tape);
        watch.turn_to(self.place(false));
        self.there.turn(&mut self.near, &mut self.far, &mut self.guard, watch, spare);
        self.pass_answers_on(&mut watch.tape);
        watch.turn_to(self.place(true));
        self.back.turn(&mut self.far, &mut self.near, &mut self.guard, watch, spare);
        self.pass_answers_on(&mut watch.tape);
        watch.tape.change(&mut self.tape);
        self.pass_ends_on();
        if let Some(ended) = self.ended() {
            return PairTurn::Ends(ended);
        }
        self.queued = self.there.goes_on(&self.near, &self.far, &self.guard)
            || self.back.goes_on(&self.far, &self.near, &self.guard);
        if self.queued {
            PairTurn::More
        } else {
            PairTurn::Waits
        }
    }

    /// A second has passed. Says whether the pair comes into the queue.
    pub(crate) fn pass_second(&mut self) -> bool {
        if let Some(guard) = &mut self.guard {
            guard.pass_second();
        }
        let enters = !self.queued;
        self.queued = true;
        enters
    }

    /// Has the guard's answers go back.
    fn pass_answers_on(&mut self, tape: &mut Tape) {
        if let Some(guard) = &mut self.guard {
            self.back.take_answers(guard, tape);
        }
    }

    /// The place of the messages of a direction.
    fn place(&self, comes_back: bool) -> RelayedFrom {
        RelayedFrom {
            number: self.number,
            comes_back,
        }
    }

    /// Tells each stream that there is no more, once its direction has ended.
    fn pass_ends_on(&mut self) {
        if self.there.end().is_some() && !self.far_is_shut {
            self.far_is_shut = true;
            self.far.shut();
        }
        if self.back.end().is_some() && !self.near_is_shut {
            self.near_is_shut = true;
            self.near.shut();
        }
    }

    /// How the connection ended, once both directions did, or one in a way that ends both.
    fn ended(&self) -> Option<PairEnd> {
        let there = ended_in(&self.there, false);
        let back = ended_in(&self.back, true);
        if let (Some(one), Some(other)) = (there, back) {
            return Some(if one.yields_to(&other) { other } else { one });
        }
        let one = there.or(back)?;
        if one.ends_both() { Some(one) } else { None }
    }
}

impl<'r> Watched for Pair<'r> {
    ghost kept = { λ _. tt };

    ghost is_queued = { λ pair. pair.queued };

    fn mark(&mut self, is_second: bool, event: &Event) -> bool {
        if is_second {
            self.far.mark(event);
        } else {
            self.near.mark(event);
        }
        let enters = !self.queued;
        self.queued = true;
        enters
    }
}

/// Both directions of a pair, of which nothing was read.
fn directions(alloc: Global, plan: &RelayPlan<'_>) -> Result<(Direction, Direction), AllocError> {
    let there = Direction::new(alloc, plan.there(alloc), true)?;
    match Direction::new(alloc, plan.back(alloc), false) {
        Ok(back) => Ok((there, back)),
        Err(error) => {
            drop(there);
            Err(error)
        }
    }
}

/// How a direction ended, if it did.
fn ended_in(direction: &Direction, comes_back: bool) -> Option<PairEnd> {
    let end = direction.end()?;
    Some(PairEnd { end, comes_back })
}
