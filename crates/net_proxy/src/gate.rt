//! What lets the messages of a connection through: a relay for each direction, or filters that share a guard.

use crate::figures::CallFigures;
use crate::read_buffer::PIECE;
use crate::watch::Watch;
use cp_relay::{Breach, Filter, FilterFault, Guard, Relay, RelayCause, RelayFault, Rules};
use cp_stream::Refusal;
use std::alloc::Global;
use std::io::Write;

/// How a connection's caller is guarded.
#[derive(Clone, Copy)]
pub struct GuardPlan<'r> {
    pub rules: &'r Rules,
    /// The most bytes that are read of the caller in a second; further ones wait.
    pub bytes_a_second: u32,
    /// Whether each call is printed, by its name, with what became of it.
    pub logs: bool,
}

/// The guard of a connection, and what goes back to its caller.
pub(crate) struct PairGuard<'r> {
    guard: Guard<'r>,
    plan: GuardPlan<'r>,
    /// The answers to questions that were refused, which wait for what goes back.
    pub answers: Vec<u8>,
    /// How many bytes of the caller may still be read in this second.
    allowance: u32,
    /// What became of its calls.
    pub calls: CallFigures,
}

// Not derived: who lets one go calls this function, and need not prove the drop of what it holds.
impl<'r> Drop for PairGuard<'r> {
    fn drop(self) {
        let PairGuard {
            guard: _,
            plan: _,
            answers: _,
            allowance: _,
            calls: _,
        } = self;
    }
}

/// What lets the messages of a direction through.
#[derive(Drop)]
pub(crate) enum Gate {
    Relay(Relay),
    Filter(Filter),
}

/// Why a gate lets nothing more through.
#[derive(Clone, Copy)]
pub(crate) enum GateFault {
    /// A message is refused.
    Refused(RelayFault),
    /// The guard closes the connection, after this many bytes.
    Closed(u64, Breach),
    /// An answer, or a message in another's place, can't be written.
    Unwritten(Refusal),
    /// The gate of the other direction has stopped.
    Over,
}

impl<'r> PairGuard<'r> {
    /// The guard of a connection on which nothing was sent.
    pub(crate) fn new(alloc: Global, plan: GuardPlan<'r>) -> PairGuard<'r> {
        PairGuard {
            guard: Guard::new(alloc, plan.rules),
            plan,
            answers: Vec::new(alloc),
            allowance: plan.bytes_a_second,
            calls: CallFigures::none(),
        }
    }

    /// A second has passed.
    pub(crate) fn pass_second(&mut self) {
        self.guard.pass_second();
        self.allowance = self.plan.bytes_a_second;
    }

    /// How many bytes of the caller may be read.
    pub(crate) fn allowance(&self) -> usize {
        self.allowance as usize
    }

    /// So many bytes of the caller were read.
    pub(crate) fn charge(&mut self, count: usize) {
        self.allowance = self.allowance.saturating_sub(count.min(PIECE) as u32);
    }

    /// Counts the last message, if it is a call, and prints it if calls are printed.
    fn note<W: Write + Drop>(&mut self, watch: &mut Watch<W>) {
        let Some(call) = self.guard.last_call() else {
            return;
        };
        self.calls.note(call.cause);
        if self.plan.logs {
            watch.log(self.plan.rules, &call);
        }
    }

    /// Why a filter that stopped lets nothing more through.
    fn fault(&self, fault: FilterFault) -> GateFault {
        match fault {
            FilterFault::Stopped(fault) => match (fault.why, self.guard.breach()) {
                (RelayCause::Forbidden, Some(breach)) => GateFault::Closed(fault.at, breach),
                _ => GateFault::Refused(fault),
            },
            FilterFault::Unwritten(refusal) => GateFault::Unwritten(refusal),
            FilterFault::Over => GateFault::Over,
        }
    }
}

impl Gate {
    /// Ends the stream.
    pub(crate) fn finish(&mut self) -> Result<(), RelayFault> {
        match self {
            Gate::Relay(relay) => relay.finish(),
            Gate::Filter(filter) => filter.finish(),
        }
    }

    /// Lets a piece through, up to a frame after which much goes out, and gives how many bytes are left of it.
    pub(crate) fn let_through<W: Write + Drop>(
        &mut self,
        guard: &mut Option<PairGuard>,
        watch: &mut Watch<W>,
        piece: &[u8],
        out: &mut Vec<u8>,
    ) -> Result<usize, GateFault> {
        match self {
            Gate::Relay(relay) => match relayed(relay, watch, piece, out) {
                Ok(left) => Ok(left),
                Err(fault) => Err(GateFault::Refused(fault)),
            },
            Gate::Filter(filter) => match guard {
                Some(guard) => match filtered(filter, guard, watch, piece, out) {
                    Ok(left) => Ok(left),
                    Err(fault) => Err(guard.fault(fault)),
                },
                None => Ok(0),
            },
        }
    }
}

/// Lets a piece through a relay.
fn relayed<W: Write + Drop>(
    relay: &mut Relay,
    watch: &mut Watch<W>,
    piece: &[u8],
    out: &mut Vec<u8>,
) -> Result<usize, RelayFault> {
    let mut left = piece;
    'passing: while !left.is_empty() && out.len() < PIECE {
        let Some(back) = relay.next(watch, left, out)? else {
            return Ok(0);
        };
        left = back;
    }
    Ok(left.len())
}

/// Lets a piece through a filter, up to a message after which many answers wait.
fn filtered<W: Write + Drop>(
    filter: &mut Filter,
    guard: &mut PairGuard,
    watch: &mut Watch<W>,
    piece: &[u8],
    out: &mut Vec<u8>,
) -> Result<usize, FilterFault> {
    let mut left = piece;
    'passing: while !left.is_empty() && out.len() < PIECE && guard.answers.len() < PIECE {
        let Some(back) = filter.next(&mut guard.guard, left, out, &mut guard.answers)? else {
            return Ok(0);
        };
        left = back;
        guard.note(watch);
    }
    Ok(left.len())
}
