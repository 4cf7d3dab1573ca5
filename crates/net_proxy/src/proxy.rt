//! The connections that are relayed at once.

ghost use Rattle.std.specs.Prelude.{◌<◌, IsTrue};
ghost use Rattle.net_sockets.specs.Incoming.{came_of, count_of};

use crate::direction::DirectionEnd;
use crate::figures::{PairFigures, RelayFigures};
use crate::pair::{Pair, PairEnd, PairTurn};
use crate::plan::RelayPlan;
use crate::tape::Tape;
use crate::target::Target;
use crate::watch::Watch;
use cp_commands::{ACCEPTED, FIGURES_EVERY};
use cp_relay::{Breach, Cause, MethodId};
use net_sockets::{Incoming, NonblockingStream, Readiness};
use slab::Slab;
use std::alloc::{AllocGlobal, Global};
use std::fs::{File, Files};
use std::io::{self, Write};
use std::mem;
use std::net::Net;
use std::time::{Clock, Duration, Instant};

/// The most connections that are relayed at once: two descriptors each, below the 1,024 that most systems let a process have.
const MOST_PAIRS: usize = 480;

/// The most that are relayed at once where they are recorded, with three files more each.
const MOST_RECORDED: usize = 192;

/// The most capacity that is kept for the next long frame.
const MOST_SPARE: usize = 4_194_304;

/// The milliseconds of the longest wait while a guard counts seconds.
const SECOND: u64 = 250;

/// The connections that came, each with the one that was made for it.
pub(crate) struct Proxy<'a, 'p, 'r> {
    alloc: Global,
    plan: &'p RelayPlan<'r>,
    readiness: Readiness,
    incoming: Incoming,
    target: Target<'a>,
    pairs: Slab<Pair<'r>>,
    /// A buffer without bytes, for the next long frame.
    spare: Vec<u8>,
    start: Instant,
    /// The second, from the start on, that guards count.
    second: u64,
    status: u8,
    figures: RelayFigures<'r>,
}

// Not derived: who lets one go calls this function, and need not prove the drop of all that it holds.
impl<'a, 'p, 'r> Drop for Proxy<'a, 'p, 'r> {
    fn drop(self) {
        let Proxy {
            alloc: _,
            plan: _,
            readiness: _,
            incoming: _,
            target: _,
            pairs: _,
            spare: _,
            start: _,
            second: _,
            status: _,
            figures: _,
        } = self;
    }
}

impl<'a, 'p, 'r> Proxy<'a, 'p, 'r> {
    /// A proxy to which no connection has come.
    pub(crate) fn new<N: Net + Clock + AllocGlobal>(
        rt: &N,
        plan: &'p RelayPlan<'r>,
        mut incoming: Incoming,
        target: Target<'a>,
    ) -> io::Result<Proxy<'a, 'p, 'r>> {
        let start = Instant::now(rt)?;
        let readiness = Readiness::new(rt, &mut incoming)?;
        let alloc = rt.alloc();
        Ok(Proxy {
            alloc,
            plan,
            readiness,
            incoming,
            target,
            pairs: Slab::new(alloc),
            spare: Vec::new(alloc),
            start,
            second: 0,
            status: ACCEPTED,
            figures: RelayFigures::new(plan.figures),
        })
    }

    /// Relays until the last connection has ended, and gives the status.
    pub(crate) fn run<N, W: Write + Drop, E: Write>(
        &mut self,
        rt: &N,
        watch: &mut Watch<W>,
        err: &mut E,
    ) -> io::Result<u8>
    where
        N: Net + Clock + Files<File = File> + AllocGlobal,
    {
        // The first numbers are there at once.
        self.tell(rt, err);
        for _ in 0..u64::MAX {
            if self.incoming.is_full() && self.pairs.is_empty() {
                break;
            }
            self.round(rt, watch, err)?;
        }
        self.tell(rt, err);
        Ok(self.status)
    }

    /// Waits for events, takes connections, and gives each pair that can go on a turn.
    fn round<N, W: Write + Drop, E: Write>(
        &mut self,
        rt: &N,
        watch: &mut Watch<W>,
        err: &mut E,
    ) -> io::Result<()>
    where
        N: Net + Clock + Files<File = File> + AllocGlobal,
    {
        let wait = self.wait();
        let has_event = self.readiness.wait(wait, &mut self.pairs)?;
        if self.plan.guard.is_some() {
            self.pass_seconds(rt)?;
        }
        self.incoming.begin_round(has_event);
        self.accept(rt, watch, err);
        for _ in 0..self.readiness.queue.len() {
            if let Some(key) = self.readiness.queue.pop_front() {
                watch.tape.tick(rt)?;
                self.turn(key, watch, err)?;
            }
        }
        if let Some(fault) = watch.tape.take_fault() {
            let _ = writeln!(err, "recording ended: {fault}");
        }
        let start = self.start;
        if self.figures.is_due(rt, start)? {
            self.tell(rt, err);
        }
        watch.end_round()
    }

    /// Writes what was relayed, if it is to be.
    fn tell<N: Files + AllocGlobal, E: Write>(&mut self, rt: &N, err: &mut E) {
        let mut open = PairFigures::none();
        for entry in &self.pairs {
            let (_, pair) = entry;
            open = open.and(pair.figures());
        }
        let count = self.pairs.len();
        self.figures.tell(rt, count, open, err);
    }

    /// How long the next wait may take: no time while a pair can go on or a connection can be taken.
    fn wait(&self) -> Option<Duration> {
        if !self.readiness.queue.is_empty() || self.incoming.has_burst() || self.can_accept() {
            return Some(Duration::from_millis(0));
        }
        if let Some(again) = self.incoming.retry_after() {
            Some(Duration::from_millis(again))
        } else if self.plan.guard.is_some() && !self.pairs.is_empty() {
            Some(Duration::from_millis(SECOND))
        } else if self.figures.is_told() {
            Some(Duration::from_millis(FIGURES_EVERY))
        } else {
            None
        }
    }

    /// Has guards count anew, where a second has passed.
    fn pass_seconds<N: Clock>(&mut self, rt: &N) -> io::Result<()> {
        let second = Instant::now(rt)?.duration_since(self.start).as_secs();
        if second == self.second {
            return Ok(());
        }
        self.second = second;
        // No key is greater, as no more pairs are there at once.
        for key in 0..MOST_PAIRS {
            let enters = match self.pairs.get_mut(key) {
                Some(pair) => pair.pass_second(),
                None => false,
            };
            if enters {
                self.readiness.queue.push_back(key)?;
            }
        }
        Ok(())
    }

    /// Whether a connection may be waiting, and can be relayed.
    fn can_accept(&self) -> bool
        ensures { IsTrue result → came_of self.now.incoming < count_of self.now.incoming }
    {
        self.incoming.may_accept() && self.pairs.len() < self.most_pairs()
    }

    /// The most connections at once.
    fn most_pairs(&self) -> usize {
        if self.plan.record.is_some() {
            MOST_RECORDED
        } else {
            MOST_PAIRS
        }
    }

    /// Takes the connections that wait.
    fn accept<N, W: Write + Drop, E: Write>(&mut self, rt: &N, watch: &mut Watch<W>, err: &mut E)
    where
        N: Net + Clock + Files<File = File> + AllocGlobal,
    {
        for _ in 0..u64::MAX {
            if !self.can_accept() {
                break;
            }
            let Some((near, _)) = self.incoming.accept() else {
                continue;
            };
            let number = self.incoming.admit();
            self.figures.note_came();
            if let Err(error) = self.admit(rt, near, number, &mut watch.tape) {
                // A target that can't be reached counts as one that failed.
                let end = DirectionEnd::Unwritten(error);
                let comes_back = false;
                self.report(watch, err, number, PairEnd { end, comes_back });
            }
        }
    }

    /// Makes the pair of a connection. Where this fails both its streams are closed.
    fn admit<N>(
        &mut self,
        rt: &N,
        near: NonblockingStream,
        number: u64,
        tape: &mut Tape,
    ) -> io::Result<()>
    where
        N: Net + Clock + Files<File = File> + AllocGlobal,
    {
        let far = match self.target.connect(rt) {
            Ok(far) => far,
            Err(error) => {
                drop(near);
                return Err(error);
            }
        };
        let mut pair = Pair::new(self.alloc, self.plan, near, far, number)?;
        let key = self.pairs.vacant_key();
        let watched = pair.watch(&self.readiness, key);
        if watched.is_err() {
            drop(pair);
            return watched;
        }
        pair.tape = tape.begin(rt, number);
        self.pairs.insert(pair)?;
        Ok(())
    }

    /// Gives a pair a turn.
    fn turn<W: Write + Drop, E: Write>(
        &mut self,
        key: usize,
        watch: &mut Watch<W>,
        err: &mut E,
    ) -> io::Result<()> {
        let Some(pair) = self.pairs.get_mut(key) else {
            return Ok(());
        };
        let number = pair.number();
        match pair.turn(watch, &mut self.spare) {
            PairTurn::More => self.readiness.queue.push_back(key)?,
            PairTurn::Waits => (),
            PairTurn::Ends(ended) => {
                self.close(key, &mut watch.tape);
                self.report(watch, err, number, ended);
            }
        }
        if self.spare.capacity() > MOST_SPARE {
            drop(mem::replace(&mut self.spare, Vec::new(self.alloc)));
        }
        Ok(())
    }

    /// Closes both streams of a pair, and its recording.
    fn close(&mut self, key: usize, tape: &mut Tape) {
        if let Some(mut pair) = self.pairs.try_remove(key) {
            tape.end(pair.tape.take());
            self.figures.note_gone(pair.figures());
            drop(pair);
        }
    }

    /// Says how a connection ended, where it didn't end well.
    fn report<W: Write + Drop, E: Write>(
        &mut self,
        watch: &Watch<W>,
        err: &mut E,
        number: u64,
        ended: PairEnd,
    ) {
        self.figures.note_end(&ended);
        let status = ended.status();
        if self.status == ACCEPTED {
            self.status = status;
        }
        if status != ACCEPTED {
            if watch.numbers() {
                let _ = write!(err, "{number}: ");
            }
            let _ = write!(err, "{ended}");
            if let Some(name) = self.method_of(&ended) {
                let _ = write!(err, " {name}");
            }
            let _ = writeln!(err);
        }
    }

    /// The name of the method for whose call a guard closed a connection.
    fn method_of(&self, ended: &PairEnd) -> Option<&str> {
        let DirectionEnd::Closed(_, Breach::Refused(cause)) = ended.end else {
            return None;
        };
        let Cause::NotAllowed { interface, method } = cause else {
            return None;
        };
        let guard = self.plan.guard?;
        Some(guard.rules.name_of(MethodId { interface, method }))
    }
}
