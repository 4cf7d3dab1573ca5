//! What is recorded of the connections.

use cp_commands::{RecordPlan, RelayForm};
use cp_frame::Mode;
use cp_recordings::{RecordFault, Recorder, Side, TimesLine};
use std::alloc::{AllocGlobal, Global};
use std::fs::{self, File, Files};
use std::time::{Clock, Duration, Instant, SystemTime, UNIX_EPOCH};
use std::{io, mem};

/// What a connection counts of the bytes that may be recorded, for the folder and the files that are made for it.
const FOLDER: u64 = 16_384;

/// The recording of a connection, and when that came.
pub(crate) struct PairTape {
    recorder: Recorder<File>,
    start: Instant,
}

// Not derived: who lets one go calls this function, and need not prove the drop of what it holds.
impl Drop for PairTape {
    fn drop(self) {
        let PairTape {
            recorder: _,
            start: _,
        } = self;
    }
}

/// Where connections are recorded, and the recording of the one whose turn it is.
pub(crate) struct Tape<'p> {
    alloc: Global,
    /// None where nothing is recorded, or nothing more.
    plan: Option<RecordPlan<'p>>,
    /// The forms in which frames go on.
    client: Mode,
    server: Mode,
    /// How many bytes may still be written.
    left: u64,
    now: Instant,
    turn: Option<PairTape>,
    /// Why nothing more is recorded, until it is told.
    fault: Option<RecordFault>,
}

// Not derived: who lets one go calls this function, and need not prove the drop of what it holds.
impl<'p> Drop for Tape<'p> {
    fn drop(self) {
        let Tape {
            alloc: _,
            plan: _,
            client: _,
            server: _,
            left: _,
            now: _,
            turn: _,
            fault: _,
        } = self;
    }
}

impl<'p> Tape<'p> {
    /// Nothing recorded so far by a plan, if there is one.
    pub(crate) fn new<N: Clock + AllocGlobal>(
        rt: &N,
        plan: Option<RecordPlan<'p>>,
        form: &RelayForm,
    ) -> io::Result<Tape<'p>> {
        let left = match plan {
            Some(plan) => plan.most as u64,
            None => 0,
        };
        Ok(Tape {
            alloc: rt.alloc(),
            plan,
            client: form.far,
            server: form.near,
            left,
            now: Instant::now(rt)?,
            turn: None,
            fault: None,
        })
    }

    /// Whether connections are recorded.
    pub(crate) fn is_on(&self) -> bool {
        self.plan.is_some()
    }

    /// Notes the time, if it matters.
    pub(crate) fn tick<N: Clock>(&mut self, rt: &N) -> io::Result<()> {
        if self.is_on() {
            self.now = Instant::now(rt)?;
        }
        Ok(())
    }

    /// Begins the recording of a connection, if connections are recorded.
    pub(crate) fn begin<N>(&mut self, rt: &N, number: u64) -> Option<PairTape>
    where
        N: Files<File = File> + Clock + AllocGlobal,
    {
        let plan = self.plan?;
        match self.made(rt, plan.path, number) {
            Ok(tape) => Some(tape),
            Err(fault) => {
                self.stop(fault);
                None
            }
        }
    }

    /// Takes the recording of the connection whose turn it is, or gives it back.
    pub(crate) fn change(&mut self, turn: &mut Option<PairTape>) {
        mem::swap(&mut self.turn, turn);
    }

    /// Records frames of the connection whose turn it is, which go to the target or come back.
    pub(crate) fn record(&mut self, comes_back: bool, frames: &[u8]) {
        let Some(tape) = &mut self.turn else {
            return;
        };
        let time = micros(self.now.duration_since(tape.start));
        let side = if comes_back {
            Side::Server
        } else {
            Side::Client
        };
        let recorded = if self.plan.is_some() {
            tape.recorder.record(&mut self.left, side, time, frames)
        } else {
            Ok(())
        };
        if let Err(fault) = recorded {
            self.stop(fault);
        }
    }

    /// Ends the recording of a connection that has ended.
    pub(crate) fn end(&mut self, tape: Option<PairTape>) {
        let Some(mut tape) = tape else {
            return;
        };
        if !self.is_on() {
            drop(tape);
            return;
        }
        let time = micros(self.now.duration_since(tape.start));
        let ended = tape
            .recorder
            .note(&mut self.left, TimesLine::Ended { time });
        drop(tape);
        if let Err(fault) = ended {
            self.stop(fault);
        }
    }

    /// Why nothing more is recorded, once.
    pub(crate) fn take_fault(&mut self) -> Option<RecordFault> {
        self.fault.take()
    }

    /// Records nothing more.
    fn stop(&mut self, fault: RecordFault) {
        self.plan = None;
        self.fault = Some(fault);
    }

    /// A recording of the connection of this number, with the first line of its times.
    fn made<N>(&mut self, rt: &N, path: &str, number: u64) -> Result<PairTape, RecordFault>
    where
        N: Files<File = File> + Clock + AllocGlobal,
    {
        if self.left < FOLDER {
            return Err(RecordFault::Bound);
        }
        self.left -= FOLDER;
        let (at, start) = (micros(since_1970(rt)?), Instant::now(rt)?);
        let mut recorder = recorder_at(rt, path, number)?;
        let (client, server) = (self.client, self.server);
        let noted = recorder.note(&mut self.left, TimesLine::Began { client, server, at });
        match noted {
            Ok(()) => Ok(PairTape { recorder, start }),
            Err(fault) => {
                drop(recorder);
                Err(fault)
            }
        }
    }
}

/// A recording in a folder of this number, which is made.
fn recorder_at<N>(rt: &N, path: &str, number: u64) -> io::Result<Recorder<File>>
where
    N: Files<File = File> + AllocGlobal,
{
    let folder = format!(in rt.alloc(); "{path}/{number}")?;
    let made = recorder_in(rt, folder.as_str());
    drop(folder);
    made
}

/// A recording in a folder, which is made.
fn recorder_in<N>(rt: &N, folder: &str) -> io::Result<Recorder<File>>
where
    N: Files<File = File> + AllocGlobal,
{
    fs::create_dir(rt, folder)?;
    let client = file_in(rt, folder, "client.bin")?;
    let server = file_in(rt, folder, "server.bin")?;
    let times = file_in(rt, folder, "times")?;
    Ok(Recorder::new(rt.alloc(), client, server, times))
}

/// A file of a recording, which is made.
fn file_in<N>(rt: &N, folder: &str, name: &str) -> io::Result<File>
where
    N: Files<File = File> + AllocGlobal,
{
    let path = format!(in rt.alloc(); "{folder}/{name}")?;
    let file = File::create_new(rt, path.as_str());
    drop(path);
    file
}

/// The time since 1970; a clock that is set before has none.
fn since_1970<N: Clock>(rt: &N) -> io::Result<Duration> {
    let now = SystemTime::now(rt)?;
    Ok(now.duration_since(UNIX_EPOCH).unwrap_or(Duration::ZERO))
}

/// A time in microseconds.
fn micros(time: Duration) -> u64 {
    time.as_micros().min(u64::MAX as u128) as u64
}
