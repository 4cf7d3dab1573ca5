//! Writing a recording.

ghost use Rattle.std.specs.Prelude.{◌≡◌, [], OnOk, IfErr};
ghost use Rattle.cp_recordings.specs.declared.side.Side.TheVariants.{Client};
ghost use Rattle.cp_stream.specs.Tap.{bytes_of};
ghost use Rattle.cp_recordings.specs.Recorder.{track_of, IsFresh, RecordsFrames, Stops, Sends, SendsUpTo};

use crate::side::Side;
use crate::times::TimesLine;
use cp_stream::{DeviceError, StreamFault, Tap, write_whole};
use std::alloc::{AllocError, Global};
use std::fmt;
use std::io::{self, ErrorKind, Write};

/// Why a recording ends before its connection.
#[derive(Clone, Copy)]
pub enum RecordFault {
    /// No more bytes may be written.
    Bound,
    /// A file can't be written.
    Device(DeviceError),
    OutOfMemory,
}

impl fmt::Display for RecordFault {
    fn fmt<W: fmt::Write>(&self, f: &mut fmt::Formatter<W>) -> fmt::Result {
        match self {
            RecordFault::Bound => f.write_str("no more bytes may be recorded"),
            RecordFault::Device(error) => write!(f, "device: {error}"),
            RecordFault::OutOfMemory => f.write_str("memory ran out"),
        }
    }
}

impl From<io::Error> for RecordFault {
    fn from(error: io::Error) -> RecordFault {
        RecordFault::Device(DeviceError::from(error))
    }
}

impl From<AllocError> for RecordFault {
    ghost use Rattle.cp_recordings.specs.declared.recorder.RecordFault.TheVariants.{OutOfMemory};

    ghost from_gives = { λ _ fault. fault ≡ OutOfMemory };

    fn from(_: AllocError) -> RecordFault {
        RecordFault::OutOfMemory
    }
}

impl From<StreamFault> for RecordFault {
    ghost use Rattle.cp_recordings.specs.Recorder.{IsDevice};

    ghost from_gives = { λ _ fault. IsDevice fault };

    fn from(fault: StreamFault) -> RecordFault {
        match fault {
            StreamFault::Device(error) => RecordFault::Device(error),
            // What is written as it is isn't refused.
            StreamFault::Refused { .. } => {
                RecordFault::Device(DeviceError::from(ErrorKind::InvalidData))
            }
        }
    }
}

/// The recording of a connection, while it is written.
pub struct Recorder<W> {
    alloc: Global,
    pub(crate) client: Tap<W>,
    pub(crate) server: Tap<W>,
    pub(crate) times: Tap<W>,
}

// Not derived: who lets one go calls this function, and need not prove the drop of what it holds.
impl<W: Drop> Drop for Recorder<W> {
    fn drop(self) {
        let Recorder {
            alloc: _,
            client: _,
            server: _,
            times: _,
        } = self;
    }
}

impl<W: Write + Drop> Recorder<W> {
    /// A recording in three files: the stream of the client, that of the server, and the times.
    pub fn new(alloc: Global, client: W, server: W, times: W) -> Recorder<W>
        ensures { IsFresh result client server times }
    {
        Recorder {
            alloc,
            client: Tap::new(client),
            server: Tap::new(server),
            times: Tap::new(times),
        }
    }

    /// Records frames of an end that went on at a time, in microseconds since the connection came. What is written, a line of the
    /// times too, is taken from `left`, how many bytes may still be written.
    ///
    /// # Errors
    ///
    /// `Bound` where more would be written than may be, and `OutOfMemory`: nothing is written. `Device` where a file can't be
    /// written: a beginning of the frames and of the line may have been.
    pub fn record(
        &mut self,
        left: &mut u64,
        side: Side,
        time: u64,
        frames: &[u8],
    ) -> Result<(), RecordFault>
        ensures recorded { OnOk result (RecordsFrames W.contents self.old self.new side frames.now left.old left.new) }
        ensures stopped { IfErr result (Stops W.contents self.old self.new side frames.now left.old left.new) }
    {
        let end = self.end(side).saturating_add(frames.len() as u64);
        self.put(left, side, frames, TimesLine::Passed { side, time, end })
    }

    /// Adds a line to the times, likewise.
    pub fn note(&mut self, left: &mut u64, line: TimesLine) -> Result<(), RecordFault>
        ensures noted { OnOk result (RecordsFrames W.contents self.old self.new Client [] left.old left.new) }
        ensures stopped { IfErr result (Stops W.contents self.old self.new Client [] left.old left.new) }
    {
        self.put(left, Side::Client, &[], line)
    }

    /// Writes frames of an end, and then a line.
    fn put(
        &mut self,
        left: &mut u64,
        side: Side,
        frames: &[u8],
        line: TimesLine,
    ) -> Result<(), RecordFault>
        ensures recorded { OnOk result (RecordsFrames W.contents self.old self.new side frames.now left.old left.new) }
        ensures stopped { IfErr result (Stops W.contents self.old self.new side frames.now left.old left.new) }
    {
        let line = format!(in self.alloc; "{line}\n")?;
        let written = self.write(left, side, frames, line.as_bytes());
        drop(line);
        written
    }

    /// Writes frames of an end, and then the bytes of a line.
    fn write(
        &mut self,
        left: &mut u64,
        side: Side,
        frames: &[u8],
        line: &[u8],
    ) -> Result<(), RecordFault>
        ensures recorded { OnOk result (RecordsFrames W.contents self.old self.new side frames.now left.old left.new) }
        ensures stopped { IfErr result (Stops W.contents self.old self.new side frames.now left.old left.new) }
    {
        let cost = (frames.len() as u64).saturating_add(line.len() as u64);
        if *left < cost {
            return Err(RecordFault::Bound);
        }
        *left -= cost;
        self.send(side, frames)?;
        write_whole(&mut self.times, line)?;
        Ok(())
    }

    /// Writes frames of an end.
    fn send(&mut self, side: Side, frames: &[u8]) -> Result<(), StreamFault>
        ensures sent { OnOk result (Sends W.contents self.old self.new side frames.now) }
        ensures broken { IfErr result (λ _. SendsUpTo W.contents self.old self.new side frames.now) }
    {
        match side {
            Side::Client => write_whole(&mut self.client, frames),
            Side::Server => write_whole(&mut self.server, frames),
        }
    }

    /// How many bytes of an end were written.
    fn end(&self, side: Side) -> u64
        ensures { result ≡ bytes_of (track_of self.now side) }
    {
        match side {
            Side::Client => self.client.bytes(),
            Side::Server => self.server.bytes(),
        }
    }
}
