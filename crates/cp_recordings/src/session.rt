//! Reading a recording.

use crate::side::Side;
use crate::times::TimesLine;
use cp_frame::{FrameReader, Mode};
use cp_rpc::MessageView;
use cp_stream::{Refusal, view_in};
use cp_words::Limits;
use std::alloc::{AllocError, Global};
use std::fmt;
use std::io::{self, ErrorKind, Read};
use std::str::Lines;

/// How many bytes are asked for at once.
const PIECE: usize = 65_536;

/// When a message went on, in microseconds since the connection came, and which end sent it.
#[derive(Clone, Copy)]
pub struct Moment {
    pub side: Side,
    pub time: u64,
}

/// Who hears the messages of a recording, in the order in which they went on.
pub trait Hears: Drop {
    /// Hears the next message.
    fn hear(&mut self, moment: Moment, message: &MessageView) -> Result<(), SessionFault>;
}

/// How a recording ended.
#[derive(Clone, Copy)]
pub enum Ending {
    /// With its connection, at this time.
    Connection(u64),
    /// Before its connection, after this time.
    Cut(u64),
}

impl Ending {
    /// The last time that is known.
    pub fn time(self) -> u64 {
        match self {
            Ending::Connection(time) => time,
            Ending::Cut(time) => time,
        }
    }
}

/// Why a recording isn't read to its end.
#[derive(Clone, Copy)]
pub enum SessionFault {
    /// This line of the times, from 1 on, isn't one.
    Line(usize),
    /// A message is refused, after this many bytes of its stream.
    Refused(Side, u64, Refusal),
    /// The stream of an end has fewer bytes than the times say.
    Short(Side),
    /// The stream of an end can't be read.
    Unread(Side, io::Error),
    /// What is told can't be written.
    Unwritten(io::Error),
    OutOfMemory,
    /// Who hears the messages hears no more.
    Stopped,
}

impl From<AllocError> for SessionFault {
    fn from(_: AllocError) -> SessionFault {
        SessionFault::OutOfMemory
    }
}

impl From<io::Error> for SessionFault {
    fn from(error: io::Error) -> SessionFault {
        SessionFault::Unwritten(error)
    }
}

impl fmt::Display for SessionFault {
    fn fmt<W: fmt::Write>(&self, f: &mut fmt::Formatter<W>) -> fmt::Result {
        match self {
            SessionFault::Line(number) => write!(
                f,
                "times: line {number} isn't one of a recording"
            ),
            SessionFault::Refused(side, at, refusal) => {
                write!(f, "refused at byte {at}: {refusal} ({})", side.arrow())
            }
            SessionFault::Short(side) => {
                write!(f, "{} has fewer bytes than times says", file_of(*side))
            }
            SessionFault::Unread(side, error) => write!(f, "device: {}: {error}", file_of(*side)),
            SessionFault::Unwritten(error) => write!(f, "device: can't write: {error}"),
            SessionFault::OutOfMemory => f.write_str("memory ran out"),
            SessionFault::Stopped => f.write_str("stopped"),
        }
    }
}

/// The file of an end's stream.
pub(crate) fn file_of(side: Side) -> &'static str {
    match side {
        Side::Client => "client.bin",
        Side::Server => "server.bin",
    }
}

/// The stream of an end, as far as it was read.
#[derive(Drop)]
struct Track<R> {
    from: R,
    frames: FrameReader,
    /// How many bytes were read, and how many of them the messages took.
    read: u64,
    taken: u64,
}

/// A recording that is read.
pub struct Recording<'t, R> {
    limits: Limits,
    piece: Vec<u8>,
    lines: Lines<'t>,
    client: Track<R>,
    server: Track<R>,
    /// When the connection came, in microseconds since 1970.
    pub began: u64,
}

// Not derived: who lets one go calls this function, and need not prove the drop of what it holds.
impl<'t, R: Drop> Drop for Recording<'t, R> {
    fn drop(self) {
        let Recording {
            limits: _,
            piece: _,
            lines: _,
            client: _,
            server: _,
            began: _,
        } = self;
    }
}

impl<'t, R: Read + Drop> Recording<'t, R> {
    /// A recording by its times, and the streams of its ends, none of which was read.
    pub fn new(
        alloc: Global,
        limits: Limits,
        times: &'t str,
        client: R,
        server: R,
    ) -> Result<Recording<'t, R>, SessionFault> {
        let mut lines = times.lines();
        let Some(
            TimesLine::Began {
                client: near,
                server: far,
                at,
            },
        ) = TimesLine::read(lines.next().unwrap_or(""))
        else {
            drop(client);
            drop(server);
            return Err(SessionFault::Line(1));
        };
        let client = Track::new(alloc, limits, near, client);
        let server = Track::new(alloc, limits, far, server);
        match vec![in alloc; 0u8; PIECE] {
            Ok(piece) => Ok(Recording {
                limits,
                piece,
                lines,
                client,
                server,
                began: at,
            }),
            Err(error) => {
                drop(client);
                drop(server);
                Err(SessionFault::from(error))
            }
        }
    }

    /// Reads on to the recording's end. Each message is heard, in the order in which they went on.
    pub fn play<H: Hears>(&mut self, to: &mut H) -> Result<Ending, SessionFault> {
        let (mut last, mut number) = (0u64, 1usize);
        for _ in 0..u64::MAX {
            let Some(line) = self.lines.next() else {
                break;
            };
            number = number.saturating_add(1);
            match TimesLine::read(line) {
                Some(TimesLine::Passed { side, time, end }) => {
                    self.read_to(end, Moment { side, time }, to)?;
                    last = time;
                }
                Some(TimesLine::Ended { time }) => return Ok(Ending::Connection(time)),
                _ => return Err(SessionFault::Line(number)),
            }
        }
        Ok(Ending::Cut(last))
    }

    /// Reads an end's stream up to a byte.
    fn read_to<H: Hears>(
        &mut self,
        end: u64,
        moment: Moment,
        to: &mut H,
    ) -> Result<(), SessionFault> {
        let (limits, piece) = (self.limits, &mut self.piece);
        match moment.side {
            Side::Client => self.client.read_to(end, limits, piece, moment, to),
            Side::Server => self.server.read_to(end, limits, piece, moment, to),
        }
    }
}

impl<R: Read + Drop> Track<R> {
    /// A stream of this form, of which nothing was read.
    fn new(alloc: Global, limits: Limits, mode: Mode, from: R) -> Track<R> {
        Track {
            from,
            frames: FrameReader::new(alloc, mode, limits),
            read: 0,
            taken: 0,
        }
    }

    /// Reads up to a byte, in pieces of a buffer.
    fn read_to<H: Hears>(
        &mut self,
        end: u64,
        limits: Limits,
        piece: &mut [u8],
        moment: Moment,
        to: &mut H,
    ) -> Result<(), SessionFault> {
        for _ in 0..u64::MAX {
            let left = end.saturating_sub(self.read);
            if left == 0 {
                break;
            }
            let most = (left.min(PIECE as u64) as usize).min(piece.len());
            let count = self.read(moment.side, &mut piece[..most])?;
            self.hear(limits, &piece[..count.min(most)], moment, to)?;
        }
        Ok(())
    }

    /// Reads some bytes, and says how many.
    fn read(&mut self, side: Side, piece: &mut [u8]) -> Result<usize, SessionFault> {
        for _ in 0..u64::MAX {
            match self.from.read(piece) {
                Ok(0) => return Err(SessionFault::Short(side)),
                Ok(count) => {
                    self.read = self.read.saturating_add(count as u64);
                    return Ok(count);
                }
                Err(error) if error.kind() == ErrorKind::Interrupted => (),
                Err(error) => return Err(SessionFault::Unread(side, error)),
            }
        }
        Err(SessionFault::Short(side))
    }

    /// Has each message heard that ends in a piece.
    fn hear<H: Hears>(
        &mut self,
        limits: Limits,
        piece: &[u8],
        moment: Moment,
        to: &mut H,
    ) -> Result<(), SessionFault> {
        let (side, mut left) = (moment.side, piece);
        'taking: while !left.is_empty() {
            let (taken, segments, back) = match self.frames.next(left) {
                Ok(Some(next)) => next,
                Ok(None) => break,
                Err(fault) => return Err(self.refused(side, Refusal::from(fault))),
            };
            let heard = match view_in(&segments, limits) {
                Ok(view) => {
                    let heard = to.hear(moment, &view);
                    drop(view);
                    heard
                }
                Err(refusal) => Err(self.refused(side, refusal)),
            };
            self.frames.reuse(segments);
            heard?;
            self.taken = self.taken.saturating_add(taken);
            left = back;
        }
        Ok(())
    }

    /// Why the next message is refused.
    fn refused(&self, side: Side, refusal: Refusal) -> SessionFault {
        SessionFault::Refused(side, self.taken, refusal)
    }
}
