//! The lines of a recording's times.

use crate::side::Side;
use cp_frame::Mode;
use std::fmt;

/// A line of a recording's times.
#[derive(Clone, Copy)]
pub enum TimesLine {
    /// The forms of both streams, and when the connection came, in microseconds since 1970.
    Began { client: Mode, server: Mode, at: u64 },
    /// All before byte `end` of an end's stream had gone on by a time, in microseconds since the connection came.
    Passed { side: Side, time: u64, end: u64 },
    /// When the connection ended.
    Ended { time: u64 },
}

impl TimesLine {
    /// The line that a text is, if it is one.
    pub fn read(text: &str) -> Option<TimesLine> {
        let mut words = text.split(' ');
        let line = match words.next()? {
            "client" => {
                let client = mode_of(words.next()?)?;
                let _ = expected(words.next()?, "server")?;
                let server = mode_of(words.next()?)?;
                let _ = expected(words.next()?, "began")?;
                let at = number_of(words.next()?)?;
                TimesLine::Began { client, server, at }
            }
            "end" => TimesLine::Ended {
                time: number_of(words.next()?)?,
            },
            arrow => TimesLine::Passed {
                side: side_of(arrow)?,
                time: number_of(words.next()?)?,
                end: number_of(words.next()?)?,
            },
        };
        if words.next().is_some() {
            None
        } else {
            Some(line)
        }
    }
}

impl fmt::Display for TimesLine {
    fn fmt<W: fmt::Write>(&self, f: &mut fmt::Formatter<W>) -> fmt::Result {
        match self {
            TimesLine::Began { client, server, at } => {
                let (client, server) = (word_of(*client), word_of(*server));
                write!(f, "client {client} server {server} began {at}")
            }
            TimesLine::Passed { side, time, end } => write!(f, "{} {time} {end}", side.arrow()),
            TimesLine::Ended { time } => write!(f, "end {time}"),
        }
    }
}

/// The word of a form.
fn word_of(mode: Mode) -> &'static str {
    match mode {
        Mode::Plain => "plain",
        Mode::Packed => "packed",
    }
}

/// The form that a word names.
fn mode_of(word: &str) -> Option<Mode> {
    match word {
        "plain" => Some(Mode::Plain),
        "packed" => Some(Mode::Packed),
        _ => None,
    }
}

/// The end whose mark a word is.
fn side_of(word: &str) -> Option<Side> {
    match word {
        ">" => Some(Side::Client),
        "<" => Some(Side::Server),
        _ => None,
    }
}

/// A number in decimal digits.
fn number_of(word: &str) -> Option<u64> {
    word.parse::<u64>().ok()
}

/// Something, if a word is this one.
fn expected(word: &str, wanted: &str) -> Option<()> {
    if word == wanted { Some(()) } else { None }
}
