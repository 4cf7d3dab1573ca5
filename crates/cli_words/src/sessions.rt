//! The words of recordings: those of `relay` that make them, and those of `show` that show one.

use crate::arguments::{Argument, ArgumentForm, NESTING, TRAVERSAL, limits_of};
use clap::ArgMatches;
use cp_commands::{FileTask, RecordPlan, SessionPlan, Task};

/// The most bytes that are recorded, where no number is given: 1 GiB.
const MOST_RECORDED: u32 = 1_073_741_824;

/// The milliseconds from which on an answer is slow, where no number is given.
const SLOW_BY_DEFAULT: u32 = 100;

/// Where connections are recorded.
pub(crate) const RECORD: Argument = Argument {
    name: "record",
    form: ArgumentForm::Text("DIR"),
    help: "Record each connection in a folder of DIR, which is made: show --session DIR/1 shows the first",
};

/// How much is recorded: the folder of one connection at least, which counts 16,384 bytes, and the first line of its times.
pub(crate) const RECORD_MOST: Argument = Argument {
    name: "record-most",
    form: ArgumentForm::NumberBeside {
        value: "BYTES",
        least: 16_448,
        needs: "record",
    },
    help: "Record no more than BYTES in all, 16448 or more, 1073741824 by default",
};

/// The recording that is shown, where it may be left out.
pub(crate) const SESSION: Argument = Argument {
    name: "session",
    form: ArgumentForm::Text("DIR/N"),
    help: "In place of FILE show a recording of relay --record, both directions in the order of time",
};

/// Whether times are shown.
pub(crate) const TIMES: Argument = Argument {
    name: "times",
    form: ArgumentForm::FlagBeside("session"),
    help: "Print when each message went on, and how long each answer took, in milliseconds",
};

/// Whether a picture is drawn.
pub(crate) const PICTURE: Argument = Argument {
    name: "picture",
    form: ArgumentForm::FlagBeside("session"),
    help: "Draw the recording as a sequence diagram, an SVG document, in place of lines",
};

/// From when on an answer is slow.
pub(crate) const SLOW: Argument = Argument {
    name: "slow",
    form: ArgumentForm::Number("MS", 4_294_967_295),
    help: "Mark answers that take MS milliseconds or more in the picture, 100 by default",
};

/// The recording that is shown.
const SHOWN_SESSION: Argument = Argument {
    name: "session",
    form: ArgumentForm::Needed("DIR/N"),
    help: "The folder of a recording of relay --record",
};

/// The schema by which a recording is shown.
const SCHEMA: Argument = Argument {
    name: "schema",
    form: ArgumentForm::Text("REQUEST"),
    help: "Name methods and fields by a schema: what `capnp compile -o- X.capnp` prints",
};

/// The arguments of `show`, where a recording is shown.
pub(crate) static SESSION_ARGUMENTS: [Argument; 7] = [
    SHOWN_SESSION,
    SCHEMA,
    TIMES,
    PICTURE,
    SLOW,
    NESTING,
    TRAVERSAL,
];

/// Whether the words are those of `show` for a recording.
pub(crate) fn shows_session(words: &[String]) -> bool {
    // Then there is no FILE, so these words have arguments of their own.
    let mut shows = false;
    for word in words {
        let word = word.as_str();
        if shows && (word == "--session" || word.starts_with("--session=")) {
            return true;
        }
        shows = shows || word == "show";
    }
    false
}

/// The recording that the words of `show` ask for, if they ask for one.
pub(crate) fn session_of<'a, 'b>(matches: &'b ArgMatches<'a>) -> Option<Task<'a, 'b>> {
    let path = matches.get_str("session")?;
    Some(Task::OnFile(FileTask::Session(SessionPlan {
        limits: limits_of(matches)?,
        request: matches.get_str("schema"),
        has_times: matches.get_flag("times"),
        picture: picture_of(matches),
        path,
    })))
}

/// From when on an answer is slow in the picture that is asked for, if one is.
fn picture_of(matches: &ArgMatches) -> Option<u32> {
    if matches.get_flag("picture") {
        Some(matches.get_one::<u32>("slow").unwrap_or(SLOW_BY_DEFAULT))
    } else {
        None
    }
}

/// How the words of `relay` have connections recorded, if they do.
pub(crate) fn record_of<'a, 'b>(matches: &'b ArgMatches<'a>) -> Option<RecordPlan<'a>> {
    Some(RecordPlan {
        path: matches.get_str("record")?,
        most: matches
            .get_one::<u32>("record-most")
            .unwrap_or(MOST_RECORDED),
    })
}
