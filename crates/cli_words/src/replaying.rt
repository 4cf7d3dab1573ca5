//! The words of `replay`.

use crate::arguments::{
    Argument, ArgumentForm, NESTING, PACKED, TRAVERSAL, Words, limits_of, mode_of,
};
use crate::connections::{ADDRESS, SCHEMA, TIMEOUT};
use clap::ArgMatches;
use cp_commands::{CallPlan, ReplayPlan, Task};
use cp_schema::Notation;

/// The recording that is made again.
const RECORDING: Argument = Argument {
    name: "DIR/N",
    form: ArgumentForm::Place,
    help: "The folder of a recording of relay --record",
};

/// The words of `replay`.
pub(crate) const REPLAY: Words = Words {
    name: "replay",
    about: "Make the calls of a recording again to ADDRESS, and print what comes otherwise",
    after_help: "An outcome that differs is two lines: after - as it was recorded, after + as it came.\n\
         A capability is named by the question in whose results it came first, so numbers don't matter.\n\
         In place of the recorded client's own objects null is sent.\n\
         \n\
         Exit status:\n\
         \x20 0  every outcome came as it was recorded\n\
         \x20 1  one came otherwise, or the peer aborted or broke the protocol; standard error says why\n\
         \x20 2  the command line is wrong, or the recording or the connection failed\n\
         \n\
         Example:\n\
         \x20 capnp_cli replay --schema store.request seen/1 127.0.0.1:7000",
};

/// The arguments of `replay`.
pub(crate) static REPLAY_ARGUMENTS: [Argument; 7] = [
    SCHEMA, PACKED, NESTING, TRAVERSAL, TIMEOUT, RECORDING, ADDRESS,
];

/// What the words of `replay` ask for.
pub(crate) fn replay_of<'a, 'b>(matches: &'b ArgMatches<'a>) -> Option<Task<'a, 'b>> {
    Some(Task::Replay(ReplayPlan {
        path: matches.get_str("DIR/N")?,
        call: CallPlan {
            mode: mode_of(matches),
            limits: limits_of(matches)?,
            shows_messages: false,
            timeout: matches.get_one::<u32>("timeout"),
            request: matches.get_str("schema"),
            notation: Notation::Text,
            address: matches.get_str("ADDRESS")?,
            calls: &[],
        },
    }))
}
