//! The words of the commands on a file.

use crate::arguments::{
    Argument, ArgumentForm, FILE, MOST_WORDS, NESTING, NO_PROGRESS, PACKED, PRETTY, TRAVERSAL,
    Words, input_of, limits_of, mode_of, notation_of, printed_notation_of,
};
use crate::sessions::{PICTURE, SESSION, SLOW, TIMES, session_of};
use clap::ArgMatches;
use cp_commands::{EncodePlan, FileTask, InputFile, Plan, STDIN, ShowPlan, Task};

/// The schema by which messages are shown.
const SCHEMA: Argument = Argument {
    name: "schema",
    form: ArgumentForm::Text("REQUEST"),
    help: "Show calls, or with --type messages, by a schema: what `capnp compile -o- X.capnp` prints",
};

/// The struct that each message is.
const TYPE: Argument = Argument {
    name: "type",
    form: ArgumentForm::Beside {
        value: "NAME",
        needs: Some("schema"),
        excludes: None,
    },
    help: "The struct that each message is, as Person or Person.PhoneNumber",
};

/// The messages whose calls are returned from.
const CALLS: Argument = Argument {
    name: "calls",
    form: ArgumentForm::Beside {
        value: "FILE",
        needs: Some("schema"),
        excludes: Some("type"),
    },
    help: "The messages of the other direction: results are shown by the methods that these call",
};

/// Structs as JSON.
const SHOWN_JSON: Argument = Argument {
    name: "json",
    form: ArgumentForm::FlagBeside("type"),
    help: "Print each struct as JSON",
};

/// Objects of JSON in place of texts.
const READ_JSON: Argument = Argument {
    name: "json",
    form: ArgumentForm::Flag,
    help: "The texts are objects of JSON",
};

/// The schema by which texts are read.
const TEXT_SCHEMA: Argument = Argument {
    name: "schema",
    form: ArgumentForm::Needed("REQUEST"),
    help: "The schema of the texts: what `capnp compile -o- X.capnp` prints",
};

/// The struct that each text is.
const TEXT_TYPE: Argument = Argument {
    name: "type",
    form: ArgumentForm::Needed("NAME"),
    help: "The struct that each text is, as Person or Person.PhoneNumber",
};

/// The file of texts.
const TEXTS: Argument = Argument {
    name: "FILE",
    form: ArgumentForm::Last,
    help: "A file of texts, one after another; without it, or with -, standard input",
};

/// The greatest number of words in a segment.
const WORDS: Argument = Argument {
    name: "words",
    form: ArgumentForm::Size("N", MOST_WORDS),
    help: "A segment has at most N words, or one body",
};

/// Only canonical messages.
const ONLY_CANONICAL: Argument = Argument {
    name: "canonical",
    form: ArgumentForm::Flag,
    help: "Refuse a message that isn't canonical",
};

/// Words without a frame.
const FLAT: Argument = Argument {
    name: "flat",
    form: ArgumentForm::Flag,
    help: "Write the words alone, without a segment table and never packed, as one signs and hashes them",
};

/// The words of `show`.
pub(crate) const SHOW: Words = Words {
    name: "show",
    about: "Print each message of FILE as a line",
    after_help: "A message is one of rpc.capnp, or with --type a struct of your schema.\n\
         \n\
         Exit status:\n\
         \x20 0  every message was accepted\n\
         \x20 1  a message was refused; standard error says at which byte, and why\n\
         \x20 2  the command line is wrong, or a file failed\n\
         \n\
         Examples:\n\
         \x20 capnp_cli show calls.bin\n\
         \x20 capnp_cli show --schema addressbook.request --type AddressBook book.bin\n\
         \x20 capnp_cli show --schema addressbook.request --type AddressBook --json book.bin | jq .people\n\
         \x20 capnp_cli show --schema store.request --calls client.bin server.bin\n\
         \x20 capnp_cli show --schema store.request --session seen/1 --times",
};

/// The arguments of `show`.
pub(crate) static SHOW_ARGUMENTS: [Argument; 14] = [
    SCHEMA,
    TYPE,
    CALLS,
    SHOWN_JSON,
    PRETTY,
    SESSION,
    TIMES,
    PICTURE,
    SLOW,
    PACKED,
    NESTING,
    TRAVERSAL,
    NO_PROGRESS,
    FILE,
];

/// The words of `encode`.
pub(crate) const ENCODE: Words = Words {
    name: "encode",
    about: "Write each text of FILE as a message of a struct of your schema",
    after_help: "A text is what `show --schema --type` prints, and what `capnp encode` reads.\n\
         With --json it is an object of JSON, as `show --json` prints it.\n\
         \n\
         Exit status:\n\
         \x20 0  every text was written\n\
         \x20 1  a text was refused; standard error says where, and why\n\
         \x20 2  the command line or JSON is wrong, or a file failed\n\
         \n\
         Examples:\n\
         \x20 echo '(id = 1, name = \"Alice\")' | capnp_cli encode --schema addressbook.request --type Person\n\
         \x20 echo '{\"id\": 1, \"name\": \"Alice\"}' | capnp_cli encode --schema addressbook.request --type Person --json",
};

/// The arguments of `encode`.
pub(crate) static ENCODE_ARGUMENTS: [Argument; 6] = [
    TEXT_SCHEMA,
    TEXT_TYPE,
    READ_JSON,
    PACKED,
    NO_PROGRESS,
    TEXTS,
];

/// The words of `check`.
pub(crate) const CHECK: Words = Words {
    name: "check",
    about: "Print how many messages FILE has, if all are accepted",
    after_help: "Exit status:\n\
         \x20 0  every message was accepted\n\
         \x20 1  a message was refused; standard error says at which byte, and why\n\
         \x20 2  the command line is wrong, or a file failed\n\
         \n\
         Example:\n\
         \x20 capnp_cli check --nesting 32 calls.bin",
};

/// The words of `canonical`.
pub(crate) const CANONICAL: Words = Words {
    name: "canonical",
    about: "Write each message of FILE in its canonical form",
    after_help: "Exit status:\n\
         \x20 0  every message was accepted\n\
         \x20 1  a message was refused; standard error says at which byte, and why\n\
         \x20 2  the command line is wrong, or a file failed\n\
         \n\
         Example:\n\
         \x20 capnp_cli canonical --flat person.bin | sha256sum",
};

/// The arguments of `canonical`.
pub(crate) static CANONICAL_ARGUMENTS: [Argument; 6] = [
    PACKED,
    FLAT,
    NESTING,
    TRAVERSAL,
    NO_PROGRESS,
    FILE,
];

/// The arguments of `check`.
pub(crate) static CHECK_ARGUMENTS: [Argument; 6] = [
    ONLY_CANONICAL,
    PACKED,
    NESTING,
    TRAVERSAL,
    NO_PROGRESS,
    FILE,
];

/// The words of `pack`.
pub(crate) const PACK: Words = Words {
    name: "pack",
    about: "Write the messages of FILE in the packed form",
    after_help: "Exit status:\n\
         \x20 0  every message was accepted\n\
         \x20 1  a message was refused; standard error says at which byte, and why\n\
         \x20 2  the command line is wrong, or a file failed\n\
         \n\
         Example:\n\
         \x20 capnp_cli pack calls.bin > calls.packed",
};

/// The arguments of `pack`.
pub(crate) static PACK_ARGUMENTS: [Argument; 2] = [NO_PROGRESS, FILE];

/// The words of `unpack`.
pub(crate) const UNPACK: Words = Words {
    name: "unpack",
    about: "Write the packed messages of FILE in the plain form",
    after_help: "Exit status:\n\
         \x20 0  every message was accepted\n\
         \x20 1  a message was refused; standard error says at which byte, and why\n\
         \x20 2  the command line is wrong, or a file failed\n\
         \n\
         Example:\n\
         \x20 capnp_cli unpack calls.packed > calls.bin",
};

/// The arguments of `unpack`.
pub(crate) static UNPACK_ARGUMENTS: [Argument; 2] = [NO_PROGRESS, FILE];

/// The words of `recut`.
pub(crate) const RECUT: Words = Words {
    name: "recut",
    about: "Write each message of FILE in segments of at most N words",
    after_help: "Exit status:\n\
         \x20 0  every message was accepted\n\
         \x20 1  a message was refused; standard error says at which byte, and why\n\
         \x20 2  the command line is wrong, or a file failed\n\
         \n\
         Example:\n\
         \x20 capnp_cli recut --words 64 calls.bin > short.bin",
};

/// The arguments of `recut`.
pub(crate) static RECUT_ARGUMENTS: [Argument; 4] = [PACKED, WORDS, NO_PROGRESS, FILE];

/// What the words of `show` ask for.
pub(crate) fn show_of<'a, 'b>(matches: &'b ArgMatches<'a>) -> Option<Task<'a, 'b>> {
    if let Some(task) = session_of(matches) {
        return Some(task);
    }
    let (input, mode) = (input_of(matches)?, mode_of(matches));
    let limits = limits_of(matches)?;
    let Some(request) = matches.get_str("schema") else {
        return Some(Task::OnFile(FileTask::Frames {
            plan: Plan::Show { mode, limits },
            input,
        }));
    };
    Some(Task::OnFile(FileTask::Show(ShowPlan {
        mode,
        limits,
        request,
        name: matches.get_str("type"),
        calls: matches.get_str("calls"),
        notation: printed_notation_of(matches),
        input,
    })))
}

/// What the words of `encode` ask for.
pub(crate) fn encode_of<'a, 'b>(matches: &'b ArgMatches<'a>) -> Option<Task<'a, 'b>> {
    let stdin = InputFile {
        path: STDIN,
        shows_progress: false,
    };
    Some(Task::OnFile(FileTask::Encode(EncodePlan {
        mode: mode_of(matches),
        request: matches.get_str("schema")?,
        name: matches.get_str("type")?,
        notation: notation_of(matches),
        input: input_of(matches).unwrap_or(stdin),
    })))
}

/// What the words of `check` ask for.
pub(crate) fn check_of<'a, 'b>(matches: &'b ArgMatches<'a>) -> Option<Task<'a, 'b>> {
    let (input, mode) = (input_of(matches)?, mode_of(matches));
    let limits = limits_of(matches)?;
    let plan = if matches.get_flag("canonical") {
        Plan::CheckCanonical { mode, limits }
    } else {
        Plan::Check { mode, limits }
    };
    Some(Task::OnFile(FileTask::Frames { plan, input }))
}

/// What the words of `canonical` ask for.
pub(crate) fn canonical_of<'a, 'b>(matches: &'b ArgMatches<'a>) -> Option<Task<'a, 'b>> {
    Some(Task::OnFile(FileTask::Frames {
        plan: Plan::Canonical {
            mode: mode_of(matches),
            limits: limits_of(matches)?,
            is_flat: matches.get_flag("flat"),
        },
        input: input_of(matches)?,
    }))
}

/// What the words of `pack` ask for.
pub(crate) fn pack_of<'a, 'b>(matches: &'b ArgMatches<'a>) -> Option<Task<'a, 'b>> {
    Some(Task::OnFile(FileTask::Frames {
        plan: Plan::Pack,
        input: input_of(matches)?,
    }))
}

/// What the words of `unpack` ask for.
pub(crate) fn unpack_of<'a, 'b>(matches: &'b ArgMatches<'a>) -> Option<Task<'a, 'b>> {
    Some(Task::OnFile(FileTask::Frames {
        plan: Plan::Unpack,
        input: input_of(matches)?,
    }))
}

/// What the words of `recut` ask for.
pub(crate) fn recut_of<'a, 'b>(matches: &'b ArgMatches<'a>) -> Option<Task<'a, 'b>> {
    let (input, mode) = (input_of(matches)?, mode_of(matches));
    let words = matches.get_one::<u32>("words")?;
    Some(Task::OnFile(FileTask::Frames {
        plan: Plan::Recut { mode, words },
        input,
    }))
}
