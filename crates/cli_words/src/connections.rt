//! The words of `loop`, `relay` and `call`.

use crate::arguments::{
    Argument, ArgumentForm, COUNT, FILE, MOST_WORDS, NESTING, PACKED, PORT, PRETTY, TRAVERSAL,
    Words, limits_of, mode_of, printed_notation_of,
};
use crate::serving::{FIGURES, LISTEN, address};
use crate::sessions::{RECORD, RECORD_MOST, record_of};
use clap::ArgMatches;
use cp_commands::{CallPlan, Guarding, RelayForm, RelayRoute, RelayTask, Task, TypesPlan};
use cp_frame::Mode;
use cp_words::Limits;
use std::net::SocketAddr;

/// The greatest number of an option.
const MOST: i64 = 4_294_967_295;

/// Whether the target's frames are in the other form.
const OTHER: Argument = Argument {
    name: "other",
    form: ArgumentForm::Flag,
    help: "The frames of HOST:PORT are in the other form, and messages are written anew",
};

/// Messages that are written anew.
const ANEW: Argument = Argument {
    name: "anew",
    form: ArgumentForm::Flag,
    help: "Write each message anew, in one segment",
};

/// Messages that are printed.
const SHOWS: Argument = Argument {
    name: "show",
    form: ArgumentForm::Flag,
    help: "Print each message that goes, after > to HOST:PORT, or < from it",
};

/// The limit on the words of a frame.
const FRAME_WORDS: Argument = Argument {
    name: "words",
    form: ArgumentForm::Number("N", MOST_WORDS),
    help: "A frame may have N words, 8388608 by default, and no more are gone over",
};

/// Where connections are relayed to.
const TARGET: Argument = Argument {
    name: "HOST:PORT",
    form: ArgumentForm::Place,
    help: "A name or an address, and a port; or the path of a Unix socket, with a slash or after unix:",
};

/// The names by which a relay guards.
const GUARD_SCHEMA: Argument = Argument {
    name: "schema",
    form: ArgumentForm::Text("REQUEST"),
    help: "Guard HOST:PORT, with the names of the schema in REQUEST, a file of capnp compile -o-",
};

/// The methods that alone may be called.
const ALLOW: Argument = Argument {
    name: "allow",
    form: ArgumentForm::Each {
        value: "METHOD",
        needs: Some("schema"),
        excludes: Some("deny"),
    },
    help: "Let calls of METHOD through, as Store.get, and of no method without such a rule; METHOD -> GIVEN lets GIVEN be called on what they gave",
};

/// The methods that may not be called.
const DENY: Argument = Argument {
    name: "deny",
    form: ArgumentForm::Each {
        value: "METHOD",
        needs: Some("schema"),
        excludes: None,
    },
    help: "Let no call of METHOD through",
};

/// The file of rules.
const RULES: Argument = Argument {
    name: "rules",
    form: ArgumentForm::Beside {
        value: "FILE",
        needs: Some("schema"),
        excludes: None,
    },
    help: "More rules, a line each: allow METHOD, allow METHOD -> GIVEN, or deny METHOD",
};

/// Whether a refusal closes the connection.
const STRICT: Argument = Argument {
    name: "strict",
    form: ArgumentForm::Flag,
    help: "Close the connection of a call that isn't let through, in place of an exception",
};

/// Whether calls are printed.
const LOG: Argument = Argument {
    name: "log",
    form: ArgumentForm::FlagBeside("schema"),
    help: "Print each call by its name, with what became of it",
};

/// The calls under way.
const CALLS_UNDER_WAY: Argument = Argument {
    name: "calls",
    form: ArgumentForm::Number("N", MOST),
    help: "Let N calls of a connection be under way; one more fails as overloaded",
};

/// The calls a second.
const CALLS_A_SECOND: Argument = Argument {
    name: "rate",
    form: ArgumentForm::Number("N", MOST),
    help: "Let N calls a second through; one more fails as overloaded",
};

/// The bytes a second.
const BYTES_A_SECOND: Argument = Argument {
    name: "bytes",
    form: ArgumentForm::Number("N", MOST),
    help: "Read N bytes a second of a connection; further ones wait",
};

/// Whether messages are printed.
const MESSAGES: Argument = Argument {
    name: "messages",
    form: ArgumentForm::Flag,
    help: "Print each message that is sent, after >, and that comes, after <",
};

/// How long nothing may come.
pub(crate) const TIMEOUT: Argument = Argument {
    name: "timeout",
    form: ArgumentForm::Number("SECONDS", 86_400),
    help: "Give up where nothing comes for so long; without it there is no end",
};

/// The schema by which calls are named.
pub(crate) const SCHEMA: Argument = Argument {
    name: "schema",
    form: ArgumentForm::Text("REQUEST"),
    help: "Name methods and fields by a schema: what `capnp compile -o- X.capnp` prints",
};

/// Params and results as JSON.
const JSON: Argument = Argument {
    name: "json",
    form: ArgumentForm::FlagBeside("schema"),
    help: "Params and results are JSON; what a call without results came to is a string",
};

/// The schema whose types are asked for.
const ASKED_SCHEMA: Argument = Argument {
    name: "schema",
    form: ArgumentForm::Needed("REQUEST"),
    help: "The schema: what `capnp compile -o- X.capnp` prints",
};

/// Whether methods are asked for.
const LIST: Argument = Argument {
    name: "list",
    form: ArgumentForm::Flag,
    help: "Print the interfaces of the schema and their methods, and call nothing",
};

/// The type that is asked for.
const DESCRIBE: Argument = Argument {
    name: "describe",
    form: ArgumentForm::Beside {
        value: "NAME",
        needs: Some("schema"),
        excludes: Some("list"),
    },
    help: "Print this type of the schema, and call nothing",
};

/// Whose objects are called.
pub(crate) const ADDRESS: Argument = Argument {
    name: "ADDRESS",
    form: ArgumentForm::Place,
    help: "HOST:PORT, or the path of a Unix socket, with a slash or after unix:",
};

/// The calls.
const CALLS: Argument = Argument {
    name: "CALL",
    form: ArgumentForm::Places,
    help: "A call; all go out at once",
};

/// The words of `loop`.
pub(crate) const LOOP: Words = Words {
    name: "loop",
    about: "Serve two sample objects to the calls of FILE, and print each answer as a line",
    after_help: "Exit status:\n\
         \x20 0  every message was accepted\n\
         \x20 1  a message was refused; standard error says at which byte, and why\n\
         \x20 2  the command line is wrong, or a file failed\n\
         \n\
         Example:\n\
         \x20 capnp_cli loop calls.bin",
};

/// The arguments of `loop`.
pub(crate) static LOOP_ARGUMENTS: [Argument; 2] = [PACKED, FILE];

/// The words of `relay`.
pub(crate) const RELAY: Words = Words {
    name: "relay",
    about: "Relay COUNT connections from PORT to HOST:PORT, and pass on only what is accepted",
    after_help: "With --allow a call of another method fails with `not allowed`, and the rest of the connection goes on.\n\
         \n\
         Exit status:\n\
         \x20 0  no message was refused, and no connection failed\n\
         \x20 1  a message was refused, or the rules closed a connection; standard error says why, and of which end\n\
         \x20 2  the command line is wrong, or a connection failed\n\
         \n\
         Examples:\n\
         \x20 capnp_cli relay --show 7001 127.0.0.1:7000 1\n\
         \x20 capnp_cli relay --record seen 7001 127.0.0.1:7000 1\n\
         \x20 capnp_cli relay --schema store.request --allow Store.get --allow Store.list 7001 127.0.0.1:7000 1\n\
         \x20 capnp_cli relay --schema queue.request --allow 'Queue.submit -> Handle.*' 7001 127.0.0.1:7000 1",
};

/// The arguments of `relay`.
pub(crate) static RELAY_ARGUMENTS: [Argument; 23] = [
    PACKED,
    OTHER,
    ANEW,
    SHOWS,
    NESTING,
    TRAVERSAL,
    FRAME_WORDS,
    GUARD_SCHEMA,
    ALLOW,
    DENY,
    RULES,
    STRICT,
    LOG,
    CALLS_UNDER_WAY,
    CALLS_A_SECOND,
    BYTES_A_SECOND,
    RECORD,
    RECORD_MOST,
    FIGURES,
    LISTEN,
    PORT,
    TARGET,
    COUNT,
];

/// The words of `call`.
pub(crate) const CALL: Words = Words {
    name: "call",
    about: "Call the objects at ADDRESS, and print the outcome of each CALL as a line",
    after_help: "With --schema a CALL is INTERFACE.METHOD (FIELD = VALUE, ..). The first call is question 1.\n\
         \x20 1.FIELD.METHOD (..)  calls a capability in the results of question 1, before they arrive\n\
         \x20 question:1.FIELD     passes such a capability in params\n\
         \x20 @FILE                in place of params sends the content of a stored message\n\
         With --json params are an object of JSON: INTERFACE.METHOD {\"FIELD\": VALUE, ..}.\n\
         Without --schema a CALL is [TARGET] i=INTERFACE m=METHOD [PARAMS].\n\
         \x20 TARGET               question:N[FIELDS]; by default the bootstrap object\n\
         \x20 PARAMS               {TREE caps[..]}, as `show` prints it, or @FILE; by default an empty struct\n\
         \n\
         Exit status:\n\
         \x20 0  every call returned results\n\
         \x20 1  a call failed, or the peer aborted or broke the protocol; standard error says why\n\
         \x20 2  the command line is wrong, or the connection failed\n\
         \n\
         Examples:\n\
         \x20 capnp_cli call --schema notebook.request 127.0.0.1:7001 'Notebook.add (text = \"hello\")'\n\
         \x20 capnp_cli call --schema notebook.request --json 127.0.0.1:7001 'Notebook.add {\"text\": \"hello\"}'\n\
         \x20 capnp_cli call --schema notebook.request --list\n\
         \x20 capnp_cli call 127.0.0.1:7000 'i=e5a1000000000001 m=0'",
};

/// The arguments of `call`.
pub(crate) static CALL_ARGUMENTS: [Argument; 12] = [
    SCHEMA, JSON, PRETTY, LIST, DESCRIBE, PACKED, NESTING, TRAVERSAL, MESSAGES, TIMEOUT, ADDRESS,
    CALLS,
];

/// The same, where types are asked for.
pub(crate) static TYPES_ARGUMENTS: [Argument; 3] = [ASKED_SCHEMA, LIST, DESCRIBE];

/// Whether the words are those of `call` that ask for types.
pub(crate) fn asks_types(words: &[String]) -> bool {
    // Then there is no address, so these words have arguments of their own.
    let mut calls = false;
    for word in words {
        let word = word.as_str();
        if calls && (word == "--list" || word.starts_with("--describe")) {
            return true;
        }
        calls = calls || word == "call";
    }
    false
}

/// What the words of `loop` ask for.
pub(crate) fn loop_of<'a, 'b>(matches: &'b ArgMatches<'a>) -> Option<Task<'a, 'b>> {
    Some(Task::Loop {
        mode: mode_of(matches),
        path: matches.get_str("FILE")?,
    })
}

/// What the words of `relay` ask for.
pub(crate) fn relay_of<'a, 'b>(matches: &'b ArgMatches<'a>) -> Option<Task<'a, 'b>> {
    let near = mode_of(matches);
    let form = RelayForm {
        near,
        far: far_mode(near, matches.get_flag("other")),
        anew: matches.get_flag("anew"),
        limits: relay_limits_of(matches)?,
        shows: matches.get_flag("show"),
    };
    let route = RelayRoute {
        address: SocketAddr::from((address(matches)?, matches.get_one::<u16>("PORT")?)),
        target: matches.get_str("HOST:PORT")?,
        count: matches.get_one::<u32>("COUNT")?,
    };
    Some(Task::Relay(RelayTask {
        route,
        form,
        guarding: guarding_of(matches),
        record: record_of(matches),
        figures: matches.get_str("figures"),
    }))
}

/// How those that connect are guarded.
fn guarding_of<'a, 'b>(matches: &'b ArgMatches<'a>) -> Guarding<'a, 'b> {
    Guarding {
        schema: matches.get_str("schema"),
        allow: matches.get_strs("allow"),
        deny: matches.get_strs("deny"),
        rules: matches.get_str("rules"),
        strict: matches.get_flag("strict"),
        logs: matches.get_flag("log"),
        calls: matches.get_one::<u32>("calls"),
        rate: matches.get_one::<u32>("rate"),
        bytes: matches.get_one::<u32>("bytes"),
    }
}

/// What the words of `call` ask for.
pub(crate) fn call_of<'a, 'b>(matches: &'b ArgMatches<'a>) -> Option<Task<'a, 'b>> {
    let (request, name) = (matches.get_str("schema"), matches.get_str("describe"));
    if matches.get_flag("list") || name.is_some() {
        let request = request?;
        return Some(Task::Types(TypesPlan { request, name }));
    }
    Some(Task::Call(CallPlan {
        mode: mode_of(matches),
        limits: limits_of(matches)?,
        shows_messages: matches.get_flag("messages"),
        timeout: matches.get_one::<u32>("timeout"),
        request,
        notation: printed_notation_of(matches),
        address: matches.get_str("ADDRESS")?,
        calls: matches.get_strs("CALL")?,
    }))
}

/// The form of the target's frames.
fn far_mode(near: Mode, is_other: bool) -> Mode {
    match (near, is_other) {
        (Mode::Plain, true) | (Mode::Packed, false) => Mode::Packed,
        (Mode::Packed, true) | (Mode::Plain, false) => Mode::Plain,
    }
}

/// The limits that were given, where a frame may have so many words, of which no more than that are gone over.
fn relay_limits_of(matches: &ArgMatches) -> Option<Limits> {
    let limits = limits_of(matches)?;
    let Some(words) = matches.get_one::<u32>("words") else {
        return Some(limits);
    };
    let traversal = limits.traversal().min(words);
    Limits::new(limits.nesting(), traversal, limits.segments(), words)
}
