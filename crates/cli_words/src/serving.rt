//! The words of `serve`.

use crate::arguments::{Argument, ArgumentForm, COUNT, PACKED, PORT, Words, mode_of};
use clap::ArgMatches;
use cp_commands::{ListenAddress, ServePlan, Service, Task};
use std::net::{IpAddr, Ipv4Addr, SocketAddr};

/// The most connections at once.
const AT_ONCE: Argument = Argument {
    name: "at-once",
    form: ArgumentForm::Number("N", 65_535),
    help: "Serve N connections at once, 1 by default; further ones wait",
};

/// The time without a byte.
const IDLE: Argument = Argument {
    name: "idle",
    form: ArgumentForm::Number("SECONDS", 4_294_967_295),
    help: "Close a connection on which no byte moves for SECONDS",
};

/// The file of numbers.
pub(crate) const FIGURES: Argument = Argument {
    name: "figures",
    form: ArgumentForm::Text("FILE"),
    help: "Write what it does into FILE each second, as text for Prometheus",
};

/// Whether numbers are printed.
const LOG: Argument = Argument {
    name: "log",
    form: ArgumentForm::Flag,
    help: "Print a line of the same numbers each minute in which they change, and at the end",
};

/// Whether connections come by a proxy.
const BEHIND_PROXY: Argument = Argument {
    name: "behind-proxy",
    form: ArgumentForm::Flag,
    help: "Connections come by a proxy that says whose each is (PROXY protocol, versions 1 and 2)",
};

/// The address that is listened on.
pub(crate) const LISTEN: Argument = Argument {
    name: "listen",
    form: ArgumentForm::Text("ADDRESS"),
    help: "Listen on ADDRESS, 127.0.0.1 by default",
};

/// The path of a socket.
const SOCKET: Argument = Argument {
    name: "socket",
    form: ArgumentForm::Beside {
        value: "PATH",
        needs: None,
        excludes: Some("listen"),
    },
    help: "Listen on a socket that is made at PATH, in place of a port",
};

/// A port, or a dash, or the number of connections, where there is a path.
const ANY_PLACE: Argument = Argument {
    name: "PORT",
    form: ArgumentForm::Place,
    help: "A port of 127.0.0.1, or - for standard input and output; no port with --socket",
};

/// The number of connections, or a dash.
const ANY_COUNT: Argument = Argument {
    name: "COUNT",
    form: ArgumentForm::Last,
    help: "The number of connections, or - for no end",
};

/// The word for no end, or for standard input and output.
const DASH: &str = "-";

/// Whether the words are those of `serve`, other ones than a port and a count: a dash, or the path of a socket.
pub(crate) fn is_open(words: &[String]) -> bool {
    // A port is tested as a number, which a dash isn't, so the other forms have arguments of their own.
    let mut serves = false;
    for word in words {
        let word = word.as_str();
        if serves && (word == DASH || word.starts_with("--socket")) {
            return true;
        }
        serves = serves || word == "serve";
    }
    false
}

/// The words of `serve`.
pub(crate) const SERVE: Words = Words {
    name: "serve",
    about: "Serve two sample objects, a Desk and a Cell, to COUNT connections on PORT",
    after_help: "Forms:\n\
         \x20 capnp_cli serve [OPTIONS] PORT COUNT       on 127.0.0.1, or on the address of --listen\n\
         \x20 capnp_cli serve --socket PATH COUNT        on a Unix socket\n\
         \x20 capnp_cli serve -                          to one peer, over standard input and output\n\
         COUNT is a number, or - for no end. With -, an option other than --packed, or --socket the first line of standard error says where\n\
         it listens.\n\
         \n\
         Exit status:\n\
         \x20 0  no message was refused, and no connection failed\n\
         \x20 1  a message was refused or a limit was reached; standard error says why\n\
         \x20 2  the command line is wrong, or a connection failed\n\
         \n\
         Examples:\n\
         \x20 capnp_cli serve 7000 1\n\
         \x20 capnp_cli serve --at-once 100 7000 -\n\
         \x20 capnp_cli serve --at-once 100 --figures /run/store.prom --log 7000 -",
};

/// The arguments of `serve`.
pub(crate) static SERVE_ARGUMENTS: [Argument; 10] = [
    PACKED,
    AT_ONCE,
    IDLE,
    FIGURES,
    LOG,
    BEHIND_PROXY,
    LISTEN,
    SOCKET,
    PORT,
    COUNT,
];

/// The same, where they are open to other ones than a port and a count.
pub(crate) static OPEN_ARGUMENTS: [Argument; 10] = [
    PACKED,
    AT_ONCE,
    IDLE,
    FIGURES,
    LOG,
    BEHIND_PROXY,
    LISTEN,
    SOCKET,
    ANY_PLACE,
    ANY_COUNT,
];

/// What the words of `serve` ask for.
pub(crate) fn serve_of<'a, 'b>(matches: &'b ArgMatches<'a>) -> Option<Task<'a, 'b>> {
    match serving_of(matches) {
        Some(plan) => Some(Task::Serve(plan)),
        None => None,
    }
}

/// How connections are served.
fn serving_of<'a>(matches: &ArgMatches<'a>) -> Option<ServePlan<'a>> {
    let (first, second) = (matches.get_str("PORT")?, matches.get_str("COUNT"));
    if let Some(path) = matches.get_str("socket") {
        return at_path(matches, path, first, second);
    }
    let Some(count) = second else {
        return on_pipe(matches, first);
    };
    let port = matches.get_one::<u16>("PORT")?;
    if port == 0 {
        return None;
    }
    at_port(matches, port, count_of(count)?)
}

/// What is served at a port.
fn at_port<'a>(matches: &ArgMatches<'a>, port: u16, count: Option<u32>) -> Option<ServePlan<'a>> {
    match count {
        Some(count) if !has_options(matches) => Some(ServePlan::InTurn {
            mode: mode_of(matches),
            port,
            count,
        }),
        count => Some(ServePlan::Hosted {
            address: ListenAddress::Address(SocketAddr::from((address(matches)?, port))),
            service: service(matches, count),
        }),
    }
}

/// What is served at a path.
fn at_path<'a>(
    matches: &ArgMatches<'a>,
    path: &'a str,
    count: &str,
    further: Option<&str>,
) -> Option<ServePlan<'a>> {
    if further.is_some() {
        return None;
    }
    Some(ServePlan::Hosted {
        address: ListenAddress::Path(path),
        service: service(matches, count_of(count)?),
    })
}

/// What is served over standard input and output.
fn on_pipe<'a>(matches: &ArgMatches<'a>, place: &str) -> Option<ServePlan<'a>> {
    if place != DASH || has_options(matches) {
        return None;
    }
    Some(ServePlan::Pipe {
        mode: mode_of(matches),
    })
}

/// Whether the words have options of serving many connections.
fn has_options(matches: &ArgMatches) -> bool {
    matches.contains_id("at-once")
        || matches.contains_id("idle")
        || matches.contains_id("figures")
        || matches.get_flag("log")
        || matches.get_flag("behind-proxy")
        || matches.contains_id("listen")
}

/// A number of connections, or no end.
fn count_of(word: &str) -> Option<Option<u32>> {
    if word == DASH {
        return Some(None);
    }
    match word.parse::<u32>() {
        Ok(count) => Some(Some(count)),
        Err(_) => None,
    }
}

/// How connections are served.
fn service<'a>(matches: &ArgMatches<'a>, count: Option<u32>) -> Service<'a> {
    Service {
        mode: mode_of(matches),
        at_once: matches.get_one::<u32>("at-once").unwrap_or(1),
        idle: matches.get_one::<u32>("idle"),
        count,
        figures: matches.get_str("figures"),
        logs: matches.get_flag("log"),
        behind_proxy: matches.get_flag("behind-proxy"),
    }
}

/// The address that is listened on.
pub(crate) fn address(matches: &ArgMatches) -> Option<IpAddr> {
    if matches.contains_id("listen") {
        matches.get_one::<IpAddr>("listen")
    } else {
        Some(IpAddr::V4(Ipv4Addr::LOCALHOST))
    }
}
