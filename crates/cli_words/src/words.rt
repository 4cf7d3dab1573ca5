//! A command line from its words to the status.

use crate::arguments::{Argument, Words, command_of};
use crate::connections::asks_types;
use crate::serving::{self, is_open};
use crate::sessions::{SESSION_ARGUMENTS, shows_session};
use crate::{connections, files, replaying};
use clap::{ArgMatches, Command, Error};
use cp_commands::{BROKEN, Task};
use std::alloc::{AllocError, Global};
use std::{env, io};

/// The version of what users see.
const VERSION: &str = "0.2.0";

/// The commands, in the order of the help.
const ALL: [Name; 12] = [
    Name::Show,
    Name::Encode,
    Name::Check,
    Name::Pack,
    Name::Unpack,
    Name::Recut,
    Name::Canonical,
    Name::Loop,
    Name::Serve,
    Name::Relay,
    Name::Call,
    Name::Replay,
];

/// A program that does what the words ask for.
pub trait Acts {
    /// Does it, and answers the status.
    fn act(rt: &HostRuntime, task: &Task) -> u8;
}

/// The name of a command.
#[derive(Clone, Copy)]
enum Name {
    Show,
    Encode,
    Check,
    Pack,
    Unpack,
    Recut,
    Canonical,
    Loop,
    Serve,
    Relay,
    Call,
    Replay,
}

/// Reads the words of the program, has it do what they ask for, and answers the status.
pub fn run<A: Acts>(rt: &HostRuntime) -> io::Result<u8> {
    let words: Vec<String> = env::args(rt)?.collect(rt.alloc())?;
    let status = act_on::<A>(rt, words.as_slice());
    drop(words);
    status
}

/// Has the program do what these words ask for.
fn act_on<A: Acts>(rt: &HostRuntime, words: &[String]) -> io::Result<u8> {
    let command = root(
        rt.alloc(),
        is_open(words) || asks_types(words) || shows_session(words),
    )?;
    match command.try_get_matches_from(words) {
        Ok(matches) => {
            let status = act_by::<A>(rt, &matches);
            drop(matches);
            status
        }
        Err(error) => {
            let status = say(rt, &error);
            drop(error);
            status
        }
    }
}

/// Has the program do what was asked for.
fn act_by<A: Acts>(rt: &HostRuntime, matches: &ArgMatches) -> io::Result<u8> {
    match task_of(matches) {
        Some(task) => Ok(A::act(rt, &task)),
        None => {
            let name = match matches.subcommand() {
                Some((name, _)) => name,
                None => "",
            };
            eprintln!(rt; "error: not what `{name}` takes: see capnp_cli help {name}")?;
            Ok(BROKEN)
        }
    }
}

/// Prints the help, or what is wrong with the words.
fn say(rt: &HostRuntime, error: &Error) -> io::Result<u8> {
    error.print(rt)?;
    Ok(error.exit_code() as u8)
}

/// What `capnp_cli` understands, where its words are open to other ones than usual, or aren't: `serve` to others than a port
/// and a count, `call` to none.
fn root<'a>(alloc: Global, is_open: bool) -> Result<Command<'a>, AllocError> {
    let mut command = head(alloc)?;
    for name in &ALL {
        command = with(alloc, command, *name, is_open)?;
    }
    Ok(command)
}

/// The command without its words.
fn head<'a>(alloc: Global) -> Result<Command<'a>, AllocError> {
    Command::new(alloc, "capnp_cli")
        .about("Cap'n Proto messages and two-party RPC")
        .version(VERSION)
        .after_help(
            "Exit status: 0 if everything was accepted; 1 if something was refused, and standard error \
             says where and why; 2 if the command line is wrong, or if a file or a connection failed.",
        )
        .subcommand_required(true)
        .bin_name("capnp_cli")
}

/// The command with one more of its words.
fn with<'a>(
    alloc: Global,
    command: Command<'a>,
    name: Name,
    is_open: bool,
) -> Result<Command<'a>, AllocError> {
    match command_of(alloc, name.words(), name.arguments(is_open)) {
        Ok(more) => command.subcommand(more),
        Err(error) => {
            drop(command);
            Err(error)
        }
    }
}

impl Name {
    /// The command of this name, if there is one.
    fn of(text: &str) -> Option<Name> {
        for name in &ALL {
            if name.words().name == text {
                return Some(*name);
            }
        }
        None
    }

    /// What it is called, and what its help says.
    fn words(self) -> Words {
        match self {
            Name::Show => files::SHOW,
            Name::Encode => files::ENCODE,
            Name::Check => files::CHECK,
            Name::Pack => files::PACK,
            Name::Unpack => files::UNPACK,
            Name::Recut => files::RECUT,
            Name::Canonical => files::CANONICAL,
            Name::Loop => connections::LOOP,
            Name::Serve => serving::SERVE,
            Name::Relay => connections::RELAY,
            Name::Call => connections::CALL,
            Name::Replay => replaying::REPLAY,
        }
    }

    /// What it takes.
    fn arguments(self, is_open: bool) -> &'static [Argument] {
        match self {
            Name::Show if is_open => &SESSION_ARGUMENTS,
            Name::Show => &files::SHOW_ARGUMENTS,
            Name::Encode => &files::ENCODE_ARGUMENTS,
            Name::Check => &files::CHECK_ARGUMENTS,
            Name::Pack => &files::PACK_ARGUMENTS,
            Name::Unpack => &files::UNPACK_ARGUMENTS,
            Name::Recut => &files::RECUT_ARGUMENTS,
            Name::Canonical => &files::CANONICAL_ARGUMENTS,
            Name::Loop => &connections::LOOP_ARGUMENTS,
            Name::Serve if is_open => &serving::OPEN_ARGUMENTS,
            Name::Serve => &serving::SERVE_ARGUMENTS,
            Name::Relay => &connections::RELAY_ARGUMENTS,
            Name::Call if is_open => &connections::TYPES_ARGUMENTS,
            Name::Call => &connections::CALL_ARGUMENTS,
            Name::Replay => &replaying::REPLAY_ARGUMENTS,
        }
    }

    /// What was asked for by what it takes.
    fn task<'a, 'b>(self, matches: &'b ArgMatches<'a>) -> Option<Task<'a, 'b>> {
        match self {
            Name::Show => files::show_of(matches),
            Name::Encode => files::encode_of(matches),
            Name::Check => files::check_of(matches),
            Name::Pack => files::pack_of(matches),
            Name::Unpack => files::unpack_of(matches),
            Name::Recut => files::recut_of(matches),
            Name::Canonical => files::canonical_of(matches),
            Name::Loop => connections::loop_of(matches),
            Name::Serve => serving::serve_of(matches),
            Name::Relay => connections::relay_of(matches),
            Name::Call => connections::call_of(matches),
            Name::Replay => replaying::replay_of(matches),
        }
    }
}

/// What was asked for.
fn task_of<'a, 'b>(matches: &'b ArgMatches<'a>) -> Option<Task<'a, 'b>> {
    let (name, inner) = matches.subcommand()?;
    Name::of(name)?.task(inner)
}
