//! What stops a conversation.

use cp_client::ClientFault;
use cp_commands::{BROKEN, CLOSED, REFUSED, limit_hint, tell_hint};
use cp_connection::ConnectionFault;
use cp_encoder::{EncodeFault, NotationFault};
use cp_lines::Wrong;
use cp_recordings::SessionFault;
use cp_schema::DecodeFault;
use std::alloc::{AllocError, AllocFailed};
use std::fmt::{self, Display};
use std::io::{self, ErrorKind, Write};

/// Why the calls didn't all come to an outcome. Addresses and paths are those of the words.
#[derive(Drop)]
pub(crate) enum CommandFault<'a> {
    /// The word of this number isn't a call.
    Word {
        number: usize,
        wrong: Wrong,
    },
    /// The word of this number isn't a call of the schema.
    Named {
        number: usize,
        fault: EncodeFault,
    },
    /// The word of this number has names, and there is no schema.
    Unnamed {
        number: usize,
    },
    /// This isn't an address.
    Address(&'a str),
    /// The file of this path can't be read.
    File {
        path: &'a str,
        error: io::Error,
    },
    /// The file of this path isn't a message.
    PayloadBuilder {
        path: &'a str,
    },
    /// The connection can't be made, or a call of it failed.
    Device {
        address: &'a str,
        error: io::Error,
    },
    /// The recording of this path can't be read to its end.
    Recording {
        path: &'a str,
        fault: SessionFault,
    },
    /// What is printed can't be written.
    Printing(io::Error),
    /// Nothing came or went in time.
    Silent {
        address: &'a str,
        seconds: u32,
    },
    /// The vat closed, for this reason.
    Closed(String),
    /// The call of this number can't be made.
    Unmade {
        number: usize,
        fault: ClientFault,
    },
    /// The connection ended, or memory ran out.
    Refused(ClientFault),
    /// The peer's first bytes are no frame, and seem to be something else.
    Foreign {
        fault: ClientFault,
        hint: &'static str,
    },
}

impl CommandFault<'_> {
    /// Says what it is, unless it is that the reader of what is printed went away. Answers the status that the command ends with.
    pub(crate) fn tell<E: Write>(&self, err: &mut E) -> u8 {
        match self {
            CommandFault::Printing(error) if error.kind() == ErrorKind::BrokenPipe => CLOSED,
            fault => {
                let _ = writeln!(err, "{fault}");
                fault.status()
            }
        }
    }

    /// What may be wrong with the peer, or with the words of the command.
    pub(crate) fn hint(&self) -> Option<&'static str> {
        match self {
            CommandFault::Foreign { hint, .. } => Some(*hint),
            CommandFault::Refused(
                ClientFault::Connection(ConnectionFault::Unreadable { refusal, .. }),
            ) => limit_hint(refusal),
            _ => None,
        }
    }

    /// The status after it was said.
    fn status(&self) -> u8 {
        match self {
            CommandFault::PayloadBuilder { .. }
            | CommandFault::Closed(_)
            | CommandFault::Unmade { .. }
            | CommandFault::Refused(_)
            | CommandFault::Foreign { .. } => REFUSED,
            CommandFault::Recording {
                fault: SessionFault::Refused(..)
                | SessionFault::Short(_)
                | SessionFault::OutOfMemory,
                ..
            } => REFUSED,
            _ => BROKEN,
        }
    }
}

/// The status after this, which a line on standard error says.
pub(crate) fn failed(rt: &HostRuntime, fault: CommandFault) -> u8 {
    let mut err = rt.stderr();
    let status = fault.tell(&mut err);
    if let Some(hint) = fault.hint() {
        tell_hint(&mut err, hint);
    }
    drop(fault);
    status
}

impl Display for CommandFault<'_> {
    fn fmt<W: fmt::Write>(&self, f: &mut fmt::Formatter<W>) -> fmt::Result {
        match self {
            CommandFault::Word { number, wrong } => write!(f, "call {number}: {wrong}"),
            CommandFault::Named { number, fault } => wrong_name(f, *number, fault),
            CommandFault::Unnamed { number } => write!(
                f,
                "call {number}: it has no i=INTERFACE m=METHOD, and names want --schema REQUEST"
            ),
            CommandFault::Address(address) => write!(
                f,
                "{address}: not HOST:PORT, nor the path of a Unix socket, with a slash or after unix:"
            ),
            CommandFault::File { path, error } => device(f, path, error),
            CommandFault::PayloadBuilder { path } => write!(f, "refused: {path} isn't a message"),
            CommandFault::Device { address, error } => device(f, address, error),
            CommandFault::Recording {
                path,
                fault: SessionFault::Line(number),
            } => write!(f, "{path}/{}", SessionFault::Line(*number)),
            CommandFault::Recording { fault, .. } => fault.fmt(f),
            CommandFault::Printing(error) => device(f, "can't write", error),
            CommandFault::Silent { address, seconds } => {
                write!(f, "device: {address}: nothing came for {seconds} s")
            }
            CommandFault::Closed(reason) => f.write_str(reason),
            CommandFault::Unmade { number, fault } => write!(f, "call {number}: refused: {fault}"),
            CommandFault::Refused(ClientFault::Connection(fault)) => refused(f, *fault),
            CommandFault::Refused(fault) | CommandFault::Foreign { fault, .. } => fault.fmt(f),
        }
    }
}

/// What is wrong with the word of this number.
fn wrong_name<W: fmt::Write>(
    f: &mut fmt::Formatter<W>,
    number: usize,
    fault: &EncodeFault,
) -> fmt::Result {
    match fault {
        EncodeFault::Text(
            NotationFault {
                line: 1,
                column,
                message,
            },
        ) => write!(f, "call {number}: column {column}: {message}"),
        fault => write!(f, "call {number}: {fault}"),
    }
}

/// What a device failed of.
fn device<W: fmt::Write>(f: &mut fmt::Formatter<W>, what: &str, error: &io::Error) -> fmt::Result {
    write!(f, "device: {what}: {error}")
}

/// What the connection refuses.
fn refused<W: fmt::Write>(f: &mut fmt::Formatter<W>, fault: ConnectionFault) -> fmt::Result {
    match fault {
        ConnectionFault::Unreadable { .. } => fault.fmt(f),
        fault => write!(f, "refused: {fault}"),
    }
}

impl<'a> From<ClientFault> for CommandFault<'a> {
    fn from(fault: ClientFault) -> CommandFault<'a> {
        CommandFault::Refused(fault)
    }
}

impl<'a> From<AllocError> for CommandFault<'a> {
    fn from(fault: AllocError) -> CommandFault<'a> {
        CommandFault::Refused(ClientFault::from(fault))
    }
}

impl<'a, T: Drop> From<AllocFailed<T>> for CommandFault<'a> {
    fn from(fault: AllocFailed<T>) -> CommandFault<'a> {
        CommandFault::Refused(ClientFault::from(fault))
    }
}

impl<'a> From<DecodeFault> for CommandFault<'a> {
    fn from(_: DecodeFault) -> CommandFault<'a> {
        // Results that aren't as the schema says are printed by numbers, so that only memory can lack.
        CommandFault::from(AllocError)
    }
}

impl<'a> From<io::Error> for CommandFault<'a> {
    fn from(error: io::Error) -> CommandFault<'a> {
        CommandFault::Printing(error)
    }
}
