//! What the command is asked to do: a plan for each command, which its words fill in.

use crate::plan::Plan;
use cp_frame::Mode;
use cp_schema::Notation;
use cp_words::Limits;
use std::fmt;
use std::net::SocketAddr;

/// What is to be done.
#[derive(Clone, Copy)]
pub enum Task<'a, 'b> {
    /// A command on a file.
    OnFile(FileTask<'a>),
    /// The bytes of the file at a path are served.
    Loop { mode: Mode, path: &'a str },
    Serve(ServePlan<'a>),
    Relay(RelayTask<'a, 'b>),
    Call(CallPlan<'a, 'b>),
    Replay(ReplayPlan<'a, 'b>),
    Types(TypesPlan<'a>),
}

/// A command on a file, by its path.
#[derive(Clone, Copy)]
pub enum FileTask<'a> {
    /// A command on frames, without a schema.
    Frames {
        plan: Plan<'a>,
        input: InputFile<'a>,
    },
    Show(ShowPlan<'a>),
    Session(SessionPlan<'a>),
    Encode(EncodePlan<'a>),
}

/// The file that a command reads.
#[derive(Clone, Copy)]
pub struct InputFile<'a> {
    pub path: &'a str,
    /// Whether a terminal is shown how far the command has come, where the file is long.
    pub shows_progress: bool,
}

/// Messages as lines, by the names of a schema.
#[derive(Clone, Copy)]
pub struct ShowPlan<'a> {
    pub mode: Mode,
    pub limits: Limits,
    /// The path of the file that has the schema.
    pub request: &'a str,
    /// The name of the struct that each message is; none where they are messages of rpc.capnp.
    pub name: Option<&'a str>,
    /// The path of the other direction's messages, whose calls they return from.
    pub calls: Option<&'a str>,
    /// How structs are written.
    pub notation: Notation,
    pub input: InputFile<'a>,
}

/// The recording of a connection, shown.
#[derive(Clone, Copy)]
pub struct SessionPlan<'a> {
    pub limits: Limits,
    /// The path of the file that has the schema, if messages are shown by its names.
    pub request: Option<&'a str>,
    /// Whether times are printed.
    pub has_times: bool,
    /// Where a picture is drawn in place of lines, from how many milliseconds on answers are marked as slow.
    pub picture: Option<u32>,
    /// The path of the recording, a folder.
    pub path: &'a str,
}

/// Texts of a struct of a schema as frames.
#[derive(Clone, Copy)]
pub struct EncodePlan<'a> {
    pub mode: Mode,
    /// The path of the file that has the schema.
    pub request: &'a str,
    pub name: &'a str,
    pub notation: Notation,
    pub input: InputFile<'a>,
}

/// Types of a schema, printed.
#[derive(Clone, Copy)]
pub struct TypesPlan<'a> {
    /// The path of the file that has the schema.
    pub request: &'a str,
    /// The name of a type; none where all methods are asked for.
    pub name: Option<&'a str>,
}

/// What is served.
#[derive(Clone, Copy)]
pub enum ServePlan<'a> {
    /// This many connections on a port, one after another.
    InTurn {
        mode: Mode,
        port: u16,
        count: u32,
    },
    /// Connections that come to an address, many at once.
    Hosted {
        address: ListenAddress<'a>,
        service: Service<'a>,
    },
    /// Standard input, and standard output.
    Pipe {
        mode: Mode,
    },
}

/// Where connections come to.
#[derive(Clone, Copy)]
pub enum ListenAddress<'a> {
    Address(SocketAddr),
    /// A path, at which a socket is made.
    Path(&'a str),
}

impl fmt::Display for ListenAddress<'_> {
    fn fmt<W: fmt::Write>(&self, f: &mut fmt::Formatter<W>) -> fmt::Result {
        match self {
            ListenAddress::Address(address) => address.fmt(f),
            ListenAddress::Path(path) => f.write_str(path),
        }
    }
}

/// How connections are served.
#[derive(Clone, Copy)]
pub struct Service<'a> {
    /// The form of the frames, both ways.
    pub mode: Mode,
    /// The most connections at once. Further ones wait.
    pub at_once: u32,
    /// The seconds in which a byte moves, where it isn't the standard limit.
    pub idle: Option<u32>,
    /// How many connections come, in all. `None`: no end.
    pub count: Option<u32>,
    /// The path of the file into which it writes what it does.
    pub figures: Option<&'a str>,
    /// Whether it prints that now and then.
    pub logs: bool,
    /// Whether connections come by a proxy that says whose each is.
    pub behind_proxy: bool,
}

/// Connections that are relayed.
#[derive(Clone, Copy)]
pub struct RelayTask<'a, 'b> {
    pub route: RelayRoute<'a>,
    pub form: RelayForm,
    pub guarding: Guarding<'a, 'b>,
    /// Where connections are recorded, if they are.
    pub record: Option<RecordPlan<'a>>,
    /// The path of the file into which it writes what it does.
    pub figures: Option<&'a str>,
}

/// How connections are recorded.
#[derive(Clone, Copy)]
pub struct RecordPlan<'a> {
    /// The path of a folder that is made for them.
    pub path: &'a str,
    /// The most bytes that are written.
    pub most: u32,
}

/// From where to where connections are relayed.
#[derive(Clone, Copy)]
pub struct RelayRoute<'a> {
    /// The address that takes them.
    pub address: SocketAddr,
    /// A `HOST:PORT`, or the path of a Unix socket, to which one is made for each.
    pub target: &'a str,
    /// How many are taken.
    pub count: u32,
}

/// How messages are relayed.
#[derive(Clone, Copy)]
pub struct RelayForm {
    /// The form of the frames of those that connect.
    pub near: Mode,
    /// The form of the target's frames.
    pub far: Mode,
    /// Whether each message is written anew, as it is anyway where the two forms differ.
    pub anew: bool,
    pub limits: Limits,
    /// Whether each message that goes is printed as a line. Where a guard is, this says nothing.
    pub shows: bool,
}

/// How those that connect are guarded.
#[derive(Clone, Copy)]
pub struct Guarding<'a, 'b> {
    /// The path of the file that has the schema.
    pub schema: Option<&'a str>,
    /// The methods that alone may be called.
    pub allow: Option<&'b [&'a str]>,
    /// The methods that may not be called.
    pub deny: Option<&'b [&'a str]>,
    /// The path of a file of rules.
    pub rules: Option<&'a str>,
    /// Whether a call that isn't let through closes the connection.
    pub strict: bool,
    /// Whether calls are printed.
    pub logs: bool,
    /// The most calls under way.
    pub calls: Option<u32>,
    /// The most calls a second.
    pub rate: Option<u32>,
    /// The most bytes that are read in a second.
    pub bytes: Option<u32>,
}

/// Calls, and how they are made.
#[derive(Clone, Copy)]
pub struct CallPlan<'a, 'b> {
    pub mode: Mode,
    /// The limits on what comes.
    pub limits: Limits,
    /// Whether each message is printed.
    pub shows_messages: bool,
    /// The greatest number of seconds for which nothing may come.
    pub timeout: Option<u32>,
    /// The path of the file that has the schema by which calls are named, and results printed.
    pub request: Option<&'a str>,
    /// How params and results are written by that schema.
    pub notation: Notation,
    /// `HOST:PORT`, or the path of a Unix socket, which has a slash or comes after `unix:`.
    pub address: &'a str,
    pub calls: &'b [&'a str],
}

/// The calls of a recording, made again.
#[derive(Clone, Copy)]
pub struct ReplayPlan<'a, 'b> {
    /// The path of the recording, a folder.
    pub path: &'a str,
    /// How calls are made; it has none of its own.
    pub call: CallPlan<'a, 'b>,
}
