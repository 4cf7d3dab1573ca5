//! A command's arguments, and what was given for those that several commands have.

use clap::{Arg, ArgAction, ArgMatches, Command, value_parser};
use cp_commands::InputFile;
use cp_frame::Mode;
use cp_schema::Notation;
use cp_words::Limits;
use std::alloc::{AllocError, Global};

/// The greatest number of words in a segment.
pub(crate) const MOST_WORDS: i64 = 8_388_608;

/// Packed frames instead of plain ones.
pub(crate) const PACKED: Argument = Argument {
    name: "packed",
    form: ArgumentForm::Flag,
    help: "The frames are packed",
};

/// The limit on nesting.
pub(crate) const NESTING: Argument = Argument {
    name: "nesting",
    form: ArgumentForm::Number("N", 256),
    help: "Structs and lists may nest N levels deep, 64 by default",
};

/// The limit on traversal.
pub(crate) const TRAVERSAL: Argument = Argument {
    name: "traversal",
    form: ArgumentForm::Number("N", 67_108_864),
    help: "A message may cost N words to go over, 8388608 by default",
};

/// The file that a command reads.
pub(crate) const FILE: Argument = Argument {
    name: "FILE",
    form: ArgumentForm::Place,
    help: "A file of frames, one after another; - is standard input",
};

/// No word of how far a command has come.
pub(crate) const NO_PROGRESS: Argument = Argument {
    name: "no-progress",
    form: ArgumentForm::Flag,
    help: "Don't show a terminal how much of a long file was read",
};

/// JSON on several lines.
pub(crate) const PRETTY: Argument = Argument {
    name: "pretty",
    form: ArgumentForm::FlagBeside("json"),
    help: "Print each member and element on a line of its own",
};

/// The port that is served.
pub(crate) const PORT: Argument = Argument {
    name: "PORT",
    form: ArgumentForm::Port,
    help: "A port of 127.0.0.1",
};

/// The number of connections.
pub(crate) const COUNT: Argument = Argument {
    name: "COUNT",
    form: ArgumentForm::Count,
    help: "The number of connections",
};

/// A command's name, and what its help says.
#[derive(Clone, Copy)]
pub(crate) struct Words {
    pub(crate) name: &'static str,
    pub(crate) about: &'static str,
    pub(crate) after_help: &'static str,
}

/// An argument.
/// As data, arguments cost a proof nothing; a function over clap's values costs it up to 50 seconds.
#[derive(Clone, Copy)]
pub(crate) struct Argument {
    pub(crate) name: &'static str,
    pub(crate) form: ArgumentForm,
    pub(crate) help: &'static str,
}

/// What is given for an argument.
#[derive(Clone, Copy)]
pub(crate) enum ArgumentForm {
    /// Nothing: an option that is there, or isn't.
    Flag,
    /// An option with a text, which help calls so.
    Text(&'static str),
    /// The same, which has to be there.
    Needed(&'static str),
    /// The same, which isn't taken without one option, or with another.
    Beside {
        value: &'static str,
        needs: Option<&'static str>,
        excludes: Option<&'static str>,
    },
    /// The same, given once or several times.
    Each {
        value: &'static str,
        needs: Option<&'static str>,
        excludes: Option<&'static str>,
    },
    /// A flag that isn't taken without one option.
    FlagBeside(&'static str),
    /// An option with a number from 1 to this one.
    Number(&'static str, i64),
    /// The same, which has to be there.
    Size(&'static str, i64),
    /// An option with a number from this one to 4,294,967,295, which isn't taken without one option.
    NumberBeside {
        value: &'static str,
        least: i64,
        needs: &'static str,
    },
    /// A text by its place.
    Place,
    /// A text by its place, which may be missing.
    Last,
    /// One text or several.
    Places,
    /// A port.
    Port,
    /// A number by its place.
    Count,
}

impl Argument {
    /// The argument as clap has it.
    fn arg<'a>(&self, alloc: Global) -> Result<Arg<'a>, AllocError> {
        let arg = self.formed(alloc);
        match self.form {
            ArgumentForm::Beside {
                needs,
                excludes,
                ..
            }
            | ArgumentForm::Each {
                needs,
                excludes,
                ..
            } => beside(arg, needs, excludes),
            ArgumentForm::FlagBeside(needs) | ArgumentForm::NumberBeside { needs, .. } => {
                beside(arg, Some(needs), None)
            }
            _ => Ok(arg),
        }
    }

    /// The argument in its form.
    fn formed<'a>(&self, alloc: Global) -> Arg<'a> {
        let arg = Arg::new(alloc, self.name).help(self.help);
        match self.form {
            ArgumentForm::Flag | ArgumentForm::FlagBeside(_) => {
                arg.long(self.name).action(ArgAction::SetTrue)
            }
            ArgumentForm::Each { value, .. } => arg
                .long(self.name)
                .value_name(value)
                .action(ArgAction::Append),
            ArgumentForm::Text(value) | ArgumentForm::Beside { value, .. } => arg
                .long(self.name)
                .value_name(value),
            ArgumentForm::Needed(value) => { arg.long(self.name).value_name(value).required(true) }
            ArgumentForm::Number(value, most) => self.number(arg, value, 1, most),
            ArgumentForm::Size(value, most) => self.number(arg, value, 1, most).required(true),
            ArgumentForm::NumberBeside { value, least, .. } => {
                self.number(arg, value, least, 4_294_967_295)
            }
            ArgumentForm::Place => arg.required(true),
            ArgumentForm::Last => arg,
            ArgumentForm::Places => arg.required(true).num_args(1..),
            ArgumentForm::Port => arg
                .required(true)
                .value_parser(value_parser!(u16).range(1..=65_535)),
            ArgumentForm::Count => arg.required(true).value_parser(value_parser!(u32)),
        }
    }

    /// An option with a number from one to another.
    fn number<'a>(&self, arg: Arg<'a>, value: &'static str, least: i64, most: i64) -> Arg<'a> {
        arg.long(self.name)
            .value_name(value)
            .value_parser(value_parser!(u32).range(least..=most))
    }
}

/// The argument, where it isn't taken without one option, or with another.
fn beside<'a>(
    arg: Arg<'a>,
    needs: Option<&'static str>,
    excludes: Option<&'static str>,
) -> Result<Arg<'a>, AllocError> {
    match (needs, excludes) {
        (None, None) => Ok(arg),
        (Some(needs), None) => arg.requires_arg(needs),
        (None, Some(excludes)) => arg.conflicts_with(excludes),
        (Some(needs), Some(excludes)) => arg.requires_arg(needs)?.conflicts_with(excludes),
    }
}

/// The command of these words, with these arguments.
pub(crate) fn command_of<'a>(
    alloc: Global,
    words: Words,
    arguments: &[Argument],
) -> Result<Command<'a>, AllocError> {
    let mut command = Command::new(alloc, words.name)
        .about(words.about)
        .after_help(words.after_help);
    for argument in arguments {
        command = with(alloc, command, argument)?;
    }
    Ok(command)
}

/// The command with one more argument.
fn with<'a>(
    alloc: Global,
    command: Command<'a>,
    argument: &Argument,
) -> Result<Command<'a>, AllocError> {
    match argument.arg(alloc) {
        Ok(arg) => command.arg(arg),
        Err(error) => {
            drop(command);
            Err(error)
        }
    }
}

/// The file that is read, if there is one.
pub(crate) fn input_of<'a>(matches: &ArgMatches<'a>) -> Option<InputFile<'a>> {
    Some(InputFile {
        path: matches.get_str("FILE")?,
        shows_progress: !matches.get_flag("no-progress"),
    })
}

/// The form that was given.
pub(crate) fn mode_of(matches: &ArgMatches) -> Mode {
    if matches.get_flag("packed") {
        Mode::Packed
    } else {
        Mode::Plain
    }
}

/// The notation that was given.
pub(crate) fn notation_of(matches: &ArgMatches) -> Notation {
    if matches.get_flag("json") {
        Notation::Json { is_pretty: false }
    } else {
        Notation::Text
    }
}

/// The same, where JSON may be printed on several lines.
pub(crate) fn printed_notation_of(matches: &ArgMatches) -> Notation {
    if matches.get_flag("pretty") {
        Notation::Json { is_pretty: true }
    } else {
        notation_of(matches)
    }
}

/// The limits that were given. A frame may have 8,388,608 words, or as many as may be gone over.
pub(crate) fn limits_of(matches: &ArgMatches) -> Option<Limits> {
    let standard = Limits::standard();
    let nesting = matches
        .get_one::<u32>("nesting")
        .unwrap_or(standard.nesting());
    let traversal = matches
        .get_one::<u32>("traversal")
        .unwrap_or(standard.traversal());
    // The limit on traversal has to be within that on a frame's words.
    let frame_words = standard.frame_words().max(traversal);
    Limits::new(nesting, traversal, standard.segments(), frame_words)
}
