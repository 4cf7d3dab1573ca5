//! Numbers of what a command does, as Prometheus reads them ("Exposition formats": the text-based format).

use std::alloc::{AllocError, AllocGlobal};
use std::fs::{self, Files};
use std::io::{self, Write};

/// The milliseconds from one writing of the numbers to the next.
pub const FIGURES_EVERY: u64 = 1_000;

/// A file of numbers, which is written anew each time.
#[derive(Clone, Copy)]
pub struct FiguresFile<'a> {
    path: &'a str,
    /// Whether the last writing failed.
    has_failed: bool,
}

impl<'a> FiguresFile<'a> {
    /// The file at a path, of which nothing was written.
    pub fn new(path: &'a str) -> FiguresFile<'a> {
        FiguresFile {
            path,
            has_failed: false,
        }
    }

    /// Writes a text in place of the last one. Who reads the file meanwhile gets either one whole. Where it can't be written a line of `err`
    /// says why, once until it can be.
    pub fn write<N: Files + AllocGlobal, E: Write>(
        &mut self,
        rt: &N,
        text: Result<String, AllocError>,
        err: &mut E,
    ) {
        let Err(error) = replace(rt, self.path, text) else {
            self.has_failed = false;
            return;
        };
        if !self.has_failed {
            let _ = writeln!(err, "device: {}: {error}", self.path);
        }
        self.has_failed = true;
    }
}

/// Puts a text in the place of a file.
fn replace<N: Files + AllocGlobal>(
    rt: &N,
    path: &str,
    text: Result<String, AllocError>,
) -> io::Result<()> {
    let text = text?;
    let written = write_beside(rt, path, text.as_str());
    drop(text);
    written
}

/// Writes a text into a file beside this one, and gives it this one's name.
fn write_beside<N: Files + AllocGlobal>(rt: &N, path: &str, text: &str) -> io::Result<()> {
    let beside = format!(in rt.alloc(); "{path}.new")?;
    let written = put(rt, path, beside.as_str(), text);
    drop(beside);
    written
}

/// Writes a text by the way of a further file.
fn put<N: Files>(rt: &N, path: &str, beside: &str, text: &str) -> io::Result<()> {
    fs::write(rt, beside, text)?;
    fs::rename(rt, beside, path)
}

/// Counts a thing of this name once more.
pub fn count(counts: &mut [(&'static str, u64)], name: &str) {
    for (known, number) in counts.iter_mut() {
        if *known == name {
            *number = number.saturating_add(1);
        }
    }
}

/// Adds a metric of one value, of type `gauge` or `counter`.
pub fn push_figure(
    text: &mut String,
    kind: &str,
    name: &str,
    value: u64,
) -> Result<(), AllocError> {
    writeln!(text, "# TYPE {name} {kind}\n{name} {value}")
}

/// Adds a counter that has a value for each name of a label.
pub fn push_counts(
    text: &mut String,
    name: &str,
    label: &str,
    counts: &[(&'static str, u64)],
) -> Result<(), AllocError> {
    writeln!(text, "# TYPE {name} counter")?;
    for (value, number) in counts {
        writeln!(text, "{name}{{{label}=\"{value}\"}} {number}")?;
    }
    Ok(())
}
