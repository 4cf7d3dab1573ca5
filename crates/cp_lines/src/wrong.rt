//! What is wrong with a line.

use std::error::Error;
use std::fmt;

/// Where a line isn't as it should be.
#[derive(Clone, Copy, PartialEq, Eq, Debug)]
pub struct Wrong {
    /// The place of the byte, from 1.
    pub column: usize,
    /// What is wanted there.
    pub wanted: &'static str,
}

impl fmt::Display for Wrong {
    fn fmt<W: fmt::Write>(&self, f: &mut fmt::Formatter<W>) -> fmt::Result {
        let Wrong { column, wanted } = self;
        write!(f, "column {column}: wanted {wanted}")
    }
}

impl Error for Wrong {}
