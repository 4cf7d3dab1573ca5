//! What is wrong with a word.

use cp_encoder::{EncodeFault, NotationFault};
use std::alloc::{AllocError, Global};

/// A fault at a column: what is wanted there, and what there is.
pub(crate) fn missed(alloc: Global, column: usize, wanted: &str, there: &str) -> EncodeFault {
    let there = if there.is_empty() { "nothing" } else { there };
    let mut message = String::new(alloc);
    match write!(message, "wanted {wanted}, there is {there}") {
        Ok(()) => EncodeFault::Text(NotationFault {
            line: 1,
            column,
            message,
        }),
        Err(error) => {
            drop(message);
            EncodeFault::from(error)
        }
    }
}

/// The same, where that is wanted which a text says, if there was memory for it.
pub(crate) fn missed_made(
    alloc: Global,
    column: usize,
    wanted: Result<String, AllocError>,
    there: &str,
) -> EncodeFault {
    match wanted {
        Ok(wanted) => {
            let fault = missed(alloc, column, wanted.as_str(), there);
            drop(wanted);
            fault
        }
        Err(error) => EncodeFault::from(error),
    }
}

/// A fault of a text before which so many bytes of the word stand.
pub(crate) fn behind(before: usize, fault: EncodeFault) -> EncodeFault {
    match fault {
        EncodeFault::Text(
            NotationFault {
                line: 1,
                column,
                message,
            },
        ) => EncodeFault::Text(NotationFault {
            line: 1,
            column: column.saturating_add(before),
            message,
        }),
        fault => fault,
    }
}

/// A fault of a part as one at this column.
pub(crate) fn at_column(column: usize, fault: EncodeFault) -> EncodeFault {
    match fault {
        EncodeFault::Text(
            NotationFault {
                line,
                column: _,
                message,
            },
        ) => EncodeFault::Text(NotationFault {
            line,
            column,
            message,
        }),
        fault => fault,
    }
}
