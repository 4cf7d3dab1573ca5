//! The capabilities that came with a message.

use cp_refs::Caps;

/// The table of the capabilities that params or results name, lent, with the session that they came by.
#[derive(Clone, Copy)]
pub struct CapTable<'a> {
    pub session: u64,
    pub caps: &'a Caps,
}
