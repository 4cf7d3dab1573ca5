//! Calls whose params are lent.

use cp_reading::View;
use cp_refs::{Caps, Origin};

/// A call of the peer's that goes to an object of this end, whose params are lent out of its message. Hand it to the object, and
/// answer it by its origin, once, now or later. The imports in its table stay until they are released.
#[derive(Drop)]
pub struct BorrowedCall<'a> {
    pub object: u32,
    pub origin: Origin,
    /// Its place in the order in which calls came, from 0.
    pub ticket: u64,
    pub interface: u64,
    pub method: u16,
    /// The content of its params, in place.
    pub content: View<'a>,
    /// The capability table of its params.
    pub caps: Caps,
}
