//! Calls that come.

use cp_refs::Origin;
use cp_servants::RequestView;

/// A call of the peer's that goes to an object of this end.
#[derive(Drop)]
pub(crate) struct IncomingCall<'a> {
    pub(crate) object: u32,
    pub(crate) origin: Origin,
    pub(crate) ticket: u64,
    pub(crate) request: RequestView<'a>,
}
