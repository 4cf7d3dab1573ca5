//! Calls of methods that aren't made yet.

ghost use Rattle.std.specs.Prelude.{◌≡◌, IfOk};
ghost use Rattle.cp_objects.specs.SessionCap.{calling};

use crate::target::CallTarget;
use cp_objects::SessionCall;
use cp_refs::Request;
use std::alloc::AllocError;

/// A call of a method that isn't made yet: what is called, and its request, which names only what is of the same session.
#[derive(Drop)]
pub struct MethodRequest<'t> {
    pub target: &'t CallTarget,
    pub request: Request,
}

impl MethodRequest<'_> {
    /// The call as an object makes it (`Context::send`), with the number by which the object is told what it came to.
    pub fn outgoing(self, call_id: u64) -> Result<SessionCall, AllocError>
        ensures { IfOk result (λ call. call ≡ calling self.entry.target.now self.entry.request call_id) }
    {
        self.target.outgoing(self.request, call_id)
    }
}
