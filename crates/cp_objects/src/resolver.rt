//! Who resolves a promise.

ghost use Rattle.std.specs.Prelude.{◌≡◌};
ghost use Rattle.cp_refs.specs.declared.cap.Cap.TheVariants as caps;

use crate::session_cap::SessionCap;
use cp_refs::Cap;

/// Resolves a promise that an object made (`Context::promise`), once, by `Context::resolve`. Whoever has it may, in the promise's session, while
/// it is called, polled, or told a response or its end. Where it is dropped before, the promise stays open: calls on it wait as long as
/// the connection, and so does the object that made it.
#[derive(Drop)]
pub struct Resolver {
    pub(crate) session: u64,
    pub(crate) number: u32,
}

impl Resolver {
    /// The capability of the promise, as often as it is needed: name it in results, or in the params of a call. Once the promise is
    /// resolved, name what it came to.
    pub fn cap(&self) -> SessionCap
        ensures { result ≡ record { session = self.now.session; cap = caps.Object self.now.number } }
    {
        SessionCap::new(self.session, Cap::Object(self.number))
    }
}
