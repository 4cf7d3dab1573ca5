//! Calls that objects make, with the sessions that they are of.

ghost use Rattle.std.specs.Prelude.{◌≡◌, IfOk};
ghost use Rattle.cp_objects.specs.SessionCap.{call_for, calling};

use crate::reference_error::ReferenceError;
use crate::session_cap::SessionCap;
use cp_refs::Request;
use cp_servants::OutgoingCall;
use std::alloc::{AllocError, Global};

/// A call that an object of this session makes. Its request names only what is of that session.
pub struct SessionCall {
    pub(crate) session: u64,
    pub(crate) call: OutgoingCall,
}

// Not derived: a crate that lets one go calls this function, and need not prove the drop of all that it holds.
impl Drop for SessionCall {
    fn drop(self) {
        let SessionCall {
            session: _,
            call: _,
        } = self;
    }
}

impl SessionCall {
    /// A call of a capability, whose request names only what is of the same session, with the number by which the object is told what it
    /// came to.
    pub fn new(
        alloc: Global,
        target: &SessionCap,
        request: Request,
        call_id: u64,
    ) -> Result<SessionCall, AllocError>
        ensures { IfOk result (λ call. call ≡ calling target.now request call_id) }
    {
        match target.cap.copy(alloc) {
            Ok(cap) => Ok(SessionCall {
                session: target.session,
                call: OutgoingCall {
                    cap,
                    request,
                    call_id,
                },
            }),
            Err(error) => {
                drop(request);
                Err(error)
            }
        }
    }

    /// The call, for the session that makes it.
    pub fn into_call(self, session: u64) -> Result<OutgoingCall, ReferenceError>
        ensures { result ≡ call_for session self }
    {
        if self.session != session {
            drop(self);
            return Err(ReferenceError::OtherSession);
        }
        let SessionCall { session: _, call } = self;
        Ok(call)
    }
}
