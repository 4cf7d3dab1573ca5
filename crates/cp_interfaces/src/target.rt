//! What is called.

ghost use Rattle.std.specs.Prelude.{◌≡◌, [], IfOk, slice_index_or};
ghost use Rattle.cp_refs.specs.declared.cap.Cap.TheVariants.{None};
ghost use Rattle.cp_objects.specs.SessionCap.{calling};
ghost use Rattle.cp_interfaces.specs.Calls.{Calls, IsCall, IsCallIf, import_of, request_of, request_naming};
ghost use Rattle.cp_interfaces.specs.Promises.{named, found};

use crate::caller::Caller;
use crate::cap_table::CapTable;
use crate::cap_table_builder::CapTableBuilder;
use crate::method_request::MethodRequest;
use crate::naming_error::NamingError;
use crate::pipeline::Pipeline;
use cp_objects::{SessionCall, SessionCap};
use cp_refs::{Cap, Caps, Request};
use cp_tree::Whole;
use std::alloc::{AllocError, Global};
use std::marker::Model;

/// A capability that is called, of one session. Contracts see it as that.
pub struct CallTarget {
    alloc: Global,
    cap: SessionCap,
}

impl Model for CallTarget {
    ghost use Rattle.cp_objects.specs.declared.session_cap.SessionCap.{SessionCap};
    ghost use Rattle.cp_objects.specs.contracts.session_cap.SessionCap.{the_row};

    ghost Value = { SessionCap };

    ghost coded = { the_row.coded };

    ghost view = { λ t. t.cap };
}

// Not derived: a crate that lets one go calls this function, and need not prove the drop of all that it holds.
impl Drop for CallTarget {
    fn drop(self) {
        let CallTarget { alloc: _, cap: _ } = self;
    }
}

impl CallTarget {
    /// This capability.
    pub fn new(alloc: Global, cap: SessionCap) -> CallTarget
        ensures { result ≡ cap }
    {
        CallTarget { alloc, cap }
    }

    /// The capability that a field names, by its place in the table that goes with the field's message. A field that names
    /// none, or none of the table, is null.
    pub fn of_field(
        alloc: Global,
        place: Option<u32>,
        caps: CapTable<'_>,
    ) -> Result<CallTarget, AllocError>
        ensures { IfOk result (λ t. t ≡ found place caps.entry) }
    {
        let cap = match place {
            Some(place) => at(alloc, place, caps.caps)?,
            None => Cap::None,
        };
        Ok(CallTarget::new(alloc, SessionCap::new(caps.session, cap)))
    }

    /// Where memory comes from.
    pub fn alloc(&self) -> Global {
        self.alloc
    }

    /// The capability, lent.
    pub fn cap(&self) -> &SessionCap
        ensures { result.now ≡ self.now }
    {
        &self.cap
    }

    /// The capability itself.
    pub fn into_cap(self) -> SessionCap
        ensures { result ≡ self }
    {
        let CallTarget { alloc: _, cap } = self;
        cap
    }

    /// An equal one.
    pub fn copy(&self) -> Result<CallTarget, AllocError>
        ensures { IfOk result (λ t. t ≡ self.now) }
    {
        Ok(CallTarget::new(self.alloc, self.cap.copy(self.alloc)?))
    }

    /// The import that it is, if it is one: an object keeps it, and a client releases it.
    pub fn import(&self) -> Option<u32>
        ensures { result ≡ import_of self.now.cap }
    {
        match self.cap.cap() {
            Cap::Import(import) => Some(*import),
            _ => None,
        }
    }

    /// A call of it that an object makes, with the number by which the object is told what it came to.
    pub(crate) fn outgoing(&self, request: Request, call_id: u64) -> Result<SessionCall, AllocError>
        ensures { IfOk result (λ call. call ≡ calling self.now request call_id) }
    {
        SessionCall::new(self.alloc, &self.cap, request, call_id)
    }

    /// A call of a method whose params name no capability.
    pub fn request(&self, interface: u64, method: u16, content: Whole) -> MethodRequest<'_>
        ensures { IsCall result self.now (request_of interface method content []) }
    {
        let request = Request {
            interface,
            method,
            content,
            caps: Caps::new(Vec::new(self.alloc)),
        };
        MethodRequest {
            target: self,
            request,
        }
    }

    /// A call of a method whose params name the capabilities of a table, which are of the same session.
    pub fn request_naming(
        &self,
        interface: u64,
        method: u16,
        content: Whole,
        table: CapTableBuilder,
    ) -> Result<MethodRequest<'_>, NamingError>
        ensures { IsCallIf result self.now (request_naming interface method content self.now.session table) }
    {
        match table.into_caps(self.cap.session()) {
            Ok(caps) => {
                let request = Request {
                    interface,
                    method,
                    content,
                    caps,
                };
                Ok(MethodRequest {
                    target: self,
                    request,
                })
            }
            Err(error) => {
                drop(content);
                Err(NamingError::from(error))
            }
        }
    }

    /// Calls it, if it is of the caller's session.
    pub fn call<C: Caller>(&self, caller: &mut C, request: Request) -> Result<Pipeline, C::Fault>
        ensures { Calls (λ p. p) C.number C.sends C.Fault.From-2.from_gives caller.old self.now request result caller.new }
    {
        let session = caller.session();
        if !self.cap.is_of(session) {
            drop(request);
            return Err(C::Fault::from(NamingError::OtherSession));
        }
        let question = caller.send(self.alloc, self.cap.cap(), request)?;
        Ok(Pipeline::of(self.alloc, session, question))
    }
}

/// The capability at a place of a table. Past the table it is null.
fn at(alloc: Global, place: u32, caps: &Caps) -> Result<Cap, AllocError>
    ensures { IfOk result (λ cap. cap ≡ slice_index_or caps.now place None) }
{
    match caps.caps().get(place as usize) {
        Some(cap) => cap.copy(alloc),
        None => Ok(Cap::None),
    }
}
