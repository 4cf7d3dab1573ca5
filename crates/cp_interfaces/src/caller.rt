//! What makes calls.

use crate::naming_error::NamingError;
use cp_builder::BuildError;
use cp_refs::{Cap, Request};
use std::alloc::Global;

/// One end of a connection by which typed clients call, as a `Client`.
/// Generated code calls by this and not by a `Client`, so it needs no connection, and is proved beside the vat.
pub trait Caller {
    /// Why a call isn't made. Params that can't be written are a reason too, and a capability of another session.
    type Fault: Drop + From<BuildError> + From<NamingError>;

    ghost use Rattle.std.specs.Prelude.{ℕ, Result};
    ghost use Rattle.cp_refs.specs.declared.cap.Cap.{Cap};
    ghost use Rattle.cp_refs.specs.declared.call.Request.{Request};

    /// What a call makes of it: the question's number, or why none is asked.
    ghost sends: { Self → Cap → Request → Result ℕ Self.Fault → Self → Type 0 };

    /// The number of its session.
    ghost number: { Self → ℕ };

    ghost use Rattle.std.specs.Prelude.{◌≡◌};

    /// The number of its session: it calls what is of that.
    fn session(&self) -> u64
        ensures { result ≡ number self.now };

    /// Calls a capability, and gives the number of the question.
    fn send(&mut self, alloc: Global, cap: &Cap, request: Request) -> Result<u32, Self::Fault>
        ensures { sends self.old cap.now request result self.new };
}
