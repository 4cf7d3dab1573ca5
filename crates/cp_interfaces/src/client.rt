//! Typed clients.

ghost use Rattle.cp_objects.specs.declared.session_cap.SessionCap.{SessionCap};

use crate::target::CallTarget;

/// A client that calls a capability by the methods of an interface.
pub trait TypedClient: Drop {
    /// The capability.
    ghost called: { Self → SessionCap };

    ghost use Rattle.std.specs.Prelude.{◌≡◌};

    /// Who calls it so.
    fn of(target: CallTarget) -> Self
        ensures { called result ≡ target };

    /// What it calls.
    fn into_target(self) -> CallTarget
        ensures { result ≡ called self };
}
