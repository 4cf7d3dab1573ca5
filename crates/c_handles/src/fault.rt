//! Faults of a connection, as C has them.

ghost use Rattle.std.specs.Prelude.{◌≡◌};
ghost use Rattle.c_handles.specs.Fault.{fault_of, told};

use crate::code::CallFault;
use cp_connection::ConnectionFault;
use cp_vat_machine::VatFault;

/// The fault of a connection as that of a call of C. What ended it has a number for each of its own faults.
pub fn fault_of(fault: ConnectionFault) -> CallFault
    ensures { result ≡ fault_of fault }
{
    match fault {
        ConnectionFault::Unreadable { at: _, refusal } => CallFault::Refused(refusal),
        ConnectionFault::Closed => CallFault::Ended,
        ConnectionFault::OutOfMemory => CallFault::Vat(VatFault::OutOfMemory),
        ConnectionFault::Refused(fault) => CallFault::Vat(fault),
    }
}

/// What a call gives, its fault as C has it.
pub fn told<T: Copy>(given: Result<T, ConnectionFault>) -> Result<T, CallFault>
    ensures { result ≡ told given }
{
    match given {
        Ok(value) => Ok(value),
        Err(fault) => Err(fault_of(fault)),
    }
}
