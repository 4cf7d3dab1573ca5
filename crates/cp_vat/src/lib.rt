//! One end of a Cap'n Proto RPC connection between two parties (rpc.capnp, levels 0 and 1), without
//! the connection: messages and calls of the application come in, effects go out. Each call is a step
//! of the machine of cp_vat_machine.
#![tactic(auto)]

mod answering;
mod asking;
mod borrowed_call;
mod calling;
mod checks;
mod echo;
mod ending;
mod giving_up;
mod going;
mod on_bootstrap;
mod on_call;
mod on_disembargo;
mod on_finish;
mod on_resolve;
mod on_return;
mod on_unimplemented;
mod receiving;
mod refusals;
mod running;
mod sizes;
mod supported;
mod vat;

pub use borrowed_call::BorrowedCall;
pub use running::run;
pub use supported::is_supported_call;
pub use vat::Vat;
