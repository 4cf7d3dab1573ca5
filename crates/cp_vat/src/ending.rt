//! What follows an event's own part.

ghost use Rattle.std.specs.Prelude.{◌≡◌, ◌++◌, [], None, IfOk, OnOk};
ghost use Rattle.cp_vat_machine.specs.Step.{aborts};
ghost use Rattle.cp_vat_laws.specs.Within.{Within};
ghost use Rattle.cp_vat_state.specs.StateOf.{state_of};
ghost use Rattle.cp_vat.specs.Lending.{LendingEnds};
ghost use Rattle.cp_vat.specs.Stepping.{CallEnds, Ends, MessageEnds};

use crate::borrowed_call::BorrowedCall;
use cp_refs::failed;
use cp_rpc::Message;
use cp_vat_machine::{Acted, Effect, Effects, PeerFault, Reason, VatFault};
use cp_vat_rules::leave::leave;
use cp_vat_state::{Core, StepFault};
use std::alloc::{AllocError, Global};

/// Ends a call of the application.
pub(crate) fn end_call<V: Drop>(
    core: &mut Core,
    done: Result<V, VatFault>,
    effects: Vec<Effect>,
) -> Result<Acted<V>, VatFault>
    requires { IfOk done (λ _. Within (state_of core.old) None []) }
    ensures { CallEnds (state_of core.old) done effects.items result (state_of core.new) }
{
    match done {
        Ok(value) => follow(core, value, effects),
        // The peer isn't told: an Abort would take memory too.
        Err(VatFault::OutOfMemory) => {
            core.is_closed = true;
            Err(VatFault::OutOfMemory)
        }
        Err(fault) => Err(fault),
    }
}

/// Ends a message. A fault of the peer's is answered by an Abort, and closes the vat.
pub(crate) fn end_message(
    core: &mut Core,
    done: Result<(), StepFault>,
    effects: Vec<Effect>,
) -> Result<Acted<()>, VatFault>
    requires { IfOk done (λ _. Within (state_of core.old) None []) }
    ensures { MessageEnds (state_of core.old) done effects.items result (state_of core.new) }
{
    match done {
        Ok(()) => follow(core, (), effects),
        Err(StepFault::Fault(fault)) => {
            core.is_closed = true;
            // A fault in the message's own part sends the Abort alone.
            let mut aborted = Vec::new(core.alloc);
            abort(core.alloc, fault, &mut aborted)?;
            Ok(Acted {
                value: (),
                effects: Effects::new(aborted),
            })
        }
        Err(StepFault::OutOfMemory) => {
            core.is_closed = true;
            Err(VatFault::OutOfMemory)
        }
    }
}

/// Ends a message that may lend a call.
pub(crate) fn end_lending<'a>(
    core: &mut Core,
    done: Result<Option<BorrowedCall<'a>>, StepFault>,
    effects: Vec<Effect>,
) -> Result<Acted<Option<BorrowedCall<'a>>>, VatFault>
    requires { IfOk done (λ _. Within (state_of core.old) None []) }
    ensures { LendingEnds (state_of core.old) done.entry effects.items result (state_of core.new) }
{
    match done {
        Ok(lent) => follow(core, lent, effects),
        Err(step_fault) => {
            let acted = end_message(core, Err(step_fault), effects)?;
            Ok(Acted {
                value: None,
                effects: acted.effects,
            })
        }
    }
}

/// Waiting calls leave. One that finds a table full closes the vat, as a fault of the peer's.
fn follow<V: Drop>(
    core: &mut Core,
    value: V,
    mut effects: Vec<Effect>,
) -> Result<Acted<V>, VatFault>
    requires { Within (state_of core.old) None [] }
    ensures { Ends (state_of core.old) value effects.items result (state_of core.new) }
{
    match leave(core, &mut effects) {
        Ok(()) => {}
        Err(StepFault::Fault(fault)) => {
            core.is_closed = true;
            // The Abort follows the effects of the calls that left before.
            abort(core.alloc, fault, &mut effects)?;
        }
        Err(StepFault::OutOfMemory) => {
            core.is_closed = true;
            return Err(VatFault::OutOfMemory);
        }
    }
    Ok(Acted {
        value,
        effects: Effects::new(effects),
    })
}

/// Adds what a fault of the peer's is answered by.
fn abort(alloc: Global, fault: PeerFault, effects: &mut Vec<Effect>) -> Result<(), AllocError>
    ensures { OnOk result (effects.new.items ≡ effects.old.items ++ aborts fault) }
{
    effects.push(Effect::Send(Message::Abort(failed(alloc, fault.text())?)))?;
    effects.push(Effect::Closed(Reason::Fault(fault)))?;
    Ok(())
}
