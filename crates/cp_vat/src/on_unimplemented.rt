//! What an Unimplemented does.

ghost use Rattle.std.specs.Prelude.{Some};
ghost use Rattle.cp_rpc.specs.Viewed.{viewed_message};
ghost use Rattle.cp_vat_machine.specs.Resolving.{OnUnimplemented, UnknownToPeer};
ghost use Rattle.cp_vat_state.specs.Halts.{Quiet};
ghost use Rattle.cp_vat_state.specs.StateOf.{state_of};

use crate::on_resolve::given_back;
use cp_rpc::{MessageIn, Source, SourceKind, message_in};
use cp_vat_machine::PeerFault;
use cp_vat_rules::exports::release_exports;
use cp_vat_state::{Core, StepFault};

/// A Resolve that the peer doesn't know gives back what it named. Any other message is one that this
/// vat needs. Nothing is made of the tree.
pub(crate) fn on_unimplemented<S: Source>(core: &mut Core, tree: &S) -> Result<(), StepFault>
    ensures { Quiet (OnUnimplemented (state_of core.old) (S.seen tree.now)) result (state_of core.new) }
{
    let SourceKind::Struct = tree.source_kind() else {
        return Err(StepFault::Fault(PeerFault::PeerLacksLevelOne));
    };
    match message_in(tree) {
        Ok(message) => unknown_to_peer(core, &message),
        Err(_) => Err(StepFault::Fault(PeerFault::PeerLacksLevelOne)),
    }
}

/// What a message does that the peer doesn't know.
fn unknown_to_peer<S: Source>(core: &mut Core, message: &MessageIn<S>) -> Result<(), StepFault>
    ensures { Quiet (UnknownToPeer (state_of core.old) (Some (viewed_message S.seen message.now))) result (state_of core.new) }
{
    let MessageIn::Resolve(resolve) = message else {
        return Err(StepFault::Fault(PeerFault::PeerLacksLevelOne));
    };
    let Some(id) = given_back(&resolve.resolution) else {
        return Ok(());
    };
    if let Err(fault) = release_exports(&mut core.exports, &[id]) {
        return Err(StepFault::Fault(fault));
    }
    Ok(())
}
