//! What a message does by itself.

ghost use Rattle.std.specs.Prelude.{◌≡◌, true};
ghost use Rattle.cp_rpc.specs.Viewed.{viewed, viewed_message};
ghost use Rattle.cp_vat_machine.specs.Local.{Local};
ghost use Rattle.cp_vat_machine.specs.Step.{On, Receives};
ghost use Rattle.cp_vat_machine.specs.Supported.{is_supported};
ghost use Rattle.cp_vat_machine.specs.Resolving.{OnAbort};
ghost use Rattle.cp_vat_state.specs.Halts.{Acts};
ghost use Rattle.cp_vat_state.specs.StateOf.{state_of};
ghost use Rattle.cp_vat.specs.Lending.{ActsLending};

use crate::borrowed_call::BorrowedCall;
use crate::echo::echo;
use crate::on_bootstrap::on_bootstrap;
use crate::on_call::{on_call, on_call_lending, without_content};
use crate::on_disembargo::on_disembargo;
use crate::on_finish::{on_finish, on_release};
use crate::on_resolve::on_resolve;
use crate::on_return::on_return;
use crate::on_unimplemented::on_unimplemented;
use crate::sizes::message_fits;
use crate::supported::is_supported;
use cp_rpc::{Exception, Message, MessageIn, MessageView, Owned, Source, message_in, tree_of};
use cp_vat_machine::{Effect, PeerFault, Reason};
use cp_vat_state::{Core, StepFault};

/// A message that isn't supported is sent back. Of another one the sizes are looked at, and then it is
/// acted on.
pub(crate) fn receive<S: Source>(
    core: &mut Core,
    message: &MessageIn<S>,
    effects: &mut Vec<Effect>,
) -> Result<(), StepFault>
    requires { Local (state_of core.old) }
    ensures { Acts (Receives (state_of core.old) (viewed_message S.seen message.now)) result effects.old.items effects.new.items (state_of core.new) }
{
    // Looked at where it lies, which takes no memory.
    if !is_supported(message) {
        return echo(core, message, effects);
    }
    if !message_fits(message) {
        return Err(StepFault::Fault(PeerFault::PayloadTooLarge));
    }
    act_on(core, message, effects)
}

/// The same of an owned message, by the tree that it is written as.
pub(crate) fn receive_owned(
    core: &mut Core,
    message: &Message,
    effects: &mut Vec<Effect>,
) -> Result<(), StepFault>
    requires { Local (state_of core.old) }
    ensures { Acts (Receives (state_of core.old) message.now) result effects.old.items effects.new.items (state_of core.new) }
{
    let Ok(root) = tree_of(core.alloc, message) else {
        // Also where a list is too long for any tree, which no peer can send.
        return Err(StepFault::OutOfMemory);
    };
    match message_in(&Owned::root(&root)) {
        Ok(message) => receive(core, &message, effects),
        // The tree says the message.
        Err(_) => unreachable!(),
    }
}

/// The same of a message that is read in place, but that a call which goes to an object is lent to it.
pub(crate) fn receive_lending<'a>(
    core: &mut Core,
    message: &MessageView<'a>,
    effects: &mut Vec<Effect>,
) -> Result<Option<BorrowedCall<'a>>, StepFault>
    requires { Local (state_of core.old) }
    ensures { ActsLending (Receives (state_of core.old) (viewed message.now)) result effects.old.items effects.new.items (state_of core.new) }
{
    let MessageIn::Call(call) = message else {
        return receive_whole(core, message, effects);
    };
    // `receive` tests the same, and answers it.
    if !is_supported(message) || !message_fits(message) {
        return receive_whole(core, message, effects);
    }
    let content = call.params.content.reborrow();
    on_call_lending(core, without_content(core.alloc, call)?, content, effects)
}

/// The same where nothing is lent.
fn receive_whole<'a>(
    core: &mut Core,
    message: &MessageView<'a>,
    effects: &mut Vec<Effect>,
) -> Result<Option<BorrowedCall<'a>>, StepFault>
    requires { Local (state_of core.old) }
    ensures { ActsLending (Receives (state_of core.old) (viewed message.now)) result effects.old.items effects.new.items (state_of core.new) }
{
    receive(core, message, effects)?;
    Ok(None)
}

/// What a message does, by its member. Its small parts are made here, since they are within the vat's sizes. Contents are
/// made where they are kept or sent.
fn act_on<S: Source>(
    core: &mut Core,
    message: &MessageIn<S>,
    effects: &mut Vec<Effect>,
) -> Result<(), StepFault>
    requires supported { is_supported (viewed_message S.seen message.now) ≡ true }
    requires local { Local (state_of core.old) }
    ensures { Acts (On (state_of core.old) (viewed_message S.seen message.now)) result effects.old.items effects.new.items (state_of core.new) }
{
    match message {
        MessageIn::Unimplemented(tree) => on_unimplemented(core, tree),
        MessageIn::Abort(exception) => {
            let exception = exception.exception(core.alloc)?;
            on_abort(core, exception, effects)
        }
        MessageIn::Call(call) => {
            let content = &call.params.content;
            on_call(core, without_content(core.alloc, call)?, content, effects)
        }
        MessageIn::Return(message) => {
            let release = message.release_param_caps;
            on_return(core, message.answer_id, release, &message.returned, effects)
        }
        MessageIn::Finish(finish) => on_finish(core, *finish),
        MessageIn::Resolve(resolve) => on_resolve(core, resolve, effects),
        MessageIn::Release(release) => on_release(core, *release),
        MessageIn::Bootstrap(bootstrap) => on_bootstrap(core, bootstrap.question_id, effects),
        MessageIn::Disembargo(disembargo) => {
            on_disembargo(core, &disembargo.disembargo(core.alloc)?, effects)
        }
        MessageIn::Other { .. } => unreachable!(),
    }
}

/// An Abort closes the vat.
fn on_abort(
    core: &mut Core,
    exception: Exception,
    effects: &mut Vec<Effect>,
) -> Result<(), StepFault>
    ensures { Acts (OnAbort (state_of core.old) exception) result effects.old.items effects.new.items (state_of core.new) }
{
    core.is_closed = true;
    effects.push(Effect::Closed(Reason::Peer(exception)))?;
    Ok(())
}
