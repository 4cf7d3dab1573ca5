//! A message of rpc.capnp as its numbers.

ghost use Rattle.std.specs.Prelude.{◌≡◌, IfOk, IfErr};
ghost use Rattle.cp_rpc.specs.Viewed.{viewed};
ghost use Rattle.c_handles.specs.Check.{HoldsNoMessage};
ghost use Rattle.c_handles.specs.Message.{HasNumbers, numbers_of, of_kind, embargo_of};

use crate::code::CallFault;
use cp_rpc::{DisembargoContext, MessageIn, MessageView};
use cp_stream::view_in;
use cp_words::{Limits, Segments};

/// The kind of a message, and its numbers. What a kind hasn't is 0.
#[repr(C)]
#[derive(Clone, Copy, PartialEq, Eq, Debug)]
pub struct MessageNumbers {
    /// The number of the member of `struct Message`: 2 is a call, 3 a return.
    pub kind: u32,
    /// Of a call, a bootstrap and a finish the question, of a return the answer, of a resolve the promise, of a release the
    /// import, of a disembargo that loops back the embargo.
    pub id: u32,
    /// Of a call.
    pub interface: u64,
    /// Of a call.
    pub method: u16,
    /// Of a return `releaseParamCaps`, of a finish `releaseResultCaps`.
    pub releases: bool,
    /// Of a release the reference count.
    pub count: u32,
}

/// The numbers of the message that segments hold.
pub(crate) fn message_numbers(
    segments: &Segments,
    limits: Limits,
) -> Result<MessageNumbers, CallFault>
    ensures found { IfOk result (HasNumbers limits segments.now) }
    ensures refused { IfErr result (HoldsNoMessage limits segments.now) }
{
    match view_in(segments, limits) {
        Ok(view) => Ok(numbers_of(&view)),
        Err(refusal) => Err(CallFault::Refused(refusal)),
    }
}

/// The numbers of a message that is read in place.
fn numbers_of(view: &MessageView) -> MessageNumbers
    ensures { result ≡ numbers_of (viewed view.now) }
{
    match view {
        MessageIn::Unimplemented(_) => of_kind(0),
        MessageIn::Abort(_) => of_kind(1),
        MessageIn::Call(call) => MessageNumbers {
            id: call.question_id,
            interface: call.interface_id,
            method: call.method_id,
            ..of_kind(2)
        },
        MessageIn::Return(returned) => MessageNumbers {
            id: returned.answer_id,
            releases: returned.release_param_caps,
            ..of_kind(3)
        },
        MessageIn::Finish(finish) => MessageNumbers {
            id: finish.question_id,
            releases: finish.release_result_caps,
            ..of_kind(4)
        },
        MessageIn::Resolve(resolve) => MessageNumbers {
            id: resolve.promise_id,
            ..of_kind(5)
        },
        MessageIn::Release(release) => MessageNumbers {
            id: release.id,
            count: release.reference_count,
            ..of_kind(6)
        },
        MessageIn::Bootstrap(bootstrap) => MessageNumbers {
            id: bootstrap.question_id,
            ..of_kind(8)
        },
        MessageIn::Disembargo(disembargo) => MessageNumbers {
            id: embargo_of(disembargo.context),
            ..of_kind(13)
        },
        MessageIn::Other { which, body: _ } => of_kind(which.number() as u32),
    }
}

/// A kind alone.
fn of_kind(kind: u32) -> MessageNumbers
    ensures { result ≡ of_kind kind }
{
    MessageNumbers {
        kind,
        id: 0,
        interface: 0,
        method: 0,
        releases: false,
        count: 0,
    }
}

/// The embargo of a disembargo that loops back.
fn embargo_of(context: DisembargoContext) -> u32
    ensures { result ≡ embargo_of context }
{
    match context {
        DisembargoContext::SenderLoopback(embargo) => embargo,
        DisembargoContext::ReceiverLoopback(embargo) => embargo,
        _ => 0,
    }
}
