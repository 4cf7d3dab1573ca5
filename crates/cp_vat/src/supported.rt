//! Which messages a vat of level 1 acts on.

ghost use Rattle.std.specs.Prelude.{◌≡◌};
ghost use Rattle.std.specs.List.{list_all};
ghost use Rattle.cp_rpc.specs.Viewed.{viewed_message, viewed_call, viewed_descriptor, viewed_resolution, viewed_returned, viewed_target};
ghost use Rattle.cp_vat_machine.specs.Supported.{is_supported, is_supported_context, is_supported_descriptor, is_supported_resolution, is_supported_returned, is_supported_target, is_supported_to_caller, is_supported_transform};

use cp_rpc::{
    CallView, CapTableView, DescriptorView, DisembargoContext, MessageIn, Op, ResolutionView,
    ReturnedView, SendResultsToView, Source, TargetView, TransformView,
};

/// Whether a message has no member that is unknown (the type of an exception aside), of three-party
/// handoff or of tail calls.
pub(crate) fn is_supported<S: Source>(message: &MessageIn<S>) -> bool
    ensures { result ≡ is_supported (viewed_message S.seen message.now) }
{
    match message {
        MessageIn::Call(call) => {
            matches!(&call.send_results_to, SendResultsToView::Caller) && is_supported_call(call)
        }
        MessageIn::Return(returned) => is_supported_returned(&returned.returned),
        MessageIn::Resolve(resolve) => is_supported_resolution(&resolve.resolution),
        MessageIn::Disembargo(disembargo) => {
            is_loopback(&disembargo.context) && is_supported_target(&disembargo.target)
        }
        MessageIn::Other { .. } => false,
        _ => true,
    }
}

/// Whether a call that is read in place has no such member but for where its results go.
pub fn is_supported_call<S: Source>(call: &CallView<S>) -> bool
    ensures { result ≡ is_supported_to_caller (viewed_call S.seen call.now) }
{
    is_supported_target(&call.target) && are_supported(&call.params.cap_table)
}

fn is_supported_target<S: Source>(target: &TargetView<S>) -> bool
    ensures { result ≡ is_supported_target (viewed_target S.seen target.now) }
{
    match target {
        TargetView::ImportedCap(_) => true,
        TargetView::PromisedAnswer(answer) => is_supported_transform(&answer.transform),
        TargetView::Unknown(_) => false,
    }
}

fn is_supported_transform<S: Source>(transform: &TransformView<S>) -> bool
    ensures { result ≡ is_supported_transform transform.now }
{
    for i in 0..transform.len() {
        if let Op::Unknown(_) = transform.op(i) {
            return false;
        }
    }
    true
}

fn are_supported<S: Source>(table: &CapTableView<S>) -> bool
    ensures { result ≡ list_all is_supported_descriptor table.now }
{
    for i in 0..table.len() {
        if !is_supported_descriptor(&table.descriptor(i)) {
            return false;
        }
    }
    true
}

fn is_supported_descriptor<S: Source>(descriptor: &DescriptorView<S>) -> bool
    ensures { result ≡ is_supported_descriptor (viewed_descriptor S.seen descriptor.now) }
{
    match descriptor {
        DescriptorView::ReceiverAnswer(answer) => is_supported_transform(&answer.transform),
        DescriptorView::ThirdPartyHosted(_) | DescriptorView::Unknown(_) => false,
        _ => true,
    }
}

fn is_supported_returned<S: Source>(returned: &ReturnedView<S>) -> bool
    ensures { result ≡ is_supported_returned (viewed_returned S.seen returned.now) }
{
    match returned {
        ReturnedView::Results(payload) => are_supported(&payload.cap_table),
        ReturnedView::Exception(_) | ReturnedView::Canceled => true,
        _ => false,
    }
}

fn is_supported_resolution<S: Source>(resolution: &ResolutionView<S>) -> bool
    ensures { result ≡ is_supported_resolution (viewed_resolution S.seen resolution.now) }
{
    match resolution {
        ResolutionView::Cap(descriptor) => is_supported_descriptor(descriptor),
        ResolutionView::Exception(_) => true,
        ResolutionView::Unknown(_) => false,
    }
}

fn is_loopback(context: &DisembargoContext) -> bool
    ensures { result ≡ is_supported_context context.now }
{
    matches!(
        context,
        DisembargoContext::SenderLoopback(_) | DisembargoContext::ReceiverLoopback(_)
    )
}
