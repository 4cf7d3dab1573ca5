//! The sizes of what a vat takes in.

ghost use Rattle.std.specs.Prelude.{◌≡◌};
ghost use Rattle.std.specs.List.{list_all};
ghost use Rattle.cp_rpc.specs.Viewed.{viewed_message, viewed_descriptor, viewed_exception, viewed_payload, viewed_resolution, viewed_returned, viewed_target};
ghost use Rattle.cp_vat_machine.specs.Capacity.{cap_fits, caps_fit, content_fits, descriptor_fits, exception_fits, message_fits, outcome_fits, payload_fits, request_fits, resolution_fits, returned_fits, target_fits, transform_fits};

use cp_refs::{Cap, Outcome, Request};
use cp_rpc::{
    CapTableView, DescriptorView, Exception, ExceptionView, MessageIn, PayloadView, ResolutionView,
    ReturnedView, Source, TargetView,
};
use cp_tree::{Whole, fits};

/// How deep a content is at most.
/// What a message puts around it keeps within the standard 64 levels.
const CONTENT_DEPTH: u32 = 60;

/// How much a content costs at most.
/// Half the standard limit: what a message puts around it costs less than the other half.
const CONTENT_COST: u64 = 4_194_304;

/// How many capabilities a table holds at most.
const TABLE_LENGTH: usize = 1024;

/// How many steps a transform or a path has at most.
const PATH_LENGTH: usize = 16;

/// How many bytes a reason or a trace has at most.
const TEXT_LENGTH: usize = 65_536;

/// Whether a message of the peer's is within the vat's sizes.
pub(crate) fn message_fits<S: Source>(message: &MessageIn<S>) -> bool
    ensures { result ≡ message_fits (viewed_message S.seen message.now) }
{
    match message {
        MessageIn::Abort(exception) => exception_fits_in(exception),
        MessageIn::Call(call) => target_fits(&call.target) && payload_fits(&call.params),
        MessageIn::Return(returned) => returned_fits(&returned.returned),
        MessageIn::Resolve(resolve) => resolution_fits(&resolve.resolution),
        MessageIn::Disembargo(disembargo) => target_fits(&disembargo.target),
        _ => true,
    }
}

/// Whether a request of the application's is within the vat's sizes.
pub(crate) fn request_fits(request: &Request) -> bool
    ensures { result ≡ request_fits request.now }
{
    content_fits(&request.content) && caps_fit(request.caps.caps())
}

/// Whether an outcome of the application's is within the vat's sizes.
pub(crate) fn outcome_fits(outcome: &Outcome) -> bool
    ensures { result ≡ outcome_fits outcome.now }
{
    match outcome {
        Outcome::Results { content, caps } => content_fits(content) && caps_fit(caps.caps()),
        Outcome::Failed(exception) => exception_fits(exception),
        Outcome::Canceled => true,
    }
}

/// Whether a capability of the application's is within the vat's sizes.
pub(crate) fn cap_fits(cap: &Cap) -> bool
    ensures { result ≡ cap_fits cap.now }
{
    match cap {
        Cap::Pipelined(_, path) => path.fields().len() <= PATH_LENGTH,
        Cap::Broken(exception) => exception_fits(exception),
        _ => true,
    }
}

fn exception_fits_in<S: Source>(exception: &ExceptionView<S>) -> bool
    ensures { result ≡ exception_fits (viewed_exception S.seen exception.now) }
{
    exception.reason.len() <= TEXT_LENGTH && exception.trace.len() <= TEXT_LENGTH
}

fn target_fits<S: Source>(target: &TargetView<S>) -> bool
    ensures { result ≡ target_fits (viewed_target S.seen target.now) }
{
    match target {
        TargetView::PromisedAnswer(answer) => answer.transform.len() <= PATH_LENGTH,
        _ => true,
    }
}

fn payload_fits<S: Source>(payload: &PayloadView<S>) -> bool
    ensures { result ≡ payload_fits (viewed_payload S.seen payload.now) }
{
    payload.content.fits(CONTENT_DEPTH, CONTENT_COST)
        && payload.cap_table.len() <= TABLE_LENGTH
        && all_descriptors_fit(&payload.cap_table)
}

fn all_descriptors_fit<S: Source>(table: &CapTableView<S>) -> bool
    ensures { result ≡ list_all descriptor_fits table.now }
{
    for i in 0..table.len() {
        if !descriptor_fits(&table.descriptor(i)) {
            return false;
        }
    }
    true
}

fn descriptor_fits<S: Source>(descriptor: &DescriptorView<S>) -> bool
    ensures { result ≡ descriptor_fits (viewed_descriptor S.seen descriptor.now) }
{
    match descriptor {
        DescriptorView::ReceiverAnswer(answer) => answer.transform.len() <= PATH_LENGTH,
        _ => true,
    }
}

fn returned_fits<S: Source>(returned: &ReturnedView<S>) -> bool
    ensures { result ≡ returned_fits (viewed_returned S.seen returned.now) }
{
    match returned {
        ReturnedView::Results(payload) => payload_fits(payload),
        ReturnedView::Exception(exception) => exception_fits_in(exception),
        _ => true,
    }
}

fn resolution_fits<S: Source>(resolution: &ResolutionView<S>) -> bool
    ensures { result ≡ resolution_fits (viewed_resolution S.seen resolution.now) }
{
    match resolution {
        ResolutionView::Cap(descriptor) => descriptor_fits(descriptor),
        ResolutionView::Exception(exception) => exception_fits_in(exception),
        ResolutionView::Unknown(_) => true,
    }
}

fn exception_fits(exception: &Exception) -> bool
    ensures { result ≡ exception_fits exception.now }
{
    exception.reason.as_str().len() <= TEXT_LENGTH && exception.trace.as_str().len() <= TEXT_LENGTH
}

fn content_fits(content: &Whole) -> bool
    ensures { result ≡ content_fits content.now }
{
    fits(content.tree(), CONTENT_DEPTH, CONTENT_COST)
}

fn caps_fit(table: &[Cap]) -> bool
    ensures { result ≡ caps_fit table.now }
{
    table.len() <= TABLE_LENGTH && all_caps_fit(table)
}

fn all_caps_fit(table: &[Cap]) -> bool
    ensures { result ≡ list_all cap_fits table.now }
{
    for cap in table {
        if !cap_fits(cap) {
            return false;
        }
    }
    true
}
