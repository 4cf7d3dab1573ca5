//! The text of a fault that C has as a number.

use crate::code::{CallFault, Spot};
use cp_canonical::CanonicalFault;
use cp_frame::FrameFault;
use cp_reading::TreeFault;
use cp_rpc::{Field, SchemaFault};
use cp_stream::Refusal;
use cp_tree::WriteFault;
use cp_vat_machine::VatFault;
use cp_words::Place;

impl CallFault {
    /// The fault of a number and of what is to blame.
    pub fn of(code: u32, spot: Spot) -> Option<CallFault> {
        Some(match code {
            1 => CallFault::Closed,
            2 => CallFault::Limits,
            3 => CallFault::NoFrame,
            4 => CallFault::Argument,
            5 => CallFault::NoContent,
            6 => CallFault::Ended,
            7 => CallFault::Forbidden,
            101..=106 => CallFault::Refused(Refusal::Frame(frame_fault(code)?)),
            201..=210 => CallFault::Refused(Refusal::Tree(tree_fault(code, spot)?)),
            301..=303 => CallFault::Refused(Refusal::Schema(schema_fault(code, spot)?)),
            401..=404 => CallFault::Refused(Refusal::Write(write_fault(code)?)),
            501..=511 => CallFault::Vat(vat_fault(code)?),
            601 => CallFault::NotCanonical(CanonicalFault::Capability(spot.field)),
            602 => CallFault::NotCanonical(CanonicalFault::Difference(Place {
                segment: spot.segment,
                word: spot.word,
            })),
            _ => return None,
        })
    }
}

/// F1 to F6.
fn frame_fault(code: u32) -> Option<FrameFault> {
    Some(match code {
        101 => FrameFault::TooManySegments,
        102 => FrameFault::FrameTooLarge,
        103 => FrameFault::Truncated,
        104 => FrameFault::RunPastFrame,
        105 => FrameFault::Failed,
        106 => FrameFault::OutOfMemory,
        _ => return None,
    })
}

/// G1 to G10.
fn tree_fault(code: u32, spot: Spot) -> Option<TreeFault> {
    let place = Place {
        segment: spot.segment,
        word: spot.word,
    };
    Some(match code {
        201 => TreeFault::NoRoot(place),
        202 => TreeFault::RootKind(place),
        203 => TreeFault::OutOfBounds(place),
        204 => TreeFault::NoSegment(place),
        205 => TreeFault::BadPad(place),
        206 => TreeFault::BadTag(place),
        207 => TreeFault::BadCapability(place),
        208 => TreeFault::NestingLimit(place),
        209 => TreeFault::TraversalLimit(place),
        210 => TreeFault::OutOfMemory,
        _ => return None,
    })
}

/// S1 to S3.
fn schema_fault(code: u32, spot: Spot) -> Option<SchemaFault> {
    Some(match code {
        301 => SchemaFault::Kind(field_of(spot.field)?),
        302 => SchemaFault::Text(field_of(spot.field)?),
        303 => SchemaFault::OutOfMemory,
        _ => return None,
    })
}

/// B1 to B4.
fn write_fault(code: u32) -> Option<WriteFault> {
    Some(match code {
        401 => WriteFault::TooDeep,
        402 => WriteFault::TooCostly,
        403 => WriteFault::OutOfMemory,
        404 => WriteFault::TooManyWords,
        _ => return None,
    })
}

/// V1 to V11.
fn vat_fault(code: u32) -> Option<VatFault> {
    Some(match code {
        501 => VatFault::UnknownQuestion,
        502 => VatFault::UnknownPromise,
        503 => VatFault::AlreadyResolved,
        504 => VatFault::PromiseCycle,
        505 => VatFault::Unsettled,
        506 => VatFault::InUse,
        507 => VatFault::TooLarge,
        508 => VatFault::Full,
        509 => VatFault::Closed,
        510 => VatFault::OutOfMemory,
        511 => VatFault::UnknownImport,
        _ => return None,
    })
}

/// The field of a number.
fn field_of(number: u32) -> Option<Field> {
    Some(match number {
        1 => Field::MessageAbort,
        2 => Field::MessageCall,
        3 => Field::MessageReturn,
        4 => Field::MessageFinish,
        5 => Field::MessageResolve,
        6 => Field::MessageRelease,
        7 => Field::MessageBootstrap,
        8 => Field::MessageDisembargo,
        9 => Field::CallTarget,
        10 => Field::CallParams,
        11 => Field::MessageTargetPromisedAnswer,
        12 => Field::PromisedAnswerTransform,
        13 => Field::PayloadCapTable,
        14 => Field::CapDescriptorReceiverAnswer,
        15 => Field::ReturnResults,
        16 => Field::ReturnException,
        17 => Field::ResolveCap,
        18 => Field::ResolveException,
        19 => Field::DisembargoTarget,
        20 => Field::ExceptionReason,
        21 => Field::ExceptionTrace,
        _ => return None,
    })
}
