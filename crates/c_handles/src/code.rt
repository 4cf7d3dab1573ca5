//! Faults as numbers.

ghost use Rattle.std.specs.Prelude.{◌≡◌};
ghost use Rattle.cp_frame.specs.declared.fault.FrameFault.TheVariants as frames;
ghost use Rattle.cp_stream.specs.declared.fault.Refusal.TheVariants as refusals;
ghost use Rattle.c_handles.specs.declared.code.CallFault.TheVariants.{NotCanonical, Refused};
ghost use Rattle.c_handles.specs.Code.{code_of, frame_code, tree_code, schema_code, write_code, vat_code, refusal_code, canonical_code};
ghost use Rattle.c_handles.specs.Code.{spot_of, tree_spot, schema_spot, canonical_spot, nowhere, at_place, in_field, field_number};

use cp_canonical::CanonicalFault;
use cp_frame::FrameFault;
use cp_reading::TreeFault;
use cp_rpc::{Field, SchemaFault};
use cp_stream::Refusal;
use cp_tree::WriteFault;
use cp_vat_machine::VatFault;
use cp_words::Place;
use std::alloc::AllocError;
use std::error::Error;
use std::fmt;

/// Why a call of C did nothing.
#[derive(Clone, Copy, PartialEq, Eq, Debug)]
pub enum CallFault {
    /// The handle is closed.
    Closed,
    /// A limit is out of its range.
    Limits,
    /// No frame has come since the last call that takes bytes.
    NoFrame,
    /// A kind, a path or a text that the call was given is none, or bytes follow its frame.
    Argument,
    /// The event has no such part.
    NoContent,
    /// The connection is closed.
    Ended,
    /// A rule of the relay forbids a message.
    Forbidden,
    /// F1 to F6, G1 to G10, S1 to S3, B1 to B4.
    Refused(Refusal),
    /// V1 to V11.
    Vat(VatFault),
    /// C1, C2, or why else a message has no canonical form.
    NotCanonical(CanonicalFault),
}

/// Which word of a frame is to blame (G1 to G9, C2), or in `field` which field of rpc.capnp (S1, S2), from 1 on, or which capability
/// (C1). Else all are 0.
#[repr(C)]
#[derive(Clone, Copy, PartialEq, Eq, Debug)]
pub struct Spot {
    pub segment: usize,
    pub word: usize,
    pub field: u32,
}

/// No word and no field.
pub const NOWHERE: Spot = Spot {
    segment: 0,
    word: 0,
    field: 0,
};

impl CallFault {
    /// Its number for C, from 1 on: 100 and n for Fn, 200 and n for Gn, 300 and n for Sn, 400 and n for Bn, 500 and n for Vn,
    /// 600 and n for Cn.
    pub fn code(self) -> u32
        ensures { result ≡ code_of self }
    {
        match self {
            CallFault::Closed => 1,
            CallFault::Limits => 2,
            CallFault::NoFrame => 3,
            CallFault::Argument => 4,
            CallFault::NoContent => 5,
            CallFault::Ended => 6,
            CallFault::Forbidden => 7,
            CallFault::Refused(refusal) => refusal_code(refusal),
            CallFault::Vat(fault) => vat_code(fault),
            CallFault::NotCanonical(fault) => canonical_code(fault),
        }
    }

    /// What is to blame.
    pub fn spot(self) -> Spot
        ensures { result ≡ spot_of self }
    {
        match self {
            CallFault::Refused(Refusal::Tree(fault)) => tree_spot(fault),
            CallFault::Refused(Refusal::Schema(fault)) => schema_spot(fault),
            CallFault::NotCanonical(fault) => canonical_spot(fault),
            _ => NOWHERE,
        }
    }
}

impl fmt::Display for CallFault {
    /// A line that says what it is, and in the alternate form, `{:#}`, what it means too.
    fn fmt<W: fmt::Write>(&self, f: &mut fmt::Formatter<W>) -> fmt::Result {
        match self {
            CallFault::Closed => f.write_str("the handle is closed"),
            CallFault::Limits => f.write_str("a limit is out of its range"),
            CallFault::NoFrame => f.write_str("no frame has come"),
            CallFault::Argument => f.write_str("an argument is out of its range"),
            CallFault::NoContent => f.write_str("the event has no such part"),
            CallFault::Ended => f.write_str("the connection is closed"),
            CallFault::Forbidden => f.write_str("a rule forbids the message"),
            CallFault::Refused(refusal) => refusal.fmt(f),
            CallFault::Vat(fault) => fault.fmt(f),
            CallFault::NotCanonical(fault) => fault.fmt(f),
        }
    }
}

impl Error for CallFault {}

impl From<Refusal> for CallFault {
    ghost from_gives = { λ refusal f. f ≡ Refused refusal };

    fn from(refusal: Refusal) -> CallFault {
        CallFault::Refused(refusal)
    }
}

impl From<FrameFault> for CallFault {
    ghost from_gives = { λ fault f. f ≡ Refused (refusals.Frame fault) };

    fn from(fault: FrameFault) -> CallFault {
        CallFault::Refused(Refusal::Frame(fault))
    }
}

impl From<TreeFault> for CallFault {
    ghost from_gives = { λ fault f. f ≡ Refused (refusals.Tree fault) };

    fn from(fault: TreeFault) -> CallFault {
        CallFault::Refused(Refusal::Tree(fault))
    }
}

impl From<WriteFault> for CallFault {
    ghost from_gives = { λ fault f. f ≡ Refused (refusals.Write fault) };

    fn from(fault: WriteFault) -> CallFault {
        CallFault::Refused(Refusal::Write(fault))
    }
}

impl From<CanonicalFault> for CallFault {
    ghost from_gives = { λ fault f. f ≡ NotCanonical fault };

    fn from(fault: CanonicalFault) -> CallFault {
        CallFault::NotCanonical(fault)
    }
}

impl From<AllocError> for CallFault {
    ghost from_gives = { λ _ f. f ≡ Refused (refusals.Frame frames.OutOfMemory) };

    fn from(_: AllocError) -> CallFault {
        CallFault::Refused(Refusal::Frame(FrameFault::OutOfMemory))
    }
}

/// The number of a refusal.
fn refusal_code(refusal: Refusal) -> u32
    ensures { result ≡ refusal_code refusal }
{
    match refusal {
        Refusal::Frame(fault) => frame_code(fault),
        Refusal::Tree(fault) => tree_code(fault),
        Refusal::Schema(fault) => schema_code(fault),
        Refusal::Write(fault) => write_code(fault),
    }
}

/// F1 to F6.
fn frame_code(fault: FrameFault) -> u32
    ensures { result ≡ frame_code fault }
{
    match fault {
        FrameFault::TooManySegments => 101,
        FrameFault::FrameTooLarge => 102,
        FrameFault::Truncated => 103,
        FrameFault::RunPastFrame => 104,
        FrameFault::Failed => 105,
        FrameFault::OutOfMemory => 106,
    }
}

/// G1 to G10.
fn tree_code(fault: TreeFault) -> u32
    ensures { result ≡ tree_code fault }
{
    match fault {
        TreeFault::NoRoot(_) => 201,
        TreeFault::RootKind(_) => 202,
        TreeFault::OutOfBounds(_) => 203,
        TreeFault::NoSegment(_) => 204,
        TreeFault::BadPad(_) => 205,
        TreeFault::BadTag(_) => 206,
        TreeFault::BadCapability(_) => 207,
        TreeFault::NestingLimit(_) => 208,
        TreeFault::TraversalLimit(_) => 209,
        TreeFault::OutOfMemory => 210,
    }
}

/// S1 to S3.
fn schema_code(fault: SchemaFault) -> u32
    ensures { result ≡ schema_code fault }
{
    match fault {
        SchemaFault::Kind(_) => 301,
        SchemaFault::Text(_) => 302,
        SchemaFault::OutOfMemory => 303,
    }
}

/// B1 to B4.
fn write_code(fault: WriteFault) -> u32
    ensures { result ≡ write_code fault }
{
    match fault {
        WriteFault::TooDeep => 401,
        WriteFault::TooCostly => 402,
        WriteFault::OutOfMemory => 403,
        WriteFault::TooManyWords => 404,
    }
}

/// V1 to V11.
fn vat_code(fault: VatFault) -> u32
    ensures { result ≡ vat_code fault }
{
    match fault {
        VatFault::UnknownQuestion => 501,
        VatFault::UnknownPromise => 502,
        VatFault::AlreadyResolved => 503,
        VatFault::PromiseCycle => 504,
        VatFault::Unsettled => 505,
        VatFault::InUse => 506,
        VatFault::TooLarge => 507,
        VatFault::Full => 508,
        VatFault::Closed => 509,
        VatFault::OutOfMemory => 510,
        VatFault::UnknownImport => 511,
    }
}

/// C1 and C2, or the fault of the tree, or of what is written.
fn canonical_code(fault: CanonicalFault) -> u32
    ensures { result ≡ canonical_code fault }
{
    match fault {
        CanonicalFault::Tree(fault) => tree_code(fault),
        CanonicalFault::Write(fault) => write_code(fault),
        CanonicalFault::Capability(_) => 601,
        CanonicalFault::Difference(_) => 602,
    }
}

/// The word that is to blame.
fn tree_spot(fault: TreeFault) -> Spot
    ensures { result ≡ tree_spot fault }
{
    match fault {
        TreeFault::NoRoot(place) => at_place(place),
        TreeFault::RootKind(place) => at_place(place),
        TreeFault::OutOfBounds(place) => at_place(place),
        TreeFault::NoSegment(place) => at_place(place),
        TreeFault::BadPad(place) => at_place(place),
        TreeFault::BadTag(place) => at_place(place),
        TreeFault::BadCapability(place) => at_place(place),
        TreeFault::NestingLimit(place) => at_place(place),
        TreeFault::TraversalLimit(place) => at_place(place),
        TreeFault::OutOfMemory => NOWHERE,
    }
}

/// The field that is to blame.
fn schema_spot(fault: SchemaFault) -> Spot
    ensures { result ≡ schema_spot fault }
{
    match fault {
        SchemaFault::Kind(field) => in_field(field),
        SchemaFault::Text(field) => in_field(field),
        SchemaFault::OutOfMemory => NOWHERE,
    }
}

/// The word or the capability that is to blame.
fn canonical_spot(fault: CanonicalFault) -> Spot
    ensures { result ≡ canonical_spot fault }
{
    match fault {
        CanonicalFault::Tree(fault) => tree_spot(fault),
        CanonicalFault::Write(_) => NOWHERE,
        CanonicalFault::Capability(index) => Spot {
            segment: 0,
            word: 0,
            field: index,
        },
        CanonicalFault::Difference(place) => at_place(place),
    }
}

/// A word.
fn at_place(place: Place) -> Spot
    ensures { result ≡ at_place place }
{
    Spot {
        segment: place.segment,
        word: place.word,
        field: 0,
    }
}

/// A field.
fn in_field(field: Field) -> Spot
    ensures { result ≡ in_field field }
{
    Spot {
        segment: 0,
        word: 0,
        field: field_number(field),
    }
}

/// The number of a field of rpc.capnp.
fn field_number(field: Field) -> u32
    ensures { result ≡ field_number field }
{
    match field {
        Field::MessageAbort => 1,
        Field::MessageCall => 2,
        Field::MessageReturn => 3,
        Field::MessageFinish => 4,
        Field::MessageResolve => 5,
        Field::MessageRelease => 6,
        Field::MessageBootstrap => 7,
        Field::MessageDisembargo => 8,
        Field::CallTarget => 9,
        Field::CallParams => 10,
        Field::MessageTargetPromisedAnswer => 11,
        Field::PromisedAnswerTransform => 12,
        Field::PayloadCapTable => 13,
        Field::CapDescriptorReceiverAnswer => 14,
        Field::ReturnResults => 15,
        Field::ReturnException => 16,
        Field::ResolveCap => 17,
        Field::ResolveException => 18,
        Field::DisembargoTarget => 19,
        Field::ExceptionReason => 20,
        Field::ExceptionTrace => 21,
    }
}
