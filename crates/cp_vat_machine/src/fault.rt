//! What a peer can do wrong, and what an application's call can be refused for.

use cp_messages::ExceptionKind;
use std::alloc::{AllocError, AllocFailed};
use std::error::Error;
use std::fmt;

/// A fault of the peer. It is answered by an Abort of type failed with its text as the reason.
#[derive(Clone, Copy, PartialEq, Eq, Debug)]
pub enum PeerFault {
    /// P1: a Call or Bootstrap under a number whose answer is kept.
    QuestionInUse,
    /// P2: a Return for a question that isn't open on the wire, or was returned.
    UnknownQuestion,
    /// P3: a Finish, a target or a receiverAnswer of an answer that isn't kept, or whose Finish came.
    UnknownAnswer,
    /// P4: a target, a receiverHosted or a lowering of an export that doesn't exist.
    UnknownExport,
    /// P5: what one message lowers an export by, all together, passes its count.
    ReleaseTooLarge,
    /// P6: a Resolve of an import that isn't a promise, or was resolved.
    NotAnOpenPromise,
    /// P7: a senderLoopback whose target doesn't end at an import.
    DisembargoTarget,
    /// P8: a receiverLoopback of a number that isn't an open embargo.
    UnknownEmbargo,
    /// P9: a content, a capability table, a transform, a reason or a trace past the vat's limits.
    PayloadTooLarge,
    /// P10: a table is full, or the last ticket was given.
    TableFull,
    /// P11: an Unimplemented that couldn't be written.
    EchoTooLarge,
    /// P12: the peer lacks a message that this end needs.
    PeerLacksLevelOne,
}

impl PeerFault {
    ghost use Rattle.std.specs.Prelude.{◌≡◌};
    ghost use Rattle.cp_vat_machine.specs.Texts.{text_of};

    /// The reason of the Abort.
    pub fn text(self) -> &'static str
        ensures { result.now ≡ text_of self }
    {
        match self {
            PeerFault::QuestionInUse => "P1 question in use",
            PeerFault::UnknownQuestion => "P2 unknown question",
            PeerFault::UnknownAnswer => "P3 unknown answer",
            PeerFault::UnknownExport => "P4 unknown export",
            PeerFault::ReleaseTooLarge => "P5 release too large",
            PeerFault::NotAnOpenPromise => "P6 not an open promise",
            PeerFault::DisembargoTarget => "P7 disembargo target",
            PeerFault::UnknownEmbargo => "P8 unknown embargo",
            PeerFault::PayloadTooLarge => "P9 payload too large",
            PeerFault::TableFull => "P10 table full",
            PeerFault::EchoTooLarge => "P11 echo too large",
            PeerFault::PeerLacksLevelOne => "P12 peer lacks level 1",
        }
    }
}

impl fmt::Display for PeerFault {
    ghost use Rattle.std.specs.Prelude.{Some};
    ghost use Rattle.cp_vat_machine.specs.Texts.{text_of};

    ghost output = { λ f. Some (text_of f) };

    fn fmt<W: fmt::Write>(&self, f: &mut fmt::Formatter<W>) -> fmt::Result {
        f.write_str(self.text())
    }
}

impl Error for PeerFault {}

/// Why a call of the application is refused. But for V10, a refused call changes nothing.
#[derive(Clone, Copy, PartialEq, Eq, Debug)]
pub enum VatFault {
    /// V1: no question of the application's, or one that was finished, also in a Pipelined; or an
    /// origin that wasn't delivered, or was answered.
    UnknownQuestion,
    /// V2: no promise, or for `resolve` one that the application didn't make.
    UnknownPromise,
    /// V3: a promise that was resolved.
    AlreadyResolved,
    /// V4: a value that leads back to its own promise.
    PromiseCycle,
    /// V5: a Pipelined where it isn't allowed, or `forget` of an open promise.
    Unsettled,
    /// V6: a promise, import or question that is in use.
    InUse,
    /// V7: a content, a capability table, a path, a reason or a trace past the vat's limits.
    TooLarge,
    /// V8: what the call itself opens doesn't fit.
    Full,
    /// V9: the vat is closed.
    Closed,
    /// V10: memory ran out, and the vat is closed.
    OutOfMemory,
    /// V11: no import.
    UnknownImport,
}

impl VatFault {
    ghost use Rattle.std.specs.Prelude.{◌≡◌};
    ghost use Rattle.cp_vat_machine.specs.Kinds.{kind_of};

    /// What its caller may do: try again later where there is no room, connect anew where the vat is closed.
    /// (rpc.capnp: "Exception".)
    pub fn kind(self) -> ExceptionKind
        ensures { result ≡ kind_of self }
    {
        match self {
            VatFault::Full | VatFault::OutOfMemory => ExceptionKind::Overloaded,
            VatFault::Closed => ExceptionKind::Disconnected,
            _ => ExceptionKind::Failed,
        }
    }

    /// What the fault means.
    fn meaning(self) -> &'static str {
        match self {
            VatFault::UnknownQuestion =>
                "no question of the application's, or a finished one; or a call that wasn't delivered, or was answered",
            VatFault::UnknownPromise => "no promise, or one that the application didn't make",
            VatFault::AlreadyResolved => "the promise was resolved before",
            VatFault::PromiseCycle => "the value leads back to its own promise",
            VatFault::Unsettled =>
                "an open promise, or a pipelined capability where none is allowed",
            VatFault::InUse => "the question, import or promise is in use",
            VatFault::TooLarge =>
                "more than 60 levels or a cost of 4,194,304 in a content, 1,024 descriptors, 16 operations in a path, or 65,536 bytes in a text",
            VatFault::Full =>
                "a table has 65,536 entries, a count is at its end, or no ticket is left",
            VatFault::Closed => "the vat is closed",
            VatFault::OutOfMemory => "memory ran out, and the vat is closed",
            VatFault::UnknownImport => "the import isn't held",
        }
    }
}

impl fmt::Display for VatFault {
    /// Its name, and in the alternate form, `{:#}`, what it means too.
    fn fmt<W: fmt::Write>(&self, f: &mut fmt::Formatter<W>) -> fmt::Result {
        f.write_str(match self {
            VatFault::UnknownQuestion => "V1 UnknownQuestion",
            VatFault::UnknownPromise => "V2 UnknownPromise",
            VatFault::AlreadyResolved => "V3 AlreadyResolved",
            VatFault::PromiseCycle => "V4 PromiseCycle",
            VatFault::Unsettled => "V5 Unsettled",
            VatFault::InUse => "V6 InUse",
            VatFault::TooLarge => "V7 TooLarge",
            VatFault::Full => "V8 Full",
            VatFault::Closed => "V9 Closed",
            VatFault::OutOfMemory => "V10 OutOfMemory",
            VatFault::UnknownImport => "V11 UnknownImport",
        })?;
        if f.alternate() {
            f.write_str(": ")?;
            f.write_str(self.meaning())?;
        }
        Ok(())
    }
}

impl Error for VatFault {}

impl From<AllocError> for VatFault {
    ghost use Rattle.std.specs.Prelude.{◌≡◌};
    ghost use Rattle.cp_vat_machine.specs.declared.fault.VatFault.TheVariants.{OutOfMemory};

    ghost from_gives = { λ _ e. e ≡ OutOfMemory };

    fn from(_: AllocError) -> VatFault {
        VatFault::OutOfMemory
    }
}

impl<T: Drop> From<AllocFailed<T>> for VatFault {
    ghost use Rattle.std.specs.Prelude.{◌≡◌};
    ghost use Rattle.cp_vat_machine.specs.declared.fault.VatFault.TheVariants.{OutOfMemory};

    ghost from_gives = { λ _ e. e ≡ OutOfMemory };

    fn from(_: AllocFailed<T>) -> VatFault {
        VatFault::OutOfMemory
    }
}
