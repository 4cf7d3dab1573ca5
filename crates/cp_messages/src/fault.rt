//! What keeps a tree from being a message.

use std::alloc::{AllocError, AllocFailed};
use std::error::Error;
use std::fmt;

/// A field of rpc.capnp, by its struct's name and its own.
#[derive(Clone, Copy, PartialEq, Eq, Debug)]
pub enum Field {
    MessageAbort,
    MessageCall,
    MessageReturn,
    MessageFinish,
    MessageResolve,
    MessageRelease,
    MessageBootstrap,
    MessageDisembargo,
    CallTarget,
    CallParams,
    MessageTargetPromisedAnswer,
    PromisedAnswerTransform,
    PayloadCapTable,
    CapDescriptorReceiverAnswer,
    ReturnResults,
    ReturnException,
    ResolveCap,
    ResolveException,
    DisembargoTarget,
    ExceptionReason,
    ExceptionTrace,
}

impl Field {
    ghost use Rattle.std.specs.Prelude.{◌≡◌};
    ghost use Rattle.cp_messages.specs.Names.{name_of};

    /// The field's name, as `Message.finish`.
    pub fn name(self) -> &'static str
        ensures { result.now ≡ name_of self }
    {
        match self {
            Field::MessageAbort => "Message.abort",
            Field::MessageCall => "Message.call",
            Field::MessageReturn => "Message.return",
            Field::MessageFinish => "Message.finish",
            Field::MessageResolve => "Message.resolve",
            Field::MessageRelease => "Message.release",
            Field::MessageBootstrap => "Message.bootstrap",
            Field::MessageDisembargo => "Message.disembargo",
            Field::CallTarget => "Call.target",
            Field::CallParams => "Call.params",
            Field::MessageTargetPromisedAnswer => "MessageTarget.promisedAnswer",
            Field::PromisedAnswerTransform => "PromisedAnswer.transform",
            Field::PayloadCapTable => "Payload.capTable",
            Field::CapDescriptorReceiverAnswer => "CapDescriptor.receiverAnswer",
            Field::ReturnResults => "Return.results",
            Field::ReturnException => "Return.exception",
            Field::ResolveCap => "Resolve.cap",
            Field::ResolveException => "Resolve.exception",
            Field::DisembargoTarget => "Disembargo.target",
            Field::ExceptionReason => "Exception.reason",
            Field::ExceptionTrace => "Exception.trace",
        }
    }
}

impl fmt::Display for Field {
    ghost use Rattle.std.specs.Prelude.{Some};
    ghost use Rattle.cp_messages.specs.Names.{name_of};

    ghost output = { λ f. Some (name_of f) };

    fn fmt<W: fmt::Write>(&self, f: &mut fmt::Formatter<W>) -> fmt::Result {
        f.write_str(self.name())
    }
}

/// What keeps a tree from being a message.
#[derive(Clone, Copy, PartialEq, Eq, Debug)]
pub enum SchemaFault {
    /// S1: a pointer field holds a tree of another kind.
    Kind(Field),
    /// S2: a text field's list of bytes doesn't hold a text.
    Text(Field),
    /// S3: memory ran out.
    OutOfMemory,
}

impl SchemaFault {
    /// What the fault means.
    fn meaning(self) -> &'static str {
        match self {
            SchemaFault::Kind(_) => "the field holds a pointer of another kind",
            SchemaFault::Text(_) => "the field's bytes aren't UTF-8 that ends in a zero byte",
            SchemaFault::OutOfMemory => "memory ran out",
        }
    }
}

impl fmt::Display for SchemaFault {
    /// Its name and field, and in the alternate form, `{:#}`, what it means too.
    fn fmt<W: fmt::Write>(&self, f: &mut fmt::Formatter<W>) -> fmt::Result {
        match self {
            SchemaFault::Kind(field) => write!(f, "S1 Kind {field}")?,
            SchemaFault::Text(field) => write!(f, "S2 Text {field}")?,
            SchemaFault::OutOfMemory => f.write_str("S3 OutOfMemory")?,
        }
        if f.alternate() {
            f.write_str(": ")?;
            f.write_str(self.meaning())?;
        }
        Ok(())
    }
}

impl Error for SchemaFault {}

impl From<AllocError> for SchemaFault {
    ghost use Rattle.std.specs.Prelude.{◌≡◌};
    ghost use Rattle.cp_messages.specs.declared.fault.SchemaFault.TheVariants.{OutOfMemory};

    ghost from_gives = { λ _ e. e ≡ OutOfMemory };

    fn from(_: AllocError) -> SchemaFault {
        SchemaFault::OutOfMemory
    }
}
