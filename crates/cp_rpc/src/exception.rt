//! Reading exceptions.

ghost use Rattle.std.specs.Prelude.{◌≡◌, IfOk};
ghost use Rattle.cp_messages.specs.Fields.{IsStructField};
ghost use Rattle.cp_rpc.specs.Answers.{Checks, Gives};
ghost use Rattle.cp_messages.specs.Denoted.{kind_denoted, exception_denoted};
ghost use Rattle.cp_messages.specs.Faults.{exception_faults};
ghost use Rattle.cp_rpc.specs.Viewed.{viewed_exception};

use crate::field::text_field;
use crate::source::Source;
use crate::text::MessageText;
use cp_fields::u16_at;
use cp_messages::{Exception, ExceptionKind, Field, SchemaFault};
use cp_tree::UnknownEnumerant;
use std::alloc::{AllocError, Global};

/// An exception whose texts are read in place.
#[derive(Drop)]
pub struct ExceptionView<S: Source> {
    pub kind: ExceptionKind,
    pub reason: MessageText<S>,
    pub trace: MessageText<S>,
}

impl<S: Source> ExceptionView<S> {
    /// Checks the exception that a struct says.
    #[inline(never)]
    pub(crate) fn check(t: &S) -> Result<(), SchemaFault>
        requires { IsStructField (S.seen t.now) }
        ensures { Checks (exception_faults (S.seen t.now)) result }
    {
        text_field(t, Exception::REASON, Field::ExceptionReason)?;
        text_field(t, Exception::TRACE, Field::ExceptionTrace)?;
        Ok(())
    }

    /// The exception that a struct says.
    #[inline(never)]
    pub(crate) fn of(t: &S) -> Result<ExceptionView<S>, SchemaFault>
        requires { IsStructField (S.seen t.now) }
        ensures { Gives (viewed_exception S.seen) (exception_denoted (S.seen t.now)) (exception_faults (S.seen t.now)) result }
    {
        Ok(ExceptionView {
            kind: kind_of(u16_at(t.data(), Exception::KIND)),
            reason: MessageText::of(text_field(t, Exception::REASON, Field::ExceptionReason)?),
            trace: MessageText::of(text_field(t, Exception::TRACE, Field::ExceptionTrace)?),
        })
    }

    /// The exception, owned.
    pub fn exception(&self, alloc: Global) -> Result<Exception, AllocError>
        ensures { IfOk result (λ e. e ≡ viewed_exception S.seen self.now) }
    {
        Ok(Exception {
            kind: self.kind,
            reason: self.reason.text(alloc)?,
            trace: self.trace.text(alloc)?,
        })
    }
}

/// The type of this number.
fn kind_of(number: u16) -> ExceptionKind
    ensures { result ≡ kind_denoted number }
{
    match number {
        0 => ExceptionKind::Failed,
        1 => ExceptionKind::Overloaded,
        2 => ExceptionKind::Disconnected,
        3 => ExceptionKind::Unimplemented,
        _ => ExceptionKind::Unknown(UnknownEnumerant::of(number)),
    }
}
