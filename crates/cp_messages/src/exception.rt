//! Exceptions.

ghost use Rattle.std.specs.Prelude.{◌≡◌, true, IfOk};
ghost use Rattle.cp_messages.specs.Fitting.{exception_fits};
ghost use Rattle.cp_messages.specs.Representable.{IsKind, IsException};
ghost use Rattle.cp_messages.specs.Written.{kind_number, exception_written};
ghost use Rattle.cp_tree.specs.DraftOf.{draft_of};

use crate::data::u16_part;
use crate::draft::pair_of;
use crate::text::Text;
use cp_tree::{Draft, UnknownEnumerant};
use std::alloc::{AllocError, Global};
use std::fmt;

/// `enum Type` of `struct Exception` of rpc.capnp.
#[derive(Clone, Copy, PartialEq, Eq, Debug)]
pub enum ExceptionKind {
    /// `failed @0`.
    Failed,
    /// `overloaded @1`.
    Overloaded,
    /// `disconnected @2`.
    Disconnected,
    /// `unimplemented @3`.
    Unimplemented,
    /// Any other number.
    Unknown(UnknownEnumerant<3>),
}

/// `struct Exception` of rpc.capnp.
#[derive(Drop)]
pub struct Exception {
    /// `type @3 :Type`.
    pub kind: ExceptionKind,
    /// `reason @0 :Text`.
    pub reason: Text,
    /// `trace @4 :Text`.
    pub trace: Text,
}

impl fmt::Display for Exception {
    /// Its type and its reason.
    fn fmt<W: fmt::Write>(&self, f: &mut fmt::Formatter<W>) -> fmt::Result {
        write!(f, "{}: {}", self.kind, self.reason.as_str())
    }
}

impl fmt::Display for ExceptionKind {
    fn fmt<W: fmt::Write>(&self, f: &mut fmt::Formatter<W>) -> fmt::Result {
        match self {
            ExceptionKind::Failed => f.write_str("failed"),
            ExceptionKind::Overloaded => f.write_str("overloaded"),
            ExceptionKind::Disconnected => f.write_str("disconnected"),
            ExceptionKind::Unimplemented => f.write_str("unimplemented"),
            ExceptionKind::Unknown(number) => write!(f, "type {}", number.number()),
        }
    }
}

impl Exception {
    /// `type @3 :Type`, u16.
    pub const KIND: u32 = 2;
    /// `reason @0 :Text`, a pointer.
    pub const REASON: u32 = 0;
    /// `trace @4 :Text`, a pointer.
    pub const TRACE: u32 = 1;

    /// An equal exception.
    pub fn copy(&self, alloc: Global) -> Result<Exception, AllocError>
        ensures { IfOk result (λ e. e ≡ self.now) }
    {
        Ok(Exception {
            kind: self.kind,
            reason: self.reason.copy(alloc)?,
            trace: self.trace.copy(alloc)?,
        })
    }

    /// Whether each list of the struct that the exception is written as is short enough.
    pub(crate) fn fits(&self) -> bool
        ensures { result ≡ exception_fits self.now }
    {
        self.reason.fits() && self.trace.fits()
    }

    /// The struct that the exception is written as.
    pub(crate) fn draft<'a>(&self, alloc: Global) -> Result<Draft<'a>, AllocError>
        requires { exception_fits self.now ≡ true }
        ensures made { IfOk result (λ d. draft_of d ≡ exception_written self.now) }
        ensures held { IfOk result (λ d. IsException self.now) }
    {
        let word = u16_part(Exception::KIND, self.kind.number());
        let reason = self.reason.draft(alloc)?;
        let trace = self.trace.draft(alloc)?;
        pair_of(alloc, &[word], reason, trace)
    }
}

impl ExceptionKind {
    /// The type's number.
    fn number(self) -> u16
        ensures value { result ≡ kind_number self }
        ensures held { IsKind self }
    {
        match self {
            ExceptionKind::Failed => 0,
            ExceptionKind::Overloaded => 1,
            ExceptionKind::Disconnected => 2,
            ExceptionKind::Unimplemented => 3,
            ExceptionKind::Unknown(number) => number.number(),
        }
    }
}
