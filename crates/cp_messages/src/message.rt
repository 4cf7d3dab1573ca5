//! Messages.

ghost use Rattle.std.specs.Prelude.{◌≡◌, Some, IfOk, IfSome, IfNone, true, false};
ghost use Rattle.cp_messages.specs.Others.{is_other};
ghost use Rattle.cp_messages.specs.Fitting.{message_fits};
ghost use Rattle.cp_messages.specs.Representable.{IsMessage};
ghost use Rattle.cp_messages.specs.Written.{message_number, member_written, message_written};
ghost use Rattle.cp_tree.specs.DraftOf.{draft_of};

use crate::call::Call;
use crate::data::u16_part;
use crate::disembargo::Disembargo;
use crate::draft::{lent, struct_of};
use crate::exception::Exception;
use crate::resolve::Resolve;
use crate::returned::Return;
use crate::small::{Bootstrap, Finish, Release};
use cp_tree::{Draft, Whole};
use std::alloc::{AllocError, Global};
use std::marker::Model;

/// The number of a member of `struct Message` that this crate doesn't look into: 7 and 9 to 12, which
/// are obsolete or of three-party handoff, or past 13. Contracts see it as the number.
#[derive(Clone, Copy, PartialEq, Eq, Debug)]
pub struct OtherWhich {
    number: u16,
}

impl Model for OtherWhich {
    ghost use Rattle.std.specs.Prelude.{◌≡◌, ℕ, true};
    ghost use Rattle.cp_messages.specs.Others.{is_other};

    ghost Value = { ℕ };

    ghost view = { λ w. w.number };

    ghost inverse = { λ n. record { number = n } };

    ghost invariant = { λ w. is_other w.number ≡ true };
}

impl OtherWhich {
    /// The number, if it is such a one.
    pub fn new(number: u16) -> Option<OtherWhich>
        ensures other { IfSome result (λ w. w ≡ number) }
        ensures known { IfNone result (is_other number ≡ false) }
    {
        match number {
            7 | 9..=12 => Some(OtherWhich { number }),
            _ if number > 13 => Some(OtherWhich { number }),
            _ => None,
        }
    }

    /// The number.
    pub fn number(self) -> u16
        ensures value { result ≡ self }
        ensures other { is_other self ≡ true }
    {
        self.number
    }
}

/// `struct Message` of rpc.capnp: its member.
#[derive(Drop)]
pub enum Message {
    /// `unimplemented @0 :Message`: the tree of the message that a peer didn't know, not looked into.
    Unimplemented(Whole),
    /// `abort @1 :Exception`.
    Abort(Exception),
    /// `call @2 :Call`.
    Call(Call),
    /// `return @3 :Return`.
    Return(Return),
    /// `finish @4 :Finish`.
    Finish(Finish),
    /// `resolve @5 :Resolve`.
    Resolve(Resolve),
    /// `release @6 :Release`.
    Release(Release),
    /// `bootstrap @8 :Bootstrap`.
    Bootstrap(Bootstrap),
    /// `disembargo @13 :Disembargo`.
    Disembargo(Disembargo),
    /// Any other member, not looked into.
    Other { which: OtherWhich, body: Whole },
}

impl Message {
    /// The member's number, u16.
    pub const WHICH: u32 = 0;
    /// The member, a pointer.
    pub const MEMBER: u32 = 0;

    /// An equal message.
    pub fn copy(&self, alloc: Global) -> Result<Message, AllocError>
        ensures { IfOk result (λ m. m ≡ self.now) }
    {
        Ok(match self {
            Message::Unimplemented(tree) => Message::Unimplemented(tree.copy(alloc)?),
            Message::Abort(exception) => Message::Abort(exception.copy(alloc)?),
            Message::Call(call) => Message::Call(call.copy(alloc)?),
            Message::Return(returned) => Message::Return(returned.copy(alloc)?),
            Message::Finish(finish) => Message::Finish(*finish),
            Message::Resolve(resolve) => Message::Resolve(resolve.copy(alloc)?),
            Message::Release(release) => Message::Release(*release),
            Message::Bootstrap(bootstrap) => Message::Bootstrap(*bootstrap),
            Message::Disembargo(disembargo) => Message::Disembargo(disembargo.copy(alloc)?),
            Message::Other { which, body } => Message::Other {
                which: *which,
                body: body.copy(alloc)?,
            },
        })
    }

    /// Whether each list of the struct that the message is written as is short enough: it has fewer than 2^29 elements, and
    /// fewer words than that (encoding specification, "Lists").
    pub fn fits(&self) -> bool
        ensures { result ≡ message_fits self.now }
    {
        match self {
            Message::Abort(exception) => exception.fits(),
            Message::Call(call) => call.fits(),
            Message::Return(returned) => returned.returned.fits(),
            Message::Resolve(resolve) => resolve.resolution.fits(),
            Message::Disembargo(disembargo) => disembargo.target.fits(),
            _ => true,
        }
    }

    /// Its member's number, and what its pointer stands for.
    fn parts(&self, alloc: Global) -> (u16, Result<Draft<'_>, AllocError>)
        requires { message_fits self.now ≡ true }
        ensures number { result.0 ≡ message_number self.now }
        ensures pointer { IfOk result.1 (λ d. draft_of d ≡ member_written self.now) }
        ensures held { IfOk result.1 (λ d. IsMessage self.now) }
    {
        match self {
            Message::Unimplemented(tree) => (0, Ok(lent(tree))),
            Message::Abort(exception) => (1, exception.draft(alloc)),
            Message::Call(call) => (2, call.draft(alloc)),
            Message::Return(returned) => (3, returned.draft(alloc)),
            Message::Finish(finish) => (4, finish.draft(alloc)),
            Message::Resolve(resolve) => (5, resolve.draft(alloc)),
            Message::Release(release) => (6, release.draft(alloc)),
            Message::Bootstrap(bootstrap) => (8, bootstrap.draft(alloc)),
            Message::Disembargo(disembargo) => (13, disembargo.draft(alloc)),
            Message::Other { which, body } => (which.number(), Ok(lent(body))),
        }
    }

    /// The struct that the message is written as.
    pub(crate) fn draft(&self, alloc: Global) -> Result<Draft<'_>, AllocError>
        requires { message_fits self.now ≡ true }
        ensures made { IfOk result (λ d. draft_of d ≡ message_written self.now) }
        ensures held { IfOk result (λ d. IsMessage self.now) }
    {
        let (number, member) = self.parts(alloc);
        let word = u16_part(Message::WHICH, number);
        struct_of(alloc, &[word], member?)
    }
}
