//! Reading messages by their members.

ghost use Rattle.std.specs.Prelude.{◌≡◌, ◌≢◌, true, IfOk};
ghost use Rattle.cp_tree.specs.Node.{data_of};
ghost use Rattle.cp_messages.specs.Fields.{IsStructField, u16_of};
ghost use Rattle.cp_rpc.specs.Answers.{Checks, Gives};
ghost use Rattle.cp_messages.specs.Others.{is_other};
ghost use Rattle.cp_messages.specs.Denoted.{message_denoted};
ghost use Rattle.cp_messages.specs.Faults.{message_faults};
ghost use Rattle.cp_rpc.specs.Viewed.{viewed_message};

use crate::call::CallView;
use crate::disembargo::DisembargoView;
use crate::exception::ExceptionView;
use crate::field::struct_field;
use crate::resolve::ResolveView;
use crate::returned::ReturnView;
use crate::small::{bootstrap_of, finish_of, release_of};
use crate::source::Source;
use cp_fields::u16_at;
use cp_messages::{Bootstrap, Field, Finish, Message, OtherWhich, Release, SchemaFault};
use cp_reading::View;
use std::alloc::{AllocError, Global};

/// A message whose trees are of some source.
#[derive(Drop)]
pub enum MessageIn<S: Source> {
    Unimplemented(S),
    Abort(ExceptionView<S>),
    Call(CallView<S>),
    Return(ReturnView<S>),
    Finish(Finish),
    Resolve(ResolveView<S>),
    Release(Release),
    Bootstrap(Bootstrap),
    Disembargo(DisembargoView<S>),
    Other { which: OtherWhich, body: S },
}

/// A message whose trees are read in place.
pub type MessageView<'a> = MessageIn<View<'a>>;

impl<S: Source> MessageIn<S> {
    /// Checks the message that a struct says.
    pub(crate) fn check(t: &S) -> Result<(), SchemaFault>
        requires { IsStructField (S.seen t.now) }
        ensures { Checks (message_faults (S.seen t.now)) result }
    {
        let field = match u16_at(t.data(), Message::WHICH) {
            1 => Field::MessageAbort,
            2 => Field::MessageCall,
            3 => Field::MessageReturn,
            4 => Field::MessageFinish,
            5 => Field::MessageResolve,
            6 => Field::MessageRelease,
            8 => Field::MessageBootstrap,
            13 => Field::MessageDisembargo,
            // Other members aren't looked into.
            _ => return Ok(()),
        };
        let member = struct_field(t, Message::MEMBER, field)?;
        match field {
            Field::MessageAbort => ExceptionView::check(&member),
            Field::MessageCall => CallView::check(&member),
            Field::MessageReturn => ReturnView::check(&member),
            Field::MessageResolve => ResolveView::check(&member),
            Field::MessageDisembargo => DisembargoView::check(&member),
            _ => Ok(()),
        }
    }

    // A message is large: to clear its place and to move it take longer than to read a small one. So each member with members of
    // its own has a function that isn't inlined, which has what it reads in its own place; the small ones are read here.

    /// The message that a struct says.
    #[inline(always)]
    pub(crate) fn of(t: &S) -> Result<MessageIn<S>, SchemaFault>
        requires { IsStructField (S.seen t.now) }
        ensures { Gives (viewed_message S.seen) (message_denoted (S.seen t.now)) (message_faults (S.seen t.now)) result }
    {
        match u16_at(t.data(), Message::WHICH) {
            2 => MessageIn::call_of(t),
            3 => MessageIn::return_of(t),
            4 => {
                let member = struct_field(t, Message::MEMBER, Field::MessageFinish)?;
                Ok(MessageIn::Finish(finish_of(member.data())))
            }
            6 => {
                let member = struct_field(t, Message::MEMBER, Field::MessageRelease)?;
                Ok(MessageIn::Release(release_of(member.data())))
            }
            8 => {
                let member = struct_field(t, Message::MEMBER, Field::MessageBootstrap)?;
                Ok(MessageIn::Bootstrap(bootstrap_of(member.data())))
            }
            which => MessageIn::other_of(t, which),
        }
    }

    /// The call that a struct says.
    #[inline(never)]
    fn call_of(t: &S) -> Result<MessageIn<S>, SchemaFault>
        requires is_struct { IsStructField (S.seen t.now) }
        requires is_call { u16_of (data_of (S.seen t.now)) 0 ≡ 2 }
        ensures { Gives (viewed_message S.seen) (message_denoted (S.seen t.now)) (message_faults (S.seen t.now)) result }
    {
        let member = struct_field(t, Message::MEMBER, Field::MessageCall)?;
        Ok(MessageIn::Call(CallView::of(&member)?))
    }

    /// The return that a struct says.
    #[inline(never)]
    fn return_of(t: &S) -> Result<MessageIn<S>, SchemaFault>
        requires is_struct { IsStructField (S.seen t.now) }
        requires is_return { u16_of (data_of (S.seen t.now)) 0 ≡ 3 }
        ensures { Gives (viewed_message S.seen) (message_denoted (S.seen t.now)) (message_faults (S.seen t.now)) result }
    {
        let member = struct_field(t, Message::MEMBER, Field::MessageReturn)?;
        Ok(MessageIn::Return(ReturnView::of(&member)?))
    }

    /// The message with this member that a struct says, if it is none of those that are read elsewhere.
    #[inline(never)]
    fn other_of(t: &S, which: u16) -> Result<MessageIn<S>, SchemaFault>
        requires is_struct { IsStructField (S.seen t.now) }
        requires which { which ≡ u16_of (data_of (S.seen t.now)) 0 }
        requires no_call { which ≢ 2 }
        requires no_return { which ≢ 3 }
        requires no_finish { which ≢ 4 }
        requires no_release { which ≢ 6 }
        requires no_bootstrap { which ≢ 8 }
        ensures { Gives (viewed_message S.seen) (message_denoted (S.seen t.now)) (message_faults (S.seen t.now)) result }
    {
        match which {
            0 => Ok(MessageIn::Unimplemented(t.pointer(Message::MEMBER))),
            1 => {
                let member = struct_field(t, Message::MEMBER, Field::MessageAbort)?;
                Ok(MessageIn::Abort(ExceptionView::of(&member)?))
            }
            5 => {
                let member = struct_field(t, Message::MEMBER, Field::MessageResolve)?;
                Ok(MessageIn::Resolve(ResolveView::of(&member)?))
            }
            13 => {
                let member = struct_field(t, Message::MEMBER, Field::MessageDisembargo)?;
                Ok(MessageIn::Disembargo(DisembargoView::of(&member)?))
            }
            _ => Ok(MessageIn::Other {
                which: number_of(which),
                body: t.pointer(Message::MEMBER),
            }),
        }
    }

    /// The message, owned.
    pub fn message(&self, alloc: Global) -> Result<Message, AllocError>
        ensures { IfOk result (λ m. m ≡ viewed_message S.seen self.now) }
    {
        Ok(match self {
            MessageIn::Unimplemented(tree) => Message::Unimplemented(tree.whole(alloc)?),
            MessageIn::Abort(exception) => Message::Abort(exception.exception(alloc)?),
            MessageIn::Call(call) => Message::Call(call.call(alloc)?),
            MessageIn::Return(returned) => Message::Return(returned.owned(alloc)?),
            MessageIn::Finish(finish) => Message::Finish(*finish),
            MessageIn::Resolve(resolve) => Message::Resolve(resolve.resolve(alloc)?),
            MessageIn::Release(release) => Message::Release(*release),
            MessageIn::Bootstrap(bootstrap) => Message::Bootstrap(*bootstrap),
            MessageIn::Disembargo(disembargo) => Message::Disembargo(disembargo.disembargo(alloc)?),
            MessageIn::Other { which, body } => Message::Other {
                which: *which,
                body: body.whole(alloc)?,
            },
        })
    }
}

/// The number of a member that isn't looked into.
fn number_of(number: u16) -> OtherWhich
    requires { is_other number ≡ true }
    ensures { result ≡ number }
{
    match OtherWhich::new(number) {
        Some(which) => which,
        None => unreachable!(),
    }
}
