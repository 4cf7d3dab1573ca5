//! What a caller whose question is refused gets.

ghost use Rattle.std.specs.Prelude.{◌≡◌, IfOk};
ghost use Rattle.cp_relay.specs.Answer.{kind_of, reason_of, exception_of, answer_of};

use crate::rules::{MethodId, Rules};
use crate::ruling::Cause;
use cp_rpc::{Exception, ExceptionKind, Message, Return, Returned, Text};
use std::alloc::{AllocError, Global};

/// The Return of a question that is refused. The results of one that asks for them elsewhere would go to a Return of the
/// caller's own, which has the exception then.
pub(crate) fn answer_of(
    alloc: Global,
    rules: &Rules,
    question: u32,
    elsewhere: bool,
    cause: Cause,
) -> Result<Message, AllocError>
    ensures { IfOk result (λ m. m ≡ answer_of rules.now question elsewhere cause) }
{
    let returned = if elsewhere {
        Returned::ResultsSentElsewhere
    } else {
        Returned::Exception(exception_of(alloc, rules, cause)?)
    };
    Ok(Message::Return(Return {
        answer_id: question,
        // The caller takes back all that its params would have lent.
        release_param_caps: true,
        returned,
    }))
}

/// The exception that says why a question is refused.
pub(crate) fn exception_of(
    alloc: Global,
    rules: &Rules,
    cause: Cause,
) -> Result<Exception, AllocError>
    ensures { IfOk result (λ e. e ≡ exception_of rules.now cause) }
{
    Ok(Exception {
        kind: kind_of(cause),
        reason: reason_of(alloc, rules, cause)?,
        trace: Text::new(String::new(alloc)),
    })
}

/// The type of that exception.
fn kind_of(cause: Cause) -> ExceptionKind
    ensures { result ≡ kind_of cause }
{
    match cause {
        Cause::NotAllowed { .. } => ExceptionKind::Failed,
        Cause::TooMany => ExceptionKind::Overloaded,
        Cause::TooFast => ExceptionKind::Overloaded,
    }
}

/// The reason in that exception.
fn reason_of(alloc: Global, rules: &Rules, cause: Cause) -> Result<Text, AllocError>
    ensures { IfOk result (λ t. t ≡ reason_of rules.now cause) }
{
    let mut text = String::new(alloc);
    match cause {
        Cause::NotAllowed { interface, method } => {
            text.push_str("not allowed: ")?;
            text.push_str(rules.name_of(MethodId { interface, method }))?;
        }
        Cause::TooMany => text.push_str("too many calls")?,
        Cause::TooFast => text.push_str("too many calls a second")?,
    }
    Ok(Text::new(text))
}
