//! The lines of `show`, one for each message.

use crate::notation::{separate, tree};
use cp_reading::View;
use cp_rpc::{
    CallView, DescriptorView, DisembargoContext, DisembargoView, Exception, ExceptionKind,
    ExceptionView, MessageIn, MessageView, Op, PayloadView, PromisedAnswerView, ResolutionView,
    ResolveView, ReturnView, ReturnedView, SendResultsToView, TargetView,
};
use std::alloc::{AllocError, Global};

/// Adds the line of a message, with its line feed.
pub fn push_line(
    alloc: Global,
    line: &mut String,
    message: &MessageView,
) -> Result<(), AllocError> {
    match message {
        MessageIn::Unimplemented(view) => {
            line.push_str("unimplemented ")?;
            tree(line, view)?;
        }
        MessageIn::Abort(view) => {
            line.push_str("abort ")?;
            exception(alloc, line, view)?;
        }
        MessageIn::Call(view) => call(line, view)?,
        MessageIn::Return(view) => returned(alloc, line, view)?,
        MessageIn::Finish(finish) => {
            let (q, release) = (finish.question_id, finish.release_result_caps);
            write!(line, "finish q={q} releaseResultCaps={release}")?;
        }
        MessageIn::Resolve(view) => resolve(alloc, line, view)?,
        MessageIn::Release(release) => {
            let (id, count) = (release.id, release.reference_count);
            write!(line, "release id={id} count={count}")?;
        }
        MessageIn::Bootstrap(bootstrap) => {
            write!(line, "bootstrap q={}", bootstrap.question_id)?;
        }
        MessageIn::Disembargo(view) => disembargo(line, view)?,
        MessageIn::Other { which, body } => {
            write!(line, "other {} ", which.number())?;
            tree(line, body)?;
        }
    }
    line.push('\n')
}

/// Adds an exception: its type, its reason between quotes, and, where there is one, its trace.
pub fn push_exception(line: &mut String, exception: &Exception) -> Result<(), AllocError> {
    match exception.kind {
        ExceptionKind::Failed => line.push_str("failed")?,
        ExceptionKind::Overloaded => line.push_str("overloaded")?,
        ExceptionKind::Disconnected => line.push_str("disconnected")?,
        ExceptionKind::Unimplemented => line.push_str("unimplemented")?,
        ExceptionKind::Unknown(number) => write!(line, "unknown:{}", number.number())?,
    }
    line.push(' ')?;
    text(line, exception.reason.as_str())?;
    let trace = exception.trace.as_str();
    if !trace.is_empty() {
        line.push_str(" trace ")?;
        text(line, trace)?;
    }
    Ok(())
}

/// A call: `call q=N to=TARGET i=H m=N results=R params=P`.
fn call(line: &mut String, view: &CallView<View>) -> Result<(), AllocError> {
    write!(line, "call q={} to=", view.question_id)?;
    target(line, &view.target)?;
    let (interface, method) = (view.interface_id, view.method_id);
    write!(line, " i={interface:016x} m={method} results=")?;
    match &view.send_results_to {
        SendResultsToView::Caller => line.push_str("caller")?,
        SendResultsToView::Yourself => line.push_str("yourself")?,
        SendResultsToView::ThirdParty(view) => {
            line.push_str("thirdParty:")?;
            tree(line, view)?;
        }
        SendResultsToView::Unknown(number) => write!(line, "unknown:{}", number.number())?,
    }
    line.push_str(" params=")?;
    payload(line, &view.params)
}

/// A return: `return a=N releaseParamCaps=B`, then what was returned.
fn returned(alloc: Global, line: &mut String, view: &ReturnView<View>) -> Result<(), AllocError> {
    let (answer, release) = (view.answer_id, view.release_param_caps);
    write!(line, "return a={answer} releaseParamCaps={release}")?;
    match &view.returned {
        ReturnedView::Results(view) => {
            line.push_str(" results ")?;
            payload(line, view)
        }
        ReturnedView::Exception(view) => {
            line.push_str(" exception ")?;
            exception(alloc, line, view)
        }
        ReturnedView::Canceled => line.push_str(" canceled"),
        ReturnedView::ResultsSentElsewhere => line.push_str(" resultsSentElsewhere"),
        ReturnedView::TakeFromOtherQuestion(question) => {
            write!(line, " takeFromOtherQuestion {question}")
        }
        ReturnedView::AcceptFromThirdParty(view) => {
            line.push_str(" acceptFromThirdParty ")?;
            tree(line, view)
        }
        ReturnedView::Unknown(number) => write!(line, " unknown {}", number.number()),
    }
}

/// A resolve: `resolve p=N`, then what to.
fn resolve(alloc: Global, line: &mut String, view: &ResolveView<View>) -> Result<(), AllocError> {
    write!(line, "resolve p={}", view.promise_id)?;
    match &view.resolution {
        ResolutionView::Cap(view) => {
            line.push_str(" cap ")?;
            descriptor(line, view)
        }
        ResolutionView::Exception(view) => {
            line.push_str(" exception ")?;
            exception(alloc, line, view)
        }
        ResolutionView::Unknown(number) => write!(line, " unknown {}", number.number()),
    }
}

/// A disembargo: `disembargo to=TARGET`, then its context.
fn disembargo(line: &mut String, view: &DisembargoView<View>) -> Result<(), AllocError> {
    line.push_str("disembargo to=")?;
    target(line, &view.target)?;
    match view.context {
        DisembargoContext::SenderLoopback(embargo) => write!(line, " senderLoopback {embargo}"),
        DisembargoContext::ReceiverLoopback(embargo) => write!(line, " receiverLoopback {embargo}"),
        DisembargoContext::Accept => line.push_str(" accept"),
        DisembargoContext::Provide(question) => write!(line, " provide {question}"),
        DisembargoContext::Unknown(number) => write!(line, " unknown {}", number.number()),
    }
}

/// A target: `import:N`, `answer:N[OPS]` or `unknown:N`.
fn target(line: &mut String, view: &TargetView<View>) -> Result<(), AllocError> {
    match view {
        TargetView::ImportedCap(import) => write!(line, "import:{import}"),
        TargetView::PromisedAnswer(view) => {
            line.push_str("answer:")?;
            promised_answer(line, view)
        }
        TargetView::Unknown(number) => write!(line, "unknown:{}", number.number()),
    }
}

/// A promised answer: its question's number, and its steps, joined by commas.
fn promised_answer(line: &mut String, view: &PromisedAnswerView<View>) -> Result<(), AllocError> {
    write!(line, "{}[", view.question_id)?;
    for i in 0..view.transform.len() {
        separate(line, i)?;
        match view.transform.op(i) {
            Op::Noop => line.push_str("noop")?,
            Op::GetPointerField(field) => write!(line, "{field}")?,
            Op::Unknown(number) => write!(line, "unknown:{}", number.number())?,
        }
    }
    line.push(']')
}

/// A payload: `{T caps[..]}`, with the descriptors joined by commas.
fn payload(line: &mut String, view: &PayloadView<View>) -> Result<(), AllocError> {
    line.push('{')?;
    tree(line, &view.content)?;
    line.push_str(" caps[")?;
    for i in 0..view.cap_table.len() {
        separate(line, i)?;
        descriptor(line, &view.cap_table.descriptor(i))?;
    }
    line.push_str("]}")
}

/// A descriptor: `none`, or its name, a colon, and what it names.
fn descriptor(line: &mut String, view: &DescriptorView<View>) -> Result<(), AllocError> {
    match view {
        DescriptorView::None => line.push_str("none"),
        DescriptorView::SenderHosted(id) => write!(line, "senderHosted:{id}"),
        DescriptorView::SenderPromise(id) => write!(line, "senderPromise:{id}"),
        DescriptorView::ReceiverHosted(id) => write!(line, "receiverHosted:{id}"),
        DescriptorView::ReceiverAnswer(view) => {
            line.push_str("receiverAnswer:")?;
            promised_answer(line, view)
        }
        DescriptorView::ThirdPartyHosted(view) => {
            line.push_str("thirdPartyHosted:")?;
            tree(line, view)
        }
        DescriptorView::Unknown(number) => write!(line, "unknown:{}", number.number()),
    }
}

/// An exception that is read in place.
fn exception(
    alloc: Global,
    line: &mut String,
    view: &ExceptionView<View>,
) -> Result<(), AllocError> {
    let owned = view.exception(alloc)?;
    let pushed = push_exception(line, &owned);
    drop(owned);
    pushed
}

/// A text between quotes. Bytes outside 20 to 7e, the quote and the backslash are written as `\x`
/// and two hexadecimal digits.
fn text(line: &mut String, text: &str) -> Result<(), AllocError> {
    line.push('"')?;
    for byte in text.as_bytes() {
        match *byte {
            // So that the line stays one, of ASCII.
            b'"' | b'\\' | 0..0x20 | 0x7f.. => write!(line, "\\x{byte:02x}")?,
            shown => line.push(shown as char)?,
        }
    }
    line.push('"')
}
