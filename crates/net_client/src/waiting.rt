//! What a client does in a limited time.

ghost use Rattle.std.specs.Prelude.{◌≡◌, ◌↔◌, None, IsTrue, IfOk, IfErr, OnOk};
ghost use Rattle.cp_client.specs.ConversationOf.{seen};
ghost use Rattle.cp_client.specs.AnyOf.{WaitsForAny};
ghost use Rattle.cp_client.specs.Waits as waits;
ghost use Rattle.cp_client.specs.Results.{TakesResults};
ghost use Rattle.net_client.specs.Limited.{Polls, ServesOrNot, StopsForAllOrNot, StopsOrNot, TakesNoneOrNot, timed_out};

use crate::stream::DuplexStream;
use cp_client::{CallError, Client, ClientFault, Nobody, Question, SessionClient};
use cp_interfaces::ResultPayload;
use cp_refs::Outcome;
use cp_session::CallingSession;
use cp_stream::DeviceError;
use std::io::{ErrorKind, Read, Write};
use std::time::{Clock, Duration};

/// A client over a `DuplexStream`.
pub type SocketClient<'s, 'r, C, O = Nobody> = Client<
    &'s DuplexStream<'r, C>,
    &'s DuplexStream<'r, C>,
    O,
>;

/// What a client over this stream does in a limited time. A deadline that was set before still counts, and is the same afterwards.
impl<'r, C: Clock> DuplexStream<'r, C> {
    /// The outcome of a question, if it came by now. `None`: it didn't. Nothing is waited for; what can be written at once is, and a piece of
    /// at most 64 KiB is taken of what came. For many questions call `serve_for` with no time, and then `SessionClient::take_outcome` for
    /// each: that uses the socket once.
    pub fn poll<R: Read + Drop, W: Write + Drop, S: CallingSession>(
        &self,
        client: &mut SessionClient<R, W, S>,
        question: Question,
    ) -> Result<Option<Outcome>, ClientFault>
        ensures polls { let at = seen S.state R.remaining W.contents in IfOk result (λ came. Polls S.table (at client.old) question.number came (at client.new)) }
        ensures stops { let at = seen S.state R.remaining W.contents in IfErr result (λ f. StopsOrNot S.table (at client.old) question.number f (at client.new)) }
    {
        let before = self.bring_deadline(Duration::ZERO)?;
        let waited = client.wait(question);
        self.restore_deadline(before);
        match waited {
            Ok(outcome) => Ok(Some(outcome)),
            Err(fault) => none_in_time(fault),
        }
    }

    /// Waits for the outcome of any of these questions, as `SessionClient::wait_any`, for so long at the most: past it the fault is that of a
    /// device, of the kind `TimedOut`, and all are still asked.
    pub fn wait_any_within<R: Read + Drop, W: Write + Drop, S: CallingSession>(
        &self,
        client: &mut SessionClient<R, W, S>,
        questions: &[Question],
        time: Duration,
    ) -> Result<(Question, Outcome), ClientFault>
        ensures waits { let at = seen S.state R.remaining W.contents in IfOk result (λ came. WaitsForAny S.table (at client.old) questions.now came (at client.new)) }
        ensures stops { let at = seen S.state R.remaining W.contents in IfErr result (λ f. StopsForAllOrNot S.table (at client.old) questions.now f (at client.new)) }
    {
        let before = self.bring_deadline(time)?;
        let waited = client.wait_any(questions);
        self.restore_deadline(before);
        waited
    }

    /// Waits for the results of a question, as `SessionClient::results`, for so long at the most: past it the fault is that of a device, of
    /// the kind `TimedOut`, and the question is still asked, and isn't finished.
    pub fn results_within<R: Read + Drop, W: Write + Drop, S: CallingSession>(
        &self,
        client: &mut SessionClient<R, W, S>,
        question: u32,
        time: Duration,
    ) -> Result<ResultPayload, CallError>
        ensures came { let at = seen S.state R.remaining W.contents in IfOk result (λ r. TakesResults S.table (at client.old) question r (at client.new)) }
        ensures none { let at = seen S.state R.remaining W.contents in IfErr result (λ f. TakesNoneOrNot S.table (at client.old) question f (at client.new)) }
    {
        let before = match self.bring_deadline(time) {
            Ok(before) => before,
            Err(error) => return Err(CallError::Client(ClientFault::from(error))),
        };
        let results = client.results(question);
        self.restore_deadline(before);
        results
    }

    /// Has the objects of a client answer its peer for so long, while no outcome is waited for. What comes is taken, and outcomes are kept.
    /// Where the peer's messages end before, it is `Ended`.
    pub fn serve_for<R: Read + Drop, W: Write + Drop, S: CallingSession>(
        &self,
        client: &mut SessionClient<R, W, S>,
        time: Duration,
    ) -> Result<(), ClientFault>
        ensures serves { let at = seen S.state R.remaining W.contents in OnOk result (waits.ServesUntil S.table (at client.old) timed_out (at client.new)) }
        ensures stops { let at = seen S.state R.remaining W.contents in IfErr result (λ f. ServesOrNot S.table (at client.old) f (at client.new)) }
    {
        let before = self.bring_deadline(time)?;
        let served = client.serve();
        let is_late = self.is_late();
        self.restore_deadline(before);
        match served {
            Ok(()) => Err(ClientFault::Ended),
            Err(fault) => time_over(fault, is_late.unwrap_or(false)),
        }
    }
}

/// What a poll gives where its client stopped: no outcome, if its time was over.
fn none_in_time(fault: ClientFault) -> Result<Option<Outcome>, ClientFault>
    ensures none { IfOk result (λ came. (came ≡ None) × (fault ≡ timed_out)) }
    ensures same { IfErr result (λ f. f ≡ fault) }
{
    if is_time(fault) {
        return Ok(None);
    }
    Err(fault)
}

/// What a client says that served for its time: nothing is wrong, if that was over.
fn time_over(fault: ClientFault, is_late: bool) -> Result<(), ClientFault>
    ensures over { OnOk result (fault ≡ timed_out) }
    ensures same { IfErr result (λ f. f ≡ fault) }
{
    if is_late && is_time(fault) {
        return Ok(());
    }
    Err(fault)
}

/// Whether a fault says that the time was over.
fn is_time(fault: ClientFault) -> bool
    ensures { IsTrue result ↔ (fault ≡ timed_out) }
{
    match fault {
        ClientFault::Device(error) => error == DeviceError::from(ErrorKind::TimedOut),
        _ => false,
    }
}
