//! The results of typed calls.

ghost use Rattle.std.specs.Prelude.{Ok, IfOk, IfErr};
ghost use Rattle.cp_interfaces.specs.Payloads.{Comes};
ghost use Rattle.cp_client.specs.ConversationOf.{seen};
ghost use Rattle.cp_client.specs.Results.{GivesNone, GivesResults, IsNone, TakesNone, TakesResults};

use crate::client::SessionClient;
use crate::fault::CallError;
use crate::question::Question;
use cp_interfaces::{ResultPayload, payload_of};
use cp_refs::Outcome;
use cp_session::CallingSession;
use std::io::{Read, Write};

impl<R: Read + Drop, W: Write + Drop, S: CallingSession> SessionClient<R, W, S> {
    /// Waits for the results of a question, by the number that a typed call's promise has, and finishes it: none of its paths can be called
    /// any more. What the results name is held until it is released. A call that failed is an error, and is finished too.
    ///
    /// After a `CallError::Client` the outcome hasn't come, and the question is as it was. What came is given in any case: the question
    /// stays open where it can't be finished, for example after the connection ended.
    pub fn results(&mut self, question: u32) -> Result<ResultPayload, CallError>
        ensures came { let at = seen S.state R.remaining W.contents in IfOk result (λ r. TakesResults S.table (at self.old) question r (at self.new)) }
        ensures none { let at = seen S.state R.remaining W.contents in IfErr result (λ f. TakesNone S.table (at self.old) question f (at self.new)) }
    {
        let outcome = self.wait(Question { number: question })?;
        let results = results_in(self.number, outcome);
        // What came is given, though the connection may have ended since.
        let _ = self.finish(Question { number: question });
        results
    }

    /// The same, but the question stays open: paths of its results can be called until `finish` gives it up.
    pub fn results_kept(&mut self, question: u32) -> Result<ResultPayload, CallError>
        ensures came { let at = seen S.state R.remaining W.contents in IfOk result (λ r. GivesResults S.table (at self.old) question r (at self.new)) }
        ensures none { let at = seen S.state R.remaining W.contents in IfErr result (λ f. GivesNone S.table (at self.old) question f (at self.new)) }
    {
        let outcome = self.wait(Question { number: question })?;
        results_in(self.number, outcome)
    }
}

/// The results that an outcome of this session is.
fn results_in(session: u64, outcome: Outcome) -> Result<ResultPayload, CallError>
    ensures came { IfOk result (λ r. Comes session outcome (Ok r)) }
    ensures none { IfErr result (λ f. IsNone session outcome f) }
{
    match payload_of(session, outcome) {
        Ok(results) => Ok(results),
        Err(reason) => Err(CallError::NoResults(reason)),
    }
}
