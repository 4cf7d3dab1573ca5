//! Calls of which several are under way.

ghost use Rattle.std.specs.Prelude.{◌≡◌, [], drop, IfErr, OnOk};
ghost use Rattle.cp_client.specs.ConversationOf.{seen};
ghost use Rattle.cp_client.specs.CallWindows.{Breaks, ComesTo, Ends, EndsEach, IsFull, IsUnended, IsUnsent, MakesRoom, Sends, due, new_flow, oldest};

use crate::client::SessionClient;
use crate::fault::CallError;
use crate::question::Question;
use cp_interfaces::{CallTarget, NoResults, payload_of};
use cp_refs::{Outcome, Request};
use cp_session::CallingSession;
use std::alloc::Global;
use std::collections::VecDeque;
use std::io::{Read, Write};
use std::marker::Model;

/// Calls whose results say no more than that they came, as those of methods with `-> stream`: several are under way, up to a
/// window, so that neither end waits for the other. Contracts see it as the window and the questions under way, the oldest
/// first.
///
/// `send` calls in the place of the typed client's method, and `end` waits for what is still under way. A call that fails is
/// reported by the first `send`, or by the `end`, that waits for it. Calls reach their object in the order in which they are
/// sent.
/// The window counts calls, and the oldest is waited for before a send. The reference library counts bytes, and waits after it.
#[derive(Drop)]
pub struct CallWindow {
    window: u32,
    under_way: VecDeque<u32>,
}

impl Model for CallWindow {
    ghost use Rattle.cp_client.specs.CallWindows.{Flow, flow_code};

    ghost Value = { Flow };

    ghost coded = { flow_code };

    ghost view = { λ s. record { window = s.window; under_way = s.under_way.items } };
}

impl CallWindow {
    /// A stream of which so many calls may be under way. With a window of 0 it is one.
    pub fn new(alloc: Global, window: u32) -> CallWindow
        ensures { result ≡ new_flow window }
    {
        CallWindow {
            window,
            under_way: VecDeque::new(alloc),
        }
    }

    /// Calls a capability of the client's session. Where as many calls are under way as the window has, the oldest is waited for before.
    /// Where memory runs out the call may have been made, and isn't under way.
    pub fn send<R: Read + Drop, W: Write + Drop, S: CallingSession>(
        &mut self,
        client: &mut SessionClient<R, W, S>,
        target: &CallTarget,
        request: Request,
    ) -> Result<(), CallError>
        ensures sends { let at = seen S.state R.remaining W.contents in OnOk result (Sends S.table self.old (at client.old) target.now request self.new (at client.new)) }
        ensures unsent { let at = seen S.state R.remaining W.contents in IfErr result (λ f. IsUnsent S.table self.old (at client.old) target.now request f self.new.under_way (at client.new)) }
        ensures same_window { self.new.window ≡ self.old.window }
    {
        self.make_room(client)?;
        let promised = target.call(client, request)?;
        self.under_way.push_back(promised.question())?;
        Ok(())
    }

    /// Waits for all calls that are under way, in order.
    pub fn end<R: Read + Drop, W: Write + Drop, S: CallingSession>(
        &mut self,
        client: &mut SessionClient<R, W, S>,
    ) -> Result<(), CallError>
        ensures ends { let at = seen S.state R.remaining W.contents in OnOk result (EndsEach S.table (at client.old) self.old.under_way (at client.new)) }
        ensures none_left { OnOk result (self.new.under_way ≡ []) }
        ensures breaks { let at = seen S.state R.remaining W.contents in IfErr result (λ f. Breaks S.table self.old.under_way (at client.old) f self.new.under_way (at client.new)) }
        ensures same_window { self.new.window ≡ self.old.window }
    {
        'ending: while let Some(question) = self.oldest() {
            self.end_oldest(client, question)?;
        }
        Ok(())
    }

    /// Waits for the question that has to end before another is asked, if there is one.
    fn make_room<R: Read + Drop, W: Write + Drop, S: CallingSession>(
        &mut self,
        client: &mut SessionClient<R, W, S>,
    ) -> Result<(), CallError>
        ensures room { let at = seen S.state R.remaining W.contents in OnOk result (MakesRoom S.table self.old.under_way (at client.old) (due self.old) self.new.under_way (at client.new)) }
        ensures full { let at = seen S.state R.remaining W.contents in IfErr result (λ f. IsFull S.table self.old (at client.old) f self.new.under_way (at client.new)) }
        ensures same_window { self.new.window ≡ self.old.window }
    {
        match self.due() {
            Some(question) => self.end_oldest(client, question),
            None => Ok(()),
        }
    }

    /// The question that has to end before another is asked.
    fn due(&self) -> Option<u32>
        ensures { result ≡ due self.now }
    {
        if self.under_way.len() < self.window as usize {
            return None;
        }
        self.oldest()
    }

    /// The oldest question under way.
    fn oldest(&self) -> Option<u32>
        ensures { result ≡ oldest self.now.under_way }
    {
        self.under_way.front().copied()
    }

    /// Waits for the outcome of the oldest question, and gives the question up.
    fn end_oldest<R: Read + Drop, W: Write + Drop, S: CallingSession>(
        &mut self,
        client: &mut SessionClient<R, W, S>,
        question: u32,
    ) -> Result<(), CallError>
        ensures ends { let at = seen S.state R.remaining W.contents in OnOk result (Ends S.table (at client.old) question (at client.new)) }
        ensures left { OnOk result (self.new.under_way ≡ drop 1 self.old.under_way) }
        ensures unended { let at = seen S.state R.remaining W.contents in IfErr result (λ f. IsUnended S.table self.old.under_way (at client.old) question f self.new.under_way (at client.new)) }
        ensures same_window { self.new.window ≡ self.old.window }
    {
        let number = question;
        let reason = failure_of(client.wait(Question { number })?);
        // It is under way no more, whatever `finish` says.
        let _ = self.under_way.pop_front();
        client.finish(Question { number })?;
        if let Some(reason) = reason {
            return Err(CallError::NoResults(reason));
        }
        Ok(())
    }
}

/// Why an outcome is no results, if it is none.
fn failure_of(outcome: Outcome) -> Option<NoResults>
    ensures { ComesTo outcome result }
{
    match payload_of(0, outcome) {
        Ok(_) => None,
        Err(reason) => Some(reason),
    }
}
