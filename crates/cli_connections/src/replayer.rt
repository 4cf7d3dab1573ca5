//! Calls that are made again, and what came otherwise.

use crate::asker::Asker;
use crate::counterparts::{Counterparts, MadeQuestion};
use crate::fault::CommandFault;
use crate::outcomes::OutcomeForm;
use cp_client::{ClientFault, Question};
use cp_commands::{ACCEPTED, CallPlan, REFUSED, ReplayPlan};
use cp_connection::ConnectionFault;
use cp_reading::View;
use cp_recordings::{Ending, Hears, Moment, Recording, SessionFault, Side};
use cp_refs::Cap;
use cp_rpc::{CallView, MessageIn, MessageView, ReturnView};
use cp_schema::{MethodNumber, Schema};
use std::alloc::Global;
use std::io::{Read, Write};

/// Makes the calls of a recording again by a client, and prints what came otherwise. Gives the status, which a line of `err` explains where
/// something failed. What fails of the client is left to its caller.
pub(crate) fn play_again<C: Asker, T: Read + Drop, O: Write, E: Write>(
    alloc: Global,
    schema: Option<&Schema>,
    plan: &ReplayPlan,
    client: &mut C,
    recording: &mut Recording<'_, T>,
    out: &mut O,
    err: &mut E,
) -> Result<u8, ClientFault> {
    let mut replayer = Replayer::new(alloc, schema, &plan.call, client, out);
    let played = recording.play(&mut replayer);
    let ended = replayer.end(plan.path, played);
    drop(replayer);
    match ended {
        Ok(true) => Ok(ACCEPTED),
        Ok(false) => Ok(REFUSED),
        Err(CommandFault::Refused(fault)) => Err(fault),
        Err(fault) => {
            let status = fault.tell(err);
            drop(fault);
            Ok(status)
        }
    }
}

/// Makes the calls of a recording's client again, in its order, and waits for each outcome where the recording has it.
struct Replayer<'f, 'c, C, O> {
    form: OutcomeForm<'f>,
    client: &'c mut C,
    out: &'c mut O,
    counterparts: Counterparts,
    calls: u64,
    /// How many outcomes came otherwise.
    otherwise: u64,
    /// Why no more is made again.
    fault: Option<CommandFault<'static>>,
}

// Not derived: who lets one go calls this function, and need not prove the drop of what it holds.
impl<'f, 'c, C, O> Drop for Replayer<'f, 'c, C, O> {
    fn drop(self) {
        let Replayer {
            form: _,
            client: _,
            out: _,
            counterparts: _,
            calls: _,
            otherwise: _,
            fault: _,
        } = self;
    }
}

impl<'f, 'c, C: Asker, O: Write> Hears for Replayer<'f, 'c, C, O> {
    fn hear(&mut self, moment: Moment, message: &MessageView) -> Result<(), SessionFault> {
        match self.take(moment, message) {
            Ok(()) => Ok(()),
            Err(fault) => {
                drop(self.fault.replace(fault));
                Err(SessionFault::Stopped)
            }
        }
    }
}

impl<'f, 'c, C: Asker, O: Write> Replayer<'f, 'c, C, O> {
    /// Nothing made again so far.
    fn new(
        alloc: Global,
        schema: Option<&'f Schema>,
        plan: &CallPlan<'_, '_>,
        client: &'c mut C,
        out: &'c mut O,
    ) -> Replayer<'f, 'c, C, O> {
        Replayer {
            form: OutcomeForm::new(alloc, schema, plan),
            client,
            out,
            counterparts: Counterparts::new(alloc),
            calls: 0,
            otherwise: 0,
            fault: None,
        }
    }

    /// Has all that is still to be sent go out, and says how many calls were made, and how many outcomes came otherwise. Says whether
    /// none did.
    fn end<'p>(
        &mut self,
        path: &'p str,
        played: Result<Ending, SessionFault>,
    ) -> Result<bool, CommandFault<'p>> {
        if let Some(fault) = self.fault.take() {
            return Err(fault);
        }
        if let Err(fault) = played {
            return Err(CommandFault::Recording { path, fault });
        }
        self.tell_end()
    }

    /// The same where the whole recording was read.
    fn tell_end(&mut self) -> Result<bool, CommandFault<'static>> {
        self.client.flush()?;
        let (calls, otherwise) = (self.calls, self.otherwise);
        writeln!(self.out, "calls {calls}, otherwise {otherwise}")?;
        self.out.flush()?;
        Ok(otherwise == 0)
    }

    /// Takes the next message of the recording.
    fn take(&mut self, moment: Moment, message: &MessageView) -> Result<(), CommandFault<'static>> {
        self.counterparts.take(moment, message)?;
        match (moment.side, message) {
            (Side::Client, MessageIn::Bootstrap(bootstrap)) => {
                self.bootstrap(bootstrap.question_id)
            }
            (Side::Client, MessageIn::Call(call)) => self.call(call),
            (Side::Client, MessageIn::Finish(finish)) => {
                self.finish(finish.question_id, finish.release_result_caps)
            }
            (Side::Client, MessageIn::Release(release)) => {
                self.give_up(release.id);
                Ok(())
            }
            (Side::Server, MessageIn::Return(returned)) => self.compare(returned),
            (Side::Server, MessageIn::Resolve(resolve)) => Ok(self.counterparts.resolve(resolve)?),
            _ => Ok(()),
        }
    }

    /// Asks for the bootstrap again.
    fn bootstrap(&mut self, number: u32) -> Result<(), CommandFault<'static>> {
        let made = MadeQuestion {
            question: Some(self.client.bootstrap()?),
            method: None,
        };
        Ok(self.counterparts.ask(number, made)?)
    }

    /// Makes a call again, if what it goes to is here.
    fn call(&mut self, call: &CallView<View<'_>>) -> Result<(), CommandFault<'static>> {
        self.calls = self.calls.saturating_add(1);
        let question = match self.counterparts.target(&call.target)? {
            Some(target) => self.ask(target, call)?,
            None => None,
        };
        let made = MadeQuestion {
            question,
            method: Some(MethodNumber {
                interface: call.interface_id,
                method: call.method_id,
            }),
        };
        Ok(self.counterparts.ask(call.question_id, made)?)
    }

    /// Calls this. `None`: the client refuses it, as it does where a result has no capability there.
    fn ask(
        &mut self,
        target: Cap,
        call: &CallView<View<'_>>,
    ) -> Result<Option<Question>, CommandFault<'static>> {
        let request = match self.counterparts.request(call) {
            Ok(request) => request,
            Err(error) => {
                drop(target);
                return Err(CommandFault::from(error));
            }
        };
        match self.client.call(target, request) {
            Ok(question) => Ok(Some(question)),
            Err(ClientFault::Connection(ConnectionFault::Refused(_))) => Ok(None),
            Err(fault) => Err(CommandFault::from(fault)),
        }
    }

    /// Finishes a question again, and what its results named, if the Finish gives that up.
    fn finish(&mut self, number: u32, gives_up: bool) -> Result<(), CommandFault<'static>> {
        if let Some(question) = self.counterparts.finish(number) {
            self.client.finish(question)?;
        }
        if gives_up {
            let unheld = self.counterparts.unheld()?;
            for id in unheld.iter() {
                self.give_up(*id);
            }
            drop(unheld);
        }
        Ok(())
    }

    /// Releases what stands for an import of the recording, if the recorded client holds that no more.
    fn give_up(&mut self, id: u32) {
        if let Some((import, outcomes)) = self.counterparts.give_up(id) {
            for _ in 0..outcomes {
                // What results of an open question name is kept until that is finished.
                let _ = self.client.release(import);
            }
        }
    }

    /// Waits for the outcome that a Return of the recording has, and prints both if they differ.
    fn compare(&mut self, returned: &ReturnView<View<'_>>) -> Result<(), CommandFault<'static>> {
        let number = returned.answer_id;
        let Some(made) = self.counterparts.question(number) else {
            return Ok(());
        };
        let Some(recorded) = self.counterparts.recorded(returned)? else {
            return Ok(());
        };
        let wanted = self.form.line(number, made.method, &recorded);
        drop(recorded);
        let wanted = wanted?;
        let told = match self.came(made, returned) {
            Ok(came) => {
                let told = self.tell(&wanted, &came);
                drop(came);
                told
            }
            Err(fault) => Err(fault),
        };
        drop(wanted);
        told
    }

    /// The line of what a question came to.
    fn came(
        &mut self,
        made: MadeQuestion,
        returned: &ReturnView<View<'_>>,
    ) -> Result<String, CommandFault<'static>> {
        let Some(question) = made.question else {
            return Ok(String::from_str(self.form.alloc, "not made\n")?);
        };
        let outcome = self.client.wait(question)?;
        let outcome = self.counterparts.came(returned, outcome)?;
        let line = self.form.line(returned.answer_id, made.method, &outcome);
        drop(outcome);
        line
    }

    /// Prints what was recorded and what came, if they differ.
    fn tell(&mut self, recorded: &str, came: &str) -> Result<(), CommandFault<'static>> {
        if recorded == came {
            return Ok(());
        }
        self.otherwise = self.otherwise.saturating_add(1);
        Ok(write!(self.out, "- {recorded}+ {came}")?)
    }
}
