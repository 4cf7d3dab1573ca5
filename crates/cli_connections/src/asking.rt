//! Calls and their outcomes, over a connection.

use crate::fault::CommandFault;
use crate::log::Log;
use crate::logged::Logged;
use crate::outcomes::OutcomeForm;
use cp_client::{Client, ClientFault, Question};
use cp_commands::{CallPlan, peer_hint};
use cp_connection::ConnectionFault;
use cp_refs::{Cap, Outcome, Request};
use cp_schema::{MethodNumber, Schema};
use cp_stream::DeviceError;
use net_client::DuplexStream;
use std::alloc::Global;
use std::cell::RefCell;
use std::io::{ErrorKind, Write};
use std::time::Duration;

/// Makes calls on the objects of the peer behind a stream, in one go, and prints what each came to.
/// Says whether each has results.
pub(crate) fn converse<'p, O: Write>(
    alloc: Global,
    stream: DuplexStream<'_, HostRuntime>,
    plan: &CallPlan<'p, '_>,
    schema: Option<&Schema>,
    calls: Vec<(Cap, Request)>,
    out: &mut O,
) -> Result<bool, CommandFault<'p>> {
    let log = RefCell::new(Log::new(alloc, plan));
    let peer = Peer {
        form: OutcomeForm::new(alloc, schema, plan),
        stream: &stream,
        log: &log,
        plan,
    };
    let (from, to) = (Logged::new(&stream, &log), Logged::new(&stream, &log));
    let mut client = Client::new(alloc, from, to, plan.mode, plan.limits);
    let ended = ask(&mut client, &peer, calls, out);
    // Only now is the stream closed: some peers take the end of what they read as that of the connection.
    drop(client.into_devices());
    let printed = peer.print_rest(out);
    drop(stream);
    drop(log);
    match printed {
        Ok(()) => ended,
        Err(fault) => {
            drop(ended);
            Err(fault)
        }
    }
}

/// One way of a stream, of which messages are noted.
type LoggedStream<'a, 'r> = Logged<'a, &'a DuplexStream<'r, HostRuntime>>;

/// A client over a stream.
type PeerClient<'a, 'r> = Client<LoggedStream<'a, 'r>, LoggedStream<'a, 'r>>;

/// The peer of a client: by what its answers are printed, and what is told where it fails.
/// It is apart from the client, which would cost each function here a proof of what it is made of.
#[derive(Clone, Copy)]
pub(crate) struct Peer<'a, 'r, 'p> {
    pub(crate) form: OutcomeForm<'a>,
    pub(crate) stream: &'a DuplexStream<'r, HostRuntime>,
    pub(crate) log: &'a RefCell<Log>,
    pub(crate) plan: &'a CallPlan<'p, 'a>,
}

/// A call that is made.
#[derive(Clone, Copy)]
struct Asked {
    question: Question,
    method: MethodNumber,
}

/// Makes calls, and prints what each came to. Says whether each has results.
fn ask<'p, O: Write>(
    client: &mut PeerClient<'_, '_>,
    peer: &Peer<'_, '_, 'p>,
    calls: Vec<(Cap, Request)>,
    out: &mut O,
) -> Result<bool, CommandFault<'p>> {
    let mut asked = Vec::new(peer.form.alloc);
    let told = match call_all(client, calls, &mut asked) {
        Ok(()) => tell_all(client, peer, &asked, out),
        Err(fault) => Err(fault),
    };
    drop(asked);
    told
}

/// Asks for the bootstrap, question 0, and makes calls. They are sent when an outcome is waited for.
fn call_all(
    client: &mut PeerClient<'_, '_>,
    calls: Vec<(Cap, Request)>,
    asked: &mut Vec<Asked>,
) -> Result<(), CommandFault<'static>> {
    if let Err(fault) = client.bootstrap() {
        drop(calls);
        return Err(CommandFault::from(fault));
    }
    for (cap, request) in calls {
        call_one(client, cap, request, asked)?;
    }
    Ok(())
}

/// Makes a call, and adds its question.
fn call_one(
    client: &mut PeerClient<'_, '_>,
    cap: Cap,
    request: Request,
    asked: &mut Vec<Asked>,
) -> Result<(), CommandFault<'static>> {
    let number = asked.len().saturating_add(1);
    let method = MethodNumber {
        interface: request.interface,
        method: request.method,
    };
    match client.call(cap, request) {
        Ok(question) => Ok(asked.push(Asked { question, method })?),
        Err(fault) => Err(CommandFault::Unmade { number, fault }),
    }
}

/// Waits for what each call came to, and prints it. Says whether each has results. After a fault what had come before it is printed, too.
fn tell_all<'p, O: Write>(
    client: &mut PeerClient<'_, '_>,
    peer: &Peer<'_, '_, 'p>,
    asked: &[Asked],
    out: &mut O,
) -> Result<bool, CommandFault<'p>> {
    let mut all = true;
    let mut first = None;
    for asked in asked {
        match client.wait(asked.question) {
            Ok(outcome) => all &= peer.tell(*asked, outcome, out)?,
            Err(fault) => {
                first = first.or(Some(fault));
                // What came before is there already, so nothing is waited for any more.
                let _ = peer.stream.set_silence(Some(Duration::ZERO));
            }
        }
    }
    match first {
        Some(fault) => Err(peer.fault(client, fault)),
        None => Ok(all),
    }
}

impl<'a, 'r, 'p> Peer<'a, 'r, 'p> {
    /// Prints what a call came to. Says whether it has results.
    fn tell<O: Write>(
        &self,
        asked: Asked,
        outcome: Outcome,
        out: &mut O,
    ) -> Result<bool, CommandFault<'p>> {
        let has_results = matches!(outcome, Outcome::Results { .. });
        let printed = self.print(asked, &outcome, out);
        drop(outcome);
        printed?;
        Ok(has_results)
    }

    /// Prints what a call came to.
    fn print<O: Write>(
        &self,
        asked: Asked,
        outcome: &Outcome,
        out: &mut O,
    ) -> Result<(), CommandFault<'p>> {
        let line = self
            .form
            .line(asked.question.number, Some(asked.method), outcome)?;
        let printed = self.print_line(&line, out);
        drop(line);
        printed
    }

    /// Why the calls of this client come to nothing.
    pub(crate) fn fault(
        &self,
        client: &PeerClient<'_, '_>,
        fault: ClientFault,
    ) -> CommandFault<'p> {
        match fault {
            ClientFault::Device(error) => self.device(error),
            fault => self.refusal(client, fault),
        }
    }

    /// The same, where no device failed.
    fn refusal(&self, client: &PeerClient<'_, '_>, fault: ClientFault) -> CommandFault<'p> {
        if let Some(reason) = client.closed() {
            match format!(in self.form.alloc; "{reason}") {
                Ok(reason) => return CommandFault::Closed(reason),
                Err(error) => return CommandFault::from(error),
            }
        }
        match fault {
            ClientFault::Connection(ConnectionFault::Unreadable { at: 0, .. }) => {
                self.first_fault(fault)
            }
            fault => CommandFault::Refused(fault),
        }
    }

    /// Why the peer's first bytes can't be read.
    fn first_fault(&self, fault: ClientFault) -> CommandFault<'p> {
        let Ok(log) = self.log.try_borrow_mut() else {
            return CommandFault::Refused(fault);
        };
        let hint = peer_hint(self.plan.mode, &log.first);
        drop(log);
        match hint {
            Some(hint) => CommandFault::Foreign { fault, hint },
            None => CommandFault::Refused(fault),
        }
    }

    /// Why a device failed: it has an error, or nothing came in time.
    fn device(&self, error: DeviceError) -> CommandFault<'p> {
        // Where the system says that a time is over, the error has its number.
        let address = self.plan.address;
        let is_silent = error == DeviceError::from(ErrorKind::TimedOut);
        match self.plan.timeout {
            Some(seconds) if is_silent => CommandFault::Silent { address, seconds },
            _ => CommandFault::Device {
                address,
                error: error.into(),
            },
        }
    }

    /// Prints the messages that weren't, and has all that is printed go out.
    fn print_rest<O: Write>(&self, out: &mut O) -> Result<(), CommandFault<'p>> {
        self.print_messages(out)?;
        Ok(out.flush()?)
    }

    /// Prints the messages that weren't, and a line.
    fn print_line<O: Write>(&self, line: &str, out: &mut O) -> Result<(), CommandFault<'p>> {
        self.print_messages(out)?;
        Ok(out.write_all(line.as_bytes())?)
    }

    /// Prints the messages that weren't.
    fn print_messages<O: Write>(&self, out: &mut O) -> Result<(), CommandFault<'p>> {
        let Ok(mut log) = self.log.try_borrow_mut() else {
            return Ok(());
        };
        let printed = log.print(out);
        drop(log);
        Ok(printed?)
    }
}
