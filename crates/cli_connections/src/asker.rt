//! A client by which calls are made again.

use cp_client::{ClientFault, Question, SessionClient};
use cp_refs::{Cap, Outcome, Request};
use cp_session::CallingSession;
use std::io::{Read, Write};

/// What a client does for calls that are made again. It is a trait, so that the proofs of who makes them don't go into what a client
/// is made of.
pub(crate) trait Asker {
    /// Asks for the peer's bootstrap capability.
    fn bootstrap(&mut self) -> Result<Question, ClientFault>;

    /// Calls a capability.
    fn call(&mut self, cap: Cap, request: Request) -> Result<Question, ClientFault>;

    /// Waits for the outcome of a question.
    fn wait(&mut self, question: Question) -> Result<Outcome, ClientFault>;

    /// Gives a question up.
    fn finish(&mut self, question: Question) -> Result<(), ClientFault>;

    /// Gives an import back, once.
    fn release(&mut self, import: u32) -> Result<(), ClientFault>;

    /// Writes all that was sent.
    fn flush(&mut self) -> Result<(), ClientFault>;
}

impl<R: Read + Drop, W: Write + Drop, S: CallingSession> Asker for SessionClient<R, W, S> {
    fn bootstrap(&mut self) -> Result<Question, ClientFault> {
        SessionClient::bootstrap(self)
    }

    fn call(&mut self, cap: Cap, request: Request) -> Result<Question, ClientFault> {
        SessionClient::call(self, cap, request)
    }

    fn wait(&mut self, question: Question) -> Result<Outcome, ClientFault> {
        SessionClient::wait(self, question)
    }

    fn finish(&mut self, question: Question) -> Result<(), ClientFault> {
        SessionClient::finish(self, question)
    }

    fn release(&mut self, import: u32) -> Result<(), ClientFault> {
        SessionClient::release(self, import)
    }

    fn flush(&mut self) -> Result<(), ClientFault> {
        SessionClient::flush(self)
    }
}
