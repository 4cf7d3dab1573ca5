//! A client, as typed clients call by it.

ghost use Rattle.std.specs.Prelude.{Result};
ghost use Rattle.cp_client.specs.ConversationOf.{seen};
ghost use Rattle.cp_client.specs.Calls.{AsksOrNot};

use crate::client::SessionClient;
use crate::fault::ClientFault;
use cp_interfaces::Caller;
use cp_refs::{Cap, Request};
use cp_session::CallingSession;
use std::alloc::Global;
use std::io::{Read, Write};

impl<R: Read + Drop, W: Write + Drop, S: CallingSession> Caller for SessionClient<R, W, S> {
    type Fault = ClientFault;

    ghost number = { λ client. client.number };

    ghost sends = { λ old cap request result new. AsksOrNot (seen S.state R.remaining W.contents old) cap request result (seen S.state R.remaining W.contents new) };

    fn session(&self) -> u64 {
        self.number
    }

    fn send(&mut self, alloc: Global, cap: &Cap, request: Request) -> Result<u32, ClientFault> {
        let cap = cap.copy(alloc)?;
        let question = self.call(cap, request)?;
        Ok(question.number)
    }
}
