//! One direction of a connection that C relays, its rules, and what goes out.

ghost use Rattle.std.specs.Prelude.{◌≡◌, [], OnOk, IfErr};
ghost use Rattle.cp_relay.specs.Relay.{new_relay, Gives, StopsAt, EndsWell};
ghost use Rattle.c_handles.specs.Rules.{passes, HasEnded};

use crate::method::MethodRules;
use cp_frame::Mode;
use cp_relay::{Output, Relay, RelayFault};
use cp_words::Limits;
use std::alloc::Global;
use std::mem;

/// The most capacity for lent bytes that is left for later ones.
const SPARE: usize = 65_536;

/// A relay, its rules, and the bytes that were lent.
#[derive(Drop)]
pub struct RelayState {
    pub alloc: Global,
    pub relay: Relay,
    pub rules: MethodRules,
    pub lent: Vec<u8>,
}

impl RelayState {
    /// A relay of a stream of which nothing has come.
    pub fn new(
        alloc: Global,
        mode: Mode,
        output: Output,
        limits: Limits,
        rules: MethodRules,
    ) -> RelayState
        ensures relay { result.relay ≡ new_relay mode output limits }
        ensures rules { result.rules ≡ rules }
        ensures nothing { result.lent.items ≡ [] }
    {
        RelayState {
            alloc,
            relay: Relay::new(alloc, mode, output, limits),
            rules,
            lent: Vec::new(alloc),
        }
    }

    /// Takes the next piece of the stream, and lends what goes out of it, in place of what was lent.
    ///
    /// # Errors
    ///
    /// Those of `Relay::feed`. What came before the fault is lent.
    pub fn feed(&mut self, piece: &[u8]) -> Result<(), RelayFault>
        ensures given { OnOk result (Gives passes self.old.relay piece.now self.new.relay self.old.rules self.new.rules [] self.new.lent.items) }
        ensures stopped { IfErr result (StopsAt passes self.old.relay piece.now self.new.relay self.old.rules self.new.rules [] self.new.lent.items) }
    {
        self.let_go();
        self.relay.feed(&mut self.rules, piece, &mut self.lent)
    }

    /// Ends the stream, after a message.
    ///
    /// # Errors
    ///
    /// Those of `Relay::finish`.
    pub fn end(&mut self) -> Result<(), RelayFault>
        ensures ok { OnOk result (EndsWell self.old.relay self.new.relay) }
        ensures stopped { IfErr result (HasEnded self.old.relay self.new.relay) }
        ensures rules { self.new.rules ≡ self.old.rules }
        ensures lent { self.new.lent.items ≡ self.old.lent.items }
    {
        self.relay.finish()
    }

    /// Lets go of what was lent, and of a large buffer.
    fn let_go(&mut self)
        ensures nothing { self.new.lent.items ≡ [] }
        ensures relay { self.new.relay ≡ self.old.relay }
        ensures rules { self.new.rules ≡ self.old.rules }
    {
        if SPARE < self.lent.capacity() {
            drop(mem::replace(&mut self.lent, Vec::new(self.alloc)));
        }
        self.lent.clear();
    }
}
