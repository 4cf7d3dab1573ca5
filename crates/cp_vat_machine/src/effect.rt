//! What a vat does.

use crate::fault::PeerFault;
use cp_messages::{Exception, Message};
use cp_refs::{Origin, Outcome, Request};
use std::fmt;
use std::marker::Model;

/// Why a vat closed.
#[derive(Drop)]
pub enum Reason {
    /// The peer sent an Abort with this exception.
    Peer(Exception),
    /// The peer was at fault.
    Fault(PeerFault),
}

impl fmt::Display for Reason {
    fn fmt<W: fmt::Write>(&self, f: &mut fmt::Formatter<W>) -> fmt::Result {
        match self {
            Reason::Peer(exception) => write!(f, "aborted by the peer: {exception}"),
            Reason::Fault(fault) => write!(f, "fault of the peer: {fault}"),
        }
    }
}

/// What a vat asks of its user, who does what each effect asks in the order of the list.
#[derive(Drop)]
pub enum Effect {
    /// Write this message to the peer.
    Send(Message),
    /// Hand this call to the object, and answer it by its origin, once, now or later.
    Deliver {
        object: u32,
        origin: Origin,
        /// Its place in the order in which calls came, from 0.
        ticket: u64,
        call: Request,
    },
    /// A question of the application came to this outcome. It stays until it is finished.
    Settled {
        question: u32,
        outcome: Outcome,
    },
    /// The vat is closed. Close the connection: nothing follows.
    Closed(Reason),
}

/// Effects, in order. Contracts see them as their list.
pub struct Effects {
    effects: Vec<Effect>,
}

// Not derived: a crate that lets one go calls this function, and need not prove the drop of all that it holds.
impl Drop for Effects {
    fn drop(self) {
        let Effects { effects: _ } = self;
    }
}

impl Model for Effects {
    ghost use Rattle.std.specs.Prelude.{List};
    ghost use Rattle.cp_vat_machine.specs.declared.effect.Effect.{Effect};

    ghost Value = { List Effect };

    ghost use Rattle.std.specs.Coded.{coded_list};
    ghost use Rattle.cp_vat_machine.specs.contracts.effect.Effect.{the_row};

    ghost coded = { coded_list the_row.coded };

    ghost view = { λ e. e.effects.items };
}

impl Effects {
    ghost use Rattle.std.specs.Prelude.{◌≡◌};

    /// These effects, in order.
    pub fn new(effects: Vec<Effect>) -> Effects
        ensures { result ≡ effects.items }
    {
        Effects { effects }
    }

    /// The effects, lent.
    pub fn effects(&self) -> &[Effect]
        ensures { result.now ≡ self.now }
    {
        &self.effects
    }

    /// The effects themselves.
    pub fn into_effects(self) -> Vec<Effect>
        ensures { result.items ≡ self }
    {
        let Effects { effects } = self;
        effects
    }
}
