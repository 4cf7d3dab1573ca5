//! What the effects of a vat ask for.

ghost use Rattle.std.specs.Prelude.{◌≡◌, ◌∷◌, [], IfOk, OnOk, OnErr};
ghost use Rattle.cp_tail_calls.specs.Serving.{closes, comes_of};
ghost use Rattle.cp_connection.specs.Excess.{abort_of};
ghost use Rattle.cp_connection.specs.Noting.{Notes, IsTold, Grows, Stays, IsNew, Marks, GoesBack};
ghost use Rattle.cp_vat_machine.specs.declared.effect.Effect.{Effect};
ghost use Rattle.cp_vat_machine.specs.declared.effect.Effect.TheVariants.{Send};
ghost use Rattle.cp_vat_laws.specs.Sizes.{AreWritable, IsWritable, IsWritten};

use crate::event::ConnectionEvent;
use crate::excess::Excess;
use crate::outgoing::Outgoing;
use cp_frame::Mode;
use cp_rpc::Message;
use cp_tail_calls::{TailCalls, Trigger};
use cp_vat_machine::{Effect, Effects};
use std::alloc::{AllocError, Global};
use std::collections::VecDeque;

/// What the effects of a vat asked for that is still to be done.
#[derive(Drop)]
pub(crate) struct Agenda {
    pub mode: Mode,
    pub outgoing: Outgoing,
    /// What happened and wasn't taken, in order.
    pub happened: VecDeque<ConnectionEvent>,
    /// The messages that were sent, at most `u64::MAX`.
    pub sent: u64,
}

/// How much an agenda has.
#[derive(Clone, Copy)]
pub(crate) struct Mark {
    pub unwritten: usize,
    pub happened: usize,
    pub sent: u64,
}

impl Agenda {
    /// Nothing is to be done.
    pub fn new(alloc: Global, mode: Mode) -> Agenda
        ensures { IsNew mode result }
    {
        Agenda {
            mode,
            outgoing: Outgoing::new(alloc),
            happened: VecDeque::new(alloc),
            sent: 0,
        }
    }

    /// Notes what effects ask for, in order, up to the vat's closing, as tail calls pass them on. Says whether it
    /// closed. Where memory runs out, the first of them were noted.
    pub fn note(
        &mut self,
        effects: Effects,
        tails: &mut Option<TailCalls>,
        trigger: Trigger,
    ) -> Result<bool, AllocError>
        requires writable { AreWritable effects }
        ensures closed { IfOk result (λ closed. closed ≡ closes effects) }
        ensures noted { OnOk result (Notes self.old (comes_of trigger tails.old effects).0 self.new) }
        ensures tails { OnOk result (tails.new ≡ (comes_of trigger tails.old effects).1) }
        ensures grown { OnErr result (Grows self.old self.new) }
    {
        for effect in effects.into_effects() {
            let closed = is_closing(&effect);
            self.note_one(effect, tails, trigger)?;
            if closed {
                return Ok(true);
            }
        }
        Ok(false)
    }

    /// How much is noted.
    pub fn mark(&self) -> Mark
        ensures { Marks self.now result }
    {
        Mark {
            unwritten: self.outgoing.len(),
            happened: self.happened.len(),
            sent: self.sent,
        }
    }

    /// Takes back what was noted after this.
    pub fn go_back(&mut self, mark: Mark)
        ensures { GoesBack self.old mark self.new }
    {
        self.outgoing.truncate(mark.unwritten);
        self.happened.truncate(mark.happened);
        self.sent = mark.sent;
    }

    /// Notes an effect, as tail calls pass it on.
    fn note_one(
        &mut self,
        effect: Effect,
        tails: &mut Option<TailCalls>,
        trigger: Trigger,
    ) -> Result<(), AllocError>
        requires writable { IsWritten effect }
        ensures noted { OnOk result (Notes self.old (comes_of trigger tails.old (effect ∷ [])).0 self.new) }
        ensures tails { OnOk result (tails.new ≡ (comes_of trigger tails.old (effect ∷ [])).1) }
        ensures same { OnErr result (Stays self.old self.new) }
    {
        match effect {
            Effect::Send(message) => self.pass_on(message, tails, trigger),
            Effect::Deliver {
                object,
                origin,
                ticket,
                call,
            } => self.add(ConnectionEvent::Delivered {
                object,
                origin,
                ticket,
                call,
            }),
            Effect::Settled { question, outcome } => {
                self.add(ConnectionEvent::Settled { question, outcome })
            }
            Effect::Closed(reason) => self.add(ConnectionEvent::Closed(reason)),
        }
    }

    /// Sends a message of the vat's, or what tail calls send in its place.
    fn pass_on(
        &mut self,
        message: Message,
        tails: &mut Option<TailCalls>,
        trigger: Trigger,
    ) -> Result<(), AllocError>
        requires writable { IsWritable message }
        ensures noted { OnOk result (Notes self.old (comes_of trigger tails.old (Send message ∷ [])).0 self.new) }
        ensures tails { OnOk result (tails.new ≡ (comes_of trigger tails.old (Send message ∷ [])).1) }
        ensures same { OnErr result (Stays self.old self.new) }
    {
        let Some(tails) = tails else {
            return self.send(message);
        };
        match tails.send(message, trigger)? {
            Some(message) => self.send(message),
            None => Ok(()),
        }
    }

    /// Puts a message's frame after what is to go out.
    pub fn send(&mut self, message: Message) -> Result<(), AllocError>
        requires writable { IsWritable message }
        ensures noted { OnOk result (Notes self.old (Send message ∷ []) self.new) }
        ensures same { OnErr result (Stays self.old self.new) }
    {
        // Framed now and not when it is written: each call of `Vat` ensures that it can be, so `outgoing` and `wrote` can't fail.
        let put = self.outgoing.put(&message, self.mode);
        drop(message);
        put?;
        self.sent = self.sent.saturating_add(1);
        Ok(())
    }

    /// Sends an Abort that says what is too much.
    pub fn abort(&mut self, alloc: Global, excess: Excess) -> Result<(), AllocError>
        ensures noted { OnOk result (Notes self.old (Send (abort_of excess) ∷ []) self.new) }
        ensures same { OnErr result (Stays self.old self.new) }
    {
        let message = excess.abort(alloc)?;
        self.send(message)
    }

    /// Adds what happened last.
    fn add(&mut self, happening: ConnectionEvent) -> Result<(), AllocError>
        ensures noted { OnOk result ((effect : Effect) → IsTold effect happening → Notes self.old (effect ∷ []) self.new) }
        ensures same { OnErr result (Stays self.old self.new) }
    {
        self.happened.push_back(happening)?;
        Ok(())
    }
}

/// Whether the vat closes by an effect.
fn is_closing(effect: &Effect) -> bool
    ensures { result ≡ closes (effect.now ∷ []) }
{
    matches!(effect, Effect::Closed(_))
}
