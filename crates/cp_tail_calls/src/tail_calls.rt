//! What is kept of tail calls.

use crate::behind::OrdinaryVat;
use crate::forwarding::{ForwardedMessage, Trigger};
use crate::lending::lend_each;
use crate::progress::Progress;
use crate::results::UntakenResults;
use cp_messages::{Message, Returned};
use cp_rpc::{MessageIn, MessageView};
use cp_tables::{Entries, Stage};
use std::alloc::{AllocError, Global};
use std::collections::VecDeque;
use std::marker::Model;

/// The tail calls of one connection. It stands between the peer and a vat that knows none: the vat is given ordinary Calls, Returns
/// and Finishes, and the peer `resultsSentElsewhere`.
///
/// # In which order calls are made
///
/// 1. Give `receive` each message of the peer's, and the vat what it gives back, if anything.
/// 2. Give `send` each message that the vat sends, and the peer what it gives back, if anything.
/// 3. After each event of the vat, once its messages were given to `send`, take what is to be passed on by `next`, until it gives
///    none. What goes to the vat is an event of its own.
///
/// # What a tail call is
///
/// A peer that passes a call of this end on to a capability of this end sends a Call with results to itself, and answers the first
/// call by `takeFromOtherQuestion`. The vat answers that Call as any other. What it answers is kept until a question takes it, and
/// is the Return of this question then, as the peer would have sent it. Only then the peer is told `resultsSentElsewhere`: till then
/// it can't use the number of the Call again, under which the vat still keeps an answer.
///
/// # Counts
///
/// Results that are capabilities of the peer's come to the vat as imports which the peer never sent. How often is kept for each
/// import, and taken off the count that the vat gives back.
///
/// # Promises that came to nothing
///
/// A Resolve to no capability goes out as one to the exception `null capability`: peers take the first for a fault.
pub struct TailCalls {
    pub(crate) alloc: Global,
    /// The peer's calls with results to itself, by their questions, each until it is finished.
    pub(crate) calls: Entries<Progress>,
    /// Results of such calls that no question took yet.
    pub(crate) results: UntakenResults,
    /// The questions of this end that take results which aren't there yet, each with the call whose results it takes.
    pub(crate) takers: Entries<u32>,
    /// How many more the vat counts of an import than the peer does.
    pub(crate) lent: Entries<u32>,
    /// What is to be passed on, in order.
    pub(crate) owed: VecDeque<ForwardedMessage>,
}

// Not derived: a crate that lets one go calls this function, and need not prove the drop of all that it holds.
impl Drop for TailCalls {
    fn drop(self) {
        let TailCalls {
            alloc: _,
            calls: _,
            results: _,
            takers: _,
            lent: _,
            owed: _,
        } = self;
    }
}

impl Model for TailCalls {
    ghost use Rattle.cp_tail_calls.specs.Tails.{Tails};

    ghost Value = { Tails };

    ghost use Rattle.cp_tail_calls.specs.TailsCode.{tails_code};

    ghost coded = { tails_code };

    ghost view = { λ t. record { calls = t.calls; results = t.results; takers = t.takers; lent = t.lent; owed = t.owed.items } };
}

impl TailCalls {
    ghost use Rattle.std.specs.Prelude.{◌≡◌, ◌∷◌, [], IfOk, OnOk};
    ghost use Rattle.std.specs.Option.{option_map};
    ghost use Rattle.cp_rpc.specs.Viewed.{viewed};
    ghost use Rattle.cp_tail_calls.specs.Tails.{none};
    ghost use Rattle.cp_tail_calls.specs.Receiving.{received, with_owed};
    ghost use Rattle.cp_tail_calls.specs.Results.{returns_memory};
    ghost use Rattle.cp_tail_calls.specs.Sending.{lent_with, next_of, sent};

    /// No tail calls.
    pub fn new(alloc: Global) -> TailCalls
        ensures { result ≡ none }
    {
        TailCalls {
            alloc,
            calls: Entries::new(alloc),
            results: UntakenResults::new(alloc),
            takers: Entries::new(alloc),
            lent: Entries::new(alloc),
            owed: VecDeque::new(alloc),
        }
    }

    /// The bytes of memory that results take which no question took yet.
    pub fn memory(&self) -> u64
        ensures { result ≡ returns_memory self.now.results }
    {
        self.results.memory()
    }

    /// Takes a message of the peer's, and gives what the vat gets in its place, if anything.
    pub fn receive<'a, V: OrdinaryVat>(
        &mut self,
        vat: &V,
        message: MessageView<'a>,
    ) -> Result<Option<MessageView<'a>>, AllocError>
        ensures { IfOk result (λ on. received (V.acts_on vat.now) (V.stage vat.now) self.old (viewed message.entry) ≡ (option_map viewed on, self.new)) }
    {
        match message {
            MessageIn::Call(call) => {
                let call = self.receive_call(vat, call)?;
                Ok(Some(MessageIn::Call(call)))
            }
            MessageIn::Return(message) => self.receive_return(vat, message),
            MessageIn::Finish(finish) => match self.receive_finish(finish)? {
                Some(finish) => Ok(Some(MessageIn::Finish(finish))),
                None => Ok(None),
            },
            other => Ok(Some(other)),
        }
    }

    /// Takes a message that the vat sends, and gives what the peer gets in its place, if anything.
    pub fn send(
        &mut self,
        message: Message,
        trigger: Trigger,
    ) -> Result<Option<Message>, AllocError>
        ensures { IfOk result (λ on. sent self.old trigger message ≡ (on, self.new)) }
    {
        match message {
            Message::Return(message) => self.send_return(message),
            Message::Release(release) => {
                let release = self.send_release(release, trigger);
                Ok(Some(Message::Release(release)))
            }
            Message::Resolve(resolve) => {
                let resolve = self.send_resolve(resolve)?;
                Ok(Some(Message::Resolve(resolve)))
            }
            other => Ok(Some(other)),
        }
    }

    /// Gives what is to be passed on first. What results lend to the vat is counted, if it looks at them.
    pub fn next<V: OrdinaryVat>(&mut self, vat: &V) -> Result<Option<ForwardedMessage>, AllocError>
        ensures { IfOk result (λ first. next_of (V.stage vat.now) self.old self.old.owed ≡ (first, self.new)) }
    {
        let Some(owed) = self.owed.pop_front() else {
            return Ok(None);
        };
        match self.lend_by(vat, &owed) {
            Ok(()) => Ok(Some(owed)),
            Err(fault) => {
                drop(owed);
                Err(fault)
            }
        }
    }

    /// Counts what a message to the vat lends it.
    fn lend_by<V: OrdinaryVat>(
        &mut self,
        vat: &V,
        owed: &ForwardedMessage,
    ) -> Result<(), AllocError>
        ensures { OnOk result (self.new ≡ record self.old { lent = lent_with (V.stage vat.now) self.old.lent owed.now }) }
    {
        let ForwardedMessage::ToVat(Message::Return(message)) = owed else {
            return Ok(());
        };
        let Returned::Results(payload) = &message.returned else {
            return Ok(());
        };
        match vat.stage_of(message.answer_id) {
            Some(Stage::Open) => lend_each(&mut self.lent, payload.cap_table.descriptors()),
            _ => Ok(()),
        }
    }

    /// Adds what is to be passed on last.
    pub(crate) fn owe(&mut self, owed: ForwardedMessage) -> Result<(), AllocError>
        ensures { OnOk result (self.new ≡ with_owed self.old (owed ∷ [])) }
    {
        self.owed.push_back(owed)?;
        Ok(())
    }
}
