//! One end of a connection.

ghost use Rattle.std.specs.Prelude.{◌≡◌};
ghost use Rattle.std.specs.FinMap as map;
ghost use Rattle.cp_rpc.specs.Viewed.{viewed};
ghost use Rattle.cp_vat_machine.specs.State.{new_state};
ghost use Rattle.cp_vat_machine.specs.Asked.{stage_of};
ghost use Rattle.cp_vat_machine.specs.InUse.{is_object_used};
ghost use Rattle.cp_vat_machine.specs.Step.{Step};
ghost use Rattle.cp_vat_machine.specs.declared.event.Event.TheVariants as events;
ghost use Rattle.cp_vat_machine.specs.declared.event.Value.TheVariants as values;
ghost use Rattle.cp_vat_laws.specs.Sizes.{AreWritable};
ghost use Rattle.cp_vat.specs.Kept.{contents_of, entries_of};
ghost use Rattle.cp_vat.specs.Lending.{effects_lending};
ghost use Rattle.cp_vat.specs.Stages.{stage_at};
ghost use Rattle.cp_vat.specs.Stepping.{answered, effects_of};

use crate::borrowed_call::BorrowedCall;
use crate::ending::{end_call, end_lending, end_message};
use crate::{answering, asking, calling, giving_up, receiving};
use cp_refs::{Cap, Origin, Outcome, PromiseId, Request};
use cp_rpc::{Message, MessageView};
use cp_tables::Stage;
use cp_vat_machine::{Acted, Idle, VatFault};
use cp_vat_state::Core;
use std::alloc::Global;
use std::marker::Model;

/// One end of a connection, without the connection: messages of the peer and calls of the application come
/// in, and each gives its effects, in order.
///
/// # In which order calls are made
///
/// 1. `new` makes a vat, with the object that the peer's Bootstrap gets.
/// 2. `receive`, or `receive_view` or `receive_lending` for one that is read in place, takes each message of the peer, in the order
///    in which they came. The other calls may come between any two messages.
/// 3. Do what the effects of each call ask, in order, and after those of all calls before it. If you call the
///    vat while effects are left, as to `answer` a `Deliver`, put the new ones at the end of that queue.
/// 4. After the effect `Closed`, or a V10, close the connection: each later call is refused (V9).
///
/// # Calls by what they are for
///
/// - The peer's messages: `receive`, `receive_view`, `receive_lending`.
/// - Questions: `bootstrap` asks for the peer's object, and `call` calls a capability. Either gives a number,
///   which `Cap::Pipelined` may name at once. `finish` gives the question up, once, before or after its outcome.
/// - Calls that were delivered: `answer`, once for each.
/// - Promises: `promise` makes one, `resolve` settles it, once, and `forget` drops it when nothing uses it.
/// - Imports: `release` gives one back when nothing uses it.
/// - `idle` gives the imports and the promises that nothing uses.
///
/// # What each effect asks
///
/// - `Send`: write this message to the peer.
/// - `Deliver`: hand this call to the object, and `answer` it by its origin, now or later. The imports in its
///   table stay until they are released.
/// - `Settled`: a question came to this outcome. `finish` it when you need none of its paths any more; the
///   imports that it named stay until they are released. A question that was finished has no `Settled`.
/// - `Closed`: close the connection, for this reason. It is the last effect; a fault's Abort is the `Send`
///   before it.
///
/// # Refusals
///
/// A call that is refused changes nothing and has no effects. But at V10 memory ran out, and the vat is closed
/// without an Abort.
///
/// # Sizes
///
/// Each message that a vat sends can be written: it nests 64 deep at most, and costs 8,388,608 words at most.
pub struct Vat {
    core: Core,
}

// Not derived: a crate that lets one go calls this function, and need not prove the drop of all that it holds.
impl Drop for Vat {
    fn drop(self) {
        let Vat { core: _ } = self;
    }
}

impl Model for Vat {
    ghost use Rattle.cp_vat_machine.specs.State.{State};
    ghost use Rattle.cp_vat.specs.StateCode.{state_code};

    ghost Value = { State };

    ghost coded = { state_code };

    ghost use Rattle.cp_vat_state.specs.StateOf.{state_of};

    ghost view = { λ v. state_of v.core };

    ghost use Rattle.cp_vat.specs.Stepping.{Stays};

    ghost invariant = { λ v. Stays (state_of v.core) };
}

impl Vat {
    /// A new vat, which gives this object to a Bootstrap.
    pub fn new(alloc: Global, bootstrap: Option<u32>) -> Vat
        ensures { result ≡ new_state bootstrap }
    {
        Vat {
            core: Core::new(alloc, bootstrap),
        }
    }

    /// How many entries it keeps: of questions, of answers, which the peer's calls are until they are answered and finished, and of
    /// imports.
    pub fn entries(&self) -> usize
        ensures { result ≡ entries_of self.now }
    {
        self.core.questions.len() + self.core.answers.len() + self.core.imports.len()
    }

    /// How many imports it has.
    pub fn imports(&self) -> usize
        ensures { result ≡ map.len self.now.counts.imports }
    {
        self.core.imports.len()
    }

    /// How many promises it has: those that were made here, and those that its peer's tables tied to answers.
    pub fn promises(&self) -> usize
        ensures { result ≡ map.len self.now.values.promises }
    {
        self.core.values.values().promises().len()
    }

    /// The bytes of memory that contents take which it keeps: of calls that wait, and what promises, imports, answers and questions
    /// came to. Of the results of answers and questions the pointers are kept, where there are capabilities. At most `u64::MAX`.
    pub fn contents(&self) -> u64
        ensures { result ≡ contents_of self.now }
    {
        let calls = self.core.gates.memory();
        calls.saturating_add(self.core.values.memory())
    }

    /// Whether it refers to this object: a Bootstrap gets it, the peer was given it and holds it, an answer or a promise that is kept
    /// names it, a call that waits does, or an embargo leads to it.
    pub fn uses_object(&self, object: u32) -> bool
        ensures { result ≡ is_object_used self.now object }
    {
        self.core.is_object_used(object)
    }

    /// Whether it is closed: it refuses each event then.
    pub fn is_closed(&self) -> bool
        ensures { result ≡ self.now.is_closed }
    {
        self.core.is_closed
    }

    /// The stage of a question that the peer was asked: its Return is due while it is open, and after the application gave it up
    /// till that comes.
    pub fn stage_of(&self, question: u32) -> Option<Stage>
        ensures { result ≡ stage_of self.now question }
    {
        let question = self.core.questions.get(question)?;
        if question.kept.is_sent {
            Some(question.stage)
        } else {
            None
        }
    }

    /// The stage of a call that is answered to the peer, or that the application made, whoever answers it: `Finished` says that its
    /// outcome is for nobody any more.
    pub fn stage_at(&self, origin: Origin) -> Option<Stage>
        ensures { result ≡ stage_at self.now origin }
    {
        match origin {
            Origin::Answer(answer) => {
                let answer = self.core.answers.get(answer)?;
                Some(answer.stage)
            }
            Origin::Own(question) => {
                let question = self.core.questions.get(question)?;
                Some(question.stage)
            }
        }
    }

    /// Takes in a message of the peer's, by the tree that it is written as.
    ///
    /// # Errors
    ///
    /// V10 where memory runs out, or where a list of the message has 2^29 elements or words or more, which no peer can send.
    pub fn receive(&mut self, message: Message) -> Result<Acted<()>, VatFault>
        ensures step { Step self.old (events.Receive message) (answered (λ _. values.Nothing) result) (effects_of result) self.new }
        ensures writable { AreWritable (effects_of result) }
    {
        if self.core.is_closed {
            return Err(VatFault::Closed);
        }
        let mut effects = Vec::new(self.core.alloc);
        let done = receiving::receive_owned(&mut self.core, &message, &mut effects);
        drop(message);
        end_message(&mut self.core, done, effects)
    }

    /// Takes in a message of the peer's that is read in place. A tree of it is made only for an effect, a
    /// waiting call or a kept outcome, and after the message was checked. Its table, target and texts are
    /// made once they are known to be within the vat's sizes.
    pub fn receive_view(&mut self, message: MessageView) -> Result<Acted<()>, VatFault>
        ensures step { Step self.old (events.Receive (viewed message.entry)) (answered (λ _. values.Nothing) result) (effects_of result) self.new }
        ensures writable { AreWritable (effects_of result) }
    {
        if self.core.is_closed {
            return Err(VatFault::Closed);
        }
        let mut effects = Vec::new(self.core.alloc);
        let done = receiving::receive(&mut self.core, &message, &mut effects);
        end_message(&mut self.core, done, effects)
    }

    /// Takes in a message of the peer's that is read in place, as `receive_view` does, but that a call which goes to an object is
    /// lent to it: no tree of its params is made, and no effect says that it is delivered. It comes before the effects.
    pub fn receive_lending<'a>(
        &mut self,
        message: MessageView<'a>,
    ) -> Result<Acted<Option<BorrowedCall<'a>>>, VatFault>
        ensures step { Step self.old (events.Receive (viewed message.entry)) (answered (λ _. values.Nothing) result) (effects_lending result) self.new }
        ensures writable { AreWritable (effects_of result) }
    {
        if self.core.is_closed {
            return Err(VatFault::Closed);
        }
        let mut effects = Vec::new(self.core.alloc);
        let done = receiving::receive_lending(&mut self.core, &message, &mut effects);
        end_lending(&mut self.core, done, effects)
    }

    /// Asks for the peer's bootstrap capability, and gives the question's number.
    ///
    /// # Errors
    ///
    /// V8 where the table of questions is full.
    pub fn bootstrap(&mut self) -> Result<Acted<u32>, VatFault>
        ensures step { Step self.old events.Bootstrap (answered (λ q. values.Question q) result) (effects_of result) self.new }
        ensures writable { AreWritable (effects_of result) }
    {
        if self.core.is_closed {
            return Err(VatFault::Closed);
        }
        let mut effects = Vec::new(self.core.alloc);
        let done = asking::bootstrap(&mut self.core, &mut effects);
        end_call(&mut self.core, done, effects)
    }

    /// Calls a capability, and gives the question's number.
    ///
    /// # Errors
    ///
    /// V1 or V2 where a question or a promise that is named doesn't exist, V5 where the table names a
    /// path of an open local question, V7 past the sizes, V8 where a table is full, V11 where an import
    /// isn't held.
    pub fn call(&mut self, cap: Cap, request: Request) -> Result<Acted<u32>, VatFault>
        ensures step { Step self.old (events.Call cap request) (answered (λ q. values.Question q) result) (effects_of result) self.new }
        ensures writable { AreWritable (effects_of result) }
    {
        if self.core.is_closed {
            return Err(VatFault::Closed);
        }
        let mut effects = Vec::new(self.core.alloc);
        let done = calling::call(&mut self.core, cap, request, &mut effects);
        end_call(&mut self.core, done, effects)
    }

    /// Answers a call that was delivered.
    ///
    /// # Errors
    ///
    /// V1 where the call wasn't delivered or was answered, or a question that is named doesn't exist, V2
    /// where a promise isn't, V5 where a path of a question is named, V7 past the sizes, V8 where a
    /// table is full, V11 where an import isn't held.
    pub fn answer(&mut self, origin: Origin, outcome: Outcome) -> Result<Acted<()>, VatFault>
        ensures step { Step self.old (events.Answer origin outcome) (answered (λ _. values.Nothing) result) (effects_of result) self.new }
        ensures writable { AreWritable (effects_of result) }
    {
        if self.core.is_closed {
            return Err(VatFault::Closed);
        }
        let mut effects = Vec::new(self.core.alloc);
        let done = answering::answer(&mut self.core, origin, outcome, &mut effects);
        end_call(&mut self.core, done, effects)
    }

    /// Makes an open promise.
    ///
    /// # Errors
    ///
    /// V8 where there are 65,536.
    pub fn promise(&mut self) -> Result<Acted<PromiseId>, VatFault>
        ensures step { Step self.old events.Promise (answered (λ p. values.Promise p) result) (effects_of result) self.new }
        ensures writable { AreWritable (effects_of result) }
    {
        if self.core.is_closed {
            return Err(VatFault::Closed);
        }
        let effects = Vec::new(self.core.alloc);
        let done = asking::promise(&mut self.core);
        end_call(&mut self.core, done, effects)
    }

    /// Settles a promise that the application made.
    ///
    /// # Errors
    ///
    /// V1 where the value names a question that doesn't exist, V2 where the promise isn't the
    /// application's or the value's doesn't exist, V3 where it is settled, V4 where the value leads back
    /// to it, V5 where the value is a path of a question, V7 past the sizes, V8 where a table is full,
    /// V11 where the value's import isn't held.
    pub fn resolve(&mut self, promise: PromiseId, value: Cap) -> Result<Acted<()>, VatFault>
        ensures step { Step self.old (events.Resolve promise value) (answered (λ _. values.Nothing) result) (effects_of result) self.new }
        ensures writable { AreWritable (effects_of result) }
    {
        if self.core.is_closed {
            return Err(VatFault::Closed);
        }
        let mut effects = Vec::new(self.core.alloc);
        let done = answering::resolve(&mut self.core, promise, value, &mut effects);
        end_call(&mut self.core, done, effects)
    }

    /// Gives a question up.
    ///
    /// # Errors
    ///
    /// V1 where it isn't the application's or was finished, V6 where it is in use.
    pub fn finish(&mut self, question: u32) -> Result<Acted<()>, VatFault>
        ensures step { Step self.old (events.Finish question) (answered (λ _. values.Nothing) result) (effects_of result) self.new }
        ensures writable { AreWritable (effects_of result) }
    {
        if self.core.is_closed {
            return Err(VatFault::Closed);
        }
        let mut effects = Vec::new(self.core.alloc);
        let done = giving_up::finish(&mut self.core, question, &mut effects);
        end_call(&mut self.core, done, effects)
    }

    /// Gives an import back, with its whole count.
    ///
    /// # Errors
    ///
    /// V6 where it is in use, V11 where it isn't held.
    pub fn release(&mut self, import: u32) -> Result<Acted<()>, VatFault>
        ensures step { Step self.old (events.Release import) (answered (λ _. values.Nothing) result) (effects_of result) self.new }
        ensures writable { AreWritable (effects_of result) }
    {
        if self.core.is_closed {
            return Err(VatFault::Closed);
        }
        let mut effects = Vec::new(self.core.alloc);
        let done = giving_up::release(&mut self.core, import, &mut effects);
        end_call(&mut self.core, done, effects)
    }

    /// Drops a settled promise.
    ///
    /// # Errors
    ///
    /// V2 where it doesn't exist, V5 where it is open, V6 where it is in use.
    pub fn forget(&mut self, promise: PromiseId) -> Result<Acted<()>, VatFault>
        ensures step { Step self.old (events.Forget promise) (answered (λ _. values.Nothing) result) (effects_of result) self.new }
        ensures writable { AreWritable (effects_of result) }
    {
        if self.core.is_closed {
            return Err(VatFault::Closed);
        }
        let effects = Vec::new(self.core.alloc);
        let done = giving_up::forget(&mut self.core, promise);
        end_call(&mut self.core, done, effects)
    }

    /// The imports and the promises that aren't in use.
    pub fn idle(&mut self) -> Result<Acted<Idle>, VatFault>
        ensures step { Step self.old events.Idle (answered (λ idle. values.Idle idle.imports idle.promises) result) (effects_of result) self.new }
        ensures writable { AreWritable (effects_of result) }
    {
        if self.core.is_closed {
            return Err(VatFault::Closed);
        }
        let effects = Vec::new(self.core.alloc);
        let done = giving_up::idle(&self.core);
        end_call(&mut self.core, done, effects)
    }
}
