//! A connection without devices.

use crate::event::{ConnectionEvent, ConnectionStats, Held, event_memory};
use crate::excess::Excess;
use crate::fault::ConnectionFault;
use crate::parts::Parts;
use cp_frame::Mode;
use cp_refs::{Cap, Origin, Outcome, PromiseId, Request};
use cp_tables::Stage;
use cp_tail_calls::{TailCalls, Trigger};
use cp_vat::BorrowedCall;
use cp_vat_machine::Idle;
use cp_words::{Limits, Segments};
use std::alloc::Global;
use std::marker::Model;

/// One end of a connection of two parties (rpc.capnp, levels 0 and 1), without its devices: bytes of the peer come
/// in, bytes for the peer go out, and what happens is handed out.
///
/// # In which order calls are made
///
/// 1. `new` makes a connection, in the plain form or the packed one, with the object that the peer's Bootstrap gets.
/// 2. Give `receive` the bytes of the peer as they come, in any pieces. It takes them up to the end of the next
///    message and says how many; give it the rest then. Where they end, call `end`.
/// 3. After each call take what happened, by `next` until it gives none, and do what each asks.
/// 4. Write the bytes of `outgoing` to the peer, before you wait for more of its own, and say by `wrote` how many the
///    device took.
/// 5. `call` and the other calls of the application may come between any two of these.
///
/// # What each event asks
///
/// - `Delivered`: hand this call to the object, and `answer` it by its origin, once, now or later.
/// - `Settled`: a question came to this outcome. `finish` it when none of its paths is needed any more.
/// - `Closed`: write what is left of `outgoing`, and close. Nothing happens after it.
///
/// # Errors, and what each leaves
///
/// - `Refused` refuses a call of the application, which changes nothing.
/// - Each other fault ends the connection: every later call that can fail gives this fault and changes nothing. What
///   happened before can be taken, and what was to go out before can be written. The call that met it did nothing
///   that is handed out or goes out.
///
/// # Memory
///
/// A connection keeps what came of the open frame, what is to go out, what happened and wasn't taken, and what its
/// vat keeps. `held` says how much that is. One that is emptied after each message keeps no more of these than one
/// message leads to. Three empty buffers are kept for later frames, of at most 2 MiB each, whatever frames came and went.
pub struct Connection {
    parts: Parts,
}

// Not derived: a crate that lets one go calls this function, and need not prove the drop of all that it holds.
impl Drop for Connection {
    fn drop(self) {
        let Connection { parts: _ } = self;
    }
}

impl Model for Connection {
    ghost use Rattle.cp_connection.specs.Link.{Link};

    ghost Value = { Link };

    ghost use Rattle.cp_connection.specs.LinkCode.{link_code};

    ghost coded = { link_code };

    ghost use Rattle.cp_connection.specs.LinkOf.{link_of, KeepsUp};

    ghost view = { λ c. link_of c.parts };

    ghost invariant = { λ c. KeepsUp c.parts };
}

impl Connection {
    ghost use Rattle.std.specs.Prelude.{◌≡◌, ◌<◌, [], ℕ, List, OnOk, IfOk, IfErr, length};
    ghost use Rattle.std.specs.FinMap as map;
    ghost use Rattle.cp_frame.specs.Reader.{taken_of};
    ghost use Rattle.cp_vat_machine.specs.declared.event.Event.TheVariants as events;
    ghost use Rattle.cp_vat_machine.specs.declared.event.Value.TheVariants as values;
    ghost use Rattle.cp_vat_machine.specs.InUse.{is_object_used};
    ghost use Rattle.cp_refs.specs.Memory.{counted};
    ghost use Rattle.cp_vat.specs.Kept.{entries_of};
    ghost use Rattle.cp_vat.specs.Stages.{stage_at};
    ghost use Rattle.cp_connection.specs.Contents.{event_memory, kept_contents};
    ghost use Rattle.cp_connection.specs.Link.{HasCome, new_link, new_link_with_tails};
    ghost use Rattle.cp_connection.specs.Doing.{Aborts, Acts, answered};
    ghost use Rattle.cp_connection.specs.Receiving.{Receives, IsUnreceived, EndsWell, EndsBadly, Wrote, HandsOut};
    ghost use Rattle.cp_connection.specs.Lending.{ReceivesLending};

    /// A connection to which nothing came, which gives this object to a Bootstrap. What comes is read within these
    /// limits; what goes out keeps to the standard ones.
    pub fn new(alloc: Global, mode: Mode, limits: Limits, bootstrap: Option<u32>) -> Connection
        ensures fresh { result ≡ new_link mode limits bootstrap }
        ensures came { HasCome result [] }
    {
        Connection {
            parts: Parts::new(alloc, mode, limits, bootstrap),
        }
    }

    /// The same, which serves tail calls: the peer may send the results of a call that this end made back to it, and its vat
    /// knows nothing of that.
    pub fn with_tail_calls(
        alloc: Global,
        mode: Mode,
        limits: Limits,
        bootstrap: Option<u32>,
    ) -> Connection
        ensures fresh { result ≡ new_link_with_tails mode limits bootstrap }
        ensures came { HasCome result [] }
    {
        let mut parts = Parts::new(alloc, mode, limits, bootstrap);
        parts.tails = Some(TailCalls::new(alloc));
        Connection { parts }
    }

    /// Takes bytes of the peer, up to the end of the next message, and says how many: one at least, where there is one.
    /// The vat receives the message.
    ///
    /// # Errors
    ///
    /// `Unreadable` where the bytes after the messages that were taken have a fault (F1, F2, F4, G1 to G9, S1, S2),
    /// whatever follows them.
    pub fn receive(&mut self, piece: &[u8]) -> Result<usize, ConnectionFault>
        ensures received { IfOk result (λ count. Receives self.old piece.now count self.new) }
        ensures goes_on { IfOk result (λ count. 0 < length piece.now → 0 < count) }
        ensures unreceived { IfErr result (λ fault. (taken : List ℕ) × IsUnreceived self.old piece.now taken fault self.new) }
    {
        let (count, _) = self.parts.receive(piece)?;
        Ok(count)
    }

    /// As `receive`, but a call that the message leads to at once, of an object of this end, is lent out of its frame, which is put
    /// into `frame`: no tree of its params is made. It is handed out by that, and comes before what `next` gives. Give the frame
    /// back by `reuse` once nothing of it is lent. Nothing is lent while something that happened wasn't taken. Says which answer the
    /// message finishes, if it is a Finish: where that answer isn't given yet, the peer gave its call up.
    ///
    /// # Errors
    ///
    /// Those of `receive`.
    pub fn receive_lending<'f>(
        &mut self,
        piece: &[u8],
        frame: &'f mut Segments,
    ) -> Result<(usize, Option<BorrowedCall<'f>>, Option<u32>), ConnectionFault>
        ensures received { IfOk result (λ r. ReceivesLending self.old piece.now r.0 r.1 r.2 self.new) }
        ensures goes_on { IfOk result (λ r. 0 < length piece.now → 0 < r.0) }
        ensures unreceived { IfErr result (λ fault. (taken : List ℕ) × IsUnreceived self.old piece.now taken fault self.new) }
    {
        self.parts.receive_lending(piece, frame)
    }

    /// Takes back a frame, for the memory of a later one.
    pub fn reuse(&mut self, frame: Segments)
        ensures { self.new ≡ self.old }
    {
        self.parts.frames.reuse(frame);
    }

    /// Ends the bytes of the peer, after a message. The application may still make its calls.
    ///
    /// # Errors
    ///
    /// `Unreadable` where they end inside a frame (F3).
    pub fn end(&mut self) -> Result<(), ConnectionFault>
        ensures ended { OnOk result (EndsWell self.old self.new) }
        ensures cut { IfErr result (λ fault. EndsBadly self.old fault self.new) }
    {
        self.parts.end()
    }

    /// The bytes that are to be written to the peer, in order: frames of messages, each of one segment.
    pub fn outgoing(&self) -> &[u8]
        ensures { result.now ≡ self.now.unwritten }
    {
        self.parts.agenda.outgoing.bytes()
    }

    /// Notes that the first bytes of `outgoing` were written, this many, or all where there are fewer.
    pub fn wrote(&mut self, count: usize)
        ensures { Wrote self.old count self.new }
    {
        self.parts.agenda.outgoing.wrote(count);
    }

    /// Hands out what happened first of what wasn't taken.
    pub fn next(&mut self) -> Option<ConnectionEvent>
        ensures { HandsOut self.old result self.new }
    {
        self.parts.agenda.happened.pop_front()
    }

    /// Asks for the peer's bootstrap capability, and gives the question's number. Refused as `Vat::bootstrap`.
    pub fn bootstrap(&mut self) -> Result<u32, ConnectionFault>
        ensures { Acts self.old events.Bootstrap (answered (λ q. values.Question q) result) self.new }
    {
        self.parts.check_open()?;
        let acted = self.parts.vat.bootstrap();
        self.parts.conclude(acted, Trigger::Application)
    }

    /// Calls a capability, and gives the question's number. Refused as `Vat::call`.
    pub fn call(&mut self, cap: Cap, request: Request) -> Result<u32, ConnectionFault>
        ensures { Acts self.old (events.Call cap request) (answered (λ q. values.Question q) result) self.new }
    {
        self.parts.check_open()?;
        let acted = self.parts.vat.call(cap, request);
        self.parts.conclude(acted, Trigger::Application)
    }

    /// Answers a call that was delivered. Refused as `Vat::answer`.
    pub fn answer(&mut self, origin: Origin, outcome: Outcome) -> Result<(), ConnectionFault>
        ensures { Acts self.old (events.Answer origin outcome) (answered (λ _. values.Nothing) result) self.new }
    {
        self.parts.check_open()?;
        let acted = self.parts.vat.answer(origin, outcome);
        self.parts.conclude(acted, Trigger::Application)
    }

    /// Makes an open promise. Refused as `Vat::promise`.
    pub fn promise(&mut self) -> Result<PromiseId, ConnectionFault>
        ensures { Acts self.old events.Promise (answered (λ p. values.Promise p) result) self.new }
    {
        self.parts.check_open()?;
        let acted = self.parts.vat.promise();
        self.parts.conclude(acted, Trigger::Application)
    }

    /// Settles a promise that the application made. Refused as `Vat::resolve`.
    pub fn resolve(&mut self, promise: PromiseId, value: Cap) -> Result<(), ConnectionFault>
        ensures { Acts self.old (events.Resolve promise value) (answered (λ _. values.Nothing) result) self.new }
    {
        self.parts.check_open()?;
        let acted = self.parts.vat.resolve(promise, value);
        self.parts.conclude(acted, Trigger::Application)
    }

    /// Gives a question up. Refused as `Vat::finish`.
    pub fn finish(&mut self, question: u32) -> Result<(), ConnectionFault>
        ensures { Acts self.old (events.Finish question) (answered (λ _. values.Nothing) result) self.new }
    {
        self.parts.check_open()?;
        let acted = self.parts.vat.finish(question);
        self.parts.conclude(acted, Trigger::Application)
    }

    /// Gives an import back, with its whole count. Refused as `Vat::release`.
    pub fn release(&mut self, import: u32) -> Result<(), ConnectionFault>
        ensures { Acts self.old (events.Release import) (answered (λ _. values.Nothing) result) self.new }
    {
        self.parts.check_open()?;
        let acted = self.parts.vat.release(import);
        self.parts.conclude(acted, Trigger::Application)
    }

    /// Drops a settled promise. Refused as `Vat::forget`.
    pub fn forget(&mut self, promise: PromiseId) -> Result<(), ConnectionFault>
        ensures { Acts self.old (events.Forget promise) (answered (λ _. values.Nothing) result) self.new }
    {
        self.parts.check_open()?;
        let acted = self.parts.vat.forget(promise);
        self.parts.conclude(acted, Trigger::Application)
    }

    /// The imports and the promises that aren't in use.
    pub fn idle(&mut self) -> Result<Idle, ConnectionFault>
        ensures { Acts self.old events.Idle (answered (λ idle. values.Idle idle.imports idle.promises) result) self.new }
    {
        self.parts.check_open()?;
        let acted = self.parts.vat.idle();
        self.parts.conclude(acted, Trigger::Application)
    }

    /// Ends the connection with an Abort that says what is too much. It goes out after what is to, and is the last: the vat closes, and
    /// what it keeps goes. Nothing is done where the vat is closed, and where memory runs out for the Abort none goes out.
    pub fn abort(&mut self, excess: Excess)
        ensures { Aborts self.old excess self.new }
    {
        self.parts.abort(excess);
    }

    /// Whether the vat refers to this object, as `Vat::uses_object` says. An event that wasn't taken may name it too.
    pub fn uses_object(&self, object: u32) -> bool
        ensures { result ≡ is_object_used self.now.vat object }
    {
        self.parts.vat.uses_object(object)
    }

    /// How far a call is, as `Vat::stage_at` says.
    pub fn stage_at(&self, origin: Origin) -> Option<Stage>
        ensures { result ≡ stage_at self.now.vat origin }
    {
        self.parts.vat.stage_at(origin)
    }

    /// Why the connection ended, if it did.
    pub fn fault(&self) -> Option<ConnectionFault>
        ensures { result ≡ self.now.fault }
    {
        self.parts.fault
    }

    /// How many bytes and messages were taken, and how many messages were sent.
    pub fn stats(&self) -> ConnectionStats
        ensures { result ≡ self.now.stats }
    {
        ConnectionStats {
            bytes: self.parts.bytes,
            messages: self.parts.messages,
            sent: self.parts.agenda.sent,
        }
    }

    /// How much the connection holds. Of the open frame it keeps no more words than came whole.
    pub fn held(&self) -> Held
        ensures came { result.came ≡ taken_of self.now.reading }
        ensures unwritten { result.unwritten ≡ length self.now.unwritten }
        ensures events { result.events ≡ length self.now.happened }
        ensures entries { result.entries ≡ entries_of self.now.vat }
        ensures imports { result.imports ≡ map.len self.now.vat.counts.imports }
        ensures promises { result.promises ≡ map.len self.now.vat.values.promises }
        ensures contents { result.contents ≡ kept_contents self.now }
    {
        Held {
            came: self.parts.frames.taken(),
            unwritten: self.parts.agenda.outgoing.len(),
            events: self.parts.agenda.happened.len(),
            entries: self.parts.vat.entries(),
            imports: self.parts.vat.imports(),
            promises: self.parts.vat.promises(),
            contents: self.parts.contents(),
        }
    }

    /// The bytes of memory that the contents of what happened and wasn't taken take. It goes over these, and `held` over nothing.
    pub fn event_memory(&self) -> u64
        ensures { result ≡ counted (event_memory self.now.happened) }
    {
        event_memory(&self.parts.agenda.happened)
    }
}
