//! A session, as a driver moves it.

ghost use Rattle.std.specs.Prelude.{◌≡◌, ◌↔◌, ◌≤◌, ◌⊎◌, true, false, IsTrue, IfOk, IfErr, OnOk, OnErr, length};
ghost use Rattle.cp_objects.specs.ObjectTable.{ObjectTableKind};
ghost use Rattle.cp_session.specs.Doing.{Closes, Delivers, EndsBytes, EndsCut, HandsOn, HasMore, HasNone, IsRefused, IsUntaken, KeepsRest, MayTake, PollsOn, Receives, RunsOut, Tells, Ticks, Wakes, Writes, due_of, fault_of};
ghost use Rattle.cp_session.specs.Kept.{kept_of};
ghost use Rattle.cp_session.specs.Progress.{IsDraining};
ghost use Rattle.cp_session.specs.State.{State, link_of, new_state};
ghost use Rattle.cp_session.specs.declared.progress.Phase.TheVariants as phases;

use crate::options::SessionOptions;
use cp_connection::{ConnectionFault, ConnectionStats};
use cp_dispatch::SessionEvent;
use cp_objects::{Letter, LetterBody};
use std::alloc::{AllocError, Global};

/// What a driver does with a session: bytes and time go in, bytes, events and the next deadline come out.
///
/// It is a trait so that who drives a session may know it by these contracts alone, as `Host` and `Client` do: no proof about them opens
/// a session up, which is what takes the time in a function that has one in a field.
pub trait DrivenSession: Drop {
    /// Its objects.
    type Objects: Drop;

    /// What its calls do to its objects.
    ghost table: { ObjectTableKind Self.Objects };

    /// What its contracts say of it.
    ghost state: { Self → State Self.Objects };

    /// A session to which nothing came, of this number: so its objects can be told apart from those of other sessions.
    fn begin(
        alloc: Global,
        options: &SessionOptions,
        number: u64,
        objects: Self::Objects,
        now: u64,
    ) -> Self
        ensures { (seated : Self.Objects) × table.is_in number objects seated × (state result ≡ new_state options.now seated now) };

    /// Takes bytes of the peer, up to the end of the next message, and says how many: none while too much waits to be written, and
    /// once nothing more is taken. While the peer's close is waited for all are dropped.
    ///
    /// # Errors
    ///
    /// Those of `Connection::receive`, or memory ran out for what the message leads to. The session ends, and an event says why. Where
    /// a frame is too large, an Abort says so to the peer.
    fn receive(&mut self, piece: &[u8], now: u64) -> Result<usize, ConnectionFault>
        ensures receives { IfOk result (λ count. Receives table (state self.old) piece.now now count (state self.new)) }
        ensures few { IfOk result (λ count. count ≤ length piece.now) }
        ensures untaken { IfErr result (λ fault. IsUntaken table (state self.old) piece.now now fault (state self.new)) };

    /// Ends the bytes of the peer. The objects still give what they owe, and that goes out.
    ///
    /// # Errors
    ///
    /// As those of `receive`: they end inside a message, or memory ran out.
    fn end(&mut self, now: u64) -> Result<(), ConnectionFault>
        ensures ends { OnOk result (EndsBytes table (state self.old) now (state self.new)) }
        ensures cut { IfErr result (λ fault. EndsCut table (state self.old) now fault (state self.new)) };

    /// Does what happened asks of the objects, and polls each of them once, where `has_more` says that this may give more.
    ///
    /// # Errors
    ///
    /// Memory ran out, and the session ends.
    fn poll(&mut self, now: u64) -> Result<(), AllocError>
        ensures polls { OnOk result (PollsOn table (state self.old) now (state self.new)) }
        ensures runs_out { OnErr result (RunsOut table (state self.old) now (state self.new)) };

    /// Time passed: the session ends if it meets a limit at this time. Where too much is kept, an Abort says so to the peer first. Where
    /// none is met a peer that was silent for half of `SessionLimits::idle` is asked for what it gives, by bytes that `outgoing` has then.
    /// Objects are woken whose time has come, so that `has_more` says so, and those are dropped that nothing refers to, where it is time
    /// for that.
    fn tick(&mut self, now: u64)
        ensures { Ticks table (state self.old) now (state self.new) };

    /// Refuses the peer, as more is kept for it than a host allows: the limit of what is kept is met, whatever `kept` says. While bytes of
    /// the peer are taken an Abort says so to it first; else the session is over.
    fn refuse(&mut self, now: u64)
        ensures { IsRefused table (state self.old) now (state self.new) };

    /// Ends it where its stream is gone, or its program wants no more of it: nothing is taken or written any more, and the session is over.
    fn close(&mut self, now: u64)
        ensures { Closes table (state self.old) now (state self.new) };

    /// How many bytes are kept for it, as its limit counts them: so that a host can keep all its sessions within a budget.
    fn kept(&self) -> u64
        ensures { let it = state self.now in result ≡ kept_of it.service.work (table.guests it.objects) };

    /// When to call `tick` next: a limit of time is met then, if no byte moves before, or a silent peer is to be asked, or an object is to be
    /// woken, or objects are sought that nothing refers to.
    fn deadline(&self) -> Option<u64>
        ensures { result ≡ due_of table (state self.now) };

    /// The bytes that are to be written to the peer.
    fn outgoing(&self) -> &[u8]
        ensures { result.now ≡ (link_of (state self.now)).unwritten };

    /// Notes that the first bytes of `outgoing` were written, this many, at this time.
    fn wrote(&mut self, count: usize, now: u64)
        ensures { Writes table (state self.old) count now (state self.new) };

    /// Hands out the first event that wasn't: each outcome once, as soon as it came.
    fn poll_event(&mut self) -> Option<SessionEvent>
        ensures { Tells (state self.old) result (state self.new) };

    /// Whether bytes of the peer are taken now, or dropped: else none need be read.
    fn takes_bytes(&self) -> bool
        ensures { IsTrue result ↔ (IsDraining (state self.now).progress.phase ⊎ MayTake (state self.now)) };

    /// Whether `poll` may give more now, though nothing more comes: exactly if little waits to be written, and something happened that
    /// wasn't worked off, the last poll gave something, or an object says so.
    fn has_more(&self) -> bool
        ensures more { result ≡ true → HasMore table (state self.now) }
        ensures none { result ≡ false → HasNone table (state self.now) };

    /// Whether all went out after which nothing is taken, and the peer's close is waited for.
    fn is_draining(&self) -> bool
        ensures { IsTrue result ↔ IsDraining (state self.now).progress.phase };

    /// Whether nothing is left to be done.
    fn is_over(&self) -> bool
        ensures { IsTrue result ↔ ((state self.now).progress.phase ≡ phases.Over) };

    /// The fault for which nothing more is taken.
    fn fault(&self) -> Option<ConnectionFault>
        ensures { result ≡ fault_of (state self.now) };

    /// How many bytes and messages were taken, and how many messages were sent.
    fn stats(&self) -> ConnectionStats
        ensures { result ≡ (link_of (state self.now)).stats };

    /// Has an object polled, if it is there: then `has_more` says so, while little waits to be written.
    fn wake(&mut self, object: u32) -> Result<(), AllocError>
        ensures wakes { OnOk result (Wakes table object (state self.old) (state self.new)) }
        ensures unwoken { OnErr result (KeepsRest (state self.old) (state self.new)) };

    /// Takes out the first letter to another session: deliver it there.
    fn next_letter(&mut self) -> Option<Letter>
        ensures { HandsOn table result (state self.old) (state self.new) };

    /// Does what a letter of another session says: then `has_more` says so, while little waits to be written.
    fn deliver(&mut self, body: LetterBody) -> Result<(), AllocError>
        ensures delivers { OnOk result (Delivers table body (state self.old) (state self.new)) }
        ensures undelivered { OnErr result (KeepsRest (state self.old) (state self.new)) };
}
