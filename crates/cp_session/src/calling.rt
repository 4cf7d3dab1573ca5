//! A session, as its program calls by it.

ghost use Rattle.std.specs.Prelude.{Err, IfErr, OnOk};
ghost use Rattle.cp_vat_machine.specs.declared.event.Event.TheVariants as machine;
ghost use Rattle.cp_vat_machine.specs.declared.event.Value.TheVariants as values;
ghost use Rattle.cp_connection.specs.Doing.{answered};
ghost use Rattle.cp_session.specs.Doing.{Did, FinishesQuestion, GivesBack, ReleasesOutcome};

use crate::driven::DrivenSession;
use cp_connection::ConnectionFault;
use cp_refs::{Cap, Outcome, PromiseId, Request};

/// The calls of a session's program. They may come between any two calls of its driver, and what they send goes out by `outgoing`.
pub trait CallingSession: DrivenSession {
    /// Asks for the peer's bootstrap capability, and gives the question's number. Refused as `Vat::bootstrap`.
    fn bootstrap(&mut self) -> Result<u32, ConnectionFault>
        ensures { Did (Self.state self.old) machine.Bootstrap (answered (λ q. values.Question q) result) (Self.state self.new) };

    /// Calls a capability, and gives the question's number. Refused as `Vat::call`.
    fn call(&mut self, cap: Cap, request: Request) -> Result<u32, ConnectionFault>
        ensures { Did (Self.state self.old) (machine.Call cap request) (answered (λ q. values.Question q) result) (Self.state self.new) };

    /// Makes an open promise. Refused as `Vat::promise`.
    fn promise(&mut self) -> Result<PromiseId, ConnectionFault>
        ensures { Did (Self.state self.old) machine.Promise (answered (λ p. values.Promise p) result) (Self.state self.new) };

    /// Settles a promise that the program made. Refused as `Vat::resolve`.
    fn resolve(&mut self, promise: PromiseId, value: Cap) -> Result<(), ConnectionFault>
        ensures { Did (Self.state self.old) (machine.Resolve promise value) (answered (λ _. values.Nothing) result) (Self.state self.new) };

    /// Gives a question up. Where its outcome came and wasn't handed out by `poll_event` it never is: it is released (`release_outcome`).
    /// Where an object here is to answer it later, that is told (`ServedObject::on_cancel`). Refused as `Vat::finish`.
    fn finish(&mut self, question: u32) -> Result<(), ConnectionFault>
        ensures finishes { OnOk result (FinishesQuestion Self.table question (Self.state self.old) (Self.state self.new)) }
        ensures unfinished { IfErr result (λ fault. Did (Self.state self.old) (machine.Finish question) (Err fault) (Self.state self.new)) };

    /// Gives back what an outcome named that was handed out: each import once, as `release`, but that what the vat still uses is released as
    /// soon as it doesn't. Where memory runs out for that the session ends.
    fn release_outcome(&mut self, outcome: Outcome)
        ensures { ReleasesOutcome outcome (Self.state self.old) (Self.state self.new) };

    /// Gives an import back: once for each outcome that named it. Where another outcome did that wasn't given back, or an object holds it,
    /// nothing is sent; the last of all who hold it has it released, with its whole count. That is refused as `Vat::release`: so while
    /// results of a call of the peer's name it, as those of a tail call do until the peer finishes that. Where objects hold it and no outcome
    /// named it, or all were given back, it is `InUse`.
    fn release(&mut self, import: u32) -> Result<(), ConnectionFault>
        ensures { GivesBack import (Self.state self.old) (answered (λ _. values.Nothing) result) (Self.state self.new) };

    /// Drops a settled promise. Refused as `Vat::forget`.
    fn forget(&mut self, promise: PromiseId) -> Result<(), ConnectionFault>
        ensures { Did (Self.state self.old) (machine.Forget promise) (answered (λ _. values.Nothing) result) (Self.state self.new) };
}
