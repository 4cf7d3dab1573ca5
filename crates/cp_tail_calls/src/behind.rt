//! The vat behind.

ghost use Rattle.std.specs.Prelude.{◌≡◌};
ghost use Rattle.cp_rpc.specs.Viewed.{viewed_call};

use cp_reading::View;
use cp_rpc::CallView;
use cp_tables::Stage;

/// A vat that knows no tail calls: what is asked of it before it gets a message.
pub trait OrdinaryVat {
    ghost use Rattle.std.specs.Prelude.{ℕ, Bool, Option};
    ghost use Rattle.cp_messages.specs.declared.call.Call.{Call};
    ghost use Rattle.cp_tables.specs.declared.exchange.Stage.{Stage};

    ghost acts_on: { Self → Call → Bool };

    ghost stage: { Self → ℕ → Option Stage };

    /// Whether it acts on a call, where its results go to its caller.
    fn acts_on(&self, call: &CallView<View>) -> bool
        ensures { result ≡ acts_on self.now (viewed_call (λ t. t) call.now) };

    /// The stage of a question that the peer was asked.
    fn stage_of(&self, question: u32) -> Option<Stage>
        ensures { result ≡ stage self.now question };
}
