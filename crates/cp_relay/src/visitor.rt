//! Who looks at the messages on their way.

ghost use Rattle.std.specs.Prelude.{Bool, IfOk};
ghost use Rattle.cp_messages.specs.declared.message.Message.{Message};
ghost use Rattle.cp_rpc.specs.Viewed.{viewed};
ghost use Rattle.cp_relay.specs.Relay.{says_nothing};

use cp_rpc::MessageView;
use std::alloc::AllocError;

/// Looks at each message before it goes, and may forbid it.
pub trait Visitor: Drop {
    /// What a visitor says to a message, and which visitor it is then. Of most nothing is said.
    ghost says: { Self → Message → Bool → Self → Type 0 } = { says_nothing };

    /// Whether a message may go. An allocation failure stops the relay (F6).
    fn visit(&mut self, message: &MessageView) -> Result<bool, AllocError>
        ensures { IfOk result (λ may. says self.old (viewed message.now) may self.new) };
}

/// Lets every message go.
#[derive(Clone, Copy, Drop)]
pub struct AllowAll;

impl Visitor for AllowAll {
    ghost use Rattle.std.specs.Prelude.{◌≡◌, true};

    ghost says = { λ _ _ may _. may ≡ true };

    fn visit(&mut self, _message: &MessageView) -> Result<bool, AllocError> {
        Ok(true)
    }
}
