//! What holds of every message.

ghost use Rattle.std.specs.Prelude.{◌≡◌, ◌↔◌, true};
ghost use Rattle.cp_tree.specs.Shaped.{Shaped};
ghost use Rattle.cp_messages.specs.Fitting.{message_fits};
ghost use Rattle.cp_messages.specs.Representable.{IsMessage};
ghost use Rattle.cp_messages.specs.Written.{message_written};
ghost use Rattle.cp_messages.specs.Says.{Says};
ghost use Rattle.cp_messages.specs.declared.message.Message.{Message};

/// What a message is written as says the message.
pub fn read_back()
    ensures { (m : Message) → IsMessage m → Says (message_written m) m }
{}

/// A message is written as a tree that a message can hold exactly if its lists are short enough.
pub fn writable()
    ensures { (m : Message) → IsMessage m → (message_fits m ≡ true) ↔ Shaped (message_written m) }
{}
