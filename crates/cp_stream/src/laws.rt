//! What holds of every stream, and of every tree and of every message that is written.

ghost use Rattle.std.specs.Prelude.{◌≡◌, ℕ, List};
ghost use Rattle.cp_words.specs.Limits.{Bounds};
ghost use Rattle.cp_tree.specs.Node.{Node};
ghost use Rattle.cp_tree.specs.Shaped.{Shaped};
ghost use Rattle.cp_reading.specs.Denotes.{Denotes, Root};
ghost use Rattle.cp_writing.specs.Layout.{Layout, Capacity};
ghost use Rattle.cp_frame.specs.declared.mode.Mode.{Mode};
ghost use Rattle.cp_stream.specs.Runs.{HasOneFront, IsOneStream, GivesStream, ReportsRest, GivesSame, ReadsLayouts, ReadsWritten};

/// A stream begins with one message at most, and is one list of messages and one rest.
pub fn one_front()
    ensures front { (mode : Mode) → HasOneFront mode }
    ensures stream { (mode : Mode) → IsOneStream mode }
{}

/// What a reader of messages gives and reports doesn't depend on the pieces in which a stream comes: it is that of
/// the whole.
pub fn any_cut()
    ensures all { GivesStream }
    ensures reported { ReportsRest }
    ensures any { GivesSame }
{}

/// The segments that a tree is laid into denote it.
pub fn layout_denotes()
    ensures { (S : List (List ℕ)) (capacity : Capacity) (t : Node) → Shaped t → Layout S capacity t → Denotes S 0 0 t }
{}

/// The segments that a struct is laid into are read as that struct, where it is within the limits,
/// and as no other tree.
pub fn written_is_read()
    ensures root { ReadsLayouts }
    ensures only { (S : List (List ℕ)) (capacity : Capacity) (limits : Bounds) (t u : Node) → Shaped t → Layout S capacity t → Root S limits u → u ≡ t }
{}

/// A message that is written is read back, whatever follows it.
pub fn read_back()
    ensures { ReadsWritten }
{}
