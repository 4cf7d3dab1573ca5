//! What holds of every layout.

ghost use Rattle.std.specs.Prelude.{◌≡◌, ◌≤◌, ℕ, List};
ghost use Rattle.cp_words.specs.Limits.{Bounds, IsAllowed};
ghost use Rattle.cp_tree.specs.Node.{Node};
ghost use Rattle.cp_tree.specs.Shaped.{Shaped};
ghost use Rattle.cp_writing.specs.Layout.{Layout, Capacity};
ghost use Rattle.cp_writing.specs.Writes.{EachHasLayout};

/// A tree has one layout in segments of this many words and in this many segments.
pub fn one_layout()
    ensures { (S T : List (List ℕ)) (capacity : Capacity) (t : Node) → Shaped t → Layout S capacity t → Layout T capacity t → S ≡ T }
{}

/// A tree within the limits on nesting and cost has a layout, in segments of any size. So B4 says of this one that it has
/// too many words.
pub fn layout_exists()
    ensures { (limits : Bounds) (capacity : Capacity) → IsAllowed limits → capacity.segments ≤ limits.segments → EachHasLayout limits capacity }
{}
