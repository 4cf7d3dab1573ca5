//! What holds of two new vats.

ghost use Rattle.std.specs.Prelude.{Option, ℕ, []};
ghost use Rattle.std.specs.FinMap.{empty};
ghost use Rattle.cp_vat_machine.specs.State.{new_state};
ghost use Rattle.cp_vat_machine.specs.Local.{Local};
ghost use Rattle.cp_vat_machine.specs.Waits.{WaitRightly};
ghost use Rattle.cp_vat_pair_laws.specs.VatPair.{new_end};
ghost use Rattle.cp_vat_pair_laws.specs.Lane.{Reference};
ghost use Rattle.cp_vat_pair_laws.specs.Naming.{AreLooped};
ghost use Rattle.cp_vat_pair_laws.specs.Phases.{LaneHolds, IsQuiet};
ghost use Rattle.cp_vat_pair_laws.specs.Tickets.{TicketsHold};

/// What holds of each vat and of the way between two holds of new ones.
pub fn new_vats_hold()
    ensures local { (one : Option ℕ) → Local (new_state one) }
    ensures waiting { (one : Option ℕ) → WaitRightly (new_state one) empty }
    ensures loops { (one other : Option ℕ) → AreLooped (new_state one) (new_end other).inbox (new_end one).inbox }
    ensures lanes { (one other : Option ℕ) (ref : Reference) → LaneHolds (new_end one) (new_end other) ref [] [] }
    ensures quiet { (one : Option ℕ) → IsQuiet (new_end one) }
    ensures tickets { (one : Option ℕ) → TicketsHold (new_state one) [] }
{}
