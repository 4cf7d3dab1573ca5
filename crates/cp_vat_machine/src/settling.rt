//! What a promise that is settled gives to whom waits at its gate.

ghost use Rattle.std.specs.Prelude.{◌≡◌, ℕ, Some};
ghost use Rattle.cp_refs.specs.declared.cap.Cap.{Cap};
ghost use Rattle.cp_refs.specs.declared.route.Gate.TheVariants as gates;
ghost use Rattle.cp_vat_machine.specs.State.{State, gave};
ghost use Rattle.cp_vat_machine.specs.Give.{settled};

/// The gate of a promise that is settled ends with the value that it was settled to.
pub fn gate_gives_value()
    ensures { (s : State) (p : ℕ) (value : Cap) → gave (settled s p value).waiting.over (gates.Promise p) ≡ Some value }
{}
