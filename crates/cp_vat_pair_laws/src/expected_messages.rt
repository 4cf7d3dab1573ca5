//! Each message that comes is one that its vat expects, and no vat is at fault for another one like it.

ghost use Rattle.cp_vat_pair_laws.specs.Spared.{AreSpared};
ghost use Rattle.cp_vat_pair_laws.specs.Expected.{AllIsExpected, HoldsAlways, StagesMatch};

/// The next message to a vat opens, returns to or finishes what exists for it; where no message is on
/// the way, each question is at the stage of its answer.
pub fn messages_are_expected()
    ensures next { HoldsAlways AllIsExpected }
    ensures quiet { HoldsAlways StagesMatch }
{}

/// So a vat never finds another one at fault for a number in use, a question that doesn't wait, an export
/// that is lowered past its count, or a message that isn't supported or isn't known.
pub fn faults_are_spared()
    ensures { HoldsAlways AreSpared }
{}
