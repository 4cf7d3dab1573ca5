//! Each export's count is what it is owed.

ghost use Rattle.cp_vat_pair_laws.specs.Laws.{CountsAgree};
ghost use Rattle.cp_vat_pair_laws.specs.Expected.{HeldIsAll, HeldIsThere, HoldsAlways, LowersFit};
ghost use Rattle.cp_vat_pair_laws.specs.Numbers.{AreCounted, ChangesKeep, RulesChange};

/// Each export's count is what it is owed, whatever the applications do, while neither vat is closed.
pub fn counts_agree()
    ensures { CountsAgree }
{}

/// So no message on the way lowers an export past its count, and what a vat holds is an export of the
/// other one, which counts it exactly as often where no message is on the way.
pub fn counts_hold()
    ensures lowers { HoldsAlways LowersFit }
    ensures there { HoldsAlways HeldIsThere }
    ensures quiet { HoldsAlways HeldIsAll }
{}

/// What each rule does to the exports and the imports of a vat: it counts one more, or gives one back, and
/// a message lowers exports first. Such changes keep each export's capability, and each count above 0.
pub fn counts_change()
    ensures rules { RulesChange }
    ensures keep { ChangesKeep }
{}

/// So each count is above 0: there is an export or an import exactly where something is counted.
pub fn counts_are_above()
    ensures { HoldsAlways AreCounted }
{}
