//! How two vats agree: on what each export is owed, and on questions and answers.

ghost use Rattle.std.specs.Prelude.{Option, ℕ};
ghost use Rattle.cp_vat_pair_laws.specs.VatPair.{new_pair};
ghost use Rattle.cp_vat_pair_laws.specs.Lives.{AreAgreed, Keeps};
ghost use Rattle.cp_vat_pair_laws.specs.Posting.{KeepsBy};
ghost use Rattle.cp_vat_pair_laws.specs.Orderly.{RulesPost};

/// Two new vats agree on what each export is owed, and their questions fit their answers.
pub fn new_pairs_agree()
    ensures { (one other : Option ℕ) → AreAgreed (new_pair one other) }
{}

/// They go on agreeing with each message that one of them sends or takes in.
pub fn agreement_is_kept()
    ensures { Keeps }
{}

/// So they do after all that one of them sends at once.
pub fn agreement_follows()
    ensures { KeepsBy }
{}

/// What each rule of a vat sends, and what comes to it, is as its accounts see it.
pub fn rules_post()
    ensures { RulesPost }
{}
