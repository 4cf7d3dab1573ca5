//! Exchanges that no vat makes.

ghost use Rattle.test_vat.specs.OrderRows as rows;
ghost use Rattle.test_vat.specs.OrderRows.{IsNoRun};

/// The results of one call aren't given to another.
pub fn never_given_to_another()
    ensures { IsNoRun rows.given_to_another }
{}

/// A Release lowers an export by its whole count.
pub fn never_lowered_by_one()
    ensures { IsNoRun rows.released_twice }
{}

/// A call that waits isn't dropped when its answer is given.
pub fn never_dropped()
    ensures { IsNoRun rows.waiting_dropped }
{}

/// Two calls that wait at one gate aren't delivered the other way round.
pub fn never_other_way_round()
    ensures { IsNoRun rows.other_way_round }
{}

/// A call doesn't overtake those that were sent on the same reference.
pub fn never_without_embargo()
    ensures { IsNoRun rows.embargo_skipped }
{}
