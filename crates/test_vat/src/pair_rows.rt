//! Exchanges of two vats, each a pair that moves can reach.

ghost use Rattle.test_vat.specs.PairRows.{EndsWithoutExport};
ghost use Rattle.test_vat.specs.LaneRows.{LaneOfThreeCalls, LaneWithoutEmbargo, LaneAgain};
ghost use Rattle.test_vat.specs.CountPairs.{AnswerKeepsExport, Crossing, IgnoredIsOwed, WaitingIsOrderly};
ghost use Rattle.test_vat.specs.LanePairs.{NumberAgain, SettledAhead};

/// A question is finished before its Return comes: the Finish lowers what the Return names, and nothing
/// is given back twice.
pub fn finish_before_return()
    ensures { EndsWithoutExport }
{}

/// Three calls on what another call will give are delivered in order, where that gives an object of
/// their own vat: two come back through the peer, and the third waits at an embargo or comes after
/// them. So they are again when the same numbers stand for another object.
pub fn lane_of_three_calls()
    ensures in_order { LaneOfThreeCalls }
    ensures without_embargo { LaneWithoutEmbargo }
    ensures again { LaneAgain }
{}

/// The Return of a question that was given up may name an export whose number is another's by now: its
/// descriptors aren't of the export's kind.
pub fn number_again()
    ensures { NumberAgain }
{}

/// A Return on the way may report a promise that leads back to an object of the vat already: no phase is
/// the reference's own then.
pub fn settled_ahead()
    ensures { SettledAhead }
{}

/// A Finish and the Return that it doesn't wait for are on the way at once. The export is owed what the
/// Finish lowers and no more, each message is expected where it comes, and a Release beside them would be
/// too much. Where the Return comes first, nothing is given back for it.
pub fn crossing()
    ensures owed { Crossing }
    ensures ignored { IgnoredIsOwed }
{}

/// Where no message is on the way and an application released all that it held, an export is left that a
/// kept answer names.
pub fn answer_keeps_export()
    ensures { AnswerKeepsExport }
{}

/// A vat with a call that waits is orderly; it isn't where its question was sent, nor where a promise came
/// to a question's path or such a path is exported.
pub fn waiting_is_orderly()
    ensures { WaitingIsOrderly }
{}
