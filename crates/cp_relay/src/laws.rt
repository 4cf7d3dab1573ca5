//! What holds of every stream, and of every message that is judged.

ghost use Rattle.cp_relay.specs.Allowed.{OnlyAllowed, AllowedPass};
ghost use Rattle.cp_relay.specs.Once.{AnsweredOnce, DropsFinishes, Remembers};
ghost use Rattle.cp_relay.specs.Runs.{FeedsStream, FeedsSame};
ghost use Rattle.cp_relay.specs.Given.{OnlyGiven, ReleasedIsFree, PassesMarks, GainsNoMark};
ghost use Rattle.cp_relay.specs.Traffic.{OnlyJudgedGoes, NothingAfter};

use crate::visitor::Visitor;

/// What goes through a relay doesn't depend on the pieces in which a stream comes: it is that of the whole.
pub fn any_cut<V: Visitor>()
    ensures all { FeedsStream V.says }
    ensures any { FeedsSame V.says }
{}

/// Whatever a caller sends, what goes to the callee is allowed: no call of a method that may not be called, and nothing that names
/// a question that was refused. And what is allowed goes as it came, unless a limit is met.
pub fn only_allowed()
    ensures only { OnlyAllowed }
    ensures pass { AllowedPass }
{}

/// A question that is refused is answered once: it is remembered up to its Finish, which goes nowhere, and a remembered question isn't
/// answered again. Nothing else is answered by the guard, and nothing else goes nowhere while the connection goes on.
pub fn answered_once()
    ensures answers { AnsweredOnce }
    ensures drops { DropsFinishes }
    ensures remembers { Remembers }
{}

/// Whatever bytes the two ends of a guarded connection send, in whatever pieces, what goes out is what was judged of the first messages of
/// each stream, one after another, and nothing else. Once a filter has stopped, nothing more goes out in either direction.
pub fn only_judged()
    ensures judged { OnlyJudgedGoes }
    ensures over { NothingAfter }
{}

/// Where a rule is on what calls gave, no call goes but on a reference that a chain of messages gave, of which each went; and if its method
/// may not be called on all, the chain begins with a call after which a rule has the method. A number that is given back is free. An object
/// of the caller's has those marks alone that all calls share which passed it.
pub fn only_given()
    ensures given { OnlyGiven }
    ensures freed { ReleasedIsFree }
    ensures passes { PassesMarks }
    ensures gains { GainsNoMark }
{}
