//! What follows of what is done with a session, whatever it is.

ghost use Rattle.cp_session.specs.Budget.{KeepNoMore, StaysWithin};
ghost use Rattle.cp_session.specs.Laws.{LimitsAlone, LivesOn, NoObjectServes, NobodyServes, WrittenFirst};

use cp_objects::{ObjectTable, ServedObject};
use cp_servants::Servant;

/// A call that comes where nobody serves fails with `no such object`, and nothing else is done for it: where a list is empty, or
/// `Objects` have none of its number.
pub fn nobody_serves<O: Servant, M: ServedObject<Makes = M>>()
    ensures in_a_list { NobodyServes O.kind }
    ensures in_objects { NoObjectServes M.makes }
{}

/// Where no byte may wait, nothing is taken of the peer before all that is to go out was written.
pub fn written_first<H: ObjectTable>()
    ensures { WrittenFirst H.table }
{}

/// A session of a list of objects is to be ticked for its limits alone, of which one has it ask a silent peer: whatever is done with it, its
/// deadline is that of its limits.
pub fn due_by_limits<O: Servant>()
    ensures { LimitsAlone O.kind }
{}

/// Whatever is done with a session, its connection took the bytes that it was given, but those that were dropped, and was told which
/// were written. With what holds of each connection (`cp_connection::lives_behind_until_abort`) that says which messages came, and that
/// nothing was written but what was sent. (`add` adds an object, and does nothing with the connection.)
pub fn lives<H: ObjectTable>()
    ensures { LivesOn H.table }
{}

/// Where sessions are within their budget, all together keep no more than a share each and the pool.
pub fn keep_no_more()
    ensures { KeepNoMore }
{}

/// Where sessions are within their budget and one comes to keep no more than it may, they still are; so they are where one ends.
pub fn stays_within()
    ensures { StaysWithin }
{}
