//! What follows of what a host does, whatever it is.

ghost use Rattle.net_host.specs.Floor.{BeginsAwaited, ReportsAwaited, ReportsWithin};
ghost use Rattle.net_host.specs.Letters.{DeliversInOrder};
ghost use Rattle.net_host.specs.Waking.{NamesOne};
ghost use Rattle.net_host.specs.Once.{BeginsOnce, BeginsUnfailed, ReportsOnce, StaysUnfailed};

use cp_objects::ObjectTable;

/// No connection is served once its end was reported, and no end is reported twice: it has the number that the connection had when it
/// began. (That each is reported, before other news, `Host::next` says. It gives the next number to each connection that comes, so none
/// is given twice.)
pub fn reported_once<H: ObjectTable>()
    ensures reports { ReportsOnce H.table }
    ensures begins { BeginsOnce H.table }
{}

/// What is kept for all connections stays within the host's budget, whatever turns and news there are: for all together no more than
/// a share each and the pool (`cp_session::keep_no_more`).
pub fn keeps_within<H: ObjectTable>()
    ensures { ReportsWithin H.table }
{}

/// A look at the limits of time is due by the deadline of each connection that is served, whatever turns and news there are. (That it
/// waits no longer is a contract of its loop.)
pub fn sleeps_past_none<H: ObjectTable>()
    ensures reports { ReportsAwaited H.table }
    ensures begins { BeginsAwaited H.table }
{}

/// No two connections have sessions of one number, as long as fewer than 2^32 came. So an object that is woken is one of the session
/// whose object was to be, or that session ended and nothing is done.
pub fn wakes_its_own()
    ensures { NamesOne }
{}

/// Letters between connections are delivered in the order in which they were written, each once, whatever turns there are: to the session that
/// each is for, or what bounces for one that ended is written last.
pub fn delivers_in_order<H: ObjectTable>()
    ensures { DeliversInOrder H.table }
{}

/// No connection is served whose stream failed, whatever turns and news there are. So the error that one ended by came in its last turn.
pub fn fails_once<H: ObjectTable>()
    ensures stays { StaysUnfailed H.table }
    ensures begins { BeginsUnfailed H.table }
{}
