//! What holds of every connection.

ghost use Rattle.cp_connection.specs.Lives.{AnyCut, LivesBehind, LivesBehindUntilAbort, LivesRun, LivesUntilAbort};

/// Whatever is done with a connection, what its vat did is a run of the messages of the bytes that were taken, and
/// what went out, or is to, are the frames of what it sent, in order, and nothing else. (`lives_until_abort` says it of aborts.)
pub fn lives()
    ensures { LivesRun }
{}

/// The same of a connection that serves tail calls: each law of a vat's runs holds of the vat behind them.
pub fn lives_behind()
    ensures { LivesBehind }
{}

/// If it was aborted, it lived so up to then. What waited goes out, then that one Abort, and nothing else, and no byte is taken.
pub fn lives_until_abort()
    ensures { LivesUntilAbort }
{}

/// The same of a connection that serves tail calls.
pub fn lives_behind_until_abort()
    ensures { LivesBehindUntilAbort }
{}

/// However the bytes of the peer are cut, the messages are the same.
pub fn any_cut()
    ensures { AnyCut }
{}
