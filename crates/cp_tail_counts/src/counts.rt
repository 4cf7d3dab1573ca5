//! What the vat counts is what the peer counts, and what tail calls owe.

ghost use Rattle.cp_tail_counts.specs.Counts.{TurnsCount};
ghost use Rattle.cp_tail_counts.specs.Wire.{CountsOverWire};

/// After all turns of tail calls, when nothing is to be passed on: the vat behind counts an export as often as
/// its peer, and as often as tail calls still have to lower it; and an import as often as the peer, and as
/// often as it was lent. So each export and import of the vat is given back whole, and none twice.
pub fn turns_count()
    ensures { TurnsCount }
{}

/// So it is over the wire, after each event of an open vat behind tail calls, whatever its peer sends and its
/// application does.
pub fn counts_over_wire()
    ensures { CountsOverWire }
{}
