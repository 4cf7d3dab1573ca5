//! Calls on a reference come in order over both vats.

ghost use Rattle.cp_vat_pair_laws.specs.Laws.{LaneOrder};

/// Calls on a reference come in order over both vats: where it came to an object of the vat that holds it,
/// those that its application made on it are delivered to that object in the order in which they were
/// made, each once, and all of them are where no message is on the way. So it is while neither vat is
/// closed, and no application finishes, releases or forgets.
pub fn lane_order()
    ensures { LaneOrder }
{}
