//! What follows of what is done for objects, whatever it is.

ghost use Rattle.cp_dispatch.specs.Laws.{WaitsInOrder};

/// The calls on a promise of an object wait in the vat, and reach what it came to in the order in which they came, each once. For whatever
/// is done of promises is one `promise` or `resolve` of the connection, and so part of a run of its vat, which is in order.
pub fn waits_in_order()
    ensures { WaitsInOrder }
{}
