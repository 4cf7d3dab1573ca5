//! What the messages of one vat, and its application's calls, say of its tables.

ghost use Rattle.cp_vat_pair_laws.specs.Tallied.{LedgerAgrees};

/// An open vat's exports and imports count, and its questions and answers stand, exactly as the messages
/// say that it took in and sent, whatever its peer sends and its application does. A question whose Call
/// wasn't sent stands from its call until it has its outcome and was finished.
pub fn ledger_agrees()
    ensures { LedgerAgrees }
{}
