//! In every run of a vat calls come in order, and what is given is reported.

ghost use Rattle.cp_vat_laws.specs.OrderKept.{RunsAreOrderly, RunsAreInOrder};

/// In every run the calls of one port leave in the order in which they came, each once and by the
/// port's route, and where the vat rests none is kept that could leave.
pub fn runs_are_orderly()
    ensures { RunsAreOrderly }
{}

/// So every run is in order: what is given in each of its turns is reported in it too, once, and nothing
/// else is. A run that the vat ends by an Abort is in order up to there.
pub fn runs_are_in_order()
    ensures { RunsAreInOrder }
{}
