//! What holds of a vat between events, and what each event keeps of it.

ghost use Rattle.cp_vat_laws.specs.Keeping.{LocalIsWithin, WithinIsLocal, TurnKeeps, LeavesLocal, DoesWithin, ReceivesWithin, StepKeeps, RunsKeep};

/// What holds between events holds within one, before a gate is over, and where all gates are
/// forgotten that no call waits at.
pub fn local_is_within()
    ensures within { LocalIsWithin }
    ensures between { WithinIsLocal }
{}

/// Each turn of waiting calls keeps what holds within an event, and where they rest it holds between
/// events.
pub fn turns_keep()
    ensures turns { TurnKeeps }
    ensures leave { LeavesLocal }
{}

/// After the own part of each event, from where it holds between events, it holds within one.
pub fn events_keep()
    ensures does { DoesWithin }
    ensures receives { ReceivesWithin }
{}

/// So each step that leaves a vat open keeps what holds between events, and it holds after every run
/// that leaves a new vat open.
pub fn steps_keep()
    ensures steps { StepKeeps }
    ensures runs { RunsKeep }
{}
