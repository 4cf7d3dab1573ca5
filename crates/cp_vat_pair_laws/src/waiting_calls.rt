//! What each turn keeps of the calls that wait.

ghost use Rattle.cp_vat_pair_laws.specs.Turns.{SettlingKeeps, TiedAreOpen, TurnKeeps};

/// A promise that is settled, and each turn of waiting calls, leave the others waiting for what their
/// ports lead to, also where the call fails and its exception goes on to the promises tied to its answer.
pub fn turns_keep()
    ensures settling { SettlingKeeps }
    ensures tied { TiedAreOpen }
    ensures turns { TurnKeeps }
{}
