//! The parts of a vat.

ghost use Rattle.std.specs.Prelude.{◌≡◌};
ghost use Rattle.cp_vat_machine.specs.State.{new_state};
ghost use Rattle.cp_vat_state.specs.StateOf.{state_of};

use crate::exports::Exported;
use crate::gates::Gates;
use crate::marks::Marks;
use crate::own_promises::OwnPromises;
use crate::resolutions::Resolutions;
use cp_tables::{Answers, Imports, Questions};
use cp_vat_machine::{AnswerEntry, ImportKind, QuestionEntry};
use std::alloc::Global;

/// The parts of a vat. Contracts see them as the machine's state.
pub struct Core {
    pub alloc: Global,
    pub values: Resolutions,
    pub questions: Questions<QuestionEntry>,
    pub answers: Answers<AnswerEntry>,
    pub own_promises: OwnPromises,
    pub exports: Exported,
    pub imports: Imports<ImportKind>,
    pub gates: Gates,
    pub marks: Marks,
    /// The object that a Bootstrap gives.
    pub bootstrap: Option<u32>,
    pub is_closed: bool,
}

// Not derived: a crate that lets one go calls this function, and need not prove the drop of all that it holds.
impl Drop for Core {
    fn drop(self) {
        let Core {
            alloc: _,
            values: _,
            questions: _,
            answers: _,
            own_promises: _,
            exports: _,
            imports: _,
            gates: _,
            marks: _,
            bootstrap: _,
            is_closed: _,
        } = self;
    }
}

impl Core {
    /// A new vat: nothing was sent, taken or called.
    pub fn new(alloc: Global, bootstrap: Option<u32>) -> Core
        ensures { state_of result ≡ new_state bootstrap }
    {
        Core {
            alloc,
            values: Resolutions::new(alloc),
            questions: Questions::new(alloc),
            answers: Answers::new(alloc),
            own_promises: OwnPromises::new(alloc),
            exports: Exported::new(alloc),
            imports: Imports::new(alloc),
            gates: Gates::new(alloc),
            marks: Marks::new(alloc),
            bootstrap,
            is_closed: false,
        }
    }
}
