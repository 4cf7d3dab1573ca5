//! The results of methods, to be written.

ghost use Rattle.cp_tree.specs.Node.{Node};
ghost use Rattle.cp_interfaces.specs.Tables.{Named};

use crate::cap_table_builder::CapTableBuilder;
use cp_objects::ReferenceError;
use cp_refs::Outcome;
use cp_tree::Whole;
use std::alloc::Global;

/// The results of a method, to be written, with the capabilities that they name.
pub trait Results: Drop + Sized {
    /// The struct that they are.
    ghost content: { Self → Node };

    /// The capabilities that they name, each by its place.
    ghost names: { Self → Named };

    ghost use Rattle.std.specs.Prelude.{◌≡◌};
    ghost use Rattle.cp_interfaces.specs.ServiceCalls.{outcome_for};

    /// The struct that they are, and the table of what they name.
    fn into_parts(self, alloc: Global) -> (Whole, CapTableBuilder)
        ensures content { result.0 ≡ content self }
        ensures names { result.1 ≡ names self };

    /// The outcome with them, of a call of this session.
    fn into_outcome(self, alloc: Global, session: u64) -> Result<Outcome, ReferenceError>
        ensures { result ≡ outcome_for session (content self) (names self) }
    {
        let (content, table) = self.into_parts(alloc);
        match table.into_caps(session) {
            Ok(caps) => Ok(Outcome::Results { content, caps }),
            Err(error) => {
                drop(content);
                Err(error)
            }
        }
    }
}
