//! The results of a call, owned.

ghost use Rattle.std.specs.Prelude.{◌≡◌};
ghost use Rattle.cp_fields.specs.Pointers.{struct_field};
ghost use Rattle.cp_interfaces.specs.Payloads.{Comes};

use crate::cap_table::CapTable;
use crate::fault::NoResults;
use cp_fields::{PointerReader, StructReader, WrongKind};
use cp_refs::{Caps, Outcome};
use cp_tree::Whole;

/// The results of a call, with the table of the capabilities that they name.
pub struct ResultPayload {
    pub content: Whole,
    pub caps: Caps,
    /// The number of the session that they came by.
    pub session: u64,
}

// Not derived: a crate that lets one go calls this function, and need not prove the drop of all that it holds.
impl Drop for ResultPayload {
    fn drop(self) {
        let ResultPayload {
            content: _,
            caps: _,
            session: _,
        } = self;
    }
}

impl ResultPayload {
    /// The struct of the results.
    pub fn results(&self) -> Result<StructReader<'_>, WrongKind>
        ensures { result ≡ struct_field self.now.content }
    {
        StructReader::of(PointerReader::of_whole(&self.content))
    }

    /// The table of the capabilities that they name.
    pub fn caps(&self) -> CapTable<'_>
        ensures caps { result.caps.now ≡ self.now.caps }
        ensures session { result.session ≡ self.now.session }
    {
        CapTable {
            session: self.session,
            caps: &self.caps,
        }
    }
}

/// The results that an outcome of this session is, or why it is none.
pub fn payload_of(session: u64, outcome: Outcome) -> Result<ResultPayload, NoResults>
    ensures { Comes session outcome result }
{
    match outcome {
        Outcome::Results { content, caps } => Ok(ResultPayload {
            content,
            caps,
            session,
        }),
        Outcome::Failed(exception) => Err(NoResults::Failed(exception)),
        Outcome::Canceled => Err(NoResults::Canceled),
    }
}
