//! Calls, as an object's methods get them.

ghost use Rattle.std.specs.Prelude.{◌≡◌};
ghost use Rattle.cp_fields.specs.Pointers.{struct_field};

use crate::cap_table::CapTable;
use cp_fields::{StructReader, WrongKind};
use cp_servants::RequestView;

/// A call of a method, whose params are lent by their frame.
pub struct MethodCall<'c> {
    /// No other call of the connection has it. An answer that is given later names it.
    pub ticket: u64,
    /// The number of the session that it came by.
    pub session: u64,
    pub request: RequestView<'c>,
}

// Not derived: a crate that lets one go calls this function, and need not prove the drop of all that it holds.
impl Drop for MethodCall<'_> {
    fn drop(self) {
        let MethodCall {
            ticket: _,
            session: _,
            request: _,
        } = self;
    }
}

impl<'c> MethodCall<'c> {
    /// The struct of its params.
    pub fn params(&self) -> Result<StructReader<'c>, WrongKind>
        ensures { result ≡ struct_field self.now.request.content }
    {
        StructReader::of(self.request.content.reborrow())
    }

    /// The table of the capabilities that its params name.
    pub fn caps(&self) -> CapTable<'_>
        ensures caps { result.caps.now ≡ self.now.request.caps }
        ensures session { result.session ≡ self.now.session }
    {
        CapTable {
            session: self.session,
            caps: &self.request.caps,
        }
    }
}
