//! An entry of the exports or the imports.

use crate::fault::TableFault;

/// An entry of the exports or the imports (rpc.capnp, `ExportId` and `ImportId`): how often the
/// capability was sent and not released.
#[derive(Clone, Drop)]
pub struct Counted<T> {
    /// From 1 on: at 0 the entry is gone.
    pub count: u32,
    /// What the table's user keeps with it.
    /// It lies in the entry, so that both come and go in one step and one allocation.
    pub kept: T,
}

impl<T> Counted<T> {
    ghost use Rattle.std.specs.Prelude.{◌≡◌, ◌≢◌, ◌+◌, ◌-◌, ◌<◌, ◌≤◌, ◌↔◌, IfOk, IfErr, IsTrue};

    /// Counts once more.
    pub(crate) fn raise(&mut self) -> Result<(), TableFault>
        ensures raised { IfOk result (λ _. (self.old.count ≢ u32.MAX) × (self.new ≡ record self.old { count = self.old.count + 1 })) }
        ensures full { IfErr result (λ fault. (fault ≡ TableFault.Full) × (self.old.count ≡ u32.MAX) × (self.new ≡ self.old)) }
    {
        if self.count == u32::MAX {
            return Err(TableFault::Full);
        }
        self.count += 1;
        Ok(())
    }

    /// Counts this many times less, and says whether the entry goes.
    pub(crate) fn lower(&mut self, n: u32) -> Result<bool, TableFault>
        ensures lowered { IfOk result (λ _. (n ≤ self.old.count) × (self.new ≡ record self.old { count = self.old.count - n })) }
        ensures goes { IfOk result (λ goes. IsTrue goes ↔ (n ≡ self.old.count)) }
        ensures too_many { IfErr result (λ fault. (fault ≡ TableFault.TooMany) × (self.old.count < n) × (self.new ≡ self.old)) }
    {
        if n > self.count {
            return Err(TableFault::TooMany);
        }
        self.count -= n;
        Ok(self.count == 0)
    }
}
