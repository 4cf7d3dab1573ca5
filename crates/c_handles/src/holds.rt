//! How often a program holds each capability of the peer.

ghost use Rattle.std.specs.Prelude.{◌≡◌, ◌<◌, ◌≤◌, OnOk, OnErr, length};
ghost use Rattle.std.specs.FinMap as map;
ghost use Rattle.c_handles.specs.Holds.{counted_from, given, held, held_less};

use cp_refs::Cap;
use cp_tables::Entries;
use std::alloc::{AllocError, Global};

/// How often the program holds each import. One that it doesn't hold takes no memory.
pub struct ImportHolds {
    pub counts: Entries<u64>,
}

// Not derived: a crate that lets one go calls this function, and need not prove the drop of all that it holds.
impl Drop for ImportHolds {
    fn drop(self) {
        let ImportHolds { counts: _ } = self;
    }
}

impl ImportHolds {
    /// It holds none.
    pub fn new(alloc: Global) -> ImportHolds
        ensures { result.counts ≡ map.empty }
    {
        ImportHolds {
            counts: Entries::new(alloc),
        }
    }

    /// How often it holds an import.
    pub fn of(&self, import: u32) -> u64
        ensures { result ≡ held self.now.counts import }
    {
        self.counts.get(import).copied().unwrap_or(0)
    }

    /// It is given each capability of a table from this place on, which rises with them. Where memory runs out, it stays where the next is
    /// to be given.
    pub fn give_from(&mut self, place: &mut usize, table: &[Cap]) -> Result<(), AllocError>
        ensures given { OnOk result (self.new.counts ≡ counted_from place.old table.now self.old.counts) }
        ensures all { OnOk result (length table.now ≤ place.new) }
        ensures left { OnErr result (counted_from place.new table.now self.new.counts ≡ counted_from place.old table.now self.old.counts) }
        ensures some { OnErr result (place.new < length table.now) }
    {
        while let Some(cap) = table.get(*place) {
            self.give(cap)?;
            *place += 1;
        }
        Ok(())
    }

    /// It holds an import once less.
    pub fn lower(&mut self, import: u32)
        ensures { self.new.counts ≡ held_less self.old.counts import }
    {
        let count = self.of(import);
        if count > 1 {
            *self.counts.entry_mut(import) = count - 1;
        } else {
            drop(self.counts.remove(import));
        }
    }

    /// It is given a capability. A count that can't rise is refused as a failed allocation is: there is no memory for 2^64 capabilities.
    fn give(&mut self, cap: &Cap) -> Result<(), AllocError>
        ensures given { OnOk result (self.new.counts ≡ given self.old.counts cap.now) }
        ensures err { OnErr result (self.new ≡ self.old) }
    {
        let Cap::Import(import) = cap else {
            return Ok(());
        };
        let Some(count) = self.of(*import).checked_add(1) else {
            return Err(AllocError);
        };
        self.counts.put(*import, count)
    }
}
