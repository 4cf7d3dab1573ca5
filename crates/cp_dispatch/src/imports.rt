//! Which imports objects hold, which the program holds, and when they are released.

ghost use Rattle.std.specs.Prelude.{OnOk};
ghost use Rattle.cp_vat_machine.specs.InUse.{caps_of};
ghost use Rattle.cp_vat_machine.specs.declared.event.Value.TheVariants as values;
ghost use Rattle.cp_connection.specs.Doing.{answered};
ghost use Rattle.cp_connection.specs.Link.{Link};
ghost use Rattle.cp_dispatch.specs.Work.{Frees, GivesUp, Holds, IsGiven, Leaves, LetsGo, Lives, Releases, Stays, Tries, TriesEach, TriesUnheld};
ghost use Rattle.cp_dispatch.specs.Rounds.{GivesUpBeside};
ghost use Rattle.cp_dispatch.specs.WorkOf.{work_of};

use crate::dispatcher::Dispatcher;
use cp_connection::{Connection, ConnectionFault};
use cp_objects::ObjectTable;
use cp_refs::{Caps, Outcome};
use cp_servants::named_imports;
use cp_vat_machine::{Ids, VatFault};
use std::alloc::AllocError;
use std::mem;

impl Dispatcher {
    /// Notes that the program is given what an outcome gives: where objects may call, it holds each import that is named once more.
    pub(crate) fn give(&mut self, outcome: &Outcome) -> Result<(), AllocError>
        ensures { OnOk result ((link : Link) → IsGiven (caps_of outcome.now) (work_of self.old link) (work_of self.new link)) }
    {
        match outcome {
            Outcome::Results { caps, .. } if self.may_call => {
                let named = named_imports(self.alloc, caps)?;
                self.given.raise_each(named.ids())
            }
            _ => Ok(()),
        }
    }

    /// The program gives up what an object holds too, if it holds it.
    pub(crate) fn leave(&mut self, import: u32) -> Result<(), ConnectionFault>
        ensures { (link : Link) → Leaves import (work_of self.old link) (answered (λ _. values.Nothing) result) (work_of self.new link) }
    {
        if self.given.of(import) == 0 {
            return Err(ConnectionFault::Refused(VatFault::InUse));
        }
        let _ = self.given.lower(import);
        Ok(())
    }

    /// Notes that an object is given what an outcome gives.
    pub(crate) fn hold_given(&mut self, outcome: &Outcome) -> Result<(), AllocError>
        ensures { OnOk result ((link : Link) → Holds (caps_of outcome.now) (work_of self.old link) (work_of self.new link)) }
    {
        match outcome {
            Outcome::Results { caps, .. } => self.hold(caps),
            Outcome::Failed(_) => Ok(()),
            Outcome::Canceled => Ok(()),
        }
    }

    /// Notes that an object is given capabilities: where objects may call, each import that they name has a holder more.
    pub(crate) fn hold(&mut self, caps: &Caps) -> Result<(), AllocError>
        ensures { OnOk result ((link : Link) → Holds caps.now (work_of self.old link) (work_of self.new link)) }
    {
        // A release gives an import back whole, so it waits for the last holder; an object that doesn't call has no use for an
        // import.
        if !self.may_call {
            return Ok(());
        }
        let imports = named_imports(self.alloc, caps)?;
        self.holders.raise_each(imports.ids())
    }

    /// Notes that an object gives imports up.
    pub(crate) fn give_up(&mut self, imports: &Ids) -> Result<(), AllocError>
        ensures { OnOk result ((link : Link) → GivesUp imports.now (work_of self.old link) (work_of self.new link)) }
    {
        for import in imports.ids() {
            self.let_go(*import)?;
        }
        Ok(())
    }

    /// Notes which imports objects gave up beside what they answered.
    pub(crate) fn give_up_beside<H: ObjectTable>(
        &mut self,
        objects: &mut H,
    ) -> Result<(), AllocError>
        ensures { OnOk result ((link : Link) → GivesUpBeside H.table (work_of self.old link) (work_of self.new link) objects.old objects.new) }
    {
        let imports = objects.take_given_up(self.alloc);
        self.give_up(&imports)
    }

    /// Tries to release each import that was given up and isn't held again. One that is still in use stays.
    pub(crate) fn release_all(&mut self, connection: &mut Connection) -> Result<(), AllocError>
        ensures done { OnOk result (Releases (work_of self.old connection.old) (work_of self.new connection.new)) }
        ensures lives { Lives connection.old connection.new }
    {
        // A release that is refused puts its import into the new list.
        let imports = mem::replace(&mut self.given_up, Vec::new(self.alloc));
        self.release_each(connection, &imports)
    }

    /// Tries to release each of these imports, unless an object holds it, or the program.
    pub(crate) fn release_each(
        &mut self,
        connection: &mut Connection,
        imports: &[u32],
    ) -> Result<(), AllocError>
        ensures done { OnOk result (TriesEach (work_of self.old connection.old) imports.now (work_of self.new connection.new)) }
        ensures lives { Lives connection.old connection.new }
    {
        for import in imports {
            self.release_unheld(connection, *import)?;
        }
        Ok(())
    }

    /// Notes that an object gives an import up, which is to be released unless others hold it.
    fn let_go(&mut self, import: u32) -> Result<(), AllocError>
        ensures { OnOk result ((link : Link) → LetsGo import (work_of self.old link) (work_of self.new link)) }
    {
        if self.holders.lower(import) {
            return Ok(());
        }
        self.free(import)
    }

    /// Tries to release an import, unless an object holds it, or the program.
    fn release_unheld(&mut self, connection: &mut Connection, import: u32) -> Result<(), AllocError>
        ensures done { OnOk result (TriesUnheld (work_of self.old connection.old) import (work_of self.new connection.new)) }
        ensures lives { Lives connection.old connection.new }
    {
        // Its holder puts it on the list again when it gives the import up.
        if self.holders.of(import) > 0 {
            return Ok(());
        }
        // So does the program.
        if self.given.of(import) > 0 {
            return Ok(());
        }
        self.release(connection, import)
    }

    /// Tries to release an import.
    fn release(&mut self, connection: &mut Connection, import: u32) -> Result<(), AllocError>
        ensures done { OnOk result (Tries (work_of self.old connection.old) import (work_of self.new connection.new)) }
        ensures lives { Lives connection.old connection.new }
    {
        let fault = match connection.release(import) {
            Ok(()) => return Ok(()),
            Err(fault) => fault,
        };
        match fault {
            ConnectionFault::OutOfMemory => Err(AllocError),
            ConnectionFault::Refused(refusal) => self.stay(import, refusal),
            ConnectionFault::Closed => Ok(()),
            ConnectionFault::Unreadable { .. } => Ok(()),
        }
    }

    /// Keeps an import whose release was refused, if it is still in use.
    fn stay(&mut self, import: u32, refusal: VatFault) -> Result<(), AllocError>
        ensures { OnOk result ((link : Link) → Stays import refusal (work_of self.old link) (work_of self.new link)) }
    {
        match refusal {
            VatFault::InUse => self.free(import),
            _ => Ok(()),
        }
    }

    /// Notes that an import is to be released.
    fn free(&mut self, import: u32) -> Result<(), AllocError>
        ensures { OnOk result ((link : Link) → Frees import (work_of self.old link) (work_of self.new link)) }
    {
        self.given_up.push(import)?;
        Ok(())
    }
}
