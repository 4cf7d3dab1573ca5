//! Questions that the program finishes, and outcomes that it has no use for.

ghost use Rattle.std.specs.Prelude.{◌≡◌, Err, IfErr, IfOk, OnErr, OnOk};
ghost use Rattle.cp_servants.specs.Outcomes.{named_imports};
ghost use Rattle.cp_vat_machine.specs.InUse.{caps_of};
ghost use Rattle.cp_vat_machine.specs.declared.event.Event.TheVariants as events;
ghost use Rattle.cp_connection.specs.Doing.{Acts};
ghost use Rattle.cp_dispatch.specs.Finishing.{Finishes, GivesBackEach};
ghost use Rattle.cp_dispatch.specs.Work.{Lives};
ghost use Rattle.cp_dispatch.specs.WorkOf.{work_of};

use crate::dispatcher::Dispatcher;
use crate::event::take_outcome;
use cp_connection::{Connection, ConnectionFault};
use cp_refs::Outcome;
use cp_servants::named_imports;
use cp_vat_machine::Ids;
use std::alloc::{AllocError, Global};

impl Dispatcher {
    /// Finishes a question of yours. Its outcome, if it came and you didn't take it, is no event any more: you get it here, and give what
    /// it names back by `give_back_each`.
    ///
    /// # Errors
    ///
    /// Those of `Connection::finish`. Then nothing changed here.
    pub fn finish(
        &mut self,
        connection: &mut Connection,
        question: u32,
    ) -> Result<Option<Outcome>, ConnectionFault>
        ensures finishes { IfOk result (λ untaken. Finishes question untaken (work_of self.old connection.old) (work_of self.new connection.new)) }
        ensures unfinished { IfErr result (λ fault. Acts connection.old (events.Finish question) (Err fault) connection.new) }
        ensures same { OnErr result (self.new ≡ self.old) }
    {
        connection.finish(question)?;
        Ok(take_outcome(&mut self.notices, question))
    }

    /// Gives back what an outcome gave you that you have no use for: each import that it names, once. One that nobody else holds is released
    /// at once, or in a later round if the vat still uses it. Where holders aren't counted (`new`) nothing is done.
    pub fn give_back_each(
        &mut self,
        connection: &mut Connection,
        outcome: &Outcome,
    ) -> Result<(), AllocError>
        ensures done { OnOk result (GivesBackEach (caps_of outcome.now) (work_of self.old connection.old) (work_of self.new connection.new)) }
        ensures lives { Lives connection.old connection.new }
    {
        let are_counted = self.may_call;
        if !are_counted {
            return Ok(());
        }
        let imports = imports_in(self.alloc, outcome)?;
        self.given.lower_each(imports.ids());
        self.release_each(connection, imports.ids())
    }
}

/// The imports that an outcome names, each once.
fn imports_in(alloc: Global, outcome: &Outcome) -> Result<Ids, AllocError>
    ensures { IfOk result (λ imports. imports ≡ named_imports (caps_of outcome.now)) }
{
    match outcome {
        Outcome::Results { caps, .. } => named_imports(alloc, caps),
        Outcome::Failed(_) | Outcome::Canceled => Ok(Ids::new(Vec::new(alloc))),
    }
}
