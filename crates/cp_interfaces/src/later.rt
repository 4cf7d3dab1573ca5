//! Calls that are answered later.

ghost use Rattle.std.specs.Prelude.{◌≡◌, ◌==◌, ◌&&◌, false, Err, OnOk, OnErr};
ghost use Rattle.cp_objects.specs.Context.{context_of};
ghost use Rattle.cp_objects.specs.SessionCap.{IsTakenIf};
ghost use Rattle.cp_objects.specs.declared.reference_error.ReferenceError.TheVariants.{OtherSession};
ghost use Rattle.cp_interfaces.specs.ServiceCalls.{answered, IsFailed};
ghost use Rattle.cp_interfaces.specs.Tables.{are_of};

use crate::fault::MethodFault;
use crate::results::Results;
use cp_objects::{Context, LaterCall, ReferenceError};
use cp_refs::Outcome;
use std::marker::PhantomData;

/// The answer of a call that is given later, with results that are written as an `R`. Store it, in any object of the connection, and give
/// the answer in any method of one. Where it is dropped before, the call fails.
#[derive(Drop)]
pub struct LaterAnswer<R> {
    call: LaterCall,
    of: PhantomData<R>,
}

impl<R: Results> LaterAnswer<R> {
    /// The call comes to these results.
    ///
    /// # Errors
    ///
    /// The call is of another session, or the results name capabilities of another: then it fails as one that was dropped. Or memory ran
    /// out.
    pub fn answer<M: Drop>(self, context: &mut Context<M>, results: R) -> Result<(), ReferenceError>
        ensures answered { OnOk result (context_of context.new ≡ answered self.call (R.content results) (R.names results) (context_of context.old)) }
        ensures left { OnErr result (context_of context.new ≡ context_of context.old) }
        ensures own { IsTakenIf (self.call.session == (context_of context.old).this.session && are_of self.call.session (R.names results).session) result }
    {
        let outcome = results.into_outcome(context.alloc(), self.call.session())?;
        context.answer(self.call, outcome)
    }

    /// The call fails.
    ///
    /// # Errors
    ///
    /// The call is of another session: then it fails as one that was dropped. Or memory ran out.
    pub fn fail<M: Drop>(
        self,
        context: &mut Context<M>,
        fault: MethodFault,
    ) -> Result<(), ReferenceError>
        ensures failed { OnOk result (IsFailed self.call fault (context_of context.old) (context_of context.new)) }
        ensures own { OnOk result (self.call.session ≡ (context_of context.old).this.session) }
        ensures other { result ≡ Err OtherSession → self.call.session == (context_of context.old).this.session ≡ false }
        ensures left { OnErr result (context_of context.new ≡ context_of context.old) }
    {
        let outcome = Outcome::Failed(fault.exception(context.alloc())?);
        context.answer(self.call, outcome)
    }
}

impl<R> LaterAnswer<R> {
    /// The ticket of its call, by which an object is told that the call was given up (`ServiceObject::on_cancel`).
    pub fn ticket(&self) -> u64
        ensures { result ≡ self.now.call.ticket }
    {
        self.call.ticket()
    }

    /// The answer of this call.
    pub(crate) fn new(call: LaterCall) -> LaterAnswer<R>
        ensures { result.call ≡ call }
    {
        LaterAnswer {
            call,
            of: PhantomData,
        }
    }
}
