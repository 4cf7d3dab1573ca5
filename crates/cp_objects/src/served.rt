//! Servants as served objects.

ghost use Rattle.std.specs.Prelude.{◌≡◌, IfOk};
ghost use Rattle.cp_objects.specs.Objects.{adding_each, alone, objects_of};
ghost use Rattle.cp_objects.specs.ServantObject.{served_each};

use crate::context::Context;
use crate::objects::Objects;
use crate::served_object::ServedObject;
use cp_refs::Outcome;
use cp_servants::{OutgoingCall, Reply, RequestView, Servant, Settled};
use std::alloc::{AllocError, Global};

/// A `Servant` as a served object, which makes no others. It may be in a box: so servants of many kinds stand side by side.
/// It is polled as the objects of a connection are, and not in each round.
#[derive(Drop)]
pub struct ServantObject<S> {
    servant: S,
}

impl<S: Servant> ServantObject<S> {
    /// This servant.
    pub fn new(servant: S) -> ServantObject<S>
        ensures { result.servant ≡ servant }
    {
        ServantObject { servant }
    }

    /// The servant.
    pub fn servant(&self) -> &S
        ensures { result.now ≡ self.now.servant }
    {
        &self.servant
    }
}

impl<S: Servant> Objects<ServantObject<S>> {
    /// These servants, in order: the object of number k is that at place k. All stay as long as the connection.
    pub fn of_servants(
        alloc: Global,
        servants: Vec<S>,
    ) -> Result<Objects<ServantObject<S>>, AllocError>
        ensures { IfOk result (λ objects. objects_of objects ≡ adding_each (served_each servants.items) alone) }
    {
        let mut objects = Objects::new(alloc);
        for servant in servants {
            let _ = objects.add(ServantObject::new(servant))?;
        }
        Ok(objects)
    }
}

impl<S: Servant> ServedObject for ServantObject<S> {
    type Makes = ServantObject<S>;

    ghost use Rattle.cp_objects.specs.ServantObject.{served};

    ghost makes = { served S.kind };

    fn call(
        &mut self,
        ticket: u64,
        request: RequestView<'_>,
        context: &mut Context<ServantObject<S>>,
    ) -> Result<Reply, AllocError> {
        self.servant.call_view(context.alloc(), ticket, request)
    }

    fn poll(
        &mut self,
        context: &mut Context<ServantObject<S>>,
    ) -> Result<Option<Settled>, AllocError> {
        let _ = context;
        self.servant.poll()
    }

    fn has_more(&self) -> bool {
        self.servant.has_more()
    }

    fn next_call(
        &mut self,
        context: &mut Context<ServantObject<S>>,
    ) -> Result<Option<OutgoingCall>, AllocError> {
        let _ = context;
        self.servant.next_call()
    }

    fn on_response(
        &mut self,
        call_id: u64,
        outcome: Outcome,
        context: &mut Context<ServantObject<S>>,
    ) -> Result<(), AllocError> {
        let _ = context;
        self.servant.on_response(call_id, outcome)
    }

    fn on_cancel(
        &mut self,
        ticket: u64,
        context: &mut Context<ServantObject<S>>,
    ) -> Result<(), AllocError> {
        // A servant isn't told: it answers, and nobody takes that.
        let _ = ticket;
        let _ = context;
        Ok(())
    }
}
