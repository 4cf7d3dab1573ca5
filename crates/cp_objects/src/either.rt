//! An object of one of two kinds.

use crate::context::Context;
use crate::served_object::ServedObject;
use cp_refs::Outcome;
use cp_servants::{OutgoingCall, Reply, RequestView, Settled};
use std::alloc::AllocError;

/// An object of one of two kinds. For more kinds the second is an `Either` again, or write an enum of your own so.
#[derive(Drop)]
pub enum Either<A, B> {
    Left(A),
    Right(B),
}

impl<A: ServedObject, B: ServedObject<Makes = A::Makes>> ServedObject for Either<A, B> {
    type Makes = A::Makes;

    ghost use Rattle.cp_objects.specs.Either.{either};

    ghost makes = { either A.makes B.makes };

    fn call(
        &mut self,
        ticket: u64,
        request: RequestView<'_>,
        context: &mut Context<A::Makes>,
    ) -> Result<Reply, AllocError> {
        match self {
            Either::Left(object) => object.call(ticket, request, context),
            Either::Right(object) => object.call(ticket, request, context),
        }
    }

    fn poll(&mut self, context: &mut Context<A::Makes>) -> Result<Option<Settled>, AllocError> {
        match self {
            Either::Left(object) => object.poll(context),
            Either::Right(object) => object.poll(context),
        }
    }

    fn has_more(&self) -> bool {
        match self {
            Either::Left(object) => object.has_more(),
            Either::Right(object) => object.has_more(),
        }
    }

    fn next_call(
        &mut self,
        context: &mut Context<A::Makes>,
    ) -> Result<Option<OutgoingCall>, AllocError> {
        match self {
            Either::Left(object) => object.next_call(context),
            Either::Right(object) => object.next_call(context),
        }
    }

    fn on_response(
        &mut self,
        call_id: u64,
        outcome: Outcome,
        context: &mut Context<A::Makes>,
    ) -> Result<(), AllocError> {
        match self {
            Either::Left(object) => object.on_response(call_id, outcome, context),
            Either::Right(object) => object.on_response(call_id, outcome, context),
        }
    }

    fn on_cancel(
        &mut self,
        ticket: u64,
        context: &mut Context<A::Makes>,
    ) -> Result<(), AllocError> {
        match self {
            Either::Left(object) => object.on_cancel(ticket, context),
            Either::Right(object) => object.on_cancel(ticket, context),
        }
    }

    fn ended(&mut self, context: &mut Context<A::Makes>) -> Result<(), AllocError> {
        match self {
            Either::Left(object) => object.ended(context),
            Either::Right(object) => object.ended(context),
        }
    }
}
