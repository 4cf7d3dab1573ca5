//! A sample of any kind.

use crate::cell::Cell;
use crate::desk::Desk;
use crate::request::RequestView;
use crate::script::Script;
use crate::servant::{Reply, Servant, Settled};
use cp_refs::Request;
use std::alloc::{AllocError, Global};

/// A sample of any kind, so that several stand in one list.
#[derive(Drop)]
pub enum Sample {
    Desk(Desk),
    Cell(Cell),
    Script(Script),
}

impl Servant for Sample {
    ghost use Rattle.cp_servants.specs.Sample.{each_sample};

    ghost kind = { each_sample };

    fn call(&mut self, ticket: u64, request: Request) -> Result<Reply, AllocError> {
        match self {
            Sample::Desk(desk) => desk.call(ticket, request),
            Sample::Cell(cell) => cell.call(ticket, request),
            Sample::Script(script) => script.call(ticket, request),
        }
    }

    fn call_view(
        &mut self,
        alloc: Global,
        ticket: u64,
        request: RequestView<'_>,
    ) -> Result<Reply, AllocError> {
        match self {
            Sample::Desk(desk) => desk.call_view(alloc, ticket, request),
            Sample::Cell(cell) => cell.call_view(alloc, ticket, request),
            Sample::Script(script) => script.call_view(alloc, ticket, request),
        }
    }

    fn poll(&mut self) -> Result<Option<Settled>, AllocError> {
        match self {
            Sample::Desk(desk) => desk.poll(),
            Sample::Cell(cell) => cell.poll(),
            Sample::Script(script) => script.poll(),
        }
    }

    fn has_more(&self) -> bool {
        match self {
            Sample::Desk(desk) => desk.has_more(),
            Sample::Cell(cell) => cell.has_more(),
            Sample::Script(script) => script.has_more(),
        }
    }
}
