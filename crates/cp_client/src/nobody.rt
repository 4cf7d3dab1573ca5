//! The objects of a client that has none.

use cp_objects::{Context, ServedObject};
use cp_refs::Outcome;
use cp_servants::{OutgoingCall, Reply, RequestView, Settled};
use std::alloc::AllocError;

/// The type of the objects of a client that has none: no value of it can be made. It is public since the type of a client names it.
#[derive(Drop)]
pub struct Nobody(());

impl ServedObject for Nobody {
    type Makes = Nobody;

    fn call(
        &mut self,
        _ticket: u64,
        _request: RequestView<'_>,
        _context: &mut Context<Nobody>,
    ) -> Result<Reply, AllocError> {
        Ok(Reply::Later)
    }

    fn poll(&mut self, _context: &mut Context<Nobody>) -> Result<Option<Settled>, AllocError> {
        Ok(None)
    }

    fn has_more(&self) -> bool {
        false
    }

    fn next_call(
        &mut self,
        _context: &mut Context<Nobody>,
    ) -> Result<Option<OutgoingCall>, AllocError> {
        Ok(None)
    }

    fn on_response(
        &mut self,
        _call_id: u64,
        outcome: Outcome,
        _context: &mut Context<Nobody>,
    ) -> Result<(), AllocError> {
        drop(outcome);
        Ok(())
    }

    fn on_cancel(
        &mut self,
        _ticket: u64,
        _context: &mut Context<Nobody>,
    ) -> Result<(), AllocError> {
        Ok(())
    }
}
