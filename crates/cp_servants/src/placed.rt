//! Objects by their places.

ghost use Rattle.std.specs.Prelude.{◌≡◌, ◌<◌, IfOk, OnOk, length};
ghost use Rattle.cp_servants.specs.Requests.{request_of};
ghost use Rattle.cp_servants.specs.Servant.{AnySaysMore, CallsAt, NextCallsAt, OnResponseAt, PollsAt};

use crate::request::RequestView;
use crate::servant::{OutgoingCall, Reply, Servant, Settled};
use cp_refs::Outcome;
use std::alloc::{AllocError, Global};

/// Calls the object at a place, under a ticket. `Err`: memory ran out for it.
pub fn call_at<O: Servant>(
    alloc: Global,
    objects: &mut [O],
    place: usize,
    ticket: u64,
    request: RequestView<'_>,
) -> Result<Reply, AllocError>
    requires { place < length objects.old }
    ensures { IfOk result (λ reply. CallsAt O.kind place ticket (request_of request.entry) reply objects.old objects.new) }
{
    let reply = objects[place].call_view(alloc, ticket, request)?;
    Ok(reply)
}

/// Polls the object at a place. `Err`: memory ran out for it.
pub fn poll_at<O: Servant>(objects: &mut [O], place: usize) -> Result<Option<Settled>, AllocError>
    requires { place < length objects.old }
    ensures { IfOk result (λ settled. PollsAt O.kind place settled objects.old objects.new) }
{
    let settled = objects[place].poll()?;
    Ok(settled)
}

/// The next call that the object at a place makes. `Err`: memory ran out for it.
pub fn next_call_at<O: Servant>(
    objects: &mut [O],
    place: usize,
) -> Result<Option<OutgoingCall>, AllocError>
    requires { place < length objects.old }
    ensures { IfOk result (λ call. NextCallsAt O.kind place call objects.old objects.new) }
{
    let next_call = objects[place].next_call()?;
    Ok(next_call)
}

/// Tells the object at a place what a call of its own came to. `Err`: memory ran out for it.
pub fn on_response_at<O: Servant>(
    objects: &mut [O],
    place: usize,
    call_id: u64,
    outcome: Outcome,
) -> Result<(), AllocError>
    requires { place < length objects.old }
    ensures { OnOk result (OnResponseAt O.kind place call_id outcome objects.old objects.new) }
{
    objects[place].on_response(call_id, outcome)?;
    Ok(())
}

/// Whether one of the objects may give more though nothing more comes: then poll again before you wait for the peer.
pub fn any_has_more<O: Servant>(objects: &[O]) -> bool
    ensures { AnySaysMore O.kind result objects.now }
{
    for object in objects {
        if object.has_more() {
            return true;
        }
    }
    false
}
