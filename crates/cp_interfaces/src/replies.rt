//! What goes to a peer for what a method answered.

ghost use Rattle.std.specs.Prelude.{◌≡◌, Some, IfOk, OnOk};
ghost use Rattle.cp_servants.specs.declared.servant.Reply.TheVariants.{Now};
ghost use Rattle.cp_interfaces.specs.Replies.{failing, no_method, refusal_of, given_up, noted_but};

use crate::call::MethodCall;
use crate::fault::MethodFault;
use cp_refs::{Cap, Caps, Outcome};
use cp_rpc::{Exception, ExceptionKind, Text};
use cp_servants::Reply;
use cp_vat_machine::Ids;
use std::alloc::{AllocError, Global};

/// What goes to the peer for a call that has come to this. The imports that its params name are given up, but for those that are
/// kept.
pub fn reply(
    alloc: Global,
    call: &MethodCall<'_>,
    outcome: Outcome,
    keeps: &Ids,
) -> Result<Reply, AllocError>
    ensures { IfOk result (λ reply. reply ≡ Now outcome (given_up keeps.now call.now.request.caps)) }
{
    Ok(Reply::Now {
        outcome,
        gives_up: given_up(alloc, &call.request.caps, keeps)?,
    })
}

/// What goes to the peer for a call that a method, or the dispatch, has no results for. `Err`: memory ran out.
pub fn refuse(alloc: Global, call: &MethodCall<'_>, fault: MethodFault) -> Result<Reply, AllocError>
    ensures { IfOk result (λ reply. refusal_of call.now.request.caps fault ≡ Some reply) }
{
    let outcome = Outcome::Failed(fault.exception(alloc)?);
    reply(alloc, call, outcome, &Ids::new(Vec::new(alloc)))
}

/// What goes to the peer for a call of a method that the interface of this title doesn't have. `Err`: memory ran out.
pub fn refuse_method(alloc: Global, call: &MethodCall<'_>, title: &str) -> Result<Reply, AllocError>
    ensures { IfOk result (λ reply. failing call.now.request.caps (Some (no_method title.now call.now.request.interface call.now.request.method)) ≡ Some reply) }
{
    let outcome = Outcome::Failed(no_method(
        alloc,
        title,
        call.request.interface,
        call.request.method,
    )?);
    reply(alloc, call, outcome, &Ids::new(Vec::new(alloc)))
}

/// The exception of such a call.
fn no_method(
    alloc: Global,
    title: &str,
    interface: u64,
    method: u16,
) -> Result<Exception, AllocError>
    ensures { IfOk result (λ e. e ≡ no_method title.now interface method) }
{
    let reason = format!(in alloc;
        "no such method: {title} has no method {method} of interface 0x{interface:x}"
    )?;
    Ok(Exception {
        kind: ExceptionKind::Unimplemented,
        reason: Text::new(reason),
        trace: Text::new(String::new(alloc)),
    })
}

/// The imports that a table names, each once, but for those that are kept.
pub fn given_up(alloc: Global, caps: &Caps, keeps: &Ids) -> Result<Ids, AllocError>
    ensures { IfOk result (λ ids. ids ≡ given_up keeps.now caps.now) }
{
    let mut noted = Vec::new(alloc);
    for cap in caps.caps() {
        note(&mut noted, cap, keeps.ids())?;
    }
    Ok(Ids::new(noted))
}

/// Notes a capability, if it is an import that isn't kept and wasn't noted before.
fn note(noted: &mut Vec<u32>, cap: &Cap, keeps: &[u32]) -> Result<(), AllocError>
    ensures { OnOk result (noted.new.items ≡ noted_but keeps.now noted.old.items cap.now) }
{
    if let Cap::Import(import) = cap {
        // An object gives an import up once, however often the table names it.
        if keeps.contains(import) || noted.contains(import) {
            return Ok(());
        }
        noted.push(*import)?;
    }
    Ok(())
}
