//! What calls come to, as drivers and objects make it.

ghost use Rattle.std.specs.Prelude.{◌≡◌, IfOk, OnOk};
ghost use Rattle.cp_servants.specs.Outcomes.{exception_of, no_such_object, bad_outcome, no_such_method, dropped_call, named_imports, noted_with, refused_call, results_too_long};

use cp_refs::{Cap, Caps, Outcome};
use cp_rpc::{Exception, ExceptionKind, Text};
use cp_vat_machine::Ids;
use std::alloc::{AllocError, Global};

/// The exception of a call that goes to an object which doesn't exist: failed, `no such object`.
pub fn no_such_object(alloc: Global) -> Result<Outcome, AllocError>
    ensures { IfOk result (λ o. o ≡ no_such_object) }
{
    let kind = ExceptionKind::Failed;
    Ok(Outcome::Failed(exception(alloc, kind, "no such object")?))
}

/// The exception in place of an outcome that the vat refuses: failed, `bad outcome`.
pub fn bad_outcome(alloc: Global) -> Result<Outcome, AllocError>
    ensures { IfOk result (λ o. o ≡ bad_outcome) }
{
    let kind = ExceptionKind::Failed;
    Ok(Outcome::Failed(exception(alloc, kind, "bad outcome")?))
}

/// What an object is told of a call that the vat refuses: failed, `call refused`.
pub fn refused_call(alloc: Global) -> Result<Outcome, AllocError>
    ensures { IfOk result (λ o. o ≡ refused_call) }
{
    let kind = ExceptionKind::Failed;
    Ok(Outcome::Failed(exception(alloc, kind, "call refused")?))
}

/// The exception of a call that was to be answered later, and that was dropped before: failed,
/// `the call was dropped without an answer`.
pub fn dropped_call(alloc: Global) -> Result<Outcome, AllocError>
    ensures { IfOk result (λ o. o ≡ dropped_call) }
{
    let kind = ExceptionKind::Failed;
    let reason = "the call was dropped without an answer";
    Ok(Outcome::Failed(exception(alloc, kind, reason)?))
}

/// The exception of a call of a method that the object doesn't have: unimplemented, `no such method`.
pub fn no_such_method(alloc: Global) -> Result<Outcome, AllocError>
    ensures { IfOk result (λ o. o ≡ no_such_method) }
{
    let kind = ExceptionKind::Unimplemented;
    Ok(Outcome::Failed(exception(alloc, kind, "no such method")?))
}

/// The exception of a call whose results no message can hold: failed, `the results are too long`.
pub(crate) fn results_too_long(alloc: Global) -> Result<Outcome, AllocError>
    ensures { IfOk result (λ o. o ≡ results_too_long) }
{
    let kind = ExceptionKind::Failed;
    Ok(Outcome::Failed(exception(alloc, kind, "the results are too long")?))
}

/// The imports that a capability table names, each once: what an object gives up that keeps none of them.
pub fn named_imports(alloc: Global, caps: &Caps) -> Result<Ids, AllocError>
    ensures { IfOk result (λ ids. ids ≡ named_imports caps.now) }
{
    let mut named = Vec::new(alloc);
    for cap in caps.caps() {
        note(&mut named, cap)?;
    }
    Ok(Ids::new(named))
}

/// An exception without a trace.
fn exception(alloc: Global, kind: ExceptionKind, reason: &str) -> Result<Exception, AllocError>
    ensures { IfOk result (λ e. e ≡ exception_of kind reason.now) }
{
    Ok(Exception {
        kind,
        reason: Text::new(String::from_str(alloc, reason)?),
        trace: Text::new(String::new(alloc)),
    })
}

/// Notes a capability, if it is an import that wasn't noted before.
fn note(noted: &mut Vec<u32>, cap: &Cap) -> Result<(), AllocError>
    ensures { OnOk result (noted.new.items ≡ noted_with noted.old.items cap.now) }
{
    if let Cap::Import(import) = cap {
        if noted.contains(import) {
            return Ok(());
        }
        noted.push(*import)?;
    }
    Ok(())
}
