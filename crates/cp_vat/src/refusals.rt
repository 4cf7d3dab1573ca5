//! What calls of the application are refused for before they change anything.

ghost use Rattle.std.specs.Prelude.{◌≡◌};
ghost use Rattle.std.specs.List.{list_any, list_all};
ghost use Rattle.cp_vat_machine.specs.Calling.{call_refusals};
ghost use Rattle.cp_vat_machine.specs.Doing.{answer_refusals, awaits, resolve_refusals, value_refusals};
ghost use Rattle.cp_vat_machine.specs.InUse.{caps_of, has_import, has_promise, has_question, is_local_path, is_own_question, is_pipelined};
ghost use Rattle.cp_vat_state.specs.StateOf.{state_of};
ghost use Rattle.cp_vat.specs.Judging.{judged};

use crate::sizes::{cap_fits, outcome_fits, request_fits};
use cp_refs::{Cap, Origin, Outcome, PromiseId, QuestionKind, Request};
use cp_tables::{LIMIT, Stage};
use cp_vat_machine::VatFault;
use cp_vat_state::Core;

/// What `call` is refused for, before full tables on its route are looked at.
pub(crate) fn check_call(core: &Core, cap: &Cap, request: &Request) -> Result<(), VatFault>
    ensures { result ≡ judged (call_refusals (state_of core.now) cap.now request.now) }
{
    let table = request.caps.caps();
    if !has_question(core, cap) || !have_questions(core, table) {
        return Err(VatFault::UnknownQuestion);
    }
    if !has_promise(core, cap) || !have_promises(core, table) {
        return Err(VatFault::UnknownPromise);
    }
    // Such a path may be called, but in a table the peer wouldn't know the question.
    if names_local_path(core, table) {
        return Err(VatFault::Unsettled);
    }
    if !cap_fits(cap) || !request_fits(request) {
        return Err(VatFault::TooLarge);
    }
    if core.questions.len() >= LIMIT || !core.gates.has_ticket() {
        return Err(VatFault::Full);
    }
    if !has_import(core, cap) || !have_imports(core, table) {
        return Err(VatFault::UnknownImport);
    }
    Ok(())
}

/// What `answer` is refused for.
pub(crate) fn check_answer(core: &Core, origin: Origin, outcome: &Outcome) -> Result<(), VatFault>
    ensures { result ≡ judged (answer_refusals (state_of core.now) origin outcome.now) }
{
    let table = caps_of(outcome);
    if !awaits(core, origin) || !have_questions(core, table) {
        return Err(VatFault::UnknownQuestion);
    }
    if !have_promises(core, table) {
        return Err(VatFault::UnknownPromise);
    }
    if names_path(table) {
        return Err(VatFault::Unsettled);
    }
    if !outcome_fits(outcome) {
        return Err(VatFault::TooLarge);
    }
    if !have_imports(core, table) {
        return Err(VatFault::UnknownImport);
    }
    Ok(())
}

/// What `resolve` is refused for, of its promise.
pub(crate) fn check_resolve(core: &Core, promise: PromiseId, value: &Cap) -> Result<(), VatFault>
    ensures { result ≡ judged (resolve_refusals (state_of core.now) promise value.now) }
{
    if !has_question(core, value) {
        return Err(VatFault::UnknownQuestion);
    }
    if !core.own_promises.contains(promise) || !has_promise(core, value) {
        return Err(VatFault::UnknownPromise);
    }
    if let Some(Some(_)) = core.values.values().promise(promise) {
        return Err(VatFault::AlreadyResolved);
    }
    Ok(())
}

/// What `resolve` is refused for, of its value.
pub(crate) fn check_value(core: &Core, value: &Cap) -> Result<(), VatFault>
    ensures { result ≡ judged (value_refusals (state_of core.now) value.now) }
{
    if let Cap::Pipelined(_, _) = value {
        return Err(VatFault::Unsettled);
    }
    if !cap_fits(value) {
        return Err(VatFault::TooLarge);
    }
    if !has_import(core, value) {
        return Err(VatFault::UnknownImport);
    }
    Ok(())
}

/// Whether this is a question that the application asked and didn't finish.
pub(crate) fn is_own_question(core: &Core, id: u32) -> bool
    ensures { result ≡ is_own_question (state_of core.now) id }
{
    match core.questions.get(id) {
        Some(question) => question.kept.forwards.is_none() && question.stage != Stage::Finished,
        None => false,
    }
}

fn has_question(core: &Core, cap: &Cap) -> bool
    ensures { result ≡ has_question (state_of core.now) cap.now }
{
    match cap {
        Cap::Pipelined(id, _) => is_own_question(core, *id),
        _ => true,
    }
}

fn have_questions(core: &Core, table: &[Cap]) -> bool
    ensures { result ≡ list_all (has_question (state_of core.now)) table.now }
{
    for cap in table {
        if !has_question(core, cap) {
            return false;
        }
    }
    true
}

fn has_promise(core: &Core, cap: &Cap) -> bool
    ensures { result ≡ has_promise (state_of core.now) cap.now }
{
    match cap {
        Cap::Promise(id) => core.values.values().promise(*id).is_some(),
        _ => true,
    }
}

fn have_promises(core: &Core, table: &[Cap]) -> bool
    ensures { result ≡ list_all (has_promise (state_of core.now)) table.now }
{
    for cap in table {
        if !has_promise(core, cap) {
            return false;
        }
    }
    true
}

fn names_local_path(core: &Core, table: &[Cap]) -> bool
    ensures { result ≡ list_any (is_local_path (state_of core.now)) table.now }
{
    for cap in table {
        if is_local_path(core, cap) {
            return true;
        }
    }
    false
}

/// Whether it is a path of an open local question, which the peer doesn't know.
fn is_local_path(core: &Core, cap: &Cap) -> bool
    ensures { result ≡ is_local_path (state_of core.now) cap.now }
{
    let Cap::Pipelined(id, _) = cap else {
        return false;
    };
    match core.values.values().question(*id) {
        Some(question) => question.kind == QuestionKind::Local && question.outcome.is_none(),
        None => false,
    }
}

fn has_import(core: &Core, cap: &Cap) -> bool
    ensures { result ≡ has_import (state_of core.now) cap.now }
{
    match cap {
        Cap::Import(id) => core.imports.get(*id).is_some(),
        _ => true,
    }
}

fn have_imports(core: &Core, table: &[Cap]) -> bool
    ensures { result ≡ list_all (has_import (state_of core.now)) table.now }
{
    for cap in table {
        if !has_import(core, cap) {
            return false;
        }
    }
    true
}

fn caps_of(outcome: &Outcome) -> &[Cap]
    ensures { result.now ≡ caps_of outcome.now }
{
    match outcome {
        Outcome::Results { caps, .. } => caps.caps(),
        Outcome::Failed(_) | Outcome::Canceled => &[],
    }
}

/// Whether a call was delivered here and isn't answered.
fn awaits(core: &Core, origin: Origin) -> bool
    ensures { result ≡ awaits (state_of core.now) origin }
{
    match origin {
        Origin::Answer(id) => match core.answers.get(id) {
            Some(answer) => answer.kept.is_delivered && answer.stage != Stage::Returned,
            None => false,
        },
        Origin::Own(id) => match core.questions.get(id) {
            Some(question) => question.kept.is_delivered && question.stage != Stage::Returned,
            None => false,
        },
    }
}

/// Whether a table names a question's path.
fn names_path(table: &[Cap]) -> bool
    ensures { result ≡ list_any is_pipelined table.now }
{
    for cap in table {
        if let Cap::Pipelined(_, _) = cap {
            return true;
        }
    }
    false
}
