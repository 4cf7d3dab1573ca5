//! Commands on a file by a schema: messages and texts by its names.

use crate::asked::Asked;
use crate::files::{Work, failed, on_file, schema_at};
use crate::names::Names;
use crate::plan::Plan;
use crate::status::{BROKEN, REFUSED};
use crate::task::{EncodePlan, ShowPlan};
use crate::texts::Encoding;
use cp_encoder::{Encoder, nearest_types};
use cp_schema::{Decoder, Schema};
use std::{fs, io};

/// Shows the messages of a file: as structs, where one is named, or by the methods that they call and return from.
pub(crate) fn show_by(rt: &HostRuntime, plan: &ShowPlan<'_>) -> io::Result<u8> {
    match (schema_at(rt, plan.request), plan.name) {
        (Ok(schema), Some(name)) => {
            let status = show_structs(rt, plan, &schema, name);
            drop(schema);
            status
        }
        (Ok(schema), None) => show_calls(rt, plan, schema),
        (Err(status), _) => Ok(status),
    }
}

/// Writes the frames of a file's texts.
pub(crate) fn encode_by(rt: &HostRuntime, plan: &EncodePlan<'_>) -> io::Result<u8> {
    match schema_at(rt, plan.request) {
        Ok(schema) => {
            let status = encode_texts(rt, plan, &schema);
            drop(schema);
            status
        }
        Err(status) => Ok(status),
    }
}

/// Shows the messages of a file as structs of this name.
fn show_structs(
    rt: &HostRuntime,
    plan: &ShowPlan<'_>,
    schema: &Schema,
    name: &str,
) -> io::Result<u8> {
    match structs_plan(plan, schema, name) {
        Some(show) => on_file(rt, Work::Frames(&show), plan.input),
        None => {
            let _ = eprintln!(rt; "{}: it has no struct {name}", plan.request);
            Ok(BROKEN)
        }
    }
}

/// How messages are shown as structs of this name, if the schema has it.
fn structs_plan<'s>(plan: &ShowPlan<'_>, schema: &'s Schema, name: &str) -> Option<Plan<'s>> {
    let decoder = Decoder::by_name(schema, name)?.written_as(plan.notation);
    Some(Plan::Decode {
        mode: plan.mode,
        limits: plan.limits,
        decoder,
    })
}

/// Shows the messages of a file by the names of methods.
fn show_calls(rt: &HostRuntime, plan: &ShowPlan<'_>, schema: Schema) -> io::Result<u8> {
    match asked_by(rt, plan) {
        Ok(asked) => {
            let names = Names { schema, asked };
            let status = show_named(rt, plan, &names);
            drop(names);
            status
        }
        Err(status) => {
            drop(schema);
            Ok(status)
        }
    }
}

/// Shows the messages of a file by these names.
fn show_named(rt: &HostRuntime, plan: &ShowPlan<'_>, names: &Names) -> io::Result<u8> {
    match names_plan(plan, names) {
        Some(show) => on_file(rt, Work::Frames(&show), plan.input),
        None => Ok(BROKEN),
    }
}

// It is an `Option` as `structs_plan` is: rattle's borrow checker doesn't cover a plan that is made where it is lent.

/// How messages are shown by these names.
fn names_plan<'s>(plan: &ShowPlan<'_>, names: &'s Names) -> Option<Plan<'s>> {
    Some(Plan::Name {
        mode: plan.mode,
        limits: plan.limits,
        names,
    })
}

/// The questions of the other direction, if its file is given, or the status after they couldn't be had, which a line says.
fn asked_by(rt: &HostRuntime, plan: &ShowPlan<'_>) -> Result<Option<Asked>, u8> {
    let Some(path) = plan.calls else {
        return Ok(None);
    };
    let bytes = match fs::read(rt, path) {
        Ok(bytes) => bytes,
        Err(error) => return Err(failed(rt, path, error)),
    };
    let asked = Asked::read(rt.alloc(), &bytes, plan.mode, plan.limits);
    drop(bytes);
    match asked {
        Ok(asked) => Ok(Some(asked)),
        Err(refusal) => {
            let _ = eprintln!(rt; "{path}: {refusal}");
            Err(REFUSED)
        }
    }
}

/// Writes the frames of a file's texts by a schema.
fn encode_texts(rt: &HostRuntime, plan: &EncodePlan<'_>, schema: &Schema) -> io::Result<u8> {
    match encoding_of(plan, schema) {
        Some(by) => on_file(rt, Work::Texts(&by), plan.input),
        None => no_struct(rt, plan, schema),
    }
}

/// The status after a schema has no such struct, which a line says, and which it has.
fn no_struct(rt: &HostRuntime, plan: &EncodePlan<'_>, schema: &Schema) -> io::Result<u8> {
    let wanted = nearest_types(rt.alloc(), schema, plan.name)?;
    let _ = eprintln!(rt;
        "{}: it has no struct {}: wanted {wanted}",
        plan.request, plan.name
    );
    drop(wanted);
    Ok(BROKEN)
}

/// By what texts are read, if the schema has such a struct.
fn encoding_of<'s>(plan: &EncodePlan<'_>, schema: &'s Schema) -> Option<Encoding<'s>> {
    let encoder = Encoder::by_name(schema, plan.name)?.written_as(plan.notation);
    let mode = plan.mode;
    Some(Encoding { encoder, mode })
}
