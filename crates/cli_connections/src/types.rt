//! The methods and the types of a schema, printed.

use cp_commands::{ACCEPTED, BROKEN, TypesPlan, failed, schema_at};
use cp_methods::{describe, list_methods, nearest_names, type_named};
use cp_schema::Schema;
use std::alloc::AllocError;
use std::io::{self, Write};

/// Prints the methods of a schema, or a type of it. The status is 2 where it has no such type, which a line says.
pub fn print_types(rt: &HostRuntime, plan: &TypesPlan) -> u8 {
    match schema_at(rt, plan.request) {
        Ok(schema) => {
            let status = print_of(rt, plan, &schema);
            drop(schema);
            status.unwrap_or_else(|error| failed(rt, plan.request, error))
        }
        Err(status) => status,
    }
}

/// Prints the methods of a schema, or a type of it.
fn print_of(rt: &HostRuntime, plan: &TypesPlan, schema: &Schema) -> io::Result<u8> {
    let Some(name) = plan.name else {
        return print_lines(rt, list_methods(rt.alloc(), schema));
    };
    match type_named(schema, name) {
        Some(node) => print_lines(rt, describe(rt.alloc(), schema, node)),
        None => {
            let wanted = nearest_names(rt.alloc(), schema, name)?;
            let _ = eprintln!(rt; "{}: it has no type {name}: wanted {wanted}", plan.request);
            drop(wanted);
            Ok(BROKEN)
        }
    }
}

/// Prints lines, if there was memory for them.
fn print_lines(rt: &HostRuntime, lines: Result<String, AllocError>) -> io::Result<u8> {
    let lines = lines?;
    let mut out = io::writer(rt);
    let done = out.write_all(lines.as_bytes());
    drop(lines);
    done?;
    out.flush()?;
    Ok(ACCEPTED)
}
