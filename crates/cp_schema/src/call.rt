//! Calls and what they return, by the names of their methods.

use crate::decoder::{DecodeFault, Decoder};
use crate::line::Line;
use crate::node::{Method, NodeKind, Schema};
use crate::notation::Notation;
use cp_reading::View;
use std::alloc::Global;

/// A method by its numbers: that of its interface, and its own there.
#[derive(Clone, Copy)]
pub struct MethodNumber {
    pub interface: u64,
    pub method: u16,
}

/// A method that a schema has.
#[derive(Clone, Copy)]
struct Named<'s> {
    schema: &'s Schema,
    /// The name of its interface.
    interface: &'s str,
    method: &'s Method,
}

/// The line of a call whose line by numbers is `plain`, with the names of its interface and its method, and its params
/// by their struct. `None`: the schema has no such method, or the params aren't as it says.
pub fn call_line(
    alloc: Global,
    schema: &Schema,
    number: MethodNumber,
    plain: &str,
    params: View<'_>,
) -> Result<Option<String>, DecodeFault> {
    match Named::find(schema, number) {
        Some(named) => named.line(alloc, plain, " i=", named.params(), params),
        None => Ok(None),
    }
}

/// The line of a Return with results whose line by numbers is `plain`, likewise, where this method was called.
pub fn return_line(
    alloc: Global,
    schema: &Schema,
    number: MethodNumber,
    plain: &str,
    results: View<'_>,
) -> Result<Option<String>, DecodeFault> {
    match Named::find(schema, number) {
        Some(named) => named.line(alloc, plain, " {", named.results(), results),
        None => Ok(None),
    }
}

/// Results of this method as JSON by their struct, with a line feed. `None`: the schema has no such method, or the results
/// aren't as it says.
pub fn results_json(
    alloc: Global,
    schema: &Schema,
    number: MethodNumber,
    is_pretty: bool,
    results: View<'_>,
) -> Result<Option<String>, DecodeFault> {
    let Some(named) = Named::find(schema, number) else {
        return Ok(None);
    };
    let Some(decoder) = named.results() else {
        return Ok(None);
    };
    let decoder = decoder.written_as(Notation::Json { is_pretty });
    let mut line = decoder.line_after(alloc, String::new(alloc));
    decoder.put(&mut line, results);
    right(line.done())
}

/// A text as JSON, with a line feed.
pub fn json_string(alloc: Global, schema: &Schema, text: &str) -> Result<String, DecodeFault> {
    let notation = Notation::Json { is_pretty: false };
    let mut line = Line::after(alloc, String::new(alloc), schema, notation);
    line.characters(text);
    line.done()
}

impl<'s> Named<'s> {
    /// The method of this number, if a schema has it.
    fn find(schema: &'s Schema, number: MethodNumber) -> Option<Named<'s>> {
        let node = schema.find(number.interface)?;
        match &node.kind {
            NodeKind::Interface(of) => Some(Named {
                schema,
                interface: node.name(),
                method: of.methods.get(number.method as usize)?,
            }),
            _ => None,
        }
    }

    /// By what its params are shown, if the schema has their struct.
    fn params(&self) -> Option<Decoder<'s>> {
        Decoder::by_number(self.schema, self.method.params, &self.method.params_brand)
    }

    /// By what its results are shown, if the schema has their struct.
    fn results(&self) -> Option<Decoder<'s>> {
        Decoder::by_number(self.schema, self.method.results, &self.method.results_brand)
    }

    /// The line `plain` up to `mark`, the names, the content, and the capabilities of `plain`.
    fn line(
        &self,
        alloc: Global,
        plain: &str,
        mark: &str,
        decoder: Option<Decoder<'s>>,
        content: View<'_>,
    ) -> Result<Option<String>, DecodeFault> {
        let Some(decoder) = decoder else {
            return Ok(None);
        };
        let mut line = decoder.line_after(alloc, String::new(alloc));
        line.put(before(plain, mark));
        line.push(' ');
        line.put(self.interface);
        line.push('.');
        line.put(self.method.name.as_str());
        line.push(' ');
        decoder.put(&mut line, content);
        let caps = caps_of(plain);
        if caps != "]" {
            line.put(" caps[");
            line.put(caps);
        }
        right(line.done())
    }
}

/// A line, if what it shows is as the schema says.
fn right(line: Result<String, DecodeFault>) -> Result<Option<String>, DecodeFault> {
    match line {
        Ok(text) => Ok(Some(text)),
        Err(DecodeFault::OutOfMemory) => Err(DecodeFault::OutOfMemory),
        Err(_) => Ok(None),
    }
}

/// What stands in a line before the first `mark`.
fn before<'t>(plain: &'t str, mark: &str) -> &'t str {
    match plain.split_once(mark) {
        Some((before, _)) => before,
        None => plain,
    }
}

/// The capabilities of a payload, as they stand at the end of its line.
fn caps_of(plain: &str) -> &str {
    match plain.rsplit_once(" caps[") {
        Some((_, caps)) => caps.strip_suffix("}\n").unwrap_or(caps),
        None => "]",
    }
}
