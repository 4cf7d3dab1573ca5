//! The lines of outcomes.

use crate::fault::CommandFault;
use cp_commands::CallPlan;
use cp_lines::push_outcome_of;
use cp_methods::{ResultsForm, results_line};
use cp_refs::Outcome;
use cp_schema::{MethodNumber, Notation, Schema, json_string};
use cp_words::Limits;
use std::alloc::Global;

/// How outcomes are printed: by the names of a schema, if there is one.
#[derive(Clone, Copy)]
pub(crate) struct OutcomeForm<'a> {
    pub(crate) alloc: Global,
    schema: Option<&'a Schema>,
    notation: Notation,
    limits: Limits,
}

impl<'a> OutcomeForm<'a> {
    /// That of a plan's calls.
    pub(crate) fn new(
        alloc: Global,
        schema: Option<&'a Schema>,
        plan: &CallPlan<'_, '_>,
    ) -> OutcomeForm<'a> {
        OutcomeForm {
            alloc,
            schema,
            notation: plan.notation,
            limits: plan.limits,
        }
    }

    /// The line of what a question came to: by the names of the schema, where there is one that has its method, else by numbers, which
    /// in JSON are a string.
    pub(crate) fn line(
        &self,
        question: u32,
        method: Option<MethodNumber>,
        outcome: &Outcome,
    ) -> Result<String, CommandFault<'static>> {
        let mut plain = String::new(self.alloc);
        push_outcome_of(self.alloc, &mut plain, question, outcome)?;
        match self.named(&plain, method, outcome) {
            Ok(None) => Ok(plain),
            Ok(Some(line)) => {
                drop(plain);
                Ok(line)
            }
            Err(fault) => {
                drop(plain);
                Err(fault)
            }
        }
    }

    /// The line of what a question came to by the names of the schema.
    fn named(
        &self,
        plain: &str,
        method: Option<MethodNumber>,
        outcome: &Outcome,
    ) -> Result<Option<String>, CommandFault<'static>> {
        let Some(schema) = self.schema else {
            return Ok(None);
        };
        let form = ResultsForm {
            schema,
            notation: self.notation,
            limits: self.limits,
        };
        let line = match (method, outcome) {
            (Some(method), Outcome::Results { content, .. }) => {
                results_line(self.alloc, &form, method, plain, content)?
            }
            _ => None,
        };
        match line {
            None if form.notation.is_json() => {
                Ok(Some(json_string(self.alloc, schema, plain.trim_end_matches('\n'))?))
            }
            line => Ok(line),
        }
    }
}
