//! What calls came to, by the names of a schema.

use cp_reading::View;
use cp_schema::{DecodeFault, MethodNumber, Notation, Schema, results_json, return_line};
use cp_tree::{Tree, Whole};
use cp_words::{Limits, Segments};
use cp_writing::write_root;
use std::alloc::Global;

/// The pointer to a struct of size zero.
const EMPTY: u64 = 0xffff_fffc;

/// How results are printed: by the names of a schema, in a notation, within limits.
#[derive(Clone, Copy)]
pub struct ResultsForm<'s> {
    pub schema: &'s Schema,
    pub notation: Notation,
    pub limits: Limits,
}

/// The line of results whose line by numbers is `plain`, with the name of their method, and their fields by its struct of
/// results; in JSON the fields alone. `None`: the schema has no such method, or the results aren't as it says.
pub fn results_line(
    alloc: Global,
    form: &ResultsForm<'_>,
    number: MethodNumber,
    plain: &str,
    results: &Whole,
) -> Result<Option<String>, DecodeFault> {
    let limits = form.limits;
    let Ok(copy) = results.copy(alloc) else {
        return Err(DecodeFault::OutOfMemory);
    };
    let Some(segments) = segments_of(alloc, copy, limits) else {
        return Ok(None);
    };
    let line = match View::root(&segments, limits) {
        Ok(view) => form.line(alloc, number, plain, view),
        Err(_) => Ok(None),
    };
    drop(segments);
    line
}

impl ResultsForm<'_> {
    /// The same of their view.
    fn line(
        &self,
        alloc: Global,
        number: MethodNumber,
        plain: &str,
        results: View<'_>,
    ) -> Result<Option<String>, DecodeFault> {
        match self.notation {
            Notation::Text => return_line(alloc, self.schema, number, plain, results),
            Notation::Json { is_pretty } => {
                results_json(alloc, self.schema, number, is_pretty, results)
            }
        }
    }
}

/// A struct in one segment. A null pointer stands for one whose fields have their defaults.
fn segments_of(alloc: Global, tree: Whole, limits: Limits) -> Option<Segments> {
    let object = match tree.into_object() {
        Ok(object) => object,
        Err(tree) => {
            let is_null = matches!(tree.tree(), Tree::Null);
            drop(tree);
            return if is_null { empty(alloc) } else { None };
        }
    };
    let words = write_root(alloc, &object, limits);
    drop(object);
    match words {
        Ok(words) => Some(Segments::one(words)),
        Err(_) => None,
    }
}

/// A struct of size zero.
fn empty(alloc: Global) -> Option<Segments> {
    match vec![in alloc; EMPTY; 1] {
        Ok(words) => Some(Segments::one(words)),
        Err(_) => None,
    }
}
