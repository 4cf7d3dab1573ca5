//! Structs without fields, as params and results may be; those of methods with `-> stream` are.

ghost use Rattle.std.specs.Prelude.{◌≡◌, IfOk};
ghost use Rattle.cp_interfaces.specs.Tables.{none_named};
ghost use Rattle.cp_builder.specs.Drafts.{blank};

use crate::cap_table_builder::CapTableBuilder;
use crate::results::Results;
use crate::typed_pipeline::{Lends, TypedPipeline};
use cp_builder::StructBuilder;
use cp_fields::StructReader;
use cp_tree::Whole;
use std::alloc::{AllocError, Global};

/// A struct without fields.
#[derive(Drop)]
pub struct NoFieldsReader<'a> {
    /// The struct; a newer schema may have fields of it.
    pub body: StructReader<'a>,
}

/// A struct without fields, to be written.
#[derive(Drop)]
pub struct NoFieldsBuilder {
    pub body: StructBuilder<0, 0>,
}

impl NoFieldsBuilder {
    /// The struct without fields.
    pub fn new(alloc: Global) -> Result<NoFieldsBuilder, AllocError>
        ensures { IfOk result (λ d. d.body ≡ blank 0 0) }
    {
        Ok(NoFieldsBuilder {
            body: StructBuilder::new(alloc)?,
        })
    }
}

impl Results for NoFieldsBuilder {
    ghost content = { λ d. d.body };

    ghost names = { λ d. none_named };

    fn into_parts(self, alloc: Global) -> (Whole, CapTableBuilder) {
        (self.body.into_whole(), CapTableBuilder::new(alloc))
    }
}

impl<'a> Lends<'a> for NoFieldsBuilder {
    type Reader = NoFieldsReader<'a>;

    ghost read = { λ x. x.body };

    fn reader(body: StructReader<'a>) -> NoFieldsReader<'a> {
        NoFieldsReader { body }
    }
}

/// A struct without fields, as a question will give it.
pub type NoFieldsPipeline = TypedPipeline<NoFieldsBuilder>;
