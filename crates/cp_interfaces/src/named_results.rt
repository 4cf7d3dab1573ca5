//! Results whose struct has a name in its schema.

ghost use Rattle.std.specs.Prelude.{◌≡◌};
ghost use Rattle.cp_interfaces.specs.Tables.{none_named};

use crate::cap_table_builder::CapTableBuilder;
use crate::results::Results;
use cp_tree::Whole;
use std::alloc::Global;

/// Results whose struct has a name in its schema. It may be a part of others, which name capabilities by one table, so it has none
/// of its own.
#[derive(Drop)]
pub struct NamedResults<R> {
    pub content: R,
    /// The capabilities that the struct names.
    pub table: CapTableBuilder,
}

impl<R> NamedResults<R> {
    /// Results that name no capability yet.
    pub fn new(alloc: Global, content: R) -> NamedResults<R>
        ensures { result ≡ record { content = content; table = none_named } }
    {
        NamedResults {
            content,
            table: CapTableBuilder::new(alloc),
        }
    }
}

impl<R: Results> Results for NamedResults<R> {
    ghost content = { λ r. R.content r.content };

    ghost names = { λ r. r.table };

    fn into_parts(self, alloc: Global) -> (Whole, CapTableBuilder) {
        // Its own table has what the struct names.
        let (content, _) = self.content.into_parts(alloc);
        (content, self.table)
    }
}
