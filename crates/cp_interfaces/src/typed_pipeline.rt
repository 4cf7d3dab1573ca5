//! Results of calls, as questions will give them.

ghost use Rattle.std.specs.Prelude.{◌≡◌};
ghost use Rattle.cp_fields.specs.Pointers.{Reads, struct_field};
ghost use Rattle.cp_tree.specs.Node.{Node};

use crate::payload::ResultPayload;
use crate::pipeline::Pipeline;
use cp_fields::{StructReader, WrongKind};
use std::marker::PhantomData;

/// A struct of a schema, by its builder, as a message lends it.
pub trait Lends<'a> {
    /// What reads it where it lies.
    type Reader: Drop;

    /// The struct that is read.
    ghost read: { Self.Reader → Node };

    /// What reads this struct.
    fn reader(body: StructReader<'a>) -> Self::Reader
        ensures { read result ≡ body.entry };
}

/// Results that a question will give, of which no field can be called before. `B` builds them.
#[derive(Drop)]
pub struct TypedPipeline<B> {
    /// The question, and the path to the struct.
    pub at: Pipeline,
    of: PhantomData<B>,
}

impl<B> TypedPipeline<B> {
    /// What is promised there.
    pub fn of(at: Pipeline) -> TypedPipeline<B>
        ensures { result.at ≡ at }
    {
        TypedPipeline {
            at,
            of: PhantomData,
        }
    }

    /// The number of the question, whose outcome can be waited for.
    pub fn question(&self) -> u32
        ensures { result ≡ self.now.at.question }
    {
        self.at.question()
    }

    /// The results that came.
    pub fn results<'a>(&self, came: &'a ResultPayload) -> Result<B::Reader, WrongKind>
    where
        B: Lends<'a>,
        ensures { Reads result B.read (struct_field came.now.content) }
    {
        Ok(B::reader(came.results()?))
    }
}
