//! `code_generator_request` of schema.capnp.

ghost use Rattle.std.specs.Prelude.{◌≡◌};
ghost use Rattle.cp_words.specs.declared.pointer.ElementSize.TheVariants as sizes;
ghost use Rattle.cp_tree.specs.Seen.{pointee_of};
ghost use Rattle.cp_fields.specs.Pointers.{Reads, list_field, struct_field};

use crate::code_generator_request_requested_file::CodeGeneratorRequestRequestedFileReader;
use crate::node::NodeReader;
use crate::node_source_info::NodeSourceInfoReader;
use cp_fields::{Element, List, PointerReader, StructReader, WrongKind};

/// `struct CodeGeneratorRequest`.
#[derive(Drop)]
pub struct CodeGeneratorRequestReader<'a> {
    /// The struct, by the places of its fields.
    pub body: StructReader<'a>,
}

impl<'a> Element<'a> for CodeGeneratorRequestReader<'a> {
    ghost SIZE = { sizes.Composite };

    ghost read = { λ t. record { body = t } };

    fn size() -> cp_words::ElementSize
        ensures { result ≡ sizes.Composite }
    {
        cp_words::ElementSize::Composite
    }

    fn of_element(item: StructReader<'a>) -> CodeGeneratorRequestReader<'a> {
        CodeGeneratorRequestReader { body: item }
    }
}

impl<'a> CodeGeneratorRequestReader<'a> {
    /// The struct that a pointer stands for; null is the struct whose fields are all as by default.
    pub fn of(at: PointerReader<'a>) -> Result<CodeGeneratorRequestReader<'a>, WrongKind>
        ensures { Reads result (λ x. x.body) (struct_field at.entry) }
    {
        Ok(CodeGeneratorRequestReader {
            body: StructReader::of(at)?,
        })
    }

    /// All nodes parsed by the compiler, including for the files on the command line and their
    /// imports.
    pub fn nodes(&self) -> Result<List<'a, NodeReader<'a>>, WrongKind>
        ensures { result ≡ list_field sizes.Composite (pointee_of self.now.body 0) }
    {
        self.body.list(0)
    }

    /// Files which were listed on the command line.
    pub fn requested_files(
        &self,
    ) -> Result<List<'a, CodeGeneratorRequestRequestedFileReader<'a>>, WrongKind>
        ensures { result ≡ list_field sizes.Composite (pointee_of self.now.body 1) }
    {
        self.body.list(1)
    }

    /// Information about the original source code for each node, where available. This array may be
    /// omitted or may be missing some nodes if no info is available for them.
    pub fn source_info(&self) -> Result<List<'a, NodeSourceInfoReader<'a>>, WrongKind>
        ensures { result ≡ list_field sizes.Composite (pointee_of self.now.body 3) }
    {
        self.body.list(3)
    }
}
