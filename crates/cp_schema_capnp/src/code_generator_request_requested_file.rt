//! `code_generator_request_requested_file` of schema.capnp.

ghost use Rattle.std.specs.Prelude.{◌≡◌};
ghost use Rattle.cp_words.specs.declared.pointer.ElementSize.TheVariants as sizes;
ghost use Rattle.cp_tree.specs.Seen.{pointee_of};
ghost use Rattle.cp_fields.specs.Numbers.{plain};
ghost use Rattle.cp_fields.specs.Pointers.{list_field};

use crate::code_generator_request_requested_file_import::CodeGeneratorRequestRequestedFileImportReader;
use cp_fields::{Element, List, StructReader, WrongKind};

/// `struct CodeGeneratorRequest.RequestedFile`.
#[derive(Drop)]
pub struct CodeGeneratorRequestRequestedFileReader<'a> {
    /// The struct, by the places of its fields.
    pub body: StructReader<'a>,
}

impl<'a> Element<'a> for CodeGeneratorRequestRequestedFileReader<'a> {
    ghost SIZE = { sizes.Composite };

    ghost read = { λ t. record { body = t } };

    fn size() -> cp_words::ElementSize
        ensures { result ≡ sizes.Composite }
    {
        cp_words::ElementSize::Composite
    }

    fn of_element(item: StructReader<'a>) -> CodeGeneratorRequestRequestedFileReader<'a> {
        CodeGeneratorRequestRequestedFileReader { body: item }
    }
}

impl<'a> CodeGeneratorRequestRequestedFileReader<'a> {
    /// ID of the file.
    pub fn id(&self) -> u64
        ensures { result ≡ plain self.now.body 64 0 }
    {
        self.body.u64(0)
    }

    /// List of all imported paths seen in this file.
    pub fn imports(
        &self,
    ) -> Result<List<'a, CodeGeneratorRequestRequestedFileImportReader<'a>>, WrongKind>
        ensures { result ≡ list_field sizes.Composite (pointee_of self.now.body 1) }
    {
        self.body.list(1)
    }
}
