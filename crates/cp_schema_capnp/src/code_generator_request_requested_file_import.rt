//! `code_generator_request_requested_file_import` of schema.capnp.

ghost use Rattle.std.specs.Prelude.{◌≡◌};
ghost use Rattle.cp_words.specs.declared.pointer.ElementSize.TheVariants as sizes;
ghost use Rattle.cp_fields.specs.Numbers.{plain};

use cp_fields::{Element, StructReader};

/// `struct CodeGeneratorRequest.RequestedFile.Import`.
#[derive(Drop)]
pub struct CodeGeneratorRequestRequestedFileImportReader<'a> {
    /// The struct, by the places of its fields.
    pub body: StructReader<'a>,
}

impl<'a> Element<'a> for CodeGeneratorRequestRequestedFileImportReader<'a> {
    ghost SIZE = { sizes.Composite };

    ghost read = { λ t. record { body = t } };

    fn size() -> cp_words::ElementSize
        ensures { result ≡ sizes.Composite }
    {
        cp_words::ElementSize::Composite
    }

    fn of_element(item: StructReader<'a>) -> CodeGeneratorRequestRequestedFileImportReader<'a> {
        CodeGeneratorRequestRequestedFileImportReader { body: item }
    }
}

impl<'a> CodeGeneratorRequestRequestedFileImportReader<'a> {
    /// ID of the imported file.
    pub fn id(&self) -> u64
        ensures { result ≡ plain self.now.body 64 0 }
    {
        self.body.u64(0)
    }
}
