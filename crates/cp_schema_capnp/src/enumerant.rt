//! `enumerant` of schema.capnp.

ghost use Rattle.std.specs.Prelude.{◌≡◌, []};
ghost use Rattle.cp_words.specs.declared.pointer.ElementSize.TheVariants as sizes;
ghost use Rattle.cp_tree.specs.Seen.{pointee_of};
ghost use Rattle.cp_fields.specs.Pointers.{list_field, text_field};

use crate::annotation::AnnotationReader;
use cp_fields::{Element, List, StructReader, TextReader, WrongKind};

/// Schema for member of an enum.
#[derive(Drop)]
pub struct EnumerantReader<'a> {
    /// The struct, by the places of its fields.
    pub body: StructReader<'a>,
}

impl<'a> Element<'a> for EnumerantReader<'a> {
    ghost SIZE = { sizes.Composite };

    ghost read = { λ t. record { body = t } };

    fn size() -> cp_words::ElementSize
        ensures { result ≡ sizes.Composite }
    {
        cp_words::ElementSize::Composite
    }

    fn of_element(item: StructReader<'a>) -> EnumerantReader<'a> {
        EnumerantReader { body: item }
    }
}

impl<'a> EnumerantReader<'a> {
    /// `name @0`.
    pub fn name(&self) -> Result<TextReader<'a>, WrongKind>
        ensures { result ≡ text_field [] (pointee_of self.now.body 0) }
    {
        self.body.text(0)
    }

    /// `annotations @2`.
    pub fn annotations(&self) -> Result<List<'a, AnnotationReader<'a>>, WrongKind>
        ensures { result ≡ list_field sizes.Composite (pointee_of self.now.body 1) }
    {
        self.body.list(1)
    }
}
