//! `annotation` of schema.capnp.

ghost use Rattle.std.specs.Prelude.{◌≡◌};
ghost use Rattle.cp_words.specs.declared.pointer.ElementSize.TheVariants as sizes;
ghost use Rattle.cp_tree.specs.Seen.{pointee_of};
ghost use Rattle.cp_fields.specs.Numbers.{plain};
ghost use Rattle.cp_fields.specs.Pointers.{Reads, struct_field};

use crate::value::ValueReader;
use cp_fields::{Element, StructReader, WrongKind};

/// Describes an annotation applied to a declaration.  Note AnnotationNode describes the
/// annotation's declaration, while this describes a use of the annotation.
#[derive(Drop)]
pub struct AnnotationReader<'a> {
    /// The struct, by the places of its fields.
    pub body: StructReader<'a>,
}

impl<'a> Element<'a> for AnnotationReader<'a> {
    ghost SIZE = { sizes.Composite };

    ghost read = { λ t. record { body = t } };

    fn size() -> cp_words::ElementSize
        ensures { result ≡ sizes.Composite }
    {
        cp_words::ElementSize::Composite
    }

    fn of_element(item: StructReader<'a>) -> AnnotationReader<'a> {
        AnnotationReader { body: item }
    }
}

impl<'a> AnnotationReader<'a> {
    /// ID of the annotation node.
    pub fn id(&self) -> u64
        ensures { result ≡ plain self.now.body 64 0 }
    {
        self.body.u64(0)
    }

    /// `value @1`.
    pub fn value(&self) -> Result<ValueReader<'a>, WrongKind>
        ensures { Reads result (λ x. x.body) (struct_field (pointee_of self.now.body 0)) }
    {
        Ok(ValueReader {
            body: self.body.structure(0)?,
        })
    }
}
