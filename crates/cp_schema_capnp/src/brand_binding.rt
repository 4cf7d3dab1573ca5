//! `brand_binding` of schema.capnp.

ghost use Rattle.std.specs.Prelude.{◌≡◌};
ghost use Rattle.cp_words.specs.declared.pointer.ElementSize.TheVariants as sizes;
ghost use Rattle.cp_tree.specs.Seen.{pointee_of};
ghost use Rattle.cp_fields.specs.Numbers.{plain};
ghost use Rattle.cp_fields.specs.Pointers.{Reads, struct_field};
ghost use Rattle.cp_schema_capnp.specs.BrandBinding.{brand_binding_which_of};

use crate::type_::TypeReader;
use cp_fields::{Element, StructReader, UnknownEnumerant, WrongKind};

/// `struct Brand.Binding`.
#[derive(Drop)]
pub struct BrandBindingReader<'a> {
    /// The struct, by the places of its fields.
    pub body: StructReader<'a>,
}

impl<'a> Element<'a> for BrandBindingReader<'a> {
    ghost SIZE = { sizes.Composite };

    ghost read = { λ t. record { body = t } };

    fn size() -> cp_words::ElementSize
        ensures { result ≡ sizes.Composite }
    {
        cp_words::ElementSize::Composite
    }

    fn of_element(item: StructReader<'a>) -> BrandBindingReader<'a> {
        BrandBindingReader { body: item }
    }
}

impl<'a> BrandBindingReader<'a> {
    /// Which member of the union is set.
    pub fn which(&self) -> BrandBindingWhich
        ensures { result ≡ brand_binding_which_of (plain self.now.body 16 0) }
    {
        BrandBindingWhich::of(self.body.u16(0))
    }

    /// `type @1`.
    pub fn type_(&self) -> Result<TypeReader<'a>, WrongKind>
        ensures { Reads result (λ x. x.body) (struct_field (pointee_of self.now.body 0)) }
    {
        Ok(TypeReader {
            body: self.body.structure(0)?,
        })
    }
}

/// The members of the union of `Brand.Binding`.
#[derive(Clone, Copy, PartialEq, Eq)]
pub enum BrandBindingWhich {
    Unbound,
    Type,
    /// A number that a newer schema has.
    Unknown(UnknownEnumerant<1>),
}

impl BrandBindingWhich {
    /// The value of this number.
    pub fn of(number: u16) -> BrandBindingWhich
        ensures { result ≡ brand_binding_which_of number }
    {
        match number {
            0 => BrandBindingWhich::Unbound,
            1 => BrandBindingWhich::Type,
            _ => match UnknownEnumerant::new(number) {
                Some(number) => BrandBindingWhich::Unknown(number),
                None => unreachable!(),
            },
        }
    }
}
