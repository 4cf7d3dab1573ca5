//! `brand` of schema.capnp.

ghost use Rattle.std.specs.Prelude.{◌≡◌};
ghost use Rattle.cp_words.specs.declared.pointer.ElementSize.TheVariants as sizes;
ghost use Rattle.cp_tree.specs.Seen.{pointee_of};
ghost use Rattle.cp_fields.specs.Pointers.{list_field};

use crate::brand_scope::BrandScopeReader;
use cp_fields::{Element, List, StructReader, WrongKind};

/// Specifies bindings for parameters of generics. Since these bindings turn a generic into a
/// non-generic, we call it the "brand".
#[derive(Drop)]
pub struct BrandReader<'a> {
    /// The struct, by the places of its fields.
    pub body: StructReader<'a>,
}

impl<'a> Element<'a> for BrandReader<'a> {
    ghost SIZE = { sizes.Composite };

    ghost read = { λ t. record { body = t } };

    fn size() -> cp_words::ElementSize
        ensures { result ≡ sizes.Composite }
    {
        cp_words::ElementSize::Composite
    }

    fn of_element(item: StructReader<'a>) -> BrandReader<'a> {
        BrandReader { body: item }
    }
}

impl<'a> BrandReader<'a> {
    /// For each of the target type and each of its parent scopes, a parameterization may be included
    /// in this list. If no parameterization is included for a particular relevant scope, then either
    /// that scope has no parameters or all parameters should be considered to be `AnyPointer`.
    pub fn scopes(&self) -> Result<List<'a, BrandScopeReader<'a>>, WrongKind>
        ensures { result ≡ list_field sizes.Composite (pointee_of self.now.body 0) }
    {
        self.body.list(0)
    }
}
