//! `brand_scope` of schema.capnp.

ghost use Rattle.std.specs.Prelude.{◌≡◌};
ghost use Rattle.cp_words.specs.declared.pointer.ElementSize.TheVariants as sizes;
ghost use Rattle.cp_tree.specs.Seen.{pointee_of};
ghost use Rattle.cp_fields.specs.Numbers.{plain};
ghost use Rattle.cp_fields.specs.Pointers.{list_field};
ghost use Rattle.cp_schema_capnp.specs.BrandScope.{brand_scope_which_of};

use crate::brand_binding::BrandBindingReader;
use cp_fields::{Element, List, StructReader, UnknownEnumerant, WrongKind};

/// `struct Brand.Scope`.
#[derive(Drop)]
pub struct BrandScopeReader<'a> {
    /// The struct, by the places of its fields.
    pub body: StructReader<'a>,
}

impl<'a> Element<'a> for BrandScopeReader<'a> {
    ghost SIZE = { sizes.Composite };

    ghost read = { λ t. record { body = t } };

    fn size() -> cp_words::ElementSize
        ensures { result ≡ sizes.Composite }
    {
        cp_words::ElementSize::Composite
    }

    fn of_element(item: StructReader<'a>) -> BrandScopeReader<'a> {
        BrandScopeReader { body: item }
    }
}

impl<'a> BrandScopeReader<'a> {
    /// Which member of the union is set.
    pub fn which(&self) -> BrandScopeWhich
        ensures { result ≡ brand_scope_which_of (plain self.now.body 16 4) }
    {
        BrandScopeWhich::of(self.body.u16(4))
    }

    /// ID of the scope to which these params apply.
    pub fn scope_id(&self) -> u64
        ensures { result ≡ plain self.now.body 64 0 }
    {
        self.body.u64(0)
    }

    /// List of parameter bindings.
    pub fn bind(&self) -> Result<List<'a, BrandBindingReader<'a>>, WrongKind>
        ensures { result ≡ list_field sizes.Composite (pointee_of self.now.body 0) }
    {
        self.body.list(0)
    }
}

/// The members of the union of `Brand.Scope`.
#[derive(Clone, Copy, PartialEq, Eq)]
pub enum BrandScopeWhich {
    Bind,
    Inherit,
    /// A number that a newer schema has.
    Unknown(UnknownEnumerant<1>),
}

impl BrandScopeWhich {
    /// The value of this number.
    pub fn of(number: u16) -> BrandScopeWhich
        ensures { result ≡ brand_scope_which_of number }
    {
        match number {
            0 => BrandScopeWhich::Bind,
            1 => BrandScopeWhich::Inherit,
            _ => match UnknownEnumerant::new(number) {
                Some(number) => BrandScopeWhich::Unknown(number),
                None => unreachable!(),
            },
        }
    }
}
