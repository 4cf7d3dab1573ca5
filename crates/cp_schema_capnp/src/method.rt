//! `method` of schema.capnp.

ghost use Rattle.std.specs.Prelude.{◌≡◌, []};
ghost use Rattle.cp_words.specs.declared.pointer.ElementSize.TheVariants as sizes;
ghost use Rattle.cp_tree.specs.Seen.{pointee_of};
ghost use Rattle.cp_fields.specs.Numbers.{plain};
ghost use Rattle.cp_fields.specs.Pointers.{Reads, struct_field, text_field};

use crate::brand::BrandReader;
use cp_fields::{Element, StructReader, TextReader, WrongKind};

/// Schema for method of an interface.
#[derive(Drop)]
pub struct MethodReader<'a> {
    /// The struct, by the places of its fields.
    pub body: StructReader<'a>,
}

impl<'a> Element<'a> for MethodReader<'a> {
    ghost SIZE = { sizes.Composite };

    ghost read = { λ t. record { body = t } };

    fn size() -> cp_words::ElementSize
        ensures { result ≡ sizes.Composite }
    {
        cp_words::ElementSize::Composite
    }

    fn of_element(item: StructReader<'a>) -> MethodReader<'a> {
        MethodReader { body: item }
    }
}

impl<'a> MethodReader<'a> {
    /// `name @0`.
    pub fn name(&self) -> Result<TextReader<'a>, WrongKind>
        ensures { result ≡ text_field [] (pointee_of self.now.body 0) }
    {
        self.body.text(0)
    }

    /// ID of the parameter struct type.  If a named parameter list was specified in the method
    /// declaration (rather than a single struct parameter type) then a corresponding struct type is
    /// auto-generated.  Such an auto-generated type will not be listed in the interface's
    /// `nestedNodes` and its `scopeId` will be zero -- it is completely detached from the namespace.
    /// (Awkwardly, it does of course inherit generic parameters from the method's scope, which makes
    /// this a situation where you can't just climb the scope chain to find where a particular
    /// generic parameter was introduced. Making the `scopeId` zero was a mistake.)
    pub fn param_struct_type(&self) -> u64
        ensures { result ≡ plain self.now.body 64 1 }
    {
        self.body.u64(1)
    }

    /// ID of the return struct type; similar to `paramStructType`.
    pub fn result_struct_type(&self) -> u64
        ensures { result ≡ plain self.now.body 64 2 }
    {
        self.body.u64(2)
    }

    /// Brand of param struct type.
    pub fn param_brand(&self) -> Result<BrandReader<'a>, WrongKind>
        ensures { Reads result (λ x. x.body) (struct_field (pointee_of self.now.body 2)) }
    {
        Ok(BrandReader {
            body: self.body.structure(2)?,
        })
    }

    /// Brand of result struct type.
    pub fn result_brand(&self) -> Result<BrandReader<'a>, WrongKind>
        ensures { Reads result (λ x. x.body) (struct_field (pointee_of self.now.body 3)) }
    {
        Ok(BrandReader {
            body: self.body.structure(3)?,
        })
    }
}
