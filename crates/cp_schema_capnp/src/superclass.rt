//! `superclass` of schema.capnp.

ghost use Rattle.std.specs.Prelude.{◌≡◌};
ghost use Rattle.cp_words.specs.declared.pointer.ElementSize.TheVariants as sizes;
ghost use Rattle.cp_fields.specs.Numbers.{plain};

use cp_fields::{Element, StructReader};

/// `struct Superclass`.
#[derive(Drop)]
pub struct SuperclassReader<'a> {
    /// The struct, by the places of its fields.
    pub body: StructReader<'a>,
}

impl<'a> Element<'a> for SuperclassReader<'a> {
    ghost SIZE = { sizes.Composite };

    ghost read = { λ t. record { body = t } };

    fn size() -> cp_words::ElementSize
        ensures { result ≡ sizes.Composite }
    {
        cp_words::ElementSize::Composite
    }

    fn of_element(item: StructReader<'a>) -> SuperclassReader<'a> {
        SuperclassReader { body: item }
    }
}

impl<'a> SuperclassReader<'a> {
    /// `id @0`.
    pub fn id(&self) -> u64
        ensures { result ≡ plain self.now.body 64 0 }
    {
        self.body.u64(0)
    }
}
