//! `field` of schema.capnp.

ghost use Rattle.std.specs.Prelude.{◌≡◌, []};
ghost use Rattle.cp_words.specs.declared.pointer.ElementSize.TheVariants as sizes;
ghost use Rattle.cp_tree.specs.Seen.{pointee_of};
ghost use Rattle.cp_fields.specs.Numbers.{flag, plain, uint};
ghost use Rattle.cp_fields.specs.Pointers.{Reads, list_field, struct_field, text_field};
ghost use Rattle.cp_schema_capnp.specs.Field.{field_which_of, field_ordinal_which_of};

use crate::annotation::AnnotationReader;
use crate::type_::TypeReader;
use crate::value::ValueReader;
use cp_fields::{Element, List, StructReader, TextReader, UnknownEnumerant, WrongKind};

/// Schema for a field of a struct.
#[derive(Drop)]
pub struct FieldReader<'a> {
    /// The struct, by the places of its fields.
    pub body: StructReader<'a>,
}

impl<'a> Element<'a> for FieldReader<'a> {
    ghost SIZE = { sizes.Composite };

    ghost read = { λ t. record { body = t } };

    fn size() -> cp_words::ElementSize
        ensures { result ≡ sizes.Composite }
    {
        cp_words::ElementSize::Composite
    }

    fn of_element(item: StructReader<'a>) -> FieldReader<'a> {
        FieldReader { body: item }
    }
}

impl<'a> FieldReader<'a> {
    /// Which member of the union is set.
    pub fn which(&self) -> FieldWhich
        ensures { result ≡ field_which_of (plain self.now.body 16 4) }
    {
        FieldWhich::of(self.body.u16(4))
    }

    /// `name @0`.
    pub fn name(&self) -> Result<TextReader<'a>, WrongKind>
        ensures { result ≡ text_field [] (pointee_of self.now.body 0) }
    {
        self.body.text(0)
    }

    /// `annotations @2`.
    pub fn annotations(&self) -> Result<List<'a, AnnotationReader<'a>>, WrongKind>
        ensures { result ≡ list_field sizes.Composite (pointee_of self.now.body 1) }
    {
        self.body.list(1)
    }

    /// If the field is in a union, this is the value which the union's discriminant should take when
    /// the field is active.  If the field is not in a union, this is 0xffff.
    pub fn discriminant_value(&self) -> u16
        ensures { result ≡ uint self.now.body 16 1 65535 }
    {
        self.body.u16_or(1, 65535)
    }

    /// A regular, non-group, non-fixed-list field.
    pub fn slot(&self) -> FieldSlotReader<'a>
        ensures { result.body ≡ self.now.body }
    {
        FieldSlotReader {
            body: self.body.reborrow(),
        }
    }

    /// A group.
    pub fn group(&self) -> FieldGroupReader<'a>
        ensures { result.body ≡ self.now.body }
    {
        FieldGroupReader {
            body: self.body.reborrow(),
        }
    }

    /// Group `ordinal`.
    pub fn ordinal(&self) -> FieldOrdinalReader<'a>
        ensures { result.body ≡ self.now.body }
    {
        FieldOrdinalReader {
            body: self.body.reborrow(),
        }
    }
}

/// The members of the union of `Field`.
#[derive(Clone, Copy, PartialEq, Eq)]
pub enum FieldWhich {
    Slot,
    Group,
    /// A number that a newer schema has.
    Unknown(UnknownEnumerant<1>),
}

impl FieldWhich {
    /// The value of this number.
    pub fn of(number: u16) -> FieldWhich
        ensures { result ≡ field_which_of number }
    {
        match number {
            0 => FieldWhich::Slot,
            1 => FieldWhich::Group,
            _ => match UnknownEnumerant::new(number) {
                Some(number) => FieldWhich::Unknown(number),
                None => unreachable!(),
            },
        }
    }
}

/// A regular, non-group, non-fixed-list field.
#[derive(Drop)]
pub struct FieldSlotReader<'a> {
    /// The struct, by the places of its fields.
    pub body: StructReader<'a>,
}

impl<'a> FieldSlotReader<'a> {
    /// Offset, in units of the field's size, from the beginning of the section in which the field
    /// resides.  E.g. for a UInt32 field, multiply this by 4 to get the byte offset from the
    /// beginning of the data section.
    pub fn offset(&self) -> u32
        ensures { result ≡ plain self.now.body 32 1 }
    {
        self.body.u32(1)
    }

    /// `type @5`.
    pub fn type_(&self) -> Result<TypeReader<'a>, WrongKind>
        ensures { Reads result (λ x. x.body) (struct_field (pointee_of self.now.body 2)) }
    {
        Ok(TypeReader {
            body: self.body.structure(2)?,
        })
    }

    /// `defaultValue @6`.
    pub fn default_value(&self) -> Result<ValueReader<'a>, WrongKind>
        ensures { Reads result (λ x. x.body) (struct_field (pointee_of self.now.body 3)) }
    {
        Ok(ValueReader {
            body: self.body.structure(3)?,
        })
    }

    /// Whether the default value was specified explicitly.  Non-explicit default values are always
    /// zero or empty values.  Usually, whether the default value was explicit shouldn't matter.
    /// The main use case for this flag is for structs representing method parameters:
    /// explicitly-defaulted parameters may be allowed to be omitted when calling the method.
    pub fn had_explicit_default(&self) -> bool
        ensures { result ≡ flag self.now.body 128 }
    {
        self.body.bit(128)
    }
}

/// A group.
#[derive(Drop)]
pub struct FieldGroupReader<'a> {
    /// The struct, by the places of its fields.
    pub body: StructReader<'a>,
}

impl<'a> FieldGroupReader<'a> {
    /// The ID of the group's node.
    pub fn type_id(&self) -> u64
        ensures { result ≡ plain self.now.body 64 2 }
    {
        self.body.u64(2)
    }
}

/// `group Field.ordinal`.
#[derive(Drop)]
pub struct FieldOrdinalReader<'a> {
    /// The struct, by the places of its fields.
    pub body: StructReader<'a>,
}

impl<'a> FieldOrdinalReader<'a> {
    /// Which member of the union is set.
    pub fn which(&self) -> FieldOrdinalWhich
        ensures { result ≡ field_ordinal_which_of (plain self.now.body 16 5) }
    {
        FieldOrdinalWhich::of(self.body.u16(5))
    }

    /// The original ordinal number given to the field.  You probably should NOT use this; if you need
    /// a numeric identifier for a field, use its position within the field array for its scope.
    /// The ordinal is given here mainly just so that the original schema text can be reproduced given
    /// the compiled version -- i.e. so that `capnp compile -ocapnp` can do its job.
    pub fn explicit(&self) -> u16
        ensures { result ≡ plain self.now.body 16 6 }
    {
        self.body.u16(6)
    }
}

/// The members of the union of `Field.ordinal`.
#[derive(Clone, Copy, PartialEq, Eq)]
pub enum FieldOrdinalWhich {
    Implicit,
    Explicit,
    /// A number that a newer schema has.
    Unknown(UnknownEnumerant<1>),
}

impl FieldOrdinalWhich {
    /// The value of this number.
    pub fn of(number: u16) -> FieldOrdinalWhich
        ensures { result ≡ field_ordinal_which_of number }
    {
        match number {
            0 => FieldOrdinalWhich::Implicit,
            1 => FieldOrdinalWhich::Explicit,
            _ => match UnknownEnumerant::new(number) {
                Some(number) => FieldOrdinalWhich::Unknown(number),
                None => unreachable!(),
            },
        }
    }
}
