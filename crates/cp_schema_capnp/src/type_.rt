//! `type_` of schema.capnp.

ghost use Rattle.std.specs.Prelude.{◌≡◌};
ghost use Rattle.cp_words.specs.declared.pointer.ElementSize.TheVariants as sizes;
ghost use Rattle.cp_tree.specs.Seen.{pointee_of};
ghost use Rattle.cp_fields.specs.Numbers.{plain};
ghost use Rattle.cp_fields.specs.Pointers.{Reads, struct_field};
ghost use Rattle.cp_schema_capnp.specs.Type_.{type_which_of, type_any_pointer_which_of};

use crate::brand::BrandReader;
use cp_fields::{Element, PointerReader, StructReader, UnknownEnumerant, WrongKind};

/// Represents a type expression.
#[derive(Drop)]
pub struct TypeReader<'a> {
    /// The struct, by the places of its fields.
    pub body: StructReader<'a>,
}

impl<'a> Element<'a> for TypeReader<'a> {
    ghost SIZE = { sizes.Composite };

    ghost read = { λ t. record { body = t } };

    fn size() -> cp_words::ElementSize
        ensures { result ≡ sizes.Composite }
    {
        cp_words::ElementSize::Composite
    }

    fn of_element(item: StructReader<'a>) -> TypeReader<'a> {
        TypeReader { body: item }
    }
}

impl<'a> TypeReader<'a> {
    /// Which member of the union is set.
    pub fn which(&self) -> TypeWhich
        ensures { result ≡ type_which_of (plain self.now.body 16 0) }
    {
        TypeWhich::of(self.body.u16(0))
    }

    /// Group `list`.
    pub fn list(&self) -> TypeListReader<'a>
        ensures { result.body ≡ self.now.body }
    {
        TypeListReader {
            body: self.body.reborrow(),
        }
    }

    /// Group `enum`.
    pub fn enum_(&self) -> TypeEnumReader<'a>
        ensures { result.body ≡ self.now.body }
    {
        TypeEnumReader {
            body: self.body.reborrow(),
        }
    }

    /// Group `struct`.
    pub fn struct_(&self) -> TypeStructReader<'a>
        ensures { result.body ≡ self.now.body }
    {
        TypeStructReader {
            body: self.body.reborrow(),
        }
    }

    /// Group `interface`.
    pub fn interface(&self) -> TypeInterfaceReader<'a>
        ensures { result.body ≡ self.now.body }
    {
        TypeInterfaceReader {
            body: self.body.reborrow(),
        }
    }

    /// Group `anyPointer`.
    pub fn any_pointer(&self) -> TypeAnyPointerReader<'a>
        ensures { result.body ≡ self.now.body }
    {
        TypeAnyPointerReader {
            body: self.body.reborrow(),
        }
    }
}

/// The members of the union of `Type`.
#[derive(Clone, Copy, PartialEq, Eq)]
pub enum TypeWhich {
    Void,
    Bool,
    Int8,
    Int16,
    Int32,
    Int64,
    Uint8,
    Uint16,
    Uint32,
    Uint64,
    Float32,
    Float64,
    Text,
    Data,
    List,
    Enum,
    Struct,
    Interface,
    AnyPointer,
    /// A number that a newer schema has.
    Unknown(UnknownEnumerant<18>),
}

impl TypeWhich {
    /// The value of this number.
    pub fn of(number: u16) -> TypeWhich
        ensures { result ≡ type_which_of number }
    {
        match number {
            0 => TypeWhich::Void,
            1 => TypeWhich::Bool,
            2 => TypeWhich::Int8,
            3 => TypeWhich::Int16,
            4 => TypeWhich::Int32,
            5 => TypeWhich::Int64,
            6 => TypeWhich::Uint8,
            7 => TypeWhich::Uint16,
            8 => TypeWhich::Uint32,
            9 => TypeWhich::Uint64,
            10 => TypeWhich::Float32,
            11 => TypeWhich::Float64,
            12 => TypeWhich::Text,
            13 => TypeWhich::Data,
            14 => TypeWhich::List,
            15 => TypeWhich::Enum,
            16 => TypeWhich::Struct,
            17 => TypeWhich::Interface,
            18 => TypeWhich::AnyPointer,
            _ => match UnknownEnumerant::new(number) {
                Some(number) => TypeWhich::Unknown(number),
                None => unreachable!(),
            },
        }
    }
}

/// `group Type.list`.
#[derive(Drop)]
pub struct TypeListReader<'a> {
    /// The struct, by the places of its fields.
    pub body: StructReader<'a>,
}

impl<'a> TypeListReader<'a> {
    /// `elementType @14`.
    pub fn element_type(&self) -> Result<TypeReader<'a>, WrongKind>
        ensures { Reads result (λ x. x.body) (struct_field (pointee_of self.now.body 0)) }
    {
        Ok(TypeReader {
            body: self.body.structure(0)?,
        })
    }
}

/// `group Type.enum`.
#[derive(Drop)]
pub struct TypeEnumReader<'a> {
    /// The struct, by the places of its fields.
    pub body: StructReader<'a>,
}

impl<'a> TypeEnumReader<'a> {
    /// `typeId @15`.
    pub fn type_id(&self) -> u64
        ensures { result ≡ plain self.now.body 64 1 }
    {
        self.body.u64(1)
    }
}

/// `group Type.struct`.
#[derive(Drop)]
pub struct TypeStructReader<'a> {
    /// The struct, by the places of its fields.
    pub body: StructReader<'a>,
}

impl<'a> TypeStructReader<'a> {
    /// `typeId @16`.
    pub fn type_id(&self) -> u64
        ensures { result ≡ plain self.now.body 64 1 }
    {
        self.body.u64(1)
    }

    /// `brand @22`.
    pub fn brand(&self) -> Result<BrandReader<'a>, WrongKind>
        ensures { Reads result (λ x. x.body) (struct_field (pointee_of self.now.body 0)) }
    {
        Ok(BrandReader {
            body: self.body.structure(0)?,
        })
    }
}

/// `group Type.interface`.
#[derive(Drop)]
pub struct TypeInterfaceReader<'a> {
    /// The struct, by the places of its fields.
    pub body: StructReader<'a>,
}

impl<'a> TypeInterfaceReader<'a> {
    /// `typeId @17`.
    pub fn type_id(&self) -> u64
        ensures { result ≡ plain self.now.body 64 1 }
    {
        self.body.u64(1)
    }
}

/// This is actually a reference to a type parameter defined within this scope.
#[derive(Drop)]
pub struct TypeAnyPointerParameterReader<'a> {
    /// The struct, by the places of its fields.
    pub body: StructReader<'a>,
}

impl<'a> TypeAnyPointerParameterReader<'a> {
    /// ID of the generic type whose parameter we're referencing. This should be a parent of the
    /// current scope.
    pub fn scope_id(&self) -> u64
        ensures { result ≡ plain self.now.body 64 2 }
    {
        self.body.u64(2)
    }

    /// Index of the parameter within the generic type's parameter list.
    pub fn parameter_index(&self) -> u16
        ensures { result ≡ plain self.now.body 16 5 }
    {
        self.body.u16(5)
    }
}

/// `group Type.anyPointer`.
#[derive(Drop)]
pub struct TypeAnyPointerReader<'a> {
    /// The struct, by the places of its fields.
    pub body: StructReader<'a>,
}

impl<'a> TypeAnyPointerReader<'a> {
    /// Which member of the union is set.
    pub fn which(&self) -> TypeAnyPointerWhich
        ensures { result ≡ type_any_pointer_which_of (plain self.now.body 16 4) }
    {
        TypeAnyPointerWhich::of(self.body.u16(4))
    }

    /// This is actually a reference to a type parameter defined within this scope.
    pub fn parameter(&self) -> TypeAnyPointerParameterReader<'a>
        ensures { result.body ≡ self.now.body }
    {
        TypeAnyPointerParameterReader {
            body: self.body.reborrow(),
        }
    }
}

/// The members of the union of `Type.anyPointer`.
#[derive(Clone, Copy, PartialEq, Eq)]
pub enum TypeAnyPointerWhich {
    Unconstrained,
    Parameter,
    ImplicitMethodParameter,
    /// A number that a newer schema has.
    Unknown(UnknownEnumerant<2>),
}

impl TypeAnyPointerWhich {
    /// The value of this number.
    pub fn of(number: u16) -> TypeAnyPointerWhich
        ensures { result ≡ type_any_pointer_which_of number }
    {
        match number {
            0 => TypeAnyPointerWhich::Unconstrained,
            1 => TypeAnyPointerWhich::Parameter,
            2 => TypeAnyPointerWhich::ImplicitMethodParameter,
            _ => match UnknownEnumerant::new(number) {
                Some(number) => TypeAnyPointerWhich::Unknown(number),
                None => unreachable!(),
            },
        }
    }
}
