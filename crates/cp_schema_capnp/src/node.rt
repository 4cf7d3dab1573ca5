//! `node` of schema.capnp.

ghost use Rattle.std.specs.Prelude.{◌≡◌, []};
ghost use Rattle.cp_words.specs.declared.pointer.ElementSize.TheVariants as sizes;
ghost use Rattle.cp_tree.specs.Seen.{pointee_of};
ghost use Rattle.cp_fields.specs.Numbers.{flag, plain};
ghost use Rattle.cp_fields.specs.Pointers.{Reads, list_field, struct_field, text_field};
ghost use Rattle.cp_schema_capnp.specs.Node.{node_which_of};

use crate::annotation::AnnotationReader;
use crate::enumerant::EnumerantReader;
use crate::field::FieldReader;
use crate::method::MethodReader;
use crate::superclass::SuperclassReader;
use crate::type_::TypeReader;
use crate::value::ValueReader;
use cp_fields::{Element, List, StructReader, TextReader, UnknownEnumerant, WrongKind};

/// `struct Node`.
#[derive(Drop)]
pub struct NodeReader<'a> {
    /// The struct, by the places of its fields.
    pub body: StructReader<'a>,
}

impl<'a> Element<'a> for NodeReader<'a> {
    ghost SIZE = { sizes.Composite };

    ghost read = { λ t. record { body = t } };

    fn size() -> cp_words::ElementSize
        ensures { result ≡ sizes.Composite }
    {
        cp_words::ElementSize::Composite
    }

    fn of_element(item: StructReader<'a>) -> NodeReader<'a> {
        NodeReader { body: item }
    }
}

impl<'a> NodeReader<'a> {
    /// Which member of the union is set.
    pub fn which(&self) -> NodeWhich
        ensures { result ≡ node_which_of (plain self.now.body 16 6) }
    {
        NodeWhich::of(self.body.u16(6))
    }

    /// `id @0`.
    pub fn id(&self) -> u64
        ensures { result ≡ plain self.now.body 64 0 }
    {
        self.body.u64(0)
    }

    /// Name to present to humans to identify this Node.  You should not attempt to parse this.  Its
    /// format could change.  It is not guaranteed to be unique.
    ///
    /// (On Zooko's triangle, this is the node's nickname.)
    pub fn display_name(&self) -> Result<TextReader<'a>, WrongKind>
        ensures { result ≡ text_field [] (pointee_of self.now.body 0) }
    {
        self.body.text(0)
    }

    /// ID of the lexical parent node.  Typically, the scope node will have a NestedNode pointing back
    /// at this node, but robust code should avoid relying on this (and, in fact, group nodes are not
    /// listed in the outer struct's nestedNodes, since they are listed in the fields).  `scopeId` is
    /// zero if the node has no parent, which is normally only the case with files, but should be
    /// allowed for any kind of node (in order to make runtime type generation easier).
    pub fn scope_id(&self) -> u64
        ensures { result ≡ plain self.now.body 64 2 }
    {
        self.body.u64(2)
    }

    /// Annotations applied to this node.
    pub fn annotations(&self) -> Result<List<'a, AnnotationReader<'a>>, WrongKind>
        ensures { result ≡ list_field sizes.Composite (pointee_of self.now.body 2) }
    {
        self.body.list(2)
    }

    /// Group `struct`.
    pub fn struct_(&self) -> NodeStructReader<'a>
        ensures { result.body ≡ self.now.body }
    {
        NodeStructReader {
            body: self.body.reborrow(),
        }
    }

    /// Group `enum`.
    pub fn enum_(&self) -> NodeEnumReader<'a>
        ensures { result.body ≡ self.now.body }
    {
        NodeEnumReader {
            body: self.body.reborrow(),
        }
    }

    /// Group `interface`.
    pub fn interface(&self) -> NodeInterfaceReader<'a>
        ensures { result.body ≡ self.now.body }
    {
        NodeInterfaceReader {
            body: self.body.reborrow(),
        }
    }

    /// Group `const`.
    pub fn const_(&self) -> NodeConstReader<'a>
        ensures { result.body ≡ self.now.body }
    {
        NodeConstReader {
            body: self.body.reborrow(),
        }
    }
}

/// The members of the union of `Node`.
#[derive(Clone, Copy, PartialEq, Eq)]
pub enum NodeWhich {
    File,
    Struct,
    Enum,
    Interface,
    Const,
    Annotation,
    /// A number that a newer schema has.
    Unknown(UnknownEnumerant<5>),
}

impl NodeWhich {
    /// The value of this number.
    pub fn of(number: u16) -> NodeWhich
        ensures { result ≡ node_which_of number }
    {
        match number {
            0 => NodeWhich::File,
            1 => NodeWhich::Struct,
            2 => NodeWhich::Enum,
            3 => NodeWhich::Interface,
            4 => NodeWhich::Const,
            5 => NodeWhich::Annotation,
            _ => match UnknownEnumerant::new(number) {
                Some(number) => NodeWhich::Unknown(number),
                None => unreachable!(),
            },
        }
    }
}

/// `group Node.struct`.
#[derive(Drop)]
pub struct NodeStructReader<'a> {
    /// The struct, by the places of its fields.
    pub body: StructReader<'a>,
}

impl<'a> NodeStructReader<'a> {
    /// Size of the data section, in words.
    pub fn data_word_count(&self) -> u16
        ensures { result ≡ plain self.now.body 16 7 }
    {
        self.body.u16(7)
    }

    /// Size of the pointer section, in pointers (which are one word each).
    pub fn pointer_count(&self) -> u16
        ensures { result ≡ plain self.now.body 16 12 }
    {
        self.body.u16(12)
    }

    /// If true, then this "struct" node is actually not an independent node, but merely represents
    /// some named union or group within a particular parent struct.  This node's scopeId refers
    /// to the parent struct, which may itself be a union/group in yet another struct.
    ///
    /// All group nodes share the same dataWordCount and pointerCount as the top-level
    /// struct, and their fields live in the same ordinal and offset spaces as all other fields in
    /// the struct.
    ///
    /// Note that a named union is considered a special kind of group -- in fact, a named union
    /// is exactly equivalent to a group that contains nothing but an unnamed union.
    pub fn is_group(&self) -> bool
        ensures { result ≡ flag self.now.body 224 }
    {
        self.body.bit(224)
    }

    /// Number of fields in this struct which are members of an anonymous union, and thus may
    /// overlap.  If this is non-zero, then a 16-bit discriminant is present indicating which
    /// of the overlapping fields is active.  This can never be 1 -- if it is non-zero, it must be
    /// two or more.
    ///
    /// Note that the fields of an unnamed union are considered fields of the scope containing the
    /// union -- an unnamed union is not its own group.  So, a top-level struct may contain a
    /// non-zero discriminant count.  Named unions, on the other hand, are equivalent to groups
    /// containing unnamed unions.  So, a named union has its own independent schema node, with
    /// `isGroup` = true.
    pub fn discriminant_count(&self) -> u16
        ensures { result ≡ plain self.now.body 16 15 }
    {
        self.body.u16(15)
    }

    /// If `discriminantCount` is non-zero, this is the offset of the union discriminant, in
    /// multiples of 16 bits.
    pub fn discriminant_offset(&self) -> u32
        ensures { result ≡ plain self.now.body 32 8 }
    {
        self.body.u32(8)
    }

    /// Fields defined within this scope (either the struct's top-level fields, or the fields of
    /// a particular group; see `isGroup`).
    ///
    /// The fields are sorted by ordinal number, but note that because groups share the same
    /// ordinal space, the field's index in this list is not necessarily exactly its ordinal.
    /// On the other hand, the field's position in this list does remain the same even as the
    /// protocol evolves, since it is not possible to insert or remove an earlier ordinal.
    /// Therefore, for most use cases, if you want to identify a field by number, it may make the
    /// most sense to use the field's index in this list rather than its ordinal.
    pub fn fields(&self) -> Result<List<'a, FieldReader<'a>>, WrongKind>
        ensures { result ≡ list_field sizes.Composite (pointee_of self.now.body 3) }
    {
        self.body.list(3)
    }
}

/// `group Node.enum`.
#[derive(Drop)]
pub struct NodeEnumReader<'a> {
    /// The struct, by the places of its fields.
    pub body: StructReader<'a>,
}

impl<'a> NodeEnumReader<'a> {
    /// Enumerants ordered by numeric value (ordinal).
    pub fn enumerants(&self) -> Result<List<'a, EnumerantReader<'a>>, WrongKind>
        ensures { result ≡ list_field sizes.Composite (pointee_of self.now.body 3) }
    {
        self.body.list(3)
    }
}

/// `group Node.interface`.
#[derive(Drop)]
pub struct NodeInterfaceReader<'a> {
    /// The struct, by the places of its fields.
    pub body: StructReader<'a>,
}

impl<'a> NodeInterfaceReader<'a> {
    /// Methods ordered by ordinal.
    pub fn methods(&self) -> Result<List<'a, MethodReader<'a>>, WrongKind>
        ensures { result ≡ list_field sizes.Composite (pointee_of self.now.body 3) }
    {
        self.body.list(3)
    }

    /// Superclasses of this interface.
    pub fn superclasses(&self) -> Result<List<'a, SuperclassReader<'a>>, WrongKind>
        ensures { result ≡ list_field sizes.Composite (pointee_of self.now.body 4) }
    {
        self.body.list(4)
    }
}

/// `group Node.const`.
#[derive(Drop)]
pub struct NodeConstReader<'a> {
    /// The struct, by the places of its fields.
    pub body: StructReader<'a>,
}

impl<'a> NodeConstReader<'a> {
    /// `type @16`.
    pub fn type_(&self) -> Result<TypeReader<'a>, WrongKind>
        ensures { Reads result (λ x. x.body) (struct_field (pointee_of self.now.body 3)) }
    {
        Ok(TypeReader {
            body: self.body.structure(3)?,
        })
    }

    /// `value @17`.
    pub fn value(&self) -> Result<ValueReader<'a>, WrongKind>
        ensures { Reads result (λ x. x.body) (struct_field (pointee_of self.now.body 4)) }
    {
        Ok(ValueReader {
            body: self.body.structure(4)?,
        })
    }
}
