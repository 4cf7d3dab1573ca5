//! `address_book` of addressbook.capnp, made by capnpc_rattle.

ghost use Rattle.std.specs.Prelude.{◌≡◌, IfOk, OnOk, OnErr, Err, ◌+◌, []};
ghost use Rattle.cp_words.specs.declared.pointer.ElementSize.TheVariants as sizes;
ghost use Rattle.cp_tree.specs.Seen.{pointee_of};
ghost use Rattle.cp_tree.specs.Shaped.{Shaped};
ghost use Rattle.cp_fields.specs.Constants.{constant_of};
ghost use Rattle.cp_fields.specs.Pointers.{Reads, list_field, or_default, struct_field};
ghost use Rattle.cp_builder.specs.declared.fault.BuildError.TheVariants.{TooLong};
ghost use Rattle.cp_builder.specs.Copies.{Sets, placed};
ghost use Rattle.cp_builder.specs.Drafts.{HoldsOneMore, blank, blank_list, with_last};
ghost use Rattle.cp_interfaces.specs.Promises.{along};
ghost use Rattle.cp_interfaces.specs.Tables.{none_named};
ghost use Rattle.addressbook.specs.AddressBook.{address_book_owner_default, address_book_circles_default};

use crate::person::{PersonPipeline, PersonReader};
use cp_builder::{BuildError, FieldValue, StructBuilder, StructListBuilder};
use cp_fields::{
    Constant, ConstantBody, Element, List, PointerReader, StructReader, TextReader, WrongKind,
};
use cp_interfaces::{CapTableBuilder, Pipeline, ResultPayload, Results};
use cp_tree::{ListRef, Whole};
use std::alloc::{AllocError, Global};

/// `struct AddressBook`.
#[derive(Drop)]
pub struct AddressBookReader<'a> {
    /// The struct, by the places of its fields.
    pub body: StructReader<'a>,
}

impl<'a> Element<'a> for AddressBookReader<'a> {
    ghost SIZE = { sizes.Composite };

    ghost read = { λ t. record { body = t } };

    fn size() -> cp_words::ElementSize
        ensures { result ≡ sizes.Composite }
    {
        cp_words::ElementSize::Composite
    }

    fn of_element(item: StructReader<'a>) -> AddressBookReader<'a> {
        AddressBookReader { body: item }
    }
}

impl<'a> AddressBookReader<'a> {
    /// The struct that a pointer stands for; null is the struct whose fields are all as by default.
    pub fn of(at: PointerReader<'a>) -> Result<AddressBookReader<'a>, WrongKind>
        ensures { Reads result (λ x. x.body) (struct_field at.entry) }
    {
        Ok(AddressBookReader {
            body: StructReader::of(at)?,
        })
    }

    /// `people @0`.
    pub fn people(&self) -> Result<List<'a, PersonReader<'a>>, WrongKind>
        ensures { result ≡ list_field sizes.Composite (pointee_of self.now.body 0) }
    {
        self.body.list(0)
    }

    /// Whose book it is.
    pub fn owner(&self) -> Result<PersonReader<'a>, WrongKind>
        ensures { Reads result (λ x. x.body) (struct_field (or_default (pointee_of self.now.body 1) address_book_owner_default)) }
    {
        let default = address_book_owner_default();
        Ok(PersonReader {
            body: self.body.structure_or(1, default)?,
        })
    }

    /// What people are sorted into.
    pub fn circles(&self) -> Result<List<'a, Result<TextReader<'a>, WrongKind>>, WrongKind>
        ensures { result ≡ list_field sizes.Pointer (or_default (pointee_of self.now.body 2) address_book_circles_default) }
    {
        let default = address_book_circles_default();
        self.body.list_or(2, default)
    }
}

/// `struct AddressBook`, to be written.
#[derive(Drop)]
pub struct AddressBookBuilder {
    /// The struct, by the places of its fields.
    pub body: StructBuilder<0, 3>,
}

impl AddressBookBuilder {
    /// A struct whose fields are all as by default.
    pub fn new(alloc: Global) -> Result<AddressBookBuilder, AllocError>
        ensures { IfOk result (λ d. d.body ≡ blank 0 3) }
    {
        Ok(AddressBookBuilder {
            body: StructBuilder::new(alloc)?,
        })
    }

    /// Sets `people`.
    pub fn set_people<'a, V: FieldValue<List<'a, PersonReader<'a>>>>(
        &mut self,
        value: V,
    ) -> Result<(), BuildError>
        ensures set { OnOk result (Sets (V.stands value) self.old.body 0 self.new.body) }
        ensures left { OnErr result (self.new ≡ self.old) }
        ensures long { result ≡ Err TooLong → V.is_long value }
    {
        let whole = value.into_whole(self.body.alloc())?;
        self.body.set_pointer(0, whole);
        Ok(())
    }

    /// Whose book it is.
    pub fn set_owner<'a, V: FieldValue<PersonReader<'a>>>(
        &mut self,
        value: V,
    ) -> Result<(), BuildError>
        ensures set { OnOk result (Sets (V.stands value) self.old.body 1 self.new.body) }
        ensures left { OnErr result (self.new ≡ self.old) }
        ensures long { result ≡ Err TooLong → V.is_long value }
    {
        let whole = value.into_whole(self.body.alloc())?;
        self.body.set_pointer(1, whole);
        Ok(())
    }

    /// What people are sorted into.
    pub fn set_circles<'a, V: FieldValue<List<'a, Result<TextReader<'a>, WrongKind>>>>(
        &mut self,
        value: V,
    ) -> Result<(), BuildError>
        ensures set { OnOk result (Sets (V.stands value) self.old.body 2 self.new.body) }
        ensures left { OnErr result (self.new ≡ self.old) }
        ensures long { result ≡ Err TooLong → V.is_long value }
    {
        let whole = value.into_whole(self.body.alloc())?;
        self.body.set_pointer(2, whole);
        Ok(())
    }
}

/// A list of `struct AddressBook`, to be written.
#[derive(Drop)]
pub struct AddressBookListBuilder {
    /// The list.
    pub items: StructListBuilder<0, 3>,
}

impl AddressBookListBuilder {
    /// No struct yet.
    pub fn new(alloc: Global) -> AddressBookListBuilder
        ensures { result.items ≡ blank_list 0 3 }
    {
        AddressBookListBuilder {
            items: StructListBuilder::new(alloc),
        }
    }

    /// Adds a struct at the end.
    pub fn push(&mut self, item: AddressBookBuilder) -> Result<(), BuildError>
        ensures pushed { OnOk result (self.new.items ≡ with_last self.old.items item.body) }
        ensures left { OnErr result (self.new ≡ self.old) }
        ensures long { result ≡ Err TooLong → ¬ (HoldsOneMore self.old.items (0 + 3)) }
    {
        self.items.push(item.body)
    }
}

impl<'a> FieldValue<List<'a, AddressBookReader<'a>>> for AddressBookListBuilder {
    ghost stands = { λ l t. t ≡ l.items };

    ghost is_long = { λ l. ⊥ };

    fn into_whole(self, _alloc: Global) -> Result<Whole, BuildError>
        ensures value { IfOk result (λ whole. whole ≡ self.items) }
        ensures long { result ≡ Err TooLong → ⊥ }
    {
        Ok(self.items.into_whole())
    }
}

impl<'a> FieldValue<AddressBookReader<'a>> for AddressBookReader<'a> {
    ghost stands = { λ r t. t ≡ placed [] r.body };

    ghost is_long = { λ r. ¬ (Shaped (placed [] r.body)) };

    fn into_whole(self, alloc: Global) -> Result<Whole, BuildError> {
        cp_builder::struct_copy(alloc, &self.body, &[])
    }
}

impl<'a> FieldValue<AddressBookReader<'a>> for AddressBookBuilder {
    ghost stands = { λ d t. t ≡ d.body };

    ghost is_long = { λ d. ⊥ };

    fn into_whole(self, _alloc: Global) -> Result<Whole, BuildError>
        ensures value { IfOk result (λ whole. whole ≡ self.body) }
        ensures long { result ≡ Err TooLong → ⊥ }
    {
        Ok(self.body.into_whole())
    }
}

impl Results for AddressBookBuilder {
    ghost content = { λ d. d.body };

    ghost names = { λ d. none_named };

    fn into_parts(self, alloc: Global) -> (Whole, CapTableBuilder) {
        (self.body.into_whole(), CapTableBuilder::new(alloc))
    }
}

/// `struct AddressBook`, as a question will give it.
#[derive(Drop)]
pub struct AddressBookPipeline {
    /// The question, and the path to the struct.
    pub at: Pipeline,
}

impl AddressBookPipeline {
    /// What is promised there.
    pub fn of(at: Pipeline) -> AddressBookPipeline
        ensures { result.at ≡ at }
    {
        AddressBookPipeline { at }
    }

    /// The number of the question, whose outcome can be waited for.
    pub fn question(&self) -> u32
        ensures { result ≡ self.now.at.question }
    {
        self.at.question()
    }

    /// The results that came.
    pub fn results<'a>(&self, came: &'a ResultPayload) -> Result<AddressBookReader<'a>, WrongKind>
        ensures { Reads result (λ x. x.body) (struct_field came.now.content) }
    {
        Ok(AddressBookReader {
            body: came.results()?,
        })
    }

    /// `owner @1`.
    pub fn owner(&self) -> Result<PersonPipeline, AllocError>
        ensures { IfOk result (λ p. p.at ≡ along self.now.at 1) }
    {
        Ok(PersonPipeline::of(self.at.field(1)?))
    }
}

/// What `owner` is by default.
fn address_book_owner_default() -> &'static Constant<'static>
    ensures { constant_of result.now ≡ address_book_owner_default }
{
    static DEFAULT: Constant<'static> = Constant::Struct(ConstantBody {
        words: &[5066549580791808, 0, 0],
        ptrs: &[
            Constant::List(ListRef::Bytes(&[78, 111, 98, 111, 100, 121, 0])),
            Constant::Null,
            Constant::Null,
            Constant::Null,
            Constant::Null,
            Constant::Null,
            Constant::Null,
        ],
    });
    &DEFAULT
}

/// What `circles` is by default.
fn address_book_circles_default() -> &'static Constant<'static>
    ensures { constant_of result.now ≡ address_book_circles_default }
{
    static DEFAULT: Constant<'static> = Constant::Ptrs(&[
        Constant::List(ListRef::Bytes(&[102, 97, 109, 105, 108, 121, 0])),
        Constant::List(ListRef::Bytes(&[119, 111, 114, 107, 0])),
    ]);
    &DEFAULT
}
