//! `person_phone_number` of addressbook.capnp, made by capnpc_rattle.

ghost use Rattle.std.specs.Prelude.{◌≡◌, IfOk, OnOk, OnErr, Err, ◌+◌, []};
ghost use Rattle.cp_words.specs.declared.pointer.ElementSize.TheVariants as sizes;
ghost use Rattle.cp_tree.specs.Seen.{pointee_of};
ghost use Rattle.cp_tree.specs.Shaped.{Shaped};
ghost use Rattle.cp_fields.specs.Numbers.{plain};
ghost use Rattle.cp_fields.specs.Pointers.{Reads, struct_field, text_field};
ghost use Rattle.cp_builder.specs.declared.fault.BuildError.TheVariants.{TooLong};
ghost use Rattle.cp_builder.specs.Copies.{Sets, placed};
ghost use Rattle.cp_builder.specs.Drafts.{HoldsOneMore, blank, blank_list, with_last, with_uint};
ghost use Rattle.cp_interfaces.specs.Tables.{none_named};
ghost use Rattle.addressbook.specs.PersonPhoneNumberType.{person_phone_number_type_number};
ghost use Rattle.addressbook.specs.PersonPhoneNumberType.{person_phone_number_type_of};

use crate::person_phone_number_type::PersonPhoneNumberType;
use cp_builder::{BuildError, FieldValue, StructBuilder, StructListBuilder};
use cp_fields::{Element, List, PointerReader, StructReader, TextReader, WrongKind};
use cp_interfaces::{CapTableBuilder, Lends, Results, TypedPipeline};
use cp_tree::Whole;
use std::alloc::{AllocError, Global};

/// `struct Person.PhoneNumber`.
#[derive(Drop)]
pub struct PersonPhoneNumberReader<'a> {
    /// The struct, by the places of its fields.
    pub body: StructReader<'a>,
}

impl<'a> Element<'a> for PersonPhoneNumberReader<'a> {
    ghost SIZE = { sizes.Composite };

    ghost read = { λ t. record { body = t } };

    fn size() -> cp_words::ElementSize
        ensures { result ≡ sizes.Composite }
    {
        cp_words::ElementSize::Composite
    }

    fn of_element(item: StructReader<'a>) -> PersonPhoneNumberReader<'a> {
        PersonPhoneNumberReader { body: item }
    }
}

impl<'a> PersonPhoneNumberReader<'a> {
    /// The struct that a pointer stands for; null is the struct whose fields are all as by default.
    pub fn of(at: PointerReader<'a>) -> Result<PersonPhoneNumberReader<'a>, WrongKind>
        ensures { Reads result (λ x. x.body) (struct_field at.entry) }
    {
        Ok(PersonPhoneNumberReader {
            body: StructReader::of(at)?,
        })
    }

    /// `number @0`.
    pub fn number(&self) -> Result<TextReader<'a>, WrongKind>
        ensures { result ≡ text_field [] (pointee_of self.now.body 0) }
    {
        self.body.text(0)
    }

    /// `type @1`.
    pub fn type_(&self) -> PersonPhoneNumberType
        ensures { result ≡ person_phone_number_type_of (plain self.now.body 16 0) }
    {
        PersonPhoneNumberType::of(self.body.u16(0))
    }
}

/// `struct Person.PhoneNumber`, to be written.
#[derive(Drop)]
pub struct PersonPhoneNumberBuilder {
    /// The struct, by the places of its fields.
    pub body: StructBuilder<1, 1>,
}

impl PersonPhoneNumberBuilder {
    /// A struct whose fields are all as by default.
    pub fn new(alloc: Global) -> Result<PersonPhoneNumberBuilder, AllocError>
        ensures { IfOk result (λ d. d.body ≡ blank 1 1) }
    {
        Ok(PersonPhoneNumberBuilder {
            body: StructBuilder::new(alloc)?,
        })
    }

    /// Sets `number`.
    pub fn set_number<'a, V: FieldValue<TextReader<'a>>>(
        &mut self,
        value: V,
    ) -> Result<(), BuildError>
        ensures set { OnOk result (Sets (V.stands value) self.old.body 0 self.new.body) }
        ensures left { OnErr result (self.new ≡ self.old) }
        ensures long { result ≡ Err TooLong → V.is_long value }
    {
        let whole = value.into_whole(self.body.alloc())?;
        self.body.set_pointer(0, whole);
        Ok(())
    }

    /// Sets `type`.
    pub fn set_type(&mut self, value: PersonPhoneNumberType)
        ensures { self.new.body ≡ with_uint self.old.body 16 0 (person_phone_number_type_number value) }
    {
        self.body.set_u16(0, value.number());
    }
}

/// A list of `struct Person.PhoneNumber`, to be written.
#[derive(Drop)]
pub struct PersonPhoneNumberListBuilder {
    /// The list.
    pub items: StructListBuilder<1, 1>,
}

impl PersonPhoneNumberListBuilder {
    /// No struct yet.
    pub fn new(alloc: Global) -> PersonPhoneNumberListBuilder
        ensures { result.items ≡ blank_list 1 1 }
    {
        PersonPhoneNumberListBuilder {
            items: StructListBuilder::new(alloc),
        }
    }

    /// Adds a struct at the end.
    pub fn push(&mut self, item: PersonPhoneNumberBuilder) -> Result<(), BuildError>
        ensures pushed { OnOk result (self.new.items ≡ with_last self.old.items item.body) }
        ensures left { OnErr result (self.new ≡ self.old) }
        ensures long { result ≡ Err TooLong → ¬ (HoldsOneMore self.old.items (1 + 1)) }
    {
        self.items.push(item.body)
    }
}

impl<'a> FieldValue<List<'a, PersonPhoneNumberReader<'a>>> for PersonPhoneNumberListBuilder {
    ghost stands = { λ l t. t ≡ l.items };

    ghost is_long = { λ l. ⊥ };

    fn into_whole(self, _alloc: Global) -> Result<Whole, BuildError>
        ensures value { IfOk result (λ whole. whole ≡ self.items) }
        ensures long { result ≡ Err TooLong → ⊥ }
    {
        Ok(self.items.into_whole())
    }
}

impl<'a> FieldValue<PersonPhoneNumberReader<'a>> for PersonPhoneNumberReader<'a> {
    ghost stands = { λ r t. t ≡ placed [] r.body };

    ghost is_long = { λ r. ¬ (Shaped (placed [] r.body)) };

    fn into_whole(self, alloc: Global) -> Result<Whole, BuildError> {
        cp_builder::struct_copy(alloc, &self.body, &[])
    }
}

impl<'a> FieldValue<PersonPhoneNumberReader<'a>> for PersonPhoneNumberBuilder {
    ghost stands = { λ d t. t ≡ d.body };

    ghost is_long = { λ d. ⊥ };

    fn into_whole(self, _alloc: Global) -> Result<Whole, BuildError>
        ensures value { IfOk result (λ whole. whole ≡ self.body) }
        ensures long { result ≡ Err TooLong → ⊥ }
    {
        Ok(self.body.into_whole())
    }
}

impl Results for PersonPhoneNumberBuilder {
    ghost content = { λ d. d.body };

    ghost names = { λ d. none_named };

    fn into_parts(self, alloc: Global) -> (Whole, CapTableBuilder) {
        (self.body.into_whole(), CapTableBuilder::new(alloc))
    }
}

/// `struct Person.PhoneNumber`, as a question will give it.
pub type PersonPhoneNumberPipeline = TypedPipeline<PersonPhoneNumberBuilder>;

impl<'a> Lends<'a> for PersonPhoneNumberBuilder {
    type Reader = PersonPhoneNumberReader<'a>;

    ghost read = { λ x. x.body };

    fn reader(body: StructReader<'a>) -> PersonPhoneNumberReader<'a> {
        PersonPhoneNumberReader { body }
    }
}
