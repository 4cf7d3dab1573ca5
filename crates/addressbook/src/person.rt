//! `person` of addressbook.capnp, made by capnpc_rattle.

ghost use Rattle.std.specs.Prelude.{◌≡◌, not, from_bits, to_bits, bit_xor, IfOk, OnOk, OnErr, Err, ◌+◌, []};
ghost use Rattle.cp_words.specs.declared.pointer.ElementSize.TheVariants as sizes;
ghost use Rattle.std.specs.Int.{cast_signed, cast_unsigned, w16};
ghost use Rattle.std.specs.Float.{binary64};
ghost use Rattle.cp_tree.specs.Seen.{pointee_of};
ghost use Rattle.cp_tree.specs.Shaped.{Shaped};
ghost use Rattle.cp_fields.specs.Numbers.{flag, plain, uint};
ghost use Rattle.cp_fields.specs.Pointers.{Reads, data_field, list_field, struct_field, text_field};
ghost use Rattle.cp_builder.specs.Numbers.{flag_bit};
ghost use Rattle.cp_builder.specs.declared.fault.BuildError.TheVariants.{TooLong};
ghost use Rattle.cp_builder.specs.Copies.{Sets, placed};
ghost use Rattle.cp_builder.specs.Drafts.{HoldsOneMore, blank, blank_list, with_last, with_uint};
ghost use Rattle.cp_interfaces.specs.Promises.{along};
ghost use Rattle.cp_interfaces.specs.Tables.{none_named};
ghost use Rattle.addressbook.specs.Person.{person_employment_which_of, person_employment_member};

use crate::person_phone_number::PersonPhoneNumberReader;
use cp_builder::{BuildError, FieldValue, StructBuilder, StructListBuilder};
use cp_fields::{
    DataReader, Element, List, PointerReader, StructReader, TextReader, UnknownEnumerant, WrongKind,
};
use cp_interfaces::{CapTableBuilder, Pipeline, ResultPayload, Results};
use cp_tree::Whole;
use std::alloc::{AllocError, Global};
use std::num::f64_to_bits_with_nan;

/// `struct Person`.
#[derive(Drop)]
pub struct PersonReader<'a> {
    /// The struct, by the places of its fields.
    pub body: StructReader<'a>,
}

impl<'a> Element<'a> for PersonReader<'a> {
    ghost SIZE = { sizes.Composite };

    ghost read = { λ t. record { body = t } };

    fn size() -> cp_words::ElementSize
        ensures { result ≡ sizes.Composite }
    {
        cp_words::ElementSize::Composite
    }

    fn of_element(item: StructReader<'a>) -> PersonReader<'a> {
        PersonReader { body: item }
    }
}

impl<'a> PersonReader<'a> {
    /// The struct that a pointer stands for; null is the struct whose fields are all as by default.
    pub fn of(at: PointerReader<'a>) -> Result<PersonReader<'a>, WrongKind>
        ensures { Reads result (λ x. x.body) (struct_field at.entry) }
    {
        Ok(PersonReader {
            body: StructReader::of(at)?,
        })
    }

    /// `id @0`.
    pub fn id(&self) -> u32
        ensures { result ≡ plain self.now.body 32 0 }
    {
        self.body.u32(0)
    }

    /// `name @1`.
    pub fn name(&self) -> Result<TextReader<'a>, WrongKind>
        ensures { result ≡ text_field [] (pointee_of self.now.body 0) }
    {
        self.body.text(0)
    }

    /// `email @2`.
    pub fn email(&self) -> Result<TextReader<'a>, WrongKind>
        ensures { result ≡ text_field [] (pointee_of self.now.body 1) }
    {
        self.body.text(1)
    }

    /// `phones @3`.
    pub fn phones(&self) -> Result<List<'a, PersonPhoneNumberReader<'a>>, WrongKind>
        ensures { result ≡ list_field sizes.Composite (pointee_of self.now.body 2) }
    {
        self.body.list(2)
    }

    /// Group `employment`.
    pub fn employment(&self) -> PersonEmploymentReader<'a>
        ensures { result.body ≡ self.now.body }
    {
        PersonEmploymentReader {
            body: self.body.reborrow(),
        }
    }

    /// In years.
    pub fn age(&self) -> u8
        ensures { result ≡ uint self.now.body 8 6 18 }
    {
        self.body.u8_or(6, 18)
    }

    /// In centimetres, from the average.
    pub fn height(&self) -> i16
        ensures { result ≡ cast_signed w16 (uint self.now.body 16 4 65531) }
    {
        self.body.i16_or(4, 65531)
    }

    /// `active @10`.
    pub fn active(&self) -> bool
        ensures { result ≡ not (flag self.now.body 56) }
    {
        self.body.bit_or_true(56)
    }

    /// `spouse @11`.
    pub fn spouse(&self) -> Result<PersonReader<'a>, WrongKind>
        ensures { Reads result (λ x. x.body) (struct_field (pointee_of self.now.body 4)) }
    {
        Ok(PersonReader {
            body: self.body.structure(4)?,
        })
    }

    /// `scores @12`.
    pub fn scores(&self) -> Result<List<'a, u32>, WrongKind>
        ensures { result ≡ list_field sizes.FourBytes (pointee_of self.now.body 5) }
    {
        self.body.list(5)
    }

    /// `picture @13`.
    pub fn picture(&self) -> Result<DataReader<'a>, WrongKind>
        ensures { result ≡ data_field [] (pointee_of self.now.body 6) }
    {
        self.body.data(6)
    }

    /// `weight @14`.
    pub fn weight(&self) -> f64
        ensures { result ≡ from_bits binary64 (uint self.now.body 64 2 4634661413401395200) }
    {
        self.body.f64_or(2, 4634661413401395200)
    }
}

/// `struct Person`, to be written.
#[derive(Drop)]
pub struct PersonBuilder {
    /// The struct, by the places of its fields.
    pub body: StructBuilder<3, 7>,
}

impl PersonBuilder {
    /// A struct whose fields are all as by default.
    pub fn new(alloc: Global) -> Result<PersonBuilder, AllocError>
        ensures { IfOk result (λ d. d.body ≡ blank 3 7) }
    {
        Ok(PersonBuilder {
            body: StructBuilder::new(alloc)?,
        })
    }

    /// Sets `id`.
    pub fn set_id(&mut self, value: u32)
        ensures { self.new.body ≡ with_uint self.old.body 32 0 value }
    {
        self.body.set_u32(0, value);
    }

    /// Sets `name`.
    pub fn set_name<'a, V: FieldValue<TextReader<'a>>>(
        &mut self,
        value: V,
    ) -> Result<(), BuildError>
        ensures set { OnOk result (Sets (V.stands value) self.old.body 0 self.new.body) }
        ensures left { OnErr result (self.new ≡ self.old) }
        ensures long { result ≡ Err TooLong → V.is_long value }
    {
        let whole = value.into_whole(self.body.alloc())?;
        self.body.set_pointer(0, whole);
        Ok(())
    }

    /// Sets `email`.
    pub fn set_email<'a, V: FieldValue<TextReader<'a>>>(
        &mut self,
        value: V,
    ) -> Result<(), BuildError>
        ensures set { OnOk result (Sets (V.stands value) self.old.body 1 self.new.body) }
        ensures left { OnErr result (self.new ≡ self.old) }
        ensures long { result ≡ Err TooLong → V.is_long value }
    {
        let whole = value.into_whole(self.body.alloc())?;
        self.body.set_pointer(1, whole);
        Ok(())
    }

    /// Sets `phones`.
    pub fn set_phones<'a, V: FieldValue<List<'a, PersonPhoneNumberReader<'a>>>>(
        &mut self,
        value: V,
    ) -> Result<(), BuildError>
        ensures set { OnOk result (Sets (V.stands value) self.old.body 2 self.new.body) }
        ensures left { OnErr result (self.new ≡ self.old) }
        ensures long { result ≡ Err TooLong → V.is_long value }
    {
        let whole = value.into_whole(self.body.alloc())?;
        self.body.set_pointer(2, whole);
        Ok(())
    }

    /// Sets `unemployed`, and chooses it in its union.
    pub fn set_employment_unemployed(&mut self)
        ensures { self.new.body ≡ with_uint self.old.body 16 2 0 }
    {
        self.body.set_u16(2, 0);
    }

    /// Sets `employer`, and chooses it in its union.
    pub fn set_employment_employer<'a, V: FieldValue<TextReader<'a>>>(
        &mut self,
        value: V,
    ) -> Result<(), BuildError>
        ensures set { OnOk result (Sets (V.stands value) (with_uint self.old.body 16 2 1) 3 self.new.body) }
        ensures left { OnErr result (self.new ≡ self.old) }
        ensures long { result ≡ Err TooLong → V.is_long value }
    {
        let whole = value.into_whole(self.body.alloc())?;
        self.body.set_u16(2, 1);
        self.body.set_pointer(3, whole);
        Ok(())
    }

    /// Sets `school`, and chooses it in its union.
    pub fn set_employment_school<'a, V: FieldValue<TextReader<'a>>>(
        &mut self,
        value: V,
    ) -> Result<(), BuildError>
        ensures set { OnOk result (Sets (V.stands value) (with_uint self.old.body 16 2 2) 3 self.new.body) }
        ensures left { OnErr result (self.new ≡ self.old) }
        ensures long { result ≡ Err TooLong → V.is_long value }
    {
        let whole = value.into_whole(self.body.alloc())?;
        self.body.set_u16(2, 2);
        self.body.set_pointer(3, whole);
        Ok(())
    }

    /// Sets `selfEmployed`, and chooses it in its union.
    pub fn set_employment_self_employed(&mut self)
        ensures { self.new.body ≡ with_uint self.old.body 16 2 3 }
    {
        self.body.set_u16(2, 3);
    }

    /// In years.
    pub fn set_age(&mut self, value: u8)
        ensures { self.new.body ≡ with_uint self.old.body 8 6 (bit_xor value 18) }
    {
        self.body.set_u8(6, value ^ 18);
    }

    /// In centimetres, from the average.
    pub fn set_height(&mut self, value: i16)
        ensures { self.new.body ≡ with_uint self.old.body 16 4 (bit_xor (cast_unsigned w16 value) 65531) }
    {
        self.body.set_u16(4, value.cast_unsigned() ^ 65531);
    }

    /// Sets `active`.
    pub fn set_active(&mut self, value: bool)
        ensures { self.new.body ≡ with_uint self.old.body 1 56 (flag_bit (not value)) }
    {
        self.body.set_bit(56, !value);
    }

    /// Sets `spouse`.
    pub fn set_spouse<'a, V: FieldValue<PersonReader<'a>>>(
        &mut self,
        value: V,
    ) -> Result<(), BuildError>
        ensures set { OnOk result (Sets (V.stands value) self.old.body 4 self.new.body) }
        ensures left { OnErr result (self.new ≡ self.old) }
        ensures long { result ≡ Err TooLong → V.is_long value }
    {
        let whole = value.into_whole(self.body.alloc())?;
        self.body.set_pointer(4, whole);
        Ok(())
    }

    /// Sets `scores`.
    pub fn set_scores<'a, V: FieldValue<List<'a, u32>>>(
        &mut self,
        value: V,
    ) -> Result<(), BuildError>
        ensures set { OnOk result (Sets (V.stands value) self.old.body 5 self.new.body) }
        ensures left { OnErr result (self.new ≡ self.old) }
        ensures long { result ≡ Err TooLong → V.is_long value }
    {
        let whole = value.into_whole(self.body.alloc())?;
        self.body.set_pointer(5, whole);
        Ok(())
    }

    /// Sets `picture`.
    pub fn set_picture<'a, V: FieldValue<DataReader<'a>>>(
        &mut self,
        value: V,
    ) -> Result<(), BuildError>
        ensures set { OnOk result (Sets (V.stands value) self.old.body 6 self.new.body) }
        ensures left { OnErr result (self.new ≡ self.old) }
        ensures long { result ≡ Err TooLong → V.is_long value }
    {
        let whole = value.into_whole(self.body.alloc())?;
        self.body.set_pointer(6, whole);
        Ok(())
    }

    /// Sets `weight`.
    pub fn set_weight(&mut self, value: f64)
        ensures { self.new.body ≡ with_uint self.old.body 64 2 (bit_xor (to_bits binary64 value) 4634661413401395200) }
    {
        self.body
            .set_u64(2, f64_to_bits_with_nan(value) ^ 4634661413401395200);
    }
}

/// A list of `struct Person`, to be written.
#[derive(Drop)]
pub struct PersonListBuilder {
    /// The list.
    pub items: StructListBuilder<3, 7>,
}

impl PersonListBuilder {
    /// No struct yet.
    pub fn new(alloc: Global) -> PersonListBuilder
        ensures { result.items ≡ blank_list 3 7 }
    {
        PersonListBuilder {
            items: StructListBuilder::new(alloc),
        }
    }

    /// Adds a struct at the end.
    pub fn push(&mut self, item: PersonBuilder) -> Result<(), BuildError>
        ensures pushed { OnOk result (self.new.items ≡ with_last self.old.items item.body) }
        ensures left { OnErr result (self.new ≡ self.old) }
        ensures long { result ≡ Err TooLong → ¬ (HoldsOneMore self.old.items (3 + 7)) }
    {
        self.items.push(item.body)
    }
}

impl<'a> FieldValue<List<'a, PersonReader<'a>>> for PersonListBuilder {
    ghost stands = { λ l t. t ≡ l.items };

    ghost is_long = { λ l. ⊥ };

    fn into_whole(self, _alloc: Global) -> Result<Whole, BuildError>
        ensures value { IfOk result (λ whole. whole ≡ self.items) }
        ensures long { result ≡ Err TooLong → ⊥ }
    {
        Ok(self.items.into_whole())
    }
}

impl<'a> FieldValue<PersonReader<'a>> for PersonReader<'a> {
    ghost stands = { λ r t. t ≡ placed [] r.body };

    ghost is_long = { λ r. ¬ (Shaped (placed [] r.body)) };

    fn into_whole(self, alloc: Global) -> Result<Whole, BuildError> {
        cp_builder::struct_copy(alloc, &self.body, &[])
    }
}

impl<'a> FieldValue<PersonReader<'a>> for PersonBuilder {
    ghost stands = { λ d t. t ≡ d.body };

    ghost is_long = { λ d. ⊥ };

    fn into_whole(self, _alloc: Global) -> Result<Whole, BuildError>
        ensures value { IfOk result (λ whole. whole ≡ self.body) }
        ensures long { result ≡ Err TooLong → ⊥ }
    {
        Ok(self.body.into_whole())
    }
}

impl Results for PersonBuilder {
    ghost content = { λ d. d.body };

    ghost names = { λ d. none_named };

    fn into_parts(self, alloc: Global) -> (Whole, CapTableBuilder) {
        (self.body.into_whole(), CapTableBuilder::new(alloc))
    }
}

/// `struct Person`, as a question will give it.
#[derive(Drop)]
pub struct PersonPipeline {
    /// The question, and the path to the struct.
    pub at: Pipeline,
}

impl PersonPipeline {
    /// What is promised there.
    pub fn of(at: Pipeline) -> PersonPipeline
        ensures { result.at ≡ at }
    {
        PersonPipeline { at }
    }

    /// The number of the question, whose outcome can be waited for.
    pub fn question(&self) -> u32
        ensures { result ≡ self.now.at.question }
    {
        self.at.question()
    }

    /// The results that came.
    pub fn results<'a>(&self, came: &'a ResultPayload) -> Result<PersonReader<'a>, WrongKind>
        ensures { Reads result (λ x. x.body) (struct_field came.now.content) }
    {
        Ok(PersonReader {
            body: came.results()?,
        })
    }

    /// `spouse @11`.
    pub fn spouse(&self) -> Result<PersonPipeline, AllocError>
        ensures { IfOk result (λ p. p.at ≡ along self.now.at 4) }
    {
        Ok(PersonPipeline::of(self.at.field(4)?))
    }
}

/// `group Person.employment`.
#[derive(Drop)]
pub struct PersonEmploymentReader<'a> {
    /// The struct, by the places of its fields.
    pub body: StructReader<'a>,
}

impl<'a> PersonEmploymentReader<'a> {
    /// Which member of the union is set.
    pub fn which(&self) -> PersonEmploymentWhich
        ensures { result ≡ person_employment_which_of (plain self.now.body 16 2) }
    {
        PersonEmploymentWhich::of(self.body.u16(2))
    }

    /// `employer @5`.
    pub fn employer(&self) -> Result<TextReader<'a>, WrongKind>
        ensures { result ≡ text_field [] (pointee_of self.now.body 3) }
    {
        self.body.text(3)
    }

    /// `school @6`.
    pub fn school(&self) -> Result<TextReader<'a>, WrongKind>
        ensures { result ≡ text_field [] (pointee_of self.now.body 3) }
    {
        self.body.text(3)
    }

    /// The member of the union that is set, with what it holds.
    pub fn member(&self) -> Result<PersonEmploymentMember<'a>, WrongKind>
        ensures { result ≡ person_employment_member self.now.body }
    {
        Ok(match self.which() {
            PersonEmploymentWhich::Unemployed => PersonEmploymentMember::Unemployed,
            PersonEmploymentWhich::Employer => PersonEmploymentMember::Employer(self.employer()?),
            PersonEmploymentWhich::School => PersonEmploymentMember::School(self.school()?),
            PersonEmploymentWhich::SelfEmployed => PersonEmploymentMember::SelfEmployed,
            PersonEmploymentWhich::Unknown(number) => PersonEmploymentMember::Unknown(number),
        })
    }
}

/// The members of the union of `Person.employment`.
#[derive(Clone, Copy, PartialEq, Eq)]
pub enum PersonEmploymentWhich {
    Unemployed,
    Employer,
    School,
    SelfEmployed,
    /// A number that a newer schema has.
    Unknown(UnknownEnumerant<3>),
}

impl PersonEmploymentWhich {
    /// The value of this number.
    pub fn of(number: u16) -> PersonEmploymentWhich
        ensures { result ≡ person_employment_which_of number }
    {
        match number {
            0 => PersonEmploymentWhich::Unemployed,
            1 => PersonEmploymentWhich::Employer,
            2 => PersonEmploymentWhich::School,
            3 => PersonEmploymentWhich::SelfEmployed,
            _ => match UnknownEnumerant::new(number) {
                Some(number) => PersonEmploymentWhich::Unknown(number),
                None => unreachable!(),
            },
        }
    }
}

/// The member of the union of `Person.employment` that is set, with what it holds.
#[derive(Drop)]
pub enum PersonEmploymentMember<'a> {
    Unemployed,
    Employer(TextReader<'a>),
    School(TextReader<'a>),
    SelfEmployed,
    /// A member that a newer schema has.
    Unknown(UnknownEnumerant<3>),
}
