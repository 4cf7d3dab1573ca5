//! `person_phone_number_type` of addressbook.capnp, made by capnpc_rattle.

ghost use Rattle.std.specs.Prelude.{◌≡◌};
ghost use Rattle.cp_words.specs.declared.pointer.ElementSize.TheVariants as sizes;
ghost use Rattle.cp_fields.specs.Numbers.{plain};
ghost use Rattle.addressbook.specs.PersonPhoneNumberType.{person_phone_number_type_of, person_phone_number_type_number};

use cp_fields::{Element, StructReader, UnknownEnumerant};

/// `enum Person.PhoneNumber.Type`.
#[derive(Clone, Copy, PartialEq, Eq, Debug)]
pub enum PersonPhoneNumberType {
    Mobile,
    Home,
    Work,
    /// A number that a newer schema has.
    Unknown(UnknownEnumerant<2>),
}

impl PersonPhoneNumberType {
    /// The value of this number.
    pub fn of(number: u16) -> PersonPhoneNumberType
        ensures { result ≡ person_phone_number_type_of number }
    {
        match number {
            0 => PersonPhoneNumberType::Mobile,
            1 => PersonPhoneNumberType::Home,
            2 => PersonPhoneNumberType::Work,
            _ => match UnknownEnumerant::new(number) {
                Some(number) => PersonPhoneNumberType::Unknown(number),
                None => unreachable!(),
            },
        }
    }

    /// Its number.
    pub fn number(self) -> u16
        ensures { result ≡ person_phone_number_type_number self }
    {
        match self {
            PersonPhoneNumberType::Mobile => 0,
            PersonPhoneNumberType::Home => 1,
            PersonPhoneNumberType::Work => 2,
            PersonPhoneNumberType::Unknown(number) => number.number(),
        }
    }
}

impl<'a> Element<'a> for PersonPhoneNumberType {
    ghost SIZE = { sizes.TwoBytes };

    ghost read = { λ t. person_phone_number_type_of (plain t 16 0) };

    fn size() -> cp_words::ElementSize {
        cp_words::ElementSize::TwoBytes
    }

    fn of_element(item: StructReader<'a>) -> PersonPhoneNumberType {
        PersonPhoneNumberType::of(item.u16(0))
    }
}

impl cp_builder::Enumerant for PersonPhoneNumberType {
    ghost number = { person_phone_number_type_number };

    fn as_number(&self) -> u16 {
        self.number()
    }
}
