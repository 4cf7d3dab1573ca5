//! The types of addressbook.capnp, made by capnpc_rattle.
#![tactic(auto)]

mod address_book;
mod constants;
mod person;
mod person_phone_number;
mod person_phone_number_type;

pub use address_book::{
    AddressBookBuilder, AddressBookListBuilder, AddressBookPipeline, AddressBookReader,
};
pub use constants::LARGEST;
pub use person::{
    PersonBuilder, PersonEmploymentMember, PersonEmploymentReader, PersonEmploymentWhich,
    PersonListBuilder, PersonPipeline, PersonReader,
};
pub use person_phone_number::{
    PersonPhoneNumberBuilder, PersonPhoneNumberListBuilder, PersonPhoneNumberPipeline,
    PersonPhoneNumberReader,
};
pub use person_phone_number_type::PersonPhoneNumberType;
