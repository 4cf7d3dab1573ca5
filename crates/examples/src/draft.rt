//! Writes an address book by the names of its schema, and prints it as the example `book` reads it.

use crate::book::print_books;
use addressbook::{
    AddressBookBuilder, PersonBuilder, PersonListBuilder, PersonPhoneNumberBuilder,
    PersonPhoneNumberListBuilder, PersonPhoneNumberType,
};
use jamdrosek::{Limits, Mode, Tap, write_struct};
use std::alloc::Global;

pub fn run(rt: &HostRuntime) -> anyhow::Result<()> {
    print_books(rt, &written(rt.alloc())?)
}

/// The bytes of a book of one person.
fn written(alloc: Global) -> anyhow::Result<Vec<u8>> {
    let mut people = PersonListBuilder::new(alloc);
    people.push(carol(alloc)?)?;
    let mut book = AddressBookBuilder::new(alloc)?;
    book.set_people(people)?;
    let mut to = Tap::new(Vec::new(alloc));
    let limits = Limits::standard();
    write_struct(
        alloc,
        &mut to,
        &book.body.into_object(),
        Mode::Plain,
        limits,
    )?;
    Ok(to.into_inner())
}

/// A person with a phone, and with what they do.
fn carol(alloc: Global) -> anyhow::Result<PersonBuilder> {
    let phones = phones(alloc)?;
    let mut carol = PersonBuilder::new(alloc)?;
    carol.set_phones(phones)?;
    carol.set_id(789);
    carol.set_name("Carol")?;
    carol.set_employment_employer("ETH")?;
    Ok(carol)
}

/// A list of one phone.
fn phones(alloc: Global) -> anyhow::Result<PersonPhoneNumberListBuilder> {
    let mut phone = PersonPhoneNumberBuilder::new(alloc)?;
    phone.set_number("555-1414")?;
    phone.set_type(PersonPhoneNumberType::Work);
    let mut phones = PersonPhoneNumberListBuilder::new(alloc);
    phones.push(phone)?;
    Ok(phones)
}
