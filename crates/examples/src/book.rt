//! Reads an address book in place, by the names of crates/addressbook/addressbook.capnp, of which capnpc_rattle made the crate.

use addressbook::{
    AddressBookReader, PersonEmploymentMember as Work, PersonPhoneNumberReader,
    PersonPhoneNumberType as Phone, PersonReader,
};
use anyhow::anyhow;
use jamdrosek::fields::PointerReader;
use jamdrosek::reading::View;
use jamdrosek::{FrameReader, Limits, Segments};
use std::alloc::Global;
use std::fs;

pub fn run(rt: &HostRuntime) -> anyhow::Result<()> {
    print_books(rt, &fs::read(rt, "book.bin")?)
}

/// Prints the address books that bytes hold.
pub fn print_books(rt: &HostRuntime, bytes: &[u8]) -> anyhow::Result<()> {
    let mut reader = FrameReader::plain(rt.alloc(), Limits::standard());
    for (_, segments) in &reader.feed(bytes)? {
        print_book(rt, segments)?;
    }
    Ok(reader.finish()?)
}

/// Prints whose book it is, what people are sorted into, and the people. What a book doesn't say is as by default.
fn print_book(rt: &HostRuntime, segments: &Segments) -> anyhow::Result<()> {
    let view = View::root(segments, Limits::standard()).map_err(|fault| anyhow!("{fault}"))?;
    let book = AddressBookReader::of(PointerReader::of_view(view))?;
    print_head(rt, &book)?;
    for person in book.people()? {
        print_person(rt, &person)?;
    }
    Ok(())
}

/// Prints whose book it is, and what people are sorted into.
fn print_head(rt: &HostRuntime, book: &AddressBookReader<'_>) -> anyhow::Result<()> {
    print!(rt; "of {}:", book.owner()?.name()?.text(rt.alloc())?.as_str())?;
    for circle in book.circles()? {
        print!(rt; " {}", circle?.text(rt.alloc())?.as_str())?;
    }
    println!(rt; "")?;
    Ok(())
}

/// Prints a person's line, and one for each phone.
fn print_person(rt: &HostRuntime, person: &PersonReader<'_>) -> anyhow::Result<()> {
    println!(rt; "{}", line_of(rt.alloc(), person)?.as_str())?;
    for phone in person.phones()? {
        print_phone(rt, &phone)?;
    }
    Ok(())
}

/// A person's number and name, age and work.
fn line_of(alloc: Global, person: &PersonReader<'_>) -> anyhow::Result<String> {
    let name = person.name()?.text(alloc)?;
    let work = work_of(alloc, person)?;
    let (number, age) = (person.id(), person.age());
    Ok(format!(in alloc; "{number} {}, {age}: {}", name.as_str(), work.as_str())?)
}

/// Prints a phone's number, and what it is for.
fn print_phone(rt: &HostRuntime, phone: &PersonPhoneNumberReader<'_>) -> anyhow::Result<()> {
    let number = phone.number()?.text(rt.alloc())?;
    println!(rt; "    {} ({})", number.as_str(), use_of(phone.type_()))?;
    Ok(())
}

/// What a person does.
fn work_of(alloc: Global, person: &PersonReader<'_>) -> anyhow::Result<String> {
    Ok(match person.employment().member()? {
        Work::Unemployed => String::from_str(alloc, "unemployed")?,
        Work::SelfEmployed => String::from_str(alloc, "self-employed")?,
        Work::Employer(name) => format!(in alloc; "works at {}", name.text(alloc)?.as_str())?,
        Work::School(name) => format!(in alloc; "learns at {}", name.text(alloc)?.as_str())?,
        Work::Unknown(number) => format!(in alloc; "{number:?}")?,
    })
}

/// What a phone is for.
fn use_of(kind: Phone) -> &'static str {
    match kind {
        Phone::Mobile => "mobile",
        Phone::Home => "home",
        Phone::Work => "work",
        Phone::Unknown(_) => "other",
    }
}
