//! The fields of a struct by their names.

use crate::given::Given;
use crate::nearest::Nearest;
use crate::reader::Reader;
use crate::token::Token;
use crate::value::{Fields, Number, Width};
use cp_schema::{Slot, StructField, Structure};

impl<'s, 't> Reader<'s, 't> {
    /// Takes the name of a field off that isn't given yet.
    pub(crate) fn named<'f>(
        &mut self,
        of: &'f Structure,
        given: &mut Given,
    ) -> Option<&'f StructField> {
        let Token::Name(name) = self.token else {
            self.miss("the name of a field");
            return None;
        };
        let found = of
            .fields
            .iter()
            .position(|field| field.name.as_bytes() == name);
        let field = found.and_then(|index| of.fields.get(index));
        match (found, field) {
            (Some(index), Some(field)) => {
                self.note(of, given, index, field);
                self.advance();
                Some(field)
            }
            _ => {
                self.miss_field(of, name);
                None
            }
        }
    }

    /// Notes that a field is given, unless it is already, or another one of its union.
    pub(crate) fn note(
        &mut self,
        of: &Structure,
        given: &mut Given,
        index: usize,
        field: &StructField,
    ) {
        let earlier = given.note(index, field.is_member());
        match earlier {
            Ok(None) => {}
            Ok(Some(other)) if other == index => self.miss("a field that isn't given yet"),
            Ok(Some(other)) => self.miss_member(of.fields.get(other)),
            Err(_) => self.starve(),
        }
    }

    /// Ends the reading here, where no other field of the union is wanted than this.
    fn miss_member(&mut self, other: Option<&StructField>) {
        let name = match other {
            Some(field) => field.name.as_str(),
            None => "",
        };
        let mut wanted = String::new(self.alloc);
        match write!(wanted, "no other field of the union that {name} is in") {
            Ok(()) => self.miss_made(Ok(wanted)),
            Err(_) => self.starve(),
        }
    }

    /// Ends the reading here, where a field is wanted and there is another name.
    fn miss_field(&mut self, of: &Structure, name: &[u8]) {
        let mut nearest = Nearest::new(self.alloc, name);
        for field in &of.fields {
            nearest.add(field.name.as_str());
        }
        let wanted = nearest.wanted("a field");
        drop(nearest);
        self.miss_made(wanted);
    }

    /// Notes which member of a union is given.
    pub(crate) fn tag(&mut self, of: &Structure, tag: u16, into: &mut Fields) {
        let number = Number {
            width: Width::TwoBytes,
            place: of.tag_place,
            bits: tag as u64,
            default: 0,
        };
        self.push(&mut into.numbers, number);
    }

    /// Adds a number, if its type has bits.
    pub(crate) fn number(
        &mut self,
        into: &mut Fields,
        width: Option<Width>,
        slot: &Slot,
        bits: u64,
    ) {
        if let Some(width) = width {
            let number = Number {
                width,
                place: slot.place,
                bits,
                default: slot.default,
            };
            self.push(&mut into.numbers, number);
        }
    }
}
