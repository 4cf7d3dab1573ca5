//! Lists without pointers.

use crate::numbers::width_of;
use crate::reader::Reader;
use crate::value::{TextValue, Width};
use cp_schema::Base;

/// What ends a list, and what is wanted before that.
pub(crate) const END: u8 = b']';

pub(crate) const WANTED: &str = ", or ]";

/// An element that is no pointer.
trait Element: Drop {
    /// The element of this type that is next.
    fn read(reader: &mut Reader<'_, '_>, of: Base) -> Self;
}

impl Element for bool {
    fn read(reader: &mut Reader<'_, '_>, _of: Base) -> bool {
        reader.truth()
    }
}

impl Element for u8 {
    fn read(reader: &mut Reader<'_, '_>, of: Base) -> u8 {
        u8::try_from(reader.bits(of)).unwrap_or(0)
    }
}

impl Element for u16 {
    fn read(reader: &mut Reader<'_, '_>, of: Base) -> u16 {
        u16::try_from(reader.bits(of)).unwrap_or(0)
    }
}

impl Element for u32 {
    fn read(reader: &mut Reader<'_, '_>, of: Base) -> u32 {
        u32::try_from(reader.bits(of)).unwrap_or(0)
    }
}

impl Element for u64 {
    fn read(reader: &mut Reader<'_, '_>, of: Base) -> u64 {
        reader.bits(of)
    }
}

impl<'s, 't> Reader<'s, 't> {
    /// A list of elements of this type, which is no pointer, after its bracket.
    pub(crate) fn flat(&mut self, of: Base) -> TextValue {
        match width_of(of) {
            None => self.voids(),
            Some(Width::Bit) => TextValue::Bits(self.elements(of)),
            Some(Width::Byte) => TextValue::Bytes(self.elements(of)),
            Some(Width::TwoBytes) => TextValue::Halves(self.elements(of)),
            Some(Width::FourBytes) => TextValue::Quads(self.elements(of)),
            Some(Width::Word) => TextValue::Words(self.elements(of)),
        }
    }

    /// A list of elements without bits.
    fn voids(&mut self) -> TextValue {
        let mut count = 0_u32;
        for place in 0..=self.most() {
            if !self.goes_on(place, END, WANTED) {
                break;
            }
            self.void();
            count = count.saturating_add(1);
        }
        TextValue::Voids(count)
    }

    /// The elements of a list.
    fn elements<T: Element>(&mut self, of: Base) -> Vec<T> {
        let mut items = Vec::new(self.alloc);
        for place in 0..=self.most() {
            if !self.goes_on(place, END, WANTED) {
                break;
            }
            let item = T::read(self, of);
            self.push(&mut items, item);
        }
        items
    }
}
