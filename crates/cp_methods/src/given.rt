//! What questions gave, by the fields of their results.

use crate::calls::CallReader;
use crate::fault::{missed, missed_made};
use crate::word::Part;
use cp_encoder::{EncodeFault, Nearest, put_type};
use cp_schema::{Base, FieldKind, NodeKind, Slot, Structure};
use std::alloc::AllocError;

/// A capability that a question gave, or a struct on the way to it.
#[derive(Drop)]
pub(crate) struct Given {
    /// The question with the pointers that lead there, in the notation of scripts, but for its last bracket.
    words: String,
    pointers: usize,
    pub(crate) kind: GivenKind,
}

/// What a question gave.
#[derive(Clone, Copy)]
pub(crate) enum GivenKind {
    /// A struct of this number.
    Struct(u64),
    /// An object with this interface.
    Interface(u64),
    /// The bootstrap, or a pointer of any kind.
    Any,
    /// Results that the schema doesn't have.
    Unknown,
}

impl Given {
    /// The capability, in the notation of scripts.
    pub(crate) fn into_words(self) -> Result<String, AllocError> {
        let Given {
            words,
            pointers: _,
            kind: _,
        } = self;
        let mut words = words;
        match words.push(']') {
            Ok(()) => Ok(words),
            Err(error) => {
                drop(words);
                Err(error)
            }
        }
    }

    /// Goes on by a pointer.
    fn follow(&mut self, place: u32, kind: GivenKind) -> Result<(), AllocError> {
        if self.pointers > 0 {
            self.words.push(',')?;
        }
        write!(self.words, "{place}")?;
        self.pointers = self.pointers.saturating_add(1);
        self.kind = kind;
        Ok(())
    }
}

impl<'s> CallReader<'s> {
    /// The capability that `1.page` names: a question, and fields one in another.
    pub(crate) fn given(&self, reference: Part<'_>) -> Result<Given, EncodeFault> {
        let given = self.reached(reference)?;
        match given.kind {
            GivenKind::Interface(_) | GivenKind::Any => Ok(given),
            GivenKind::Struct(_) | GivenKind::Unknown => {
                drop(given);
                Err(missed(
                    self.alloc,
                    reference.column,
                    "a field that is a capability",
                    reference.text,
                ))
            }
        }
    }

    /// What is reached from a question by fields.
    fn reached(&self, reference: Part<'_>) -> Result<Given, EncodeFault> {
        let (number, _) = reference.cut_first('.');
        let mut given = self.question(number)?;
        match self.follow(&mut given, reference) {
            Ok(()) => Ok(given),
            Err(fault) => {
                drop(given);
                Err(fault)
            }
        }
    }

    /// Goes on by the fields of a reference, which come after its number.
    fn follow(&self, given: &mut Given, reference: Part<'_>) -> Result<(), EncodeFault> {
        let (_, mut left) = reference.cut_first('.');
        // Each field takes its mark at least.
        for _ in 0..reference.text.len() {
            let Some(fields) = left else {
                break;
            };
            let (field, after) = fields.cut_first('.');
            self.step(given, field)?;
            left = after;
        }
        Ok(())
    }

    /// What the question of this number gave.
    fn question(&self, number: Part<'_>) -> Result<Given, EncodeFault> {
        let number = number.after("question:");
        match self.kind_of(number.text) {
            Some(kind) => {
                let words = format!(in self.alloc; "question:{}[", number.text)?;
                Ok(Given {
                    words,
                    pointers: 0,
                    kind,
                })
            }
            None => {
                let count = self.asked();
                let wanted = format!(in self.alloc;
                    "the number of one of {count} earlier calls, or 0 for the bootstrap"
                )?;
                Err(missed_made(self.alloc, number.column, Ok(wanted), number.text))
            }
        }
    }

    /// What the question of this number gave, if it was asked.
    fn kind_of(&self, number: &str) -> Option<GivenKind> {
        let number = number.parse::<u32>().ok()?;
        let Some(place) = number.checked_sub(1) else {
            return Some(GivenKind::Any);
        };
        Some(match self.results_of(place as usize)? {
            Some(id) => GivenKind::Struct(id),
            None => GivenKind::Unknown,
        })
    }

    /// Goes on by a field.
    fn step(&self, given: &mut Given, name: Part<'_>) -> Result<(), EncodeFault> {
        let Some(of) = self.structure(given.kind) else {
            return Err(self.missed_end(given.kind, name));
        };
        let Some(field) = of
            .fields
            .iter()
            .find(|field| field.name.as_str() == name.text)
        else {
            return Err(self.missed_field(of, name));
        };
        match &field.kind {
            // A group lies in the same struct.
            FieldKind::Group(id) => {
                given.kind = GivenKind::Struct(*id);
                Ok(())
            }
            FieldKind::Slot(slot) => match kind_of(slot) {
                Some(kind) => Ok(given.follow(slot.place, kind)?),
                None => Err(self.missed_type(slot, name)),
            },
            FieldKind::Unknown => Err(missed(
                self.alloc,
                name.column,
                "a field of a kind that is known",
                name.text,
            )),
        }
    }

    /// The struct that a question gave.
    fn structure(&self, kind: GivenKind) -> Option<&'s Structure> {
        let GivenKind::Struct(id) = kind else {
            return None;
        };
        match &self.schema.find(id)?.kind {
            NodeKind::Struct(of) => Some(of),
            _ => None,
        }
    }

    /// A name where what was reached has no fields.
    fn missed_end(&self, kind: GivenKind, name: Part<'_>) -> EncodeFault {
        let wanted = match kind {
            GivenKind::Unknown => "a question whose results the schema has",
            _ => "no field, since what is there is a capability",
        };
        missed(self.alloc, name.column, wanted, name.text)
    }

    /// A name where a field is wanted.
    fn missed_field(&self, of: &Structure, name: Part<'_>) -> EncodeFault {
        let mut nearest = Nearest::new(self.alloc, name.text.as_bytes());
        for field in &of.fields {
            nearest.add(field.name.as_str());
        }
        let wanted = nearest.wanted("a field");
        drop(nearest);
        missed_made(self.alloc, name.column, wanted, name.text)
    }

    /// A field where one of another type is wanted.
    fn missed_type(&self, slot: &Slot, name: Part<'_>) -> EncodeFault {
        let mut there = String::new(self.alloc);
        let written = there.push_str(name.text).is_ok()
            && there.push_str(" of type ").is_ok()
            && put_type(&mut there, self.schema, slot.of).is_ok();
        if !written {
            drop(there);
            return EncodeFault::OutOfMemory;
        }
        let wanted = "a field that is a capability, or a struct with one";
        let fault = missed(self.alloc, name.column, wanted, there.as_str());
        drop(there);
        fault
    }
}

/// What a field leads to, if that can have a capability.
fn kind_of(slot: &Slot) -> Option<GivenKind> {
    if slot.of.lists > 0 {
        return None;
    }
    match slot.of.of {
        Base::Struct(id) => Some(GivenKind::Struct(id)),
        Base::Interface(id) => Some(GivenKind::Interface(id)),
        Base::AnyPointer => Some(GivenKind::Any),
        _ => None,
    }
}
