//! The model of a page: a tree of named values, from which templates are filled.

use crate::out::Out;
use std::alloc::Global;

/// The deepest that records may lie within one another.
const DEEPEST: u32 = 1000;

/// A value.
#[derive(Clone, Copy)]
pub enum Value<'m> {
    Text(&'m str),
    Bytes(&'m [u8]),
    Number(u64),
    /// A text of the model's own, by where it begins and ends.
    Own(usize, usize),
    /// Values by their names.
    Record,
    /// Records one after another.
    List,
}

/// A value, with its name in its record. What it contains follows it.
#[derive(Clone, Copy)]
struct Entry<'m> {
    key: &'static str,
    value: Value<'m>,
    /// The record or the list that it is in.
    within: usize,
    /// The first entry after all that it contains.
    end: usize,
}

/// What can't be written, and why.
#[derive(Clone, Copy)]
pub struct Refusal<'m> {
    pub title: &'m str,
    pub member: &'m str,
    pub why: &'static str,
}

/// A tree of named values, in one row: each is before what it contains.
pub struct Model<'m> {
    pub alloc: Global,
    /// The crate and the module that it is of.
    pub page: (&'m str, &'m str),
    entries: Vec<Entry<'m>>,
    own: Out,
    /// The record or the list that is open.
    open: usize,
    is_full: bool,
    /// The first thing that can't be written, for which nothing is.
    pub refusal: Option<Refusal<'m>>,
    /// Constants that can't be written, without which all else is.
    pub left_out: Vec<Refusal<'m>>,
}

// Not derived: who lets one go calls this function, and need not prove the drop of its texts.
impl Drop for Model<'_> {
    fn drop(self) {
        let Model {
            alloc: _,
            page: _,
            entries: _,
            own: _,
            open: _,
            is_full: _,
            refusal: _,
            left_out: _,
        } = self;
    }
}

impl<'m> Model<'m> {
    /// A record without values, of a module of a crate.
    pub fn new(alloc: Global, page: (&'m str, &'m str)) -> Model<'m> {
        let mut model = Model {
            alloc,
            page,
            entries: Vec::new(alloc),
            own: Out::new(alloc),
            open: 0,
            is_full: false,
            refusal: None,
            left_out: Vec::new(alloc),
        };
        model.open("", Value::Record);
        model
    }

    /// Says that a type, or a member of it, can't be written. Only the first is reported.
    pub fn refuse(&mut self, title: &'m str, member: &'m str, why: &'static str) {
        if self.refusal.is_none() {
            self.refusal = Some(Refusal { title, member, why });
        }
    }

    /// Says that a constant is left out.
    pub fn leave_out(&mut self, title: &'m str, why: &'static str) {
        let of = Refusal {
            title,
            member: "",
            why,
        };
        if self.left_out.push(of).is_err() {
            self.is_full = true;
        }
    }

    pub fn text(&mut self, key: &'static str, text: &'m str) {
        self.add(key, Value::Text(text));
    }

    pub fn bytes(&mut self, key: &'static str, bytes: &'m [u8]) {
        self.add(key, Value::Bytes(bytes));
    }

    pub fn number(&mut self, key: &'static str, number: u64) {
        self.add(key, Value::Number(number));
    }

    /// Adds texts by their names.
    pub fn texts(&mut self, texts: &[(&'static str, &'m str)]) {
        for (key, text) in texts {
            self.text(key, text);
        }
    }

    /// Adds numbers by their names.
    pub fn numbers(&mut self, numbers: &[(&'static str, u64)]) {
        for (key, number) in numbers {
            self.number(key, *number);
        }
    }

    /// Adds a text of these parts.
    pub fn own<'p>(&mut self, key: &'static str, parts: &[&'p str]) {
        let start = self.own.as_str().len();
        self.own.all(parts);
        let end = self.own.as_str().len();
        self.add(key, Value::Own(start, end));
    }

    /// Begins a record, to which what follows is added.
    pub fn record(&mut self, key: &'static str) {
        self.open(key, Value::Record);
    }

    /// Begins a list, whose records follow.
    pub fn list(&mut self, key: &'static str) {
        self.open(key, Value::List);
    }

    fn open(&mut self, key: &'static str, value: Value<'m>) {
        let at = self.entries.len();
        self.add(key, value);
        self.open = at;
    }

    /// Ends the record or the list that was begun last.
    pub fn close(&mut self) {
        let end = self.entries.len();
        if let Some(entry) = self.entries.get_mut(self.open) {
            entry.end = end;
            self.open = entry.within;
        }
    }

    fn add(&mut self, key: &'static str, value: Value<'m>) {
        let entry = Entry {
            key,
            value,
            within: self.open,
            end: self.entries.len().saturating_add(1),
        };
        if self.entries.push(entry).is_err() {
            self.is_full = true;
        }
    }

    /// Says that memory ran out.
    pub fn fill_up(&mut self) {
        self.is_full = true;
    }

    /// Whether memory ran out.
    pub fn is_full(&self) -> bool {
        self.is_full || self.own.is_full
    }

    /// The value at a place, and the first place after all that it contains.
    pub fn at(&self, place: usize) -> Option<(Value<'m>, usize)> {
        let entry = self.entries.get(place)?;
        Some((entry.value, entry.end))
    }

    /// The place of a value, by its name in this record or in one that this is in; after a dot comes a name in that record.
    pub fn find(&self, record: usize, path: &str) -> Option<usize> {
        match path.split_once('.') {
            Some((first, second)) => self.inside(self.outward(record, first)?, second),
            None => self.outward(record, path),
        }
    }

    /// The place of a value of this name in a record, or in the nearest that it is in.
    fn outward(&self, record: usize, key: &str) -> Option<usize> {
        let mut at = record;
        for _ in 0..DEEPEST {
            match self.inside(at, key) {
                None if at > 0 => at = self.entries.get(at)?.within,
                found => return found,
            }
        }
        None
    }

    /// The place of a value of this name in a record.
    fn inside(&self, record: usize, key: &str) -> Option<usize> {
        let end = self.entries.get(record)?.end;
        let mut at = record.saturating_add(1);
        for _ in at..end {
            if at >= end {
                return None;
            }
            let entry = self.entries.get(at)?;
            if entry.key == key {
                return Some(at);
            }
            at = entry.end;
        }
        None
    }

    /// The text at a place, if one is there.
    pub fn text_at(&self, place: usize) -> &str {
        match self.entries.get(place) {
            Some(entry) => match entry.value {
                Value::Text(text) => text,
                Value::Own(start, end) => self.own.as_str().get(start..end).unwrap_or(""),
                _ => "",
            },
            None => "",
        }
    }

    /// Whether a place has a text, a number or a list that isn't empty, or a record.
    pub fn is_set(&self, place: usize) -> bool {
        match self.at(place) {
            Some((Value::Number(number), _)) => number > 0,
            Some((Value::Bytes(bytes), _)) => !bytes.is_empty(),
            Some((Value::List, end)) => end > place.saturating_add(1),
            Some((Value::Record, _)) => true,
            Some((Value::Text(_) | Value::Own(..), _)) => !self.text_at(place).is_empty(),
            None => false,
        }
    }
}
