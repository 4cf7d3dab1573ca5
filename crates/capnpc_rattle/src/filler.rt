//! Fills templates from a model. A template is a text with marks between dollars:
//!
//! | Mark | What it is |
//! |---|---|
//! | `name`, `record.name` | a value, of the nearest record that has one of this name |
//! | `name` + filter after a bar | the value in another spelling, such as `snake` |
//! | `doc name` | a schema's comment, as lines of a comment |
//! | `for name` .. `end` | what is between, for each record of a list, for a record, or so many times |
//! | `if name` .. `else` .. `end`, `unless name` .. `end` | what is between, if the value is there and isn't empty |
//! | `block kind name` | begins a template of this name, which ends where another begins |
//! | `insert kind name` | that template, or the one whose name is the value of this name; nothing if there is none |
//!
//! A mark that isn't a value and stands alone on a line takes the line with it.

use crate::model::{Model, Value};
use crate::out::Out;
use std::alloc::Global;

/// The deepest that sections and blocks may lie within one another.
const DEEPEST: u32 = 1000;

/// What a piece of a template is.
#[derive(Clone, Copy)]
enum Mark {
    Text,
    Value,
    Doc,
    For,
    If,
    Unless,
    Else,
    End,
    Block,
    Insert,
}

/// A text or a mark, with up to two words.
#[derive(Clone, Copy)]
struct Piece<'t> {
    mark: Mark,
    first: &'t str,
    second: &'t str,
}

/// Templates in pieces.
pub struct Templates<'t> {
    pieces: Vec<Piece<'t>>,
    pub is_full: bool,
}

// Not derived: who lets one go calls this function.
impl Drop for Templates<'_> {
    fn drop(self) {
        let Templates {
            pieces: _,
            is_full: _,
        } = self;
    }
}

impl<'t> Templates<'t> {
    pub fn new(alloc: Global, texts: &[&'t str]) -> Templates<'t> {
        let mut templates = Templates {
            pieces: Vec::new(alloc),
            is_full: false,
        };
        for text in texts {
            templates.add(text);
        }
        templates
    }

    /// Adds the pieces of a text, in which each second is a mark; the first begins a block.
    fn add(&mut self, text: &'t str) {
        let mut piece = Piece::text("");
        // Whether the last mark begins a line, and whether the block is one of a line.
        let (mut begins, mut is_inline) = (false, false);
        for (i, part) in text.split('$').enumerate().skip(1) {
            if i % 2 == 1 {
                piece = Piece::mark(part);
                begins = matches!(piece.mark, Mark::Block)
                    || begins && !matches!(piece.mark, Mark::Value);
                if is_inline && matches!(piece.mark, Mark::Block) {
                    self.end_line();
                }
            } else {
                let begun = if begins {
                    part.strip_prefix('\n')
                } else {
                    None
                };
                if matches!(piece.mark, Mark::Block) {
                    is_inline = begun.is_none();
                }
                piece = Piece::text(begun.unwrap_or(part));
                begins = part.ends_with('\n');
            }
            self.push(piece);
        }
        if is_inline {
            self.end_line();
        }
    }

    fn push(&mut self, piece: Piece<'t>) {
        if self.pieces.push(piece).is_err() {
            self.is_full = true;
        }
    }

    /// Takes the end of a line from the last piece.
    fn end_line(&mut self) {
        if let Some(piece) = self.pieces.last_mut() {
            piece.first = piece.first.strip_suffix('\n').unwrap_or(piece.first);
        }
    }

    /// Adds what the template of this name says of a record.
    pub fn fill(
        &self,
        model: &Model<'_>,
        (kind, name): (&str, &str),
        record: usize,
        out: &mut Out,
    ) {
        let filler = Filler {
            pieces: self.pieces.as_slice(),
            model,
        };
        filler.insert(
            Piece {
                mark: Mark::Insert,
                first: kind,
                second: name,
            },
            record,
            DEEPEST,
            out,
        );
    }
}

impl<'t> Piece<'t> {
    fn text(text: &'t str) -> Piece<'t> {
        Piece {
            mark: Mark::Text,
            first: text,
            second: "",
        }
    }

    /// A mark, by its words.
    fn mark(text: &'t str) -> Piece<'t> {
        let (word, rest) = text.split_once(' ').unwrap_or((text, ""));
        let mark = match word {
            "doc" => Mark::Doc,
            "for" => Mark::For,
            "if" => Mark::If,
            "unless" => Mark::Unless,
            "else" => Mark::Else,
            "end" => Mark::End,
            "block" => Mark::Block,
            "insert" => Mark::Insert,
            _ => Mark::Value,
        };
        let (first, second) = if matches!(mark, Mark::Value) {
            text.split_once('|').unwrap_or((text, ""))
        } else {
            rest.split_once(' ').unwrap_or((rest, ""))
        };
        Piece {
            mark,
            first,
            second,
        }
    }
}

/// Templates and a model.
#[derive(Clone, Copy)]
struct Filler<'f, 't, 'm> {
    pieces: &'f [Piece<'t>],
    model: &'f Model<'m>,
}

impl Filler<'_, '_, '_> {
    /// Adds a template.
    #[cycle(fill)]
    fn insert(self, piece: Piece<'_>, record: usize, depth: u32, out: &mut Out) {
        let (kind, name) = (piece.first, piece.second);
        let at = match self.block(kind, name) {
            Some(at) => at,
            None => match self.block(kind, self.text(record, name)) {
                Some(at) => at,
                None => return,
            },
        };
        if depth == 0 {
            out.is_full = true;
            return;
        }
        self.run((at, self.pieces.len()), record, depth - 1, out);
    }

    /// Adds the pieces from one place to another, or up to the next template.
    #[cycle(fill)]
    fn run(self, (from, to): (usize, usize), record: usize, depth: u32, out: &mut Out) {
        let mut next = from;
        for at in from..to {
            if at < next {
                continue;
            }
            let Some(piece) = self.pieces.get(at) else {
                return;
            };
            match piece.mark {
                Mark::Block => return,
                Mark::Text => out.put(piece.first),
                Mark::Value => self.value(*piece, record, out),
                Mark::Doc => out.doc(self.text(record, piece.first)),
                Mark::Insert => self.insert(*piece, record, depth, out),
                Mark::For | Mark::If | Mark::Unless => {
                    next = self.section((*piece, at), record, depth, out);
                }
                Mark::Else | Mark::End => {}
            }
        }
    }

    /// Adds a section that begins at a place, and gives the place after it.
    #[cycle(fill)]
    fn section(
        self,
        (piece, at): (Piece<'_>, usize),
        record: usize,
        depth: u32,
        out: &mut Out,
    ) -> usize {
        let (middle, end) = self.ends(at);
        let body = (at.saturating_add(1), middle);
        let place = self.model.find(record, piece.first);
        if depth == 0 {
            out.is_full = true;
        } else if matches!(piece.mark, Mark::For) {
            if let Some(place) = place {
                self.each(body, (record, place), depth - 1, out);
            }
        } else if self.is_set(place) == matches!(piece.mark, Mark::If) {
            self.run(body, record, depth - 1, out);
        } else {
            self.run((middle.saturating_add(1), end), record, depth - 1, out);
        }
        end.saturating_add(1)
    }

    /// Adds these pieces for each record of a list, for a record, or so many times.
    #[cycle(fill)]
    fn each(
        self,
        body: (usize, usize),
        (record, place): (usize, usize),
        depth: u32,
        out: &mut Out,
    ) {
        match self.model.at(place) {
            Some((Value::Number(times), _)) => {
                for _ in 0..times {
                    self.run(body, record, depth, out);
                }
            }
            Some((Value::Record, _)) => self.run(body, place, depth, out),
            Some((Value::List, end)) => {
                let mut at = place.saturating_add(1);
                for _ in at..end {
                    if at < end {
                        self.run(body, at, depth, out);
                        at = self.end_of(at);
                    }
                }
            }
            _ => {}
        }
    }

    /// The place after a value.
    fn end_of(self, place: usize) -> usize {
        match self.model.at(place) {
            Some((_, end)) => end,
            None => place,
        }
    }

    /// Where a section has its second part, if it has one, and where it ends.
    fn ends(self, at: usize) -> (usize, usize) {
        let mut depth = 0_u64;
        let mut middle = None;
        for i in at.saturating_add(1)..self.pieces.len() {
            match self.pieces.get(i) {
                Some(piece) => match piece.mark {
                    Mark::For | Mark::If | Mark::Unless => depth = depth.saturating_add(1),
                    Mark::Else if depth == 0 => middle = Some(i),
                    Mark::End if depth == 0 => return (middle.unwrap_or(i), i),
                    Mark::End => depth = depth.saturating_sub(1),
                    _ => {}
                },
                None => {}
            }
        }
        (self.pieces.len(), self.pieces.len())
    }

    /// The place where the template of this name begins.
    fn block(self, kind: &str, name: &str) -> Option<usize> {
        for (i, piece) in self.pieces.iter().enumerate() {
            if matches!(piece.mark, Mark::Block) && piece.first == kind && piece.second == name {
                return Some(i.saturating_add(1));
            }
        }
        None
    }

    /// The text of this name.
    fn text<'s>(&'s self, record: usize, path: &str) -> &'s str {
        match self.model.find(record, path) {
            Some(place) => self.model.text_at(place),
            None => "",
        }
    }

    fn is_set(self, place: Option<usize>) -> bool {
        match place {
            Some(place) => self.model.is_set(place),
            None => false,
        }
    }

    /// Adds a value in a spelling.
    fn value(self, piece: Piece<'_>, record: usize, out: &mut Out) {
        let Some(place) = self.model.find(record, piece.first) else {
            return;
        };
        match self.model.at(place) {
            Some((Value::Number(number), _)) => out.number(number, piece.second),
            Some((Value::Bytes(bytes), _)) => out.bytes(bytes, piece.second),
            Some(_) => out.spell(self.model.text_at(place), piece.second),
            None => {}
        }
    }
}
