//! A text, token by token.

use crate::fault::{EncodeFault, NotationFault};
use crate::json::after_json_blanks;
use crate::naming::put_type;
use crate::token::{Token, after_blanks, first_json_token, first_token};
use cp_schema::{Generics, Schema, Structure, Type};
use std::alloc::{AllocError, Global};

/// How many bytes of a token a fault shows at most.
const SHOWN: usize = 40;

/// What is left of a text. The first thing that isn't as it should be ends the reading: from there on there is nothing.
#[derive(Drop)]
pub(crate) struct Reader<'s, 't> {
    pub(crate) alloc: Global,
    pub(crate) schema: &'s Schema,
    /// What the parameters of generics stand for in the structs that are read.
    pub(crate) generics: Generics<'s>,
    pub(crate) is_json: bool,
    text: &'t [u8],
    /// The token that is next.
    pub(crate) token: Token<'t>,
    /// What is left from that token on, and after it.
    from: &'t [u8],
    rest: &'t [u8],
    /// The capabilities that were named, in the notation of scripts. `None`: none may be.
    pub(crate) caps: Option<Vec<String>>,
    /// What was wrong first.
    fault: Option<EncodeFault>,
}

impl<'s, 't> Reader<'s, 't> {
    /// A reader of a text, at its first token.
    pub(crate) fn new(
        alloc: Global,
        schema: &'s Schema,
        is_json: bool,
        text: &'t [u8],
        caps: Option<Vec<String>>,
    ) -> Reader<'s, 't> {
        let mut reader = Reader {
            alloc,
            schema,
            generics: Generics::new(alloc),
            is_json,
            text,
            token: Token::End,
            from: text,
            rest: text,
            caps,
            fault: None,
        };
        reader.advance();
        reader
    }

    /// Whether all was read, and was as it should be: the capabilities that were named.
    pub(crate) fn end(mut self) -> Result<Vec<String>, EncodeFault> {
        if !matches!(self.token, Token::End) {
            self.miss("the end");
        }
        if self.generics.is_starved() {
            self.starve();
        }
        let Reader {
            alloc,
            schema: _,
            generics: _,
            is_json: _,
            text: _,
            token: _,
            from: _,
            rest: _,
            caps,
            fault,
        } = self;
        match (fault, caps) {
            (Some(fault), caps) => {
                drop(caps);
                Err(fault)
            }
            (None, Some(caps)) => Ok(caps),
            (None, None) => Ok(Vec::new(alloc)),
        }
    }

    /// Goes on to the token after the next.
    pub(crate) fn advance(&mut self) {
        let (token, rest) = if self.is_json {
            self.from = after_json_blanks(self.rest);
            first_json_token(self.from)
        } else {
            self.from = after_blanks(self.rest);
            first_token(self.from)
        };
        self.token = token;
        self.rest = rest;
    }

    /// Goes back to the token that was next when this was left, unless the reading has ended.
    pub(crate) fn go_to(&mut self, left: &'t [u8]) {
        if self.is_right() {
            self.rest = left;
            self.advance();
        }
    }

    /// Whether nothing was wrong so far.
    pub(crate) fn is_right(&self) -> bool {
        self.fault.is_none()
    }

    /// How many more tokens there are at most.
    pub(crate) fn most(&self) -> usize {
        self.from.len()
    }

    /// Whether a mark is next.
    pub(crate) fn is_next(&self, mark: u8) -> bool {
        matches!(self.token, Token::Mark(byte) if byte == mark)
    }

    /// Takes a mark off, if it is next.
    pub(crate) fn takes(&mut self, mark: u8) -> bool {
        let is_next = self.is_next(mark);
        if is_next {
            self.advance();
        }
        is_next
    }

    /// Takes a mark off.
    pub(crate) fn skip(&mut self, mark: u8, name: &str) {
        if !self.takes(mark) {
            self.miss(name);
        }
    }

    /// Whether a row has a part at this place. Takes the comma before it off, or the row's end, before which a comma may be in texts.
    pub(crate) fn goes_on(&mut self, place: usize, end: u8, wanted: &str) -> bool {
        if self.takes(end) {
            return false;
        }
        if place > 0 {
            self.skip(b',', wanted);
            if !self.is_json && self.takes(end) {
                return false;
            }
        }
        self.is_right()
    }

    /// What is left from the next token on.
    pub(crate) fn mark(&self) -> &'t [u8] {
        self.from
    }

    /// Ends the reading at the token that was next when this was left, where this is wanted.
    pub(crate) fn miss_from(&mut self, left: &'t [u8], wanted: &str) {
        self.from = left;
        self.miss(wanted);
    }

    /// Ends the reading here, where this is wanted.
    pub(crate) fn miss(&mut self, wanted: &str) {
        let mut message = String::new(self.alloc);
        let written = write!(message, "wanted {wanted}");
        let written = written.is_ok() && self.put_token(&mut message);
        self.fail(message, written);
    }

    /// Ends the reading here, where that is wanted which a text says, if there was memory for it.
    pub(crate) fn miss_made(&mut self, wanted: Result<String, AllocError>) {
        match wanted {
            Ok(wanted) => {
                self.miss(wanted.as_str());
                drop(wanted);
            }
            Err(_) => self.starve(),
        }
    }

    /// Ends the reading here, where structs and lists would lie too deep.
    pub(crate) fn miss_depth(&mut self) {
        self.miss("structs and lists that lie no more than 64 deep within one another");
    }

    /// Ends the reading here, where a value of this type is wanted.
    pub(crate) fn miss_type(&mut self, of: Type) {
        let mut message = String::new(self.alloc);
        let written = message.push_str("wanted ").is_ok();
        let written = written && put_type(&mut message, self.schema, of).is_ok();
        let written = written && self.put_token(&mut message);
        self.fail(message, written);
    }

    /// Ends the reading here, with this message, if it could be written.
    pub(crate) fn fail(&mut self, message: String, is_written: bool) {
        if self.fault.is_none() {
            let read = self.text.len().saturating_sub(self.from.len());
            let (line, column) = place_after(self.text, read);
            self.fault = Some(if is_written {
                EncodeFault::Text(NotationFault {
                    line,
                    column,
                    message,
                })
            } else {
                EncodeFault::OutOfMemory
            });
        }
        self.stop();
    }

    /// Ends the reading where memory ran out.
    pub(crate) fn starve(&mut self) {
        if self.fault.is_none() {
            self.fault = Some(EncodeFault::OutOfMemory);
        }
        self.stop();
    }

    /// Adds an item. Where memory runs out, ends the reading here.
    pub(crate) fn push<T: Drop>(&mut self, items: &mut Vec<T>, item: T) {
        if items.push(item).is_err() {
            self.starve();
        }
    }

    /// The struct of this number, if the schema has it.
    pub(crate) fn structure(&self, id: u64) -> Option<&'s Structure> {
        self.schema.find(id)?.structure()
    }

    /// Ends the reading here.
    fn stop(&mut self) {
        self.token = Token::End;
        self.from = &[];
        self.rest = &[];
    }

    /// Adds what there is to what is wanted. Says whether it could.
    fn put_token(&self, message: &mut String) -> bool {
        let written = match self.token {
            Token::End => message.push_str(", there is the end"),
            Token::Open => message.push_str(", there is a text without its end"),
            _ => {
                let length = self.from.len().saturating_sub(self.rest.len()).min(SHOWN);
                let shown = self.from.get(..length).unwrap_or(&[]);
                match str::from_utf8(shown) {
                    Ok(shown) => write!(message, ", there is {shown}"),
                    Err(_) => message.push_str(", there is something else"),
                }
            }
        };
        written.is_ok()
    }
}

/// The line and the column of the byte that stands after so many others.
fn place_after(text: &[u8], count: usize) -> (usize, usize) {
    let (mut line, mut column) = (1_usize, 1_usize);
    for (place, byte) in text.iter().enumerate() {
        if place == count {
            break;
        }
        if *byte == b'\n' {
            line = line.saturating_add(1);
            column = 1;
        } else {
            column = column.saturating_add(1);
        }
    }
    (line, column)
}
