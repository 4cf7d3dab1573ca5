//! Texts and data.

use crate::escape::{push_hex, push_text};
use crate::reader::Reader;
use crate::token::Token;
use crate::value::TextValue;
use base64::DecodeAllocError;
use base64::engine::general_purpose::STANDARD;
use cp_schema::{Base, DataForm};
use hex::FromHexError;

impl<'s, 't> Reader<'s, 't> {
    /// A text.
    pub(crate) fn text(&mut self) -> TextValue {
        if !matches!(self.token, Token::Text(_)) {
            self.miss("Text");
            return TextValue::Null;
        }
        TextValue::Text(self.texts())
    }

    /// Data, which has this form in JSON.
    pub(crate) fn data_bytes(&mut self, form: DataForm) -> TextValue {
        if self.is_json {
            return self.json_data(form);
        }
        match self.token {
            Token::Text(_) => TextValue::Bytes(self.texts()),
            Token::Hex(raw) => TextValue::Bytes(self.hex(raw)),
            _ => {
                self.miss("Data");
                TextValue::Null
            }
        }
    }

    /// The bytes of texts that stand one after another, or of a string of JSON.
    fn texts(&mut self) -> Vec<u8> {
        if self.is_json {
            return self.json_string();
        }
        let mut bytes = Vec::new(self.alloc);
        for _ in 0..=self.most() {
            let Token::Text(raw) = self.token else {
                break;
            };
            match push_text(&mut bytes, raw) {
                Ok(true) => self.advance(),
                Ok(false) => self.miss("a text with right escapes"),
                Err(_) => self.starve(),
            }
        }
        bytes
    }

    /// The bytes of a string of JSON.
    fn json_string(&mut self) -> Vec<u8> {
        let Token::Text(raw) = self.token else {
            return Vec::new(self.alloc);
        };
        let bytes = self.unescaped(raw);
        self.advance();
        bytes
    }

    /// Data in this form of JSON.
    fn json_data(&mut self, form: DataForm) -> TextValue {
        match (form, self.token) {
            (DataForm::Numbers, Token::Mark(b'[')) => {
                self.advance();
                self.flat(Base::Unsigned(8))
            }
            (DataForm::Base64, Token::Text(raw)) => {
                let decoded = STANDARD.decode(self.alloc, raw);
                let is_starved = matches!(decoded, Err(DecodeAllocError::OutOfMemory));
                self.decoded(decoded.ok(), is_starved, "Data in base64")
            }
            (DataForm::Hex, Token::Text(raw)) => {
                let decoded = hex::decode(self.alloc, raw);
                let is_starved = matches!(decoded, Err(FromHexError::OutOfMemory));
                self.decoded(decoded.ok(), is_starved, "Data in hexadecimal")
            }
            _ => {
                self.miss("Data");
                TextValue::Null
            }
        }
    }

    /// Data that was decoded, if it could be.
    fn decoded(&mut self, bytes: Option<Vec<u8>>, is_starved: bool, wanted: &str) -> TextValue {
        match bytes {
            Some(bytes) => {
                self.advance();
                TextValue::Bytes(bytes)
            }
            None => {
                if is_starved {
                    self.starve();
                } else {
                    self.miss(wanted);
                }
                TextValue::Null
            }
        }
    }

    /// The bytes of data in hexadecimal.
    fn hex(&mut self, raw: &[u8]) -> Vec<u8> {
        let mut bytes = Vec::new(self.alloc);
        match push_hex(&mut bytes, raw) {
            Ok(true) => self.advance(),
            Ok(false) => self.miss("two hexadecimal digits for each byte"),
            Err(_) => self.starve(),
        }
        bytes
    }
}
