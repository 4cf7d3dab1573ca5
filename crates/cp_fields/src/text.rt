//! Texts that are read where they lie.

ghost use Rattle.std.specs.Prelude.{◌≡◌, ◌↔◌, IfOk, IsTrue, IsUtf8, string_bytes, Err};
ghost use Rattle.cp_fields.specs.declared.text.TextFault.TheVariants.{NotUtf8, OutOfMemory};

use crate::bytes::{DataReader, bytes_at};
use crate::kind::{Kind, WrongKind};
use crate::pointer_reader::PointerReader;
use std::alloc::{AllocError, Global};
use std::error::Error;
use std::fmt;
use std::marker::Model;

/// Why a text isn't made.
#[derive(Clone, Copy, PartialEq, Eq, Debug)]
pub enum TextFault {
    /// Its bytes aren't UTF-8.
    NotUtf8,
    OutOfMemory,
}

impl fmt::Display for TextFault {
    fn fmt<W: fmt::Write>(&self, f: &mut fmt::Formatter<W>) -> fmt::Result {
        f.write_str(match self {
            TextFault::NotUtf8 => "a text's bytes aren't UTF-8",
            TextFault::OutOfMemory => "memory ran out",
        })
    }
}

impl Error for TextFault {}

impl From<AllocError> for TextFault {
    ghost use Rattle.std.specs.Prelude.{◌≡◌};
    ghost use Rattle.cp_fields.specs.declared.text.TextFault.TheVariants.{OutOfMemory};

    ghost from_gives = { λ _ e. e ≡ OutOfMemory };

    fn from(_: AllocError) -> TextFault {
        TextFault::OutOfMemory
    }
}

/// The bytes of a field of the type Text, where they lie: a list of bytes without the zero byte that ends
/// it (encoding specification, "Lists"). That they are UTF-8 is tested when a text is made of them.
/// Contracts see it as its bytes.
#[derive(Drop)]
pub struct TextReader<'a> {
    data: DataReader<'a>,
}

impl<'a> Model for TextReader<'a> {
    ghost use Rattle.std.specs.Prelude.{ℕ, List};

    ghost Value = { List ℕ };

    ghost view = { λ t. t.data };
}

impl<'a> TextReader<'a> {
    ghost use Rattle.std.specs.Prelude.{◌≡◌, ◌==◌, ◌↔◌, length, IfOk, IsTrue, IsUtf8, string_bytes, Err};
    ghost use Rattle.cp_fields.specs.Pointers.{text_field};
    ghost use Rattle.cp_fields.specs.declared.text.TextFault.TheVariants.{NotUtf8};

    /// The text that a pointer stands for; null stands for the default.
    #[inline(always)]
    #[tactic(auto, using(crate::proofs::Pointed::no_text))]
    pub fn of(at: PointerReader<'a>, default: &'a str) -> Result<TextReader<'a>, WrongKind>
        ensures { result ≡ text_field default.now at.entry }
    {
        match bytes_at(&at) {
            Some(bytes) => match bytes.before_zero() {
                Some(data) => Ok(TextReader { data }),
                None => Err(at.wrong(Kind::Text)),
            },
            None => {
                if at.is_null() {
                    Ok(TextReader {
                        data: DataReader::of_slice(default.as_bytes()),
                    })
                } else {
                    Err(at.wrong(Kind::Text))
                }
            }
        }
    }

    /// The number of bytes.
    #[inline(always)]
    pub fn len(&self) -> usize
        ensures { result ≡ length self.now }
    {
        self.data.len()
    }

    /// Whether there are none.
    pub fn is_empty(&self) -> bool
        ensures { result ≡ (length self.now == 0) }
    {
        self.data.is_empty()
    }

    /// The bytes.
    pub fn bytes(&self) -> DataReader<'a>
        ensures { result ≡ self.now }
    {
        self.data.reborrow()
    }

    /// Whether the bytes are UTF-8, as those of a text should be. Nothing is copied.
    pub fn is_utf8(&self) -> bool
        ensures { IsTrue result ↔ IsUtf8 self.now }
    {
        self.data.is_utf8()
    }

    /// The text, owned.
    pub fn text(&self, alloc: Global) -> Result<String, TextFault>
        ensures text { IfOk result (λ s. string_bytes s ≡ self.now) }
        ensures fault { result ≡ Err NotUtf8 → ¬ (IsUtf8 self.now) }
    {
        match String::from_utf8(self.data.to_vec(alloc)?) {
            Ok(text) => Ok(text),
            Err(_) => Err(TextFault::NotUtf8),
        }
    }
}
