//! Reading texts.

ghost use Rattle.std.specs.Prelude.{◌≡◌, ◌==◌, ◌<◌, length, IfOk};
ghost use Rattle.cp_messages.specs.Fields.{IsTextField, bytes_of, is_text, text_of};

use crate::source::{Source, SourceKind};
use cp_fields::{PointerReader, TextFault};
use cp_messages::Text;
use std::alloc::{AllocError, Global};
use std::marker::Model;

/// A text that is read in place. Contracts see it as its bytes, without the zero byte that ends it.
#[derive(Drop)]
pub struct MessageText<S: Source> {
    source: S,
}

impl<S: Source> Model for MessageText<S> {
    ghost use Rattle.std.specs.Prelude.{ℕ, List};

    ghost Value = { List ℕ };

    ghost use Rattle.cp_messages.specs.Fields.{IsTextField, text_of};

    ghost view = { λ t. text_of (S.seen t.source) };

    ghost invariant = { λ t. IsTextField (S.seen t.source) };
}

impl<S: Source> MessageText<S> {
    /// The text that a tree holds.
    pub(crate) fn of(source: S) -> MessageText<S>
        requires { IsTextField (S.seen source) }
        ensures { result ≡ text_of (S.seen source) }
    {
        MessageText { source }
    }

    /// The number of bytes.
    pub fn len(&self) -> usize
        ensures { result ≡ length self.now }
    {
        match self.source.source_kind() {
            // The zero byte at the end is no part of the text.
            SourceKind::Bytes(count) => count - 1,
            _ => 0,
        }
    }

    /// Whether the text is empty.
    pub fn is_empty(&self) -> bool
        ensures { result ≡ (length self.now == 0) }
    {
        self.len() == 0
    }

    /// The text, owned.
    pub fn text(&self, alloc: Global) -> Result<Text, AllocError>
        ensures { IfOk result (λ t. t ≡ self.now) }
    {
        self.source.text(alloc)
    }
}

/// Whether a pointer stands for a text: a list of bytes that ends in a zero byte, and is UTF-8 before that.
pub(crate) fn is_text(at: PointerReader<'_>) -> bool
    ensures { result ≡ is_text (bytes_of at.entry) }
{
    if at.is_null() {
        return false;
    }
    match cp_fields::TextReader::of(at, "") {
        Ok(text) => text.is_utf8(),
        Err(_) => false,
    }
}

/// The text that a pointer stands for; null stands for the empty text.
pub(crate) fn text_at(alloc: Global, at: PointerReader<'_>) -> Result<Text, AllocError>
    requires { IsTextField at }
    ensures { IfOk result (λ t. t ≡ text_of at.entry) }
{
    let Ok(text) = cp_fields::TextReader::of(at, "") else {
        // The field was tested when the message was read.
        unreachable!();
    };
    match text.text(alloc) {
        Ok(string) => Ok(Text::new(string)),
        Err(TextFault::NotUtf8) => unreachable!(),
        Err(TextFault::OutOfMemory) => Err(AllocError),
    }
}
