//! Texts.

ghost use Rattle.std.specs.Prelude.{◌≡◌, ◌<◌, ◌^◌, ◌++◌, ◌∷◌, [], true, length, IfOk, string_bytes};
ghost use Rattle.cp_tree.specs.DraftOf.{draft_of};
ghost use Rattle.cp_messages.specs.Fitting.{text_fits};
ghost use Rattle.cp_messages.specs.Representable.{IsText};
ghost use Rattle.cp_messages.specs.Written.{text_written};

use cp_tree::{Draft, Tree};
use std::alloc::{AllocError, Global};
use std::marker::Model;

/// A text (encoding specification, "Lists"). Contracts see it as its bytes, without the zero byte
/// that ends it in a message.
pub struct Text {
    string: String,
}

// Not derived: a crate that lets one go calls this function, and need not prove the drop of all that it holds.
impl Drop for Text {
    fn drop(self) {
        let Text { string: _ } = self;
    }
}

impl Model for Text {
    ghost use Rattle.std.specs.Prelude.{ℕ, List, string_bytes};

    ghost Value = { List ℕ };

    ghost view = { λ t. string_bytes t.string };
}

impl Text {
    /// The text.
    pub fn new(string: String) -> Text
        ensures { result ≡ string_bytes string }
    {
        Text { string }
    }

    /// The text, lent.
    pub fn as_str(&self) -> &str
        ensures { result.now ≡ self.now }
    {
        self.string.as_str()
    }

    /// The text itself.
    pub fn into_string(self) -> String
        ensures { string_bytes result ≡ self }
    {
        let Text { string } = self;
        string
    }

    /// An equal text.
    pub fn copy(&self, alloc: Global) -> Result<Text, AllocError>
        ensures { IfOk result (λ t. t ≡ self.now) }
    {
        Ok(Text::new(String::from_str(alloc, self.as_str())?))
    }

    /// Whether a list can have the text's bytes and the zero byte.
    pub(crate) fn fits(&self) -> bool
        ensures { result ≡ text_fits self.now }
    {
        self.as_str().len() + 1 < 1 << 29
    }

    /// The tree that the text is written as.
    pub(crate) fn draft<'a>(&self, alloc: Global) -> Result<Draft<'a>, AllocError>
        requires { text_fits self.now ≡ true }
        ensures made { IfOk result (λ d. draft_of d ≡ text_written self.now) }
        ensures held { IfOk result (λ d. IsText self.now) }
    {
        let bytes = self.as_str().as_bytes();
        // Null is read as the empty text.
        if bytes.is_empty() {
            return Ok(Draft::Own(Tree::Null));
        }
        Ok(Draft::Own(Tree::Bytes(with_end(alloc, bytes)?)))
    }
}

/// The bytes, and the zero byte that ends a text.
fn with_end(alloc: Global, bytes: &[u8]) -> Result<Vec<u8>, AllocError>
    requires { length bytes.now < 2 ^ 29 }
    ensures { IfOk result (λ v. v.items ≡ bytes.now ++ 0 ∷ []) }
{
    let mut ended = Vec::with_capacity(alloc, bytes.len() + 1)?;
    ended.extend_from_slice(bytes)?;
    ended.push(0)?;
    Ok(ended)
}
