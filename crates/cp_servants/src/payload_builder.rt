//! Contents that are made field by field.

ghost use Rattle.std.specs.Prelude.{IfOk};
ghost use Rattle.cp_tree.specs.Shaped.{AllFit};
ghost use Rattle.cp_servants.specs.Made.{ComesTo};

use crate::outcomes::results_too_long;
use cp_builder::{BuildError, bytes_of, cap_of, text_of};
use cp_refs::{Cap, Caps, Outcome, Request};
use cp_tree::{Body, Tree, Whole};
use std::alloc::{AllocError, Global};
use std::marker::Model;

/// The most data words that a struct has, and the most pointers.
const MOST: usize = 0xffff;

/// The params of a call, or the results of one: a struct that is made field by field, with the capabilities that its
/// pointers name. Each call adds a data word, or a pointer, after those before it.
///
/// `TooLong` says that no message holds so much: a struct has at most 65,535 words and as many pointers, and a text or data
/// has fewer than 2^29 bytes.
#[derive(Drop)]
pub struct PayloadBuilder {
    alloc: Global,
    words: Vec<u64>,
    pointers: Vec<Tree>,
    caps: Vec<Cap>,
}

impl Model for PayloadBuilder {
    ghost use Rattle.cp_servants.specs.Made.{Made, made_code};

    ghost Value = { Made };

    ghost coded = { made_code };

    ghost use Rattle.std.specs.Prelude.{map, length, ◌<◌, ◌≤◌, ◌^◌};
    ghost use Rattle.cp_tree.specs.NodeOf.{node_of, nodes_of};
    ghost use Rattle.cp_tree.specs.Shaped.{EachShaped};

    ghost view = { λ c. record { words = c.words.items; pointers = map node_of c.pointers.items; caps = c.caps.items } };

    ghost use Rattle.cp_servants.specs.Made.{HoldsUp};

    ghost invariant = { λ c. HoldsUp (length c.words.items) (map node_of c.pointers.items) (length c.caps.items) };
}

impl PayloadBuilder {
    ghost use Rattle.std.specs.Prelude.{◌≡◌, ◌⊎◌, ◌↔◌, ◌+◌, ◌≤◌, ◌^◌, ◌++◌, ◌∷◌, [], length, Err, IfOk};
    ghost use Rattle.cp_builder.specs.Drafts.{text_tree, bytes_tree};
    ghost use Rattle.cp_builder.specs.declared.fault.BuildError.TheVariants.{TooLong};
    ghost use Rattle.cp_refs.specs.declared.outcome.Outcome.TheVariants.{Results};
    ghost use Rattle.cp_servants.specs.Made.{nothing, with_word, with_pointer, content_of};
    ghost use Rattle.cp_servants.specs.Naming.{pointer_naming, with_named};

    /// A struct without fields.
    pub fn new(alloc: Global) -> PayloadBuilder
        ensures { result ≡ nothing }
    {
        PayloadBuilder {
            alloc,
            words: Vec::new(alloc),
            pointers: Vec::new(alloc),
            caps: Vec::new(alloc),
        }
    }

    /// One data word more.
    pub fn word(mut self, word: u64) -> Result<PayloadBuilder, BuildError>
        ensures made { IfOk result (λ c. c ≡ with_word self word) }
        ensures long { result ≡ Err TooLong ↔ 2 ^ 16 ≤ length self.words + 1 }
    {
        if self.words.len() >= MOST {
            return Err(BuildError::TooLong);
        }
        self.words.push(word)?;
        Ok(self)
    }

    /// One pointer more, to this.
    pub fn pointer(mut self, whole: Whole) -> Result<PayloadBuilder, BuildError>
        ensures made { IfOk result (λ c. c ≡ with_pointer self whole) }
        ensures long { result ≡ Err TooLong ↔ 2 ^ 16 ≤ length self.pointers + 1 }
    {
        if self.pointers.len() >= MOST {
            return Err(BuildError::TooLong);
        }
        self.pointers.push(whole.into_tree())?;
        Ok(self)
    }

    /// One pointer more, to a text.
    pub fn text(self, text: &str) -> Result<PayloadBuilder, BuildError>
        ensures made { IfOk result (λ c. c ≡ with_pointer self (text_tree text.now)) }
        ensures long { result ≡ Err TooLong → (2 ^ 29 ≤ length text.now + 1) ⊎ (2 ^ 16 ≤ length self.pointers + 1) }
    {
        match text_of(self.alloc, text) {
            Ok(whole) => self.pointer(whole),
            Err(fault) => Err(fault),
        }
    }

    /// One pointer more, to data.
    pub fn data(self, bytes: &[u8]) -> Result<PayloadBuilder, BuildError>
        ensures made { IfOk result (λ c. c ≡ with_pointer self (bytes_tree bytes.now)) }
        ensures long { result ≡ Err TooLong → (2 ^ 29 ≤ length bytes.now) ⊎ (2 ^ 16 ≤ length self.pointers + 1) }
    {
        let copy = Vec::from_slice(self.alloc, bytes)?;
        match bytes_of(copy) {
            Ok(whole) => self.pointer(whole),
            Err(fault) => Err(fault),
        }
    }

    /// One pointer more, to a capability. It is null for one that is null or broken, which no descriptor says.
    pub fn cap(self, cap: Cap) -> Result<PayloadBuilder, BuildError>
        ensures made { IfOk result (λ c. c ≡ record (with_pointer self (pointer_naming self.caps cap)) { caps = with_named self.caps cap }) }
        ensures long { result ≡ Err TooLong ↔ 2 ^ 16 ≤ length self.pointers + 1 }
    {
        if matches!(&cap, Cap::None | Cap::Broken(_)) {
            drop(cap);
            return self.pointer(Whole::null());
        }
        let index = self.caps.len() as u32;
        let mut named = self.pointer(cap_of(index))?;
        named.caps.push(cap)?;
        Ok(named)
    }

    /// A call of this method, with these params.
    pub fn request(self, interface: u64, method: u16) -> Request
        ensures method { (result.interface ≡ interface) × (result.method ≡ method) }
        ensures content { (result.content ≡ content_of self) × (result.caps ≡ self.caps) }
    {
        let (content, caps) = self.into_parts();
        Request {
            interface,
            method,
            content,
            caps,
        }
    }

    /// An outcome with these results.
    pub fn results(self) -> Outcome
        ensures { result ≡ Results (content_of self) self.caps }
    {
        let (content, caps) = self.into_parts();
        Outcome::Results { content, caps }
    }

    /// The struct, and the table of the capabilities that it names.
    fn into_parts(self) -> (Whole, Caps)
        ensures content { result.0 ≡ content_of self }
        ensures caps { result.1 ≡ self.caps }
    {
        // For the proof.
        fit(&self.words);
        let body = Body {
            words: self.words,
            ptrs: self.pointers,
        };
        (Whole::from_shaped(Tree::Struct(body)), Caps::new(self.caps))
    }
}

/// What a call comes to whose results are made so. Where these are too long for a message it fails: failed,
/// `the results are too long`. `Err`: memory ran out.
pub fn outcome_of(
    alloc: Global,
    results: Result<PayloadBuilder, BuildError>,
) -> Result<Outcome, AllocError>
    ensures { IfOk result (ComesTo results) }
{
    match results {
        Ok(content) => Ok(content.results()),
        Err(BuildError::TooLong) => results_too_long(alloc),
        Err(BuildError::OutOfMemory) => Err(AllocError),
    }
}

/// Words of the program fit 64 bits. This does nothing but tell a proof, which learns it by the type of a slice alone.
fn fit(words: &[u64])
    ensures { AllFit 64 words.now }
{}
