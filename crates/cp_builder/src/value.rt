//! What pointer fields are set to.

ghost use Rattle.std.specs.Prelude.{◌≡◌, ◌≤◌, ◌+◌, ◌^◌, [], Err, IfOk, length, map};
ghost use Rattle.cp_tree.specs.Node.{Node};
ghost use Rattle.cp_builder.specs.Copies.{IsListOf, placed};
ghost use Rattle.cp_builder.specs.Drafts.{bits_tree, bytes_tree, halves_tree, quads_tree, text_tree, words_tree};
ghost use Rattle.cp_builder.specs.declared.fault.BuildError.TheVariants.{TooLong};

use crate::copies::{data_copy, list_copy, text_copy};
use crate::fault::BuildError;
use crate::parts::{bits_of, bytes_of, four_bytes_of, text_of, two_bytes_of, words_of};
use cp_fields::{DataReader, Element, List, TextReader};
use cp_tree::Whole;
use std::alloc::Global;

/// What a pointer field is set to that is read as an `R`: what was built for it, which isn't copied, or what was read, which is.
/// A copy has all that was read, but for capabilities, which are null in it: their places are those of another table.
pub trait FieldValue<R>: Drop {
    /// This tree is what the field is set to.
    ghost stands: { Self → Node → Type 0 };

    /// What is so if no message can hold it.
    ghost is_long: { Self → Type 0 };

    /// What the field is set to.
    fn into_whole(self, alloc: Global) -> Result<Whole, BuildError>
        ensures value { IfOk result (λ whole. stands self whole) }
        ensures long { result ≡ Err TooLong → is_long self };
}

impl<'a> FieldValue<TextReader<'a>> for TextReader<'a> {
    ghost stands = { λ text t. t ≡ text_tree text };

    ghost is_long = { λ text. 2 ^ 29 ≤ length text + 1 };

    fn into_whole(self, alloc: Global) -> Result<Whole, BuildError> {
        text_copy(alloc, &self)
    }
}

impl<'a, 'b> FieldValue<TextReader<'a>> for &'b str {
    ghost stands = { λ text t. t ≡ text_tree text.now };

    ghost is_long = { λ text. 2 ^ 29 ≤ length text.now + 1 };

    fn into_whole(self, alloc: Global) -> Result<Whole, BuildError>
        ensures value { IfOk result (λ whole. whole ≡ text_tree self.now) }
        ensures long { result ≡ Err TooLong → 2 ^ 29 ≤ length self.now + 1 }
    {
        text_of(alloc, self)
    }
}

impl<'a> FieldValue<DataReader<'a>> for DataReader<'a> {
    ghost stands = { λ bytes t. t ≡ bytes_tree bytes };

    ghost is_long = { λ bytes. 2 ^ 29 ≤ length bytes };

    fn into_whole(self, alloc: Global) -> Result<Whole, BuildError> {
        data_copy(alloc, &self)
    }
}

impl<'a> FieldValue<DataReader<'a>> for Vec<u8> {
    ghost stands = { λ bytes t. t ≡ bytes_tree bytes.items };

    ghost is_long = { λ bytes. 2 ^ 29 ≤ length bytes.items };

    fn into_whole(self, _alloc: Global) -> Result<Whole, BuildError>
        ensures value { IfOk result (λ whole. whole ≡ bytes_tree self.items) }
        ensures long { result ≡ Err TooLong → 2 ^ 29 ≤ length self.items }
    {
        bytes_of(self)
    }
}

impl<'a, T: Element<'a>> FieldValue<List<'a, T>> for List<'a, T> {
    ghost stands = { λ list t. IsListOf T.SIZE (map (placed []) list) t };

    // It shows its elements, and not the tree that they lie in.
    ghost is_long = { λ _. Unit {0} };

    fn into_whole(self, alloc: Global) -> Result<Whole, BuildError> {
        list_copy(alloc, &self, &[])
    }
}

impl<'a> FieldValue<List<'a, bool>> for Vec<bool> {
    ghost stands = { λ items t. t ≡ bits_tree items.items };

    ghost is_long = { λ items. 2 ^ 29 ≤ length items.items };

    fn into_whole(self, _alloc: Global) -> Result<Whole, BuildError>
        ensures value { IfOk result (λ whole. whole ≡ bits_tree self.items) }
        ensures long { result ≡ Err TooLong → 2 ^ 29 ≤ length self.items }
    {
        bits_of(self)
    }
}

impl<'a> FieldValue<List<'a, u8>> for Vec<u8> {
    ghost stands = { λ items t. t ≡ bytes_tree items.items };

    ghost is_long = { λ items. 2 ^ 29 ≤ length items.items };

    fn into_whole(self, _alloc: Global) -> Result<Whole, BuildError>
        ensures value { IfOk result (λ whole. whole ≡ bytes_tree self.items) }
        ensures long { result ≡ Err TooLong → 2 ^ 29 ≤ length self.items }
    {
        bytes_of(self)
    }
}

impl<'a> FieldValue<List<'a, u16>> for Vec<u16> {
    ghost stands = { λ items t. t ≡ halves_tree items.items };

    ghost is_long = { λ items. 2 ^ 29 ≤ length items.items };

    fn into_whole(self, _alloc: Global) -> Result<Whole, BuildError>
        ensures value { IfOk result (λ whole. whole ≡ halves_tree self.items) }
        ensures long { result ≡ Err TooLong → 2 ^ 29 ≤ length self.items }
    {
        two_bytes_of(self)
    }
}

impl<'a> FieldValue<List<'a, u32>> for Vec<u32> {
    ghost stands = { λ items t. t ≡ quads_tree items.items };

    ghost is_long = { λ items. 2 ^ 29 ≤ length items.items };

    fn into_whole(self, _alloc: Global) -> Result<Whole, BuildError>
        ensures value { IfOk result (λ whole. whole ≡ quads_tree self.items) }
        ensures long { result ≡ Err TooLong → 2 ^ 29 ≤ length self.items }
    {
        four_bytes_of(self)
    }
}

impl<'a> FieldValue<List<'a, u64>> for Vec<u64> {
    ghost stands = { λ items t. t ≡ words_tree items.items };

    ghost is_long = { λ items. 2 ^ 29 ≤ length items.items };

    fn into_whole(self, _alloc: Global) -> Result<Whole, BuildError>
        ensures value { IfOk result (λ whole. whole ≡ words_tree self.items) }
        ensures long { result ≡ Err TooLong → 2 ^ 29 ≤ length self.items }
    {
        words_of(self)
    }
}
