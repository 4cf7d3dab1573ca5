//! Lists of signed numbers, of floating-point numbers and of enumerants, to be written.

ghost use Rattle.std.specs.Prelude.{◌≡◌, ◌≤◌, ◌^◌, ℕ, Err, IfOk, length, map, to_bits};
ghost use Rattle.std.specs.Int.{cast_unsigned, w8, w16, w32, w64};
ghost use Rattle.std.specs.Float.{binary32, binary64};
ghost use Rattle.cp_builder.specs.Drafts.{bytes_tree, halves_tree, quads_tree, words_tree};
ghost use Rattle.cp_builder.specs.declared.fault.BuildError.TheVariants.{TooLong};

use crate::fault::BuildError;
use crate::parts::{bytes_of, four_bytes_of, two_bytes_of, words_of};
use crate::value::FieldValue;
use cp_fields::{Element, List};
use cp_tree::Whole;
use std::alloc::Global;
use std::num::{f32_to_bits_with_nan, f64_to_bits_with_nan};

/// A list of signed numbers of 8 bits.
pub fn signed8_of(alloc: Global, items: &[i8]) -> Result<Whole, BuildError>
    ensures list { IfOk result (λ whole. whole ≡ bytes_tree (map (cast_unsigned w8) items.now)) }
    ensures long { result ≡ Err TooLong → 2 ^ 29 ≤ length items.now }
{
    bytes_of(items.iter().map(|n| bits8(*n)).collect(alloc)?)
}

/// A list of signed numbers of 16 bits.
pub fn signed16_of(alloc: Global, items: &[i16]) -> Result<Whole, BuildError>
    ensures list { IfOk result (λ whole. whole ≡ halves_tree (map (cast_unsigned w16) items.now)) }
    ensures long { result ≡ Err TooLong → 2 ^ 29 ≤ length items.now }
{
    two_bytes_of(items.iter().map(|n| bits16(*n)).collect(alloc)?)
}

/// A list of signed numbers of 32 bits.
pub fn signed32_of(alloc: Global, items: &[i32]) -> Result<Whole, BuildError>
    ensures list { IfOk result (λ whole. whole ≡ quads_tree (map (cast_unsigned w32) items.now)) }
    ensures long { result ≡ Err TooLong → 2 ^ 29 ≤ length items.now }
{
    four_bytes_of(items.iter().map(|n| bits32(*n)).collect(alloc)?)
}

/// A list of signed numbers of 64 bits.
pub fn signed64_of(alloc: Global, items: &[i64]) -> Result<Whole, BuildError>
    ensures list { IfOk result (λ whole. whole ≡ words_tree (map (cast_unsigned w64) items.now)) }
    ensures long { result ≡ Err TooLong → 2 ^ 29 ≤ length items.now }
{
    words_of(items.iter().map(|n| bits64(*n)).collect(alloc)?)
}

/// A list of floating-point numbers of 32 bits.
pub fn float32_of(alloc: Global, items: &[f32]) -> Result<Whole, BuildError>
    ensures list { IfOk result (λ whole. whole ≡ quads_tree (map (to_bits binary32) items.now)) }
    ensures long { result ≡ Err TooLong → 2 ^ 29 ≤ length items.now }
{
    four_bytes_of(
        items
            .iter()
            .map(|n| f32_to_bits_with_nan(*n))
            .collect(alloc)?,
    )
}

/// A list of floating-point numbers of 64 bits.
pub fn float64_of(alloc: Global, items: &[f64]) -> Result<Whole, BuildError>
    ensures list { IfOk result (λ whole. whole ≡ words_tree (map (to_bits binary64) items.now)) }
    ensures long { result ≡ Err TooLong → 2 ^ 29 ≤ length items.now }
{
    words_of(
        items
            .iter()
            .map(|n| f64_to_bits_with_nan(*n))
            .collect(alloc)?,
    )
}

/// An enum of a schema.
pub trait Enumerant {
    /// Its number.
    ghost number: { Self → ℕ };

    /// Its number.
    fn as_number(&self) -> u16
        ensures { result ≡ number self.now };
}

/// A list of enumerants.
pub fn enumerants_of<E: Enumerant>(alloc: Global, items: &[E]) -> Result<Whole, BuildError>
    ensures list { IfOk result (λ whole. whole ≡ halves_tree (map E.number items.now)) }
    ensures long { result ≡ Err TooLong → 2 ^ 29 ≤ length items.now }
{
    two_bytes_of(items.iter().map(|item| item.as_number()).collect(alloc)?)
}

impl<'a> FieldValue<List<'a, i8>> for Vec<i8> {
    ghost stands = { λ items t. t ≡ bytes_tree (map (cast_unsigned w8) items.items) };

    ghost is_long = { λ items. 2 ^ 29 ≤ length items.items };

    fn into_whole(self, alloc: Global) -> Result<Whole, BuildError>
        ensures value { IfOk result (λ whole. whole ≡ bytes_tree (map (cast_unsigned w8) self.items)) }
        ensures long { result ≡ Err TooLong → 2 ^ 29 ≤ length self.items }
    {
        signed8_of(alloc, self.as_slice())
    }
}

impl<'a> FieldValue<List<'a, i16>> for Vec<i16> {
    ghost stands = { λ items t. t ≡ halves_tree (map (cast_unsigned w16) items.items) };

    ghost is_long = { λ items. 2 ^ 29 ≤ length items.items };

    fn into_whole(self, alloc: Global) -> Result<Whole, BuildError>
        ensures value { IfOk result (λ whole. whole ≡ halves_tree (map (cast_unsigned w16) self.items)) }
        ensures long { result ≡ Err TooLong → 2 ^ 29 ≤ length self.items }
    {
        signed16_of(alloc, self.as_slice())
    }
}

impl<'a> FieldValue<List<'a, i32>> for Vec<i32> {
    ghost stands = { λ items t. t ≡ quads_tree (map (cast_unsigned w32) items.items) };

    ghost is_long = { λ items. 2 ^ 29 ≤ length items.items };

    fn into_whole(self, alloc: Global) -> Result<Whole, BuildError>
        ensures value { IfOk result (λ whole. whole ≡ quads_tree (map (cast_unsigned w32) self.items)) }
        ensures long { result ≡ Err TooLong → 2 ^ 29 ≤ length self.items }
    {
        signed32_of(alloc, self.as_slice())
    }
}

impl<'a> FieldValue<List<'a, i64>> for Vec<i64> {
    ghost stands = { λ items t. t ≡ words_tree (map (cast_unsigned w64) items.items) };

    ghost is_long = { λ items. 2 ^ 29 ≤ length items.items };

    fn into_whole(self, alloc: Global) -> Result<Whole, BuildError>
        ensures value { IfOk result (λ whole. whole ≡ words_tree (map (cast_unsigned w64) self.items)) }
        ensures long { result ≡ Err TooLong → 2 ^ 29 ≤ length self.items }
    {
        signed64_of(alloc, self.as_slice())
    }
}

impl<'a> FieldValue<List<'a, f32>> for Vec<f32> {
    ghost stands = { λ items t. t ≡ quads_tree (map (to_bits binary32) items.items) };

    ghost is_long = { λ items. 2 ^ 29 ≤ length items.items };

    fn into_whole(self, alloc: Global) -> Result<Whole, BuildError>
        ensures value { IfOk result (λ whole. whole ≡ quads_tree (map (to_bits binary32) self.items)) }
        ensures long { result ≡ Err TooLong → 2 ^ 29 ≤ length self.items }
    {
        float32_of(alloc, self.as_slice())
    }
}

impl<'a> FieldValue<List<'a, f64>> for Vec<f64> {
    ghost stands = { λ items t. t ≡ words_tree (map (to_bits binary64) items.items) };

    ghost is_long = { λ items. 2 ^ 29 ≤ length items.items };

    fn into_whole(self, alloc: Global) -> Result<Whole, BuildError>
        ensures value { IfOk result (λ whole. whole ≡ words_tree (map (to_bits binary64) self.items)) }
        ensures long { result ≡ Err TooLong → 2 ^ 29 ≤ length self.items }
    {
        float64_of(alloc, self.as_slice())
    }
}

impl<'a, E: Enumerant + Element<'a> + Drop> FieldValue<List<'a, E>> for Vec<E> {
    ghost stands = { λ items t. t ≡ halves_tree (map E.number items.items) };

    ghost is_long = { λ items. 2 ^ 29 ≤ length items.items };

    fn into_whole(self, alloc: Global) -> Result<Whole, BuildError>
        ensures value { IfOk result (λ whole. whole ≡ halves_tree (map E.number self.items)) }
        ensures long { result ≡ Err TooLong → 2 ^ 29 ≤ length self.items }
    {
        enumerants_of(alloc, self.as_slice())
    }
}

/// The bits of a signed number of 8 bits.
fn bits8(number: i8) -> u8
    ensures { result ≡ cast_unsigned w8 number }
{
    number.cast_unsigned()
}

/// The bits of a signed number of 16 bits.
fn bits16(number: i16) -> u16
    ensures { result ≡ cast_unsigned w16 number }
{
    number.cast_unsigned()
}

/// The bits of a signed number of 32 bits.
fn bits32(number: i32) -> u32
    ensures { result ≡ cast_unsigned w32 number }
{
    number.cast_unsigned()
}

/// The bits of a signed number of 64 bits.
fn bits64(number: i64) -> u64
    ensures { result ≡ cast_unsigned w64 number }
{
    number.cast_unsigned()
}
