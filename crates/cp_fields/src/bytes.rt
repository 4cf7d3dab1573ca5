//! Lists of bytes that are read where they lie.

ghost use Rattle.std.specs.Prelude.{◌≡◌, ◌==◌, ◌<◌, ◌≤◌, ◌-◌, ◌^◌, ◌↔◌, if◌then◌else◌, Some, None, MatchOption, List, ℕ, ◌++◌, length, take, slice_index, IfOk, OnOk, IsTrue, IsUtf8};
ghost use Rattle.cp_tree.specs.Elements.{numbers};
ghost use Rattle.cp_tree.specs.Node.{bytes, list};
ghost use Rattle.cp_tree.specs.NodeOf.{node_of};
ghost use Rattle.cp_fields.specs.Pointers.{data_field, ends_in_zero};

use crate::constant::Constant;
use crate::data::number_at;
use crate::kind::{Kind, WrongKind};
use crate::pointer_reader::{Part, PointerReader};
use crate::utf8::{BLOCK, is_utf8, next_block};
use cp_reading::View;
use cp_tree::{ListRef, Shape, Tree};
use cp_words::ElementSize;
use std::alloc::{AllocError, Global};
use std::marker::Model;

/// Bytes that are lent: the first of those that words hold, or a slice.
#[derive(Clone, Copy)]
pub(crate) enum BorrowedBytes<'a> {
    Words(&'a [u64], usize),
    Slice(&'a [u8]),
}

/// The bytes of a field of the type Data, where they lie. Contracts see it as its bytes.
#[derive(Drop)]
pub struct DataReader<'a> {
    bytes: BorrowedBytes<'a>,
}

impl<'a> Model for DataReader<'a> {
    ghost use Rattle.std.specs.Prelude.{ℕ, List};

    ghost Value = { List ℕ };

    ghost use Rattle.cp_fields.specs.Parts.{bytes_in, IsLent};

    ghost view = { λ d. bytes_in d.bytes };

    ghost invariant = { λ d. IsLent d.bytes };
}

impl<'a> DataReader<'a> {
    ghost use Rattle.std.specs.Prelude.{◌≡◌, ◌==◌, ◌<◌, ◌≤◌, ◌-◌, ◌^◌, ◌↔◌, if◌then◌else◌, Some, None, ◌++◌, length, take, slice_index, IfOk, OnOk, IsTrue, IsUtf8};
    ghost use Rattle.cp_tree.specs.Elements.{numbers};
    ghost use Rattle.cp_fields.specs.Pointers.{data_field, ends_in_zero};

    /// The bytes that a pointer stands for; null stands for the default.
    #[inline(always)]
    #[tactic(auto, using(crate::proofs::Pointed::no_data))]
    pub fn of(at: PointerReader<'a>, default: &'a [u8]) -> Result<DataReader<'a>, WrongKind>
        ensures { result ≡ data_field default.now at.entry }
    {
        match bytes_at(&at) {
            Some(bytes) => Ok(bytes),
            None => {
                if at.is_null() {
                    Ok(DataReader::of_slice(default))
                } else {
                    Err(at.wrong(Kind::Data))
                }
            }
        }
    }

    /// Bytes that a program has.
    #[inline(always)]
    pub fn of_slice(bytes: &'a [u8]) -> DataReader<'a>
        ensures { result ≡ bytes.now }
    {
        DataReader {
            bytes: BorrowedBytes::Slice(bytes),
        }
    }

    /// The number of bytes.
    #[inline(always)]
    pub fn len(&self) -> usize
        ensures { result ≡ length self.now }
    {
        match self.bytes {
            BorrowedBytes::Words(_, count) => count,
            BorrowedBytes::Slice(bytes) => bytes.len(),
        }
    }

    /// Whether there are none.
    pub fn is_empty(&self) -> bool
        ensures { result ≡ (length self.now == 0) }
    {
        self.len() == 0
    }

    /// Byte `i`.
    #[inline(always)]
    pub fn get(&self, i: usize) -> u8
        requires { i < length self.now }
        ensures { result ≡ slice_index self.now i }
    {
        match self.bytes {
            BorrowedBytes::Words(words, _) => number_at(words, 8, i) as u8,
            BorrowedBytes::Slice(bytes) => bytes[i],
        }
    }

    /// The bytes, owned.
    pub fn to_vec(&self, alloc: Global) -> Result<Vec<u8>, AllocError>
        ensures { IfOk result (λ v. v.items ≡ self.now) }
    {
        let mut bytes = Vec::with_capacity(alloc, self.len())?;
        self.append_to(&mut bytes)?;
        Ok(bytes)
    }

    /// Adds the bytes after others.
    pub fn append_to(&self, bytes: &mut Vec<u8>) -> Result<(), AllocError>
        ensures { OnOk result (bytes.new.items ≡ bytes.old.items ++ self.now) }
    {
        match self.bytes {
            BorrowedBytes::Words(words, count) => append_words(words, count, bytes),
            BorrowedBytes::Slice(slice) => bytes.extend_from_slice(slice),
        }
    }

    /// Whether the bytes are UTF-8.
    pub(crate) fn is_utf8(&self) -> bool
        ensures { IsTrue result ↔ IsUtf8 self.now }
    {
        match self.bytes {
            BorrowedBytes::Words(words, count) => is_utf8(words, count),
            BorrowedBytes::Slice(bytes) => simdutf8::is_utf8(bytes),
        }
    }

    /// The same once more.
    pub fn reborrow(&self) -> DataReader<'a>
        ensures { result ≡ self.now }
    {
        DataReader { bytes: self.bytes }
    }

    /// The bytes but for the last, if that is zero.
    #[inline(always)]
    pub(crate) fn before_zero(&self) -> Option<DataReader<'a>>
        ensures { result ≡ (if ends_in_zero self.now then Some (take (length self.now - 1) self.now) else None) }
    {
        let count = self.len();
        if count == 0 {
            return None;
        }
        if self.get(count - 1) != 0 {
            return None;
        }
        Some(self.front(count - 1))
    }

    /// The first bytes, this many.
    #[inline(always)]
    fn front(&self, count: usize) -> DataReader<'a>
        requires { count ≤ length self.now }
        ensures { result ≡ take count self.now }
    {
        match self.bytes {
            BorrowedBytes::Words(words, _) => DataReader::of_words(words, count),
            BorrowedBytes::Slice(bytes) => DataReader::of_slice(&bytes[..count]),
        }
    }

    /// The first bytes that words hold, this many.
    #[inline(always)]
    fn of_words(words: &'a [u64], count: usize) -> DataReader<'a>
        requires { count < 2 ^ 32 }
        ensures { result ≡ numbers words.now 8 count }
    {
        DataReader {
            bytes: BorrowedBytes::Words(words, count),
        }
    }
}

/// The bytes of a list of bytes. `None` is anything else.
#[inline(always)]
pub(crate) fn bytes_at<'a>(at: &PointerReader<'a>) -> Option<DataReader<'a>>
    ensures { MatchOption result ((bs : List ℕ) → at.now ≡ list (bytes bs) → ⊥) (λ d. at.now ≡ list (bytes d)) }
{
    match &at.part {
        Part::Null => None,
        Part::View(view) => bytes_in_place(view),
        Part::Tree(tree) => match tree {
            Tree::Bytes(bytes) => Some(DataReader::of_slice(bytes)),
            _ => None,
        },
        Part::Constant(tree) => match tree {
            Constant::List(ListRef::Bytes(bytes)) => Some(DataReader::of_slice(bytes)),
            _ => None,
        },
    }
}

/// The bytes of a list of bytes that is read in place. `None` is anything else.
#[inline(always)]
#[tactic(auto, using(crate::proofs::Pointed::bytes_read, crate::proofs::Pointed::bytes_shape))]
fn bytes_in_place<'a>(view: &View<'a>) -> Option<DataReader<'a>>
    ensures { MatchOption result ((bs : List ℕ) → view.now ≡ list (bytes bs) → ⊥) (λ d. view.now ≡ list (bytes d)) }
{
    match view.shape() {
        Shape::List { size, count } => match size {
            ElementSize::Byte => Some(DataReader::of_words(view.words(), count as usize)),
            _ => None,
        },
        _ => None,
    }
}

/// Adds the first bytes that words hold, this many.
fn append_words(words: &[u64], count: usize, bytes: &mut Vec<u8>) -> Result<(), AllocError>
    requires { count < 2 ^ 32 }
    ensures { OnOk result (bytes.new.items ≡ bytes.old.items ++ numbers words.now 8 count) }
{
    let blocks = count / BLOCK;
    'whole: for i in 0..blocks {
        bytes.extend_from_slice(&next_block(words, i * BLOCK, count))?;
    }
    'rest: for i in blocks * BLOCK..count {
        bytes.push(number_at(words, 8, i) as u8)?;
    }
    Ok(())
}
