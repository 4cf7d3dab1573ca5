//! Whether the words of a body are those of a given list without pointers.

ghost use Rattle.std.specs.Prelude.{◌≡◌, length, is_some, IfOk, IfSome, IsTrue, Decides};
ghost use Rattle.cp_reading.specs.Fills.{IsListIn};
ghost use Rattle.cp_tree.specs.Node.{list, bits, bytes, halves, quads, words as words_list};
ghost use Rattle.cp_tree.specs.NodeOf.{node_of};
ghost use Rattle.cp_reading.specs.Reading.{lent_words};
ghost use Rattle.cp_reading.specs.declared.area.Form.TheVariants as forms;

use crate::area::Form;
use crate::elements::{bits_of, bytes_of, four_bytes_of, two_bytes_of, words_of};
use cp_tree::Tree;
use cp_words::ElementSize;
use std::alloc::{AllocError, Global};

/// Whether the words of a body are those of a list without pointers.
pub(crate) fn list_holds(
    alloc: Global,
    form: Form,
    words: &[u64],
    tree: &Tree,
) -> Result<bool, AllocError>
    requires { length words.now ≡ lent_words form }
    ensures { IfOk result (λ b. Decides b (IsListIn form words.now (node_of tree.now))) }
{
    match tree {
        Tree::Voids(count) => Ok(list_count(form, ElementSize::Void, *count as usize).is_some()),
        Tree::Bits(items) => bits_hold(alloc, form, words, items),
        Tree::Bytes(items) => bytes_hold(alloc, form, words, items),
        Tree::Halves(items) => two_bytes_hold(alloc, form, words, items),
        Tree::Quads(items) => four_bytes_hold(alloc, form, words, items),
        Tree::Words(items) => words_hold(alloc, form, words, items),
        _ => Ok(false),
    }
}

/// How many elements a list has, if a body's form is such a list.
pub(crate) fn list_count(form: Form, size: ElementSize, count: usize) -> Option<u32>
    ensures same { IfSome result (λ n. (n ≡ count) × (form ≡ forms.List size count)) }
    ensures other { form ≡ forms.List size count → IsTrue (is_some result) }
{
    match form {
        Form::List {
            size: found,
            count: number,
        } if found == size && number as usize == count => Some(number),
        _ => None,
    }
}

/// Whether the words of a body are those of a list of bits.
fn bits_hold(alloc: Global, form: Form, words: &[u64], items: &[bool]) -> Result<bool, AllocError>
    requires { length words.now ≡ lent_words form }
    ensures { IfOk result (λ b. Decides b (IsListIn form words.now (list (bits items.now)))) }
{
    let Some(count) = list_count(form, ElementSize::Bit, items.len()) else {
        return Ok(false);
    };
    Ok(bits_of(alloc, words, count)?.as_slice() == items)
}

/// Whether the words of a body are those of a list of bytes.
fn bytes_hold(alloc: Global, form: Form, words: &[u64], items: &[u8]) -> Result<bool, AllocError>
    requires { length words.now ≡ lent_words form }
    ensures { IfOk result (λ b. Decides b (IsListIn form words.now (list (bytes items.now)))) }
{
    let Some(count) = list_count(form, ElementSize::Byte, items.len()) else {
        return Ok(false);
    };
    Ok(bytes_of(alloc, words, count)?.as_slice() == items)
}

/// Whether the words of a body are those of a list of numbers of two bytes.
fn two_bytes_hold(
    alloc: Global,
    form: Form,
    words: &[u64],
    items: &[u16],
) -> Result<bool, AllocError>
    requires { length words.now ≡ lent_words form }
    ensures { IfOk result (λ b. Decides b (IsListIn form words.now (list (halves items.now)))) }
{
    let Some(count) = list_count(form, ElementSize::TwoBytes, items.len()) else {
        return Ok(false);
    };
    Ok(two_bytes_of(alloc, words, count)?.as_slice() == items)
}

/// Whether the words of a body are those of a list of numbers of four bytes.
fn four_bytes_hold(
    alloc: Global,
    form: Form,
    words: &[u64],
    items: &[u32],
) -> Result<bool, AllocError>
    requires { length words.now ≡ lent_words form }
    ensures { IfOk result (λ b. Decides b (IsListIn form words.now (list (quads items.now)))) }
{
    let Some(count) = list_count(form, ElementSize::FourBytes, items.len()) else {
        return Ok(false);
    };
    Ok(four_bytes_of(alloc, words, count)?.as_slice() == items)
}

/// Whether the words of a body are those of a list of words.
fn words_hold(alloc: Global, form: Form, words: &[u64], items: &[u64]) -> Result<bool, AllocError>
    requires { length words.now ≡ lent_words form }
    ensures { IfOk result (λ b. Decides b (IsListIn form words.now (list (words_list items.now)))) }
{
    let Some(count) = list_count(form, ElementSize::EightBytes, items.len()) else {
        return Ok(false);
    };
    Ok(words_of(alloc, words, count)?.as_slice() == items)
}
