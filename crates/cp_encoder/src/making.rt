//! What values stand for, as trees.

ghost use Rattle.std.specs.Prelude.{◌≡◌, ◌<◌, ◌≤◌, ◌+◌, ◌*◌, ◌%◌, ◌^◌, [], ◌∷◌, ◌++◌, length, map, replicate, slice_set, IfOk, Err};
ghost use Rattle.cp_tree.specs.Node.{null};
ghost use Rattle.cp_tree.specs.NodeOf.{node_of, body_of as body_seen, nodes_of};
ghost use Rattle.cp_tree.specs.Shaped.{Shaped};
ghost use Rattle.cp_builder.specs.Drafts.{with_node};
ghost use Rattle.cp_builder.specs.Numbers.{put, with_number};
ghost use Rattle.cp_encoder.specs.Values.{value_node, fields_body, fields_node, placed, with_all_stored, with_all_nodes, with_stored};
ghost use Rattle.cp_encoder.specs.declared.fault.EncodeFault.TheVariants.{TooLong};

use crate::fault::EncodeFault;
use crate::value::{Fields, Number, TextPointer, TextValue, Width};
use cp_tree::{Body, Object, Tree};
use std::alloc::{AllocError, Global};

/// The struct that these fields are, where a message can hold it.
pub fn object_of(alloc: Global, fields: &Fields) -> Result<Object, EncodeFault>
    ensures made { IfOk result (λ o. o ≡ fields_node fields.now) }
    ensures long { result ≡ Err TooLong → ¬ (Shaped (fields_node fields.now)) }
{
    let body = body_of(alloc, fields)?;
    match Object::new(Tree::Struct(body)) {
        Ok(object) => Ok(object),
        Err(_) => Err(EncodeFault::TooLong),
    }
}

/// What a value stands for.
#[cycle(make)]
fn tree_of(alloc: Global, value: &TextValue) -> Result<Tree, AllocError>
    ensures { IfOk result (λ t. node_of t ≡ value_node value.now) }
{
    match value {
        TextValue::Null => Ok(Tree::Null),
        TextValue::Cap(index) => Ok(Tree::Cap(*index)),
        TextValue::Text(bytes) => Ok(Tree::Bytes(with_zero(alloc, bytes)?)),
        TextValue::Struct(fields) => Ok(Tree::Struct(body_of(alloc, fields)?)),
        TextValue::Voids(count) => Ok(Tree::Voids(*count)),
        TextValue::Bits(items) => Ok(Tree::Bits(Vec::from_slice(alloc, items)?)),
        TextValue::Bytes(items) => Ok(Tree::Bytes(Vec::from_slice(alloc, items)?)),
        TextValue::Halves(items) => Ok(Tree::Halves(Vec::from_slice(alloc, items)?)),
        TextValue::Quads(items) => Ok(Tree::Quads(Vec::from_slice(alloc, items)?)),
        TextValue::Words(items) => Ok(Tree::Words(Vec::from_slice(alloc, items)?)),
        TextValue::Pointers(items) => Ok(Tree::Ptrs(trees_of(alloc, items)?)),
        TextValue::Structs {
            words,
            pointers,
            items,
        } => Ok(Tree::Structs {
            words: *words,
            ptrs: *pointers,
            items: bodies_of(alloc, items)?,
        }),
    }
}

/// The struct that these fields are.
#[cycle(make)]
fn body_of(alloc: Global, fields: &Fields) -> Result<Body, AllocError>
    ensures { IfOk result (λ b. body_seen b ≡ fields_body fields.now) }
{
    Ok(Body {
        words: words_of(alloc, fields.words, &fields.numbers)?,
        ptrs: pointers_of(alloc, fields.pointers, &fields.values)?,
    })
}

/// What so many pointers stand for, of which these are given.
#[cycle(make)]
fn pointers_of(alloc: Global, count: u16, given: &[TextPointer]) -> Result<Vec<Tree>, AllocError>
    ensures { IfOk result (λ v. nodes_of (map node_of v.items) ≡ with_all_nodes (nodes_of (replicate count null)) (map placed given.now)) }
{
    let mut trees = nulls(alloc, count)?;
    for pointer in given {
        let tree = tree_of(alloc, &pointer.value)?;
        set_pointer(&mut trees, pointer, tree);
    }
    Ok(trees)
}

/// What the elements of a list stand for.
#[cycle(make)]
fn trees_of(alloc: Global, values: &[TextValue]) -> Result<Vec<Tree>, AllocError>
    ensures { IfOk result (λ v. map node_of v.items ≡ map value_node values.now) }
{
    let mut trees = Vec::with_capacity(alloc, values.len())?;
    for value in values {
        trees.push(tree_of(alloc, value)?)?;
    }
    Ok(trees)
}

/// The structs of a list.
#[cycle(make)]
fn bodies_of(alloc: Global, items: &[Fields]) -> Result<Vec<Body>, AllocError>
    ensures { IfOk result (λ v. map body_seen v.items ≡ map fields_body items.now) }
{
    let mut bodies = Vec::with_capacity(alloc, items.len())?;
    for fields in items {
        bodies.push(body_of(alloc, fields)?)?;
    }
    Ok(bodies)
}

/// Bytes with a zero byte after them.
fn with_zero(alloc: Global, bytes: &[u8]) -> Result<Vec<u8>, AllocError>
    ensures { IfOk result (λ ended. ended.items ≡ bytes.now ++ 0 ∷ []) }
{
    let mut ended = Vec::with_capacity(alloc, bytes.len() + 1)?;
    ended.extend_from_slice(bytes)?;
    ended.push(0)?;
    Ok(ended)
}

/// So many null pointers.
fn nulls(alloc: Global, count: u16) -> Result<Vec<Tree>, AllocError>
    ensures { IfOk result (λ v. map node_of v.items ≡ replicate count null) }
{
    let mut trees = Vec::with_capacity(alloc, count as usize)?;
    for _ in 0..count {
        trees.push(Tree::Null)?;
    }
    Ok(trees)
}

/// Puts what a pointer stands for in its place in a row of trees, if there is one.
fn set_pointer(row: &mut Vec<Tree>, pointer: &TextPointer, tree: Tree)
    requires { node_of tree ≡ value_node pointer.now.value }
    ensures { nodes_of (map node_of row.new.items) ≡ with_node (nodes_of (map node_of row.old.items)) (placed pointer.now).0 (placed pointer.now).1 }
{
    set_tree(row, pointer.place as usize, tree);
}

/// Puts a tree in its place, if there is one.
#[tactic(auto, using(cp_builder::proofs::Rows::set_trees, crate::proofs::Rows::tree_past))]
fn set_tree(trees: &mut Vec<Tree>, place: usize, tree: Tree)
    ensures { nodes_of (map node_of trees.new.items) ≡ with_node (nodes_of (map node_of trees.old.items)) place (node_of tree) }
{
    if place < trees.len() {
        put_tree(trees, place, tree);
    } else {
        drop(tree);
    }
}

/// Puts a tree in its place.
fn put_tree(trees: &mut Vec<Tree>, place: usize, tree: Tree)
    requires { place < length trees.old.items }
    ensures { trees.new.items ≡ slice_set trees.old.items place tree }
{
    trees[place] = tree;
}

/// So many data words, of which these numbers are given.
fn words_of(alloc: Global, count: u16, given: &[Number]) -> Result<Vec<u64>, AllocError>
    ensures { IfOk result (λ v. v.items ≡ with_all_stored (replicate count 0) given.now) }
{
    let mut words = vec![in alloc; 0; count as usize]?;
    for number in given {
        put_number(&mut words, *number);
    }
    Ok(words)
}

/// Puts a number in its place, if there is one.
#[tactic(auto, using(crate::proofs::Rows::word_kept))]
fn put_number(words: &mut Vec<u64>, number: Number)
    ensures { words.new.items ≡ with_stored words.old.items number }
{
    let bits = number.bits ^ number.default;
    match number.width {
        Width::Bit => put_bits(words, number.place, 1, bits % 2),
        Width::Byte => put_bits(words, number.place, 8, bits % 0x100),
        Width::TwoBytes => put_bits(words, number.place, 16, bits % 0x1_0000),
        Width::FourBytes => put_bits(words, number.place, 32, bits % 0x1_0000_0000),
        Width::Word => put_word(words, number.place, bits),
    }
}

/// Puts bits in the place of number so many of this width, if there is one.
#[tactic(auto, using(crate::proofs::Rows::number_past))]
fn put_bits(words: &mut Vec<u64>, place: u32, width: usize, bits: u64)
    requires some { 0 < width }
    requires narrow { width ≤ 32 }
    requires inside { place * width % 64 + width ≤ 64 }
    requires fits { bits < 2 ^ width }
    ensures { words.new.items ≡ with_number words.old.items width place bits }
{
    let first = place as usize * width;
    if first / 64 < words.len() {
        words[first / 64] = put(words[first / 64], width, first % 64, bits);
    }
}

/// Puts a word in its place, if there is one.
#[tactic(auto, using(crate::proofs::Rows::number_past))]
fn put_word(words: &mut Vec<u64>, place: u32, word: u64)
    ensures { words.new.items ≡ with_number words.old.items 64 place word }
{
    let at = place as usize;
    if at < words.len() {
        words[at] = put_whole(words[at], word);
    }
}

/// A word with some of its bits replaced by a number's.
fn put(word: u64, width: usize, first: usize, number: u64) -> u64
    requires narrow { width < 64 }
    requires within { first + width ≤ 64 }
    requires first { first < 64 }
    requires fits { number < 2 ^ width }
    ensures { result ≡ put word width first number }
{
    // Two shifts: `first + width` may be 64, which would overflow one.
    let above = word >> first >> width;
    (((above << width) | number) << first) | (word % (1 << first))
}

/// A word that is replaced by a number of 64 bits.
fn put_whole(_word: u64, number: u64) -> u64
    ensures { result ≡ put _word 64 0 number }
{
    number
}
