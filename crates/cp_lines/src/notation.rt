//! Trees, as `show` writes them.

ghost use Rattle.std.specs.Prelude.{◌≡◌};
ghost use Rattle.cp_tree.specs.Node.{IsStruct, count, number_of, row_of};
ghost use Rattle.cp_reading.specs.Rows.{bodies_in};

use crate::digits::{push_bits, push_bytes};
use cp_reading::View;
use cp_tree::Shape;
use cp_words::ElementSize;
use std::alloc::AllocError;

/// A tree: `null`, `cap:N`, a struct `(WORDS;TREES)`, `void:N`, a list by the name of its elements,
/// `ptrs[..]`, or `structs:D,P[..]`.
#[cycle(tree)]
pub(crate) fn tree(line: &mut String, view: &View) -> Result<(), AllocError> {
    match view.shape() {
        Shape::Null => line.push_str("null"),
        Shape::Cap(index) => write!(line, "cap:{index}"),
        Shape::Struct { ptrs, .. } => body(line, view, ptrs),
        Shape::List { size, count } => match size {
            ElementSize::Pointer => {
                line.push_str("ptrs[")?;
                row(line, view, count)?;
                line.push(']')
            }
            _ => list(line, view.words(), size, count),
        },
        Shape::Structs { words, ptrs, count } => {
            write!(line, "structs:{words},{ptrs}[")?;
            elements(line, view, count)?;
            line.push(']')
        }
    }
}

/// A comma before each part but the first.
pub(crate) fn separate(line: &mut String, index: usize) -> Result<(), AllocError> {
    if index > 0 { line.push(',') } else { Ok(()) }
}

/// A struct: its words, a semicolon, its trees.
#[cycle(tree)]
fn body(line: &mut String, view: &View, ptrs: u16) -> Result<(), AllocError>
    requires is_struct { IsStruct view.now }
    requires all { count (row_of view.now) ≡ ptrs }
{
    line.push('(')?;
    let words = view.words();
    push_bytes(line, words, 8, words.len().saturating_mul(8))?;
    line.push(';')?;
    row(line, view, ptrs as u32)?;
    line.push(')')
}

/// The trees of a struct or of a list of pointers.
#[cycle(tree)]
fn row(line: &mut String, view: &View, number: u32) -> Result<(), AllocError>
    requires { count (row_of view.now) ≡ number }
{
    for i in 0..number {
        separate(line, i as usize)?;
        tree(line, &view.child(i))?;
    }
    Ok(())
}

/// A list without pointers: `void:N`, `bits[..]` with the bits in order, `bytes[..]` with all bytes,
/// or `halves[..]`, `quads[..]` and `words[..]` with each element's bytes in the order of the stream.
fn list(line: &mut String, words: &[u64], size: ElementSize, count: u32) -> Result<(), AllocError> {
    let (name, width) = match size {
        ElementSize::Void => return write!(line, "void:{count}"),
        ElementSize::Bit => {
            line.push_str("bits[")?;
            push_bits(line, words, count)?;
            return line.push(']');
        }
        ElementSize::Byte => ("bytes", 1),
        ElementSize::TwoBytes => ("halves", 2),
        ElementSize::FourBytes => ("quads", 4),
        _ => ("words", 8),
    };
    write!(line, "{name}[")?;
    push_bytes(line, words, width, count as usize * width)?;
    line.push(']')
}

/// The elements of a composite list.
#[cycle(tree)]
fn elements(line: &mut String, view: &View, number: u32) -> Result<(), AllocError>
    requires { number_of (bodies_in view.now) ≡ number }
{
    for i in 0..number {
        separate(line, i as usize)?;
        let element = view.child(i);
        let Shape::Struct { ptrs, .. } = element.shape() else {
            // The elements of a composite list are structs.
            unreachable!();
        };
        body(line, &element, ptrs)?;
    }
    Ok(())
}
