//! Trees that are looked at where they lie: a view, or an owned tree.

ghost use Rattle.std.specs.Prelude.{◌≡◌, ◌<◌, ◌≤◌, length, slice_index_or, IfOk, Decides};
ghost use Rattle.cp_tree.specs.Node.{Node, null, data_of, depth, cost};
ghost use Rattle.cp_tree.specs.Seen.{pointee_of};
ghost use Rattle.cp_messages.specs.Fields.{IsStructField, IsTextField, items_of, bytes_of, text_of, is_text};
ghost use Rattle.cp_rpc.specs.Looked.{look_of};

use crate::text::{is_text, text_at};
use cp_fields::PointerReader;
use cp_messages::Text;
use cp_reading::View;
use cp_tree::{Shape, Whole};
use cp_words::ElementSize;
use std::alloc::{AllocError, Global};

/// What a field may ask of a tree.
#[derive(Clone, Copy)]
pub enum SourceKind {
    Null,
    Struct,
    /// A composite list of this many elements.
    Items(usize),
    /// A list of this many bytes.
    Bytes(usize),
    /// A capability, or any other list.
    Other,
}

/// A tree that is looked at where it lies.
/// Readers are generic in it: a reader for each kind of source would have to agree with the others.
pub trait Source: Drop {
    ghost seen: { Self → Node };

    /// What the tree is.
    fn source_kind(&self) -> SourceKind
        ensures { result ≡ look_of (seen self.now) };

    /// A struct's data words.
    fn data(&self) -> &[u64]
        ensures { result.now ≡ data_of (seen self.now) };

    /// Pointer `i` of a struct; past the end, and of a null pointer, it is null.
    fn pointer(&self, i: u32) -> Self
        requires { IsStructField (seen self.now) }
        ensures { seen result ≡ pointee_of (seen self.now) i };

    /// Element `i` of a composite list.
    fn item(&self, i: usize) -> Self
        requires { i < length (items_of (seen self.now)) }
        ensures item { seen result ≡ slice_index_or (items_of (seen self.now)) i null }
        ensures is_struct { IsStructField (seen result) };

    /// Whether a list of bytes ends in a zero byte, and is UTF-8 before that.
    fn is_text(&self) -> bool
        ensures { result ≡ is_text (bytes_of (seen self.now)) };

    /// The text that a list of bytes holds, or the empty text of a null pointer.
    fn text(&self, alloc: Global) -> Result<Text, AllocError>
        requires { IsTextField (seen self.now) }
        ensures { IfOk result (λ t. t ≡ text_of (seen self.now)) };

    /// Whether the tree's depth and cost are no more than this.
    fn fits(&self, nesting: u32, traversal: u64) -> bool
        ensures { Decides result ((depth (seen self.now) ≤ nesting) × (cost (seen self.now) ≤ traversal)) };

    /// The tree, owned.
    fn whole(&self, alloc: Global) -> Result<Whole, AllocError>
        ensures { IfOk result (λ w. w ≡ seen self.now) };
}

// Inlined: a view is large, and to move it takes longer than to make it.
impl<'a> Source for View<'a> {
    ghost seen = { λ v. v };

    #[inline(always)]
    fn source_kind(&self) -> SourceKind {
        match self.shape() {
            Shape::Null => SourceKind::Null,
            Shape::Struct { .. } => SourceKind::Struct,
            Shape::Structs { count, .. } => SourceKind::Items(count as usize),
            Shape::List { size, count } => match size {
                ElementSize::Byte => SourceKind::Bytes(count as usize),
                _ => SourceKind::Other,
            },
            Shape::Cap(_) => SourceKind::Other,
        }
    }

    #[inline(always)]
    fn data(&self) -> &[u64] {
        match self.shape() {
            Shape::Struct { .. } => self.words(),
            _ => &[],
        }
    }

    #[inline(always)]
    fn pointer(&self, i: u32) -> View<'a> {
        self.child(i)
    }

    #[inline(always)]
    fn item(&self, i: usize) -> View<'a> {
        let Shape::Structs { count, .. } = self.shape() else {
            // Only a composite list has elements.
            unreachable!();
        };
        // For the proof: `i` fits 32 bits.
        prove!(i < count as usize);
        self.child(i as u32)
    }

    fn is_text(&self) -> bool {
        is_text(PointerReader::of_view(self.reborrow()))
    }

    fn text(&self, alloc: Global) -> Result<Text, AllocError> {
        text_at(alloc, PointerReader::of_view(self.reborrow()))
    }

    fn fits(&self, nesting: u32, traversal: u64) -> bool {
        View::fits(self, nesting, traversal)
    }

    fn whole(&self, alloc: Global) -> Result<Whole, AllocError> {
        self.tree(alloc)
    }
}
