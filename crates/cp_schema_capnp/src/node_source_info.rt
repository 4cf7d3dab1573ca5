//! `node_source_info` of schema.capnp.

ghost use Rattle.std.specs.Prelude.{◌≡◌, []};
ghost use Rattle.cp_words.specs.declared.pointer.ElementSize.TheVariants as sizes;
ghost use Rattle.cp_tree.specs.Seen.{pointee_of};
ghost use Rattle.cp_fields.specs.Numbers.{plain};
ghost use Rattle.cp_fields.specs.Pointers.{list_field, text_field};

use crate::node_source_info_member::NodeSourceInfoMemberReader;
use cp_fields::{Element, List, StructReader, TextReader, WrongKind};

/// Additional information about a node which is not needed at runtime, but may be useful for
/// documentation or debugging purposes. This is kept in a separate struct to make sure it
/// doesn't accidentally get included in contexts where it is not needed. The
/// `CodeGeneratorRequest` includes this information in a separate array.
#[derive(Drop)]
pub struct NodeSourceInfoReader<'a> {
    /// The struct, by the places of its fields.
    pub body: StructReader<'a>,
}

impl<'a> Element<'a> for NodeSourceInfoReader<'a> {
    ghost SIZE = { sizes.Composite };

    ghost read = { λ t. record { body = t } };

    fn size() -> cp_words::ElementSize
        ensures { result ≡ sizes.Composite }
    {
        cp_words::ElementSize::Composite
    }

    fn of_element(item: StructReader<'a>) -> NodeSourceInfoReader<'a> {
        NodeSourceInfoReader { body: item }
    }
}

impl<'a> NodeSourceInfoReader<'a> {
    /// ID of the Node which this info describes.
    pub fn id(&self) -> u64
        ensures { result ≡ plain self.now.body 64 0 }
    {
        self.body.u64(0)
    }

    /// The top-level doc comment for the Node.
    pub fn doc_comment(&self) -> Result<TextReader<'a>, WrongKind>
        ensures { result ≡ text_field [] (pointee_of self.now.body 0) }
    {
        self.body.text(0)
    }

    /// Information about each member -- i.e. fields (for structs), enumerants (for enums), or
    /// methods (for interfaces).
    ///
    /// This list is the same length and order as the corresponding list in the Node, i.e.
    /// Node.struct.fields, Node.enum.enumerants, or Node.interface.methods.
    pub fn members(&self) -> Result<List<'a, NodeSourceInfoMemberReader<'a>>, WrongKind>
        ensures { result ≡ list_field sizes.Composite (pointee_of self.now.body 1) }
    {
        self.body.list(1)
    }
}
