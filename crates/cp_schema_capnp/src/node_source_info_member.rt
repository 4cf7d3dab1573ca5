//! `node_source_info_member` of schema.capnp.

ghost use Rattle.std.specs.Prelude.{◌≡◌, []};
ghost use Rattle.cp_words.specs.declared.pointer.ElementSize.TheVariants as sizes;
ghost use Rattle.cp_tree.specs.Seen.{pointee_of};
ghost use Rattle.cp_fields.specs.Pointers.{text_field};

use cp_fields::{Element, StructReader, TextReader, WrongKind};

/// `struct Node.SourceInfo.Member`.
#[derive(Drop)]
pub struct NodeSourceInfoMemberReader<'a> {
    /// The struct, by the places of its fields.
    pub body: StructReader<'a>,
}

impl<'a> Element<'a> for NodeSourceInfoMemberReader<'a> {
    ghost SIZE = { sizes.Composite };

    ghost read = { λ t. record { body = t } };

    fn size() -> cp_words::ElementSize
        ensures { result ≡ sizes.Composite }
    {
        cp_words::ElementSize::Composite
    }

    fn of_element(item: StructReader<'a>) -> NodeSourceInfoMemberReader<'a> {
        NodeSourceInfoMemberReader { body: item }
    }
}

impl<'a> NodeSourceInfoMemberReader<'a> {
    /// Doc comment on the member.
    pub fn doc_comment(&self) -> Result<TextReader<'a>, WrongKind>
        ensures { result ≡ text_field [] (pointee_of self.now.body 0) }
    {
        self.body.text(0)
    }
}
