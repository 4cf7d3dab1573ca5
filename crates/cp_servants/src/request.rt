//! What calls ask for, read in place.

ghost use Rattle.std.specs.Prelude.{◌≡◌, IfOk};
ghost use Rattle.cp_servants.specs.Requests.{request_of};

use cp_fields::PointerReader;
use cp_refs::{Caps, Request};
use cp_tree::Whole;
use std::alloc::{AllocError, Global};

/// A `Request` whose content is read in place: in its frame, or in a tree that is owned.
#[derive(Drop)]
pub struct RequestView<'a> {
    pub interface: u64,
    pub method: u16,
    /// The content of its params.
    pub content: PointerReader<'a>,
    /// The capability table of its params.
    pub caps: Caps,
}

impl<'a> RequestView<'a> {
    /// The request, owned: a tree of its content is made.
    pub fn request(self, alloc: Global) -> Result<Request, AllocError>
        ensures { IfOk result (λ request. request ≡ request_of self.entry) }
    {
        Ok(Request {
            interface: self.interface,
            method: self.method,
            content: whole_of(alloc, &self.content)?,
            caps: self.caps,
        })
    }
}

/// A copy of what is read in place.
fn whole_of(alloc: Global, content: &PointerReader<'_>) -> Result<Whole, AllocError>
    ensures { IfOk result (λ whole. whole ≡ content.now) }
{
    match Whole::new(content.tree(alloc)?) {
        Ok(whole) => Ok(whole),
        // A program may have made such a tree. No message can hold it, so no call brings it.
        Err(tree) => {
            drop(tree);
            Err(AllocError)
        }
    }
}
