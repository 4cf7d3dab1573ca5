//! What a call came to.

ghost use Rattle.std.specs.Prelude.{◌≡◌, MatchOption, IfOk};
ghost use Rattle.cp_tree.specs.Node.{null};
ghost use Rattle.cp_tree.specs.NodeOf.{node_of};
ghost use Rattle.cp_refs.specs.At.{failed, null_capability, node_along, cap_along, cap_at};
ghost use Rattle.cp_refs.specs.declared.cap.Cap.TheVariants.{None};

use crate::cap::{Cap, Caps};
use cp_messages::{Exception, ExceptionKind, Text};
use cp_tree::{Tree, Whole};
use std::alloc::{AllocError, Global};

/// What a call came to (rpc.capnp, `Return`), with the capabilities as the application names them.
#[derive(Drop)]
pub enum Outcome {
    /// Results, with their capability table.
    Results { content: Whole, caps: Caps },
    /// An exception.
    Failed(Exception),
    /// Nothing: it was finished before. Don't answer with this while the caller still waits: a C++ peer closes the connection over a
    /// Return `canceled` of a question that it didn't finish.
    Canceled,
}

impl Outcome {
    /// An equal outcome.
    pub fn copy(&self, alloc: Global) -> Result<Outcome, AllocError>
        ensures { IfOk result (λ o. o ≡ self.now) }
    {
        Ok(match self {
            Outcome::Results { content, caps } => Outcome::Results {
                content: content.copy(alloc)?,
                caps: caps.copy(alloc)?,
            },
            Outcome::Failed(exception) => Outcome::Failed(exception.copy(alloc)?),
            Outcome::Canceled => Outcome::Canceled,
        })
    }

    /// What it gives at a path of pointer fields (rpc.capnp, `PromisedAnswer.transform`): of results the
    /// capability there, of an exception one that fails with it.
    pub fn at(&self, alloc: Global, path: &[u16]) -> Result<Cap, AllocError>
        ensures { IfOk result (λ c. c ≡ cap_at self.now path.now) }
    {
        match self {
            Outcome::Results { content, caps } => match cap_along(content.tree(), caps, path) {
                Some(cap) => cap.copy(alloc),
                None => Ok(Cap::None),
            },
            Outcome::Failed(exception) => Ok(Cap::Broken(exception.copy(alloc)?)),
            Outcome::Canceled => Ok(Cap::Broken(failed(alloc, "canceled")?)),
        }
    }
}

/// An exception of type failed, with this reason and no trace (rpc.capnp, "Exception").
pub fn failed(alloc: Global, reason: &str) -> Result<Exception, AllocError>
    ensures { IfOk result (λ e. e ≡ failed reason.now) }
{
    Ok(Exception {
        kind: ExceptionKind::Failed,
        reason: Text::new(String::from_str(alloc, reason)?),
        trace: Text::new(String::new(alloc)),
    })
}

/// What a call on null fails with.
pub(crate) fn null_capability(alloc: Global) -> Result<Exception, AllocError>
    ensures { IfOk result (λ e. e ≡ null_capability) }
{
    failed(alloc, "null capability")
}

/// The capability at a path of a tree, with this table. `None` is null.
pub(crate) fn cap_along<'a>(tree: &Tree, caps: &'a Caps, path: &[u16]) -> Option<&'a Cap>
    ensures { MatchOption result (cap_along caps.now (node_of tree.now) path.now ≡ None) (λ c. c.now ≡ cap_along caps.now (node_of tree.now) path.now) }
{
    let Tree::Cap(index) = tree_along(tree, path)? else {
        return None;
    };
    caps.caps().get(*index as usize)
}

/// What is at the end of a path of pointer fields. `None` is null.
fn tree_along<'a>(tree: &'a Tree, path: &[u16]) -> Option<&'a Tree>
    ensures { MatchOption result (node_along (node_of tree.now) path.now ≡ null) (λ t. node_of t.now ≡ node_along (node_of tree.now) path.now) }
{
    let mut reached = tree;
    for field in path {
        reached = reached.pointer(*field as u32)?;
    }
    Some(reached)
}
