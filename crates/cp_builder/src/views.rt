//! Drafts of structs that were read. All that was read is kept, the fields of a newer schema too.

ghost use Rattle.std.specs.Prelude.{◌≡◌, ◌-◌, ◌++◌, IfOk, OnOk, length, map, replicate};
ghost use Rattle.cp_tree.specs.Node.{null, struct};
ghost use Rattle.cp_tree.specs.NodeOf.{node_of, body_of};
ghost use Rattle.cp_tree.specs.Shaped.{Shaped};

use crate::fault::BuildError;
use crate::structure::StructBuilder;
use cp_fields::StructReader;
use cp_tree::{Body, Object, Tree};
use std::alloc::{AllocError, Global};

impl<const W: usize, const P: usize> StructBuilder<W, P> {
    ghost use Rattle.std.specs.Prelude.{◌≡◌, ◌<◌, ◌^◌, Err, IfOk, OnOk};
    ghost use Rattle.cp_tree.specs.Shaped.{Shaped};
    ghost use Rattle.cp_builder.specs.Drafts.{widened};
    ghost use Rattle.cp_builder.specs.declared.fault.BuildError.TheVariants.{TooLong};

    /// A builder of a struct that was read where it lies. `TooLong` says that it is owned, and no message can hold it.
    /// It keeps all that the struct has, so that what a newer schema's program wrote goes on.
    pub fn of_view(
        alloc: Global,
        view: &StructReader<'_>,
    ) -> Result<StructBuilder<W, P>, BuildError>
        requires words { W < 2 ^ 16 }
        requires pointers { P < 2 ^ 16 }
        ensures taken { IfOk result (λ d. d ≡ widened W P view.now) }
        ensures shaped { OnOk result (Shaped view.now) }
        ensures long { result ≡ Err TooLong → ¬ (Shaped view.now) }
    {
        match Object::new(view.tree(alloc)?) {
            Ok(object) => Ok(StructBuilder::of_object(object)?),
            // What is read in place always fits a message; an owned struct may not.
            Err(_) => Err(BuildError::TooLong),
        }
    }

    /// A builder of a struct that was read and is owned. Nothing of it is copied.
    pub fn of_object(object: Object) -> Result<StructBuilder<W, P>, AllocError>
        requires words { W < 2 ^ 16 }
        requires pointers { P < 2 ^ 16 }
        ensures { IfOk result (λ d. d ≡ widened W P object) }
    {
        let body = body_in(object);
        let words = filled(body.words, W)?;
        Ok(StructBuilder {
            words,
            pointers: with_nulls(body.ptrs, P)?,
        })
    }
}

/// The struct that an object is.
fn body_in(object: Object) -> Body
    ensures body { struct (body_of result).0 (body_of result).1 ≡ object }
    ensures shaped { Shaped object }
{
    match object.into_tree() {
        Tree::Struct(body) => body,
        // An object is a struct.
        _ => unreachable!(),
    }
}

/// Words, and zeros after them up to this many.
fn filled(words: Vec<u64>, count: usize) -> Result<Vec<u64>, AllocError>
    ensures { IfOk result (λ v. v.items ≡ words.items ++ replicate (count - length words.items) 0) }
{
    let mut words = words;
    words.resize(words.len().max(count), 0)?;
    Ok(words)
}

/// Trees, and null ones after them up to this many.
fn with_nulls(mut trees: Vec<Tree>, count: usize) -> Result<Vec<Tree>, AllocError>
    ensures { IfOk result (λ v. map node_of v.items ≡ map node_of trees.items ++ replicate (count - length trees.items) null) }
{
    let missing = count.saturating_sub(trees.len());
    push_nulls(&mut trees, missing)?;
    Ok(trees)
}

/// Appends this many null trees.
pub(crate) fn push_nulls(trees: &mut Vec<Tree>, count: usize) -> Result<(), AllocError>
    ensures { OnOk result (map node_of trees.new.items ≡ map node_of trees.old.items ++ replicate count null) }
{
    for _ in 0..count {
        trees.push(Tree::Null)?;
    }
    Ok(())
}
