//! Paths of pointer fields, as messages say them.

ghost use Rattle.std.specs.Prelude.{◌≡◌, IfOk};
ghost use Rattle.cp_vat_machine.specs.Writing.{promised};
ghost use Rattle.cp_vat_machine.specs.Receiving.{path_of};

use cp_messages::{Op, PromisedAnswer, Transform};
use cp_refs::Path;
use std::alloc::{AllocError, Global};

/// What a question will give at a path, as the peer names it (rpc.capnp, `PromisedAnswer`).
pub fn promised_answer(
    alloc: Global,
    question_id: u32,
    path: &Path,
) -> Result<PromisedAnswer, AllocError>
    ensures { IfOk result (λ p. p ≡ promised question_id path.now) }
{
    let mut ops = Vec::with_capacity(alloc, path.fields().len())?;
    for field in path.fields() {
        ops.push(Op::GetPointerField(*field))?;
    }
    Ok(PromisedAnswer {
        question_id,
        transform: Transform::new(ops),
    })
}

/// The path that a transform says. Steps that do nothing are left out.
pub fn path_of(alloc: Global, transform: &Transform) -> Result<Path, AllocError>
    ensures { IfOk result (λ path. path ≡ path_of transform.now) }
{
    let mut fields = Vec::new(alloc);
    for op in transform.ops() {
        // An unknown step was refused before, so any other one does nothing.
        if let Op::GetPointerField(field) = op {
            fields.push(*field)?;
        }
    }
    Ok(Path::new(fields))
}
