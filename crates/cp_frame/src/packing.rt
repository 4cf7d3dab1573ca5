//! Packing words.

ghost use Rattle.std.specs.Prelude.{◌≡◌, IfOk, IfErr};
ghost use Rattle.cp_packed.specs.Packed.{Spelt};
ghost use Rattle.cp_frame.specs.declared.fault.FrameFault.TheVariants.{OutOfMemory};

use crate::fault::FrameFault;
use cp_packed::{LONGEST, push_packed};
use std::alloc::Global;

/// The words, packed as one piece (encoding specification, "Packing"): bytes only where they aren't
/// zero, runs as long as possible, and as they are only words of which at most one byte is zero.
pub fn pack(alloc: Global, words: &[u64]) -> Result<Vec<u8>, FrameFault>
    ensures packed { IfOk result (λ out. Spelt words.now out.items) }
    ensures refused { IfErr result (λ fault. fault ≡ OutOfMemory) }
{
    // A product that overflows asks for too much, and fails as an allocation does.
    let mut out = Vec::with_capacity(alloc, words.len().saturating_mul(LONGEST))?;
    push_packed(&mut out, words)?;
    Ok(out)
}
