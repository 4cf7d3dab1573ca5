//! Counts of the bytes of memory that contents take.

ghost use Rattle.std.specs.Prelude.{IfOk};
ghost use Rattle.cp_refs.specs.Bytes.{FallsBy, RisesBy};

use std::alloc::AllocError;

/// The count with this many bytes more. One that can't rise is refused as a failed allocation is: there is no memory for
/// 2^64 bytes.
pub fn raised(count: u64, bytes: u64) -> Result<u64, AllocError>
    ensures { IfOk result (RisesBy count bytes) }
{
    let count = count.saturating_add(bytes);
    if count == u64::MAX {
        return Err(AllocError);
    }
    Ok(count)
}

/// The count with this many bytes less.
pub fn lowered(count: u64, bytes: u64) -> u64
    ensures { FallsBy count bytes result }
{
    count.saturating_sub(bytes)
}
