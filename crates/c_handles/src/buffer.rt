//! Buffers that the caller gives.

ghost use Rattle.std.specs.Prelude.{◌≡◌};
ghost use Rattle.c_handles.specs.Given.{over, fits};

/// Puts what fits of these at the front, leaves the rest as it was, and says how many fit.
pub fn fill<T: Copy>(buffer: &mut [T], items: &[T]) -> usize
    ensures items { buffer.new ≡ over items.now buffer.old }
    ensures count { result ≡ fits items.now buffer.old }
{
    let count = items.len().min(buffer.len());
    buffer[..count].copy_from_slice(&items[..count]);
    count
}
