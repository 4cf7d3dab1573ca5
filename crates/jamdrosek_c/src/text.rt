//! The text of a fault.

ghost use Rattle.jamdrosek_c.specs.Tell.{IsLine};

use c_handles::{CallFault, Spot, fill};
use std::alloc::Global;

/// Puts the line that says what a fault is, and what it means, into the buffer, and a zero byte after it: what fits of them. Says
/// how many bytes the line has: 0 where the number is no fault's, or memory runs out, and then the buffer is as it was.
#[unsafe(no_mangle)]
pub extern "C" fn jd_text(alloc: Global, code: u32, spot: &Spot, out: &mut [u8]) -> usize
    ensures { IsLine out.old out.new result }
{
    let Some(fault) = CallFault::of(code, *spot) else {
        return 0;
    };
    let Ok(text) = format!(in alloc; "{fault:#}") else {
        return 0;
    };
    let mut line = text.into_bytes();
    if line.push(0).is_err() {
        return 0;
    }
    let _fits = fill(out, &line);
    line.len() - 1
}
