//! Whole buffers.

ghost use Rattle.std.specs.Prelude.{◌≡◌};
ghost use Rattle.c_handles.specs.Limits.{bounds_of};
ghost use Rattle.jamdrosek_c.specs.Reader.{mode_of};
ghost use Rattle.jamdrosek_c.specs.Codec.{Packs, Unpacks, Checks, found_code, found_spot};

use crate::tell::{DONE, mode_of};
use c_handles::{CallFault, LimitNumbers, NOWHERE, Spot, check_all, fill};
use cp_frame::{pack, unpack};
use std::alloc::Global;

/// How many frames a stream has before a fault, and how many bytes they take.
#[repr(C)]
#[derive(Clone, Copy, PartialEq, Eq, Debug)]
pub struct Checked {
    pub frames: u64,
    pub bytes: usize,
}

/// Packs words as one piece, as `cp_frame::pack`. Says how many bytes that takes, and puts what fits of them into the buffer.
#[unsafe(no_mangle)]
pub extern "C" fn jd_pack(alloc: Global, words: &[u64], out: &mut [u8], count: &mut usize) -> u32
    ensures { Packs words.now out.old out.new count.new result }
{
    match pack(alloc, words) {
        Ok(bytes) => {
            let _fits = fill(out, &bytes);
            *count = bytes.len();
            DONE
        }
        Err(fault) => {
            *count = 0;
            CallFault::from(fault).code()
        }
    }
}

/// Unpacks bytes, as `cp_frame::unpack`, into no more words than the buffer has. Says how many words that are.
#[unsafe(no_mangle)]
pub extern "C" fn jd_unpack(alloc: Global, bytes: &[u8], out: &mut [u64], count: &mut usize) -> u32
    ensures { Unpacks bytes.now out.old out.new count.new result }
{
    match unpack(alloc, bytes, out.len()) {
        Ok(words) => {
            *count = fill(out, &words);
            DONE
        }
        Err(fault) => {
            *count = 0;
            CallFault::from(fault).code()
        }
    }
}

/// Reads a whole stream in the plain form or the packed one within these limits. Each frame has to hold what is asked for: at 0
/// any words, at 1 a message of rpc.capnp, else a struct of any schema. Says how many frames come before the first fault, and
/// how many bytes they take.
#[unsafe(no_mangle)]
pub extern "C" fn jd_check(
    alloc: Global,
    bytes: &[u8],
    packed: bool,
    limits: &LimitNumbers,
    kind: u8,
    checked: &mut Checked,
    spot: &mut Spot,
) -> u32
    ensures { Checks (bounds_of limits.now) (mode_of packed) kind bytes.now checked.new spot.new result }
{
    let Some(limits) = limits.limits() else {
        *checked = Checked {
            frames: 0,
            bytes: 0,
        };
        *spot = NOWHERE;
        return CallFault::Limits.code();
    };
    let verdict = check_all(alloc, bytes, mode_of(packed), limits, kind);
    *checked = Checked {
        frames: verdict.frames,
        bytes: verdict.bytes,
    };
    tell_fault(verdict.fault, spot)
}

/// The fault that a check found, and what is to blame.
fn tell_fault(fault: Option<CallFault>, spot: &mut Spot) -> u32
    ensures code { result ≡ found_code fault }
    ensures spot { spot.new ≡ found_spot fault }
{
    match fault {
        None => {
            *spot = NOWHERE;
            DONE
        }
        Some(fault) => {
            *spot = fault.spot();
            fault.code()
        }
    }
}
