//! Unpacking words.

ghost use Rattle.std.specs.Prelude.{◌≤◌, ◌<◌, ◌+◌, ◌∷◌, [], IfOk, IfErr, OnOk, length};
ghost use Rattle.cp_packed.specs.Packed.{Packed};
ghost use Rattle.cp_frame.specs.Stream.{IsNotUnpackedFor};
ghost use Rattle.cp_packed.specs.Unpacking.{IsPending, brought, pending_of};
ghost use Rattle.cp_frame.specs.Bulk.{IsFullFor, TakesWithin};
ghost use Rattle.cp_frame.specs.declared.fault.FrameFault.TheVariants.{FrameTooLarge};

use crate::fault::FrameFault;
use cp_packed::{OpenGroup, take_groups};
use std::alloc::{AllocError, Global};

/// The words that packed bytes give, `limit` of them at most (encoding specification, "Packing").
///
/// Where the whole words that the bytes lay are more, `FrameTooLarge` (F2) is reported; or else
/// `Truncated` (F3), where the bytes end inside a group.
pub fn unpack(alloc: Global, bytes: &[u8], limit: usize) -> Result<Vec<u64>, FrameFault>
    ensures words { IfOk result (λ words. Packed words.items bytes.now) }
    ensures within { IfOk result (λ words. length words.items ≤ limit) }
    ensures refused { IfErr result (IsNotUnpackedFor bytes.now limit) }
{
    // A guess of four bytes a word; more capacity is made as words come.
    let mut words = Vec::with_capacity(alloc, limit.min(bytes.len() / 4))?;
    let mut group = OpenGroup::new(alloc);
    let mut left = take_front(&mut words, &mut group, limit, bytes)?;
    'unpacking: while !left.is_empty() {
        take_byte(&mut words, &mut group, limit, left[0])?;
        left = take_front(&mut words, &mut group, limit, left.split_at(1).1)?;
    }
    if group.is_empty() {
        return Ok(words);
    }
    let (_, known) = group.laid();
    // A word counts as soon as its bytes are known, even before its count: a byte 00 within no words is F2.
    if words.len() == limit && known == 8 {
        return Err(FrameFault::FrameTooLarge);
    }
    Err(FrameFault::Truncated)
}

/// Takes groups at once, where none has come in part and a word more fits.
fn take_front<'a>(
    words: &mut Vec<u64>,
    group: &mut OpenGroup,
    limit: usize,
    left: &'a [u8],
) -> Result<&'a [u8], AllocError>
    requires within { length words.old.items ≤ limit }
    requires few { group.old.run < 256 }
    ensures { IfOk result (λ back. TakesWithin limit words.old.items (pending_of group.old) left.now words.new.items (pending_of group.new) back.now) }
{
    if !group.part.is_empty() || words.len() == limit {
        return Ok(left);
    }
    take_groups(words, &mut group.run, limit, left)
}

/// Takes one byte, with the words that it brings.
fn take_byte(
    words: &mut Vec<u64>,
    group: &mut OpenGroup,
    limit: usize,
    byte: u8,
) -> Result<(), FrameFault>
    requires within { length words.old.items ≤ limit }
    requires pending { IsPending (pending_of group.old) }
    ensures takes { OnOk result (TakesWithin limit words.old.items (pending_of group.old) (byte ∷ []) words.new.items (pending_of group.new) []) }
    ensures fault { IfErr result (IsFullFor limit (length words.old.items + length (brought (pending_of group.old) byte))) }
{
    let run = group.take(byte)?;
    if limit - words.len() < run.count {
        return Err(FrameFault::FrameTooLarge);
    }
    words.resize(words.len() + run.count, run.word)?;
    Ok(())
}
