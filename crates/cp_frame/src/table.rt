//! The segment table, by its words: two numbers of 32 bits each, the lower first. The first number
//! is the number of segments less one, then come their sizes in words.

ghost use Rattle.std.specs.Prelude.{◌≡◌, ◌+◌, ◌/◌, ◌^◌, ◌<◌, ◌≤◌, ◌++◌, ◌∷◌, [], ◌↔◌, IsTrue, IfOk, OnOk, IfErr, length, sum, slice_index};
ghost use Rattle.cp_frame.specs.Parts.{halves, count_of, IsWholeTable, IsTable, IsFaultOf, NamesLittle};
ghost use Rattle.cp_frame.specs.Stream.{numbers, named_sizes, NamesFault};
ghost use Rattle.cp_frame.specs.Single.{IsOne};

use crate::fault::FrameFault;
use byteorder::{ByteOrder, LittleEndian};
use cp_packed::word_of;
use cp_words::Limits;

/// How many segments there are.
pub fn count(table: &[u64]) -> usize
    requires { 0 < length table.now }
    ensures value { result ≡ count_of table.now }
    ensures range { result ≤ 2 ^ 32 }
{
    // The word has one less than there are.
    (table[0] % 0x1_0000_0000) as usize + 1
}

/// All words of the table have come.
pub fn is_whole(table: &[u64]) -> bool
    ensures { IsTrue result ↔ IsWholeTable table.now }
{
    !table.is_empty() && count(table) / 2 < table.len()
}

/// How many words a segment has.
pub fn size(table: &[u64], segment: usize) -> usize
    requires whole { IsWholeTable table.now }
    requires in_table { segment < count_of table.now }
    ensures value { result ≡ slice_index (named_sizes (halves table.now)) segment }
    ensures range { result < 2 ^ 32 }
{
    let word = table[(segment + 1) / 2];
    if segment % 2 == 0 {
        (word / 0x1_0000_0000) as usize
    } else {
        (word % 0x1_0000_0000) as usize
    }
}

/// How many words the only segment has of a table that is one word and names no fault; else 0.
pub fn size_of_one(table: &[u64], limits: Limits) -> usize
    ensures { 0 < result → IsOne limits table.now result }
{
    if table.len() != 1 || table[0] % 0x1_0000_0000 != 0 {
        return 0;
    }
    let size = (table[0] / 0x1_0000_0000) as usize;
    if size <= limits.frame_words() as usize {
        size
    } else {
        0
    }
}

/// Takes one more word of the table.
pub fn push(
    table: &mut Vec<u64>,
    total: &mut u64,
    limits: Limits,
    word: u64,
) -> Result<(), FrameFault>
    requires so_far { IsTable limits table.old.items total.old }
    requires open { length table.old.items ≤ count_of table.old.items / 2 }
    ensures items { OnOk result (table.new.items ≡ table.old.items ++ word ∷ []) }
    ensures so_far { OnOk result (IsTable limits table.new.items total.new) }
    ensures fault { IfErr result (IsFaultOf limits (halves (table.old.items ++ word ∷ []))) }
{
    let after = judge(table, *total, limits, word)?;
    table.push(word)?;
    *total = after;
    Ok(())
}

/// Reports the fault that the table has with what there is of its next word.
pub fn check_part(table: &[u64], total: u64, limits: Limits, part: &[u8]) -> Result<(), FrameFault>
    requires so_far { IsTable limits table.now total }
    requires open { length table.now ≤ count_of table.now / 2 }
    requires short { length part.now < 8 }
    ensures little { OnOk result (NamesLittle limits (halves table.now ++ numbers part.now)) }
    ensures fault { IfErr result (NamesFault limits (halves table.now ++ numbers part.now)) }
{
    // Four bytes are a number: that of the segments, or a size.
    if 4 <= part.len() {
        judge(table, total, limits, LittleEndian::read_u32(part) as u64)?;
    }
    Ok(())
}

/// Reports the fault that the table has with the bytes of its next word that are known.
pub fn check_laid(table: &[u64], total: u64, limits: Limits, known: &[u8]) -> Result<(), FrameFault>
    requires so_far { IsTable limits table.now total }
    requires open { length table.now ≤ count_of table.now / 2 }
    requires few { length known.now ≤ 8 }
    ensures little { OnOk result (NamesLittle limits (halves table.now ++ numbers known.now)) }
    ensures fault { IfErr result (NamesFault limits (halves table.now ++ numbers known.now)) }
{
    if known.len() < 8 {
        return check_part(table, total, limits, known);
    }
    judge(table, total, limits, word_of(known))?;
    Ok(())
}

/// How many words the table names with one more word, unless it has a fault then.
fn judge(table: &[u64], total: u64, limits: Limits, word: u64) -> Result<u64, FrameFault>
    requires so_far { IsTable limits table.now total }
    requires open { length table.now ≤ count_of table.now / 2 }
    ensures total { IfOk result (λ after. after ≡ sum (named_sizes (halves (table.now ++ word ∷ [])))) }
    ensures little { OnOk result (NamesLittle limits (halves (table.now ++ word ∷ []))) }
    ensures few { OnOk result (count_of (table.now ++ word ∷ []) ≤ 512) }
    ensures fault { IfErr result (NamesFault limits (halves (table.now ++ word ∷ []))) }
{
    let after = total_with(table, total, word);
    // The word has one less than there are, so equal is too many.
    if table.is_empty() && limits.segments() as u64 <= word % 0x1_0000_0000 {
        return Err(FrameFault::TooManySegments);
    }
    if (limits.frame_words() as u64) < after {
        return Err(FrameFault::FrameTooLarge);
    }
    Ok(after)
}

/// The sizes that a table names with one more word, together.
fn total_with(table: &[u64], total: u64, word: u64) -> u64
    requires open { length table.now ≤ count_of table.now / 2 }
    requires total { total ≡ sum (named_sizes (halves table.now)) }
    requires small { total < 2 ^ 32 }
    ensures { result ≡ sum (named_sizes (halves (table.now ++ word ∷ []))) }
{
    let low = word % 0x1_0000_0000;
    let high = word / 0x1_0000_0000;
    // The first word has the number of segments and the first size.
    if table.is_empty() {
        high
    } else if 2 * table.len() < count(table) {
        total + low + high
    } else {
        // With an even number of segments the last half word is padding, whatever its value.
        total + low
    }
}
