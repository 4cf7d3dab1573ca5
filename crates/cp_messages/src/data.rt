//! What the fields of a struct's data section add to its words (encoding specification, "Structs").

ghost use Rattle.std.specs.Prelude.{◌≡◌, ◌==◌, ◌<◌, ◌^◌};
ghost use Rattle.cp_messages.specs.Written.{u16_part as u16_made, u32_part as u32_made, bit_part as bit_made};

/// What the `index`-th number of 16 bits adds to the word that it is in.
pub(crate) fn u16_part(index: u32, number: u16) -> u64
    ensures value { result ≡ u16_made index number }
    ensures fits { number < 2 ^ 16 }
{
    let number = number as u64;
    match index % 4 {
        0 => number,
        1 => number * 0x1_0000,
        2 => number * 0x1_0000_0000,
        _ => number * 0x1_0000_0000_0000,
    }
}

/// What the `index`-th number of 32 bits adds to the word that it is in.
pub(crate) fn u32_part(index: u32, number: u32) -> u64
    ensures value { result ≡ u32_made index number }
    ensures fits { number < 2 ^ 32 }
{
    let number = number as u64;
    match index % 2 {
        0 => number,
        _ => number * 0x1_0000_0000,
    }
}

/// What a number of 64 bits adds to the word that it is.
pub(crate) fn u64_part(number: u64) -> u64
    ensures value { result ≡ number }
    ensures fits { number < 2 ^ 64 }
{
    number
}

/// What the `index`-th bit adds to the word that it is in.
pub(crate) fn bit_part(index: u32, set: bool) -> u64
    ensures { result ≡ bit_made index set }
{
    if set { 1 << (index % 64) } else { 0 }
}
