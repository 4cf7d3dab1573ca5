//! What is set is read back, and all else stays.

ghost use Rattle.std.specs.Prelude.{◌≡◌, ◌≢◌, ℕ, ◌*◌, ◌/◌, ◌^◌, ◌<◌, Bool, bit_xor, not, List, length, map, Ok};
ghost use Rattle.cp_words.specs.declared.pointer.ElementSize.TheVariants as sizes;
ghost use Rattle.cp_tree.specs.Node.{Node, data_of, count};
ghost use Rattle.cp_tree.specs.Seen.{pointee_of};
ghost use Rattle.cp_fields.specs.Numbers.{plain, uint, flag};
ghost use Rattle.cp_fields.specs.Items.{bit_number, number_item};
ghost use Rattle.cp_fields.specs.Pointers.{data_field, list_field, pointers_of, text_field};
ghost use Rattle.cp_builder.specs.Numbers.{AreApart, IsInWord, IsNumber, flag_bit};
ghost use Rattle.cp_builder.specs.Drafts.{bits_tree, bytes_tree, halves_tree, quads_tree, text_tree, widened, with_pointer, with_uint, words_tree};

/// A number that was set is read back, if it lies within the data section.
#[tactic(auto, using(crate::proofs::ReadBack::number_back))]
pub fn numbers_come_back()
    ensures { (t : Node) (w i n : ℕ) → i * w / 64 < length (data_of t) → n < 2 ^ w → plain (with_uint t w i n) w i ≡ n }
{}

/// A number with a default that was set, xor'd with the default, is read back, if it lies within the data section.
#[tactic(auto, using(crate::proofs::ReadBack::number_back_or))]
pub fn numbers_with_defaults_come_back()
    ensures { (t : Node) (w i n d : ℕ) → i * w / 64 < length (data_of t) → n < 2 ^ w → d < 2 ^ w → uint (with_uint t w i (bit_xor n d)) w i d ≡ n }
{}

/// A bit that was set is read back, if it lies within the data section; and so is one whose default is true, which is set turned.
#[tactic(auto, using(crate::proofs::ReadBack::bit_back, crate::proofs::ReadBack::bit_back_or_true))]
pub fn bits_come_back()
    ensures plain { (t : Node) (i : ℕ) (b : Bool) → i / 64 < length (data_of t) → flag (with_uint t 1 i (flag_bit b)) i ≡ b }
    ensures or_true { (t : Node) (i : ℕ) (b : Bool) → i / 64 < length (data_of t) → not (flag (with_uint t 1 i (flag_bit (not b))) i) ≡ b }
{}

/// Setting a number changes no other one that shares no bit with it.
#[tactic(auto, using(crate::proofs::Others::number_stays))]
pub fn numbers_stay()
    ensures { (t : Node) (w i n v j : ℕ) → IsNumber w i n → IsInWord v j → AreApart w i v j → plain (with_uint t w i n) v j ≡ plain t v j }
{}

/// What a pointer was set to is read back.
#[tactic(auto, using(crate::proofs::ReadBack::pointer_back))]
pub fn pointers_come_back()
    ensures { (t : Node) (i : ℕ) (x : Node) → i < count (pointers_of t) → pointee_of (with_pointer t i x) i ≡ x }
{}

/// Setting a pointer changes no other one.
#[tactic(auto, using(crate::proofs::Others::pointer_stays))]
pub fn pointers_stay()
    ensures { (t : Node) (i : ℕ) (x : Node) (j : ℕ) → i ≢ j → pointee_of (with_pointer t i x) j ≡ pointee_of t j }
{}

/// Numbers and pointers don't change each other.
#[tactic(auto, using(crate::proofs::Others::pointer_beside, crate::proofs::Others::number_beside))]
pub fn sections_stay()
    ensures pointer { (t : Node) (w i n j : ℕ) → pointee_of (with_uint t w i n) j ≡ pointee_of t j }
    ensures number { (t : Node) (i : ℕ) (x : Node) (w j : ℕ) → plain (with_pointer t i x) w j ≡ plain t w j }
{}

/// A builder of a struct that was read has the fields that were read.
#[tactic(auto, using(crate::proofs::Widened::number_kept, crate::proofs::Widened::pointer_kept))]
pub fn fields_are_kept()
    ensures number { (d n : ℕ) (t : Node) (w i : ℕ) → plain (widened d n t) w i ≡ plain t w i }
    ensures pointer { (d n : ℕ) (t : Node) (i : ℕ) → pointee_of (widened d n t) i ≡ pointee_of t i }
{}

/// A text that was written is read back.
#[tactic(auto, using(crate::proofs::ReadBack::text_back))]
pub fn texts_come_back()
    ensures { (default bs : List ℕ) → text_field default (text_tree bs) ≡ Ok bs }
{}

/// Data that was written is read back.
pub fn data_comes_back()
    ensures { (default bs : List ℕ) → data_field default (bytes_tree bs) ≡ Ok bs }
{}

/// A list of bits or numbers that was written is read back.
pub fn lists_come_back()
    ensures bits { (bs : List Bool) → list_field sizes.Bit (bits_tree bs) ≡ Ok (map number_item (map bit_number bs)) }
    ensures bytes { (ns : List ℕ) → list_field sizes.Byte (bytes_tree ns) ≡ Ok (map number_item ns) }
    ensures halves { (ns : List ℕ) → list_field sizes.TwoBytes (halves_tree ns) ≡ Ok (map number_item ns) }
    ensures quads { (ns : List ℕ) → list_field sizes.FourBytes (quads_tree ns) ≡ Ok (map number_item ns) }
    ensures words { (ns : List ℕ) → list_field sizes.EightBytes (words_tree ns) ≡ Ok (map number_item ns) }
{}
