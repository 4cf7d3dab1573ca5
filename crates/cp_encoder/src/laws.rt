//! The fields that are given are read from the struct that is made of them.

ghost use Rattle.std.specs.Prelude.{All};
ghost use Rattle.cp_encoder.specs.ReadBack.{HasOwnBits, HasOwnPlaces, IsNumberOf, IsPointerOf, numbers_of, pointers_of};
ghost use Rattle.cp_encoder.specs.Values.{fields_node};
ghost use Rattle.cp_encoder.specs.declared.value.Fields.{Fields};

/// Each number that is given is read back, if it lies in the struct and shares no bit with another one.
#[tactic(auto, using(crate::proofs::ReadBack::numbers_back))]
pub fn given_numbers_come_back()
    ensures { (f : Fields) → HasOwnBits f → All (IsNumberOf (fields_node f)) (numbers_of f) }
{}

/// What each pointer that is given stands for is read back, if it lies in the struct and no other one is in its place.
#[tactic(auto, using(crate::proofs::ReadBack::pointers_back))]
pub fn given_pointers_come_back()
    ensures { (f : Fields) → HasOwnPlaces f → All (IsPointerOf (fields_node f)) (pointers_of f) }
{}
