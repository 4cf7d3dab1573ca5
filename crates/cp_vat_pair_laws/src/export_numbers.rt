//! An export's number stays its capability's, and nothing stays exported that nobody holds.

ghost use Rattle.cp_vat_pair_laws.specs.Expected.{HoldsAlways};
ghost use Rattle.cp_vat_pair_laws.specs.Numbers.{ExportedIsHeld, FreeIsFree, LeftIsNamed, NothingIsLeft, NumbersStay};

/// No number goes to another capability while the other vat holds it or a descriptor of it that counts is
/// on the way: an export stays until then, and a number without an export is held by nobody.
pub fn numbers_stay()
    ensures stay { NumbersStay }
    ensures free { HoldsAlways FreeIsFree }
{}

/// Where no message is on the way, a vat exports exactly what the other one holds. So where both
/// applications released all that they held, both export nothing but what kept answers name, or what an
/// import came to.
pub fn nothing_is_left()
    ensures held { HoldsAlways ExportedIsHeld }
    ensures empty { HoldsAlways NothingIsLeft }
    ensures named { HoldsAlways LeftIsNamed }
{}
