//! What holds of every stream.

ghost use Rattle.cp_frame.specs.Runs.{ReadsAll, ReportsAll, ReadsAnyCut, IsReadBack};
ghost use Rattle.cp_frame.specs.Stream.{HasOneReading, CutAnywhere, FaultStays, HasOneFault};
ghost use Rattle.cp_frame.specs.declared.mode.Mode.{Mode};

/// A stream of either form has one reading, wherever it is cut.
pub fn one_reading()
    ensures one { (mode : Mode) → HasOneReading mode }
    ensures cut { (mode : Mode) → CutAnywhere mode }
{}

/// A rest of a stream has one fault at most, and keeps it, whatever follows.
pub fn one_fault()
    ensures one { (mode : Mode) → HasOneFault mode }
    ensures stays { (mode : Mode) → FaultStays mode }
{}

/// What a reader gives and reports doesn't depend on the pieces in which a stream comes.
pub fn any_cut()
    ensures all { ReadsAll }
    ensures reported { ReportsAll }
    ensures any { (mode : Mode) → ReadsAnyCut mode }
{}

/// What is written is read back.
pub fn read_back()
    ensures { (mode : Mode) → IsReadBack mode }
{}
