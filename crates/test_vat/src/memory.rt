//! What no script plays: each other exchange of a vat is in test_interop.

ghost use Rattle.std.specs.Prelude.{None};
ghost use Rattle.cp_vat_machine.specs.Run.{Run};
ghost use Rattle.test_vat.specs.Rows as rows;

/// An allocation failure closes the vat.
pub fn out_of_memory()
    ensures { Run None rows.ran_out_of_memory }
{}
