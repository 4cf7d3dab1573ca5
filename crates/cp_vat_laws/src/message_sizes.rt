//! Sizes of what a vat keeps and sends: each message that a vat ever sends can be written.

ghost use Rattle.cp_vat_laws.specs.Sizes.{StepsWrite, RunsWrite};

/// At each step of a vat that keeps what is within the sizes each message that is sent can be written,
/// and what the vat keeps then is within the sizes too.
pub fn steps_write()
    ensures { StepsWrite }
{}

/// Each message that a vat ever sends can be written.
pub fn runs_write()
    ensures { RunsWrite }
{}
