//! What a vat is made of: exports with the way from a capability to them, waiting calls with what the
//! gates gave that ended, what promises, imports, answers and questions came to, marks and embargoes.
//! Each part keeps its own invariant, and `Core` is all of them.
#![tactic(auto)]

mod counted_calls;
mod counted_embargoes;
mod counts;
mod exports;
mod gates;
mod holders;
mod in_use;
mod kept;
mod marks;
mod overs;
mod own_promises;
mod parts;
mod path_marks;
mod paths;
mod resolutions;
mod sought;
mod step_fault;

pub use exports::{Exported, ExportedCap};
pub use gates::{Fulfillment, Gates, Next};
pub use marks::Marks;
pub use own_promises::OwnPromises;
pub use parts::Core;
pub use path_marks::PathMarks;
pub use resolutions::Resolutions;
pub use step_fault::StepFault;
