//! The tree that hangs on the root pointer of a Cap'n Proto message: reading it in place and as an
//! owned value.
#![tactic(auto)]

mod area;
mod build;
mod check;
mod decide;
mod decide_list;
mod elements;
mod fault;
mod fit;
mod measure;
mod near;
mod read;
mod target;
mod view;
mod visits;

pub use decide::root_denotes;
pub use fault::TreeFault;
pub use read::{read_counted, read_root};
pub use view::View;
pub use visits::Visits;
