//! The trees that Cap'n Proto messages hold: as a program owns them, or as it lends their parts.
#![tactic(auto)]

mod copy;
mod draft;
mod fault;
mod lent;
mod measure;
mod shape;
mod shaped;
mod tree;
mod unknown_enumerant;
mod whole;

pub use copy::tree_copy;
pub use draft::{Draft, DraftBody};
pub use fault::WriteFault;
pub use lent::{BodiesRef, BodyRef, ListRef, RowRef, StructsRef, Top, TreeRef};
pub use measure::{fits, nests};
pub use shape::Shape;
pub use tree::{Body, Tree};
pub use unknown_enumerant::UnknownEnumerant;
pub use whole::{Object, Whole};
