//! The canonical form of a Cap'n Proto message (encoding specification, "Canonicalization"): the one encoding of a tree, to
//! sign, to hash and to compare.
#![tactic(auto)]

mod arena;
mod canonical;
mod fault;
mod fit;
mod laws;
mod lay;
mod used;

pub use canonical::{canonical_message, canonical_of, is_canonical};
pub use fault::CanonicalFault;
pub use laws::{form_denotes, one_form, written_again};
