//! The tables of one end of a connection: questions, answers, exports, imports and embargoes, each a
//! finite map from numbers to entries.
//!
//! They are the "Four Tables" of the Cap'n Proto RPC protocol (rpc.capnp), and the embargoes of its
//! `Disembargo`. An end picks the numbers of its questions, exports and embargoes; its peer picks
//! those of its answers and imports. Each table holds at most [`LIMIT`] entries, and with each entry
//! a value of its user's.
#![tactic(auto)]

mod answers;
mod counted;
mod embargoes;
mod entries;
mod exchange;
mod exports;
mod fault;
mod imports;
mod keyed;
mod placed;
mod questions;
mod slots;

pub use answers::Answers;
pub use counted::Counted;
pub use embargoes::Embargoes;
pub use entries::Entries;
pub use exchange::{Exchange, Stage};
pub use exports::Exports;
pub use fault::TableFault;
pub use imports::Imports;
pub use placed::Placed;
pub use questions::Questions;

/// How many entries a table holds at most.
/// It bounds what a peer's messages make this end keep. Some callers test it too, for their own clauses.
pub const LIMIT: usize = 65_536;
