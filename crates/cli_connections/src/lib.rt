//! What `capnp_cli` does with connections: `loop` and `serve` serve the Desk and the Cell to one after another, to a pair of
//! streams, or to many at once; `call` calls the objects of a peer, and prints what the calls came to, or the types of a schema;
//! `replay` makes the calls of a recording again.
#![tactic(auto)]

mod address;
mod asker;
mod asking;
mod counted;
mod counterparts;
mod fault;
mod figures;
mod hosted;
mod log;
mod logged;
mod loops;
mod objects;
mod outcomes;
mod replayer;
mod replaying;
mod serving;
mod types;
mod words;

pub use address::call;
pub use loops::{LONGEST_LOOP, loop_bytes, loop_file};
pub use replaying::{replay, replay_streams};
pub use serving::{serve, serve_connections, serve_port};
pub use types::print_types;
